// Everything up to the walk: the first half of `dbs_refine` of dbs.rs. Ink values, kernels, `cpe` and
// the initial error of an accepted input, into lent buffers.
#![tactic(auto)]

ghost use Rattle.std.specs.Prelude.{◌≡◌, length};
ghost use Rattle.error.specs.Scenes.{image_of};
ghost use Rattle.input.specs.Inputs.{input_of};
ghost use Rattle.prepare.specs.Prepare.{inks_of, scene_of, RoomFor, Built, Prepared};

use error::Scene;
use sizes::Accepted;

// What the errors of an accepted input are made of, with its ink values.
fn scene<'a>(a: Accepted<'a>, inks: &'a [f64]) -> Scene<'a>
    requires { inks.now ≡ inks_of (input_of a.given) }
    ensures size { (result.width ≡ a.entry.tiling.width) × (result.height ≡ a.entry.tiling.height) }
    ensures image { image_of result ≡ scene_of (input_of a.entry.given) }
{
    let given = a.given;
    Scene {
        width: a.tiling.width,
        height: a.tiling.height,
        pixels: given.pixels,
        indices: given.indices,
        pinned: given.pinned,
        inks,
    }
}

// Ink values, kernels and `cpe` into the lent buffers.
// Kept: three lent buffers with their lengths in a clause: as a struct lent as `&mut` the clause would say of each that it still is the
// caller's (`ghost_name`), and be no shorter.
pub fn build(a: Accepted<'_>, inks: &mut [f64], cpp: &mut [f64], cpe: &mut [f64])
    requires { RoomFor (input_of a.given) (length inks.old) (length cpp.old) (length cpe.old) }
    ensures { Built (input_of a.entry.given) cpp.old inks.new cpp.new cpe.new }
{
    color::palette_to_inks(a.given.palette, inks);
    kernel::eye_kernels(a.given.params, cpp);
    field::initial_field(scene(a, inks), cpp, a.tiling, cpe);
}

// The same; the answer is the initial error.
pub fn prepare(a: Accepted<'_>, inks: &mut [f64], cpp: &mut [f64], cpe: &mut [f64]) -> f64
    requires { RoomFor (input_of a.given) (length inks.old) (length cpp.old) (length cpe.old) }
    ensures { Prepared (input_of a.entry.given) cpp.old inks.new cpp.new cpe.new result }
{
    build(a, inks, cpp, cpe);
    scene(a, inks).initial_error(cpe)
}
