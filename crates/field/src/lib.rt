// `cpe`, the error correlated with the kernels: document 01's field, `correlate` of dbs.rs. It is worked
// out into lines: line 3y + c of `cpe` is channel c of row y. At the end the lines of each row are woven
// into a row of pixels.
#![tactic(auto)]

ghost use Rattle.std.specs.Prelude.{◌≡◌, ◌*◌, length};
ghost use Rattle.color.specs.Inks.{number};
ghost use Rattle.correlate.specs.Correlate.{Spread};
ghost use Rattle.error.specs.Scenes.{image_of};
ghost use Rattle.field.specs.Field.{channel_kernel, field_of, FieldFits};
ghost use Rattle.field.specs.Lines.{channel_lines, channel_block, channel_sum};

use base::MAX_SIDE;
use block::Block;
use color::Channel;
use correlate::Lines;
use cpp::{Kernel2D, Stored};
use error::Scene;
use tiling::Tiling;

// The kernel of a channel, `cpp[ch]` of dbs.rs.
#[tactic(auto, unfolding(crate::specs::Field::channel_kernel))]
fn channel_kernel(t: Tiling, c: Channel) -> Kernel2D
    ensures { result ≡ channel_kernel t (number c) }
{
    match c {
        Channel::Yy => cpp::lum_kernel(t),
        Channel::Cx | Channel::Cz => cpp::chroma_kernel(t),
    }
}

// The lines of a channel: a block as large as the image.
fn channel_block(t: Tiling, c: Channel, radius: usize) -> Block
    ensures { result ≡ channel_block t c radius }
{
    Block {
        channel: c,
        x: 0,
        y: 0,
        rows: t.height,
        before: radius,
        after: radius,
        lines: Lines {
            width: t.width,
            first: c as usize,
            step: 3,
        },
    }
}

// A channel of `correlate`, added to its lines.
// Kept: the length of `cpe` in a clause: a struct with it as a ghost field would be lent as `&mut`, and each contract would say instead
// that it still has the same list and tiling.
fn correlate_channel(
    scene: Scene<'_>,
    cpp: &[f64],
    t: Tiling,
    c: Channel,
    line: &mut [f64],
    cpe: &mut [f64],
)
    requires field_fits { FieldFits t scene.width scene.height (length cpp.now) }
    requires room { (length line.old ≡ t.width) × (length cpe.old ≡ 3 * (t.height * t.width)) }
    ensures { Spread (channel_lines t (number c)) 0 t.height (channel_sum t (image_of scene.entry) cpp.now (number c)) cpe.old cpe.new }
{
    let kernel = channel_kernel(t, c);
    let taps = Stored { cpp, kernel }.values();
    channel_block(t, c, kernel.radius).correlate(scene, taps, line, cpe);
}

// The initial `cpe`, three values a pixel: document 01's field.
// Kept: the length of `cpe` in a clause, as in `correlate_channel`; so in error and regions.
pub fn initial_field(scene: Scene<'_>, cpp: &[f64], t: Tiling, cpe: &mut [f64])
    requires field_fits { FieldFits t scene.width scene.height (length cpp.now) }
    requires cpe_len { length cpe.old ≡ 3 * (t.height * t.width) }
    ensures { cpe.new ≡ field_of t (image_of scene.entry) cpp.now }
{
    let mut line = [0.0f64; MAX_SIDE];
    let mut lines = [0.0f64; 3 * MAX_SIDE];
    cpe.fill(0.0);
    for c in Channel::ALL {
        correlate_channel(scene, cpp, t, c, &mut line[..t.width], cpe);
    }
    weave::weave_rows(cpe, t, &mut lines[..3 * t.width]);
}
