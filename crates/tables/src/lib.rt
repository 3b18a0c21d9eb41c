// What costs are read from, worked out once for a tile: the kernels at their centres and next to them, and
// the steps to a pixel's neighbours. Nothing here reads the image.
#![tactic(auto)]

ghost use Rattle.std.specs.Prelude.{◌≡◌, ◌<◌, ◌≤◌, length, Float};
ghost use Rattle.base.specs.Limits.{max_side, cpp_length};
ghost use Rattle.base.specs.Loop.{table};
ghost use Rattle.tiling.specs.Tiling.{Limits};
ghost use Rattle.cpp.specs.declared.Kernel2D.{Kernel2D};
ghost use Rattle.cost.specs.Cost.{beside_of, both, centres, gaps};
ghost use Rattle.tables.specs.Tables.{step_of, step_both, tables_of, TablesFit};

use base::Rect;
use color::YyCxCz;
use cpp::Stored;
use std::array;
use tiling::Tiling;

// Where a pixel stands in the window and in the mask, or how far on.
#[derive(Clone, Copy)]
pub struct Position {
    pub window: usize,
    pub mask: usize,
}

// What is worked out once for a tile: its window, the kernels at their centres, the kernels at their
// centres less next to them by code, and the steps to neighbours by code.
#[derive(Clone, Copy)]
pub struct Tables {
    pub w: Rect,
    pub centre: YyCxCz,
    pub gaps: [YyCxCz; 8],
    pub steps: [Position; 8],
}

// The kernel's value next to its centre. A kernel of radius 1 or more has all eight.
// Kept: `code < 8` in a clause, here and in `besides`: `neighbour` has document 01's codes as numbers, of which it takes any, so that a type
// of those below 8 would be made of the number that `from_fn` counts with and read as it again.
#[tactic(auto, using(crate::proofs::AllEight::centre_found), unfolding(cost::specs::Cost::beside_of))]
fn beside(k: Stored<'_>, code: u8) -> f64
    requires { (1 ≤ k.kernel.radius) × (code < 8) }
    ensures { result ≡ beside_of k.entry.cpp.now k.entry.kernel code }
{
    let r = k.kernel.radius;
    let size = k.kernel.size();
    let Some((x, y)) = neighbour::neighbour(code, r, r, size, size) else {
        unreachable!();
    };
    k.at(x, y)
}

// The kernels of a tiling's channels, in their store.
#[derive(Clone, Copy)]
struct Kernels<'a> {
    cpp: &'a [f64],
    tiling: Tiling,
    ghost limits: { Limits tiling },
    ghost least: { (1 ≤ tiling.lum) × (1 ≤ tiling.chroma) },
    ghost room: { length cpp.now ≡ cpp_length },
}

impl<'a> Kernels<'a> {
    // What f gives of each channel's kernel.
    fn both<F: Fn(Stored<'a>) -> f64>(self, f: F) -> YyCxCz
        requires { (k : _) → 1 ≤ k.kernel.radius → F.pre f k }
        ensures { (g : Kernel2D → Float) → ((k : _) (r : Float) → k.cpp.now ≡ self.entry.cpp.now → F.post f k r → r ≡ g k.kernel) → result ≡ both g self.entry.tiling }
    {
        let lum = f(Stored {
            cpp: self.cpp,
            kernel: cpp::lum_kernel(self.tiling),
        });
        let chroma = f(Stored {
            cpp: self.cpp,
            kernel: cpp::chroma_kernel(self.tiling),
        });
        YyCxCz {
            yy: lum,
            cx: chroma,
            cz: chroma,
        }
    }

    // `cpp0`: each channel's kernel at its centre.
    fn centres(self) -> YyCxCz
        ensures { result ≡ centres self.entry.cpp.now self.entry.tiling }
    {
        self.both(|k| k.centre())
    }

    // Each channel's kernel next to its centre.
    fn besides(self, code: u8) -> YyCxCz
        requires { code < 8 }
        ensures { result ≡ both (λ k. beside_of self.entry.cpp.now k code) self.entry.tiling }
    {
        self.both(|k| beside(k, code))
    }

    // The kernels at their centres less next to them, by code.
    fn gaps(self) -> [YyCxCz; 8]
        ensures { result ≡ table 8 (gaps self.entry.cpp.now self.entry.tiling) }
    {
        let centre = self.centres();
        array::from_fn(|code| centre - self.besides(code as u8))
    }
}

// How many pixels of the window lie from the one above and left of a pixel to its neighbour by this code.
// Kept: the limit of the window's side in a clause, here and in `steps_of`: a type for it would be made of a `Rect` at each call: no plainer.
#[tactic(auto, unfolding(crate::specs::Tables::step_of))]
fn step_of(w: Rect, code: u8) -> usize
    requires { (w.x1 ≤ max_side) × (w.x0 ≤ w.x1) }
    ensures { result ≡ step_of w code }
{
    match neighbour::neighbour(code, 1, 1, 3, 3) {
        Some((x, y)) => y * (w.x1 - w.x0) + x,
        None => 0,
    }
}

// The same by code, in the window and in the mask.
fn steps_of(w: Rect, image: Rect) -> [Position; 8]
    requires window { (w.x1 ≤ max_side) × (w.x0 ≤ w.x1) }
    requires image { (image.x1 ≤ max_side) × (image.x0 ≤ image.x1) }
    ensures { result ≡ table 8 (step_both w image) }
{
    array::from_fn(|code| Position {
        window: step_of(w, code as u8),
        mask: step_of(image, code as u8),
    })
}

// The tables of a tile on the window w.
#[tactic(auto, unfolding(crate::specs::Tables::tables_of, tiling::specs::Tiling::image))]
pub fn tables_of(cpp: &[f64], t: Tiling, w: Rect) -> Tables
    requires { TablesFit cpp.now t w }
    ensures { result ≡ tables_of cpp.now t w }
{
    let kernels = Kernels { cpp, tiling: t };
    Tables {
        w,
        centre: kernels.centres(),
        gaps: kernels.gaps(),
        steps: steps_of(w, t.image_rect()),
    }
}
