// Adding a multiple of the kernels to `cpe` round a pixel: `sweep` and `add_kernels` of dbs.rs.
// `cpe` holds three values a pixel for the pixels of a window of the image; coordinates are the image's.
#![tactic(auto)]

ghost use Rattle.std.specs.Prelude.{◌≡◌, ◌+◌, ◌*◌, ◌<◌, ◌≤◌, length};
ghost use Rattle.base.specs.Grid.{area};
ghost use Rattle.base.specs.Limits.{max_side, max_radius, cpp_chroma};
ghost use Rattle.cpp.specs.Kernel.{KernelFits, lum_kernel, chroma_kernel};
ghost use Rattle.sweep.specs.Sweep.{Centred, first, past, footprint_of, kernel_for, sweep_of, add_kernels};
ghost use Rattle.sweep.specs.Part.{Part, RowSpan, part_of};

use base::Rect;
use color::YyCxCz;
use cpp::Kernel2D;
use spans::{Channels, Span};
use tiling::Tiling;

// a times a kernel round (x, y).
#[derive(Clone, Copy)]
pub struct Source {
    pub x: usize,
    pub y: usize,
    pub a: YyCxCz,
}

// A kernel cut at a window of the image.
#[derive(Clone, Copy)]
pub struct Cut {
    pub kernel: Kernel2D,
    pub window: Rect,
}

// A kernel of the store, cut, with the channels that it is for.
// Kept: a `Stored` and the window in the place of store and cut are no plainer: each of the eight calls by `cut`, five of them in the loops
// over rows, would make it again of the two.
// Kept: the length of `cpe` in a clause of what it adds, here and in both: a struct with it as a ghost field would be lent as `&mut`, and
// each contract would say instead that it still has the same list and window.
#[derive(Clone, Copy)]
pub struct Brush<'a> {
    pub cpp: &'a [f64],
    pub cut: Cut,
    pub channels: Channels,
    pub ghost fits: { KernelFits cut.kernel cpp.now },
}

// The kernel's first column or row inside the window.
fn first_in(m: usize, r: usize, a: usize) -> usize
    ensures { result ≡ first m r a }
{
    a.max(m.saturating_sub(r))
}

// One past its last.
fn past_in(m: usize, r: usize, b: usize) -> usize
    requires { (m ≤ max_side) × (r ≤ max_radius) }
    ensures { result ≡ past m r b }
{
    b.min(m + r + 1)
}

impl Cut {
    // The kernel's footprint round m, cut at the window.
    pub fn footprint(self, m: Source) -> Rect
        requires { (self.kernel.radius ≤ max_radius) × (m.x ≤ max_side) × (m.y ≤ max_side) }
        ensures { result ≡ footprint_of self.kernel self.window m.x m.y }
    {
        let r = self.kernel.radius;
        Rect {
            x0: first_in(m.x, r, self.window.x0),
            y0: first_in(m.y, r, self.window.y0),
            x1: past_in(m.x, r, self.window.x1),
            y1: past_in(m.y, r, self.window.y1),
        }
    }

    // Row y of the part c: where it stands, and what it grows by.
    pub fn part_at(self, m: Source, c: Rect, y: usize) -> Span
        requires radius_le_max_radius { (self.kernel.radius ≤ max_radius) × (self.kernel.from ≤ cpp_chroma) }
        requires part { Part self.kernel self.window m c }
        requires y0_le_y { (c.y0 ≤ y) × (y < c.y1) }
        ensures { RowSpan self.kernel self.window m c y result }
    {
        Span {
            a: m.a,
            at: base::place(3, self.window, c.x0, y),
            pixels: c.x1 - c.x0,
            from: self.kernel.place(
                c.x0 + self.kernel.radius - m.x,
                y + self.kernel.radius - m.y,
            ),
        }
    }
}

impl<'a> Brush<'a> {
    // The kernel for these channels, cut at the window w.
    #[inline(always)]
    pub fn new(cpp: &'a [f64], t: Tiling, channels: Channels, w: Rect) -> Brush<'a>
        requires { KernelFits (kernel_for channels t) cpp.now }
        ensures { (result.cpp.now ≡ cpp.now) × (result.cut.kernel ≡ kernel_for channels t) × (result.cut.window ≡ w) × (result.channels ≡ channels) }
    {
        // Kept: a match over an enum, as each of the two is a call of its own.
        let kernel = match channels {
            Channels::Luminance => cpp::lum_kernel(t),
            Channels::Chrominance => cpp::chroma_kernel(t),
        };
        Brush {
            cpp,
            cut: Cut { kernel, window: w },
            channels,
        }
    }

    // The part c, row by row.
    #[tactic(auto, using(base::proofs::LoopLaws::from_to_none, base::proofs::LoopLaws::from_to_more, crate::proofs::Laws::span_is), unfolding(crate::specs::Part::part_of))]
    #[inline(always)]
    pub fn sweep_rows(self, cpe: &mut [f64], m: Source, c: Rect)
        requires cpe_len { length cpe.old ≡ 3 * area self.cut.window }
        requires part { Part self.cut.kernel self.cut.window m c }
        ensures { cpe.new ≡ part_of self.entry.channels self.entry.cpp.now self.entry.cut.kernel self.entry.cut.window m c cpe.old }
    {
        for y in c.y0..c.y1 {
            spans::add_span(cpe, self.cpp, self.channels, self.cut.part_at(m, c, y));
        }
    }

    // The kernel's whole footprint round m.
    #[tactic(auto, using(crate::proofs::Laws::whole_part, crate::proofs::Laws::whole_is))]
    #[inline(always)]
    fn sweep(self, cpe: &mut [f64], m: Source)
        requires centred { Centred self.cut.window m.x m.y }
        requires cpe_len { length cpe.old ≡ 3 * area self.cut.window }
        ensures { cpe.new ≡ sweep_of self.entry.channels m.a self.entry.cpp.now self.entry.cut.kernel self.entry.cut.window m.x m.y cpe.old }
    {
        self.sweep_rows(cpe, m, self.cut.footprint(m));
    }
}

// Both kernels are added to `cpe` round m, cut at the window.
#[tactic(auto, unfolding(crate::specs::Sweep::add_kernels))]
#[inline(never)]
pub fn add_kernels(cpe: &mut [f64], cpp: &[f64], t: Tiling, w: Rect, m: Source)
    requires kernel_fits { KernelFits (lum_kernel t) cpp.now }
    requires kernel_fits_2 { KernelFits (chroma_kernel t) cpp.now }
    requires centred { Centred w m.x m.y }
    requires cpe_len { length cpe.old ≡ 3 * area w }
    ensures { cpe.new ≡ add_kernels cpp.now t w m.x m.y m.a cpe.old }
{
    Brush::new(cpp, t, Channels::Luminance, w).sweep(cpe, m);
    Brush::new(cpp, t, Channels::Chrominance, w).sweep(cpe, m);
}
