// Both kernels added round two neighbours at once, as a swap asks for: row by row, where both reach
// each pixel grows by the one and then by the other; then what each of the two reaches alone.
#![tactic(auto)]

ghost use Rattle.std.specs.Prelude.{◌≡◌, ◌*◌, length};
ghost use Rattle.base.specs.Grid.{area};
ghost use Rattle.cpp.specs.Kernel.{KernelFits, lum_kernel, chroma_kernel};
ghost use Rattle.sweep.specs.Sweep.{sweep_of, add_kernels};
ghost use Rattle.both.specs.Both.{share_of, lone_of, common_of, alone_of, Shares, Twins};

use base::Rect;
use spans::Channels;
use std::ops::Range;
use sweep::{Brush, Source};
use tiling::Tiling;

// What both kernels reach; beside it, in the same rows, what the one reaches alone and what the other.
#[derive(Clone, Copy)]
pub struct Shared {
    pub common: Rect,
    pub one: Rect,
    pub two: Rect,
}

// What a kernel reaches alone: columns beside what both reach, and whole rows.
#[derive(Clone, Copy)]
pub struct Rest {
    pub columns: Rect,
    pub rows: Rect,
}

// The rows that both kernels reach.
#[tactic(auto, using(base::proofs::LoopLaws::from_to_none, base::proofs::LoopLaws::from_to_more, crate::proofs::Laws::share_row_is), unfolding(crate::specs::Both::share_of))]
#[inline(always)]
fn share_rows(cpe: &mut [f64], b: Brush<'_>, m: Source, n: Source, s: Shared)
    requires cpe_len { length cpe.old ≡ 3 * area b.cut.window }
    requires shares { Shares b.cut.kernel b.cut.window m n s }
    ensures { cpe.new ≡ share_of b.entry.channels b.entry.cpp.now b.entry.cut.kernel b.entry.cut.window m n s cpe.old }
{
    for y in s.common.y0..s.common.y1 {
        let common = b.cut.part_at(m, s.common, y);
        let other = b.cut.part_at(n, s.common, y);
        spans::add_spans(cpe, b.cpp, b.channels, common, other);
        spans::add_pixel(cpe, b.cpp, b.channels, b.cut.part_at(m, s.one, y));
        spans::add_pixel(cpe, b.cpp, b.channels, b.cut.part_at(n, s.two, y));
    }
}

// Of the range f what the range g has not, where that is at most one side.
#[tactic(auto, unfolding(crate::specs::Both::lone_of))]
fn lone(f: Range<usize>, g: Range<usize>) -> Range<usize>
    ensures { result ≡ lone_of f.start f.end g.start g.end }
{
    if f.start < g.start {
        f.start..g.start
    } else {
        f.end.min(g.end)..f.end
    }
}

// What two footprints share.
fn common(f: Rect, g: Rect) -> Rect
    ensures { result ≡ common_of f g }
{
    Rect {
        x0: f.x0.max(g.x0),
        y0: f.y0.max(g.y0),
        x1: f.x1.min(g.x1),
        y1: f.y1.min(g.y1),
    }
}

// What the footprint f has outside of the footprint g, where they share c.
fn alone(f: Rect, g: Rect, c: Rect) -> Rest
    ensures { result ≡ alone_of f g c }
{
    let x = lone(f.x0..f.x1, g.x0..g.x1);
    let y = lone(f.y0..f.y1, g.y0..g.y1);
    Rest {
        columns: Rect {
            x0: x.start,
            y0: c.y0,
            x1: x.end,
            y1: c.y1,
        },
        rows: Rect {
            x0: f.x0,
            y0: y.start,
            x1: f.x1,
            y1: y.end,
        },
    }
}

// The kernel's footprints round m and then round n.
#[tactic(auto, using(crate::proofs::Laws::one_rows, crate::proofs::Laws::two_rows))]
#[inline(always)]
fn sweep_both(cpe: &mut [f64], b: Brush<'_>, m: Source, n: Source)
    requires cpe_len { length cpe.old ≡ 3 * area b.cut.window }
    requires twins { Twins b.cut.window m n }
    ensures { cpe.new ≡ sweep_of b.entry.channels n.a b.entry.cpp.now b.entry.cut.kernel b.entry.cut.window n.x n.y (sweep_of b.entry.channels m.a b.entry.cpp.now b.entry.cut.kernel b.entry.cut.window m.x m.y cpe.old) }
{
    let f = b.cut.footprint(m);
    let g = b.cut.footprint(n);
    let common = common(f, g);
    let one = alone(f, g, common);
    let two = alone(g, f, common);
    let shared = Shared {
        common,
        one: one.columns,
        two: two.columns,
    };
    share_rows(cpe, b, m, n, shared);
    b.sweep_rows(cpe, m, one.rows);
    b.sweep_rows(cpe, n, two.rows);
}

// Both kernels are added to `cpe` round m and then round n, each cut at the window.
#[tactic(auto, using(sweep::proofs::Point::sized_sweep, crate::proofs::Laws::either_first), unfolding(sweep::specs::Sweep::add_kernels))]
#[inline(never)]
pub fn add_both(cpe: &mut [f64], cpp: &[f64], t: Tiling, w: Rect, m: Source, n: Source)
    requires kernel_fits { KernelFits (lum_kernel t) cpp.now }
    requires kernel_fits_2 { KernelFits (chroma_kernel t) cpp.now }
    requires cpe_len { length cpe.old ≡ 3 * area w }
    requires twins { Twins w m n }
    ensures { cpe.new ≡ add_kernels cpp.now t w n.x n.y n.a (add_kernels cpp.now t w m.x m.y m.a cpe.old) }
{
    sweep_both(cpe, Brush::new(cpp, t, Channels::Luminance, w), m, n);
    sweep_both(cpe, Brush::new(cpp, t, Channels::Chrominance, w), m, n);
}
