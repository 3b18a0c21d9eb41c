// Refining one tile: `refine_tile` of dbs.rs, on a window of the image. The window is the whole image
// in the plain walk and the tile's region where a worker refines a copy: one function, one proof.
// Coordinates are the image's; `cpe` and `indices` hold the pixels of the window.
#![tactic(auto)]

ghost use Rattle.std.specs.Prelude.{◌≡◌, ◌<◌, ◌≤◌, ◌^◌, length};
ghost use Rattle.search.specs.Shared.{shared_of, Ready, Held};
ghost use Rattle.tile.specs.Tile.{state, visit_of, refine_row, refine_tile, no_progress, Covers};

use base::{Index, Rect};
use pins::Pins;
use progress::Progress;
use search::{Setup, Tabled};

// One pixel: its best move, unless it is pinned.
// Kept: `cpe` and `indices` apart: as one struct lent as `&mut`, tried, each contract says of both fields too that they still are the
// caller's (`ghost_name`), or the caller learns nothing of them, and each loop keeps it: no plainer.
#[tactic(auto, using(crate::proofs::Walked::best_names), unfolding(crate::specs::Tile::visit_of, crate::specs::Tile::applied))]
fn visit(
    cpe: &mut [f64],
    indices: &mut [Index],
    s: Tabled<'_>,
    x: usize,
    y: usize,
    p: Progress,
) -> Progress
    requires ready { Ready (shared_of s.setup) s.tab.w (length cpe.old) indices.old }
    requires held { Held s.setup.tiling s.tab.w x y }
    requires accepted_bound { p.accepted < 2 ^ 62 }
    ensures { state cpe.new indices.new result ≡ visit_of (shared_of s.entry.setup) s.entry.tab.w x y (state cpe.old indices.old p) }
{
    let mask = Pins {
        pinned: s.setup.pinned,
        width: s.setup.tiling.width,
    };
    if mask.is_pinned(x, y) {
        return p;
    }
    let best = search::evaluate(cpe, indices, s, x, y);
    moves::apply_move(cpe, indices, s.setup, s.tab.w, x, y, best.mv);
    p.count_move(best)
}

// Row y of the tile q.
// Kept: `Covers` in three contracts: it is of the tile and the window of the tables. A struct of both would be made for these three alone.
#[tactic(auto, unfolding(crate::specs::Tile::refine_row))]
fn refine_row(
    cpe: &mut [f64],
    indices: &mut [Index],
    s: Tabled<'_>,
    q: Rect,
    y: usize,
    p: Progress,
) -> Progress
    requires ready { Ready (shared_of s.setup) s.tab.w (length cpe.old) indices.old }
    requires covers { Covers s.setup.tiling s.tab.w q }
    requires y0_le_y { (q.y0 ≤ y) × (y < q.y1) × (p.accepted < 2 ^ 61) }
    ensures { state cpe.new indices.new result ≡ refine_row (shared_of s.entry.setup) s.entry.tab.w q y (state cpe.old indices.old p) }
{
    let mut n = p;
    for x in q.x0..q.x1 {
        n = visit(cpe, indices, s, x, y, n);
    }
    n
}

// The pixels of the tile q, row by row.
#[tactic(auto, unfolding(crate::specs::Tile::refine_tile))]
fn refine_rows(cpe: &mut [f64], indices: &mut [Index], s: Tabled<'_>, q: Rect) -> Progress
    requires ready { Ready (shared_of s.setup) s.tab.w (length cpe.old) indices.old }
    requires covers { Covers s.setup.tiling s.tab.w q }
    ensures { state cpe.new indices.new result ≡ refine_tile (shared_of s.entry.setup) s.entry.tab.w q (state cpe.old indices.old no_progress) }
{
    let mut n = Progress::default();
    for y in q.y0..q.y1 {
        n = refine_row(cpe, indices, s, q, y, n);
    }
    n
}

// The tile q. What depends only on the kernels and the window is worked out once.
#[tactic(auto, unfolding(tables::specs::Tables::tables_of, tiling::specs::Tiling::image))]
pub fn refine_tile(
    cpe: &mut [f64],
    indices: &mut [Index],
    s: Setup<'_>,
    w: Rect,
    q: Rect,
) -> Progress
    requires ready { Ready (shared_of s) w (length cpe.old) indices.old }
    requires covers { Covers s.tiling w q }
    ensures { state cpe.new indices.new result ≡ refine_tile (shared_of s.entry) w q (state cpe.old indices.old no_progress) }
{
    let tabled = Tabled {
        setup: s,
        tab: tables::tables_of(s.cpp, s.tiling, w),
    };
    refine_rows(cpe, indices, tabled, q)
}
