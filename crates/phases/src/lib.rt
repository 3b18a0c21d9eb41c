// The tiles of a phase, one after the other on the whole image.
#![tactic(auto)]

ghost use Rattle.std.specs.Prelude.{◌≡◌, ◌<◌, ◌^◌, length};
ghost use Rattle.tiling.specs.Tiling.{image, tiles};
ghost use Rattle.search.specs.Shared.{shared_of, Ready};
ghost use Rattle.phases.specs.Phases.{refined, walk_tile, walk_try, walk_tiles};

use base::Index;
use search::Setup;
use tiling::Tiles;

// The error so far, and the moves accepted in this pass.
#[derive(Clone, Copy)]
pub struct Run {
    pub error: f64,
    pub accepted: usize,
}

// One tile on the whole image: its delta joins the error after it.
// Kept: `cpe` and `indices` apart: as one struct lent as `&mut`, tried, each contract says of both fields too that they still are the
// caller's (`ghost_name`), or the caller learns nothing of them, and each loop keeps it: no plainer.
#[tactic(auto, using(crate::proofs::Laws::image_covers), unfolding(crate::specs::Phases::walk_tile))]
fn walk_tile(cpe: &mut [f64], indices: &mut [Index], s: Setup<'_>, tile: usize, run: Run) -> Run
    requires ready { Ready (shared_of s) (image s.tiling) (length cpe.old) indices.old }
    requires tile_bound { (tile < tiles s.tiling) × (run.accepted < 2 ^ 48) }
    ensures { refined cpe.new indices.new result ≡ walk_tile (shared_of s.entry) tile (refined cpe.old indices.old run) }
{
    let w = s.tiling.image_rect();
    let tiles = Tiles { tiling: s.tiling };
    let q = tiles.tile_rect(tile);
    let p = tile::refine_tile(cpe, indices, s, w, q);
    Run {
        error: run.error + p.delta,
        accepted: run.accepted + p.accepted,
    }
}

// The tile, if it is one of the phase.
#[tactic(auto, unfolding(crate::specs::Phases::walk_try))]
fn walk_try(
    cpe: &mut [f64],
    indices: &mut [Index],
    s: Setup<'_>,
    phase: usize,
    tile: usize,
    run: Run,
) -> Run
    requires ready { Ready (shared_of s) (image s.tiling) (length cpe.old) indices.old }
    requires tile_bound { (tile < tiles s.tiling) × (run.accepted < 2 ^ 48) }
    ensures { refined cpe.new indices.new result ≡ walk_try (shared_of s.entry) phase tile (refined cpe.old indices.old run) }
{
    let tiles = Tiles { tiling: s.tiling };
    if tiles.is_in_phase(phase, tile) {
        return walk_tile(cpe, indices, s, tile, run);
    }
    run
}

// The tiles of a phase in ascending number.
#[tactic(auto, unfolding(crate::specs::Phases::walk_tiles))]
pub fn walk_tiles(
    cpe: &mut [f64],
    indices: &mut [Index],
    s: Setup<'_>,
    phase: usize,
    run: Run,
) -> Run
    requires ready { Ready (shared_of s) (image s.tiling) (length cpe.old) indices.old }
    requires accepted_bound { run.accepted < 2 ^ 40 }
    ensures { refined cpe.new indices.new result ≡ walk_tiles (shared_of s.entry) phase (refined cpe.old indices.old run) }
{
    let tiles = Tiles { tiling: s.tiling };
    let mut n = run;
    for tile in 0..tiles.tile_count() {
        n = walk_try(cpe, indices, s, phase, tile, n);
    }
    n
}
