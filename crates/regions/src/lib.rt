// A tile's region copied out of the image, and a copy written over it: rows of `cpe` and of the indices go into
// parts of the lent copies, and back.
#![tactic(auto)]

ghost use Rattle.std.specs.Prelude.{◌≡◌, ◌*◌, ◌<◌, length};
ghost use Rattle.base.specs.Grid.{area};
ghost use Rattle.tiling.specs.Tiling.{tiles, region};
ghost use Rattle.job.specs.Copy.{pixels, copy_of, written_back};

use base::Index;
use tiling::Tiles;

// The region of a tile into both copies.
// Kept: `cpe` and `indices` apart: as one struct lent as `&mut`, tried, each contract says of both fields too that they still are the
// caller's (`ghost_name`), or the caller learns nothing of them, and each loop keeps it: no plainer.
pub fn copy_region(
    t: Tiles,
    tile: usize,
    indices: &[Index],
    cpe: &[f64],
    copy_cpe: &mut [f64],
    copy_indices: &mut [Index],
)
    requires tile_bound { tile < tiles t.tiling }
    requires cpe_len { (length cpe.now ≡ 3 * (t.tiling.height * t.tiling.width)) × (length indices.now ≡ t.tiling.height * t.tiling.width) }
    requires copy_cpe_len { (length copy_cpe.old ≡ 3 * area (region t.tiling tile)) × (length copy_indices.old ≡ area (region t.tiling tile)) }
    ensures { pixels copy_cpe.new copy_indices.new ≡ copy_of t.tiling tile (pixels cpe.now indices.now) }
{
    let image = t.tiling.image_rect();
    let region = t.region_rect(tile);
    copy::copy_out(cpe, indices, image, region, copy_cpe, copy_indices);
}

// The copies over the region of a tile.
pub fn write_region(
    t: Tiles,
    tile: usize,
    indices: &mut [Index],
    cpe: &mut [f64],
    copy_cpe: &[f64],
    copy_indices: &[Index],
)
    requires tile_bound { tile < tiles t.tiling }
    requires cpe_len { (length cpe.old ≡ 3 * (t.tiling.height * t.tiling.width)) × (length indices.old ≡ t.tiling.height * t.tiling.width) }
    requires copy_cpe_len { (length copy_cpe.now ≡ 3 * area (region t.tiling tile)) × (length copy_indices.now ≡ area (region t.tiling tile)) }
    ensures { pixels cpe.new indices.new ≡ written_back t.tiling tile (pixels cpe.old indices.old) (pixels copy_cpe.now copy_indices.now) }
{
    let image = t.tiling.image_rect();
    let region = t.region_rect(tile);
    copy::copy_part(3, copy_cpe, region, cpe, image, region);
    copy::copy_part(1, copy_indices, region, indices, image, region);
}
