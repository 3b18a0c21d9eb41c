// Tiles: how `dbs_refine` of dbs.rs cuts the image into tiles, phases and regions. Each function gives
// what its definition in specs/ says, for an image within the limits. proofs/TilingLaws.antt has what the
// definitions promise: the tiles cover the image once, and regions of one phase share no pixel.
#![tactic(auto)]

ghost use Rattle.std.specs.Prelude.{◌≡◌, ◌+◌, ◌-◌, ◌/◌, ◌^◌, ◌<◌};
ghost use Rattle.tiling.specs.Tiling as spec;
ghost use Rattle.tiling.specs.Tiling.{Limits};

use base::Rect;

// All that tiles are made of: the size of the image and the radii of both autocorrelation kernels.
#[derive(Clone, Copy)]
pub struct Tiling {
    pub width: usize,
    pub height: usize,
    pub lum: usize,
    pub chroma: usize,
}

impl Tiling {
    // The whole image.
    pub fn image_rect(self) -> Rect
        ensures { result ≡ spec.image self }
    {
        Rect {
            x0: 0,
            y0: 0,
            x1: self.width,
            y1: self.height,
        }
    }
}

// A tiling within document 01's limits, and so its tiles.
#[derive(Clone, Copy)]
pub struct Tiles {
    pub tiling: Tiling,
    pub ghost limits: { Limits tiling },
}

// Smallest tile side. Larger tiles amortise the region copies; smaller ones expose more
// parallelism. The correctness bound (2 margin + 1) is enforced separately.
const MIN_TILE: usize = 64;

impl Tiles {
    // How far beyond its tile a move writes: the larger radius, and one pixel more for a swap's neighbour.
    pub fn margin(self) -> usize
        ensures { result ≡ spec.margin self.tiling }
    {
        self.tiling.lum.max(self.tiling.chroma) + 1
    }

    pub fn side(self) -> usize
        ensures { result ≡ spec.side self.tiling }
    {
        MIN_TILE.max(2 * self.margin() + 1)
    }

    // Kept: a line each, and what they share is `div_ceil`.
    pub fn columns(self) -> usize
        ensures { result ≡ spec.columns self.tiling }
    {
        self.tiling.width.div_ceil(self.side())
    }

    pub fn rows(self) -> usize
        ensures { result ≡ spec.rows self.tiling }
    {
        self.tiling.height.div_ceil(self.side())
    }

    pub fn tile_count(self) -> usize
        ensures { result ≡ spec.tiles self.tiling }
    {
        self.rows() * self.columns()
    }

    // The column and the row of a tile, whose number is ty * columns + tx.
    fn tile_x(self, tile: usize) -> usize
        ensures { result ≡ spec.tile_x self.tiling tile }
    {
        tile % self.columns()
    }

    fn tile_y(self, tile: usize) -> usize
        ensures { result ≡ spec.tile_y self.tiling tile }
    {
        tile / self.columns()
    }

    // Phases 0 to 3 take (tx mod 2, ty mod 2) = (0, 0), (1, 0), (0, 1), (1, 1). Any phase and any tile
    // number may be asked for.
    pub fn is_in_phase(self, phase: usize, tile: usize) -> bool
        ensures { result ≡ spec.in_phase self.tiling phase tile }
    {
        self.tile_x(tile) % 2 == phase % 2 && self.tile_y(tile) % 2 == phase / 2
    }

    // The pixels of a tile.
    // Kept: `tile < tiles` in a clause, here and in records, regions and phases: a tile is document 01's number, of which `is_in_phase` and
    // the tests take any; a type of those of the image would be made of the number at each call and read as it again: no plainer.
    pub fn tile_rect(self, tile: usize) -> Rect
        requires { tile < spec.tiles self.tiling }
        ensures { result ≡ spec.tile self.tiling tile }
    {
        let side = self.side();
        let x0 = self.tile_x(tile) * side;
        let y0 = self.tile_y(tile) * side;
        Rect {
            x0,
            y0,
            x1: self.tiling.width.min(x0 + side),
            y1: self.tiling.height.min(y0 + side),
        }
    }

    // `with_margin` of dbs.rs: the part of the image that the tile's moves read and write.
    pub fn region_rect(self, tile: usize) -> Rect
        requires { tile < spec.tiles self.tiling }
        ensures { result ≡ spec.region self.tiling tile }
    {
        self.tile_rect(tile)
            .with_margin(self.margin(), self.tiling.width, self.tiling.height)
    }
}
