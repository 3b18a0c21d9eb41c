// The first move that a pass would accept: the pixels in the order of a whole pass, each looked at as it is at the state
// that the pass starts from. `cpe` and `indices` hold the image, and nothing of it is changed. Pixels are looked at by the
// walk over a tile itself, on a copy of them and their neighbours: so that it weighs them, and stays the one caller of
// `search::evaluate`, which the compiler then makes a part of it.
#![tactic(auto)]

ghost use Rattle.std.specs.Prelude.{◌≡◌, not, None, ◌<◌, eqb, length};
ghost use Rattle.std.specs.Float.{nan};
ghost use Rattle.base.specs.Grid.{crop};
ghost use Rattle.tiling.specs.Tiling.{image};
ghost use Rattle.search.specs.Shared.{shared_of, Ready};
ghost use Rattle.firstmove.specs.Copies.{Row, around, walked, count_of};
ghost use Rattle.firstmove.specs.FirstMove.{kind_number, move_at, first_in_phase, first_in_pass};

use base::{Index, Rect};
use places::Pixel;
use search::Setup;
use tiling::Tiles;

// The kinds of a move.
#[derive(Clone, Copy)]
pub enum Kind {
    Toggle,
    Swap,
}

// Its number in an answer.
impl From<Kind> for u64 {
    ghost from_gives = { λ k n. n ≡ kind_number k };

    fn from(kind: Kind) -> u64 {
        kind as u64
    }
}

// A pixel with the kind and the cost of its best move.
#[derive(Clone, Copy)]
pub struct FirstMove {
    pub pixel: usize,
    pub kind: Kind,
    pub cost: f64,
}

// The image as a pass starts from it: `cpe` and the indices of the whole image, and what every tile reads.
#[derive(Clone, Copy)]
struct Image<'a> {
    cpe: &'a [f64],
    indices: &'a [Index],
    setup: Setup<'a>,
    ghost ready: { Ready (shared_of setup) (image setup.tiling) (length cpe.now) indices.now },
}

// Room for the pixels of a row of a tile, which is at most 67 wide, with those around it.
const ROOM: usize = 207;

// Where a copy lies.
#[derive(Drop)]
struct Buffers {
    cpe: [f64; 3 * ROOM],
    indices: [Index; ROOM],
}

// A copy of the window w of the image.
struct Copied<'c> {
    w: Rect,
    cpe: &'c mut [f64],
    indices: &'c mut [Index],
}

// How many indices are k.
#[tactic(auto, using(crate::proofs::Pixel::count_is))]
fn count_ink(indices: &[Index], k: usize) -> usize
    ensures { result ≡ count_of k indices.now }
{
    indices.iter().filter(|i| usize::from(**i) == k).count()
}

impl<'a> Image<'a> {
    // A copy of the pixels q and their neighbours.
    #[tactic(auto, using(crate::proofs::Rooms::room), unfolding(crate::specs::Copies::around, base::specs::Grid::area, base::specs::Grid::width, base::specs::Grid::height))]
    fn copy_around<'c>(self, q: Rect, buffers: &'c mut Buffers) -> Copied<'c>
        requires { Row self.setup.tiling q }
        ensures window_is { result.w ≡ around self.entry.setup.tiling q }
        ensures cpe_is { result.cpe.now ≡ crop nan 3 (image self.entry.setup.tiling) result.w self.entry.cpe.now }
        ensures indices_are { result.indices.now ≡ crop 0 1 (image self.entry.setup.tiling) result.w self.entry.indices.now }
    {
        let t = self.setup.tiling;
        let w = q.with_margin(1, t.width, t.height);
        let n = w.area();
        let Buffers { cpe, indices } = buffers;
        let cpe = &mut cpe[..3 * n];
        let indices = &mut indices[..n];
        copy::copy_out(self.cpe, self.indices, t.image_rect(), w, cpe, indices);
        Copied { w, cpe, indices }
    }

    // Whether the walk over the row q accepts a move.
    fn row_moves(self, q: Rect, buffers: &mut Buffers) -> bool
        requires { Row self.setup.tiling q }
        ensures { result ≡ not (eqb (walked (shared_of self.entry.setup) self.entry.cpe.now self.entry.indices.now q).progress.accepted 0) }
    {
        let Copied { w, cpe, indices } = self.copy_around(q, buffers);
        tile::refine_tile(cpe, indices, self.setup, w, q).accepted != 0
    }

    // The move of pixel (x, y), unless it is pinned or stays.
    fn move_at(self, x: usize, y: usize, buffers: &mut Buffers) -> Option<FirstMove>
        requires { (x < self.setup.tiling.width) × (y < self.setup.tiling.height) }
        ensures { result ≡ move_at (shared_of self.entry.setup) self.entry.cpe.now self.entry.indices.now x y }
    {
        let t = self.setup.tiling;
        let q = Rect {
            x0: x,
            y0: y,
            x1: x + 1,
            y1: y + 1,
        };
        let pixel = Pixel {
            w: t.image_rect(),
            x,
            y,
        };
        let k = search::index_at(self.indices, pixel);
        let Copied { w, cpe, indices } = self.copy_around(q, buffers);
        let ink = count_ink(indices, k);
        let p = tile::refine_tile(cpe, indices, self.setup, w, q);
        if p.accepted == 0 {
            return None;
        }
        // A toggle takes a pixel of the ink away.
        let kind = if count_ink(indices, k) == ink {
            Kind::Swap
        } else {
            Kind::Toggle
        };
        Some(FirstMove {
            pixel: y * t.width + x,
            kind,
            cost: p.delta,
        })
    }

    // The first of a phase: its tiles in ascending number, each by rows. The first pixel that has a move leaves all three
    // loops; a row over which the walk accepts none is passed at once.
    // Kept: "labelled nested loops in the settled-plate search, left from the innermost with the dot", the form that document 01
    // names for what request F-1 of document 02 asks.
    fn first_in_phase(self, phase: usize, buffers: &mut Buffers) -> Option<FirstMove>
        ensures { result ≡ first_in_phase (shared_of self.entry.setup) self.entry.cpe.now self.entry.indices.now phase None }
    {
        let t = Tiles {
            tiling: self.setup.tiling,
        };
        let mut first = None;
        'tiles: for tile in 0..t.tile_count() {
            if !t.is_in_phase(phase, tile) {
                continue 'tiles;
            }
            let q = t.tile_rect(tile);
            'rows: for y in q.y0..q.y1 {
                let row = Rect {
                    x0: q.x0,
                    y0: y,
                    x1: q.x1,
                    y1: y + 1,
                };
                if !self.row_moves(row, buffers) {
                    continue 'rows;
                }
                'columns: for x in q.x0..q.x1 {
                    let here = self.move_at(x, y, buffers);
                    if here.is_some() {
                        first = here;
                        break 'tiles;
                    }
                }
            }
        }
        first
    }
}

// The first of the four phases of a pass.
pub fn first_in_pass(cpe: &[f64], indices: &[Index], s: Setup<'_>) -> Option<FirstMove>
    requires { Ready (shared_of s) (image s.tiling) (length cpe.now) indices.now }
    ensures { result ≡ first_in_pass (shared_of s.entry) cpe.now indices.now }
{
    let start = Image {
        cpe,
        indices,
        setup: s,
    };
    let mut buffers = Buffers {
        cpe: [0.0; 3 * ROOM],
        indices: [0; ROOM],
    };
    // Not `find_map`: where calls change what a closure captures, it does not promise that at `None` each phase was tried.
    (0..4)
        .filter_map(|phase| start.first_in_phase(phase, &mut buffers))
        .next()
}
