// Making a move: the end of `refine_tile` of dbs.rs, on a window of the image. Coordinates are the
// image's; `cpe` and `indices` hold the pixels of the window.
#![tactic(auto)]

ghost use Rattle.std.specs.Prelude.{◌≡◌, Some, ◌+◌, ◌*◌, ◌<◌, ◌≤◌, length};
ghost use Rattle.base.specs.Limits.{max_inks};
ghost use Rattle.base.specs.Grid.{area, put};
ghost use Rattle.color.specs.Values.{values_at, less_of};
ghost use Rattle.search.specs.Shared.{shared_of, Held};
ghost use Rattle.search.specs.declared.Move.TheVariants.{Toggle};
ghost use Rattle.moves.specs.Moves.{Writable, NamesInk, exchanged, swap_kernels, moved_indices, moved_cpe};

use base::{Index, Rect};
use color::YyCxCz;
use places::Pixel;
use search::{Move, Setup};
use sweep::Source;

// Ink j less ink k.
// Kept: that there is an ink of a number in a clause, here, in `toggle_to` and in search: inks are counted, and a type of their numbers would
// be made of each and read as it again.
fn change(inks: &[f64], j: usize, k: usize) -> YyCxCz
    requires { (3 * j + 2 < length inks.now) × (3 * k + 2 < length inks.now) }
    ensures { result ≡ less_of (values_at inks.now (3 * j)) (values_at inks.now (3 * k)) }
{
    color::values_at(inks, 3 * j) - color::values_at(inks, 3 * k)
}

// The index of a pixel of the window becomes j.
#[tactic(auto, using(search::proofs::Laws::place_index), unfolding(base::specs::Grid::put))]
fn put_index(indices: &mut [Index], pixel: Pixel, j: usize)
    requires j_bound { j < max_inks }
    requires indices_len { length indices.old ≡ area pixel.w }
    ensures { indices.new ≡ put 0 1 pixel.w indices.old pixel.x pixel.y 0 j }
{
    indices[pixel.place()] = j as Index;
}

// The pixel takes ink j.
// Kept: `cpe` and `indices` apart, and so `Writable`, which is of both, in three contracts: as one struct lent as `&mut`, tried, each
// contract says of both fields too that they still are the caller's (`ghost_name`), or the caller learns nothing of them: no plainer.
#[tactic(auto, unfolding(tiling::specs::Tiling::image, crate::specs::Moves::moved_cpe, crate::specs::Moves::moved_indices))]
fn toggle_to(cpe: &mut [f64], indices: &mut [Index], s: Setup<'_>, pixel: Pixel, j: usize)
    requires writable { Writable s.tiling pixel.w s.inks.now s.cpp.now (length cpe.old) indices.old }
    requires j_in_bounds { 3 * j + 2 < length s.inks.now }
    ensures cpe_after { cpe.new ≡ moved_cpe (shared_of s.entry) pixel.w pixel.x pixel.y (Toggle j) indices.old cpe.old }
    ensures indices_after { indices.new ≡ moved_indices s.entry.tiling pixel.w pixel.x pixel.y (Toggle j) indices.old }
{
    let Pixel { w, x, y } = pixel;
    let a = change(s.inks, j, search::index_at(indices, pixel));
    sweep::add_kernels(cpe, s.cpp, s.tiling, w, Source { x, y, a });
    put_index(indices, pixel, j);
}

// Two pixels exchange their inks.
#[tactic(auto, unfolding(tiling::specs::Tiling::image))]
fn swap_with(cpe: &mut [f64], indices: &mut [Index], s: Setup<'_>, pixel: Pixel, neighbour: Pixel)
    requires same_window { neighbour.w ≡ pixel.w }
    requires writable { Writable s.tiling pixel.w s.inks.now s.cpp.now (length cpe.old) indices.old }
    requires x_bound { (pixel.x ≤ neighbour.x + 1) × (neighbour.x ≤ pixel.x + 1) }
    requires y_bound { (pixel.y ≤ neighbour.y + 1) × (neighbour.y ≤ pixel.y + 1) }
    ensures cpe_after { cpe.new ≡ swap_kernels (shared_of s.entry) pixel.w pixel.x pixel.y (Some (neighbour.x, neighbour.y)) indices.old cpe.old }
    ensures indices_after { indices.new ≡ exchanged pixel.w pixel.x pixel.y (Some (neighbour.x, neighbour.y)) indices.old }
{
    let k = search::index_at(indices, pixel);
    let kn = search::index_at(indices, neighbour);
    let a = change(s.inks, kn, k);
    let m = Source {
        x: pixel.x,
        y: pixel.y,
        a,
    };
    let n = Source {
        x: neighbour.x,
        y: neighbour.y,
        a: -a,
    };
    both::add_both(cpe, s.cpp, s.tiling, pixel.w, m, n);
    put_index(indices, pixel, kn);
    put_index(indices, neighbour, k);
}

// A move of the pixel is made; a swap exchanges its ink and that of the neighbour that the code names, if any.
#[tactic(auto, using(crate::proofs::Laws::window_limit, search::proofs::Laws::held_inside), unfolding(crate::specs::Moves::moved_cpe, crate::specs::Moves::moved_indices))]
pub fn apply_move(
    cpe: &mut [f64],
    indices: &mut [Index],
    s: Setup<'_>,
    w: Rect,
    x: usize,
    y: usize,
    mv: Move,
)
    requires held { Held s.tiling w x y }
    requires writable { Writable s.tiling w s.inks.now s.cpp.now (length cpe.old) indices.old }
    requires names_ink { NamesInk s.inks.now mv }
    ensures cpe_after { cpe.new ≡ moved_cpe (shared_of s.entry) w x y mv indices.old cpe.old }
    ensures indices_after { indices.new ≡ moved_indices s.entry.tiling w x y mv indices.old }
{
    let pixel = Pixel { w, x, y };
    match mv {
        Move::Stay => {}
        Move::Toggle(j) => toggle_to(cpe, indices, s, pixel, j),
        Move::Swap(code) => {
            let t = s.tiling;
            if let Some((x, y)) = neighbour::neighbour(code, x, y, t.width, t.height) {
                swap_with(cpe, indices, s, pixel, Pixel { w, x, y });
            }
        }
    }
}
