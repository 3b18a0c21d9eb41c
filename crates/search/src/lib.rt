// The best move of one pixel: the search of `refine_tile` of dbs.rs, on a window of the image.
// Coordinates are the image's; `cpe` and `indices` hold the pixels of the window.
#![tactic(auto)]

ghost use Rattle.std.specs.Prelude.{◌≡◌, ◌+◌, ◌-◌, ◌*◌, ◌/◌, ◌<◌, ◌≤◌, length};
ghost use Rattle.base.specs.Limits.{max_inks};
ghost use Rattle.base.specs.Grid.{area};
ghost use Rattle.base.specs.Loop.{up_to};
ghost use Rattle.tables.specs.Tables.{tables_of};
ghost use Rattle.search.specs.Shared.{shared_of, cpe_at, index_at, Ready, Held};
ghost use Rattle.search.specs.Fast.{Inked, swap_by, SwapFits, swaps_by, AllFit};
ghost use Rattle.search.specs.Search.{better_of, no_move, try_toggle, evaluate_of};

use base::{Index, MAX_INKS};
use color::YyCxCz;
use places::{Around, Pixel};
use tables::Tables;
use tiling::Tiling;

// A move of a pixel. A swap names its neighbour by code.
#[derive(Clone, Copy, PartialEq, Eq)]
pub enum Move {
    Stay,
    Toggle(usize),
    Swap(u8),
}

// The cheapest move so far and its cost.
#[derive(Clone, Copy)]
pub struct Best {
    pub cost: f64,
    pub mv: Move,
}

// The pixel that is evaluated: its ink, and `cpe` there.
#[derive(Clone, Copy)]
pub struct Site {
    pub k: usize,
    pub c: YyCxCz,
}

// What every tile has in common and none changes: the image with its kernels' radii, the pin mask,
// the ink values, 3 an ink, and the kernel store.
// Kept: no ghost field has what `Ready`, or `Writable` of moves, says of these alone: each contract would still name the other half of it,
// of the window and its two lists, in as many words, and each proof would join the two.
#[derive(Clone, Copy)]
pub struct Setup<'a> {
    pub tiling: Tiling,
    pub pinned: &'a [u8],
    pub inks: &'a [f64],
    pub cpp: &'a [f64],
}

// The same with the tables of a window.
#[derive(Clone, Copy)]
pub struct Tabled<'a> {
    pub setup: Setup<'a>,
    pub tab: Tables,
    pub ghost made: { tab ≡ tables_of setup.cpp.now setup.tiling tab.w },
}

// The index of a pixel of the window.
#[tactic(auto, using(places::proofs::Window::place_index), unfolding(base::specs::Grid::cell))]
pub fn index_at(indices: &[Index], pixel: Pixel) -> usize
    requires { length indices.now ≡ area pixel.w }
    ensures { result ≡ index_at pixel.w indices.now pixel.x pixel.y }
{
    usize::from(indices[pixel.place()])
}

// `cpe` at a pixel of the window.
#[tactic(auto, using(crate::proofs::Window::place_cpe, crate::proofs::Window::cpe_values))]
pub fn cpe_at(cpe: &[f64], pixel: Pixel) -> YyCxCz
    requires { length cpe.now ≡ 3 * area pixel.w }
    ensures { result ≡ cpe_at pixel.w cpe.now pixel.x pixel.y }
{
    color::values_at(cpe, base::place(3, pixel.w, pixel.x, pixel.y))
}

impl Best {
    // Only a smaller cost replaces the best.
    fn better(self, cost: f64, mv: Move) -> Best
        ensures { result ≡ better_of self cost mv }
    {
        if cost < self.cost {
            return Best { cost, mv };
        }
        self
    }
}

// A pixel whose moves are weighed, with the window's lists, the ink values and the pixel's ink among them.
#[derive(Clone, Copy)]
struct Weighed<'a> {
    cpe: &'a [f64],
    indices: &'a [Index],
    inks: &'a [f64],
    site: Site,
    ink: YyCxCz,
    ghost inked: { Inked inks.now site ink },
}

impl<'a> Weighed<'a> {
    // Ink j in the place of the pixel's, if it is another. p: the kernels at their centres.
    #[tactic(auto, unfolding(crate::specs::Search::try_toggle))]
    fn try_toggle(self, p: YyCxCz, j: usize, b: Best) -> Best
        requires { (3 * j + 2 < length self.inks.now) × (j < max_inks) }
        ensures { result ≡ try_toggle self.entry.inks.now p self.entry.site j b }
    {
        if j == self.site.k {
            return b;
        }
        let a = color::values_at(self.inks, 3 * j) - self.ink;
        b.better(cost::toggle_cost(p, a, self.site.c), Move::Toggle(j))
    }

    // The best toggle: inks in ascending order.
    #[tactic(auto, using(base::proofs::LoopLaws::up_to_none, base::proofs::LoopLaws::up_to_more))]
    fn best_toggle(self, p: YyCxCz, b: Best) -> Best
        requires { length self.inks.now ≤ 3 * max_inks }
        ensures { result ≡ up_to (try_toggle self.entry.inks.now p self.entry.site) (length self.entry.inks.now / 3) b }
    {
        let mut best = b;
        // Kept: inks by their number, which is what a toggle names: by `as_chunks` the loop would count it too.
        for j in 0..self.inks.len() / 3 {
            best = self.try_toggle(p, j, best);
        }
        best
    }

    // The swap with the pixel at place n of the window, if it has another ink. g: the kernels at their centres less beside them.
    // Kept: `code < 8` in a clause: `Move` and `neighbour` have document 01's codes as numbers, of which they take any, so that a type of
    // those below 8 would be read as a number again here.
    #[tactic(auto, unfolding(crate::specs::Fast::swap_by))]
    fn swap_at(self, g: YyCxCz, n: usize, code: usize, b: Best) -> Best
        requires swap_fits { SwapFits self.cpe.now self.indices.now self.inks.now n }
        requires code_bound { code < 8 }
        ensures { result ≡ swap_by self.entry.inks.now self.entry.cpe.now self.entry.indices.now g self.entry.site n code b }
    {
        let kn = usize::from(self.indices[n]);
        if kn == self.site.k {
            return b;
        }
        let a = color::values_at(self.inks, 3 * kn) - self.ink;
        let cn = color::values_at(self.cpe, 3 * n);
        b.better(
            cost::swap_cost(g, a, self.site.c, cn),
            Move::Swap(code as u8),
        )
    }

    // The best swap: neighbours by code, each at its place.
    // Kept: gaps by code: by `zip` of both it is proved too, and that proof is longer than the index is.
    #[tactic(auto, using(base::proofs::LoopLaws::up_to_none, base::proofs::LoopLaws::up_to_more), unfolding(crate::specs::Fast::swaps_by))]
    fn best_swap(self, tab: Tables, places: &[usize; 8], b: Best) -> Best
        requires { AllFit self.cpe.now self.indices.now self.inks.now places.now }
        ensures { result ≡ swaps_by self.entry.inks.now self.entry.cpe.now self.entry.indices.now tab places.now self.entry.site 8 b }
    {
        let mut best = b;
        for (code, place) in places.iter().enumerate() {
            best = self.swap_at(tab.gaps[code], *place, code, best);
        }
        best
    }
}

// The best move of pixel (x, y): toggles, then swaps. `-EPS` of dbs.rs is what a move has to beat. Of the kernel
// store only the contract speaks, which the tables are of.
#[tactic(auto, using(places::proofs::Window::held_inside))]
pub fn evaluate(cpe: &[f64], indices: &[Index], s: Tabled<'_>, x: usize, y: usize) -> Best
    requires ready { Ready (shared_of s.setup) s.tab.w (length cpe.now) indices.now }
    requires held { Held s.setup.tiling s.tab.w x y }
    ensures { result ≡ evaluate_of (shared_of s.entry.setup) s.entry.tab.w cpe.now indices.now x y no_move }
{
    let Tabled { setup, tab } = s;
    let pixel = Pixel { w: tab.w, x, y };
    let k = index_at(indices, pixel);
    let weighed = Weighed {
        cpe,
        indices,
        inks: setup.inks,
        site: Site {
            k,
            c: cpe_at(cpe, pixel),
        },
        ink: color::values_at(setup.inks, 3 * k),
    };
    let start = Best {
        cost: -1e-9,
        mv: Move::Stay,
    };
    let toggled = weighed.best_toggle(tab.centre, start);
    let around = Around {
        pinned: setup.pinned,
        tiling: setup.tiling,
        tab,
        spot: places::spot_of(setup.tiling, pixel),
    };
    let places = around.places();
    weighed.best_swap(tab, &places, toggled)
}
