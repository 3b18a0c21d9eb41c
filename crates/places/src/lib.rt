// Where a pixel and its neighbours stand: their places in the window and in the mask. Coordinates are the image's.
#![tactic(auto)]

ghost use Rattle.std.specs.Prelude.{◌≡◌, true, Some, ◌+◌, ◌-◌, ◌*◌, ◌<◌, ◌≤◌, length};
ghost use Rattle.base.specs.Limits.{max_side};
ghost use Rattle.base.specs.Grid.{Inside, Within, area};
ghost use Rattle.base.specs.Loop.{table};
ghost use Rattle.tiling.specs.Tiling.{Limits, image};
ghost use Rattle.std.proofs.Props.{props};
ghost use Rattle.places.specs.Places.{Held, partner_place, Findable, Spotted};

use base::Rect;
use pins::Pins;
use std::array;
use tables::{Position, Tables};
use tiling::Tiling;

// A pixel of a window, by its column and row in the image.
#[derive(Clone, Copy)]
pub struct Pixel {
    pub w: Rect,
    pub x: usize,
    pub y: usize,
    pub ghost inside: { Inside w x y },
    pub ghost bounds: { (w.x1 ≤ max_side) × (w.y1 ≤ max_side) },
}

impl Pixel {
    // Where it stands among the pixels of the window.
    #[tactic(auto, using(crate::proofs::Window::place_index, base::proofs::GridLaws::place_lt))]
    pub fn place(self) -> usize
        ensures value { result ≡ (self.y - self.w.y0) * (self.w.x1 - self.w.x0) + (self.x - self.w.x0) }
        ensures upper_bound { result < area self.w }
    {
        base::place(1, self.w, self.x, self.y)
    }
}

// A pixel and its place in the window; where all eight neighbours lie in the image also the places of
// the pixel above and left of it.
#[derive(Clone, Copy)]
pub struct Spot {
    pub x: usize,
    pub y: usize,
    pub own: usize,
    pub amid: Option<Position>,
}

// Whether all eight neighbours lie in the image.
fn is_amid(t: Tiling, x: usize, y: usize) -> bool
    requires { (x < t.width) × (y < t.height) }
    ensures { result ≡ true → (1 ≤ x) × (x + 1 < t.width) × (1 ≤ y) × (y + 1 < t.height) }
{
    0 < x && 0 < y && x + 1 < t.width && y + 1 < t.height
}

// What the places of a pixel's neighbours are found from.
// Kept: `Held` in a clause, here and in search, moves and tile: it is of a pixel, its window and the image. A struct of the three would be
// made of what tile's loops count, at each pixel, and its neighbours, which moves writes too, need not be held.
#[tactic(auto, using(crate::proofs::Window::window_limits), unfolding(tiling::specs::Tiling::image))]
pub fn spot_of(t: Tiling, pixel: Pixel) -> Spot
    requires limits { Limits t }
    requires within { Within (image t) pixel.w }
    requires held { Held t pixel.w pixel.x pixel.y }
    ensures { (result.x ≡ pixel.x) × (result.y ≡ pixel.y) × Spotted t pixel.w result }
{
    let Pixel { w, x, y } = pixel;
    let amid = if is_amid(t, x, y) {
        let (x, y) = (x - 1, y - 1);
        let image = t.image_rect();
        Some(Position {
            window: Pixel { w, x, y }.place(),
            mask: Pixel { w: image, x, y }.place(),
        })
    } else {
        None
    };
    Spot {
        x,
        y,
        own: pixel.place(),
        amid,
    }
}

// A spot with what the places of its neighbours are found from.
#[derive(Clone, Copy)]
pub struct Around<'a> {
    pub pinned: &'a [u8],
    pub tiling: Tiling,
    pub tab: Tables,
    pub spot: Spot,
    pub ghost findable: { Findable pinned.now tiling tab },
    pub ghost spotted: { Spotted tiling tab.w spot } by { Prim.hlevel props },
}

impl<'a> Around<'a> {
    // The mask as it is looked up.
    fn mask(self) -> Pins<'a>
        ensures pinned { result.pinned.now ≡ self.entry.pinned.now }
        ensures width { result.width ≡ self.entry.tiling.width }
    {
        Pins {
            pinned: self.pinned,
            width: self.tiling.width,
        }
    }

    // Amid the image each neighbour stands a step on.
    fn step_place(self, corner: Position, code: usize) -> usize
        requires { (self.spot.amid ≡ Some corner) × (code < 8) }
        ensures { result ≡ partner_place self.entry.pinned.now self.entry.tiling self.entry.tab.w self.entry.spot.x self.entry.spot.y code }
    {
        let step = self.tab.steps[code];
        if self.mask().is_pinned_at(corner.mask + step.mask) {
            return self.spot.own;
        }
        corner.window + step.window
    }

    // At an edge a neighbour may lie outside.
    #[tactic(auto, using(crate::proofs::Window::neighbour_inside), unfolding(crate::specs::Places::partner_place))]
    fn edge_place(self, code: usize) -> usize
        requires { code < 8 }
        ensures { result ≡ partner_place self.entry.pinned.now self.entry.tiling self.entry.tab.w self.entry.spot.x self.entry.spot.y code }
    {
        let p = self.spot;
        let t = self.tiling;
        match neighbour::neighbour(code as u8, p.x, p.y, t.width, t.height) {
            Some((x, y)) if !self.mask().is_pinned(x, y) => {
                let w = self.tab.w;
                Pixel { w, x, y }.place()
            }
            _ => p.own,
        }
    }

    // Where the neighbour stands that a swap by this code would be made with. One that is outside the image or pinned
    // reads as the pixel itself, which has its own ink, so that no swap is weighed.
    // Kept: `code < 8` in a clause: `neighbour` has document 01's codes as numbers, of which it takes any, so that a type of those below 8
    // would be made of the number that `from_fn` counts with and read as it again.
    fn partner_place(self, code: usize) -> usize
        requires { code < 8 }
        ensures { result ≡ partner_place self.entry.pinned.now self.entry.tiling self.entry.tab.w self.entry.spot.x self.entry.spot.y code }
    {
        match self.spot.amid {
            Some(corner) => self.step_place(corner, code),
            None => self.edge_place(code),
        }
    }

    // The same by code.
    pub fn places(self) -> [usize; 8]
        ensures { result ≡ table 8 (partner_place self.entry.pinned.now self.entry.tiling self.entry.tab.w self.entry.spot.x self.entry.spot.y) }
    {
        array::from_fn(|code| self.partner_place(code))
    }
}
