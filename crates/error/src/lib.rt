// The error of a halftone against its target, pixel by pixel, and the initial error, given `cpe`: parts
// of the first half of `dbs_refine` of dbs.rs, with `to_yycxcz`. There is no list of errors: they are
// computed row by row, once for each channel.
#![tactic(auto)]

ghost use Rattle.std.specs.Prelude.{◌≡◌, ℕ, ◌+◌, ◌*◌, ◌<◌, ◌≤◌, length};
ghost use Rattle.base.specs.Loop.{table};
ghost use Rattle.base.specs.F64.{◌+f◌, ◌*f◌};
ghost use Rattle.color.specs.Inks.{channel, number};
ghost use Rattle.error.specs.Error.{scene, error_at, initial_error, SceneFits, PixelFits};
ghost use Rattle.error.specs.Rows.{RowHolds, error_in_row};

use base::Index;
use color::{Channel, YyCxCz};
use pins::Pins;

// The channel of a number, as definitions count them: Cz from 2 on.
#[tactic(auto, unfolding(color::specs::Inks::channel))]
pub fn numbered(c: usize) -> Channel
    ensures { (v : YyCxCz) → channel (number result) v ≡ channel c v }
{
    match c {
        0 => Channel::Yy,
        1 => Channel::Cx,
        2.. => Channel::Cz,
    }
}

// What the error of a pixel is read from: the lists of a scene, or of a part of one.
#[derive(Clone, Copy)]
pub struct View<'a> {
    pub width: usize,
    pub pixels: &'a [u8],
    pub indices: &'a [Index],
    pub pinned: &'a [u8],
    pub inks: &'a [f64],
}

impl View<'_> {
    ghost use Rattle.error.specs.Scenes.{seen_in};

    // The error of pixel (x, y): its ink less its target, which is its colour or, where it is pinned, its own ink.
    pub fn error_at(self, x: usize, y: usize) -> YyCxCz
        requires { PixelFits self.width (seen_in self) x y }
        ensures { result ≡ error_at self.entry.width (seen_in self.entry) x y }
    {
        let i = y * self.width + x;
        let k = usize::from(self.indices[i]);
        let ink = color::values_at(self.inks, 3 * k);
        let j = 3 * i;
        let colour = color::srgb_to_yycxcz(self.pixels[j], self.pixels[j + 1], self.pixels[j + 2]);
        let pins = Pins {
            pinned: self.pinned,
            width: self.width,
        };
        if pins.is_pinned(x, y) {
            return ink - ink;
        }
        ink - colour
    }

    // A channel of the errors in row y, from column x on.
    pub fn channel_errors(self, c: Channel, x: usize, y: usize, line: &mut [f64])
        requires { RowHolds self.width (seen_in self) x y (length line.old) }
        ensures { line.new ≡ table (length line.old) (error_in_row self.entry.width (seen_in self.entry) (number c) x y) }
    {
        for (i, value) in line.iter_mut().enumerate() {
            *value = self.error_at(x + i, y).channel(c);
        }
    }
}

// What errors are made of, each list row by row: the target, the halftone, the pin mask and the ink values.
#[derive(Clone, Copy)]
pub struct Scene<'a> {
    pub width: usize,
    pub height: usize,
    pub pixels: &'a [u8],
    pub indices: &'a [Index],
    pub pinned: &'a [u8],
    pub inks: &'a [f64],
    pub ghost fits: { SceneFits width height (scene pixels.now indices.now pinned.now inks.now) },
}

// Three sums grow by a times b, channel by channel.
pub fn add_products(s: YyCxCz, a: YyCxCz, b: YyCxCz) -> YyCxCz
    ensures { (c : ℕ) → channel c result ≡ channel c s +f channel c a *f channel c b }
{
    YyCxCz {
        yy: s.yy + a.yy * b.yy,
        cx: s.cx + a.cx * b.cx,
        cz: s.cz + a.cz * b.cz,
    }
}

impl<'a> Scene<'a> {
    ghost use Rattle.error.specs.Scenes.{seen_in, image_of, unpinned_of};

    // The same with nothing pinned.
    pub fn unpinned(self) -> Scene<'a>
        ensures size { (result.width ≡ self.entry.width) × (result.height ≡ self.entry.height) }
        ensures image { image_of result ≡ unpinned_of self.entry }
    {
        Scene {
            width: self.width,
            height: self.height,
            pixels: self.pixels,
            indices: self.indices,
            pinned: &[],
            inks: self.inks,
        }
    }

    // What is read of it.
    pub fn view(self) -> View<'a>
        ensures width { result.width ≡ self.entry.width }
        ensures image { seen_in result ≡ image_of self.entry }
    {
        View {
            width: self.width,
            pixels: self.pixels,
            indices: self.indices,
            pinned: self.pinned,
            inks: self.inks,
        }
    }

    // The error of the starting halftone, given `cpe`.
    pub fn initial_error(self, cpe: &[f64]) -> f64
        requires { length cpe.now ≡ 3 * (self.height * self.width) }
        ensures { result ≡ initial_error self.entry.width self.entry.height (image_of self.entry) cpe.now }
    {
        let mut s = YyCxCz::default();
        let view = self.view();
        // Kept: pixels by number, which gives column, row and the place in `cpe`.
        for i in 0..self.height * self.width {
            let e = view.error_at(i % self.width, i / self.width);
            s = add_products(s, e, color::values_at(cpe, 3 * i));
        }
        0.0 + s.yy + s.cx + s.cz
    }
}
