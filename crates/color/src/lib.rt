// Colour: sRGB bytes to YyCxCz, and a palette to ink values.
//
// Ports `SRGB_TO_XYZ` and `D65` of lab.rs, and of dbs.rs `srgb_to_yycxcz` and the palette's half of `to_yycxcz`. Each f64 operation is
// the Rust's, in its order.
#![tactic(auto)]

ghost use Rattle.std.specs.Prelude.{◌≡◌, ◌+◌, ◌<◌, ◌%◌, length};
ghost use Rattle.color.specs.YyCxCz.{yycxcz};
ghost use Rattle.color.specs.Inks.{channel, number, ink_values};
ghost use Rattle.color.specs.Values.{values_at, less_of, neg_of};

use std::ops::{Neg, Sub};

// A colour: luminance Yy, red-green chrominance Cx, yellow-blue chrominance Cz.
#[derive(Clone, Copy, Default)]
pub struct YyCxCz {
    pub yy: f64,
    pub cx: f64,
    pub cz: f64,
}

// One of the three.
#[derive(Clone, Copy)]
pub enum Channel {
    Yy,
    Cx,
    Cz,
}

impl Channel {
    pub const ALL: [Channel; 3] = [Channel::Yy, Channel::Cx, Channel::Cz];
}

impl YyCxCz {
    pub fn channel(self, c: Channel) -> f64
        ensures { result ≡ channel (number c) self }
    {
        match c {
            Channel::Yy => self.yy,
            Channel::Cx => self.cx,
            Channel::Cz => self.cz,
        }
    }
}

impl Sub for YyCxCz {
    type Output = YyCxCz;

    ghost sub_gives = { λ a b r. r ≡ less_of a b };

    fn sub(self, other: YyCxCz) -> YyCxCz {
        YyCxCz {
            yy: self.yy - other.yy,
            cx: self.cx - other.cx,
            cz: self.cz - other.cz,
        }
    }
}

impl Neg for YyCxCz {
    type Output = YyCxCz;

    ghost neg_gives = { λ a r. r ≡ neg_of a };

    fn neg(self) -> YyCxCz {
        YyCxCz {
            yy: -self.yy,
            cx: -self.cx,
            cz: -self.cz,
        }
    }
}

// SRGB_TO_XYZ, linear sRGB to XYZ (D65), IEC 61966-2-1: X_R is red's entry in the row of X, and so on.
const X_R: f64 = 0.4124564;

const X_G: f64 = 0.3575761;

const X_B: f64 = 0.1804375;

const Y_R: f64 = 0.2126729;

const Y_G: f64 = 0.7151522;

const Y_B: f64 = 0.0721750;

const Z_R: f64 = 0.0193339;

const Z_G: f64 = 0.1191920;

const Z_B: f64 = 0.9503041;

// D65, the white point: the sums of the rows.
const X_N: f64 = X_R + X_G + X_B;

const Y_N: f64 = Y_R + Y_G + Y_B;

const Z_N: f64 = Z_R + Z_G + Z_B;

// sRGB bytes to YyCxCz: Yy = 116 Y / Yn, Cx = 500 (X / Xn - Y / Yn), Cz = 200 (Y / Yn - Z / Zn).
// The white point is sRGB white, so (255, 255, 255) has no chroma.
pub fn srgb_to_yycxcz(r: u8, g: u8, b: u8) -> YyCxCz
    ensures { result ≡ yycxcz r g b }
{
    let r = light::linear(r);
    let g = light::linear(g);
    let b = light::linear(b);
    let x = X_R * r + X_G * g + X_B * b;
    let y = Y_R * r + Y_G * g + Y_B * b;
    let z = Z_R * r + Z_G * g + Z_B * b;
    YyCxCz {
        yy: 116.0 * y / Y_N,
        cx: 500.0 * (x / X_N - y / Y_N),
        cz: 200.0 * (y / Y_N - z / Z_N),
    }
}

// The inks of a palette in YyCxCz: 3 sRGB bytes to an ink, and 3 values.
pub fn palette_to_inks(palette: &[u8], inks: &mut [f64])
    requires palette_len { length palette.now % 3 ≡ 0 }
    requires inks_len { length inks.old ≡ length palette.now }
    ensures { inks.new ≡ ink_values palette.now }
{
    // Kept: written by places: tried by `chunks_exact_mut(3)` and `zip`, and the proof did not close, since the library says nothing of
    // what is written through a chunk.
    for (k, [r, g, b]) in palette.as_chunks::<3>().0.iter().enumerate() {
        let ink = srgb_to_yycxcz(*r, *g, *b);
        inks[3 * k] = ink.yy;
        inks[3 * k + 1] = ink.cx;
        inks[3 * k + 2] = ink.cz;
    }
}

// The three values of a list from value j on: an ink's, or a pixel's in `cpe`.
pub fn values_at(l: &[f64], j: usize) -> YyCxCz
    requires { j + 2 < length l.now }
    ensures { result ≡ values_at l.now j }
{
    YyCxCz {
        yy: l[j],
        cx: l[j + 1],
        cz: l[j + 2],
    }
}
