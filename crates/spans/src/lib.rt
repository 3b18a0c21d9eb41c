// Pixels side by side that grow by a multiple of a kernel's values: what a move adds to `cpe`, a row at a time. `cpe` holds three
// values a pixel. Where a row lies in the image is not known here.
#![tactic(auto)]

ghost use Rattle.std.specs.Prelude.{◌≡◌, ◌+◌, ◌*◌, ◌<◌, ◌≤◌, length};
ghost use Rattle.spans.specs.Add.{add_at};
ghost use Rattle.spans.specs.Spans.{span_of, pair_span, Fits};

use color::YyCxCz;

// Which channels a kernel is for: Yy takes the luminance kernel, Cx and Cz the chrominance kernel.
#[derive(Clone, Copy)]
pub enum Channels {
    Luminance,
    Chrominance,
}

// Pixels side by side that grow by a times a kernel's values: their first value in `cpe`, their number, and the
// first of those values in the kernel store.
#[derive(Clone, Copy)]
pub struct Span {
    pub a: YyCxCz,
    pub at: usize,
    pub pixels: usize,
    pub from: usize,
}

// The pixel whose first value is value j grows by a times v.
#[tactic(auto, unfolding(crate::specs::Add::add_at, crate::specs::Add::grow))]
fn add_at(cpe: &mut [f64], j: usize, channels: Channels, a: YyCxCz, v: f64)
    requires { j + 2 < length cpe.old }
    ensures { cpe.new ≡ add_at channels a v j cpe.old }
{
    // Kept: a match over an enum, which the compiler makes twice where the channels are known; a closure would be no plainer.
    match channels {
        Channels::Luminance => cpe[j] += a.yy * v,
        Channels::Chrominance => {
            cpe[j + 1] += a.cx * v;
            cpe[j + 2] += a.cz * v;
        }
    }
}

// The pixels of a span grow.
// Kept: `Fits` in three contracts: a struct of a span and both lists with it as a ghost field would be made anew for each row and, as `cpe`
// is written, be lent as `&mut`, so that each contract would say instead that it still has the same list and span: it is no plainer.
#[tactic(auto, using(base::proofs::LoopLaws::up_to_none, base::proofs::LoopLaws::up_to_more), unfolding(crate::specs::Spans::add_pixels))]
pub fn add_span(cpe: &mut [f64], cpp: &[f64], channels: Channels, s: Span)
    requires { Fits (length cpe.old) (length cpp.now) s }
    ensures { cpe.new ≡ span_of channels cpp.now s cpe.old }
{
    let row = &mut cpe[s.at..s.at + 3 * s.pixels];
    let kernel = &cpp[s.from..s.from + s.pixels];
    for (i, v) in kernel.iter().enumerate() {
        add_at(row, 3 * i, channels, s.a, *v);
    }
}

// The same where it is one pixel wide, or empty.
// Kept: with `add_span` in its place `add_both` takes 1.153 of the instructions at 40 per inch and 1.094 at 127, and three passes 1.078
// and 1.052.
#[tactic(auto, using(crate::proofs::Laws::span_one, crate::proofs::Laws::span_none))]
pub fn add_pixel(cpe: &mut [f64], cpp: &[f64], channels: Channels, s: Span)
    requires fits { Fits (length cpe.old) (length cpp.now) s }
    requires pixels_bound { s.pixels ≤ 1 }
    ensures { cpe.new ≡ span_of channels cpp.now s cpe.old }
{
    if 0 < s.pixels {
        add_at(cpe, s.at, channels, s.a, cpp[s.from]);
    }
}

// The pixels of a span grow, each by the one kernel and then by the other, which is read along o.
// Kept: one function with a const number of kernels, written out, takes two more loops for each pixel, one that reads the values and one
// that adds them: it is no plainer.
#[tactic(auto, using(base::proofs::LoopLaws::up_to_none, base::proofs::LoopLaws::up_to_more), unfolding(crate::specs::Spans::add_pairs))]
pub fn add_spans(cpe: &mut [f64], cpp: &[f64], channels: Channels, s: Span, o: Span)
    requires fits { Fits (length cpe.old) (length cpp.now) s }
    requires fits_2 { Fits (length cpe.old) (length cpp.now) o }
    requires pixels_value { o.pixels ≡ s.pixels }
    ensures { cpe.new ≡ pair_span channels cpp.now s o cpe.old }
{
    let row = &mut cpe[s.at..s.at + 3 * s.pixels];
    let kernel = &cpp[s.from..s.from + s.pixels];
    let other = &cpp[o.from..o.from + s.pixels];
    // Kept: by `zip` with the other's values it is proved too, and `add_both` then takes 1.053 of the instructions at 127 per inch and
    // 1.027 at 40.
    for (i, v) in kernel.iter().enumerate() {
        // Read before the row is written, so that each value is stored once.
        let u = other[i];
        add_at(row, 3 * i, channels, s.a, *v);
        add_at(row, 3 * i, channels, o.a, u);
    }
}
