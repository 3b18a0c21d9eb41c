// The eye-model blur of a width (dbs.rs: gaussian_blur). A kernel of radius r is a square table of (2r + 1) x (2r + 1) values, row
// by row.
#![tactic(auto)]

ghost use Rattle.std.specs.Prelude.{◌≡◌, ◌*◌, ◌≤◌, ◌<◌, length, fold};
ghost use Rattle.base.specs.F64.{◌+f◌};
ghost use Rattle.eye.specs.Eye.{blur_radius};
ghost use Rattle.blur.specs.Blur.{kernel_side, values, gaussian_line, sum_of, blur_of, gaussian_blur};

use eye::Width;

// A blur: a square of values, row by row, or more values than that.
#[derive(Clone, Copy)]
pub struct Blur<'a> {
    pub values: &'a [f64],
    pub radius: usize,
    pub ghost most: { radius ≤ 16 },
    pub ghost room: { kernel_side radius * kernel_side radius ≤ length values.now },
}

// How many columns, and rows, a kernel of a radius has.
pub fn kernel_side(radius: usize) -> usize
    requires { radius ≤ 32 }
    ensures { result ≡ kernel_side radius }
{
    2 * radius + 1
}

// How many values.
pub fn value_count(radius: usize) -> usize
    requires { radius ≤ 32 }
    ensures { result ≡ values radius }
{
    kernel_side(radius) * kernel_side(radius)
}

// The Gaussian at the distances -r to r, not yet normalised.
fn gaussian_line(width: Width, g: &mut [f64])
    requires { length g.old ≡ kernel_side (blur_radius width.sigma) }
    ensures { g.new ≡ gaussian_line width.sigma (blur_radius width.sigma) }
{
    let sigma = width.sigma;
    let r = width.radius();
    for (i, x) in g.iter_mut().enumerate() {
        let d = i as f64 - r as f64;
        *x = exp::exp(-(d * d) / (2.0 * sigma * sigma));
    }
}

// The values of a list, added to s from left to right.
pub fn add_all(s: f64, list: &[f64]) -> f64
    ensures { result ≡ fold (λ t x. t +f x) s list.now }
{
    list.iter().fold(s, |t, x| t + *x)
}

// The products of a row's and a column's value of g, normalised to unit sum.
#[tactic(auto, using(crate::proofs::SquareLaws::in_square))]
fn blur_from(g: &[f64], p: &mut [f64])
    requires { (0 < length g.now) × (length g.now ≤ 33) × (length p.old ≡ length g.now * length g.now) }
    ensures { p.new ≡ blur_of g.now }
{
    let size = g.len();
    let sum = add_all(0.0, g);
    for (i, x) in p.iter_mut().enumerate() {
        *x = g[i / size] * g[i % size] / (sum * sum);
    }
}

// The blur of a width; g is room for the line.
fn blur_into(width: Width, g: &mut [f64], p: &mut [f64])
    requires { (length g.old ≡ kernel_side (blur_radius width.sigma)) × (length p.old ≡ values (blur_radius width.sigma)) }
    ensures { p.new ≡ gaussian_blur width.sigma }
{
    gaussian_line(width, g);
    blur_from(g, p);
}

// Normalised (unit-sum) sampled Gaussian, truncated at its blur radius, in room that is its own.
pub fn fill_blur(width: Width, p: &mut [f64])
    requires { length p.old ≡ values (blur_radius width.sigma) }
    ensures { p.new ≡ gaussian_blur width.sigma }
{
    let mut line = [0.0f64; 33];
    blur_into(width, &mut line[..kernel_side(width.radius())], p);
}

// The same in room for it or more, lent with its radius.
pub fn gaussian_blur<'a>(width: Width, room: &'a mut [f64]) -> Blur<'a>
    requires { values (blur_radius width.sigma) ≤ length room.old }
    ensures values_are { result.values.now ≡ gaussian_blur width.sigma }
    ensures radius_is { result.radius ≡ blur_radius width.sigma }
{
    let radius = width.radius();
    let values = &mut room[..value_count(radius)];
    fill_blur(width, values);
    Blur { values, radius }
}
