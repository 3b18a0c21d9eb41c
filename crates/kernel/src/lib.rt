// The autocorrelation kernels of the eye-model blurs (dbs.rs: Kernel2D, autocorrelate). A kernel of radius r is a square table of (2r + 1) x (2r + 1) values, row by row.
#![tactic(auto)]

ghost use Rattle.std.specs.Prelude.{◌≡◌, ◌+◌, ◌*◌, ◌≤◌, ◌<◌, length};
ghost use Rattle.base.specs.Limits.{cpp_chroma, cpp_length};
ghost use Rattle.base.specs.Loop.{overwrite};
ghost use Rattle.base.specs.Refusal.{judge, accepted};
ghost use Rattle.eye.specs.Eye.{eye_tests};
ghost use Rattle.blur.specs.Blur.{kernel_side, values};
ghost use Rattle.kernel.specs.Kernel.{overlap_from, overlap_to, row_sum, correlation_at, autocorrelation, kernel_of, eye_kernels};
ghost use Rattle.kernel.specs.Ready.{Offset, RowMeets};

use base::CPP_CHROMA;
use blur::{Blur, kernel_side, value_count};
use eye::{DbsParams, Width};

// Displaced by d = o - 2r, a blur of radius r overlaps itself in the columns (or rows) u for which
// u + d is one too. The first of them ..
fn overlap_from(p: Blur<'_>, o: usize) -> usize
    ensures { result ≡ overlap_from p.entry.radius o }
{
    (2 * p.radius).saturating_sub(o)
}

// .. and the one past the last.
fn overlap_to(p: Blur<'_>, o: usize) -> usize
    requires { o < kernel_side (2 * p.radius) }
    ensures { result ≡ overlap_to p.entry.radius o }
{
    kernel_side(p.radius).min(kernel_side(2 * p.radius) - o)
}

// Adds to `from` the terms of c(d) in row y of p; d stands in column i, row j of c.
fn correlate_row(p: Blur<'_>, i: usize, j: usize, y: usize, from: f64) -> f64
    requires { RowMeets p.radius i j y }
    ensures { result ≡ row_sum p.entry.values.now p.entry.radius i j y from }
{
    let r = p.radius;
    let size = kernel_side(r);
    let end = overlap_to(p, i);
    let mut s = from;
    for x in overlap_from(p, i)..end {
        let here = y * size + x;
        let there = (y + j - 2 * r) * size + (x + i - 2 * r);
        s += p.values[here] * p.values[there];
    }
    s
}

// c(d) for the d in column i, row j of c.
fn correlation(p: Blur<'_>, i: usize, j: usize) -> f64
    requires { Offset p.radius i j }
    ensures { result ≡ correlation_at p.entry.values.now p.entry.radius i j }
{
    let end = overlap_to(p, j);
    let mut s = 0.0;
    for y in overlap_from(p, j)..end {
        s = correlate_row(p, i, j, y, s);
    }
    s
}

// c(d) = Σ_u p(u)·p(u + d), with twice the radius of p.
#[tactic(auto, using(blur::proofs::SquareLaws::in_square))]
pub fn autocorrelate(p: Blur<'_>, c: &mut [f64])
    requires { length c.old ≡ values (2 * p.radius) }
    ensures { c.new ≡ autocorrelation p.entry.values.now p.entry.radius }
{
    let size = kernel_side(2 * p.radius);
    for (k, value) in c.iter_mut().enumerate() {
        *value = correlation(p, k % size, k / size);
    }
}

// The autocorrelation kernel of a blur width into the store, from base on; `room` is for the blur.
fn place_kernel(width: Width, room: &mut [f64; 1089], cpp: &mut [f64], base: usize)
    requires { base + cpp_chroma ≤ length cpp.old }
    ensures { cpp.new ≡ overwrite base (kernel_of width.sigma) cpp.old }
{
    let blur = blur::gaussian_blur(width, room);
    let end = base + value_count(2 * blur.radius);
    autocorrelate(blur, &mut cpp[base..end]);
}

// Both autocorrelation kernels of an accepted eye into the kernel store; its other cells stay.
pub fn eye_kernels(params: DbsParams, cpp: &mut [f64])
    requires { (judge (eye_tests params) ≡ accepted) × (length cpp.old ≡ cpp_length) }
    ensures { cpp.new ≡ eye_kernels params cpp.old }
{
    let mut room = [0.0f64; 1089];
    let widths = params.widths();
    place_kernel(widths.lum, &mut room, cpp, 0);
    place_kernel(widths.chroma, &mut room, cpp, CPP_CHROMA);
}
