// The single tests that what a call is given lies within the limits, the first index that names no ink, and the first byte of a
// mask above 1.
#![tactic(auto)]

ghost use Rattle.std.specs.Prelude.{◌≡◌, max, ◌≤◌, ◌<◌, length};
ghost use Rattle.fits.specs.Fits.{is_within, size_fits, mask_fits, palette_fits, before, first_not_below, first_unnamed, first_above_one};
ghost use Rattle.fits.specs.Folds.{largest_of, largest_of_four};

use base::{Index, MAX_INKS, MAX_SIDE};

pub fn is_within(low: u64, x: u64, high: u64) -> bool
    ensures { result ≡ is_within low x high }
{
    (low..=high).contains(&x)
}

// A width of 1 to 4,096 and a height of 0 to 4,096.
pub fn is_size(width: u64, height: u64) -> bool
    ensures { result ≡ size_fits width height }
{
    is_within(1, width, MAX_SIDE as u64) && height <= MAX_SIDE as u64
}

// No mask, or a byte for each of n pixels.
pub fn is_mask(pinned: &[u8], n: usize) -> bool
    ensures { result ≡ mask_fits (length pinned.now) n }
{
    pinned.is_empty() || pinned.len() == n
}

// 3 bytes for each of 1 to 256 inks.
pub fn is_palette(palette: &[u8]) -> bool
    ensures { result ≡ palette_fits (length palette.now) }
{
    palette.len() % 3 == 0 && is_within(1, palette.len() as u64 / 3, MAX_INKS as u64)
}

// The largest of the bytes, 0 of none.
fn largest(bytes: &[u8]) -> u8
    ensures { result ≡ largest_of bytes.now }
{
    let mut most = 0u8;
    for b in bytes {
        most = most.max(*b);
    }
    most
}

fn largest_of(a: u8, b: u8, c: u8, d: u8) -> u8
    ensures { result ≡ max (max a b) (max c d) }
{
    a.max(b).max(c.max(d))
}

// The largest of the bytes of four lists of one length: every byte is read and no branch taken, so that the compiler takes
// many bytes at once.
fn largest_of_four(a: &[u8], b: &[u8], c: &[u8], d: &[u8]) -> u8
    requires { (length b.now ≡ length a.now) × (length c.now ≡ length a.now) × (length d.now ≡ length a.now) }
    ensures { result ≡ largest_of_four a.now b.now c.now d.now }
{
    let mut most = 0u8;
    // Kept: four lists side by side by their places: three zips of them are no plainer.
    for i in 0..a.len() {
        most = most.max(largest_of(a[i], b[i], c[i], d[i]));
    }
    most
}

// The largest of the bytes, 0 of none: four quarters side by side, which are read faster than one after the other, and then
// what is left.
fn largest_by_quarters(bytes: &[u8]) -> u8
    ensures { result ≡ largest_of bytes.now }
{
    let k = bytes.len() / 4;
    let b = k + k;
    let c = b + k;
    let d = c + k;
    let quarters = largest_of_four(&bytes[0..k], &bytes[k..b], &bytes[b..c], &bytes[c..d]);
    quarters.max(largest(&bytes[d..]))
}

// The place of the first byte that is not below n. Most lists have none: it is searched where the largest byte is not below n.
fn first_not_below(bytes: &[u8], n: usize) -> Option<usize>
    ensures { result ≡ before (length bytes.now) (first_not_below n bytes.now) }
{
    if usize::from(largest_by_quarters(bytes)) < n {
        return None;
    }
    bytes.iter().position(|b| usize::from(*b) >= n)
}

// The place of the first index that names none of so many inks.
pub fn first_unnamed(indices: &[Index], inks: usize) -> Option<usize>
    ensures { result ≡ before (length indices.now) (first_unnamed inks indices.now) }
{
    first_not_below(indices, inks)
}

// The place of the first byte of a mask above 1.
pub fn first_above_one(pinned: &[u8]) -> Option<usize>
    ensures { result ≡ before (length pinned.now) (first_above_one pinned.now) }
{
    first_not_below(pinned, 2)
}
