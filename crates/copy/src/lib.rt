// A part of the image copied between two lists of pixels, row by row: out of the image into a tile's
// copy (document 01's take), and back (put back). Either is the part w of one list pasted over the
// other; proofs/Parts.antt has what that is where w is the whole of a list.
#![tactic(auto)]

ghost use Rattle.std.specs.Prelude.{◌≡◌, ◌*◌, ◌≤◌, length};
ghost use Rattle.std.specs.Float.{nan};
ghost use Rattle.base.specs.Grid.{area, crop, paste};
ghost use Rattle.copy.specs.Part.{Holds};

use base::{Index, Rect, place};

// A row of one list over a row of another.
// Kept: by `copy_from_slice` the rows of lent slices are copied by a call of `memmove`, which the host would have to have beside the
// `memcpy` and `memset` that the C interface asks for; elsewhere in the library it becomes one of these.
fn copy_row<T: Copy>(from: &[T], to: &mut [T])
    requires { length from.now ≡ length to.old }
    ensures { to.new ≡ from.now }
{
    for (i, cell) in to.iter_mut().enumerate() {
        *cell = from[i];
    }
}

// The part w of `from`, which is a list of f, over the same part of `to`, which is a list of p, k values a pixel: 3 of `cpe`
// and 1 of the indices.
pub fn copy_part<T: Copy>(k: usize, from: &[T], f: Rect, to: &mut [T], p: Rect, w: Rect)
    requires k_bound { k ≤ 3 }
    requires holds { Holds f w × Holds p w }
    requires from_len { (length from.now ≡ k * area f) × (length to.old ≡ k * area p) }
    ensures { (d : T) → to.new ≡ paste d k p w to.old (crop d k f w from.now) }
{
    let n = k * (w.x1 - w.x0);
    for y in w.y0..w.y1 {
        let a = place(k, f, w.x0, y);
        let b = place(k, p, w.x0, y);
        let (_, rest) = to.split_at_mut(b);
        copy_row(&from[a..a + n], &mut rest[..n]);
    }
}

// The part w of the image, `cpe` and the indices, as a copy of its own.
pub fn copy_out(
    cpe: &[f64],
    indices: &[Index],
    image: Rect,
    w: Rect,
    copy_cpe: &mut [f64],
    copy_indices: &mut [Index],
)
    requires holds { Holds image w × Holds w w }
    requires cpe_len { (length cpe.now ≡ 3 * area image) × (length indices.now ≡ area image) }
    requires copy_cpe_len { (length copy_cpe.old ≡ 3 * area w) × (length copy_indices.old ≡ area w) }
    ensures copy_cpe_after { copy_cpe.new ≡ crop nan 3 image w cpe.now }
    ensures copy_indices_after { copy_indices.new ≡ crop 0 1 image w indices.now }
{
    copy_part(3, cpe, image, copy_cpe, w, w);
    copy_part(1, indices, image, copy_indices, w, w);
}
