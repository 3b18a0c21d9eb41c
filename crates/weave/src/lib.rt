// Lines of three channels woven into rows of pixels, three values a pixel.
#![tactic(auto)]

ghost use Rattle.std.specs.Prelude.{◌≡◌, ◌*◌, ◌<◌, ◌≤◌, length};
ghost use Rattle.base.specs.Limits.{max_side};
ghost use Rattle.base.specs.Loop.{table};
ghost use Rattle.weave.specs.Woven.{woven, Woven};

use tiling::Tiling;

// Three lines of w values as one row of pixels, three values a pixel.
fn weave(row: &mut [f64], lines: &[f64], w: usize)
    requires { (length row.old ≡ 3 * w) × (length lines.now ≡ 3 * w) }
    ensures { row.new ≡ table (3 * w) (woven w lines.now) }
{
    // Kept: by `chunks_exact_mut(3)` the proof did not close, since the library says nothing of what is written through a chunk; value by
    // value, each by its place (`i % 3`, `i / 3`), it is proved, and open takes 1.042 of the instructions at 40 per inch.
    for x in 0..w {
        let j = 3 * x;
        row[j] = lines[x];
        row[j + 1] = lines[w + x];
        row[j + 2] = lines[w + w + x];
    }
}

// The lines of each row of `cpe` as a row of pixels. `lines` is for a copy of a row's lines.
// Kept: the length of `cpe` in a clause: a struct with it as a ghost field would be lent as `&mut`, and this contract would say instead
// that it still has the same list and tiling.
pub fn weave_rows(cpe: &mut [f64], t: Tiling, lines: &mut [f64])
    requires le_width { (1 ≤ t.width) × (t.width ≤ max_side) × (t.height ≤ max_side) }
    requires lines_len { (length lines.old ≡ 3 * t.width) × (length cpe.old ≡ 3 * (t.height * t.width)) }
    ensures { Woven t.width t.height cpe.old cpe.new }
{
    let n = 3 * t.width;
    for y in 0..t.height {
        let row = &mut cpe[y * n..y * n + n];
        lines.copy_from_slice(row);
        weave(row, lines, t.width);
    }
}
