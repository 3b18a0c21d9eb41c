// The squares of a block of sums, row by row, and what they are made of: lists squared and mirrored.
// Pins play no part.
#![tactic(auto)]

ghost use Rattle.std.specs.Prelude.{◌≡◌, ◌*◌, ◌≤◌, length, fold};
ghost use Rattle.base.specs.Loop.{table};
ghost use Rattle.base.specs.F64.{◌+f◌, ◌*f◌};
ghost use Rattle.error.specs.Scenes.{unpinned_of};
ghost use Rattle.squares.specs.Squares.{mirrored, square_of, line_squares, block_squares, SquareFits};

use block::Block;
use error::Scene;

// The values of a list, last to first.
pub fn mirror(list: &[f64], out: &mut [f64])
    requires { length out.old ≤ length list.now }
    ensures { out.new ≡ table (length out.old) (mirrored list.now (length out.old)) }
{
    out.copy_from_slice(&list[..out.len()]);
    out.reverse();
}

// The squares of a row, added to s.
fn square_row(s: f64, row: &[f64]) -> f64
    ensures { result ≡ fold (λ t x. t +f x *f x) s row.now }
{
    row.iter().fold(s, |t, x| t + *x * *x)
}

// The squares of each line of n values, added to that line's sum.
fn square_lines(sums: &mut [f64], out: &[f64], n: usize)
    requires { length sums.old * n ≤ length out.now }
    ensures { sums.new ≡ table (length sums.old) (line_squares out.now n sums.old) }
{
    // Kept: tried by `zip` with `chunks_exact(n)`, and the proof did not close, since the library says
    // nothing of what is written through a `zip` of `iter_mut`.
    for (i, sum) in sums.iter_mut().enumerate() {
        *sum = square_row(*sum, &out[i * n..i * n + n]);
    }
}

// The squares of a block's sums, added to the rows' sums, with room lent for a row of errors and for
// the block.
pub fn square_block(
    scene: Scene<'_>,
    taps: &[f64],
    b: Block,
    line: &mut [f64],
    out: &mut [f64],
    sums: &mut [f64],
)
    requires { SquareFits scene.width scene.height b (length taps.now) (length line.old) (length out.old) (length sums.old) }
    ensures { sums.new ≡ table b.rows (block_squares scene.entry.width scene.entry.height b (unpinned_of scene.entry) taps.now sums.old) }
{
    let unpinned = scene.unpinned();
    let columns = b.column_count(scene.width);
    out.fill(0.0);
    b.correlate(unpinned, taps, &mut line[..columns], out);
    square_lines(sums, out, b.lines.width);
}
