// Rows of sums that grow by a row of values, correlated with the rows of a kernel: the inner loops of
// `correlate` and of `perceived_error` of dbs.rs. Each sum takes its terms one by one in the order of
// dbs.rs; for speed the sums of a row take them side by side (crate `taps`).
#![tactic(auto)]

ghost use Rattle.std.specs.Prelude.{◌≡◌, suc, ◌+◌, ◌-◌, ◌*◌, ◌<◌, ◌≤◌, length};
ghost use Rattle.taps.specs.Rows.{row_sum};
ghost use Rattle.correlate.specs.Correlate.{Changed, line_of, Spread, row_taps, SpreadFits};

use taps::Row;

// Rows of sums that stand among other lines of a list: row y is line first + step·y.
#[derive(Clone, Copy)]
pub struct Lines {
    pub width: usize,
    pub first: usize,
    pub step: usize,
}

impl Lines {
    // Where the line of row y begins.
    fn start(self, y: usize) -> usize
        requires { (1 ≤ self.width) × (suc (line_of self y) * self.width ≤ 67108864) }
        ensures { result ≡ line_of self y * self.width }
    {
        (self.first + self.step * y) * self.width
    }
}

// All taps, added to all sums: four by four where every tap falls on a value, one by one at both ends.
pub fn correlate_row(sums: &mut [f64], row: Row<'_>)
    ensures { Changed 0 (length sums.old) (λ i. row_sum row.entry i 0 (length row.entry.taps.now)) sums.old sums.new }
{
    let n = sums.len();
    let lo = row.lead.min(n);
    let hi = n.min((row.lead + row.values.len() + 1).saturating_sub(row.taps.len()));
    if hi <= lo {
        row.by_ones(sums, 0, n, 0);
        return;
    }
    row.by_ones(sums, 0, lo, 0);
    let left = row.by_fours(sums, lo, hi);
    row.by_ones(sums, lo, hi, left);
    row.by_ones(sums, hi, n, 0);
}

// A row of values, added to the rows of sums from a to b - 1: to row y by row top - y of the kernel.
pub fn spread(
    lines: &mut [f64],
    l: Lines,
    a: usize,
    b: usize,
    values: &[f64],
    kernel: &[f64],
    size: usize,
    top: usize,
    lead: usize,
)
    requires spread_fits { SpreadFits l (length lines.old) a b (length kernel.now) size top }
    requires lead_limit { lead ≤ 65536 }
    ensures { Spread l a b (row_taps values.now kernel.now size top lead) lines.old lines.new }
{
    for y in a..b {
        let at = l.start(y);
        let from = (top - y) * size;
        let taps = &kernel[from..from + size];
        correlate_row(&mut lines[at..at + l.width], Row { values, taps, lead });
    }
}
