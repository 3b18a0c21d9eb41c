// A row of sums that grows by a row of values, correlated with a row of a kernel: the taps one by one and four
// by four, for speed. Each sum takes its terms one by one in the order of dbs.rs.
#![tactic(auto)]

ghost use Rattle.std.specs.Prelude.{◌≡◌, ◌+◌, ◌≤◌, ◌<◌, length};
ghost use Rattle.base.specs.Loop.{table};
ghost use Rattle.taps.specs.Taps.{few_taps, Changed};

// A row of values and a row of taps: in place p tap d falls on value p + d - lead.
#[derive(Clone, Copy)]
pub struct Row<'a> {
    pub values: &'a [f64],
    pub taps: &'a [f64],
    pub lead: usize,
    pub ghost lead_limit: { lead ≤ 65536 },
}

// Each sum grows by N taps: the first times its value, the others times the values after it.
fn add_taps<const N: usize>(sums: &mut [f64], values: &[f64], taps: [f64; N])
    requires { length values.now + 1 ≡ length sums.old + N }
    ensures { sums.new ≡ table (length sums.old) (few_taps sums.old values.now taps.entry) }
{
    for (i, sum) in sums.iter_mut().enumerate() {
        let mut s = *sum;
        for (tap, value) in taps.iter().zip(&values[i..i + N]) {
            s = s + *tap * *value;
        }
        *sum = s;
    }
}

impl<'a> Row<'a> {
    ghost use Rattle.taps.specs.Rows.{row_sum};

    // Tap d, added to those sums from a to b - 1 for which it falls on a value.
    fn one_tap(self, sums: &mut [f64], a: usize, b: usize, d: usize)
        requires { (b ≤ length sums.old) × (d < length self.taps.now) }
        ensures { Changed a b (λ i. row_sum self.entry i d (d + 1)) sums.old sums.new }
    {
        let lo = a.max(self.lead.saturating_sub(d));
        let hi = b.min((self.lead + self.values.len()).saturating_sub(d));
        if hi <= lo {
            return;
        }
        let from = lo + d - self.lead;
        let to = hi + d - self.lead;
        add_taps(&mut sums[lo..hi], &self.values[from..to], [self.taps[d]]);
    }

    // The taps from `first` on, one by one, added to the sums from a to b - 1.
    // Kept: sums with their ends a and b, and no part of them: a tap falls on a place of the whole row, so that a part would need where it begins.
    pub fn by_ones(self, sums: &mut [f64], a: usize, b: usize, first: usize)
        requires { (b ≤ length sums.old) × (first ≤ length self.taps.now) }
        ensures { Changed a b (λ i. row_sum self.entry i first (length self.entry.taps.now)) sums.old sums.new }
    {
        if b <= a {
            return;
        }
        for d in first..self.taps.len() {
            self.one_tap(sums, a, b, d);
        }
    }

    // Taps four by four, added to the sums from a to b - 1, for which every tap falls on a value. At most
    // three taps at the end are left: the answer is the first of them.
    pub fn by_fours(self, sums: &mut [f64], a: usize, b: usize) -> usize
        requires a_le_b { (a ≤ b) × (b ≤ length sums.old) }
        requires lead_le_a { (self.lead ≤ a) × (b + length self.taps.now ≤ self.lead + length self.values.now + 1) }
        ensures upper_bound { result ≤ length self.entry.taps.now }
        ensures changed { Changed a b (λ i. row_sum self.entry i 0 result) sums.old sums.new }
    {
        let fours = self.taps.as_chunks::<4>().0;
        for (q, four) in fours.iter().enumerate() {
            let from = a + 4 * q - self.lead;
            let to = b + 4 * q + 3 - self.lead;
            add_taps(&mut sums[a..b], &self.values[from..to], *four);
        }
        4 * fours.len()
    }
}
