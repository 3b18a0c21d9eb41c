// The run of numbers of an accepted call, written: a record as the run that it is at the C boundary.
#![tactic(auto)]

ghost use Rattle.std.specs.Prelude.{◌≡◌, length};
ghost use Rattle.job.specs.Words.{run_length, words_with, word_over, rewritten};
ghost use Rattle.job.specs.Words as run;

use job::JobRecord;

// The word of a float where another stood.
fn word_over(old: u64, x: f64) -> u64
    ensures { result ≡ word_over old x }
{
    if x.is_nan() && bits::is_nan(old) {
        return old;
    }
    bits::of_float(x)
}

// A record with the words of its errors.
// Kept: the run's length in a clause, here and in what follows: words has why a run stays a slice.
fn write_words(words: &mut [u64], r: JobRecord, initial: u64, error: u64)
    requires { length words.old ≡ run_length }
    ensures { words.new ≡ words_with initial error r }
{
    let plan = r.plan;
    let t = plan.tiling;
    let run = [
        t.width as u64,
        t.height as u64,
        plan.inks,
        t.lum as u64,
        t.chroma as u64,
        plan.allowed,
        r.done,
        r.phase,
        r.accepted,
        initial,
        error,
        u64::from(r.finished),
    ];
    words.copy_from_slice(&run);
}

// The run of an accepted open, which holds its record.
pub fn encode(words: &mut [u64], r: JobRecord)
    requires { length words.old ≡ run_length }
    ensures { words.new ≡ run.encode r }
{
    let plan = r.plan;
    let initial = bits::of_float(plan.initial);
    let error = bits::of_float(r.error);
    write_words(words, r, initial, error);
}

// The run of an accepted call that was given it and returned this record.
pub fn rewrite(words: &mut [u64], r: JobRecord)
    requires { length words.old ≡ run_length }
    ensures { words.new ≡ rewritten words.old r }
{
    let plan = r.plan;
    let initial = word_over(words[9], plan.initial);
    let error = word_over(words[10], r.error);
    write_words(words, r, initial, error);
}
