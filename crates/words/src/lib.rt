// The job record as the run of numbers that it is at the C boundary, read.
#![tactic(auto)]

ghost use Rattle.std.specs.Prelude.{◌≡◌, not, [], ◌∷◌, eqb, length, IfOk};
ghost use Rattle.base.specs.Refusal.{test, judge};
ghost use Rattle.base.specs.Answer.{status_of, Tested};
ghost use Rattle.job.specs.Words.{run_length, words_tests, decode};

use base::{Refusal, refuse_if};
use job::{JobRecord, Plan};
use tiling::Tiling;

// Numbers in a run.
// Kept: a run stays a slice: as an array, by `as_mut_array`, each of the six calls on a run would first make it of the slice, a line and
// a refusal apart from the other tests of `read`, in the place of one clause of three functions: no plainer.
pub const RECORD_LEN: usize = 12;

// Refusal 12 of a run's length.
#[tactic(auto, unfolding(base::specs::Refusal::judge))]
pub fn check_run(words: &[u64]) -> Result<(), Refusal>
    ensures tested { status_of result ≡ judge (test (not (eqb (length words.now) run_length)) 12 0 ∷ []) }
    ensures whole { IfOk result (λ _. length words.now ≡ run_length) }
{
    refuse_if(words.len() != RECORD_LEN, Refusal::Record)
}

// The record of a run that a call is given, or refusal 12: the run's length, or a finished word that is neither 1 nor 0.
#[tactic(auto, unfolding(job::specs::Words::words_tests, job::specs::Words::run_test, job::specs::Words::decode, base::specs::Refusal::judge))]
pub fn read(words: &[u64]) -> Result<JobRecord, Refusal>
    ensures tested { Tested result (words_tests words.now) (decode words.now) }
    ensures whole { IfOk result (λ _. length words.now ≡ run_length) }
{
    let [
        width,
        height,
        inks,
        lum,
        chroma,
        allowed,
        done,
        phase,
        accepted,
        initial,
        error,
        finished,
    ] = *words
    else {
        return Err(Refusal::Record);
    };
    refuse_if(finished > 1, Refusal::Record)?;
    let tiling = Tiling {
        width: width as usize,
        height: height as usize,
        lum: lum as usize,
        chroma: chroma as usize,
    };
    let plan = Plan {
        tiling,
        inks,
        allowed,
        initial: bits::to_float(initial),
    };
    Ok(JobRecord {
        plan,
        done,
        phase,
        accepted,
        error: bits::to_float(error),
        finished: finished == 1,
    })
}
