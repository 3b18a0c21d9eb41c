// What an accepted close makes: the phase's deltas joined to the error, its tiles set waiting, the record of the next
// phase, and the count of a pass stored.
#![tactic(auto)]

ghost use Rattle.std.specs.Prelude.{◌≡◌, cond, ◌≤◌, ◌<◌, eqb, length, set};
ghost use Rattle.base.specs.F64.{◌+f◌};
ghost use Rattle.base.specs.Limits.{max_pixels, max_passes};
ghost use Rattle.tiling.specs.Tiling.{tiles, in_phase};
ghost use Rattle.job.specs.declared.TileState.TheVariants.{Waiting};
ghost use Rattle.job.specs.Record.{byte_of};
ghost use Rattle.job.specs.Close.{with_deltas, released, next_with};

use job::{JobRecord, TileState};
use records::CheckedJob;

const LAST_PHASE: u64 = 3;

// The error, with a tile's delta where it is one of the phase.
fn add_delta(job: CheckedJob, tile: usize, delta: f64, error: f64) -> f64
    ensures { result ≡ cond (in_phase job.record.plan.tiling job.record.phase tile) (error +f delta) error }
{
    if job.is_of_phase(tile) {
        return error + delta;
    }
    error
}

// The job's error with the deltas of the phase's tiles joined to it, one by one.
pub fn add_deltas(job: CheckedJob, deltas: &[f64]) -> f64
    ensures { result ≡ with_deltas job.record.plan.tiling job.record.phase deltas.now (length deltas.now) job.record.error }
{
    let mut error = job.record.error;
    for (i, delta) in deltas.iter().enumerate() {
        error = add_delta(job, i, *delta, error);
    }
    error
}

// The state of a tile once the phase is closed.
fn released_state(job: CheckedJob, tile: usize, state: u8) -> u8
    ensures { result ≡ cond (in_phase job.record.plan.tiling job.record.phase tile) (byte_of Waiting) state }
{
    if job.is_of_phase(tile) {
        return u8::from(TileState::Waiting);
    }
    state
}

// The tiles of the phase set waiting.
pub fn release(job: CheckedJob, tile_states: &mut [u8])
    requires { length tile_states.old ≡ tiles job.record.plan.tiling }
    ensures { tile_states.new ≡ released job.record.plan.tiling job.record.phase tile_states.old }
{
    for (i, state) in tile_states.iter_mut().enumerate() {
        *state = released_state(job, i, *state);
    }
}

// The record of the next phase, with the error as far as reached.
#[tactic(auto, unfolding(job::specs::Close::next_with))]
pub fn next_record(r: JobRecord, error: f64) -> JobRecord
    requires phase_bound { r.phase ≤ 3 }
    requires done_le_max_passes { r.done ≤ max_passes }
    ensures { result ≡ next_with r error }
{
    let plan = r.plan;
    if r.phase == LAST_PHASE {
        let done = r.done + 1;
        return JobRecord {
            done,
            phase: 0,
            accepted: 0,
            error,
            finished: r.accepted == 0 || plan.allowed <= done,
            ..r
        };
    }
    JobRecord {
        phase: r.phase + 1,
        error,
        finished: false,
        ..r
    }
}

// The moves of the pass stored after its last phase.
pub fn store_count(r: JobRecord, accepted_per_pass: &mut [u32])
    requires { (r.done < length accepted_per_pass.old) × (r.accepted ≤ max_pixels) }
    ensures { accepted_per_pass.new ≡ cond (eqb r.phase 3) (set accepted_per_pass.old r.done r.accepted) accepted_per_pass.old }
{
    if r.phase == LAST_PHASE {
        accepted_per_pass[r.done as usize] = r.accepted as u32;
    }
}
