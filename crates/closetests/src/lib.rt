// Close's tests: refusals 12, 16, 11 and 15.
#![tactic(auto)]

ghost use Rattle.std.specs.Prelude.{◌≡◌, not, ◌&&◌, length, IfOk};
ghost use Rattle.base.specs.Answer.{status_of};
ghost use Rattle.base.specs.Refusal.{judge};
ghost use Rattle.tiling.specs.Tiling.{tiles, in_phase};
ghost use Rattle.fits.specs.Fits.{before};
ghost use Rattle.job.specs.declared.TileState.TheVariants.{Back};
ghost use Rattle.job.specs.Record.{in_state};
ghost use Rattle.job.specs.Close.{first_of, is_missing, close_tests};

use base::{Buffer, Refusal, refuse_if};
use input::check_length;
use job::{JobRecord, TileState};
use records::CheckedJob;

// Whether a tile in this state is one of the phase that is not back.
fn is_missing(job: CheckedJob, tile: usize, state: u8) -> bool
    ensures { result ≡ (in_phase job.record.plan.tiling job.record.phase tile && not (in_state Back state)) }
{
    job.is_of_phase(tile) && !states::is_in(state, TileState::Back)
}

// The first tile of the phase that is not back.
fn first_missing(job: CheckedJob, tile_states: &[u8]) -> Option<usize>
    requires { length tile_states.now ≡ tiles job.record.plan.tiling }
    ensures { result ≡ before (tiles job.record.plan.tiling) (first_of (is_missing job.record tile_states.now) (tiles job.record.plan.tiling)) }
{
    tile_states
        .iter()
        .enumerate()
        .position(|(i, state)| is_missing(job, i, *state))
}

// Refusals 12, 16, 11 and 15.
#[tactic(auto, unfolding(job::specs::Close::close_tests, base::specs::Refusal::judge))]
pub fn check_close(
    r: JobRecord,
    accepted_per_pass: &[u32],
    tile_states: &[u8],
    deltas: &[f64],
) -> Result<CheckedJob, Refusal>
    ensures tested { status_of result ≡ judge (close_tests r accepted_per_pass.now tile_states.now deltas.now) }
    ensures same { IfOk result (λ c. c.record ≡ r) }
{
    let job = records::check_record(r)?;
    let plan = job.record.plan;
    refuse_if(job.record.finished, Refusal::Finished)?;
    check_length(
        Buffer::AcceptedPerPass,
        accepted_per_pass.len(),
        plan.allowed as usize,
    )?;
    job.check_per_tile(Buffer::TileStates, tile_states.len())?;
    job.check_per_tile(Buffer::Deltas, deltas.len())?;
    if let Some(tile) = first_missing(job, tile_states) {
        return Err(Refusal::Missing(tile as u64));
    }
    Ok(job)
}
