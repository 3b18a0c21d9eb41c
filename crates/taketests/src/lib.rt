// Take's tests: refusals 12, 16, 13, 3, 11 and 14.
#![tactic(auto)]

ghost use Rattle.std.specs.Prelude.{◌≡◌, IfOk};
ghost use Rattle.base.specs.Answer.{status_of};
ghost use Rattle.base.specs.Refusal.{judge};
ghost use Rattle.job.specs.Copy.{pixels};
ghost use Rattle.job.specs.Take.{take_tests};

use base::{Index, Refusal};
use job::{JobRecord, TileState};
use records::CheckedJob;

// Refusals 12, 16, 13, 3, 11 and 14.
#[tactic(auto, unfolding(job::specs::Take::take_tests, job::specs::Record::pixels_of, base::specs::Refusal::judge))]
pub fn check_take(
    r: JobRecord,
    tile: u64,
    indices: &[Index],
    cpe: &[f64],
    tile_states: &[u8],
    copy_cpe: &[f64],
    copy_indices: &[Index],
) -> Result<CheckedJob, Refusal>
    ensures tested { status_of result ≡ judge (take_tests r tile (pixels cpe.now indices.now) tile_states.now (pixels copy_cpe.now copy_indices.now)) }
    ensures same { IfOk result (λ c. c.record ≡ r) }
{
    let i = tile as usize;
    let job = records::check_record(r)?;
    job.check_turn(tile)?;
    job.check_image(indices, cpe, tile_states)?;
    job.check_copy(i, copy_cpe, copy_indices)?;
    records::check_state(tile_states, i, TileState::Waiting)?;
    Ok(job)
}
