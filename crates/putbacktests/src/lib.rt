// Put back's tests: refusals 12, 16, 13, 3, 11, 14 and 6.
#![tactic(auto)]

ghost use Rattle.std.specs.Prelude.{◌≡◌, IfOk};
ghost use Rattle.base.specs.Answer.{status_of};
ghost use Rattle.base.specs.Refusal.{judge};
ghost use Rattle.tile.specs.Tile.{state};
ghost use Rattle.job.specs.Copy.{pixels};
ghost use Rattle.job.specs.PutBack.{count_test, put_back_tests};
ghost use Rattle.job.specs.Valid.{ValidRecord};

use base::{Buffer, Index, Refusal, refuse_if};
use input::check_indices;
use job::{JobRecord, TileState};
use progress::Progress;
use records::CheckedJob;

// Whether a tile that the image has brings more moves than its pixels, or lifts the moves of this pass
// above the image's.
#[tactic(auto, using(crate::proofs::CountLaws::above_size, crate::proofs::CountLaws::above_left, records::proofs::RecordLaws::few_pixels, records::proofs::Rects::tile_sides), unfolding(job::specs::PutBack::count_test, job::specs::Record::pixels_of))]
fn is_over(job: CheckedJob, tile: u64, accepted: u64) -> bool
    requires { ValidRecord job.record }
    ensures { result ≡ (count_test job.record tile accepted).fails }
{
    if job.has_tile(tile) {
        let plan = job.record.plan;
        let n = plan.tiling.height * plan.tiling.width;
        let rect = job.tiles().tile_rect(tile as usize);
        return accepted > rect.area() as u64 || accepted > n as u64 - job.record.accepted;
    }
    false
}

// Refusals 12, 16, 13, 3, 11, 14 and 6.
#[tactic(auto, unfolding(job::specs::PutBack::put_back_tests, job::specs::PutBack::count_test, job::specs::Record::pixels_of, base::specs::Refusal::judge))]
pub fn check_put_back(
    r: JobRecord,
    tile: u64,
    indices: &[Index],
    cpe: &[f64],
    tile_states: &[u8],
    deltas: &[f64],
    copy_cpe: &[f64],
    copy_indices: &[Index],
    progress: Progress,
) -> Result<CheckedJob, Refusal>
    ensures tested { status_of result ≡ judge (put_back_tests r tile (pixels cpe.now indices.now) tile_states.now deltas.now (state copy_cpe.now copy_indices.now progress)) }
    ensures same { IfOk result (λ c. c.record ≡ r) }
{
    let i = tile as usize;
    let job = records::check_record(r)?;
    let plan = job.record.plan;
    refuse_if(
        is_over(job, tile, progress.accepted as u64),
        Refusal::Record,
    )?;
    job.check_turn(tile)?;
    job.check_image(indices, cpe, tile_states)?;
    job.check_per_tile(Buffer::Deltas, deltas.len())?;
    job.check_copy(i, copy_cpe, copy_indices)?;
    records::check_state(tile_states, i, TileState::Out)?;
    check_indices(copy_indices, plan.inks as usize)?;
    Ok(job)
}
