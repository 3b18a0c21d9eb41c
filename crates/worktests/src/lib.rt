// Work's tests: refusals 12, 13, 4, 17, 11 and 6.
#![tactic(auto)]

ghost use Rattle.std.specs.Prelude.{◌≡◌, IfOk};
ghost use Rattle.base.specs.Answer.{status_of};
ghost use Rattle.base.specs.Refusal.{judge};
ghost use Rattle.job.specs.Copy.{pixels};
ghost use Rattle.job.specs.Work.{work_tests};

use base::{Buffer, CPP_LEN, Index, Refusal, refuse_if};
use input::{check_indices, check_length, check_mask};
use job::JobRecord;
use records::CheckedJob;

// Refusals 12, 13, 4, 17, 11 and 6. The mask is the whole image's.
#[tactic(auto, unfolding(job::specs::Work::work_tests, base::specs::Refusal::judge))]
pub fn check_work(
    r: JobRecord,
    tile: u64,
    pinned: &[u8],
    cpp: &[f64],
    copy_cpe: &[f64],
    copy_indices: &[Index],
    inks: &[f64],
) -> Result<CheckedJob, Refusal>
    ensures tested { status_of result ≡ judge (work_tests r tile pinned.now cpp.now (pixels copy_cpe.now copy_indices.now) inks.now) }
    ensures same { IfOk result (λ c. c.record ≡ r) }
{
    let job = records::check_record(r)?;
    let plan = job.record.plan;
    let t = plan.tiling;
    refuse_if(!job.has_tile(tile), Refusal::NotDue)?;
    check_mask(pinned, t.height * t.width)?;
    check_length(Buffer::Cpp, cpp.len(), CPP_LEN)?;
    job.check_copy(tile as usize, copy_cpe, copy_indices)?;
    check_length(Buffer::Inks, inks.len(), 3 * plan.inks as usize)?;
    check_indices(copy_indices, plan.inks as usize)?;
    Ok(job)
}
