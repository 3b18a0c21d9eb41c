// Work: a tile refined on its copy, by the same `refine_tile` as in the plain walk. It touches no job
// state, so that workers may run it at the same time, each on its own copy.
#![tactic(auto)]

ghost use Rattle.std.specs.Prelude.{◌≡◌};
ghost use Rattle.std.specs.Result.{result_unwrap_or};
ghost use Rattle.progress.specs.Progress.{progress_of};
ghost use Rattle.base.specs.Answer.{status_of};
ghost use Rattle.base.specs.Refusal.{status};
ghost use Rattle.tile.specs.Tile.{state, no_progress};
ghost use Rattle.job.specs.Copy.{pixels};
ghost use Rattle.job.specs.Boundary.{work_run};
ghost use Rattle.job.specs.Work.{worked, work_of};

use base::{Index, Refusal, Status};
use job::JobRecord;
use progress::Progress;
use search::Setup;

// Moves accepted and the sum of their costs, or a refusal with zeros.
// Kept: C reads number and place here by their names, so that it is no `Result` and holds no `Status`.
#[repr(C)]
#[derive(Clone, Copy, Default)]
pub struct DbsWorked {
    pub number: u64,
    pub place: u64,
    pub accepted: u64,
    pub delta: f64,
}

impl From<Result<Progress, Refusal>> for DbsWorked {
    ghost from_gives = { λ made w. (status w.number w.place ≡ status_of made) × (progress_of w.accepted w.delta ≡ result_unwrap_or made no_progress) };

    fn from(made: Result<Progress, Refusal>) -> DbsWorked {
        match made {
            Ok(progress) => DbsWorked {
                accepted: progress.accepted as u64,
                delta: progress.delta,
                ..DbsWorked::default()
            },
            Err(refusal) => {
                let Status { number, place } = Status::from(refusal);
                DbsWorked {
                    number,
                    place,
                    ..DbsWorked::default()
                }
            }
        }
    }
}

// Refine a tile on its copy.
fn work(
    r: JobRecord,
    tile: u64,
    pinned: &[u8],
    cpp: &[f64],
    copy_cpe: &mut [f64],
    copy_indices: &mut [Index],
    inks: &[f64],
) -> Result<Progress, Refusal>
    ensures { worked (status_of result) (state copy_cpe.new copy_indices.new (result_unwrap_or result no_progress)) ≡ work_of r tile pinned.now cpp.now (pixels copy_cpe.old copy_indices.old) inks.now }
{
    let job = worktests::check_work(r, tile, pinned, cpp, copy_cpe, copy_indices, inks)?;
    let t = job.tiles();
    let region = t.region_rect(tile as usize);
    let rect = t.tile_rect(tile as usize);
    let setup = Setup {
        tiling: t.tiling,
        pinned,
        inks,
        cpp,
    };
    Ok(tile::refine_tile(copy_cpe, copy_indices, setup, region, rect))
}

// The same on the run that the record is for a C host, which is only read.
// Kept: as `take_run` it and the other calls on a run are two to four lines each, which differ in the call and its buffers: no plainer as one.
#[tactic(auto, using(words::proofs::RunLaws::unread, words::proofs::RunLaws::read), unfolding(job::specs::Boundary::work_run))]
pub fn work_run(
    record: &[u64],
    tile: u64,
    pinned: &[u8],
    cpp: &[f64],
    copy_cpe: &mut [f64],
    copy_indices: &mut [Index],
    inks: &[f64],
) -> Result<Progress, Refusal>
    ensures { worked (status_of result) (state copy_cpe.new copy_indices.new (result_unwrap_or result no_progress)) ≡ work_run «record».now tile pinned.now cpp.now (pixels copy_cpe.old copy_indices.old) inks.now }
{
    let r = words::read(record)?;
    work(r, tile, pinned, cpp, copy_cpe, copy_indices, inks)
}
