// Put back: a tile's copy is written over its region, its count added and its delta kept.
#![tactic(auto)]

ghost use Rattle.std.specs.Prelude.{◌≡◌};
ghost use Rattle.std.specs.Result.{result_unwrap_or};
ghost use Rattle.base.specs.Answer.{status_of};
ghost use Rattle.tile.specs.Tile.{state};
ghost use Rattle.job.specs.Copy.{pixels};
ghost use Rattle.job.specs.PutBack.{put_back, put_back_of};
ghost use Rattle.job.specs.Boundary.{put_back_run};

use base::{Index, Refusal};
use job::{JobRecord, TileState};
use progress::Progress;

// Write a copy back over its region, with the count and delta that work answered.
// Kept: the lent buffers apart, as the host has them: a struct of `&mut`s would be made of them at each call, and its contract say of each
// that it still is the host's (`ghost_name`).
fn put_back(
    r: JobRecord,
    tile: u64,
    indices: &mut [Index],
    cpe: &mut [f64],
    tile_states: &mut [u8],
    deltas: &mut [f64],
    copy_cpe: &[f64],
    copy_indices: &[Index],
    progress: Progress,
) -> Result<JobRecord, Refusal>
    ensures { put_back (status_of result) (result_unwrap_or result r) (pixels cpe.new indices.new) tile_states.new deltas.new ≡ put_back_of r tile (pixels cpe.old indices.old) tile_states.old deltas.old (state copy_cpe.now copy_indices.now progress) }
{
    let job = putbacktests::check_put_back(
        r,
        tile,
        indices,
        cpe,
        tile_states,
        deltas,
        copy_cpe,
        copy_indices,
        progress,
    )?;
    let i = tile as usize;
    regions::write_region(job.tiles(), i, indices, cpe, copy_cpe, copy_indices);
    tile_states[i] = u8::from(TileState::Back);
    deltas[i] = progress.delta;
    Ok(JobRecord {
        accepted: r.accepted + progress.accepted as u64,
        ..r
    })
}

// The same on the run that the record is for a C host.
#[tactic(auto, using(words::proofs::RunLaws::unread, words::proofs::RunLaws::read, written::proofs::Laws::after, written::proofs::Laws::not_after), unfolding(job::specs::Boundary::put_back_run, job::specs::Boundary::put_back_over))]
pub fn put_back_run(
    record: &mut [u64],
    tile: u64,
    indices: &mut [Index],
    cpe: &mut [f64],
    tile_states: &mut [u8],
    deltas: &mut [f64],
    copy_cpe: &[f64],
    copy_indices: &[Index],
    progress: Progress,
) -> Result<(), Refusal>
    ensures { put_back (status_of result) «record».new (pixels cpe.new indices.new) tile_states.new deltas.new ≡ put_back_run «record».old tile (pixels cpe.old indices.old) tile_states.old deltas.old (state copy_cpe.now copy_indices.now progress) }
{
    let r = words::read(record)?;
    let back = put_back(
        r,
        tile,
        indices,
        cpe,
        tile_states,
        deltas,
        copy_cpe,
        copy_indices,
        progress,
    )?;
    written::rewrite(record, back);
    Ok(())
}
