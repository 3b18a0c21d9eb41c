// Take: a tile's region is copied out and the tile marked out.
#![tactic(auto)]

ghost use Rattle.std.specs.Prelude.{◌≡◌};
ghost use Rattle.base.specs.Answer.{status_of};
ghost use Rattle.job.specs.Copy.{pixels};
ghost use Rattle.job.specs.Words.{decode};
ghost use Rattle.job.specs.Boundary.{take_run};
ghost use Rattle.job.specs.Take.{taken, take_of};

use base::{Index, Refusal};
use job::{JobRecord, TileState};

// Copy a tile's region out and mark the tile out.
// Kept: the lent buffers apart, as the host has them: a struct of `&mut`s would be made of them at each call, and its contract say of each
// that it still is the host's (`ghost_name`).
fn take(
    r: JobRecord,
    tile: u64,
    indices: &[Index],
    cpe: &[f64],
    tile_states: &mut [u8],
    copy_cpe: &mut [f64],
    copy_indices: &mut [Index],
) -> Result<(), Refusal>
    ensures { taken (status_of result) r tile_states.new (pixels copy_cpe.new copy_indices.new) ≡ take_of r tile (pixels cpe.now indices.now) tile_states.old (pixels copy_cpe.old copy_indices.old) }
{
    let job = taketests::check_take(r, tile, indices, cpe, tile_states, copy_cpe, copy_indices)?;
    let i = tile as usize;
    regions::copy_region(job.tiles(), i, indices, cpe, copy_cpe, copy_indices);
    tile_states[i] = u8::from(TileState::Out);
    Ok(())
}

// The same on the run that the record is for a C host, which is only read.
// Kept: it and the other calls on a run are two to four lines each, which differ in the call and its buffers: no plainer as one.
#[tactic(auto, using(words::proofs::RunLaws::unread, words::proofs::RunLaws::read), unfolding(job::specs::Boundary::take_run))]
pub fn take_run(
    record: &[u64],
    tile: u64,
    indices: &[Index],
    cpe: &[f64],
    tile_states: &mut [u8],
    copy_cpe: &mut [f64],
    copy_indices: &mut [Index],
) -> Result<(), Refusal>
    ensures { taken (status_of result) (decode «record».now) tile_states.new (pixels copy_cpe.new copy_indices.new) ≡ take_run «record».now tile (pixels cpe.now indices.now) tile_states.old (pixels copy_cpe.old copy_indices.old) }
{
    let r = words::read(record)?;
    take(r, tile, indices, cpe, tile_states, copy_cpe, copy_indices)
}
