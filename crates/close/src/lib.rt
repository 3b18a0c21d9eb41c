// Close: once every tile of the phase is back, its deltas join the error in ascending tile number and the
// job goes on to the next phase, as the plain walk does.
#![tactic(auto)]

ghost use Rattle.std.specs.Prelude.{◌≡◌};
ghost use Rattle.std.specs.Result.{result_unwrap_or};
ghost use Rattle.base.specs.Answer.{status_of};
ghost use Rattle.job.specs.Boundary.{close_run};
ghost use Rattle.job.specs.Close.{closed, close_of};

use base::Refusal;
use job::JobRecord;

// Join the phase's deltas to the error and go on to the next phase.
// Kept: the lent buffers apart, as the host has them: a struct of them would be made at each call, and its contract say of each `&mut`
// that it still is the host's (`ghost_name`).
fn close(
    r: JobRecord,
    accepted_per_pass: &mut [u32],
    tile_states: &mut [u8],
    deltas: &[f64],
) -> Result<JobRecord, Refusal>
    ensures { closed (status_of result) (result_unwrap_or result r) accepted_per_pass.new tile_states.new ≡ close_of r accepted_per_pass.old tile_states.old deltas.now }
{
    let job = closetests::check_close(r, accepted_per_pass, tile_states, deltas)?;
    let error = nextphase::add_deltas(job, deltas);
    nextphase::release(job, tile_states);
    nextphase::store_count(r, accepted_per_pass);
    Ok(nextphase::next_record(r, error))
}

// The same on the run that the record is for a C host.
#[tactic(auto, using(words::proofs::RunLaws::unread, words::proofs::RunLaws::read, written::proofs::Laws::after, written::proofs::Laws::not_after), unfolding(job::specs::Boundary::close_run, job::specs::Boundary::closed_over))]
pub fn close_run(
    record: &mut [u64],
    accepted_per_pass: &mut [u32],
    tile_states: &mut [u8],
    deltas: &[f64],
) -> Result<(), Refusal>
    ensures { closed (status_of result) «record».new accepted_per_pass.new tile_states.new ≡ close_run «record».old accepted_per_pass.old tile_states.old deltas.now }
{
    let r = words::read(record)?;
    let closed = close(r, accepted_per_pass, tile_states, deltas)?;
    written::rewrite(record, closed);
    Ok(())
}
