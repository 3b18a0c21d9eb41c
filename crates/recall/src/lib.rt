// Recall: a tile that is out waits again. What its worker made of it is not asked for.
#![tactic(auto)]

ghost use Rattle.std.specs.Prelude.{◌≡◌};
ghost use Rattle.base.specs.Answer.{status_of};
ghost use Rattle.base.specs.Refusal.{judge};
ghost use Rattle.job.specs.Recall.{recalled, recall_tests, recall_of};
ghost use Rattle.job.specs.Boundary.{recall_run};

use base::{Buffer, Refusal};
use job::{JobRecord, TileState};

// Refusals 12, 16, 13, 11 and 14.
#[tactic(auto, unfolding(job::specs::Recall::recall_tests, base::specs::Refusal::judge))]
fn check_recall(r: JobRecord, tile: u64, tile_states: &[u8]) -> Result<(), Refusal>
    ensures { status_of result ≡ judge (recall_tests r tile tile_states.now) }
{
    let job = records::check_record(r)?;
    job.check_turn(tile)?;
    job.check_per_tile(Buffer::TileStates, tile_states.len())?;
    records::check_state(tile_states, tile as usize, TileState::Out)
}

// Make an out tile waiting again.
fn recall(r: JobRecord, tile: u64, tile_states: &mut [u8]) -> Result<(), Refusal>
    ensures { recalled (status_of result) tile_states.new ≡ recall_of r tile tile_states.old }
{
    check_recall(r, tile, tile_states)?;
    tile_states[tile as usize] = u8::from(TileState::Waiting);
    Ok(())
}

// The same on the run that the record is for a C host, which is only read.
#[tactic(auto, using(words::proofs::RunLaws::unread, words::proofs::RunLaws::read), unfolding(job::specs::Boundary::recall_run))]
pub fn recall_run(record: &[u64], tile: u64, tile_states: &mut [u8]) -> Result<(), Refusal>
    ensures { recalled (status_of result) tile_states.new ≡ recall_run «record».now tile tile_states.old }
{
    let r = words::read(record)?;
    recall(r, tile, tile_states)
}
