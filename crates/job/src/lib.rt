// The job record: what open hands out, and what every call on a job takes and returns by value.
// The definitions of the calls are in specs/, with the claim that tiles shared among workers give
// the image of the plain walk (specs/Claim.antt); proofs/ has its proof.
#![tactic(auto)]

ghost use Rattle.std.specs.Prelude.{◌≡◌};
ghost use Rattle.job.specs.Record.{byte_of, state_of};

use tiling::Tiling;

// What an open fixes and no call changes.
#[derive(Clone, Copy)]
pub struct Plan {
    // The image's size and the radii of both kernels.
    pub tiling: Tiling,
    pub inks: u64,
    // Passes allowed.
    pub allowed: u64,
    // The initial error.
    pub initial: f64,
}

// Document 01's job record. At the C boundary it is a run of numbers (specs/Words.antt).
#[derive(Clone, Copy)]
pub struct JobRecord {
    pub plan: Plan,
    // Passes done.
    pub done: u64,
    // The phase of this pass, 0 to 3.
    // Kept: document 01's number, which C reads in the run; a record with a phase above 3 is taken and refused, and an enum could not hold it.
    pub phase: u64,
    // Moves accepted in this pass.
    pub accepted: u64,
    // The final error, as far as reached.
    pub error: f64,
    pub finished: bool,
}

// What `tile_states` holds of a tile: it waits for a worker, is with one, or is back.
#[derive(Clone, Copy, PartialEq, Eq)]
pub enum TileState {
    Waiting,
    Out,
    Back,
}

// The byte that a call writes of a tile.
impl From<TileState> for u8 {
    ghost from_gives = { λ state byte. byte ≡ byte_of state };

    fn from(state: TileState) -> u8 {
        state as u8
    }
}

// What a byte says of its tile.
// Kept: a match: no derive gives it, as a byte from 2 on is back too.
impl From<u8> for TileState {
    ghost from_gives = { λ byte state. state ≡ state_of byte };

    #[tactic(auto, unfolding(crate::specs::Record::state_of))]
    fn from(byte: u8) -> TileState {
        match byte {
            0 => TileState::Waiting,
            1 => TileState::Out,
            2.. => TileState::Back,
        }
    }
}
