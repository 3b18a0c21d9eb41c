// The states of tiles as bytes of `tile_states`.
#![tactic(auto)]

ghost use Rattle.std.specs.Prelude.{◌≡◌, length, replicate};
ghost use Rattle.job.specs.declared.TileState.TheVariants.{Waiting};
ghost use Rattle.job.specs.Record.{byte_of, in_state};

use job::TileState;

// Whether a byte says that its tile is in a state.
pub fn is_in(byte: u8, wanted: TileState) -> bool
    ensures { result ≡ in_state wanted byte }
{
    TileState::from(byte) == wanted
}

// Every tile waiting.
pub fn clear(tile_states: &mut [u8])
    ensures { tile_states.new ≡ replicate (length tile_states.old) (byte_of Waiting) }
{
    tile_states.fill(u8::from(TileState::Waiting));
}
