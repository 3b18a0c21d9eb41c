// dbs_find_move: the tests, and then the first move that a pass over an accepted input would accept.
#![tactic(auto)]

ghost use Rattle.std.specs.Prelude.{◌≡◌, length};
ghost use Rattle.input.specs.Inputs.{input_of};
ghost use Rattle.prepare.specs.Prepare.{RoomFor};
ghost use Rattle.found.specs.Found.{answer_of};
ghost use Rattle.findmove.specs.FindMove.{search, search_accepted, finding, find_of};

use base::Refusal;
use firstmove::FirstMove;
use input::Input;
use search::Setup;
use sizes::{Accepted, Lent};

// An accepted input: ink values, kernels and field, and the search of a pass.
fn find_accepted(
    a: Accepted<'_>,
    cpe: &mut [f64],
    cpp: &mut [f64],
    inks: &mut [f64],
) -> Option<FirstMove>
    requires { RoomFor (input_of a.given) (length inks.old) (length cpp.old) (length cpe.old) }
    ensures { search result cpe.new cpp.new inks.new ≡ search_accepted (input_of a.entry.given) cpp.old }
{
    prepare::build(a, inks, cpp, cpe);
    let setup = Setup {
        tiling: a.tiling,
        pinned: a.given.pinned,
        inks,
        cpp,
    };
    firstmove::first_in_pass(cpe, a.given.indices, setup)
}

// The first pixel, in the order of a whole pass, at which a move would be accepted.
// Kept: the lent buffers apart, as the host has them: a struct of `&mut`s would be made of them at each call, and its contract say of each
// that it still is the host's (`ghost_name`).
pub fn find_move(
    given: Input<'_>,
    cpe: &mut [f64],
    cpp: &mut [f64],
    inks: &mut [f64],
) -> Result<Option<FirstMove>, Refusal>
    ensures { finding (answer_of result) cpe.new cpp.new inks.new ≡ find_of (input_of given.entry) cpe.old cpp.old inks.old }
{
    let a = sizes::check_find(given, Lent { cpe, cpp, inks })?;
    Ok(find_accepted(a, cpe, cpp, inks))
}
