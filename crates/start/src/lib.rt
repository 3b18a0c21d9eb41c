// Open, on a record: everything up to the walk, and a job at its start. `prepare` is also the first half of refining.
#![tactic(auto)]

ghost use Rattle.std.specs.Prelude.{◌≡◌};
ghost use Rattle.std.specs.Result.{result_unwrap_or};
ghost use Rattle.base.specs.Answer.{status_of};
ghost use Rattle.input.specs.Inputs.{input_of};
ghost use Rattle.job.specs.Open.{opening, opened, zero_record, open_of};

use base::Refusal;
use input::Input;
use job::{JobRecord, Plan};
use sizes::{Lent, Passes};

// Open a job.
// Kept: the lent buffers apart, as the host has them: a struct of `&mut`s would be made of them at each call, and its contract say of each
// that it still is the host's (`ghost_name`).
pub fn open(
    given: Input<'_>,
    max_passes: u64,
    cpe: &mut [f64],
    cpp: &mut [f64],
    accepted_per_pass: &[u32],
    tile_states: &mut [u8],
    deltas: &mut [f64],
    inks: &mut [f64],
) -> Result<JobRecord, Refusal>
    ensures { opened (status_of result) (result_unwrap_or result zero_record) cpe.new cpp.new tile_states.new deltas.new inks.new ≡ open_of (opening (input_of given.entry) max_passes cpe.old cpp.old accepted_per_pass.now tile_states.old deltas.old inks.old) }
{
    let passes = Passes {
        allowed: max_passes,
        counts: accepted_per_pass,
    };
    let lent = Lent { cpe, cpp, inks };
    let a = sizes::check_open(given, passes, lent, tile_states, deltas)?;
    states::clear(tile_states);
    deltas.fill(0.0);
    let error = prepare::prepare(a, inks, cpp, cpe);
    let plan = Plan {
        tiling: a.tiling,
        inks: given.palette.len() as u64 / 3,
        allowed: max_passes,
        initial: error,
    };
    Ok(JobRecord {
        plan,
        done: 0,
        phase: 0,
        accepted: 0,
        error,
        finished: max_passes == 0,
    })
}
