// Open, on the run of words that the record is for a C host.
#![tactic(auto)]

ghost use Rattle.std.specs.Prelude.{◌≡◌};
ghost use Rattle.base.specs.Answer.{status_of};
ghost use Rattle.input.specs.Inputs.{input_of};
ghost use Rattle.job.specs.Open.{opening, opened};
ghost use Rattle.job.specs.Boundary.{open_run};

use base::Refusal;
use input::Input;

// The run is only written.
// Kept: the lent buffers apart, as in `start::open`: a struct of `&mut`s would say of each that it still is the host's (`ghost_name`).
pub fn open_run(
    record: &mut [u64],
    given: Input<'_>,
    max_passes: u64,
    cpe: &mut [f64],
    cpp: &mut [f64],
    accepted_per_pass: &[u32],
    tile_states: &mut [u8],
    deltas: &mut [f64],
    inks: &mut [f64],
) -> Result<(), Refusal>
    ensures { opened (status_of result) «record».new cpe.new cpp.new tile_states.new deltas.new inks.new ≡ open_run «record».old (opening (input_of given.entry) max_passes cpe.old cpp.old accepted_per_pass.now tile_states.old deltas.old inks.old) }
{
    words::check_run(record)?;
    let opened = start::open(
        given,
        max_passes,
        cpe,
        cpp,
        accepted_per_pass,
        tile_states,
        deltas,
        inks,
    )?;
    written::encode(record, opened);
    Ok(())
}
