// Measuring: `perceived_error` of dbs.rs. Tests 1 to 9, and then an accepted input is measured. Pins play no part.
#![tactic(auto)]

ghost use Rattle.std.specs.Prelude.{[], ◌≡◌};
ghost use Rattle.input.specs.Input.{input};
ghost use Rattle.perceived.specs.Perceived.{answer_of, measure_of};

use base::{Refusal, Status};
use input::Input;

// The perceived error, or a refusal with a zero.
// Kept: C reads number and place here by their names, so that it is no `Result` and holds no `Status`.
#[repr(C)]
#[derive(Clone, Copy, Default)]
pub struct Measured {
    pub number: u64,
    pub place: u64,
    pub error: f64,
}

impl From<Result<f64, Refusal>> for Measured {
    ghost from_gives = { λ r m. m ≡ answer_of r };

    fn from(measured: Result<f64, Refusal>) -> Measured {
        match measured {
            Ok(error) => Measured {
                error,
                ..Measured::default()
            },
            Err(refusal) => {
                let Status { number, place } = Status::from(refusal);
                Measured {
                    number,
                    place,
                    ..Measured::default()
                }
            }
        }
    }
}

// Perceived error of the indices; pins play no part, whatever the input's mask.
pub fn measure(given: Input<'_>) -> Result<f64, Refusal>
    ensures { answer_of result ≡ measure_of (input given.entry.width given.entry.height given.entry.pixels.now given.entry.palette.now given.entry.indices.now [] given.entry.params) }
{
    let given = Input {
        pinned: &[],
        ..given
    };
    given.check()?;
    Ok(measuring::perceived_error(given))
}
