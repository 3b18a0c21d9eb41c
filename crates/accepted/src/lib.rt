// An accepted input refined: everything up to the walk, and the walk to its end.
#![tactic(auto)]

ghost use Rattle.std.specs.Prelude.{◌≡◌, length};
ghost use Rattle.input.specs.Input.{input};
ghost use Rattle.prepare.specs.Prepare.{ReadyToPrepare};
ghost use Rattle.accepted.specs.Accepted.{refinement, stats_as, answer_of, refine_accepted};

use base::{Index, Refusal, Status};
use eye::DbsParams;
use input::Input;
use search::Setup;
use sizes::Accepted;
use tiling::Tiling;

// Diagnostics of a run.
#[derive(Clone, Copy)]
pub struct Stats {
    // Passes run.
    pub passes: usize,
    // Perceived error of the starting halftone.
    pub initial_error: f64,
    // Perceived error of the refined halftone.
    pub final_error: f64,
}

// The same, or a refusal with zeros.
// Kept: C reads number and place here by their names, so that it is no `Result` and holds no `Status`.
#[repr(C)]
#[derive(Clone, Copy, Default)]
pub struct DbsStats {
    pub number: u64,
    pub place: u64,
    pub passes: u64,
    pub initial_error: f64,
    pub final_error: f64,
}

impl From<Result<Stats, Refusal>> for DbsStats {
    ghost from_gives = { λ r s. s ≡ answer_of r };

    fn from(run: Result<Stats, Refusal>) -> DbsStats {
        match run {
            Ok(stats) => DbsStats {
                passes: stats.passes as u64,
                initial_error: stats.initial_error,
                final_error: stats.final_error,
                ..DbsStats::default()
            },
            Err(refusal) => {
                let Status { number, place } = Status::from(refusal);
                DbsStats {
                    number,
                    place,
                    ..DbsStats::default()
                }
            }
        }
    }
}

// An accepted input, with as many counts as passes are allowed.
// Kept: the fields of an `Input` apart: an `Input` lends the halftone read only, which the walk writes here, and a type for the others would
// serve this call and `refine` alone.
pub fn refine_accepted(
    pixels: &[u8],
    palette: &[u8],
    indices: &mut [Index],
    pinned: &[u8],
    params: DbsParams,
    t: Tiling,
    cpe: &mut [f64],
    cpp: &mut [f64],
    accepted_per_pass: &mut [u32],
    inks: &mut [f64],
) -> Stats
    requires { ReadyToPrepare (input t.width t.height pixels.now palette.now indices.old pinned.now params) t (length inks.old) (length cpp.old) (length cpe.old) }
    ensures { refinement (stats_as result) indices.new cpe.new cpp.new accepted_per_pass.new inks.new ≡ refine_accepted (input t.width t.height pixels.now palette.now indices.old pinned.now params) (length accepted_per_pass.old) cpp.old accepted_per_pass.old }
{
    let given = Input {
        width: t.width as u64,
        height: t.height as u64,
        pixels,
        palette,
        indices,
        pinned,
        params,
    };
    let a = Accepted { given, tiling: t };
    let error = prepare::prepare(a, inks, cpp, cpe);
    let setup = Setup {
        tiling: t,
        pinned,
        inks,
        cpp,
    };
    let end = walk::refine_passes(cpe, indices, setup, accepted_per_pass, error);
    Stats {
        passes: end.passes,
        initial_error: error,
        final_error: end.error,
    }
}
