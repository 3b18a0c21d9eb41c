// Refining: `dbs_refine` of dbs.rs. Tests 1 to 11 and 17, and then an accepted input is refined.
#![tactic(auto)]

ghost use Rattle.std.specs.Prelude.{◌≡◌};
ghost use Rattle.input.specs.Input.{input};
ghost use Rattle.accepted.specs.Accepted.{answer_of};
ghost use Rattle.refine.specs.Refine.{refinement, refine_of};

use accepted::Stats;
use base::{Index, Refusal};
use eye::DbsParams;
use input::Input;
use sizes::{Lent, Passes};

// Refine the indices in place, by the plain walk over the whole image.
pub fn refine(
    pixels: &[u8],
    width: u64,
    height: u64,
    palette: &[u8],
    indices: &mut [Index],
    pinned: &[u8],
    params: DbsParams,
    max_passes: u64,
    cpe: &mut [f64],
    cpp: &mut [f64],
    accepted_per_pass: &mut [u32],
    inks: &mut [f64],
) -> Result<Stats, Refusal>
    ensures { refinement (answer_of result) indices.new cpe.new cpp.new accepted_per_pass.new inks.new ≡ refine_of (input width height pixels.now palette.now indices.old pinned.now params) max_passes cpe.old cpp.old accepted_per_pass.old inks.old }
{
    let given = Input {
        width,
        height,
        pixels,
        palette,
        indices,
        pinned,
        params,
    };
    let passes = Passes {
        allowed: max_passes,
        counts: accepted_per_pass,
    };
    let a = sizes::check_refine(given, passes, Lent { cpe, cpp, inks })?;
    let tiling = a.tiling;
    Ok(accepted::refine_accepted(
        pixels,
        palette,
        indices,
        pinned,
        params,
        tiling,
        cpe,
        cpp,
        accepted_per_pass,
        inks,
    ))
}
