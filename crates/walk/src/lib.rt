// The plain walk: the passes of `dbs_refine` of dbs.rs, tile by tile on the whole image.
#![tactic(auto)]

ghost use Rattle.std.specs.Prelude.{◌≡◌, ◌<◌, ◌^◌, length};
ghost use Rattle.tiling.specs.Tiling.{image};
ghost use Rattle.search.specs.Shared.{shared_of, Ready};
ghost use Rattle.phases.specs.Phases.{refined, pass_of};
ghost use Rattle.walk.specs.Walk.{Refines};

use base::Index;
use phases::Run;
use search::Setup;

// Passes run, and the error after them.
#[derive(Clone, Copy)]
pub struct Outcome {
    pub passes: usize,
    pub error: f64,
}

// The four phases of a pass, from no moves accepted.
// Kept: `cpe` and `indices` apart: as one struct lent as `&mut`, tried, each contract says of both fields too that they still are the
// caller's (`ghost_name`), or the caller learns nothing of them, and each loop keeps it: no plainer.
fn walk_pass(cpe: &mut [f64], indices: &mut [Index], s: Setup<'_>, error: f64) -> Run
    requires { Ready (shared_of s) (image s.tiling) (length cpe.old) indices.old }
    ensures result_after { refined cpe.new indices.new result ≡ pass_of (shared_of s.entry) (refined cpe.old indices.old (record { error = error; accepted = 0 })) }
    ensures accepted_bound { result.accepted < 2 ^ 32 }
{
    let mut run = Run { error, accepted: 0 };
    for phase in 0..4 {
        run = phases::walk_tiles(cpe, indices, s, phase, run);
    }
    run
}

// As many passes as there are counts, or until one accepts no move: the walk from its start to its end.
pub fn refine_passes(
    cpe: &mut [f64],
    indices: &mut [Index],
    s: Setup<'_>,
    accepted_per_pass: &mut [u32],
    error: f64,
) -> Outcome
    requires { Ready (shared_of s) (image s.tiling) (length cpe.old) indices.old }
    ensures { Refines (shared_of s.entry) cpe.old indices.old accepted_per_pass.old error cpe.new indices.new accepted_per_pass.new result }
{
    let mut e = error;
    for (pass, stored) in accepted_per_pass.iter_mut().enumerate() {
        let run = walk_pass(cpe, indices, s, e);
        e = run.error;
        *stored = run.accepted as u32;
        if run.accepted == 0 {
            return Outcome {
                passes: pass + 1,
                error: e,
            };
        }
    }
    Outcome {
        passes: accepted_per_pass.len(),
        error: e,
    }
}
