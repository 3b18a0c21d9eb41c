// The calls of the library, as Rattle crates make them; dbs_c exports them to C. Each function hands on to the crate of its
// call, whose contract it has.
// Kept: images, palettes, masks and buffers as parameters of their own, as the C interface has them.
#![tactic(auto)]

ghost use Rattle.std.specs.Prelude.{[], ◌≡◌};
ghost use Rattle.progress.specs.Progress.{progress_of};
ghost use Rattle.input.specs.Input.{input};
ghost use Rattle.perceived.specs.Perceived.{measure_of};
ghost use Rattle.refine.specs.Refine.{refinement, refine_of};
ghost use Rattle.findmove.specs.FindMove.{finding, find_of};
ghost use Rattle.base.specs.Refusal.{status};
ghost use Rattle.tile.specs.Tile.{state};
ghost use Rattle.job.specs.Copy.{pixels};
ghost use Rattle.job.specs.Open.{opening, opened};
ghost use Rattle.job.specs.Take.{taken};
ghost use Rattle.job.specs.Work.{worked};
ghost use Rattle.job.specs.PutBack.{put_back};
ghost use Rattle.job.specs.Recall.{recalled};
ghost use Rattle.job.specs.Close.{closed};
ghost use Rattle.job.specs.Words.{decode};
ghost use Rattle.job.specs.Boundary.{open_run, take_run, work_run, put_back_run, recall_run, close_run};

use accepted::DbsStats;
use base::{Index, Status};
use eye::DbsParams;
use found::DbsFound;
use input::Input;
use perceived::Measured;
use progress::Progress;
use work::DbsWorked;

// Refine the indices in place, by the plain walk over the whole image.
pub fn dbs_refine(
    pixels: &[u8],
    width: u64,
    height: u64,
    palette: &[u8],
    indices: &mut [Index],
    pinned: &[u8],
    ppi: f64,
    viewing_distance_cm: f64,
    max_passes: u64,
    cpe: &mut [f64],
    cpp: &mut [f64],
    accepted_per_pass: &mut [u32],
    inks: &mut [f64],
) -> DbsStats
    ensures { refinement result indices.new cpe.new cpp.new accepted_per_pass.new inks.new ≡ refine_of (input width height pixels.now palette.now indices.old pinned.now (record { viewing_distance_cm = viewing_distance_cm; ppi = ppi })) max_passes cpe.old cpp.old accepted_per_pass.old inks.old }
{
    let params = DbsParams {
        viewing_distance_cm,
        ppi,
    };
    DbsStats::from(refine::refine(
        pixels,
        width,
        height,
        palette,
        indices,
        pinned,
        params,
        max_passes,
        cpe,
        cpp,
        accepted_per_pass,
        inks,
    ))
}

// Perceived error of the indices; pins play no part.
pub fn perceived_error(
    pixels: &[u8],
    width: u64,
    height: u64,
    palette: &[u8],
    indices: &[Index],
    ppi: f64,
    viewing_distance_cm: f64,
) -> Measured
    ensures { result ≡ measure_of (input width height pixels.now palette.now indices.now [] (record { viewing_distance_cm = viewing_distance_cm; ppi = ppi })) }
{
    let params = DbsParams {
        viewing_distance_cm,
        ppi,
    };
    // An empty mask: nothing is pinned.
    let given = Input {
        width,
        height,
        pixels,
        palette,
        indices,
        pinned: &[],
        params,
    };
    Measured::from(perceived::measure(given))
}

// The first pixel, in the order of a whole pass, at which a move would be accepted.
pub fn dbs_find_move(
    pixels: &[u8],
    width: u64,
    height: u64,
    palette: &[u8],
    indices: &[Index],
    pinned: &[u8],
    ppi: f64,
    viewing_distance_cm: f64,
    cpe: &mut [f64],
    cpp: &mut [f64],
    inks: &mut [f64],
) -> DbsFound
    ensures { finding result cpe.new cpp.new inks.new ≡ find_of (input width height pixels.now palette.now indices.now pinned.now (record { viewing_distance_cm = viewing_distance_cm; ppi = ppi })) cpe.old cpp.old inks.old }
{
    let params = DbsParams {
        viewing_distance_cm,
        ppi,
    };
    let given = Input {
        width,
        height,
        pixels,
        palette,
        indices,
        pinned,
        params,
    };
    DbsFound::from(findmove::find_move(given, cpe, cpp, inks))
}

// Open a job: everything up to the walk.
pub fn dbs_open(
    record: &mut [u64],
    pixels: &[u8],
    width: u64,
    height: u64,
    palette: &[u8],
    indices: &[Index],
    pinned: &[u8],
    ppi: f64,
    viewing_distance_cm: f64,
    max_passes: u64,
    cpe: &mut [f64],
    cpp: &mut [f64],
    accepted_per_pass: &[u32],
    tile_states: &mut [u8],
    deltas: &mut [f64],
    inks: &mut [f64],
) -> Status
    ensures { opened result «record».new cpe.new cpp.new tile_states.new deltas.new inks.new ≡ open_run «record».old (opening (input width height pixels.now palette.now indices.now pinned.now (record { viewing_distance_cm = viewing_distance_cm; ppi = ppi })) max_passes cpe.old cpp.old accepted_per_pass.now tile_states.old deltas.old inks.old) }
{
    let params = DbsParams {
        viewing_distance_cm,
        ppi,
    };
    let given = Input {
        width,
        height,
        pixels,
        palette,
        indices,
        pinned,
        params,
    };
    Status::from(open::open_run(
        record,
        given,
        max_passes,
        cpe,
        cpp,
        accepted_per_pass,
        tile_states,
        deltas,
        inks,
    ))
}

// Copy a tile's region out and mark the tile out.
pub fn dbs_take(
    record: &[u64],
    tile: u64,
    indices: &[Index],
    cpe: &[f64],
    tile_states: &mut [u8],
    copy_cpe: &mut [f64],
    copy_indices: &mut [Index],
) -> Status
    ensures { taken result (decode «record».now) tile_states.new (pixels copy_cpe.new copy_indices.new) ≡ take_run «record».now tile (pixels cpe.now indices.now) tile_states.old (pixels copy_cpe.old copy_indices.old) }
{
    Status::from(take::take_run(
        record,
        tile,
        indices,
        cpe,
        tile_states,
        copy_cpe,
        copy_indices,
    ))
}

// Refine a tile on its copy. Touches no job state.
pub fn dbs_work(
    record: &[u64],
    tile: u64,
    pinned: &[u8],
    cpp: &[f64],
    copy_cpe: &mut [f64],
    copy_indices: &mut [Index],
    inks: &[f64],
) -> DbsWorked
    ensures { worked (status result.number result.place) (state copy_cpe.new copy_indices.new (progress_of result.accepted result.delta)) ≡ work_run «record».now tile pinned.now cpp.now (pixels copy_cpe.old copy_indices.old) inks.now }
{
    DbsWorked::from(work::work_run(record, tile, pinned, cpp, copy_cpe, copy_indices, inks))
}

// Write a copy back over its region, with the count and delta that dbs_work answered.
pub fn dbs_put_back(
    record: &mut [u64],
    tile: u64,
    indices: &mut [Index],
    cpe: &mut [f64],
    tile_states: &mut [u8],
    deltas: &mut [f64],
    copy_cpe: &[f64],
    copy_indices: &[Index],
    accepted: u64,
    delta: f64,
) -> Status
    ensures { put_back result «record».new (pixels cpe.new indices.new) tile_states.new deltas.new ≡ put_back_run «record».old tile (pixels cpe.old indices.old) tile_states.old deltas.old (state copy_cpe.now copy_indices.now (progress_of accepted delta)) }
{
    Status::from(putback::put_back_run(
        record,
        tile,
        indices,
        cpe,
        tile_states,
        deltas,
        copy_cpe,
        copy_indices,
        Progress {
            accepted: accepted as usize,
            delta,
        },
    ))
}

// Make an out tile waiting again; image and cpe stay.
pub fn dbs_recall(record: &[u64], tile: u64, tile_states: &mut [u8]) -> Status
    ensures { recalled result tile_states.new ≡ recall_run «record».now tile tile_states.old }
{
    Status::from(recall::recall_run(record, tile, tile_states))
}

// Close the phase: join its deltas to the error and go on to the next phase.
pub fn dbs_close(
    record: &mut [u64],
    accepted_per_pass: &mut [u32],
    tile_states: &mut [u8],
    deltas: &[f64],
) -> Status
    ensures { closed result «record».new accepted_per_pass.new tile_states.new ≡ close_run «record».old accepted_per_pass.old tile_states.old deltas.now }
{
    Status::from(close::close_run(record, accepted_per_pass, tile_states, deltas))
}
