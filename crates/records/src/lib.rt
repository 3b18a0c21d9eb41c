// The job record's tests and those that the calls on a job share, in document 01's order. Every test takes
// any record: what is multiplied has been found within its limits before.
#![tactic(auto)]

ghost use Rattle.std.specs.Prelude.{◌≡◌, not, ◌&&◌, [], ◌∷◌, ◌*◌, ◌≤◌, ◌<◌, leb, ltb, eqb, length, IfOk};
ghost use Rattle.base.specs.Answer.{number_of, status_of};
ghost use Rattle.base.specs.Grid.{area};
ghost use Rattle.base.specs.Refusal.{test, judge};
ghost use Rattle.input.specs.Input.{length_test};
ghost use Rattle.tiling.specs.Tiling.{Limits, tiles, in_phase, region};
ghost use Rattle.job.specs.Record.{radius_fits, record_tests, is_due, is_in};
ghost use Rattle.job.specs.Valid.{ValidRecord};

use base::{Buffer, Index, MAX_INKS, MAX_PASSES, Refusal, refuse_if};
use input::check_length;
use job::{JobRecord, TileState};
use tiling::Tiles;

#[tactic(auto, unfolding(job::specs::Record::radius_fits))]
fn is_radius(radius: usize) -> bool
    ensures { result ≡ radius_fits radius }
{
    radius % 2 == 0 && fits::is_within(2, radius as u64, 32)
}

// Unfinished with no pass remaining.
fn is_spent(r: JobRecord) -> bool
    ensures { result ≡ (not r.finished && leb r.plan.allowed r.done) }
{
    let plan = r.plan;
    !r.finished && r.done >= plan.allowed
}

// A record of an image within document 01's limits, as every record is that its tests have passed.
#[derive(Clone, Copy)]
pub struct CheckedJob {
    pub record: JobRecord,
    pub ghost limits: { Limits «record».plan.tiling },
}

// Refusal 12.
#[tactic(auto, unfolding(job::specs::Record::record_tests, job::specs::Record::pixels_of, base::specs::Refusal::judge))]
fn check(r: JobRecord) -> Result<(), Refusal>
    ensures { status_of result ≡ judge (record_tests r) }
{
    let plan = r.plan;
    let t = plan.tiling;
    refuse_if(
        !fits::is_size(t.width as u64, t.height as u64),
        Refusal::Record,
    )?;
    refuse_if(
        !fits::is_within(1, plan.inks, MAX_INKS as u64),
        Refusal::Record,
    )?;
    refuse_if(!is_radius(t.lum), Refusal::Record)?;
    refuse_if(!is_radius(t.chroma), Refusal::Record)?;
    refuse_if(plan.allowed > MAX_PASSES as u64, Refusal::Record)?;
    refuse_if(r.done > plan.allowed, Refusal::Record)?;
    refuse_if(r.phase > 3, Refusal::Record)?;
    refuse_if(is_spent(r), Refusal::Record)?;
    let n = t.height * t.width;
    refuse_if(r.accepted > n as u64, Refusal::Record)
}

// Refusal 12 of a record.
pub fn check_record(r: JobRecord) -> Result<CheckedJob, Refusal>
    ensures tested { status_of result ≡ judge (record_tests r) }
    ensures same { IfOk result (λ c. c.record ≡ r) }
    ensures valid { IfOk result (λ _. ValidRecord r) }
{
    check(r)?;
    Ok(CheckedJob { record: r })
}

impl CheckedJob {
    pub fn tiles(self) -> Tiles
        ensures { result.tiling ≡ self.record.plan.tiling }
    {
        let plan = self.record.plan;
        Tiles {
            tiling: plan.tiling,
        }
    }

    // Whether the image has this tile.
    pub fn has_tile(self, tile: u64) -> bool
        ensures { result ≡ ltb tile (tiles self.record.plan.tiling) }
    {
        tile < self.tiles().tile_count() as u64
    }

    // Whether a tile has its turn in this phase. Any tile number may be asked for.
    pub fn is_of_phase(self, tile: usize) -> bool
        ensures { result ≡ in_phase self.record.plan.tiling self.record.phase tile }
    {
        self.tiles().is_in_phase(self.record.phase as usize, tile)
    }

    // Whether the image has this tile, and it is its turn.
    #[tactic(auto, unfolding(job::specs::Record::is_due))]
    pub fn is_due(self, tile: u64) -> bool
        ensures { result ≡ is_due self.record tile }
    {
        self.has_tile(tile) && self.is_of_phase(tile as usize)
    }

    // Refusals 16 and 13 of the calls on a tile in its turn.
    #[tactic(auto, unfolding(base::specs::Refusal::judge))]
    pub fn check_turn(self, tile: u64) -> Result<(), Refusal>
        ensures { status_of result ≡ judge (test self.record.finished 16 0 ∷ test (not (is_due self.record tile)) 13 0 ∷ []) }
    {
        refuse_if(self.record.finished, Refusal::Finished)?;
        refuse_if(!self.is_due(tile), Refusal::NotDue)
    }

    // Refusal 11 of a buffer with a value for each tile.
    #[tactic(auto, unfolding(base::specs::Refusal::judge))]
    pub fn check_per_tile(self, buffer: Buffer, len: usize) -> Result<(), Refusal>
        ensures { status_of result ≡ judge (length_test (number_of buffer) len (tiles self.record.plan.tiling) ∷ []) }
    {
        check_length(buffer, len, self.tiles().tile_count())
    }

    // Refusal 3, and 11 of `cpe` and the tile states.
    // Kept: here and in `check_copy` `cpe` and the indices go apart, as the host lends them: take, work and put back would each make a
    // struct of them for their tests alone.
    #[tactic(auto, unfolding(base::specs::Refusal::judge))]
    pub fn check_image(
        self,
        indices: &[Index],
        cpe: &[f64],
        tile_states: &[u8],
    ) -> Result<(), Refusal>
        ensures { status_of result ≡ judge (test (not (eqb (length indices.now) (self.record.plan.tiling.height * self.record.plan.tiling.width))) 3 0 ∷ length_test 1 (length cpe.now) (3 * (self.record.plan.tiling.height * self.record.plan.tiling.width)) ∷ length_test 4 (length tile_states.now) (tiles self.record.plan.tiling) ∷ []) }
    {
        let plan = self.record.plan;
        let n = plan.tiling.height * plan.tiling.width;
        refuse_if(indices.len() != n, Refusal::Indices)?;
        check_length(Buffer::Cpe, cpe.len(), 3 * n)?;
        self.check_per_tile(Buffer::TileStates, tile_states.len())
    }

    // Refusal 11 of the copies of a tile's region.
    #[tactic(auto, using(crate::proofs::Rects::region_sides, tiling::proofs::Sizes::region_area_limit), unfolding(base::specs::Refusal::judge))]
    pub fn check_copy(
        self,
        tile: usize,
        copy_cpe: &[f64],
        copy_indices: &[Index],
    ) -> Result<(), Refusal>
        requires { tile < tiles self.record.plan.tiling }
        ensures { status_of result ≡ judge (length_test 6 (length copy_cpe.now) (3 * area (region self.record.plan.tiling tile)) ∷ length_test 7 (length copy_indices.now) (area (region self.record.plan.tiling tile)) ∷ []) }
    {
        let region = self.tiles().region_rect(tile);
        let n = region.area();
        check_length(Buffer::CopyCpe, copy_cpe.len(), 3 * n)?;
        check_length(Buffer::CopyIndices, copy_indices.len(), n)
    }
}

// Refusal 14: a tile that is not in this state. One past the states reads as waiting, as `is_in` has it.
#[tactic(auto, unfolding(base::specs::Refusal::judge))]
pub fn check_state(tile_states: &[u8], tile: usize, wanted: TileState) -> Result<(), Refusal>
    ensures { status_of result ≡ judge (test (not (is_in wanted tile_states.now tile)) 14 0 ∷ []) }
{
    let state = tile_states.get(tile).copied().unwrap_or(0);
    refuse_if(!states::is_in(state, wanted), Refusal::State)
}
