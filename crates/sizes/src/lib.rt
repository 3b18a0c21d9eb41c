// All refusals of refine, find_move and open: 1 to 9, which give the sizes of an accepted input, and then 10 and 11, of the passes
// allowed and the buffers lent, which are held to these sizes.
#![tactic(auto)]

ghost use Rattle.std.specs.Prelude.{◌≡◌, [], ◌∷◌, length, IfOk};
ghost use Rattle.base.specs.Refusal.{judge, accepted};
ghost use Rattle.base.specs.Limits.{cpp_length};
ghost use Rattle.base.specs.Answer.{status_of, Tested};
ghost use Rattle.input.specs.Input.{input_tests, run_tests, refine_run_tests, open_run_tests, find_run_tests, refine_tests, open_tests, find_tests, length_test};
ghost use Rattle.input.specs.Inputs.{input_of};
ghost use Rattle.tiling.specs.Tiling.{tiles};
ghost use Rattle.sizes.specs.Sizes.{tiling_of, sizes_of};

use base::{Buffer, CPP_LEN, MAX_PASSES, Refusal, refuse_if};
use input::{Input, check_length};
use tiling::{Tiles, Tiling};

// The tiling of an input, its number of tiles, and the lengths of its field and of its ink values.
#[derive(Clone, Copy)]
pub struct Sizes {
    pub tiling: Tiling,
    pub tiles: usize,
    pub field: usize,
    pub values: usize,
}

// Refusals 1 to 9, and the sizes where none applies.
pub fn check_sizes(given: Input<'_>) -> Result<Sizes, Refusal>
    ensures { Tested result (input_tests (input_of given.entry)) (sizes_of (input_of given.entry)) }
{
    let eye = given.check()?;
    let tiling = Tiling {
        width: given.width as usize,
        height: given.height as usize,
        lum: eye.lum_radius,
        chroma: eye.chroma_radius,
    };
    Ok(Sizes {
        tiling,
        tiles: Tiles { tiling }.tile_count(),
        field: 3 * (tiling.height * tiling.width),
        values: 3 * (given.palette.len() / 3),
    })
}

// The buffers that all three calls are lent, whose lengths are tested.
#[derive(Clone, Copy)]
pub struct Lent<'a> {
    pub cpe: &'a [f64],
    pub cpp: &'a [f64],
    pub inks: &'a [f64],
}

// The passes allowed, with the counts lent for them.
#[derive(Clone, Copy)]
pub struct Passes<'a> {
    pub allowed: u64,
    pub counts: &'a [u32],
}

// An input that no test refuses, with its tiling.
#[derive(Clone, Copy)]
pub struct Accepted<'a> {
    pub given: Input<'a>,
    pub tiling: Tiling,
    pub ghost passes: { judge (input_tests (input_of given)) ≡ accepted },
    pub ghost tiled: { tiling ≡ tiling_of (input_of given) },
}

impl Sizes {
    // Refusal 11 of buffers 1 and 2.
    #[tactic(auto, unfolding(base::specs::Refusal::judge))]
    fn check_field(self, lent: Lent<'_>) -> Result<(), Refusal>
        ensures { status_of result ≡ judge (length_test 1 (length lent.entry.cpe.now) self.field ∷ length_test 2 (length lent.entry.cpp.now) cpp_length ∷ []) }
    {
        check_length(Buffer::Cpe, lent.cpe.len(), self.field)?;
        check_length(Buffer::Cpp, lent.cpp.len(), CPP_LEN)
    }

    // Refusal 10, and 11 of buffers 1 to 3.
    #[tactic(auto, unfolding(input::specs::Input::run_tests, base::specs::Refusal::judge))]
    fn check_run(self, passes: Passes<'_>, lent: Lent<'_>) -> Result<(), Refusal>
        ensures { status_of result ≡ judge (run_tests passes.entry.allowed self.field (length lent.entry.cpe.now) (length lent.entry.cpp.now) (length passes.entry.counts.now)) }
    {
        refuse_if(passes.allowed > MAX_PASSES as u64, Refusal::Passes)?;
        self.check_field(lent)?;
        check_length(
            Buffer::AcceptedPerPass,
            passes.counts.len(),
            passes.allowed as usize,
        )
    }

    // Refusals 10 and 11 of refine.
    #[tactic(auto, unfolding(input::specs::Input::refine_run_tests, input::specs::Input::run_tests, base::specs::Refusal::judge))]
    fn check_refine_run(self, passes: Passes<'_>, lent: Lent<'_>) -> Result<(), Refusal>
        ensures { status_of result ≡ judge (refine_run_tests passes.entry.allowed self.field self.values (length lent.entry.cpe.now) (length lent.entry.cpp.now) (length passes.entry.counts.now) (length lent.entry.inks.now)) }
    {
        self.check_run(passes, lent)?;
        check_length(Buffer::Inks, lent.inks.len(), self.values)
    }

    // Refusal 11 of find_move, which is given no passes and no counts.
    #[tactic(auto, unfolding(input::specs::Input::find_run_tests, base::specs::Refusal::judge))]
    fn check_find_run(self, lent: Lent<'_>) -> Result<(), Refusal>
        ensures { status_of result ≡ judge (find_run_tests self.field self.values (length lent.entry.cpe.now) (length lent.entry.cpp.now) (length lent.entry.inks.now)) }
    {
        self.check_field(lent)?;
        check_length(Buffer::Inks, lent.inks.len(), self.values)
    }

    // Refusals 10 and 11 of open.
    #[tactic(auto, unfolding(input::specs::Input::open_run_tests, input::specs::Input::run_tests, base::specs::Refusal::judge))]
    fn check_open_run(
        self,
        passes: Passes<'_>,
        lent: Lent<'_>,
        tile_states: &[u8],
        deltas: &[f64],
    ) -> Result<(), Refusal>
        ensures { status_of result ≡ judge (open_run_tests passes.entry.allowed self.field self.values self.tiles (length lent.entry.cpe.now) (length lent.entry.cpp.now) (length passes.entry.counts.now) (length tile_states.now) (length deltas.now) (length lent.entry.inks.now)) }
    {
        self.check_run(passes, lent)?;
        check_length(Buffer::TileStates, tile_states.len(), self.tiles)?;
        check_length(Buffer::Deltas, deltas.len(), self.tiles)?;
        check_length(Buffer::Inks, lent.inks.len(), self.values)
    }
}

// All refusals of refine, and the input with its tiling where none applies.
#[tactic(auto, using(crate::proofs::Laws::refused_at, crate::proofs::Laws::told_by, crate::proofs::Laws::tiling_is), unfolding(input::specs::Input::refine_tests, crate::specs::Sizes::sizes_of))]
pub fn check_refine<'a>(
    given: Input<'a>,
    passes: Passes<'_>,
    lent: Lent<'_>,
) -> Result<Accepted<'a>, Refusal>
    ensures tested { status_of result ≡ judge (refine_tests (input_of given.entry) passes.entry.allowed (length lent.entry.cpe.now) (length lent.entry.cpp.now) (length passes.entry.counts.now) (length lent.entry.inks.now)) }
    ensures same { IfOk result (λ a. input_of a.given ≡ input_of given.entry) }
{
    let s = check_sizes(given)?;
    s.check_refine_run(passes, lent)?;
    Ok(Accepted {
        given,
        tiling: s.tiling,
    })
}

// All refusals of find_move, and the input with its tiling where none applies.
#[tactic(auto, using(crate::proofs::Laws::refused_at, crate::proofs::Laws::told_by, crate::proofs::Laws::tiling_is), unfolding(input::specs::Input::find_tests, crate::specs::Sizes::sizes_of))]
pub fn check_find<'a>(given: Input<'a>, lent: Lent<'_>) -> Result<Accepted<'a>, Refusal>
    ensures tested { status_of result ≡ judge (find_tests (input_of given.entry) (length lent.entry.cpe.now) (length lent.entry.cpp.now) (length lent.entry.inks.now)) }
    ensures same { IfOk result (λ a. input_of a.given ≡ input_of given.entry) }
{
    let found = check_sizes(given)?;
    found.check_find_run(lent)?;
    Ok(Accepted {
        given,
        tiling: found.tiling,
    })
}

// All refusals of open, and the input with its tiling where none applies.
#[tactic(auto, using(crate::proofs::Laws::refused_at, crate::proofs::Laws::told_by, crate::proofs::Laws::tiling_is), unfolding(input::specs::Input::open_tests, crate::specs::Sizes::sizes_of))]
pub fn check_open<'a>(
    given: Input<'a>,
    passes: Passes<'_>,
    lent: Lent<'_>,
    tile_states: &[u8],
    deltas: &[f64],
) -> Result<Accepted<'a>, Refusal>
    ensures tested { status_of result ≡ judge (open_tests (input_of given.entry) passes.entry.allowed (tiles (tiling_of (input_of given.entry))) (length lent.entry.cpe.now) (length lent.entry.cpp.now) (length passes.entry.counts.now) (length tile_states.now) (length deltas.now) (length lent.entry.inks.now)) }
    ensures same { IfOk result (λ a. input_of a.given ≡ input_of given.entry) }
{
    let s = check_sizes(given)?;
    s.check_open_run(passes, lent, tile_states, deltas)?;
    Ok(Accepted {
        given,
        tiling: s.tiling,
    })
}
