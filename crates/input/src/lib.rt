// The tests of what refine, measure, find_move and open are given: refusals 1 to 9 in order, 17 after 4, as the lists of
// specs/Input.antt have them; 10 and 11 are in the crate `sizes`. Every function takes any numbers and slices of any length: the size is
// tested before anything is multiplied. An input is accepted exactly where it is valid
// (specs/Valid.antt, proofs/Validity.antt).
#![tactic(auto)]

ghost use Rattle.std.specs.Prelude.{◌≡◌, true, false, not, [], ◌∷◌, IfOk, IfErr, length};
ghost use Rattle.base.specs.Refusal.{test, judge};
ghost use Rattle.base.specs.Answer.{number_of, status_of, Tested};
ghost use Rattle.eye.specs.Eye.{eye_of};
ghost use Rattle.fits.specs.Fits.{mask_fits};
ghost use Rattle.input.specs.Input.{mask_test, index_test, halftone_tests, image_tests, input_tests, length_test};

use base::{Buffer, Index, Refusal, refuse_if};
use eye::{DbsParams, Eye};

// What refine, measure, find_move and open are given: an image, a palette, a halftone, its pin mask and the eye. Measuring lends an empty mask.
#[derive(Clone, Copy)]
pub struct Input<'a> {
    pub width: u64,
    pub height: u64,
    pub pixels: &'a [u8],
    pub palette: &'a [u8],
    pub indices: &'a [Index],
    pub pinned: &'a [u8],
    pub params: DbsParams,
}

impl<'a> Input<'a> {
    ghost use Rattle.input.specs.Inputs.{input_of};

    // Refusals 3, 4, 17, 5 and 6, where the image has n pixels.
    fn check_halftone(self, n: usize) -> Result<(), Refusal>
        ensures { status_of result ≡ judge (halftone_tests n (length self.entry.palette.now) self.entry.indices.now self.entry.pinned.now) }
    {
        refuse_if(self.indices.len() != n, Refusal::Indices)?;
        check_mask(self.pinned, n)?;
        refuse_if(!fits::is_palette(self.palette), Refusal::Palette)?;
        check_indices(self.indices, self.palette.len() / 3)
    }

    // Refusals 1 to 6, with 17 after 4.
    #[tactic(auto, unfolding(crate::specs::Input::image_tests, base::specs::Refusal::judge))]
    fn check_image(self) -> Result<(), Refusal>
        ensures { status_of result ≡ judge (image_tests self.entry.width self.entry.height (length self.entry.pixels.now) (length self.entry.palette.now) self.entry.indices.now self.entry.pinned.now) }
    {
        refuse_if(!fits::is_size(self.width, self.height), Refusal::Size)?;
        let n = self.height as usize * self.width as usize;
        refuse_if(self.pixels.len() != 3 * n, Refusal::Pixels)?;
        self.check_halftone(n)
    }

    // Refusals 1 to 9, with 17 after 4, and both kernel radii where none applies.
    pub fn check(self) -> Result<Eye, Refusal>
        ensures { Tested result (input_tests (input_of self.entry)) (eye_of self.entry.params) }
    {
        self.check_image()?;
        self.params.validate()
    }
}

// A line of refusal 11: a buffer that is not as long as it is to be.
pub fn check_length(buffer: Buffer, len: usize, wanted: usize) -> Result<(), Refusal>
    ensures passes { IfOk result (λ _. (length_test (number_of buffer) len wanted).fails ≡ false) }
    ensures fails { IfErr result (λ e. ((length_test (number_of buffer) len wanted).fails ≡ true) × (e ≡ Refusal.Length buffer)) }
{
    refuse_if(len != wanted, Refusal::Length(buffer))
}

// Refusals 4 and 17 of the mask of an image of n pixels.
#[tactic(auto, using(fits::proofs::Places::place_of, fits::proofs::Places::none_before), unfolding(base::specs::Refusal::judge))]
pub fn check_mask(pinned: &[u8], n: usize) -> Result<(), Refusal>
    ensures { status_of result ≡ judge (test (not (mask_fits (length pinned.now) n)) 4 0 ∷ mask_test pinned.now ∷ []) }
{
    refuse_if(!fits::is_mask(pinned, n), Refusal::Mask)?;
    if let Some(place) = fits::first_above_one(pinned) {
        return Err(Refusal::MaskByte(place as u64));
    }
    Ok(())
}

// Refusal 6 of indices that are each to name one of so many inks.
#[tactic(auto, using(fits::proofs::Places::place_of, fits::proofs::Places::none_before), unfolding(base::specs::Refusal::judge))]
pub fn check_indices(indices: &[Index], inks: usize) -> Result<(), Refusal>
    ensures { status_of result ≡ judge (index_test inks indices.now ∷ []) }
{
    if let Some(place) = fits::first_unnamed(indices, inks) {
        return Err(Refusal::Index(place as u64));
    }
    Ok(())
}
