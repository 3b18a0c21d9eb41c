// An accepted input measured: ink values, both blurs of the eye, and the error of the halftone seen through them. Pins play no part.
#![tactic(auto)]

ghost use Rattle.std.specs.Prelude.{◌≡◌};
ghost use Rattle.base.specs.Refusal.{judge, accepted};
ghost use Rattle.input.specs.Input.{input_tests};
ghost use Rattle.input.specs.Inputs.{input_of};
ghost use Rattle.measuring.specs.Measuring.{measured_error};

use base::MAX_INKS;
use error::Scene;
use input::Input;

// The error of an accepted input, with room of its own for the ink values and both blurs.
pub fn perceived_error(given: Input<'_>) -> f64
    requires { judge (input_tests (input_of given)) ≡ accepted }
    ensures { result ≡ measured_error (input_of given.entry) }
{
    let mut inks = [0.0f64; 3 * MAX_INKS];
    let mut lum = [0.0f64; 1089];
    let mut chroma = [0.0f64; 1089];
    let inks = &mut inks[..given.palette.len()];
    color::palette_to_inks(given.palette, inks);
    let scene = Scene {
        width: given.width as usize,
        height: given.height as usize,
        pixels: given.pixels,
        indices: given.indices,
        pinned: &[],
        inks,
    };
    let widths = given.params.widths();
    let lum = blur::gaussian_blur(widths.lum, &mut lum);
    let chroma = blur::gaussian_blur(widths.chroma, &mut chroma);
    measure::perceived(scene, lum, chroma)
}
