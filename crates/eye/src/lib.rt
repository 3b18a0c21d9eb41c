// The eye model of dbs.rs: blur widths in pixels, blur radii, and the tests of a
// viewing geometry. Every function is defined on every f64, NaN and infinities included, unless its
// `requires` says otherwise.
#![tactic(auto)]

ghost use Rattle.std.specs.Prelude.{◌≡◌, ◌≤◌};
ghost use Rattle.base.specs.Refusal.{judge, accepted};
ghost use Rattle.base.specs.Answer.{status_of, Tested};
ghost use Rattle.eye.specs.Constants.{alpha_lum, alpha_chroma};
ghost use Rattle.eye.specs.Eye.{sigma_px, is_finite_positive, Narrow, blur_radius, eye_tests, eye_of};

use base::{Refusal, refuse_if};
use std::f64::consts::PI;
use std::num::saturating_f64_to_usize;

// Kolpatzik & Bouman (1992) exponential CSF decay constants, W(f) ∝ exp(-α·f), f in cycles/degree.
// Luminance: Näsänen's α(L) = 1 / (0.525·ln L + 3.91) at L = 11 cd/m² ≈ 0.193.
// Chrominance: fitted to Mullen (1985), α = 0.419 for both opponent channels.
pub const ALPHA_LUM: f64 = 0.193;

pub const ALPHA_CHROMA: f64 = 0.419;

// Blur truncation in standard deviations.
pub const BLUR_TRUNCATION_SIGMAS: f64 = 2.5;

// The limits of refusal 9: the least luminance sigma, and the largest truncation in pixels.
const SIGMA_MIN: f64 = 0.05;

const TRUNCATION_MAX: f64 = 16.0;

const CM_PER_INCH: f64 = 2.54;

// Document 01's eye record: the viewing geometry.
#[derive(Clone, Copy)]
pub struct DbsParams {
    // Distance between viewer and panel, in centimetres.
    pub viewing_distance_cm: f64,
    // Panel pixel density, in pixels per inch.
    pub ppi: f64,
}

// A blur width in pixels whose blur reaches at most 16 pixels.
#[derive(Clone, Copy)]
pub struct Width {
    pub sigma: f64,
    pub ghost narrow: { Narrow sigma },
}

// Both blur widths of an eye.
#[derive(Clone, Copy)]
pub struct Widths {
    pub lum: Width,
    pub chroma: Width,
}

// What `validate` finds: the radii of both autocorrelation kernels.
#[derive(Clone, Copy, PartialEq, Eq)]
pub struct Eye {
    pub lum_radius: usize,
    pub chroma_radius: usize,
}

// Eye-model blur width in pixels for a CSF decay constant at the given viewing geometry.
pub fn eye_sigma_px(alpha: f64, params: DbsParams) -> f64
    ensures { result ≡ sigma_px alpha params }
{
    let pixel_deg = (CM_PER_INCH / params.ppi / params.viewing_distance_cm).to_degrees();
    alpha / (2.0 * PI) / pixel_deg
}

impl Width {
    // The larger of 1 and the least whole number not below 2.5 sigma: document 01's reach.
    pub fn radius(self) -> usize
        ensures value { result ≡ blur_radius self.sigma }
        ensures upper_bound { result ≤ 16 }
    {
        let t = BLUR_TRUNCATION_SIGMAS * self.sigma;
        saturating_f64_to_usize(t.ceil()).max(1)
    }
}

// Finite and above 0.
fn is_finite_positive(x: f64) -> bool
    ensures { result ≡ is_finite_positive x }
{
    x.is_finite() && 0.0 < x
}

// Refusals 7, 8 and 9 in order.
#[tactic(auto, unfolding(crate::specs::Eye::eye_tests, base::specs::Refusal::judge))]
fn check(p: DbsParams) -> Result<(), Refusal>
    ensures { status_of result ≡ judge (eye_tests p) }
{
    let lum = eye_sigma_px(ALPHA_LUM, p);
    let chroma = eye_sigma_px(ALPHA_CHROMA, p);
    refuse_if(!is_finite_positive(p.ppi), Refusal::Ppi)?;
    refuse_if(
        !is_finite_positive(p.viewing_distance_cm),
        Refusal::Distance,
    )?;
    refuse_if(lum < SIGMA_MIN, Refusal::LuminanceTooNarrow)?;
    refuse_if(
        BLUR_TRUNCATION_SIGMAS * chroma > TRUNCATION_MAX,
        Refusal::ChrominanceTooWide,
    )
}

impl DbsParams {
    // Both blur widths of an accepted eye.
    pub fn widths(self) -> Widths
        requires { judge (eye_tests self) ≡ accepted }
        ensures lum { result.lum.sigma ≡ sigma_px alpha_lum self }
        ensures chroma { result.chroma.sigma ≡ sigma_px alpha_chroma self }
    {
        let lum = Width {
            sigma: eye_sigma_px(ALPHA_LUM, self),
        };
        let chroma = Width {
            sigma: eye_sigma_px(ALPHA_CHROMA, self),
        };
        Widths { lum, chroma }
    }

    // Refusals 7, 8 and 9 in order, and both kernel radii where none applies.
    pub fn validate(self) -> Result<Eye, Refusal>
        ensures { Tested result (eye_tests self) (eye_of self) }
    {
        check(self)?;
        let widths = self.widths();
        Ok(Eye {
            lum_radius: 2 * widths.lum.radius(),
            chroma_radius: 2 * widths.chroma.radius(),
        })
    }
}
