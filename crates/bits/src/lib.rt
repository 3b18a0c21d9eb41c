// Floats as bits. A NaN has many patterns and is one value: each of them is read as it, and it is written as
// 7ff8000000000000: no sign, all of the exponent, and of the fraction the highest digit only.
#![tactic(auto)]

ghost use Rattle.std.specs.Prelude.{◌≡◌};
ghost use Rattle.std.specs.Float.{binary64};
ghost use Rattle.std.specs.Float.Ieee.{of_bits, to_bits, nan_bits};

const SIGN: u64 = 0x8000_0000_0000_0000;

const INFINITY: u64 = 0x7ff0_0000_0000_0000;

const NAN: u64 = 0x7ff8_0000_0000_0000;

// Whether these are the bits of a NaN.
// Kept: `from_bits` takes no bits of a NaN, and `to_bits` no NaN, so that the three stand between them and document 01's one NaN.
pub fn is_nan(bits: u64) -> bool
    ensures { result ≡ nan_bits binary64 bits }
{
    bits % SIGN > INFINITY
}

// The float of these bits.
pub fn to_float(bits: u64) -> f64
    ensures { result ≡ of_bits binary64 bits }
{
    if is_nan(bits) {
        return f64::NAN;
    }
    f64::from_bits(bits)
}

// The bits of a float.
pub fn of_float(x: f64) -> u64
    ensures { result ≡ to_bits binary64 x }
{
    if x.is_nan() { NAN } else { x.to_bits() }
}
