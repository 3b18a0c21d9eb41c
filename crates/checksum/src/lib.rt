// Checksums of lent buffers, for the programs that are held to the copy of the Rust.
#![tactic(auto)]

ghost use Rattle.std.specs.Prelude.{◌≡◌, ℕ, ◌<◌, fold};
ghost use Rattle.std.specs.Float.{binary64};
ghost use Rattle.std.specs.Float.Ieee.{to_bits};
ghost use Rattle.checksum.specs.Mixed.{mixed, mixed_word};

use std::fmt;
use std::marker::Model;

const MODULUS: u64 = 4294967291;

// A checksum of what was mixed into it, in order; a clause sees the number.
#[derive(Clone, Copy)]
pub struct Checksum {
    value: u64,
}

impl Model for Checksum {
    ghost Value = { ℕ };

    ghost view = { λ c. c.value };

    ghost invariant = { λ c. c.value < 4294967291 };

    ghost inverse = { λ n. record { value = n } };
}

impl Checksum {
    // The checksum of values.
    pub fn of<T: Mix>(values: &[T]) -> Checksum
        ensures { result ≡ fold T.mixed_item 0 values.now }
    {
        Checksum { value: 0 }.with(values)
    }

    // The checksum, carried on over values.
    pub fn with<T: Mix>(self, values: &[T]) -> Checksum
        ensures { result ≡ fold T.mixed_item self values.now }
    {
        values.iter().fold(self, |sum, x| x.mix_into(sum))
    }

    // One step of the checksum.
    pub fn mix(self, half: u32) -> Checksum
        ensures { result ≡ mixed self half }
    {
        Checksum {
            value: (31 * self.value + u64::from(half)) % MODULUS,
        }
    }
}

// Its number, as eight digits of base 16.
impl fmt::Display for Checksum {
    fn fmt<W: fmt::Write>(&self, f: &mut fmt::Formatter<W>) -> fmt::Result {
        let value = self.value;
        write!(f, "{value:08x}")
    }
}

// What an item of a buffer adds to a checksum.
pub trait Mix {
    ghost mixed_item: { ℕ → Self → ℕ };

    fn mix_into(&self, sum: Checksum) -> Checksum
        ensures { result ≡ mixed_item sum self.now };
}

// First the high and then the low 32 bits.
impl Mix for u64 {
    ghost mixed_item = { mixed_word };

    fn mix_into(&self, sum: Checksum) -> Checksum {
        let word = *self;
        sum.mix((word / 4294967296) as u32)
            .mix((word % 4294967296) as u32)
    }
}

// A float as its bits.
impl Mix for f64 {
    ghost mixed_item = { λ sum x. mixed_word sum (to_bits binary64 x) };

    fn mix_into(&self, sum: Checksum) -> Checksum {
        bits::of_float(*self).mix_into(sum)
    }
}

impl Mix for u32 {
    ghost mixed_item = { mixed };

    fn mix_into(&self, sum: Checksum) -> Checksum {
        sum.mix(*self)
    }
}

impl Mix for u8 {
    ghost mixed_item = { mixed };

    fn mix_into(&self, sum: Checksum) -> Checksum {
        sum.mix(u32::from(*self))
    }
}
