// The lines of compare/replay.txt: words separated by one space, numbers, floats by their bits, bytes of two
// digits, each with how often it comes if that is more than once; parts of buffers, as long as a word says; and how
// floats and bytes are written at the end of a text.
#![tactic(auto)]

ghost use Rattle.std.specs.Prelude.{◌≡◌, ◌<◌, ◌≤◌, length, take, IfSome};

use std::fmt;

// A line; numbers from 0 count its words.
#[derive(Clone, Copy)]
pub struct Line<'a> {
    pub text: &'a [u8],
}

impl<'a> Line<'a> {
    pub fn new(text: &'a [u8]) -> Line<'a>
        ensures { result.text.now ≡ text.now }
    {
        Line { text }
    }

    // The line from word k on, nothing where it has fewer words.
    fn from_word(self, k: usize) -> &'a [u8] {
        self.text
            .splitn(k.saturating_add(1), |b| *b == b' ')
            .nth(k)
            .unwrap_or(&[])
    }

    // Word k as a number in base 10.
    // Kept: `number` and `bits` are a line each and differ in the base: one with a base as parameter would be called with 10 at each place.
    pub fn number(self, k: usize) -> u64 {
        number(self.from_word(k), 10)
    }

    // Word k as a number in base 16: a word of a record, or the bits of a float.
    pub fn bits(self, k: usize) -> u64 {
        number(self.from_word(k), 16)
    }

    pub fn float(self, k: usize) -> f64 {
        bits::to_float(self.bits(k))
    }

    // Reads the bytes of word k into the buffer, as far as it holds them, and lends them.
    pub fn bytes<'b>(self, k: usize, buffer: &'b mut [u8]) -> &'b mut [u8]
        ensures { length result.now ≤ length buffer.old }
    {
        let bytes = Bytes::new(self.from_word(k));
        for (cell, byte) in buffer.iter_mut().zip(bytes) {
            *cell = byte;
        }
        let n = bytes.take(buffer.len()).count();
        &mut buffer[..n]
    }
}

// The first n cells of a buffer, as far as it goes.
pub fn part<T>(buffer: &[T], n: u64) -> &[T]
    ensures { result.now ≡ take n buffer.now }
{
    &buffer[..buffer.len().min(n as usize)]
}

pub fn part_mut<T>(buffer: &mut [T], n: u64) -> &mut [T]
    ensures { result.now ≡ take n buffer.old }
{
    let length = buffer.len().min(n as usize);
    &mut buffer[..length]
}

// What a digit stands for; a letter is a digit in base 10 too, and a capital is none.
fn digit(b: u8) -> Option<u32>
    ensures { IfSome result (λ d. d < 16) }
{
    char::from(b)
        .to_digit(16)
        .filter(|_| !b.is_ascii_uppercase())
}

// The number at the head of a text, up to the first byte that is no digit; it wraps.
fn number(text: &[u8], base: u64) -> u64 {
    text.iter().map_while(|b| digit(*b)).fold(
        0u64,
        |n, d| n.wrapping_mul(base).wrapping_add(u64::from(d)),
    )
}

// The bytes at the head of a text: the last one, how often it is still to come, and what follows.
#[derive(Clone, Copy)]
struct Bytes<'a> {
    byte: u8,
    left: u64,
    rest: &'a [u8],
}

impl<'a> Bytes<'a> {
    fn new(text: &'a [u8]) -> Bytes<'a> {
        Bytes {
            byte: 0,
            left: 0,
            rest: text,
        }
    }

    // The next byte of two digits; x, a number and a comma after it say how often it comes.
    fn run(text: &'a [u8]) -> Option<Bytes<'a>> {
        let (high, others) = text.split_first()?;
        let high = digit(*high)?;
        let low = others.first().and_then(|b| digit(*b)).unwrap_or(0);
        let byte = (16 * high + low) as u8;
        let (left, rest) = match others {
            [_, b'x', times @ ..] => (number(times, 10).saturating_sub(1), past_comma(times)),
            [_, rest @ ..] => (0, rest),
            [] => (0, others),
        };
        Some(Bytes { byte, left, rest })
    }
}

impl Iterator for Bytes<'_> {
    type Item = u8;

    fn next(&mut self) -> Option<u8> {
        match self.left.checked_sub(1) {
            Some(left) => self.left = left,
            None => *self = Bytes::run(self.rest)?,
        }
        Some(self.byte)
    }
}

// What follows the first comma.
fn past_comma(text: &[u8]) -> &[u8] {
    text.splitn(2, |b| *b == b',').nth(1).unwrap_or(&[])
}

// A float, written as its bits.
#[derive(Clone, Copy)]
pub struct Bits(pub f64);

impl fmt::Display for Bits {
    fn fmt<W: fmt::Write>(&self, f: &mut fmt::Formatter<W>) -> fmt::Result {
        let pattern = bits::of_float(self.0);
        write!(f, "{pattern:016x}")
    }
}

// Bytes, each written as two digits, but 16 or more that are equal as one and how often it comes.
#[derive(Clone, Copy)]
pub struct Runs<'a>(pub &'a [u8]);

impl fmt::Display for Runs<'_> {
    fn fmt<W: fmt::Write>(&self, f: &mut fmt::Formatter<W>) -> fmt::Result {
        if self.0.is_empty() {
            return write!(f, "-");
        }
        for run in self.0.chunk_by(|a, b| a == b) {
            write_run(run, f)?;
        }
        Ok(())
    }
}

fn write_run<W: fmt::Write>(run: &[u8], f: &mut fmt::Formatter<W>) -> fmt::Result {
    match run {
        [b, ..] if run.len() >= 16 => {
            let n = run.len();
            write!(f, "{b:02x}x{n},")
        }
        _ => {
            for b in run {
                write!(f, "{b:02x}")?;
            }
            Ok(())
        }
    }
}
