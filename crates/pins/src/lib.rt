// The pin mask: `is_pinned` of dbs.rs. A mask has no bytes, and pins nothing, or a byte for each
// pixel, nonzero meaning pinned.
#![tactic(auto)]

ghost use Rattle.std.specs.Prelude.{◌≡◌, ◌<◌, length};
ghost use Rattle.pins.specs.Pins.{MaskFits, byte_pins, pinned_at};

// Document 01's struct that refers to the mask: its bytes, and the image's width.
#[derive(Clone, Copy)]
pub struct Pins<'a> {
    pub pinned: &'a [u8],
    pub width: usize,
}

impl<'a> Pins<'a> {
    // Whether the pixel whose byte stands at place i is pinned.
    pub fn is_pinned_at(self, i: usize) -> bool
        requires { 0 < length self.pinned.now → i < length self.pinned.now }
        ensures { result ≡ byte_pins self.entry.pinned.now i }
    {
        !self.pinned.is_empty() && self.pinned[i] != 0
    }

    // Whether pixel (x, y) is pinned.
    #[tactic(auto, unfolding(crate::specs::Pins::pinned_at))]
    pub fn is_pinned(self, x: usize, y: usize) -> bool
        requires { MaskFits self.pinned.now self.width x y }
        ensures { result ≡ pinned_at self.entry.pinned.now self.entry.width x y }
    {
        self.is_pinned_at(y * self.width + x)
    }
}
