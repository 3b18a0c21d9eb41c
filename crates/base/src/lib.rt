// What the other crates stand on. The definitions are in specs/, their laws in proofs/: loops as
// folds over a counter, windows of an image as flat lists, refusals as an ordered list of tests,
// and f64 arithmetic under short names. Limits stand here once, in code and in specs/Limits.antt.
#![tactic(auto)]

ghost use Rattle.std.specs.Prelude.{◌≡◌, ◌+◌, ◌^◌, ◌<◌, ◌≤◌, true, false, IfOk, IfErr};
ghost use Rattle.base.specs.Grid.{area, with_margin};
ghost use Rattle.base.specs.Grid as grid;
ghost use Rattle.base.specs.Limits.{max_side};
ghost use Rattle.base.specs.Answer.{number_of, number_and_place, status_of};

use std::fmt;

// Inclusive-exclusive rectangle [x0, x1) x [y0, y1) in image coordinates.
#[derive(Clone, Copy)]
pub struct Rect {
    pub x0: usize,
    pub y0: usize,
    pub x1: usize,
    pub y1: usize,
}

impl Rect {
    // `with_margin` of dbs.rs: widened by m, cut at an image of so many columns and rows.
    pub fn with_margin(self, m: usize, width: usize, height: usize) -> Rect
        requires { (self.x1 + m < 2 ^ 64) × (self.y1 + m < 2 ^ 64) }
        ensures { result ≡ with_margin m width height self }
    {
        Rect {
            x0: self.x0.saturating_sub(m),
            y0: self.y0.saturating_sub(m),
            x1: width.min(self.x1 + m),
            y1: height.min(self.y1 + m),
        }
    }

    // Its pixels.
    #[tactic(auto, using(crate::proofs::Bounds::image_product), unfolding(crate::specs::Grid::area, crate::specs::Grid::width, crate::specs::Grid::height))]
    pub fn area(self) -> usize
        requires columns { (self.x0 ≤ self.x1) × (self.x1 ≤ max_side) }
        requires lines { (self.y0 ≤ self.y1) × (self.y1 ≤ max_side) }
        ensures { result ≡ area self }
    {
        (self.y1 - self.y0) * (self.x1 - self.x0)
    }
}

// The number of an ink, as a halftone holds it: document 01's 'Plane: one u8 index per dot'.
pub type Index = u8;

// The sides of an image, the inks of a palette, the passes of a run: document 01's limits.
pub const MAX_SIDE: usize = 4096;

pub const MAX_INKS: usize = 256;

pub const MAX_PASSES: usize = 1000;

// The kernel store `cpp`: the luminance kernel stands from 0, the chrominance kernel from here, each
// with room for 65 x 65 values.
pub const CPP_CHROMA: usize = 4225;

pub const CPP_LEN: usize = 8450;

// A call's answer: 0, 0 means accepted, any other number is a refusal with its place.
// Kept: C reads these two numbers; in the library an answer is a `Result`, of which this is made.
#[repr(C)]
#[derive(Clone, Copy, PartialEq, Eq)]
pub struct Status {
    pub number: u64,
    pub place: u64,
}

// Its number and its place.
impl fmt::Display for Status {
    fn fmt<W: fmt::Write>(&self, f: &mut fmt::Formatter<W>) -> fmt::Result {
        let Status { number, place } = *self;
        write!(f, "{number} {place}")
    }
}

// The buffers lent to a call whose lengths are tested, with their numbers, from 1 on.
#[derive(Clone, Copy, PartialEq, Eq)]
pub enum Buffer {
    Cpe = 1,
    Cpp,
    AcceptedPerPass,
    TileStates,
    Deltas,
    CopyCpe,
    CopyIndices,
    Inks,
}

// Why a call is refused: a row of document 01's table of refusals, with its place where it has one.
#[derive(Clone, Copy, PartialEq, Eq)]
pub enum Refusal {
    Size,
    Pixels,
    Indices,
    Mask,
    Palette,
    Index(u64),
    Ppi,
    Distance,
    LuminanceTooNarrow,
    ChrominanceTooWide,
    Passes,
    Length(Buffer),
    Record,
    NotDue,
    State,
    Missing(u64),
    Finished,
    MaskByte(u64),
}

impl From<Refusal> for Status {
    ghost from_gives = { λ r s. s ≡ number_and_place r };

    fn from(r: Refusal) -> Status {
        let (number, place) = match r {
            Refusal::Size => (1, 0),
            Refusal::Pixels => (2, 0),
            Refusal::Indices => (3, 0),
            Refusal::Mask => (4, 0),
            Refusal::Palette => (5, 0),
            Refusal::Index(place) => (6, place),
            Refusal::Ppi => (7, 0),
            Refusal::Distance => (8, 0),
            Refusal::LuminanceTooNarrow => (9, 0),
            Refusal::ChrominanceTooWide => (9, 1),
            Refusal::Passes => (10, 0),
            Refusal::Length(buffer) => (11, u64::from(buffer)),
            Refusal::Record => (12, 0),
            Refusal::NotDue => (13, 0),
            Refusal::State => (14, 0),
            Refusal::Missing(tile) => (15, tile),
            Refusal::Finished => (16, 0),
            Refusal::MaskByte(place) => (17, place),
        };
        Status { number, place }
    }
}

impl From<Buffer> for u64 {
    ghost from_gives = { λ b n. n ≡ number_of b };

    fn from(b: Buffer) -> u64 {
        b as u64
    }
}

impl From<Result<(), Refusal>> for Status {
    ghost from_gives = { λ r s. s ≡ status_of r };

    fn from(r: Result<(), Refusal>) -> Status {
        match r {
            Ok(()) => Status {
                number: 0,
                place: 0,
            },
            Err(refusal) => Status::from(refusal),
        }
    }
}

// A test: it refuses where it fails.
pub fn refuse_if(fails: bool, refusal: Refusal) -> Result<(), Refusal>
    ensures passes { IfOk result (λ _. fails ≡ false) }
    ensures fails { IfErr result (λ e. (fails ≡ true) × (e ≡ refusal)) }
{
    if fails { Err(refusal) } else { Ok(()) }
}

// Where the values of pixel (x, y) begin in the list of w, k values a pixel; x may be one past a row's end.
// Kept: the limit of the sides in a clause, as in `area`: a type of rectangles within it would be made of a `Rect` at each call, and the
// other clauses would stay: no plainer.
pub fn place(k: usize, w: Rect, x: usize, y: usize) -> usize
    requires k_bound { k ≤ 3 }
    requires x0_le_x { (w.x0 ≤ x) × (x ≤ w.x1) }
    requires y0_le_y { (w.y0 ≤ y) × (y < w.y1) }
    requires x1_le_max_side { (w.x1 ≤ max_side) × (w.y1 ≤ max_side) }
    ensures { result ≡ grid.place k w x y 0 }
{
    k * ((y - w.y0) * (w.x1 - w.x0) + (x - w.x0))
}
