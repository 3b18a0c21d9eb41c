// What a line of compare/replay.txt gives to a run, and the buffers that runs are lent. In a line, numbers from 0 count its
// words.
#![tactic(auto)]

ghost use Rattle.std.specs.Prelude.{◌≡◌, ◌≤◌, length, replicate};
ghost use Rattle.std.specs.Float.Ieee.{neg};
ghost use Rattle.base.specs.F64.{f1};

use base::Index;
use lines::Line;

// Room for so many bytes of each kind.
pub const ROOM: usize = 16384;

// What a line gives to a run.
#[derive(Clone, Copy)]
pub struct Given<'a> {
    pub width: u64,
    pub height: u64,
    pub max_passes: u64,
    pub ppi: f64,
    pub viewing_distance_cm: f64,
    pub pixels: &'a [u8],
    pub palette: &'a [u8],
    pub pinned: &'a [u8],
    pub indices: &'a [Index],
}

// Where the bytes lie that a line gives. The pin mask and the indices lie side by side, the mask first: a `work` line may lend more
// bytes than the mask has room for, and they go on into the indices.
#[derive(Drop)]
pub struct Store {
    pub pixels: [u8; ROOM],
    pub palette: [u8; ROOM],
    pub pinned_and_indices: [u8; 2 * ROOM],
}

impl Store {
    // Each cell is set.
    pub fn new() -> Store
        ensures colours { (result.pixels ≡ replicate 16384 255) × (result.palette ≡ replicate 16384 255) }
        ensures others { result.pinned_and_indices ≡ replicate 32768 255 }
    {
        Store {
            pixels: [255; ROOM],
            palette: [255; ROOM],
            pinned_and_indices: [255; 2 * ROOM],
        }
    }

    // Each cell is set again.
    pub fn clear(&mut self)
        ensures colours { (self.new.pixels ≡ replicate (length self.old.pixels) 255) × (self.new.palette ≡ replicate (length self.old.palette) 255) }
        ensures others { self.new.pinned_and_indices ≡ replicate (length self.old.pinned_and_indices) 255 }
    {
        self.pixels.fill(255);
        self.palette.fill(255);
        self.pinned_and_indices.fill(255);
    }

    // Reads what a line gives, words 1 to 9.
    pub fn read<'a>(&'a mut self, line: Line<'_>) -> Given<'a>
        ensures images { (length result.pixels.now ≤ 16384) × (length result.indices.now ≤ 16384) }
        ensures others { (length result.palette.now ≤ 16384) × (length result.pinned.now ≤ 16384) }
    {
        let Store {
            pixels,
            palette,
            pinned_and_indices,
        } = self;
        let (pinned, indices) = pinned_and_indices.split_at_mut(ROOM);
        Given {
            width: line.number(1),
            height: line.number(2),
            max_passes: line.number(3),
            ppi: line.float(4),
            viewing_distance_cm: line.float(5),
            pixels: line.bytes(6, pixels),
            palette: line.bytes(7, palette),
            pinned: line.bytes(8, pinned),
            indices: line.bytes(9, indices),
        }
    }
}

// The buffers that a run is lent. They lie where its caller made them: a value with the cells in it would be copied each time it is
// handed on.
#[derive(Drop)]
pub struct Lent<'a> {
    pub store: &'a mut Store,
    pub cpe: &'a mut [f64],
    pub cpp: &'a mut [f64; 8500],
    pub counts: &'a mut [u32; 1024],
    pub inks: &'a mut [f64; 1024],
}

impl<'a> Lent<'a> {
    // Each cell is set.
    pub fn new(
        store: &'a mut Store,
        cpe: &'a mut [f64],
        cpp: &'a mut [f64; 8500],
        counts: &'a mut [u32; 1024],
        inks: &'a mut [f64; 1024],
    ) -> Lent<'a>
        ensures floats { (result.cpe.now ≡ replicate (length cpe.old) (neg f1)) × (result.cpp.now ≡ replicate (length cpp.old) (neg f1)) × (result.inks.now ≡ replicate (length inks.old) (neg f1)) }
        ensures others { (result.counts.now ≡ replicate (length counts.old) 4294967295) × (result.store.now.pinned_and_indices ≡ replicate (length store.old.pinned_and_indices) 255) }
    {
        let mut buffers = Lent {
            store,
            cpe,
            cpp,
            counts,
            inks,
        };
        buffers.clear();
        buffers
    }

    // Each cell is set again.
    pub fn clear(&mut self)
        ensures floats { (self.new.cpe.now ≡ replicate (length self.old.cpe.now) (neg f1)) × (self.new.cpp.now ≡ replicate (length self.old.cpp.now) (neg f1)) × (self.new.inks.now ≡ replicate (length self.old.inks.now) (neg f1)) }
        ensures others { (self.new.counts.now ≡ replicate (length self.old.counts.now) 4294967295) × (self.new.store.now.pinned_and_indices ≡ replicate (length self.old.store.now.pinned_and_indices) 255) }
    {
        self.store.clear();
        self.cpe.fill(-1.0);
        self.cpp.fill(-1.0);
        self.counts.fill(4294967295);
        self.inks.fill(-1.0);
    }
}

// The buffers of a job.
#[derive(Drop)]
pub struct Job<'a> {
    pub lent: Lent<'a>,
    pub states: &'a mut [u8; 64],
    pub deltas: &'a mut [f64; 64],
    pub record: &'a mut [u64; 16],
    pub copy_cpe: &'a mut [f64; 3072],
    pub copy_indices: &'a mut [Index; 1024],
}

impl<'a> Job<'a> {
    // Each cell is set.
    pub fn new(
        lent: Lent<'a>,
        states: &'a mut [u8; 64],
        deltas: &'a mut [f64; 64],
        record: &'a mut [u64; 16],
        copy_cpe: &'a mut [f64; 3072],
        copy_indices: &'a mut [Index; 1024],
    ) -> Job<'a>
        ensures lent { (result.lent.cpe.now ≡ replicate (length lent.entry.cpe.now) (neg f1)) × (result.lent.counts.now ≡ replicate (length lent.entry.counts.now) 4294967295) × (result.lent.store.now.pinned_and_indices ≡ replicate (length lent.entry.store.now.pinned_and_indices) 255) }
        ensures job { (result.states.now ≡ replicate (length states.old) 255) × (result.deltas.now ≡ replicate (length deltas.old) (neg f1)) × (result.«record».now ≡ replicate (length «record».old) 18446744073709551615) }
        ensures copies { (result.copy_cpe.now ≡ replicate (length copy_cpe.old) (neg f1)) × (result.copy_indices.now ≡ replicate (length copy_indices.old) 255) }
    {
        let mut job = Job {
            lent,
            states,
            deltas,
            record,
            copy_cpe,
            copy_indices,
        };
        job.clear();
        job
    }

    // Each cell is set again.
    pub fn clear(&mut self)
        ensures lent { (self.new.lent.cpe.now ≡ replicate (length self.old.lent.cpe.now) (neg f1)) × (self.new.lent.counts.now ≡ replicate (length self.old.lent.counts.now) 4294967295) × (self.new.lent.store.now.pinned_and_indices ≡ replicate (length self.old.lent.store.now.pinned_and_indices) 255) }
        ensures job { (self.new.states.now ≡ replicate (length self.old.states.now) 255) × (self.new.deltas.now ≡ replicate (length self.old.deltas.now) (neg f1)) × (self.new.«record».now ≡ replicate (length self.old.«record».now) 18446744073709551615) }
        ensures copies { (self.new.copy_cpe.now ≡ replicate (length self.old.copy_cpe.now) (neg f1)) × (self.new.copy_indices.now ≡ replicate (length self.old.copy_indices.now) 255) }
    {
        self.lent.clear();
        self.states.fill(255);
        self.deltas.fill(-1.0);
        self.record.fill(0xffff_ffff_ffff_ffff);
        self.copy_cpe.fill(-1.0);
        self.copy_indices.fill(255);
    }
}
