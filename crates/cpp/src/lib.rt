// The kernel store `cpp`: both autocorrelation kernels in one slice of 8,450 values, the luminance
// kernel from 0 on and the chrominance kernel from 4,225 on. `Kernel2D` and its `at` of dbs.rs.
#![tactic(auto)]

ghost use Rattle.std.specs.Prelude.{◌≡◌, ◌<◌, ◌≤◌};
ghost use Rattle.base.specs.Limits.{max_radius, cpp_chroma};
ghost use Rattle.cpp.specs.Kernel.{KernelFits, size, kernel_place, kernel_at, values_of, lum_kernel, chroma_kernel};

use base::CPP_CHROMA;
use tiling::Tiling;

// A kernel in the store: where its first value stands, and its radius. Its values stand row by
// row, 2 radius + 1 a row.
#[derive(Clone, Copy)]
pub struct Kernel2D {
    pub from: usize,
    pub radius: usize,
}

impl Kernel2D {
    // Its columns, and its rows.
    // Kept: `kernel_side` of blur is this sum: for `2 * radius + 1` this crate would name `blur`, and with it the eye model, and be no plainer.
    // Kept: the radius's limit in a clause, here, in `place` and in sweep: `lum_kernel` and `chroma_kernel`, which take any tiling, would ask
    // for it where they make a kernel.
    pub fn size(self) -> usize
        requires { self.radius ≤ max_radius }
        ensures { result ≡ size self }
    {
        2 * self.radius + 1
    }

    // Where the value in column i and row j stands in the store; i may be one past a row's end.
    #[tactic(auto, using(crate::proofs::Laws::kernel_le))]
    pub fn place(self, i: usize, j: usize) -> usize
        requires radius_le_max_radius { (self.radius ≤ max_radius) × (self.from ≤ cpp_chroma) }
        requires i_bound { (i ≤ size self) × (j < size self) }
        ensures { result ≡ kernel_place self i j }
    {
        self.from + (j * self.size() + i)
    }
}

// A kernel with the store that it stands in.
#[derive(Clone, Copy)]
pub struct Stored<'a> {
    pub cpp: &'a [f64],
    pub kernel: Kernel2D,
    pub ghost fits: { KernelFits kernel cpp.now },
}

impl<'a> Stored<'a> {
    // The value in column i and row j.
    #[tactic(auto, using(crate::proofs::Laws::kernel_lt), unfolding(crate::specs::Kernel::kernel_at))]
    pub fn at(self, i: usize, j: usize) -> f64
        requires { (i < size self.kernel) × (j < size self.kernel) }
        ensures { result ≡ kernel_at self.entry.cpp.now self.entry.kernel i j }
    {
        self.cpp[self.kernel.place(i, j)]
    }

    // The value at its centre.
    pub fn centre(self) -> f64
        ensures { result ≡ kernel_at self.entry.cpp.now self.entry.kernel self.entry.kernel.radius self.entry.kernel.radius }
    {
        self.at(self.kernel.radius, self.kernel.radius)
    }

    // Its values, row by row.
    #[tactic(auto, using(crate::proofs::Laws::square_le))]
    pub fn values(self) -> &'a [f64]
        ensures { result.now ≡ values_of self.entry.cpp.now self.entry.kernel }
    {
        let from = self.kernel.from;
        let size = self.kernel.size();
        &self.cpp[from..from + size * size]
    }
}

// Kept: sweep tells the two apart by `Channels`, field by `Channel`, and tables takes both: one function by either would want the other
// turned into it by as long a match, and is no plainer.
pub fn lum_kernel(t: Tiling) -> Kernel2D
    ensures { result ≡ lum_kernel t }
{
    Kernel2D {
        from: 0,
        radius: t.lum,
    }
}

pub fn chroma_kernel(t: Tiling) -> Kernel2D
    ensures { result ≡ chroma_kernel t }
{
    Kernel2D {
        from: CPP_CHROMA,
        radius: t.chroma,
    }
}
