// Computes both kernels of each eye of compare/eyes.txt and writes a line for it, to be held to the
// copy of the Rust: the bits of ppi and of the viewing distance, then the kernel radii and a
// checksum of all kernel values, or the number and the place of the refusal.
#![tactic(auto)]

ghost use Rattle.eye.specs.Eye.{KernelRadius};

use base::{CPP_CHROMA, CPP_LEN, Status};
use checksum::Checksum;
use eye::{DbsParams, Eye};
use std::io::{self, Print};

// The bits of ppi and of viewing_distance_cm of each eye.
const EYES: [(u64, u64); 63] = [
    (0x405fc00000000000, 0x4044000000000000),
    (0x4037b06a1d2e6cc3, 0x4024000000000000),
    (0x4037b06a1d2e6cc4, 0x4024000000000000),
    (0x4037b06a1d2e6cc5, 0x4024000000000000),
    (0x4095d2c99f77240c, 0x4024000000000000),
    (0x4095d2c99f77240d, 0x4024000000000000),
    (0x4095d2c99f77240e, 0x4024000000000000),
    (0x405f95e2d1933bb0, 0x402e000000000000),
    (0x405f95e2d1933bb1, 0x402e000000000000),
    (0x4067b06a1d2e6cc4, 0x4034000000000000),
    (0x4067b06a1d2e6cc5, 0x4034000000000000),
    (0x406c6d4c23048286, 0x4039000000000000),
    (0x406c6d4c23048287, 0x4039000000000000),
    (0x406f95e2d1933bb0, 0x403e000000000000),
    (0x406f95e2d1933bb1, 0x403e000000000000),
    (0x4070ebb9828edff9, 0x4041800000000000),
    (0x4070ebb9828edffa, 0x4041800000000000),
    (0x4071c44f95e2d193, 0x4044000000000000),
    (0x4071c44f95e2d194, 0x4044000000000000),
    (0x4072063a7a608a68, 0x4047000000000000),
    (0x4072063a7a608a69, 0x4047000000000000),
    (0x404d190cd49edabc, 0x402e000000000000),
    (0x404d190cd49edabd, 0x402e000000000000),
    (0x4055d2c99f77240d, 0x4034000000000000),
    (0x4055d2c99f77240e, 0x4034000000000000),
    (0x405a302525c22b42, 0x4039000000000000),
    (0x405a302525c22b43, 0x4039000000000000),
    (0x405d190cd49edabc, 0x403e000000000000),
    (0x405d190cd49edabd, 0x403e000000000000),
    (0x405f2d2008610eef, 0x4041800000000000),
    (0x405f2d2008610ef0, 0x4041800000000000),
    (0x405f2d2008610eed, 0x4045000000000000),
    (0x405f2d2008610eee, 0x4045000000000000),
    (0x40609ad10f97de36, 0x4047000000000000),
    (0x40609ad10f97de37, 0x4047000000000000),
    (0x4061756e192c1cd7, 0x4049000000000000),
    (0x4061756e192c1cd8, 0x4049000000000000),
    (0x4061db020e1ba922, 0x404b800000000000),
    (0x4061db020e1ba923, 0x404b800000000000),
    (0x40622fa804e348b5, 0x404e000000000000),
    (0x40622fa804e348b6, 0x404e000000000000),
    (0x40627748247880f6, 0x4050400000000000),
    (0x40627748247880f7, 0x4050400000000000),
    (0x4062b4acd1d3d5c1, 0x4051800000000000),
    (0x4062b4acd1d3d5c2, 0x4051800000000000),
    (0x4062e9e1f09a7493, 0x4052c00000000000),
    (0x4062e9e1f09a7494, 0x4052c00000000000),
    (0x4062a1357ba42504, 0x4054800000000000),
    (0x4062a1357ba42505, 0x4054800000000000),
    (0x40630832cf88a564, 0x4055800000000000),
    (0x40630832cf88a565, 0x4055800000000000),
    (0x40380032a0000000, 0x4024000000000000),
    (0x403e016760000000, 0x4024000000000000),
    (0x404403c178000000, 0x4024000000000000),
    (0x40490893d8000000, 0x4024000000000000),
    (0x4054402a58000000, 0x4024000000000000),
    (0x4056ff36cc000000, 0x4024000000000000),
    (0x405a169404000000, 0x4024000000000000),
    (0x4038000070000000, 0x4024000000000000),
    (0x405fc00030000000, 0x4024000000000000),
    (0x407fc000b0000000, 0x4024000000000000),
    (0x0000000000000001, 0x0000000000000001),
    (0x7fefffffffffffff, 0x7fefffffffffffff),
];

// The checksum of both kernels of an eye.
fn kernels(eye: Eye, cpp: &[f64; CPP_LEN]) -> Checksum
    requires { KernelRadius eye.lum_radius × KernelRadius eye.chroma_radius }
{
    let lum_end = blur::value_count(eye.lum_radius);
    let chroma_end = CPP_CHROMA + blur::value_count(eye.chroma_radius);
    Checksum::of(&cpp[..lum_end]).with(&cpp[CPP_CHROMA..chroma_end])
}

// What a line says of an eye.
fn answer(rt: &impl Print, params: DbsParams, cpp: &mut [f64; CPP_LEN]) -> io::Result<()> {
    let eye = match params.validate() {
        Ok(eye) => eye,
        Err(refusal) => {
            return println!(rt; " {}", Status::from(refusal));
        }
    };
    kernel::eye_kernels(params, cpp);
    let sum = kernels(eye, cpp);
    println!(rt; " {} {} {sum}", eye.lum_radius, eye.chroma_radius)
}

fn main(rt: HostRuntime) -> io::Result<()> {
    let mut cpp = [0.0; CPP_LEN];
    for (ppi, distance) in EYES {
        print!(rt; "{ppi:016x} {distance:016x}")?;
        let params = DbsParams {
            viewing_distance_cm: bits::to_float(distance),
            ppi: bits::to_float(ppi),
        };
        answer(&rt, params, &mut cpp)?;
    }
    Ok(())
}
