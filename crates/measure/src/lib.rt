// The perceived error of a halftone: `perceived_error` of dbs.rs, given the blurs. It blurs the error,
// with no correlation shortcut. Pins play no part. The blurred error is worked out in blocks of at most
// 128 columns and 64 rows, so that what a block is made of is small. It is non-zero up to a blur's radius
// outside the image, and its columns and rows are counted from its own corner.
#![tactic(auto)]

ghost use Rattle.std.specs.Prelude.{◌≡◌, ◌+◌, ◌*◌, ◌<◌, ◌≤◌, length};
ghost use Rattle.base.specs.Limits.{max_side};
ghost use Rattle.base.specs.Loop.{table};
ghost use Rattle.blur.specs.Blur.{values};
ghost use Rattle.color.specs.Inks.{number};
ghost use Rattle.error.specs.Scenes.{unpinned_of};
ghost use Rattle.measure.specs.Measure.{frame, row_error, blur_error, perceived_of};
ghost use Rattle.measure.specs.Blocks.{mirror_of, view, block_of, ViewFits};

use block::Block;
use blur::{Blur, value_count};
use color::Channel;
use correlate::Lines;
use error::Scene;

// The next block of a band, which begins in column x and row y: as sums of the error they take, of the
// blur's values from last to first, the pixels up to twice the radius before them.
fn block_at(scene: Scene<'_>, taps: Blur<'_>, c: Channel, x: usize, y: usize, rows: usize) -> Block
    requires { x < scene.width + 2 * taps.radius }
    ensures { result ≡ block_of (view scene.entry.width scene.entry.height taps.entry.radius c) x y rows }
{
    let reach = 2 * taps.radius;
    Block {
        channel: c,
        x,
        y,
        rows,
        before: reach,
        after: 0,
        lines: Lines {
            width: (scene.width + reach - x).min(128),
            first: 0,
            step: 1,
        },
    }
}

// The squares in the rows of a band, from row y of the blurred error on: blocks from left to right.
// `taps` is the blur, last value to first; `line` and `out` are room for a row of errors and a block.
fn square_band(
    scene: Scene<'_>,
    taps: Blur<'_>,
    c: Channel,
    y: usize,
    line: &mut [f64],
    out: &mut [f64],
    sums: &mut [f64],
)
    requires view_fits { ViewFits taps.radius (length taps.values.now) (length line.old) (length out.old) }
    requires band { (length sums.old ≤ 64) × (y + length sums.old ≤ scene.height + 2 * taps.radius) }
    ensures { sums.new ≡ table (length sums.old) (λ i. row_error (frame scene.entry.width scene.entry.height taps.entry.radius) (unpinned_of scene.entry) (mirror_of taps.entry.values.now) (number c) (y + i)) }
{
    sums.fill(0.0);
    for x in (0..scene.width + 2 * taps.radius).step_by(128) {
        let b = block_at(scene, taps, c, x, y, sums.len());
        squares::square_block(scene, taps.values, b, line, out, sums);
    }
}

// A channel of the error, seen through a blur, given its values last to first: bands from top to bottom.
fn blur_error(scene: Scene<'_>, taps: Blur<'_>, c: Channel) -> f64
    requires { length taps.values.now ≡ values taps.radius }
    ensures { result ≡ blur_error (frame scene.entry.width scene.entry.height taps.entry.radius) (unpinned_of scene.entry) (mirror_of taps.entry.values.now) (number c) }
{
    let mut line = [0.0f64; 160];
    let mut out = [0.0f64; 8192];
    let mut sums = [0.0f64; 64];
    let end = scene.height + 2 * taps.radius;
    let mut s = 0.0;
    for y in (0..end).step_by(64) {
        let rows = (end - y).min(64);
        let band = &mut sums[..rows];
        square_band(scene, taps, c, y, &mut line, &mut out, band);
        s = blur::add_all(s, band);
    }
    s
}

// The same of a blur as it stands.
fn channel_error(scene: Scene<'_>, blur: Blur<'_>, c: Channel) -> f64
    ensures { result ≡ blur_error (frame scene.entry.width scene.entry.height blur.entry.radius) (unpinned_of scene.entry) blur.entry.values.now (number c) }
{
    let mut room = [0.0f64; 1089];
    let values = &mut room[..value_count(blur.radius)];
    squares::mirror(blur.values, values);
    blur_error(
        scene,
        Blur {
            values,
            radius: blur.radius,
        },
        c,
    )
}

// The perceived error: Yy through the luminance blur, Cx and Cz through the chrominance blur.
pub fn perceived(scene: Scene<'_>, lum: Blur<'_>, chroma: Blur<'_>) -> f64
    ensures { result ≡ perceived_of scene.entry.width scene.entry.height scene.entry.pixels.now scene.entry.indices.now scene.entry.inks.now lum.entry.values.now lum.entry.radius chroma.entry.values.now chroma.entry.radius }
{
    let yy = channel_error(scene, lum, Channel::Yy);
    let cx = channel_error(scene, chroma, Channel::Cx);
    let cz = channel_error(scene, chroma, Channel::Cz);
    0.0 + yy + cx + cz
}
