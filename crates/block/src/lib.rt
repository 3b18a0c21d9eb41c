// The error of an image correlated with a square of taps, a block of sums at a time: what `correlate`
// and `perceived_error` of dbs.rs have in common. There is no list of errors: they are computed row by
// row, and each row is added to the sums that it reaches.
#![tactic(auto)]

ghost use Rattle.std.specs.Prelude.{◌≡◌, ◌+◌, ◌-◌, ◌*◌, ◌≤◌, min, length};
ghost use Rattle.base.specs.Limits.{max_side};
ghost use Rattle.correlate.specs.Correlate.{Spread};
ghost use Rattle.error.specs.Scenes.{image_of};
ghost use Rattle.block.specs.Block.{side, row_top, column_count, RowReaches, sum_row, sum_rows, BlockFits};

use color::Channel;
use correlate::Lines;
use error::Scene;

// Sums of one channel of an image's error: as many columns as a line has, and so many rows, from
// (x, y) on. A sum takes the pixels from `before` columns and rows before its place to `after` behind it.
#[derive(Clone, Copy)]
pub struct Block {
    pub channel: Channel,
    pub x: usize,
    pub y: usize,
    pub rows: usize,
    pub before: usize,
    pub after: usize,
    pub lines: Lines,
}

impl Block {
    // How many columns of an image of so many columns the sums take.
    pub fn column_count(self, width: usize) -> usize
        requires { self.x + self.lines.width + self.after ≤ 2 * max_side }
        ensures { result ≡ column_count width self }
    {
        width
            .min(self.x + self.lines.width + self.after)
            .saturating_sub(self.x.saturating_sub(self.before))
    }

    // What row y of the image adds to the sums.
    fn add_row(self, scene: Scene<'_>, taps: &[f64], y: usize, line: &mut [f64], sums: &mut [f64])
        requires block_fits { BlockFits scene.width scene.height self (length taps.now) (length line.old) (length sums.old) }
        requires row_reaches { RowReaches scene.height self y }
        ensures { Spread self.lines (row_top self y + 1 - side self) (min self.rows (row_top self y + 1)) (λ i j. sum_row scene.entry.width self (image_of scene.entry) taps.now (self.x + j) (self.y + i) y) sums.old sums.new }
    {
        let x = self.x.saturating_sub(self.before);
        scene.view().channel_errors(self.channel, x, y, line);
        let size = self.before + self.after + 1;
        let top = y + self.before - self.y;
        correlate::spread(
            sums,
            self.lines,
            (top + 1).saturating_sub(size),
            self.rows.min(top + 1),
            line,
            taps,
            size,
            top,
            self.before.saturating_sub(self.x),
        );
    }

    // All rows of the image that the sums take, from top to bottom, with room lent for a row of errors.
    pub fn correlate(self, scene: Scene<'_>, taps: &[f64], line: &mut [f64], sums: &mut [f64])
        requires { BlockFits scene.width scene.height self (length taps.now) (length line.old) (length sums.old) }
        ensures { Spread self.lines 0 self.rows (sum_rows scene.entry.width self (image_of scene.entry) taps.now scene.entry.height) sums.old sums.new }
    {
        let end = scene.height.min(self.y + self.rows + self.after);
        for y in self.y.saturating_sub(self.before)..end {
            self.add_row(scene, taps, y, line, sums);
        }
    }
}
