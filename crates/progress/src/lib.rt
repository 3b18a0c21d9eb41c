// How far a tile has got: the moves that were accepted, and the sum of their costs.
#![tactic(auto)]

ghost use Rattle.std.specs.Prelude.{◌≡◌, ◌<◌, ◌^◌};
ghost use Rattle.progress.specs.Progress.{one_more, counted};

use search::{Best, Move};

// Moves accepted and the sum of their costs.
#[derive(Clone, Copy, Default)]
pub struct Progress {
    pub accepted: usize,
    pub delta: f64,
}

impl Progress {
    // Kept: a bound of the count in a clause, here, below and in tile: the type is made of any count that C gives.
    fn one_more(self, cost: f64) -> Progress
        requires { self.accepted < 2 ^ 62 }
        ensures { result ≡ one_more self cost }
    {
        Progress {
            accepted: self.accepted + 1,
            delta: self.delta + cost,
        }
    }

    // A move counts, and its cost joins the sum.
    pub fn count_move(self, best: Best) -> Progress
        requires { self.accepted < 2 ^ 62 }
        ensures { result ≡ counted best.mv best.cost self }
    {
        match best.mv {
            Move::Stay => self,
            Move::Toggle(_) | Move::Swap(_) => self.one_more(best.cost),
        }
    }
}
