// What dbs_find_move answers, as the struct that hosts read.
#![tactic(auto)]

ghost use Rattle.std.specs.Prelude.{◌≡◌};
ghost use Rattle.found.specs.Found.{searched_of, answer_of};

use base::{Refusal, Status};
use firstmove::FirstMove;

// Kept: C reads numbers here by their names, so that it is no `Result` of an `Option`, holds no `Status`, and a kind is no enum.
#[repr(C)]
#[derive(Clone, Copy, Default)]
pub struct DbsFound {
    pub number: u64,
    pub place: u64,
    // 1 where a move would be accepted; else this and what follows is zero.
    pub found: u64,
    // y * width + x.
    pub pixel: u64,
    pub kind: u64,
    pub cost: f64,
}

impl From<Option<FirstMove>> for DbsFound {
    ghost from_gives = { λ f a. a ≡ searched_of f };

    fn from(f: Option<FirstMove>) -> DbsFound {
        match f {
            Some(m) => DbsFound {
                found: 1,
                pixel: m.pixel as u64,
                kind: u64::from(m.kind),
                cost: m.cost,
                ..DbsFound::default()
            },
            None => DbsFound::default(),
        }
    }
}

impl From<Result<Option<FirstMove>, Refusal>> for DbsFound {
    ghost from_gives = { λ r a. a ≡ answer_of r };

    fn from(r: Result<Option<FirstMove>, Refusal>) -> DbsFound {
        match r {
            Ok(found) => DbsFound::from(found),
            Err(refusal) => {
                let Status { number, place } = Status::from(refusal);
                DbsFound {
                    number,
                    place,
                    ..DbsFound::default()
                }
            }
        }
    }
}
