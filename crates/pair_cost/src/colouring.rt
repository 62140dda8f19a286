ghost use Rattle.std.specs.Prelude.{◌≡◌, ◌<◌};
ghost use Rattle.pair_cost.specs.Colours.{colours};

use crate::candidate::{Candidate, Pair};

/// White is the player whose games with White less those with Black are fewer, and `a`, who is better ranked, where they are as
/// many.
pub fn colours(a: &Candidate, b: &Candidate) -> Pair
    requires { a.now.rank < b.now.rank }
    ensures { result ≡ colours a.now b.now }
{
    if a.balance <= b.balance {
        Pair {
            white: a.player,
            black: b.player,
        }
    } else {
        Pair {
            white: b.player,
            black: a.player,
        }
    }
}
