ghost use Rattle.std.specs.Prelude.{◌≡◌, ◌+◌, ◌≤◌, length, IfOk};
ghost use Rattle.entries.specs.Limits.{max_games};
ghost use Rattle.arena_core.specs.Starting.{both_wait, headers_from, is_since, waiting, waits_at};

use crate::people::People;
use entries::Control;
use game_room::Header;
use pair_cost::Pair;
use std::alloc::{AllocError, Global};
use wave::Plan;

/// How many pairs of a plan have two players who wait, each since the plan's number of entries or fewer. It compares two numbers
/// for each pair.
pub fn count_waiting(people: &People, plan: &Plan) -> usize
    ensures { result ≡ length (waiting people.now.places plan.now.n plan.now.pairs) }
{
    let mut count = 0;
    'counting: for pair in plan.pairs.items() {
        if both_wait(people, pair, plan.n) {
            count += 1;
        }
    }
    count
}

/// The headers of the games of these pairs, numbered from `first` on, that begin at `t`. It fails only for want of memory.
pub fn headers_of(
    alloc: Global,
    control: Control,
    first: u32,
    t: u64,
    people: &People,
    plan: &Plan,
) -> Result<Vec<Header>, AllocError>
    requires { first + length (waiting people.now.places plan.now.n plan.now.pairs) ≤ max_games }
    ensures { IfOk result (λ made. made.items ≡ headers_from control t first (waiting people.now.places plan.now.n plan.now.pairs)) }
{
    let mut headers = Vec::new(alloc);
    'listing: for pair in plan.pairs.items() {
        if both_wait(people, pair, plan.n) {
            headers.push(Header {
                id: first + headers.len() as u32,
                white: pair.white,
                black: pair.black,
                control,
                start: t,
            })?;
        }
    }
    Ok(headers)
}

// Whether both players of a pair wait, each since so many entries or fewer.
fn both_wait(people: &People, pair: &Pair, n: u64) -> bool
    ensures { result ≡ both_wait people.now.places n pair.now }
{
    waits(people, pair.white, n) && waits(people, pair.black, n)
}

// Whether a player waits, since so many entries or fewer.
fn waits(people: &People, p: u32, n: u64) -> bool
    ensures { result ≡ waits_at people.now.places n p }
{
    is_since(n, people.idle_since(p))
}

fn is_since(n: u64, since: Option<u64>) -> bool
    ensures { result ≡ is_since n since }
{
    match since {
        None => false,
        Some(m) => m <= n,
    }
}
