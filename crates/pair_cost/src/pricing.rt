ghost use Rattle.std.specs.Prelude.{◌≡◌, ◌≤◌, IfSome, Some, None, if◌then◌else◌, min};
ghost use Rattle.pair_cost.specs.Cost.{met_last, is_rematch, same_team, bars_rematch, is_forbidden, rematch, factor, cost, charge};

use crate::candidate::{Candidate, Frame};

/// What pairing the two costs, at most 22,002,000. None exactly where they play for one team, or where theirs is a rematch
/// that the frame bars. No rank is above the frame's greatest, which is not above 999, and no rating is above 4,000.
pub fn cost(a: &Candidate, b: &Candidate, f: &Frame) -> Option<u64>
    requires a_ranked { a.now.rank ≤ f.now.max }
    requires b_ranked { b.now.rank ≤ f.now.max }
    requires places { f.now.max ≤ 999 }
    requires a_rated { a.now.rating ≤ 4000 }
    requires b_rated { b.now.rating ≤ 4000 }
    ensures cost { result ≡ (if is_forbidden f.now a.now b.now then None else Some (cost f.now a.now b.now)) }
    ensures most { IfSome result (λ c. c ≤ 22002000) }
{
    if is_forbidden(a, b, f) {
        return None;
    }
    let ranks = a.rank.abs_diff(b.rank) * factor(a.rank.min(b.rank), f.max);
    Some(u64::from(ranks + a.rating.abs_diff(b.rating) + rematch(a, b, f)))
}

/// What leaving the player alone costs, at most 5,000,000,000: nothing but under rule 2, and there 50,000,000 for each
/// committed wave that has left him alone since his last game began, of which a hundred count.
pub fn charge(a: &Candidate, f: &Frame) -> u64
    ensures charge { result ≡ charge f.now a.now }
    ensures most { result ≤ 5000000000 }
{
    if f.rule == 2 {
        50_000_000 * u64::from(a.alone.min(100))
    } else {
        0
    }
}

fn is_forbidden(a: &Candidate, b: &Candidate, f: &Frame) -> bool
    ensures { result ≡ is_forbidden f.now a.now b.now }
{
    same_team(a.team, b.team) || (bars_rematch(f) && is_rematch(a, b))
}

fn same_team(a: Option<u32>, b: Option<u32>) -> bool
    ensures { result ≡ same_team a b }
{
    match (a, b) {
        (Some(a), Some(b)) => a == b,
        _ => false,
    }
}

fn bars_rematch(f: &Frame) -> bool
    ensures { result ≡ bars_rematch f.now }
{
    f.rule == 2 && f.idle > 2
}

fn is_rematch(a: &Candidate, b: &Candidate) -> bool
    ensures { result ≡ is_rematch a.now b.now }
{
    met_last(a.last, b.player) && met_last(b.last, a.player)
}

fn met_last(last: Option<u32>, other: u32) -> bool
    ensures { result ≡ met_last last other }
{
    match last {
        Some(player) => player == other,
        None => false,
    }
}

// What a place in the table weighs: less the worse the rank is.
fn factor(rank: u32, max: u32) -> u32
    requires ranked { rank ≤ max }
    requires places { max ≤ 999 }
    ensures factor { result ≡ factor rank max }
    ensures most { result ≤ 2000 }
{
    if max == 0 {
        2000
    } else {
        300 + 1700 * (max - rank) / max
    }
}

// What it costs more where both have met each other in their last games.
fn rematch(a: &Candidate, b: &Candidate, f: &Frame) -> u32
    ensures rematch { result ≡ rematch f.now a.now b.now }
    ensures most { result ≤ 20000000 }
{
    if f.rule == 1 && is_rematch(a, b) {
        20_000_000
    } else {
        0
    }
}
