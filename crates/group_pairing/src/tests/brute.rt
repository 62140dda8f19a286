ghost use Rattle.std.specs.Prelude.{◌≤◌};
ghost use Rattle.group_pairing.specs.Groups.{IsGroup};

use pair_cost::{Candidate, Frame, charge, cost};

/// The first of the partner lists that leave fewest alone and of these cost least, found by trying all lists in order.
pub(crate) fn least_by_trying_all(rows: &[Candidate], f: &Frame) -> [u8; 14]
    requires { IsGroup rows.now f.now }
{
    let base = rows.len() as u32 + 1;
    let mut words = 1u32;
    for _ in 0..rows.len() {
        words = words.wrapping_mul(base);
    }
    let mut best = [14; 14];
    let mut least = None;
    for word in 0..words {
        let to = spelled(word, rows.len());
        if let Some(weight) = weighed(rows, f, &to) {
            if is_less(weight, least) {
                least = Some(weight);
                best = to;
            }
        }
    }
    best
}

fn is_less(weight: (u32, u64), least: Option<(u32, u64)>) -> bool {
    match least {
        None => true,
        Some(old) => weight.0 < old.0 || (weight.0 == old.0 && weight.1 < old.1),
    }
}

// The word of this number, by lexicographic order, over the places and 14.
fn spelled(word: u32, places: usize) -> [u8; 14]
    requires { places ≤ 14 }
{
    let mut to = [14; 14];
    let mut rest = word;
    for back in 0..places {
        let digit = rest as usize % (places + 1);
        rest /= places as u32 + 1;
        if digit < places {
            to[places - 1 - back] = digit as u8;
        }
    }
    to
}

// How many the list leaves alone, and what these and its pairs cost, if it is a partner list.
fn weighed(rows: &[Candidate], f: &Frame, to: &[u8; 14]) -> Option<(u32, u64)>
    requires { IsGroup rows.now f.now }
{
    let mut alone = 0u32;
    let mut total = 0u64;
    for place in 0..rows.len() {
        let partner = usize::from(to[place]);
        if partner == 14 {
            alone = alone.wrapping_add(1);
            total = total.wrapping_add(charge(&rows[place], f));
            continue;
        }
        if partner >= rows.len() || partner == place || usize::from(to[partner]) != place {
            return None;
        }
        let price = cost(&rows[place], &rows[partner], f)?;
        if place < partner {
            total = total.wrapping_add(price);
        }
    }
    Some((alone, total))
}
