ghost use Rattle.std.specs.Prelude.{◌≡◌, ◌≤◌, ◌<◌, ◌++◌, length, OnOk, IfOk, AllPairs, option_to_list};
ghost use Rattle.pair_cost.specs.declared.candidate.Candidate.{Candidate};
ghost use Rattle.group_pairing.specs.Groups.{list_of};
ghost use Rattle.wave.specs.Answers.{HoldsAnswers};
ghost use Rattle.wave.specs.Plans.{pairs, alone, pair_at, alone_at, first_pairs, first_alone, group_count};
ghost use Rattle.wave.specs.Rankings.{IsRanking};

use crate::cutting::group;
use group_pairing::Partners;
use pair_cost::{Candidate, Frame, Pair, colours};
use std::alloc::{AllocError, Global};

/// Nobody, in place of a partner's place.
const NOBODY: usize = 14;

/// The pairs of groups and whom they leave alone, group by group.
#[derive(Debug, Drop)]
pub(crate) struct Listed {
    pub(crate) pairs: Vec<Pair>,
    pub(crate) alone: Vec<u32>,
}

// What the answers of all groups say of the players.
pub(crate) fn list_groups(
    alloc: Global,
    rows: &[Candidate],
    f: &Frame,
    answers: &[Partners],
) -> Result<Listed, AllocError>
    requires rows { IsRanking rows.now }
    requires answers { HoldsAnswers rows.now f.now 0 (group_count rows.now) answers.now }
    ensures pairs { IfOk result (λ made. made.pairs.items ≡ first_pairs rows.now f.now (group_count rows.now)) }
    ensures alone { IfOk result (λ made. made.alone.items ≡ first_alone rows.now f.now (group_count rows.now)) }
{
    let mut pairs = Vec::new(alloc);
    let mut alone = Vec::new(alloc);
    for number in 0..answers.len() {
        add_group(
            &mut pairs,
            &mut alone,
            group(rows, number),
            &answers[number],
        )?;
    }
    Ok(Listed { pairs, alone })
}

// Adds the pairs of a group, and whom it leaves alone.
fn add_group(
    found: &mut Vec<Pair>,
    left: &mut Vec<u32>,
    rows: &[Candidate],
    partners: &Partners,
) -> Result<(), AllocError>
    requires few { length rows.now ≤ 14 }
    requires len { partners.now.len ≡ length rows.now }
    requires ranked { AllPairs (λ (a b : Candidate). a.rank < b.rank) rows.now }
    ensures pairs { OnOk result (found.new.items ≡ found.old.items ++ pairs rows.now (list_of partners.now)) }
    ensures alone { OnOk result (left.new.items ≡ left.old.items ++ alone rows.now (list_of partners.now)) }
{
    for place in 0..rows.len() {
        push_some(found, pair_at(rows, partners, place))?;
        push_some(left, alone_at(rows, partners, place))?;
    }
    Ok(())
}

// Adds the item, if there is one.
fn push_some<T: Drop>(list: &mut Vec<T>, item: Option<T>) -> Result<(), AllocError>
    ensures { OnOk result (list.new.items ≡ list.old.items ++ option_to_list item) }
{
    match item {
        Some(item) => {
            list.push(item)?;
            Ok(())
        }
        None => Ok(()),
    }
}

// The pair of this place, if its partner has a later place.
fn pair_at(rows: &[Candidate], partners: &Partners, place: usize) -> Option<Pair>
    requires few { length rows.now ≤ 14 }
    requires len { partners.now.len ≡ length rows.now }
    requires ranked { AllPairs (λ (a b : Candidate). a.rank < b.rank) rows.now }
    requires place { place < length rows.now }
    ensures { result ≡ pair_at rows.now (list_of partners.now) place }
{
    let to = partners.to;
    let partner = usize::from(to[place]);
    if place < partner && partner < rows.len() {
        Some(colours(&rows[place], &rows[partner]))
    } else {
        None
    }
}

// The player of this place, if he has nobody.
fn alone_at(rows: &[Candidate], partners: &Partners, place: usize) -> Option<u32>
    requires few { length rows.now ≤ 14 }
    requires len { partners.now.len ≡ length rows.now }
    requires place { place < length rows.now }
    ensures { result ≡ alone_at rows.now (list_of partners.now) place }
{
    let to = partners.to;
    if usize::from(to[place]) == NOBODY {
        Some(rows[place].player)
    } else {
        None
    }
}
