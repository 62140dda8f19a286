//! The form of an entry's line, whatever the ranges of its numbers.

ghost use Rattle.std.specs.Prelude.{◌≡◌, option_map};
ghost use Rattle.board.specs.Reading.{move_in};
ghost use Rattle.journal_text.specs.EntryForms.{kind_of, action_of, action_form, deed_of, pair_form, are_pairs, ends_well, entry_form};

use crate::lines::two_parts;
use crate::words::Words;
use board::{Move, read_move};
use entries::Action;

/// The kinds of entry.
#[derive(Clone, Copy, Debug, PartialEq, Eq)]
pub(crate) enum Kind {
    Enter,
    Pause,
    Leave,
    Act,
    Tick,
    Wave,
}

/// What a line says that an entry did.
#[derive(Clone, Copy, Debug)]
pub(crate) enum Deed {
    Enter(u64),
    Pause(u64),
    Leave(u64),
    Act(u64, u64, Action),
    Tick,
    Wave(u64),
}

/// What a line says of an entry, beside the games that it lists.
#[derive(Clone, Copy, Debug)]
pub(crate) struct Said {
    pub(crate) stamp: u64,
    pub(crate) pass: u64,
    pub(crate) deed: Deed,
}

/// The kind of this word.
#[tactic(auto, unfolding(crate::specs::EntryForms::kind_of))]
fn kind_of(word: &[u8]) -> Option<Kind>
    ensures { result ≡ kind_of word.now }
{
    if word == b"enter".as_slice() {
        return Some(Kind::Enter);
    }
    if word == b"pause".as_slice() {
        return Some(Kind::Pause);
    }
    if word == b"leave".as_slice() {
        return Some(Kind::Leave);
    }
    if word == b"act".as_slice() {
        return Some(Kind::Act);
    }
    if word == b"tick".as_slice() {
        return Some(Kind::Tick);
    }
    if word == b"wave".as_slice() {
        return Some(Kind::Wave);
    }
    None
}

/// The action of this word, where no further word belongs to it.
#[tactic(auto, unfolding(crate::specs::EntryForms::action_of))]
fn action_of(word: &[u8]) -> Option<Action>
    ensures { result ≡ action_of word.now }
{
    if word == b"resign".as_slice() {
        return Some(Action::Resign);
    }
    if word == b"offer".as_slice() {
        return Some(Action::Offer);
    }
    if word == b"accept".as_slice() {
        return Some(Action::Accept);
    }
    if word == b"decline".as_slice() {
        return Some(Action::Decline);
    }
    if word == b"claim".as_slice() {
        return Some(Action::Claim);
    }
    if word == b"berserk".as_slice() {
        return Some(Action::Berserk);
    }
    None
}

/// The move of this word, as `board::read_move` reads it; None where it is no move's word.
pub fn move_of(word: &[u8]) -> Option<Move>
    ensures { result ≡ move_in word.now }
{
    match read_move(word) {
        None => None,
        Some(m) => {
            m.keeps();
            Some(m)
        }
    }
}

/// Takes an action.
#[tactic(auto, unfolding(crate::specs::EntryForms::action_form))]
fn action_form(words: &mut Words) -> Option<Action>
    ensures { option_map (λ a. (a, words.new)) result ≡ action_form words.old }
{
    let word = words.next()?;
    if word == b"move".as_slice() {
        let word = words.next()?;
        let made = move_of(word)?;
        return Some(Action::Move(made));
    }
    action_of(word)
}

/// Takes what an entry of this kind did.
#[tactic(auto, unfolding(crate::specs::EntryForms::deed_of))]
fn deed_of(kind: Kind, words: &mut Words) -> Option<Deed>
    ensures { option_map (λ d. (d, words.new)) result ≡ deed_of kind words.old }
{
    match kind {
        Kind::Enter => {
            let player = words.number()?;
            Some(Deed::Enter(player))
        }
        Kind::Pause => {
            let player = words.number()?;
            Some(Deed::Pause(player))
        }
        Kind::Leave => {
            let player = words.number()?;
            Some(Deed::Leave(player))
        }
        Kind::Act => {
            let player = words.number()?;
            let game = words.number()?;
            let did = action_form(words)?;
            Some(Deed::Act(player, game, did))
        }
        Kind::Tick => Some(Deed::Tick),
        Kind::Wave => {
            let n = words.number()?;
            Some(Deed::Wave(n))
        }
    }
}

/// The two numbers of a word `W-B`.
#[tactic(auto, unfolding(crate::specs::EntryForms::pair_form))]
pub(crate) fn pair_form(word: &[u8]) -> Option<(u64, u64)>
    ensures { result ≡ pair_form word.now }
{
    let (white, black) = two_parts(word, b'-')?;
    let white = decimals::read(white)?;
    let black = decimals::read(black)?;
    Some((white, black))
}

/// Whether each of the words that are left has the form of a pair.
fn are_pairs(words: &Words) -> bool
    ensures { result ≡ are_pairs words.now }
{
    let mut left = words.again();
    'words: while let Some(word) = left.next() {
        if pair_form(word).is_none() {
            return false;
        }
    }
    true
}

/// Whether the words that are left may stand behind an entry: none, but one or more pairs behind a wave of version 2.
fn ends_well(version: u32, deed: &Deed, words: &Words) -> bool
    ensures { result ≡ ends_well version deed.now words.now }
{
    match deed {
        Deed::Enter(_) | Deed::Pause(_) | Deed::Leave(_) | Deed::Act(_, _, _) | Deed::Tick => {
            words.is_empty()
        }
        Deed::Wave(_) => {
            if version == 1 {
                words.is_empty()
            } else {
                !words.is_empty() && are_pairs(words)
            }
        }
    }
}

/// Takes what the line of an entry says in this version, and leaves the pairs that it lists.
#[tactic(auto, unfolding(crate::specs::EntryForms::entry_form))]
pub(crate) fn entry_form(version: u32, words: &mut Words) -> Option<Said>
    ensures { option_map (λ e. (e, words.new)) result ≡ entry_form version words.old }
{
    let stamp = words.number()?;
    let pass = words.number()?;
    let word = words.next()?;
    let kind = kind_of(word)?;
    let deed = deed_of(kind, words)?;
    if ends_well(version, &deed, words) {
        Some(Said { stamp, pass, deed })
    } else {
        None
    }
}
