//! The six scripts of games. In each the two players act in turn, at one moment.

ghost use Rattle.std.specs.Prelude.{◌≡◌, ◌<◌, map};
ghost use Rattle.workload.specs.Scripts.{action_of, script};

use board::Colour;
use entries::Action;
use journal_text::move_of;

const RESIGNED: [&str; 1] = ["resign"];

const MATED: [&str; 4] = ["f2f3", "e7e5", "g2g4", "d8h4"];

const AGREED: [&str; 3] = ["e2e4", "offer", "accept"];

const BERSERK: [&str; 3] = ["berserk", "e2e4", "resign"];

const STALEMATED: [&str; 19] = [
    "e2e3", "a7a5", "d1h5", "a8a6", "h5a5", "h7h5", "h2h4", "a6h6", "a5c7", "f7f6", "c7d7", "e8f7",
    "d7b7", "d8d3", "b7b8", "d3h7", "b8c8", "f7g6", "c8e6",
];

const REPEATED: [&str; 20] = [
    "e2e4", "e7e5", "d2d4", "d7d5", "g1f3", "g8f6", "f3g1", "f6g8", "g1f3", "g8f6", "f3g1", "f6g8",
    "g1f3", "g8f6", "f3g1", "f6g8", "g1f3", "g8f6", "f3g1", "f6g8",
];

/// The side that begins the script with this number.
#[tactic(auto, unfolding(crate::specs::Scripts::script))]
pub fn first_of(number: u64) -> Colour
    ensures { result ≡ (script number).first }
{
    match number {
        3 => Colour::Black,
        _ => Colour::White,
    }
}

/// The words of the script with this number.
#[tactic(auto, unfolding(crate::specs::Scripts::script))]
pub fn words_of(number: u64) -> &'static [&'static str]
    ensures { map (λ word. word.now) result.now ≡ (script number).words }
{
    match number {
        0 => &RESIGNED,
        1 => &MATED,
        2 => &AGREED,
        3 => &BERSERK,
        4 => &STALEMATED,
        _ => &REPEATED,
    }
}

/// The action of a word: a move's word, or another action's.
#[tactic(auto, unfolding(crate::specs::Scripts::action_of))]
pub fn action_of(word: &[u8]) -> Option<Action>
    ensures { result ≡ action_of word.now }
{
    if word == b"resign".as_slice() {
        return Some(Action::Resign);
    }
    if word == b"offer".as_slice() {
        return Some(Action::Offer);
    }
    if word == b"accept".as_slice() {
        return Some(Action::Accept);
    }
    if word == b"berserk".as_slice() {
        return Some(Action::Berserk);
    }
    let made = move_of(word)?;
    Some(Action::Move(made))
}
