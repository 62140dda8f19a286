ghost use Rattle.std.specs.Prelude.{◌≡◌, ◌==◌, ◌<◌, ◌+◌, take, ℕ, ◌∷◌, [], if◌then◌else◌, IfOk, OnOk, length};
ghost use Rattle.arena_history.specs.Games.{begun};
ghost use Rattle.arena_core.specs.Held.{past};
ghost use Rattle.games_text.specs.Sent.{AreSent, GoOn, sent_by, sent_in};

use crate::line::Line;
use arena_core::Arena;
use board::Move;
use entries::{Action, Entry, What};
use std::alloc::{AllocError, Global};

// So many lines without moves.
fn empty_lines(alloc: Global, count: u32) -> Result<Vec<Line>, AllocError>
    ensures { IfOk result (λ lines. AreSent count [] lines.items) }
{
    let mut lines = Vec::new(alloc);
    'making: for _ in 0..count {
        lines.push(Line::new(alloc))?;
    }
    Ok(lines)
}

// Puts a move behind a game's line, if there is one for a game with this number.
fn push_at(lines: &mut Vec<Line>, game: u32, m: Move) -> Result<(), AllocError>
    ensures { OnOk result (GoOn (λ n. if game == n then m ∷ [] else []) lines.old.items lines.new.items) }
{
    let place = game as usize;
    if place < lines.len() {
        lines[place].push(m)
    } else {
        Ok(())
    }
}

// Notes the move of an action in a game, if it is one.
fn note_action(lines: &mut Vec<Line>, game: u32, action: &Action) -> Result<(), AllocError>
    ensures { OnOk result (GoOn (λ n. sent_by n game action.now) lines.old.items lines.new.items) }
{
    match action {
        Action::Move(m) => push_at(lines, game, *m),
        Action::Resign
        | Action::Offer
        | Action::Accept
        | Action::Decline
        | Action::Claim
        | Action::Berserk => Ok(()),
    }
}

// Notes the move of an entry, if it sends one.
fn note(lines: &mut Vec<Line>, e: &Entry) -> Result<(), AllocError>
    ensures { OnOk result (GoOn (λ n. sent_in n e.now.what) lines.old.items lines.new.items) }
{
    match &e.what {
        What::Act(_, game, action) => note_action(lines, *game, action),
        What::Enter(_) | What::Pause(_) | What::Leave(_) | What::Tick | What::Wave(_) => Ok(()),
    }
}

// Notes the move of entry number `i`, if it sends one.
fn note_entry(lines: &mut Vec<Line>, a: &Arena, i: u64) -> Result<(), AllocError>
    requires { i < length a.now.entries }
    ensures { OnOk result ((count : ℕ) → AreSent count (take i a.now.entries) lines.old.items
        → AreSent count (take (i + 1) a.now.entries) lines.new.items) }
{
    match a.entry(i) {
        Some(entry) => note(lines, &entry),
        None => Ok(()),
    }
}

/// The moves that the entries sent to each game that was begun, by the game's number. It goes once over the entries, and takes
/// memory for a vector a game and for the moves.
pub fn lines_sent(alloc: Global, a: &Arena) -> Result<Vec<Line>, AllocError>
    ensures { IfOk result (λ lines. AreSent (length (begun a.now.setup (past a.now))) a.now.entries lines.items) }
{
    let mut lines = empty_lines(alloc, a.begun())?;
    'reading: for i in 0..a.len() {
        note_entry(&mut lines, a, i)?;
    }
    Ok(lines)
}
