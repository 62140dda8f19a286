ghost use Rattle.std.specs.Prelude.{◌≡◌, ◌<◌, ◌++◌, IfOk, OnOk, IsTrue, length, take, slice_get, []};
ghost use Rattle.std.specs.Option.{option_map_or};
ghost use Rattle.board.specs.Start.{start_parts};
ghost use Rattle.entries.specs.Limits.{max_games};
ghost use Rattle.entries.specs.Ranges.{IsGood};
ghost use Rattle.arena_core.specs.Held.{past};
ghost use Rattle.arena_history.specs.Games.{begun};
ghost use Rattle.arena_history.specs.Endings.{finished};
ghost use Rattle.pgn_text.specs.Games.{is_line};
ghost use Rattle.pgn_text.specs.Pgn.{pgn_of};
ghost use Rattle.games_text.specs.Sent.{AreSent};
ghost use Rattle.games_text.specs.GameTexts.{game_with, text_of_game, games_text};

use crate::ended::{Ended, counted_game};
use crate::game::game_with;
use crate::laws::moves_of_games;
use crate::line::Line;
use crate::sent::lines_sent;
use arena_core::Arena;
use arena_history::games_count_once;
use arena_rules::games_of_legal_lists;
use conn::Text;
use entries::Setup;
use pgn_text::write_pgn;
use std::alloc::{AllocError, Global};

// Puts the text of a game behind the others. Its moves are the first of those that were sent to it.
fn push_ended(
    alloc: Global,
    text: &mut Vec<u8>,
    setup: &Setup,
    x: &Ended,
    line: &Line,
) -> Result<(), AllocError>
    requires good { IsGood setup.now }
    requires number { x.now.id < max_games }
    requires white { x.now.white < length setup.now.players }
    requires black { x.now.black < length setup.now.players }
    requires line { IsTrue (is_line start_parts (take x.now.outcome.plies line.now)) }
    ensures { OnOk result (text.new.items
        ≡ text.old.items ++ pgn_of (game_with setup.now.players x.now (take x.now.outcome.plies line.now))) }
{
    let moves = line.first(alloc, x.outcome.plies as usize)?;
    let game = game_with(alloc, setup.players.items(), x, moves)?;
    let written = write_pgn(alloc, &game)?;
    text.extend_from_slice(written.bytes())
}

// Puts the text of game number `i` of those that count behind the others, where there are so many.
fn push_game(
    alloc: Global,
    text: &mut Vec<u8>,
    a: &Arena,
    lines: &[Line],
    i: u32,
) -> Result<(), AllocError>
    requires { AreSent (length (begun a.now.setup (past a.now))) a.now.entries lines.now }
    ensures { OnOk result (text.new.items ≡ text.old.items
        ++ option_map_or (text_of_game a.now.setup (past a.now)) (slice_get (finished a.now.setup (past a.now)) i) []) }
{
    a.shows_legal();
    games_count_once();
    games_of_legal_lists();
    moves_of_games();
    match counted_game(alloc, a, i) {
        None => Ok(()),
        Some(x) => push_ended(alloc, text, a.setup(), &x, &lines[x.id as usize]),
    }
}

/// The texts of the games of an arena that count, in the order in which they ended, one after another. It goes once over the
/// entries and once over the games, and takes memory for the moves of all games and for the text. It fails only for want of
/// memory.
pub fn write_games(alloc: Global, a: &Arena) -> Result<Text, AllocError>
    ensures { IfOk result (λ text. text ≡ games_text a.now.setup a.now.entries) }
{
    let lines = lines_sent(alloc, a)?;
    let mut text = Vec::new(alloc);
    'writing: for i in 0..a.finished() {
        push_game(alloc, &mut text, a, lines.as_slice(), i)?;
    }
    Ok(Text::of(text))
}
