//! The text of a journal, written.

ghost use Rattle.std.specs.Prelude.{◌≡◌, ◌+◌, ◌*◌, ◌<◌, ◌≤◌, ◌∷◌, ◌++◌, [], IfOk, OnOk, length};
ghost use Rattle.std.specs.Fmt.{decimal};
ghost use Rattle.std.specs.List.{flat_map};
ghost use Rattle.entries.specs.Ranges.{IsWritable};
ghost use Rattle.entries.specs.declared.journal.What.TheVariants.{Act};
ghost use Rattle.journal_text.specs.Lines.{spaced, line};
ghost use Rattle.journal_text.specs.Text.{version_lines, control_words, window_words, number_words, team_words, team_word, player_words, action_words, what_words, entry_words, pair_word, setup_lines, text_of};
ghost use Rattle.journal_text.specs.Writing.{own_of, behind_own, pairs_text, entry_text, entries_text};

use board::write_move;
use conn::Text;
use entries::{Action, Control, Entry, Journal, Player, Setup, Start, What};
use itoa::Buffer;
use std::alloc::{AllocError, Global};

/// Puts a word at the end of the text, and the byte that stands behind it.
fn put(text: &mut Vec<u8>, word: &[u8], byte: u8) -> Result<(), AllocError>
    ensures { OnOk result (text.new.items ≡ text.old.items ++ word.now ++ byte ∷ []) }
{
    text.extend_from_slice(word)?;
    text.push(byte)?;
    Ok(())
}

/// Puts a number as its decimal, and nothing behind it.
fn put_last(text: &mut Vec<u8>, n: u64) -> Result<(), AllocError>
    ensures { OnOk result (text.new.items ≡ text.old.items ++ decimal n) }
{
    let mut buffer = Buffer::new();
    text.extend_from_slice(buffer.format(n).as_bytes())?;
    Ok(())
}

/// Puts a number as its decimal, and the byte that stands behind it.
fn put_number(text: &mut Vec<u8>, n: u64, byte: u8) -> Result<(), AllocError>
    ensures { OnOk result (text.new.items ≡ text.old.items ++ decimal n ++ byte ∷ []) }
{
    put_last(text, n)?;
    text.push(byte)?;
    Ok(())
}

/// Puts the line of a time control.
#[tactic(auto, using(crate::proofs::PutLines::four_words))]
fn put_control(text: &mut Vec<u8>, c: &Control) -> Result<(), AllocError>
    ensures { OnOk result (text.new.items ≡ text.old.items ++ line (control_words c.now)) }
{
    put(text, b"control", b' ')?;
    put_number(text, c.initial_ms / 1000, b' ')?;
    put_number(text, c.inc_ms / 1000, b' ')?;
    put_number(text, c.first_ms, b'\n')
}

/// Puts the line that says when an arena starts and ends.
#[tactic(auto, using(crate::proofs::PutLines::three_words))]
fn put_window(text: &mut Vec<u8>, s: &Setup) -> Result<(), AllocError>
    ensures { OnOk result (text.new.items ≡ text.old.items ++ line (window_words s.now.starts s.now.ends)) }
{
    put(text, b"window", b' ')?;
    put_number(text, s.starts, b' ')?;
    put_number(text, s.ends, b'\n')
}

/// Puts a line `WORD N`.
#[tactic(auto, using(crate::proofs::PutLines::two_words))]
fn put_value(text: &mut Vec<u8>, word: &[u8], n: u64) -> Result<(), AllocError>
    ensures { OnOk result (text.new.items ≡ text.old.items ++ line (number_words word.now n)) }
{
    put(text, word, b' ')?;
    put_number(text, n, b'\n')
}

/// Puts the line of the version, and in version 2 that of the pairing rule.
fn put_version(text: &mut Vec<u8>, version: u32, rule: u32) -> Result<(), AllocError>
    ensures { OnOk result (text.new.items ≡ text.old.items ++ flat_map line (version_lines version rule)) }
{
    if version == 1 {
        put(text, b"arena 1", b'\n')
    } else {
        put(text, b"arena 2", b'\n')?;
        put_value(text, b"rule", u64::from(rule))
    }
}

/// Puts the line of a team.
#[tactic(auto, using(crate::proofs::PutLines::two_words))]
fn put_team(text: &mut Vec<u8>, name: &[u8]) -> Result<(), AllocError>
    ensures { OnOk result (text.new.items ≡ text.old.items ++ line (team_words name.now)) }
{
    put(text, b"team", b' ')?;
    put(text, name, b'\n')
}

/// Puts the word of a player's team, and a space behind it.
fn put_membership(text: &mut Vec<u8>, team: Option<u32>) -> Result<(), AllocError>
    ensures { OnOk result (text.new.items ≡ text.old.items ++ team_word team ++ 32 ∷ []) }
{
    match team {
        None => put(text, b"-", b' '),
        Some(team) => put_number(text, u64::from(team), b' '),
    }
}

/// Puts the line of a player.
#[tactic(auto, using(crate::proofs::PutLines::four_words))]
fn put_player(text: &mut Vec<u8>, p: &Player) -> Result<(), AllocError>
    ensures { OnOk result (text.new.items ≡ text.old.items ++ line (player_words p.now)) }
{
    put(text, b"player", b' ')?;
    put_number(text, u64::from(p.rating), b' ')?;
    put_membership(text, p.team)?;
    put(text, p.name.bytes(), b'\n')
}

/// Puts what was done in a game.
#[tactic(auto, using(crate::proofs::PutLines::move_put))]
fn put_action(text: &mut Vec<u8>, action: Action) -> Result<(), AllocError>
    ensures { OnOk result (text.new.items ≡ text.old.items ++ spaced (action_words action)) }
{
    match action {
        Action::Move(m) => {
            put(text, b"move", b' ')?;
            text.extend_from_slice(write_move(m).as_bytes())
        }
        Action::Resign => text.extend_from_slice(b"resign"),
        Action::Offer => text.extend_from_slice(b"offer"),
        Action::Accept => text.extend_from_slice(b"accept"),
        Action::Decline => text.extend_from_slice(b"decline"),
        Action::Claim => text.extend_from_slice(b"claim"),
        Action::Berserk => text.extend_from_slice(b"berserk"),
    }
}

/// Puts the word of a kind of entry, and a number.
#[tactic(auto, using(crate::proofs::PutLines::two_last))]
fn put_kind(text: &mut Vec<u8>, word: &[u8], n: u64) -> Result<(), AllocError>
    ensures { OnOk result (text.new.items ≡ text.old.items ++ spaced (word.now ∷ decimal n ∷ [])) }
{
    put(text, word, b' ')?;
    put_last(text, n)
}

/// Puts what a player did in a game.
#[tactic(auto, using(crate::proofs::PutLines::act_put))]
fn put_act(text: &mut Vec<u8>, player: u32, game: u32, action: Action) -> Result<(), AllocError>
    ensures { OnOk result (text.new.items ≡ text.old.items ++ spaced (what_words (Act player game action))) }
{
    put(text, b"act", b' ')?;
    put_number(text, u64::from(player), b' ')?;
    put_number(text, u64::from(game), b' ')?;
    put_action(text, action)
}

/// Puts what an entry did.
fn put_what(text: &mut Vec<u8>, what: What) -> Result<(), AllocError>
    ensures { OnOk result (text.new.items ≡ text.old.items ++ spaced (what_words what)) }
{
    match what {
        What::Enter(player) => put_kind(text, b"enter", u64::from(player)),
        What::Pause(player) => put_kind(text, b"pause", u64::from(player)),
        What::Leave(player) => put_kind(text, b"leave", u64::from(player)),
        What::Act(player, game, action) => put_act(text, player, game, action),
        What::Tick => text.extend_from_slice(b"tick"),
        What::Wave(n) => put_kind(text, b"wave", n),
    }
}

/// Puts an entry, without the games that it lists and without the line feed.
#[tactic(auto, using(crate::proofs::PutLines::entry_put))]
fn put_entry(text: &mut Vec<u8>, e: &Entry) -> Result<(), AllocError>
    ensures { OnOk result (text.new.items ≡ text.old.items ++ spaced (entry_words e.now)) }
{
    put_number(text, e.stamp, b' ')?;
    put_number(text, u64::from(e.pass), b' ')?;
    put_what(text, e.what)
}

/// Puts a space, and the two players of a game.
#[tactic(auto, using(crate::proofs::PutLines::pair_put))]
fn put_pair(text: &mut Vec<u8>, game: &Start) -> Result<(), AllocError>
    ensures { OnOk result (text.new.items ≡ text.old.items ++ 32 ∷ pair_word game.now) }
{
    text.push(b' ')?;
    put_number(text, u64::from(game.white), b'-')?;
    put_last(text, u64::from(game.black))
}

/// Puts the games in front that are of the entry with this number, and gives those behind them.

fn put_pairs<'a>(
    text: &mut Vec<u8>,
    number: u64,
    games: &'a [Start],
) -> Result<&'a [Start], AllocError>
    ensures put { OnOk result (text.new.items ≡ text.old.items ++ pairs_text (own_of number games.now)) }
    ensures rest { IfOk result (λ rest. rest.now ≡ behind_own number games.now) }
{
    let mut rest = games;
    'pairs: while let [game, others @ ..] = rest {
        if game.entry != number {
            return Ok(rest);
        }
        put_pair(text, game)?;
        rest = others;
    }
    Ok(rest)
}

/// Puts the lines of the teams.
fn put_teams(text: &mut Vec<u8>, teams: &[Text]) -> Result<(), AllocError>
    ensures { OnOk result (text.new.items ≡ text.old.items ++ flat_map (λ name. line (team_words name)) teams.now) }
{
    for team in teams {
        put_team(text, team.bytes())?;
    }
    Ok(())
}

/// Puts the lines of the players.
fn put_players(text: &mut Vec<u8>, players: &[Player]) -> Result<(), AllocError>
    ensures { OnOk result (text.new.items ≡ text.old.items ++ flat_map (λ p. line (player_words p)) players.now) }
{
    for player in players {
        put_player(text, player)?;
    }
    Ok(())
}

/// Puts the line of an entry, with the games in front that are of it, and gives those behind them.
#[tactic(auto, using(crate::proofs::PutLines::entry_line_put))]
fn put_entry_line<'a>(
    text: &mut Vec<u8>,
    number: u64,
    e: &Entry,
    games: &'a [Start],
) -> Result<&'a [Start], AllocError>
    ensures put { OnOk result (text.new.items ≡ text.old.items ++ entry_text e.now (own_of number games.now)) }
    ensures rest { IfOk result (λ rest. rest.now ≡ behind_own number games.now) }
{
    put_entry(text, e)?;
    let rest = put_pairs(text, number, games)?;
    text.push(b'\n')?;
    Ok(rest)
}

/// Puts the lines of the entries, with the games that they list.

#[tactic(auto, unfolding(crate::specs::Writing::entries_text))]
fn put_entries(text: &mut Vec<u8>, entries: &[Entry], games: &[Start]) -> Result<(), AllocError>
    ensures { OnOk result (text.new.items ≡ text.old.items ++ entries_text 0 games.now entries.now) }
{
    let mut left = games;
    let mut rest = entries;
    let mut number = 0u64;
    'entries: while let [entry, others @ ..] = rest {
        left = put_entry_line(text, number, entry, left)?;
        rest = others;
        number += 1;
    }
    Ok(())
}

/// Puts the lines up to `begin`.

#[tactic(auto, using(crate::proofs::WrittenLines::setup_put))]
fn put_setup(text: &mut Vec<u8>, version: u32, s: &Setup) -> Result<(), AllocError>
    ensures { OnOk result (text.new.items ≡ text.old.items ++ flat_map line (setup_lines version s.now)) }
{
    put_version(text, version, s.rule)?;
    put_control(text, &s.control)?;
    put_window(text, s)?;
    put_value(text, b"wave", s.wave_ms)?;
    put_value(text, b"leaders", u64::from(s.leaders))?;
    put_teams(text, s.teams.items())?;
    put_players(text, s.players.items())?;
    put(text, b"begin", b'\n')
}

/// The text of a journal with a good setup, entries in range and what its version asks. It takes memory for the text alone.

#[tactic(auto, using(crate::proofs::WrittenLines::journal_put))]
pub fn write_journal(alloc: Global, j: &Journal) -> Result<Text, AllocError>
    requires { IsWritable j.now }
    ensures { IfOk result (λ text. text ≡ text_of j.now) }
{
    let mut text = Vec::new(alloc);
    put_setup(&mut text, j.version, &j.setup)?;
    put_entries(&mut text, j.entries.items(), j.starts.items())?;
    put(&mut text, b"end", b'\n')?;
    Ok(Text::of(text))
}

/// The line of an entry, without its line feed, as it stands in a journal of version 1: without the games that it lists.
pub fn write_entry(alloc: Global, e: &Entry) -> Result<Text, AllocError>
    ensures { IfOk result (λ text. text ≡ spaced (entry_words e.now)) }
{
    let mut text = Vec::with_capacity(alloc, 40)?;
    put_entry(&mut text, e)?;
    Ok(Text::of(text))
}
