//! Words and names in the bodies.

ghost use Rattle.std.specs.Prelude.{◌≡◌, ◌<◌, length};
ghost use Rattle.entries.specs.Ranges.{IsGood};
ghost use Rattle.entries.specs.Names.{IsName};
ghost use Rattle.api.specs.Bodies.{player_name, player_rating, team_name, phase_word, seat_word, game_of_seat, colour_word, cause_word};

use arena_rules::{Phase, PlayerSeat};
use board::Colour;
use entries::Setup;
use game_room::Cause;

/// The name of a player.
pub(crate) fn player_name(setup: &Setup, player: u32) -> &str
    requires good { IsGood setup.now }
    requires player { player < length setup.now.players }
    ensures { result.now ≡ player_name setup.now player }
{
    text_of(setup.players.items()[player as usize].name.bytes())
}

/// The rating of a player.
pub(crate) fn player_rating(setup: &Setup, player: u32) -> u32
    requires { player < length setup.now.players }
    ensures { result ≡ player_rating setup.now player }
{
    setup.players.items()[player as usize].rating
}

/// The name of a team.
pub(crate) fn team_name(setup: &Setup, team: u32) -> &str
    requires good { IsGood setup.now }
    requires team { team < length setup.now.teams }
    ensures { result.now ≡ team_name setup.now team }
{
    text_of(setup.teams.items()[team as usize].bytes())
}

// A name as text: its bytes are ASCII.
fn text_of(name: &[u8]) -> &str
    requires { IsName name.now }
    ensures { result.now ≡ name.now }
{
    match str::from_utf8(name) {
        Ok(text) => text,
        Err(_) => unreachable!(),
    }
}

pub(crate) fn phase_word(phase: Phase) -> &'static str
    ensures { result.now ≡ phase_word phase }
{
    match phase {
        Phase::Before => "before",
        Phase::Running => "running",
        Phase::Over => "over",
    }
}

pub(crate) fn seat_word(seat: PlayerSeat) -> &'static str
    ensures { result.now ≡ seat_word seat }
{
    match seat {
        PlayerSeat::Absent => "absent",
        PlayerSeat::Idle => "idle",
        PlayerSeat::Paused => "paused",
        PlayerSeat::Playing(_) => "playing",
        PlayerSeat::Left => "left",
    }
}

/// The game that somebody plays.
pub(crate) fn game_of_seat(seat: PlayerSeat) -> Option<u32>
    ensures { result ≡ game_of_seat seat }
{
    match seat {
        PlayerSeat::Playing(game) => Some(game),
        PlayerSeat::Absent | PlayerSeat::Idle | PlayerSeat::Paused | PlayerSeat::Left => None,
    }
}

pub(crate) fn colour_word(colour: Colour) -> &'static str
    ensures { result.now ≡ colour_word colour }
{
    match colour {
        Colour::White => "white",
        Colour::Black => "black",
    }
}

pub(crate) fn cause_word(cause: Cause) -> &'static str
    ensures { result.now ≡ cause_word cause }
{
    match cause {
        Cause::Mate => "mate",
        Cause::Stalemate => "stalemate",
        Cause::Resign => "resign",
        Cause::Agreed => "agreed",
        Cause::Threefold => "threefold",
        Cause::Fifty => "fifty",
        Cause::Fivefold => "fivefold",
        Cause::SeventyFive => "seventyfive",
        Cause::Dead => "dead",
        Cause::Flag => "flag",
        Cause::NoShow => "noshow",
    }
}
