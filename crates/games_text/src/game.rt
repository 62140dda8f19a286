ghost use Rattle.std.specs.Prelude.{◌≡◌, ◌<◌, ◌++◌, ◌∷◌, [], IfOk, OnOk, length, take};
ghost use Rattle.games_text.specs.GameTexts.{result_of, tag, site_tags, player_tags, tags_of, game_with};

use crate::ended::Ended;
use board::{Colour, Move};
use conn::{List, Text};
use entries::Player;
use itoa::Buffer;
use pgn_text::{PgnGame, PgnResult, Tag, result_text};
use std::alloc::{AllocError, Global};

// The result of a game that this side won, or nobody.
fn result_of(winner: Option<Colour>) -> PgnResult
    ensures { result ≡ result_of winner }
{
    match winner {
        None => PgnResult::Draw,
        Some(Colour::White) => PgnResult::White,
        Some(Colour::Black) => PgnResult::Black,
    }
}

fn text_of(alloc: Global, bytes: &[u8]) -> Result<Text, AllocError>
    ensures { IfOk result (λ text. text ≡ bytes.now) }
{
    let bytes = Vec::from_slice(alloc, bytes)?;
    Ok(Text::of(bytes))
}

fn tag(alloc: Global, name: &[u8], value: &[u8]) -> Result<Tag, AllocError>
    ensures { IfOk result (λ made. made ≡ tag name.now value.now) }
{
    let name = text_of(alloc, name)?;
    let value = text_of(alloc, value)?;
    Ok(Tag { name, value })
}

// Puts a tag behind the others.
fn put_tag(alloc: Global, tags: &mut Vec<Tag>, name: &[u8], value: &[u8]) -> Result<(), AllocError>
    ensures { OnOk result (tags.new.items ≡ tags.old.items ++ tag name.now value.now ∷ []) }
{
    let made = tag(alloc, name, value)?;
    tags.push(made)?;
    Ok(())
}

// Puts what is said of no place, no date and the game's number.
fn put_site(alloc: Global, tags: &mut Vec<Tag>, id: u32) -> Result<(), AllocError>
    ensures { OnOk result (tags.new.items ≡ tags.old.items ++ site_tags id) }
{
    let mut buffer = Buffer::new();
    put_tag(alloc, tags, b"Event", b"Arena")?;
    put_tag(alloc, tags, b"Site", b"?")?;
    put_tag(alloc, tags, b"Date", b"????.??.??")?;
    put_tag(alloc, tags, b"Round", buffer.format(id).as_bytes())
}

// Puts who played, and how it ended.
fn put_players(
    alloc: Global,
    tags: &mut Vec<Tag>,
    white: &Player,
    black: &Player,
    ending: PgnResult,
) -> Result<(), AllocError>
    ensures { OnOk result (tags.new.items ≡ tags.old.items ++ player_tags white.now.name black.now.name ending) }
{
    put_tag(alloc, tags, b"White", white.name.bytes())?;
    put_tag(alloc, tags, b"Black", black.name.bytes())?;
    put_tag(alloc, tags, b"Result", result_text(ending).as_bytes())
}

fn put_tags(
    alloc: Global,
    tags: &mut Vec<Tag>,
    players: &[Player],
    x: &Ended,
) -> Result<(), AllocError>
    requires white { x.now.white < length players.now }
    requires black { x.now.black < length players.now }
    ensures { OnOk result (tags.new.items ≡ tags.old.items ++ tags_of players.now x.now) }
{
    put_site(alloc, tags, x.id)?;
    let (white, black) = (&players[x.white as usize], &players[x.black as usize]);
    put_players(alloc, tags, white, black, result_of(x.outcome.winner))
}

/// The game that is told so, with these moves. It fails only for want of memory.
pub fn game_with(
    alloc: Global,
    players: &[Player],
    x: &Ended,
    moves: Vec<Move>,
) -> Result<PgnGame, AllocError>
    requires white { x.now.white < length players.now }
    requires black { x.now.black < length players.now }
    ensures { IfOk result (λ game. game ≡ game_with players.now x.now moves.items) }
{
    let mut tags = Vec::new(alloc);
    put_tags(alloc, &mut tags, players, x)?;
    Ok(PgnGame {
        tags: List::of(tags),
        moves: List::of(moves),
        result: result_of(x.outcome.winner),
    })
}
