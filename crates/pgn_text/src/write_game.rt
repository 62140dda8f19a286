//! A game, written.

ghost use Rattle.std.specs.Prelude.{◌≡◌, ◌+◌, ◌<◌, ◌≤◌, ◌^◌, ◌∷◌, ◌++◌, [], IfOk, OnOk, IsTrue, length};
ghost use Rattle.std.specs.List.{flat_map};
ghost use Rattle.board.specs.Start.{start_parts};
ghost use Rattle.move_rules.specs.Legal.{legal};
ghost use Rattle.pgn_text.specs.San.{san};
ghost use Rattle.pgn_text.specs.Games.{IsGame, is_line};
ghost use Rattle.pgn_text.specs.Pgn.{tag_line, result_text, number_tokens, next_number, tokens_from, separator, column_after, laid, Lays, pgn_of};

use crate::game::{PgnGame, PgnResult, Tag};
use crate::written::write_san;
use arrayvec::ArrayString;
use board::{Colour, Move, Position};
use conn::Text;
use itoa::Buffer;
use move_rules::make;
use std::alloc::{AllocError, Global};

fn put_tag(text: &mut Vec<u8>, tag: &Tag) -> Result<(), AllocError>
    ensures { OnOk result (text.new.items ≡ text.old.items ++ tag_line tag.now) }
{
    text.push(b'[')?;
    text.extend_from_slice(tag.name.bytes())?;
    text.extend_from_slice(b" \"")?;
    text.extend_from_slice(tag.value.bytes())?;
    text.extend_from_slice(b"\"]\n")
}

fn put_tags(text: &mut Vec<u8>, tags: &[Tag]) -> Result<(), AllocError>
    ensures { OnOk result (text.new.items ≡ text.old.items ++ flat_map tag_line tags.now) }
{
    for tag in tags {
        put_tag(text, tag)?;
    }
    Ok(())
}

/// Puts a token behind what stands on the line, of which so many bytes are there, or on the next line, and gives how many
/// bytes the line has then.
fn put_bytes(text: &mut Vec<u8>, column: usize, token: &[u8]) -> Result<usize, AllocError>
    requires line { column ≤ 79 }
    requires short { length token.now ≤ 40 }
    ensures put { OnOk result (text.new.items ≡ text.old.items ++ (separator column token.now ++ token.now)) }
    ensures column { IfOk result (λ c. c ≡ column_after column token.now) }
    ensures line { IfOk result (λ c. c ≤ 79) }
{
    if column == 0 {
        text.extend_from_slice(token)?;
        return Ok(token.len());
    }
    let longer = column + 1 + token.len();
    if longer <= 79 {
        text.push(b' ')?;
        text.extend_from_slice(token)?;
        Ok(longer)
    } else {
        text.push(b'\n')?;
        text.extend_from_slice(token)?;
        Ok(token.len())
    }
}

/// The same, by what the further tokens come to.
#[tactic(auto, using(crate::proofs::Laying::token_laid))]
fn put_token(text: &mut Vec<u8>, column: usize, token: &[u8]) -> Result<usize, AllocError>
    requires line { column ≤ 79 }
    requires short { length token.now ≤ 40 }
    ensures put { IfOk result (λ c. Lays text.old.items text.new.items column c (token.now ∷ [])) }
    ensures line { IfOk result (λ c. c ≤ 79) }
{
    put_bytes(text, column, token)
}

/// Puts the number of a move of White's.
fn put_number(
    text: &mut Vec<u8>,
    column: usize,
    turn: Colour,
    number: u64,
) -> Result<usize, AllocError>
    requires { column ≤ 79 }
    ensures put { IfOk result (λ c. Lays text.old.items text.new.items column c (number_tokens turn number)) }
    ensures line { IfOk result (λ c. c ≤ 79) }
{
    match turn {
        Colour::White => {
            let mut buffer = Buffer::new();
            let mut token = ArrayString::<24>::new();
            token.push_str(buffer.format(number));
            token.push('.');
            put_token(text, column, token.as_bytes())
        }
        Colour::Black => Ok(column),
    }
}

/// Puts a move, with its number if it is White's.
fn put_move(
    text: &mut Vec<u8>,
    column: usize,
    number: u64,
    p: &Position,
    m: Move,
) -> Result<usize, AllocError>
    requires line { column ≤ 79 }
    requires legal { IsTrue (legal p.now m) }
    ensures put { IfOk result (λ c. Lays text.old.items text.new.items column c (number_tokens p.now.turn number ++ san p.now m ∷ [])) }
    ensures line { IfOk result (λ c. c ≤ 79) }
{
    let column = put_number(text, column, p.turn(), number)?;
    put_token(text, column, write_san(p, m).as_bytes())
}

fn next_number(turn: Colour, number: u64) -> u64
    requires { number < 2 ^ 63 }
    ensures { result ≡ next_number turn number }
{
    match turn {
        Colour::White => number,
        Colour::Black => number + 1,
    }
}

/// The last token of a game's text.
pub fn result_text(ending: PgnResult) -> &'static str
    ensures is { result.now ≡ result_text ending }
    ensures short { length result.now ≤ 7 }
{
    match ending {
        PgnResult::White => "1-0",
        PgnResult::Black => "0-1",
        PgnResult::Draw => "1/2-1/2",
        PgnResult::Unknown => "*",
    }
}

/// Puts the moves from the start, and the result.
#[tactic(auto, unfolding(crate::specs::Games::is_line, crate::specs::Pgn::tokens_from))]
fn put_moves(text: &mut Vec<u8>, moves: &[Move], ending: PgnResult) -> Result<(), AllocError>
    requires { IsTrue (is_line start_parts moves.now) }
    ensures { OnOk result (text.new.items ≡ text.old.items ++ laid 0 (tokens_from 1 start_parts moves.now ending)) }
{
    let mut position = Position::start();
    let mut number = 1u64;
    let mut column = 0usize;
    let mut rest = moves;
    'moves: while let [m, others @ ..] = rest {
        column = put_move(text, column, number, &position, *m)?;
        number = next_number(position.turn(), number);
        position = make(&position, *m);
        rest = others;
    }
    put_token(text, column, result_text(ending).as_bytes())?;
    Ok(())
}

/// The text of a game (PGN standard, section 8): its tags, an empty line, the moves in SAN with their numbers and the result
/// on lines of at most 79 bytes, and an empty line. It takes memory for the text alone.
#[tactic(auto, unfolding(crate::specs::Pgn::pgn_of))]
pub fn write_pgn(alloc: Global, g: &PgnGame) -> Result<Text, AllocError>
    requires { IsGame g.now }
    ensures { IfOk result (λ text. text ≡ pgn_of g.now) }
{
    let mut text = Vec::new(alloc);
    put_tags(&mut text, g.tags.items())?;
    text.push(b'\n')?;
    put_moves(&mut text, g.moves.items(), g.result)?;
    text.extend_from_slice(b"\n\n")?;
    Ok(Text::of(text))
}
