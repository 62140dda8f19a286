//! A game, read.

ghost use Rattle.std.specs.Prelude.{◌≡◌, ◌≤◌, ◌<◌, ◌+◌, ◌-◌, ◌^◌, ℕ, List, None, false, Ok, IsTrue, IfOk, OnOk, MatchResult, length};
ghost use Rattle.std.specs.List.{All};
ghost use Rattle.board.specs.Moves.{IsMove};
ghost use Rattle.move_rules.specs.Legal.{legal};
ghost use Rattle.pgn_text.specs.Games.{IsGame, is_tag, is_start_name};
ghost use Rattle.pgn_text.specs.declared.game.PgnResult.{PgnResult};
ghost use Rattle.pgn_text.specs.declared.game.PgnGame.{PgnGame};
ghost use Rattle.pgn_text.specs.Pgn.{pgn_of};
ghost use Rattle.pgn_text.specs.Tokens.{word_said};
ghost use Rattle.pgn_text.specs.declared.runs.Run.TheVariants.{Token};
ghost use Rattle.pgn_text.specs.Runs.{run_len};
ghost use Rattle.pgn_text.specs.PgnReading.{GoesOn, Shows, Sofar, fresh, with_token, with_tag, with_move, game_of, fault_at, comment_in, tag_item, token_read, token_item, item, ended, run, turned, game_in};

use crate::fault::{PgnCause, PgnFault, ReadPgnFault};
use crate::game::{PgnGame, PgnResult, Tag};
use crate::runs::{Run, end_of, is_skipped, run_len};
use crate::tag_line::tag_in;
use crate::word::{Said, number_len, word_said};
use board::{Move, Position};
use conn::{List, Text};
use move_rules::make;
use std::alloc::{AllocError, Global};
use std::marker::Model;

/// What has been read so far.
#[derive(Drop)]
pub(crate) struct Reader {
    tags: Vec<Tag>,
    moves: Vec<Move>,
    position: Position,
    /// Whether a token was read.
    began: bool,
}

impl Model for Reader {
    ghost use Rattle.pgn_text.specs.PgnReading.{Sofar};

    ghost Value = { Sofar };

    ghost use Rattle.pgn_text.specs.PgnReading.{IsReadable};

    ghost view = { λ r. record { tags = r.tags.items; moves = r.moves.items; position = r.position; began = r.began } };

    ghost invariant = { λ r. IsReadable (record { tags = r.tags.items; moves = r.moves.items; position = r.position; began = r.began }) };
}

impl Reader {
    /// Nothing.
    fn new(alloc: Global) -> Reader
        ensures { result ≡ fresh }
    {
        Reader {
            tags: Vec::new(alloc),
            moves: Vec::new(alloc),
            position: Position::start(),
            began: false,
        }
    }

    /// Puts a tag behind the others.
    #[tactic(auto, using(crate::proofs::ReadGames::tag_more))]
    fn put_tag(&mut self, alloc: Global, name: &[u8], value: &[u8]) -> Result<(), AllocError>
        requires tag { IsTrue (is_tag (record { name = name.now; value = value.now })) }
        requires plain { is_start_name name.now ≡ false }
        ensures { OnOk result (self.new ≡ with_tag self.old (record { name = name.now; value = value.now })) }
    {
        let name = Text::of(Vec::from_slice(alloc, name)?);
        let value = Text::of(Vec::from_slice(alloc, value)?);
        self.tags.push(Tag { name, value })?;
        Ok(())
    }

    /// Puts a move behind the others.
    #[tactic(auto, using(crate::proofs::ReadGames::move_more))]
    fn put_move(&mut self, m: Move) -> Result<(), AllocError>
        requires { IsTrue (legal self.old.position m) }
        ensures { OnOk result (self.new ≡ with_move self.old m) }
    {
        self.moves.push(m)?;
        self.position = make(&self.position, m);
        self.began = true;
        Ok(())
    }

    /// Notes that a token was read.
    fn put_token(&mut self)
        ensures { self.new ≡ with_token self.old }
    {
        self.began = true;
    }

    /// The game with this result.
    fn into_game(self, ending: PgnResult) -> PgnGame
        ensures is { result ≡ game_of self ending }
        ensures game { IsGame result }
    {
        PgnGame {
            tags: List::of(self.tags),
            moves: List::of(self.moves),
            result: ending,
        }
    }
}

fn fault_at(total: usize, rest: &[u8], cause: PgnCause) -> PgnFault
    requires { length rest.now ≤ total }
    ensures { result ≡ fault_at total rest.now cause }
{
    PgnFault {
        at: total - rest.len(),
        cause,
    }
}

/// Passes over a comment, and gives what stands behind it.
#[tactic(auto, unfolding(crate::specs::PgnReading::comment_in))]
fn comment_in(total: usize, text: &[u8]) -> Result<&[u8], PgnFault>
    ensures is { Shows (λ rest. rest.now) result (comment_in total text.now) }
    ensures shorter { IfOk result (λ rest. length rest.now < length text.now) }
{
    match end_of(Run::Comment, text) {
        None => Err(fault_at(total, &[], PgnCause::Result)),
        Some(at) => Ok(&text[at + 1..]),
    }
}

fn is_start_name(name: &[u8]) -> bool
    ensures { result ≡ is_start_name name.now }
{
    name == b"FEN".as_slice() || name == b"SetUp".as_slice()
}

/// Reads the line of a tag, and gives what stands behind it.
#[tactic(auto, unfolding(crate::specs::PgnReading::tag_item))]
fn tag_item<'a>(
    alloc: Global,
    game: &mut Reader,
    total: usize,
    text: &'a [u8],
) -> Result<&'a [u8], ReadPgnFault>
    requires { length text.now ≤ total }
    ensures is { GoesOn (λ rest. Ok (game.new, None, rest.now)) result (tag_item total game.old text.now) }
    ensures shorter { IfOk result (λ rest. length rest.now < length text.now) }
{
    let Some(line) = tag_in(text) else {
        return Err(fault_at(total, text, PgnCause::Tag).into());
    };
    if is_start_name(line.name) {
        return Err(fault_at(total, text, PgnCause::Start).into());
    }
    game.put_tag(alloc, line.name, line.value)?;
    Ok(line.behind)
}

/// Reads a token that is no number.
fn word_item(
    game: &mut Reader,
    total: usize,
    text: &[u8],
    word: &[u8],
) -> Result<Option<PgnResult>, ReadPgnFault>
    requires { length text.now ≤ total }
    ensures { (rest : List ℕ) → GoesOn (λ over. Ok (game.new, over, rest)) result (token_read total game.old text.now rest (word_said game.old.position word.now)) }
{
    match word_said(&game.position, word) {
        Said::Passed => {
            game.put_token();
            Ok(None)
        }
        Said::Played(m) => {
            game.put_move(m)?;
            Ok(None)
        }
        Said::Over(ending) => {
            game.put_token();
            Ok(Some(ending))
        }
        Said::Wrong(cause) => Err(fault_at(total, text, cause).into()),
    }
}

/// Reads a token, and gives the result if it is one, and what stands behind it.
#[tactic(auto, unfolding(crate::specs::PgnReading::token_item))]
fn token_item<'a>(
    game: &mut Reader,
    total: usize,
    text: &'a [u8],
) -> Result<(Option<PgnResult>, &'a [u8]), ReadPgnFault>
    requires within { length text.now ≤ total }
    requires word { 0 < run_len Token text.now }
    ensures is { GoesOn (λ x. Ok (game.new, x.0, x.1.now)) result (token_item total game.old text.now) }
    ensures shorter { IfOk result (λ x. length x.1.now < length text.now) }
{
    let number = number_len(text);
    if number == 0 {
        let (word, rest) = text.split_at(run_len(Run::Token, text));
        let over = word_item(game, total, text, word)?;
        Ok((over, rest))
    } else {
        game.put_token();
        Ok((None, &text[number..]))
    }
}

/// Reads what stands in front, and gives the result if it is one, and what stands behind it.
#[tactic(auto, unfolding(crate::specs::PgnReading::item))]
fn item<'a>(
    alloc: Global,
    game: &mut Reader,
    total: usize,
    text: &'a [u8],
) -> Result<(Option<PgnResult>, &'a [u8]), ReadPgnFault>
    requires within { length text.now ≤ total }
    requires some { 0 < length text.now }
    ensures is { GoesOn (λ x. Ok (game.new, x.0, x.1.now)) result (item total game.old text.now) }
    ensures shorter { IfOk result (λ x. length x.1.now < length text.now) }
{
    let [first, tail @ ..] = text else {
        return Ok((None, text));
    };
    if is_skipped(*first) {
        Ok((None, tail))
    } else if *first == b'{' {
        let rest = comment_in(total, tail)?;
        Ok((None, rest))
    } else if *first == b'[' && !game.began {
        let rest = tag_item(alloc, game, total, text)?;
        Ok((None, rest))
    } else {
        token_item(game, total, text)
    }
}

/// Whether only skipped bytes stand behind the result: if not, the fault.
#[tactic(auto, unfolding(crate::specs::PgnReading::ended))]
fn end(total: usize, rest: &[u8]) -> Result<(), PgnFault>
    requires { length rest.now ≤ total }
    ensures { (s : Sofar) (r : PgnResult) → Shows (λ _. game_of s r) result (ended total s r rest.now) }
{
    let behind = &rest[run_len(Run::Skipped, rest)..];
    if behind.is_empty() {
        Ok(())
    } else {
        Err(fault_at(total, behind, PgnCause::After))
    }
}

/// Reads what stands in front, and behind a result to the end.
fn turn<'a>(
    alloc: Global,
    game: &mut Reader,
    total: usize,
    text: &'a [u8],
) -> Result<(Option<PgnResult>, &'a [u8]), ReadPgnFault>
    requires within { length text.now ≤ total }
    requires some { 0 < length text.now }
    ensures is { (k : ℕ) → length text.now < k → GoesOn (λ x. turned total (k - 1) game.new x.0 x.1.now) result (run total k game.old text.now) }
    ensures shorter { IfOk result (λ x. length x.1.now < length text.now) }
{
    match item(alloc, game, total, text) {
        Err(fault) => Err(fault),
        Ok((None, rest)) => Ok((None, rest)),
        Ok((Some(ending), rest)) => match end(total, rest) {
            Err(fault) => Err(ReadPgnFault::Bad(fault)),
            Ok(()) => Ok((Some(ending), rest)),
        },
    }
}

/// Reads to the end, and gives the result.
fn read_all(alloc: Global, game: &mut Reader, bytes: &[u8]) -> Result<PgnResult, ReadPgnFault>
    ensures { GoesOn (λ r. Ok (game_of game.new r)) result (run (length bytes.now) (length bytes.now + 1) game.old bytes.now) }
{
    let mut rest = bytes;
    'items: while !rest.is_empty() {
        let (over, behind) = turn(alloc, game, bytes.len(), rest)?;
        rest = behind;
        if let Some(ending) = over {
            return Ok(ending);
        }
    }
    Err(fault_at(bytes.len(), rest, PgnCause::Result).into())
}

#[tactic(auto, unfolding(crate::specs::PgnReading::game_in))]
fn parse(alloc: Global, bytes: &[u8]) -> Result<PgnGame, ReadPgnFault>
    ensures is { GoesOn (λ g. Ok g) result (game_in bytes.now) }
    ensures game { IfOk result IsGame }
{
    let mut game = Reader::new(alloc);
    let ending = read_all(alloc, &mut game, bytes)?;
    Ok(game.into_game(ending))
}

/// The game of a text in the form of PGN (PGN standard, section 8), from the usual start: tags, moves in SAN, and a result.
/// Comments in braces, numbers, `$` with digits and one or two of `!` and `?` behind a move are passed over. `Bad` names the
/// first fault in the bytes and where it stands. The cost is that of looking at each byte once, of up to 64 questions of
/// legality for each move, and of the memory for the tags and the moves.
#[tactic(auto, using(crate::proofs::WrittenGames::again))]
pub fn read_pgn(alloc: Global, bytes: &[u8]) -> Result<PgnGame, ReadPgnFault>
    // What is answered is the game of the text, or its first fault.
    ensures is { GoesOn (λ g. Ok g) result (game_in bytes.now) }

    // What is read can be written.
    ensures game { IfOk result IsGame }

    // What was written is read as the same game, unless memory runs out.
    ensures again { (g : PgnGame) → IsGame g → All IsMove g.moves → length g.moves < 2 ^ 63 → pgn_of g ≡ bytes.now
        → MatchResult result (λ read. read ≡ g) (λ fault. fault ≡ ReadPgnFault.OutOfMemory) }
{
    parse(alloc, bytes)
}

/// A written game is read as the same game, by the definitions of both. The call does nothing.
pub fn written_is_read()
    ensures { (g : PgnGame) → IsGame g → All IsMove g.moves → length g.moves < 2 ^ 63 → game_in (pgn_of g) ≡ Ok g }
{}
