//! A move, read.

ghost use Rattle.std.specs.Prelude.{◌≡◌, ◌<◌, ◌++◌, ◌∷◌, [], ℕ, length, List, true, false, IfSome, IfNone, Option, None, Some, IsTrue, option_map};
ghost use Rattle.board.specs.Moves.{MoveWord, can_be_promo};
ghost use Rattle.board.specs.declared.piece.Kind.{Kind};
ghost use Rattle.move_rules.specs.Legal.{legal};
ghost use Rattle.move_rules.specs.Lists.{move_of};
ghost use Rattle.pgn_text.specs.San.{letter};
ghost use Rattle.pgn_text.specs.Reading.{Names, TakesSign, LeavesText, TakesPromotion, LeavesTarget, FindsTarget, spells, is_named, origin_in, san_in};

use crate::written::{plain, write_san};
use board::{Kind, Move, Position, Square};
use move_rules::is_legal;

/// The bytes without a sign at their end.
fn unsigned(bytes: &[u8]) -> &[u8]
    ensures signed { TakesSign bytes.now result.now }
    ensures plain { LeavesText bytes.now result.now }
{
    match bytes.split_last() {
        Some((b'+' | b'#', front)) => front,
        _ => bytes,
    }
}

/// What a pawn becomes, by its capital letter.
fn promotion_of(byte: u8) -> Option<Kind>
    ensures is { (k : Kind) → IsTrue (can_be_promo (Some k)) → byte ≡ letter k → result ≡ Some k }
    ensures can { IsTrue (can_be_promo result) }
{
    match byte {
        b'N' => Some(Kind::Knight),
        b'B' => Some(Kind::Bishop),
        b'R' => Some(Kind::Rook),
        b'Q' => Some(Kind::Queen),
        _ => None,
    }
}

/// The last two bytes, and those before them.
fn last_two(bytes: &[u8]) -> Option<(&[u8], u8, u8)>
    ensures two { IfSome result (λ x. bytes.now ≡ x.0.now ++ x.1 ∷ x.2 ∷ []) }
    ensures fewer { IfNone result (length bytes.now < 2) }
{
    let (last, front) = bytes.split_last()?;
    let (first, front) = front.split_last()?;
    Some((front, *first, *last))
}

/// The bytes before a promotion, and what the pawn becomes, where these are the last two bytes and those before them.
fn behind_mark<'a>(
    bytes: &'a [u8],
    front: &'a [u8],
    mark: u8,
    letter: u8,
) -> (&'a [u8], Option<Kind>)
    requires { bytes.now ≡ front.now ++ mark ∷ letter ∷ [] }
    ensures some { TakesPromotion bytes.now result.0.now result.1 }
    ensures none { LeavesTarget bytes.now result.0.now result.1 }
    ensures can { IsTrue (can_be_promo result.1) }
{
    if mark == b'=' {
        (front, promotion_of(letter))
    } else {
        (bytes, None)
    }
}

/// The bytes before a promotion, and what the pawn becomes.
fn promoted(bytes: &[u8]) -> (&[u8], Option<Kind>)
    ensures some { TakesPromotion bytes.now result.0.now result.1 }
    ensures none { LeavesTarget bytes.now result.0.now result.1 }
    ensures can { IsTrue (can_be_promo result.1) }
{
    match last_two(bytes) {
        None => (bytes, None),
        Some((front, mark, letter)) => behind_mark(bytes, front, mark, letter),
    }
}

/// The square that the bytes end in.
fn target(bytes: &[u8]) -> Option<Square>
    ensures { FindsTarget bytes.now result }
{
    let (rank, front) = bytes.split_last()?;
    let (file, _) = front.split_last()?;
    match (*file, *rank) {
        (b'a'..=b'h', b'1'..=b'8') => Some(Square::at(*file - b'a', *rank - b'1')),
        _ => None,
    }
}

/// Where a move with this text goes, and what a pawn becomes there.
fn goal(p: &Position, bytes: &[u8]) -> Option<(Square, Option<Kind>)>
    ensures is { (m : MoveWord) → Names p.now bytes.now m → result ≡ Some (m.to, m.promo) }
    ensures can { IfSome result (λ goal. IsTrue (can_be_promo goal.1)) }
{
    let text = unsigned(bytes);
    let home = p.turn().home().index();
    if text == b"O-O".as_slice() {
        return Some((Square::of(home + 6), None));
    }
    if text == b"O-O-O".as_slice() {
        return Some((Square::of(home + 2), None));
    }
    let (text, promo) = promoted(text);
    Some((target(text)?, promo))
}

/// Whether the bytes are the SAN of this legal move, with or without the sign.
#[tactic(auto, unfolding(crate::specs::Reading::spells))]
fn spells(p: &Position, m: Move, bytes: &[u8]) -> bool
    requires { IsTrue (legal p.now m) }
    ensures { result ≡ spells p.now bytes.now m }
{
    bytes == plain(p, m).as_bytes() || bytes == write_san(p, m).as_bytes()
}

/// Whether the move from this square is legal and has these bytes.
fn is_named(p: &Position, bytes: &[u8], from: Square, to: Square, promo: Option<Kind>) -> bool
    requires { IsTrue (can_be_promo promo) }
    ensures { result ≡ is_named p.now bytes.now (move_of from to promo) }
{
    let m = Move { from, to, promo };
    is_legal(p, m) && spells(p, m, bytes)
}

/// The square from which a move to this one has these bytes.
#[tactic(auto, unfolding(crate::specs::Reading::origin_in))]
fn origin(p: &Position, bytes: &[u8], to: Square, promo: Option<Kind>) -> Option<u8>
    requires { IsTrue (can_be_promo promo) }
    ensures { result ≡ origin_in p.now bytes.now to promo }
{
    (0..64).find(|from| is_named(p, bytes, Square::of(*from), to, promo))
}

/// The legal move that has these bytes as its SAN, with its sign or with none. None comes exactly where no legal move has
/// them: a SAN with a sign that is not its own names no move, nor one that tells a piece apart where nothing else goes
/// there. It takes no memory.
pub fn read_san(p: &Position, bytes: &[u8]) -> Option<Move>
    ensures named { IfSome result (Names p.now bytes.now) }
    ensures none { IfNone result ((m : MoveWord) → ¬ (Names p.now bytes.now m)) }
    ensures is { result ≡ san_in p.now bytes.now }
{
    let (to, promo) = goal(p, bytes)?;
    let from = origin(p, bytes, to, promo)?;
    let m = Move {
        from: Square::of(from),
        to,
        promo,
    };
    m.keeps();
    Some(m)
}
