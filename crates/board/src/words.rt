ghost use Rattle.std.specs.Prelude.{◌≡◌, ◌<◌, ◌≤◌, ◌+◌, ◌++◌, ◌∷◌, [], IfSome, Some, None, IsTrue};
ghost use Rattle.arrayvec.specs.ArrayString.{array_string_len};
ghost use Rattle.board.specs.Moves.{MoveWord, IsMove, can_be_promo};
ghost use Rattle.board.specs.Words.{kind_letter, square_word, promo_word, move_word};
ghost use Rattle.board.specs.Reading.{square_in, kind_in, promo_in, joined, joined_with, move_in};

use crate::moves::Move;
use crate::piece::Kind;
use crate::square::Square;
use arrayvec::ArrayString;

/// Appends an ASCII character, for which there is room.
pub(crate) fn push_byte<const N: usize>(out: &mut ArrayString<N>, b: u8)
    requires ascii { b < 128 }
    requires room { array_string_len out.old < N }
    ensures is { out.new.bytes ≡ out.old.bytes ++ b ∷ [] }
    ensures len { array_string_len out.new ≡ array_string_len out.old + 1 }
{
    out.push(b as char);
}

/// The letter of a kind: p, n, b, r, q or k.
pub(crate) fn letter_of(kind: Kind) -> u8
    ensures is { result ≡ kind_letter kind }
    ensures small { 97 < result }
    ensures ascii { result < 128 }
{
    match kind {
        Kind::Pawn => b'p',
        Kind::Knight => b'n',
        Kind::Bishop => b'b',
        Kind::Rook => b'r',
        Kind::Queen => b'q',
        Kind::King => b'k',
    }
}

/// Appends the name of a square, for which there is room.
pub(crate) fn push_square<const N: usize>(out: &mut ArrayString<N>, s: Square)
    requires { array_string_len out.old + 2 ≤ N }
    ensures { out.new.bytes ≡ out.old.bytes ++ square_word s }
{
    push_byte(out, b'a' + s.file());
    push_byte(out, b'1' + s.rank());
}

/// The word of a move: the two squares, and the letter of what a pawn becomes. No two moves have one word.
pub fn write_move(m: Move) -> ArrayString<5>
    ensures is { result.bytes ≡ move_word m }
    ensures only { (n : MoveWord) → IsMove n → move_word n ≡ result.bytes → n ≡ m }
{
    m.keeps();
    let mut out = ArrayString::new();
    push_square(&mut out, m.from);
    push_square(&mut out, m.to);
    if let Some(kind) = m.promo {
        push_byte(&mut out, letter_of(kind));
    }
    out
}

/// The square of a letter and a digit.
pub(crate) fn read_square(file: u8, rank: u8) -> Option<Square>
    ensures { result ≡ square_in file rank }
{
    match (file, rank) {
        (b'a'..=b'h', b'1'..=b'8') => Some(Square::at(file - b'a', rank - b'1')),
        _ => None,
    }
}

/// The kind of a letter, or None.
pub(crate) fn kind_of(letter: u8) -> Option<Kind>
    ensures { result ≡ kind_in letter }
{
    match letter {
        b'p' => Some(Kind::Pawn),
        b'n' => Some(Kind::Knight),
        b'b' => Some(Kind::Bishop),
        b'r' => Some(Kind::Rook),
        b'q' => Some(Kind::Queen),
        b'k' => Some(Kind::King),
        _ => None,
    }
}

/// What a pawn becomes, by its letter.
fn read_promotion(letter: u8) -> Option<Kind>
    ensures is { result ≡ promo_in letter }
    ensures can { IsTrue (can_be_promo result) }
{
    match kind_of(letter) {
        Some(Kind::Pawn | Kind::King) => None,
        kind => kind,
    }
}

fn join(from: Option<Square>, to: Option<Square>, promo: Option<Kind>) -> Option<Move>
    requires { IsTrue (can_be_promo promo) }
    ensures { result ≡ joined from to promo }
{
    Some(Move {
        from: from?,
        to: to?,
        promo,
    })
}

fn parse_move(bytes: &[u8]) -> Option<Move>
    ensures { result ≡ move_in bytes.now }
{
    match bytes {
        [a, b, c, d] => join(read_square(*a, *b), read_square(*c, *d), None),
        [a, b, c, d, letter] => {
            let kind = read_promotion(*letter)?;
            join(read_square(*a, *b), read_square(*c, *d), Some(kind))
        }
        _ => None,
    }
}

/// The move of a word, or None where the bytes are no move word.
pub fn read_move(bytes: &[u8]) -> Option<Move>
    ensures is { result ≡ move_in bytes.now }
    ensures spelled { IfSome result (λ m. move_word m ≡ bytes.now) }
    ensures read { (m : MoveWord) → IsMove m → move_word m ≡ bytes.now → result ≡ Some m }
{
    parse_move(bytes)
}
