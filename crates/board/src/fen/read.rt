ghost use Rattle.std.specs.Prelude.{◌≡◌, MatchResult, IfOk, IfErr, Ok};
ghost use Rattle.board.specs.declared.parts.Parts.{Parts};
ghost use Rattle.board.specs.Position.{IsPosition};
ghost use Rattle.board.specs.Fen.{fen_of};
ghost use Rattle.board.specs.FenFaults.{IsFirstFault};

use super::cut::field_at;
use super::fault::FenFault;
use super::values::{read_board, read_decimal, read_ep, read_number, read_rights, read_turn};
use crate::parts::Parts;
use crate::position::Position;

fn parse(bytes: &[u8]) -> Result<Position, FenFault>
    ensures { MatchResult result (λ p. (fen_of p ≡ bytes.now) × IsPosition p) (λ f. IsFirstFault bytes.now f) }
{
    let (field, at) = field_at(bytes, 1);
    let Some(cells) = read_board(field) else {
        return Err(FenFault { field: 1, at });
    };
    let (field, at) = field_at(bytes, 2);
    let Some(turn) = read_turn(field, &cells) else {
        return Err(FenFault { field: 2, at });
    };
    let (field, at) = field_at(bytes, 3);
    let Some(rights) = read_rights(field, &cells) else {
        return Err(FenFault { field: 3, at });
    };
    let (field, at) = field_at(bytes, 4);
    let Some(ep) = read_ep(field, &cells, turn) else {
        return Err(FenFault { field: 4, at });
    };
    let (field, at) = field_at(bytes, 5);
    let Some(half) = read_decimal(field) else {
        return Err(FenFault { field: 5, at });
    };
    let (field, at) = field_at(bytes, 6);
    let Some(number) = read_number(field) else {
        return Err(FenFault { field: 6, at });
    };
    let end = at + field.len();
    if end < bytes.len() {
        return Err(FenFault { field: 7, at: end });
    }
    Ok(Position::of(Parts {
        cells,
        turn,
        rights,
        ep,
        half,
        number,
    }))
}

/// The position that a FEN says (Forsyth-Edwards notation, section 16.1 of the PGN standard). Any other text is refused at
/// the first of its six fields that is missing or refused, for its form or for what the fields so far say, or behind the
/// sixth. The en passant square is taken whether or not a capture there is legal, since the standard writes it after every
/// double step.
pub fn read_fen(bytes: &[u8]) -> Result<Position, FenFault>
    // The text is the position's, and every position is read from its text.
    ensures spelled { IfOk result (λ p. fen_of p ≡ bytes.now) }
    ensures read { (p : Parts) → IsPosition p → fen_of p ≡ bytes.now → result ≡ Ok p }

    // The fields before the fault can stand, and with its field they cannot.
    ensures fault { IfErr result (λ f. IsFirstFault bytes.now f) }
{
    parse(bytes)
}
