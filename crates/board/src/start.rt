ghost use Rattle.std.specs.Prelude.{◌≡◌};
ghost use Rattle.board.specs.Start.{man, officers, pawns, start_parts};

use crate::piece::{Colour, Kind, Piece};

fn man(colour: Colour, kind: Kind) -> Option<Piece>
    ensures { result ≡ man colour kind }
{
    Some(Piece { colour, kind })
}

fn officers(colour: Colour) -> [Option<Piece>; 8]
    ensures { result ≡ officers colour }
{
    [
        man(colour, Kind::Rook),
        man(colour, Kind::Knight),
        man(colour, Kind::Bishop),
        man(colour, Kind::Queen),
        man(colour, Kind::King),
        man(colour, Kind::Bishop),
        man(colour, Kind::Knight),
        man(colour, Kind::Rook),
    ]
}

fn pawns(colour: Colour) -> [Option<Piece>; 8]
    ensures { result ≡ pawns colour }
{
    [man(colour, Kind::Pawn); 8]
}

/// What stands on each square at the start.
pub(crate) fn start_cells() -> [Option<Piece>; 64]
    ensures { result ≡ start_parts.cells }
{
    let mut cells = [None; 64];
    cells[0..8].copy_from_slice(&officers(Colour::White));
    cells[8..16].copy_from_slice(&pawns(Colour::White));
    cells[48..56].copy_from_slice(&pawns(Colour::Black));
    cells[56..64].copy_from_slice(&officers(Colour::Black));
    cells
}
