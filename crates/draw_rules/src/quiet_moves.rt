ghost use Rattle.std.specs.Prelude.{◌≤◌, ◌↔◌, IsTrue};

use board::Position;

/// Whether for 50 moves of each side or more no pawn has moved and nothing was captured, so that a player may claim a draw
/// (FIDE Laws of Chess, Article 9.3.2).
pub fn fifty(p: &Position) -> bool
    ensures { IsTrue result ↔ (100 ≤ p.now.half) }
{
    p.half() >= 100
}

/// Whether for 75 moves of each side or more no pawn has moved and nothing was captured, so that the game is drawn (FIDE Laws
/// of Chess, Article 9.6.2).
pub fn seventy_five(p: &Position) -> bool
    ensures { IsTrue result ↔ (150 ≤ p.now.half) }
{
    p.half() >= 150
}
