ghost use Rattle.move_rules.specs.Laws.{LegalWordsAreMoves, MovesLeadToPositions, OthersTakeWeight, QuietMovesKeepWeight, EnPassantIsByAMove};

/// What is legal is a move: two squares of the board, and a promotion to a knight, a bishop, a rook or a queen, or to nothing. The
/// function does nothing.
pub fn legal_words_are_moves()
    ensures { LegalWordsAreMoves }
{}

/// Each legal move leads from a position that a game can have to another. It takes weight off the board where a pawn moves or
/// something is captured, and otherwise leaves it as it is; so no later move takes the former back. The function does nothing.
pub fn moves_lead_to_positions()
    ensures positions { MovesLeadToPositions }
    ensures others { OthersTakeWeight }
    ensures quiet { QuietMovesKeepWeight }
{}

/// The en passant square of a position counts exactly where some legal move captures there. The function does nothing.
pub fn en_passant_is_by_a_move()
    ensures { EnPassantIsByAMove }
{}
