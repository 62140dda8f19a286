ghost use Rattle.game_line.specs.Below.{LawsOfMoves};
ghost use Rattle.game_line.specs.Laws.{BeginsAtTheStart, OneMoreMove, OneMorePosition};
ghost use Rattle.game_line.specs.Laws.{EndsWithThePosition, LineLength};
ghost use Rattle.game_line.specs.Laws.{OneMoreIsLegal, BeginningsAreLegal, LegalLinesKeepPositions};
ghost use Rattle.game_line.specs.Laws.{NoMoveIsQuiet, OneMoreQuietMove, HalfCountIsQuiet};
ghost use Rattle.game_line.specs.Laws.{NothingIsUndone, NoneBeforeIsRepeated};
ghost use Rattle.game_line.specs.Laws.{RepetitionMeans, CaptureSquareMeans, EachRepeatsItself};
ghost use Rattle.game_line.specs.Laws.{LostRightIsAnother, OtherCaptureIsAnother};
ghost use Rattle.game_line.specs.Laws.{KeptAreEnough, KeptAtTheStart, OneMoreKept};
ghost use Rattle.game_line.specs.Laws.{OneMoreKeptByHalfCount, KeptLength};
ghost use Rattle.game_line.specs.Laws.{KeptLengthByHalfCount, HalfCountIsKeptLength};

use move_rules::{en_passant_is_by_a_move, moves_lead_to_positions};

/// The laws of the moves, which those of lines rest on.
fn laws_of_moves()
    ensures { LawsOfMoves }
{
    moves_lead_to_positions();
    en_passant_is_by_a_move();
}

/// The positions of a line, move by move, and which lines are legal.
pub fn lines_of_moves()
    ensures begins { BeginsAtTheStart }
    ensures one_more { OneMoreMove }
    ensures one_more_position { OneMorePosition }
    ensures ends { EndsWithThePosition }
    ensures length { LineLength }
    ensures one_more_is_legal { OneMoreIsLegal }
    ensures beginnings { BeginningsAreLegal }
    ensures positions { LegalLinesKeepPositions }
{
    laws_of_moves();
}

/// The half count of a position, as it is kept move by move, is the number of quiet moves at the end of the line: moves of
/// no pawn that capture nothing (FIDE Laws of Chess, Articles 9.3 and 9.6.2).
pub fn half_counts_are_quiet()
    ensures none { NoMoveIsQuiet }
    ensures one_more { OneMoreQuietMove }
    ensures half { HalfCountIsQuiet }
{}

/// No later move takes a pawn move or a capture back.
pub fn nothing_is_undone()
    ensures boards { NothingIsUndone }
    ensures repetitions { NoneBeforeIsRepeated }
{
    laws_of_moves();
}

/// What a repetition is (FIDE Laws of Chess, Article 9.2.2 and 9.2.3), and that a lost castling or another en passant capture
/// makes a position another one.
pub fn what_is_repeated()
    ensures means { RepetitionMeans }
    ensures capture { CaptureSquareMeans }
    ensures itself { EachRepeatsItself }
    ensures right { LostRightIsAnother }
    ensures other_capture { OtherCaptureIsAnother }
{
    laws_of_moves();
}

/// The positions from the last pawn move or capture on tell how often the last one has occurred in the whole line.
pub fn repetitions_are_kept()
    ensures { KeptAreEnough }
{
    laws_of_moves();
}

/// What is kept of a line, move by move, as `Past::push` keeps it.
pub fn kept_positions()
    ensures start { KeptAtTheStart }
    ensures one_more { OneMoreKept }
    ensures by_half_count { OneMoreKeptByHalfCount }
    ensures length { KeptLength }
    ensures length_by_half_count { KeptLengthByHalfCount }
    ensures half { HalfCountIsKeptLength }
{}
