ghost use Rattle.ranking.specs.Laws.{NoneBeforeItself, BeforeIsTransitive, BeforeIsTotal};
ghost use Rattle.ranking.specs.Laws.{RowsHaveThePlayers, RanksCountFromZero, RowsHaveTheirRanks};
ghost use Rattle.ranking.specs.Laws.{RanksAreInOrder, RankIsHowManyBefore};

/// The order of the lines of a table is strict and total.
pub fn lines_are_ordered()
    ensures strict { NoneBeforeItself }
    ensures transitive { BeforeIsTransitive }
    ensures total { BeforeIsTotal }
{}

/// The rows are those of the players who entered, and their ranks count from 0 without a gap.
pub fn rows_are_the_lines()
    ensures players { RowsHaveThePlayers }
    ensures ranks { RanksCountFromZero }
    ensures own { RowsHaveTheirRanks }
{}

/// The rank of a player says how many lines come before his.
pub fn ranks_follow_the_order()
    ensures smaller { RanksAreInOrder }
    ensures counted { RankIsHowManyBefore }
{}
