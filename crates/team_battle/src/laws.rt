ghost use Rattle.team_battle.specs.Laws.{EachTeamOnce, RowsAreOfTheirTeams, TeamsAreInOrder};
ghost use Rattle.team_battle.specs.Laws.{NoneAboveItself, AboveIsTransitive, AboveIsTotal};

/// Each team of the setup stands in the table once, with its rank, in the teams' order.
pub fn each_team_stands_once()
    ensures once { EachTeamOnce }
    ensures rows { RowsAreOfTheirTeams }
    ensures order { TeamsAreInOrder }
{}

/// The order of the teams is strict and total.
pub fn teams_are_ordered()
    ensures strict { NoneAboveItself }
    ensures transitive { AboveIsTransitive }
    ensures total { AboveIsTotal }
{}
