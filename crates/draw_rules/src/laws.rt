ghost use Rattle.draw_rules.specs.Laws.{ComparedAsSame};

/// Positions are counted as `board::same_cells` compares them. The function does nothing.
#[tactic(auto, using(crate::proofs::Counts::compared_as_same))]
pub fn positions_are_compared()
    ensures { ComparedAsSame }
{}
