ghost use Rattle.std.specs.Prelude.{◌≡◌};
ghost use Rattle.pair_cost.specs.declared.candidate.Candidate.{Candidate};
ghost use Rattle.pair_cost.specs.declared.candidate.Frame.{Frame};
ghost use Rattle.pair_cost.specs.Cost.{is_forbidden, cost};

/// It makes no difference which of two players is named first. Does nothing: a caller learns it from the clauses.
pub fn either_way()
    ensures forbidden { (f : Frame) (a b : Candidate) → is_forbidden f a b ≡ is_forbidden f b a }
    ensures cost { (f : Frame) (a b : Candidate) → cost f a b ≡ cost f b a }
{}
