ghost use Rattle.std.specs.Prelude.{◌≢◌, All, AllPairs, ℕ, List};
ghost use Rattle.pair_cost.specs.declared.candidate.Candidate.{Candidate};
ghost use Rattle.wave.specs.Plans.{planned_pairs, planned_alone};
ghost use Rattle.wave.specs.Players.{HasPlayer, IsOfRows, IsApart, IsOutside, IsPlanned};

use group_pairing::{least_list, partner_list};

/// The players of a plan are those of its rows, and each stands in it once: in one pair, or among those who are left alone.
/// Does nothing: a caller learns it from the clauses.
pub fn each_player_once()
    ensures paired { (rule : ℕ) (rows : List Candidate) → AllPairs (λ (a b : Candidate). a.player ≢ b.player) rows
        → All (IsOfRows rows) (planned_pairs rule rows) }
    ensures apart { (rule : ℕ) (rows : List Candidate) → AllPairs (λ (a b : Candidate). a.player ≢ b.player) rows
        → AllPairs IsApart (planned_pairs rule rows) }
    ensures alone { (rule : ℕ) (rows : List Candidate) → AllPairs (λ (a b : Candidate). a.player ≢ b.player) rows
        → All (HasPlayer rows) (planned_alone rule rows) }
    ensures alone_once { (rule : ℕ) (rows : List Candidate) → AllPairs (λ (a b : Candidate). a.player ≢ b.player) rows
        → AllPairs (λ a b. a ≢ b) (planned_alone rule rows) }
    ensures paired_or_alone { (rule : ℕ) (rows : List Candidate) → AllPairs (λ (a b : Candidate). a.player ≢ b.player) rows
        → All (λ pair. All (IsOutside pair) (planned_alone rule rows)) (planned_pairs rule rows) }
    ensures everyone { (rule : ℕ) (rows : List Candidate)
        → All (λ (row : Candidate). IsPlanned rule rows row.player) rows }
{
    least_list();
    partner_list();
}
