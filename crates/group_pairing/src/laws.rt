ghost use Rattle.std.specs.Prelude.{◌≡◌, ◌≤◌, ◌<◌, ◌⊎◌, IsTrue, IsFalse, ℕ, List, length, slice_index};
ghost use Rattle.pair_cost.specs.declared.candidate.Candidate.{Candidate};
ghost use Rattle.pair_cost.specs.declared.candidate.Frame.{Frame};
ghost use Rattle.group_pairing.specs.Lists.{is_partner_list, HasPartner};
ghost use Rattle.group_pairing.specs.Keys.{key, is_smaller};
ghost use Rattle.group_pairing.specs.Least.{least};

/// The least list of a group is one of its partner lists, none has a smaller key, and no other list is so. Does nothing: a
/// caller learns it from the clauses.
pub fn least_list()
    ensures list { (rows : List Candidate) (f : Frame) → IsTrue (is_partner_list rows f (least rows f)) }
    ensures least { (rows : List Candidate) (f : Frame) → length rows ≤ 14
        → (other : List ℕ) → IsTrue (is_partner_list rows f other)
        → IsFalse (is_smaller (key rows f other) (key rows f (least rows f))) }
    ensures only { (rows : List Candidate) (f : Frame) → length rows ≤ 14
        → (to : List ℕ) → IsTrue (is_partner_list rows f to)
        → ((other : List ℕ) → IsTrue (is_partner_list rows f other)
        → IsFalse (is_smaller (key rows f other) (key rows f to)))
        → to ≡ least rows f }
{}

/// A partner list has an item for each place of the group, and each is 14 or the place of a partner whose item leads back.
/// Does nothing: a caller learns it from the clauses.
pub fn partner_list()
    ensures items { (rows : List Candidate) (f : Frame) (to : List ℕ) → IsTrue (is_partner_list rows f to) → length to ≡ length rows }
    ensures each { (rows : List Candidate) (f : Frame) (to : List ℕ) → IsTrue (is_partner_list rows f to)
        → (i : ℕ) → i < length rows → (slice_index to i ≡ 14) ⊎ HasPartner rows to i }
{}
