ghost use Rattle.std.specs.Prelude.{◌≡◌, ◌-◌, IsTrue, IsFalse, ℕ, List, length, drop, replicate};
ghost use Rattle.group_pairing.specs.Groups.{IsGroup, list_of};
ghost use Rattle.group_pairing.specs.Lists.{is_partner_list};
ghost use Rattle.group_pairing.specs.Keys.{key, is_smaller};
ghost use Rattle.group_pairing.specs.Least.{least};

use crate::partners::Partners;
use pair_cost::{Candidate, Frame};

/// Whoever pairs a group.
pub trait Solve {
    /// The partner list of least key of a group of at most fourteen, in rank order. No rank is above the frame's greatest,
    /// which is not above 999, and no rating is above 4,000. Takes no memory.
    fn solve(&mut self, rows: &[Candidate], f: &Frame) -> Partners
        requires { IsGroup rows.now f.now }
        ensures len { result.len ≡ length rows.now }
        ensures rest { drop (length rows.now) result.to ≡ replicate (14 - length rows.now) 14 }
        ensures list { IsTrue (is_partner_list rows.now f.now (list_of result)) }

        // No partner list of the group has a smaller key, and this is the only one of that kind.
        ensures smallest { (other : List ℕ) → IsTrue (is_partner_list rows.now f.now other)
            → IsFalse (is_smaller (key rows.now f.now other) (key rows.now f.now (list_of result))) }
        ensures least { list_of result ≡ least rows.now f.now };
}
