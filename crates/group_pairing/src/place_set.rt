ghost use Rattle.std.specs.Prelude.{◌≡◌, ◌≢◌, ◌<◌, ◌≤◌, ◌^◌, ◌==◌, ◌↔◌, ℕ, IsTrue};
ghost use Rattle.std.specs.Int.{bit_at};
ghost use Rattle.group_pairing.specs.Search.{IsFirst, CanBeLeft};

/// How many sets of fourteen places there are. Place i is in a set where bit i of its number is 1.
pub(crate) const SETS: usize = 16384;

// How many sets of so many places there are.
pub(crate) fn sets_of(places: usize) -> usize
    requires { places ≤ 14 }
    ensures is { result ≡ 2 ^ places }
    ensures least { 0 < result }
    ensures most { result ≤ 16384 }
{
    1usize << places
}

// Whether the place is in the set.
pub(crate) fn has(set: usize, place: usize) -> bool
    requires { place < 14 }
    ensures { result ≡ (bit_at set place == 1) }
{
    (set >> place) & 1 == 1
}

// The set without one of its places.
pub(crate) fn without(set: usize, place: usize) -> usize
    requires place { place < 14 }
    requires has { bit_at set place ≡ 1 }
    ensures gone { bit_at result place ≡ 0 }
    ensures others { (i : ℕ) → i < 14 → i ≢ place → bit_at result i ≡ bit_at set i }
    ensures smaller { result < set }
{
    set & !(1usize << place)
}

// The first place of a set that has one.
pub(crate) fn first_of(set: usize) -> usize
    requires { 0 < set }
    ensures first { IsFirst set result }
    ensures most { result < 64 }
{
    set.trailing_zeros() as usize
}

// Whether the set is what can be left of so many places.
pub(crate) fn can_be_left(set: usize, places: usize) -> bool
    requires some { 0 < set }
    requires places { places ≤ 14 }
    ensures { IsTrue result ↔ CanBeLeft places set }
{
    places <= set.count_ones() as usize + 2 * first_of(set)
}
