ghost use Rattle.std.specs.Prelude.{◌≡◌, ◌<◌, ◌∷◌, ◌==◌, ℕ, nat_le, IsTrue, false, true};
ghost use Rattle.board.specs.Sets.{has, IsSetOf};
ghost use Rattle.bitboards.specs.Squares.{squares_in};

use board::Square;

/// The set of one square.
pub fn square_set(s: Square) -> u64
    ensures { IsSetOf result (λ t. t == s) }
{
    1 << s.index()
}

/// Whether the set has the square.
pub fn has_square(set: u64, s: Square) -> bool
    ensures is { result ≡ has set s }
    ensures on_board { s < 64 }
{
    set >> s.index() & 1 == 1
}

/// The first square of a set that has one.
pub fn first_square(set: u64) -> Square
    requires { 0 < set }
    ensures on_board { result < 64 }
    ensures in_set { has set result ≡ true }
    ensures first { (t : ℕ) → t < result → has set t ≡ false }
{
    Square::of(set.trailing_zeros() as u8)
}

/// The set without its first square.
pub fn without_first(set: u64) -> u64
    requires { 0 < set }
    ensures rest { (first : ℕ) → has set first ≡ true → ((t : ℕ) → t < first → has set t ≡ false)
        → squares_in set ≡ first ∷ squares_in result }
    ensures within { (t : ℕ) → has result t ≡ true → has set t ≡ true }
    ensures less { result < set }
{
    set & !square_set(first_square(set))
}

/// The last square of a set that has one.
pub fn last_square(set: u64) -> Square
    requires { 0 < set }
    ensures on_board { result < 64 }
    ensures in_set { has set result ≡ true }
    ensures last { (t : ℕ) → result < t → has set t ≡ false }
{
    Square::of(63 - set.leading_zeros() as u8)
}

/// The squares up to this one, and it.
pub fn squares_to(s: Square) -> u64
    ensures { IsSetOf result (λ t. nat_le t s) }
{
    u64::MAX >> (63 - s.index())
}

/// The squares from this one on.
pub fn squares_from(s: Square) -> u64
    ensures { IsSetOf result (λ t. nat_le s t) }
{
    u64::MAX << s.index()
}
