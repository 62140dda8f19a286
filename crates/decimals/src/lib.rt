//! Canonical decimals, the form in which every format here writes its numbers: `0`, or up to ten digits that do not begin
//! with `0`. The layers above rely on this: a word says at most one number, and a number below 10,000,000,000 is said by
//! exactly one word, the one that `{n}` prints.
#![tactic(auto)]

ghost use Rattle.std.specs.Prelude.{◌≡◌, ℕ, ◌≤◌, length, IfSome, IfNone};
ghost use Rattle.decimals.specs.Decimals.{Says, begins_as_one, digits_number, number_of};

/// The number that the word says, below 10,000,000,000. `None` for every word that is no canonical decimal. Takes no
/// memory.
pub fn read(word: &[u8]) -> Option<u64>
    ensures found { IfSome result (Says word.now) }
    ensures none { IfNone result ((n : ℕ) → ¬ Says word.now n) }
    // The same as a function of the word, for definitions that read more than one number.
    ensures is { result ≡ number_of word.now }
{
    number(word)
}

/// The number that the word says.
#[tactic(auto, unfolding(crate::specs::Decimals::number_of))]
fn number(word: &[u8]) -> Option<u64>
    ensures { result ≡ number_of word.now }
{
    if begins_as_one(word) && word.len() <= 10 {
        value(word)
    } else {
        None
    }
}

/// Whether something stands there, and a `0` in front stands alone.
fn begins_as_one(word: &[u8]) -> bool
    ensures { result ≡ begins_as_one word.now }
{
    match word {
        [] => false,
        [_] => true,
        [first, ..] => *first != b'0',
    }
}

/// What up to ten digits say. `None` where a byte is no digit.
fn value(word: &[u8]) -> Option<u64>
    requires { length word.now ≤ 10 }
    ensures { result ≡ digits_number word.now }
{
    let mut value = 0u64;
    for digit in word {
        if !digit.is_ascii_digit() {
            return None;
        }
        value = value * 10 + u64::from(*digit - b'0');
    }
    Some(value)
}
