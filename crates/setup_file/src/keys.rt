ghost use Rattle.std.specs.Prelude.{◌≡◌, ◌<◌, Some, length, slice_get, Contains, IfSome, IfNone};
ghost use Rattle.std.specs.List.{list_all};
ghost use Rattle.setup_file.specs.Keys.{is_key, is_key_byte};
ghost use Rattle.setup_file.specs.Members.{place_of};

use crate::register::Register;
use std::marker::Model;

/// Whether the bytes are a key: 16 to 64 letters, digits or `_`.
pub(crate) fn is_key(bytes: &[u8]) -> bool
    ensures { result ≡ is_key bytes.now }
{
    16 <= bytes.len() && bytes.len() <= 64 && are_key_bytes(bytes)
}

/// Whether each byte may stand in a key.
fn are_key_bytes(bytes: &[u8]) -> bool
    ensures { result ≡ list_all is_key_byte bytes.now }
{
    bytes.iter().all(|byte| is_key_byte(*byte))
}

/// Whether the byte may stand in a key.
fn is_key_byte(byte: u8) -> bool
    ensures { result ≡ is_key_byte byte }
{
    byte.is_ascii_alphanumeric() || byte == b'_'
}

/// The keys of a setup's players. Contracts see them in the order of the players.
#[derive(Drop)]
pub struct Keys {
    register: Register,
}

impl Model for Keys {
    ghost use Rattle.std.specs.Prelude.{List, ℕ};

    ghost Value = { List (List ℕ) };

    ghost view = { λ keys. keys.register };
}

impl Keys {
    /// The keys of this register.
    pub(crate) fn of(register: Register) -> Keys
        ensures { result ≡ register }
    {
        Keys { register }
    }

    /// The number of the player who has this key, from 0; `None` where no player has it. One look-up by hash.
    pub fn find(&self, key: &[u8]) -> Option<u32>
        ensures place { result ≡ place_of self.now key.now }
        ensures some { IfSome result (λ player. slice_get self.now player ≡ Some key.now) }
        ensures below { IfSome result (λ player. player < length self.now) }
        ensures none { IfNone result (¬ Contains self.now key.now) }
    {
        self.register.find(key)
    }
}
