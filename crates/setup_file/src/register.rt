//! Texts in the order in which they came, each found by its bytes.

ghost use Rattle.std.specs.Prelude.{◌≡◌, ◌<◌, ◌≤◌, ◌++◌, ◌∷◌, [], false, is_some, length, map, IfOk, IfSome, OnOk, OnErr};
ghost use Rattle.setup_file.specs.Members.{is_taken, place_of};

use conn::{List, Text};
use indexmap::IndexSet;
use std::alloc::{AllocError, Global};
use std::marker::Model;

/// At most 1,000 different texts. Contracts see them in the order in which they came.
#[derive(Drop)]
pub(crate) struct Register {
    texts: IndexSet<Vec<u8>>,
}

impl Model for Register {
    ghost use Rattle.std.specs.Prelude.{List, ℕ, map, ◌≤◌};
    ghost use Rattle.indexmap.specs.IndexSet.{index_set_len};

    ghost Value = { List (List ℕ) };

    ghost view = { λ r. map (λ t. t.items) r.texts.keys };

    ghost invariant = { λ r. index_set_len r.texts ≤ 1000 };
}

impl Register {
    /// No text. Takes no memory.
    pub(crate) fn new(alloc: Global) -> Register
        ensures { result ≡ [] }
    {
        Register {
            texts: IndexSet::new(alloc),
        }
    }

    /// How many texts there are: at most 1,000.
    pub(crate) fn len(&self) -> u32
        ensures { result ≡ length self.now }
    {
        self.texts.len() as u32
    }

    /// The place of a text, from 0.
    pub(crate) fn find(&self, text: &[u8]) -> Option<u32>
        ensures place { result ≡ place_of self.now text.now }
        ensures below { IfSome result (λ place. place < length self.now) }
        ensures found { is_some result ≡ is_taken self.now text.now }
    {
        match self.texts.get_index_of(text) {
            None => None,
            Some(place) => Some(place as u32),
        }
    }

    /// Whether the text stands among these.
    pub(crate) fn has(&self, text: &[u8]) -> bool
        ensures { result ≡ is_taken self.now text.now }
    {
        self.texts.contains(text)
    }

    /// The texts, in order.
    pub(crate) fn texts(&self, alloc: Global) -> Result<List<Text>, AllocError>
        ensures { IfOk result (λ texts. texts ≡ self.now) }
    {
        copied(alloc, self.texts.as_slice())
    }

    /// Puts a new text behind the others.
    pub(crate) fn add(&mut self, alloc: Global, text: &[u8]) -> Result<(), AllocError>
        requires room { length self.old < 1000 }
        requires fresh { is_taken self.old text.now ≡ false }
        ensures added { OnOk result (self.new ≡ self.old ++ text.now ∷ []) }
        ensures same { OnErr result (self.new ≡ self.old) }
    {
        let text = Vec::from_slice(alloc, text)?;
        self.texts.insert_full(text)?;
        Ok(())
    }
}

/// Texts of these bytes.
fn copied(alloc: Global, texts: &[Vec<u8>]) -> Result<List<Text>, AllocError>
    ensures { IfOk result (λ copied. copied ≡ map (λ t. t.items) texts.now) }
{
    let mut copied = Vec::with_capacity(alloc, texts.len())?;
    for text in texts {
        copied.push(Text::of(Vec::from_slice(alloc, text.as_slice())?))?;
    }
    Ok(List::of(copied))
}
