//! The words of a line, taken one behind the other.

ghost use Rattle.std.specs.Prelude.{◌≡◌, option_map};
ghost use Rattle.journal_text.specs.Lines.{next_word, no_words, words_of};
ghost use Rattle.journal_text.specs.EntryForms.{next_number};

use crate::lines::cut;
use std::marker::Model;

/// The words of a line that have not been taken yet.
#[derive(Drop)]
pub(crate) struct Words<'a> {
    /// What is left of the line, if something is: a line that ends in a space has one more word, which is empty.
    left: Option<&'a [u8]>,
}

impl<'a> Model for Words<'a> {
    ghost use Rattle.std.specs.Prelude.{List, ℕ, option_map};
    ghost use Rattle.journal_text.specs.Lines.{words_left};

    ghost Value = { List (List ℕ) };

    ghost view = { λ w. words_left (option_map (λ b. b.now) w.left) };
}

impl<'a> Words<'a> {
    /// The words of the line.
    pub(crate) fn of(line: &'a [u8]) -> Words<'a>
        ensures { result ≡ words_of line.now }
    {
        Words { left: Some(line) }
    }

    /// The same words, to be taken once more.
    pub(crate) fn again(&self) -> Words<'a>
        ensures { result ≡ self.now }
    {
        Words { left: self.left }
    }

    /// Whether no word is left.
    pub(crate) fn is_empty(&self) -> bool
        ensures { result ≡ no_words self.now }
    {
        self.left.is_none()
    }

    /// Takes the next word.
    pub(crate) fn next(&mut self) -> Option<&'a [u8]>
        ensures { option_map (λ w. (w.now, self.new)) result ≡ next_word self.old }
    {
        let bytes = self.left?;
        match cut(bytes, b' ') {
            None => {
                self.left = None;
                Some(bytes)
            }
            Some((word, rest)) => {
                self.left = Some(rest);
                Some(word)
            }
        }
    }

    /// Takes the next word, which says a number.
    pub(crate) fn number(&mut self) -> Option<u64>
        ensures { option_map (λ n. (n, self.new)) result ≡ next_number self.old }
    {
        let word = self.next()?;
        decimals::read(word)
    }
}
