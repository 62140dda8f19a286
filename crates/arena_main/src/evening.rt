//! Which evening the words of the command line ask for.

ghost use Rattle.std.specs.Prelude.{◌≡◌, ℕ, List, Some, IsNone, IfSome};
ghost use Rattle.arena_main.specs.declared.forms.Form.TheVariants.{Serve};
ghost use Rattle.arena_main.specs.Evenings.{AskForEvening};

use crate::forms::Form;
use crate::words::form;
use conn::Text;
use std::str;

/// An evening as the words ask for it.
#[derive(Debug, Clone, Copy)]
pub struct Evening<'a> {
    /// The name of the file that has its setup.
    pub setup: &'a str,
    /// On 127.0.0.1: 1 to 65,535.
    pub port: u16,
    /// How many serve: 1 to 256.
    pub workers: u32,
    /// The name of the file that its journal goes to.
    pub journal: &'a str,
}

// The port and how many workers serve, where the form is that of an evening.
fn served(form: Option<Form>) -> Option<(u16, u32)>
    ensures served { IfSome result (λ at. form ≡ Some (Serve at.0 at.1)) }
    ensures none { IsNone result → (port workers : ℕ) → ¬ (form ≡ Some (Serve port workers)) }
{
    match form {
        None => None,
        Some(Form::Replay) => None,
        Some(Form::Upgrade) => None,
        Some(Form::Pgn) => None,
        Some(Form::Gen { .. }) => None,
        Some(Form::Serve { port, workers }) => Some((port, workers)),
    }
}

/// The evening that these words ask for: `serve SETUP PORT WORKERS JOURNAL`, with canonical decimals in their ranges and names in
/// UTF-8. `None` exactly where they ask for none. Takes no memory.
pub fn evening_of(words: &[Text]) -> Option<Evening<'_>>
    ensures asked { IfSome result (λ evening. AskForEvening words.now evening.setup.now evening.port evening.workers evening.journal.now) }
    ensures none { IsNone result → (setup : List ℕ) (port workers : ℕ) (journal : List ℕ) → ¬ AskForEvening words.now setup port workers journal }
{
    let Some((port, workers)) = served(form(words)) else {
        return None;
    };
    let [_, setup, _, _, journal] = words else {
        return None;
    };
    let (setup, journal) = (
        str::from_utf8(setup.bytes()).ok()?,
        str::from_utf8(journal.bytes()).ok()?,
    );
    Some(Evening {
        setup,
        port,
        workers,
        journal,
    })
}
