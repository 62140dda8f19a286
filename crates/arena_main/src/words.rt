//! Which form the words of the command line have.

ghost use Rattle.std.specs.Prelude.{◌≡◌, ◌↔◌, ◌∷◌, [], ℕ, IsTrue, IsNone, IfSome};
ghost use Rattle.arena_main.specs.declared.forms.Form.{Form as FormValue};
ghost use Rattle.arena_main.specs.declared.forms.Form.TheVariants.{Gen, Serve};
ghost use Rattle.arena_main.specs.Forms.{HasForm, IsPlayers, IsPort, IsSeed, IsWithin, IsWorkers};

use crate::forms::Form;
use conn::Text;

// Whether the word has these bytes.
fn has_bytes(word: &Text, bytes: &[u8]) -> bool
    ensures { IsTrue result ↔ (word.now ≡ bytes.now) }
{
    word.bytes() == bytes
}

// The number that the word says, if it says one in this range.
fn number_within(word: &Text, least: u32, most: u32) -> Option<u32>
    ensures within { IfSome result (IsWithin least most word.now) }
    ensures none { IsNone result → (n : ℕ) → ¬ IsWithin least most word.now n }
{
    let n = decimals::read(word.bytes())?;
    if u64::from(least) <= n && n <= u64::from(most) {
        Some(n as u32)
    } else {
        None
    }
}

// The form that one word alone has.
fn form_of_word(word: &Text) -> Option<Form>
    ensures has { IfSome result (HasForm (word.now ∷ [])) }
    ensures none { IsNone result → (form : FormValue) → ¬ HasForm (word.now ∷ []) form }
{
    if has_bytes(word, b"replay") {
        Some(Form::Replay)
    } else if has_bytes(word, b"upgrade") {
        Some(Form::Upgrade)
    } else if has_bytes(word, b"pgn") {
        Some(Form::Pgn)
    } else {
        None
    }
}

// The form of a seed and a number of players.
fn gen_form(seed: &Text, players: &Text) -> Option<Form>
    ensures has { IfSome result (λ form. (s p : ℕ) × (form ≡ Gen s p) × IsSeed seed.now s × IsPlayers players.now p) }
    ensures none { IsNone result → (s p : ℕ) → IsSeed seed.now s → ¬ IsPlayers players.now p }
{
    let seed = number_within(seed, 0, 2_147_483_647)?;
    let players = number_within(players, 2, 1000)?;
    Some(Form::Gen { seed, players })
}

// The form of a port and a number of workers.
fn serve_form(port: &Text, workers: &Text) -> Option<Form>
    ensures has { IfSome result (λ form. (p w : ℕ) × (form ≡ Serve p w) × IsPort port.now p × IsWorkers workers.now w) }
    ensures none { IsNone result → (p w : ℕ) → IsPort port.now p → ¬ IsWorkers workers.now w }
{
    let port = number_within(port, 1, 65_535)? as u16;
    let workers = number_within(workers, 1, 256)?;
    Some(Form::Serve { port, workers })
}

/// The form that these words have: `replay`, `upgrade` or `pgn` alone, `gen` with a seed and a number of players, or `serve` with a
/// setup's file, a port, a number of workers and a journal's file. Numbers are canonical decimals in their ranges. `None` exactly
/// where they have none. Takes no memory.
pub fn form(words: &[Text]) -> Option<Form>
    ensures has { IfSome result (HasForm words.now) }
    ensures none { IsNone result → (form : FormValue) → ¬ HasForm words.now form }
{
    match words {
        [word] => form_of_word(word),
        [word, seed, players] if has_bytes(word, b"gen") => gen_form(seed, players),
        [word, _, port, workers, _] if has_bytes(word, b"serve") => serve_form(port, workers),
        _ => None,
    }
}
