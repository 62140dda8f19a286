ghost use Rattle.std.specs.Prelude.{◌≡◌, ◌≤◌, IfOk};
ghost use Rattle.std.specs.List.{All};
ghost use Rattle.entries.specs.declared.journal.Entry.{Entry};
ghost use Rattle.arena_rules.specs.StartLaws.{journal_of};
ghost use Rattle.journal_text.specs.Text.{text_of};

use arena_core::Arena;
use arena_rules::games_are_listed;
use conn::Text;
use journal_text::write_journal;
use std::alloc::{AllocError, Global};

/// The journal of an arena as a text of version 2, which lists the games that each wave began. It fails only for want of memory.
pub fn write_upgraded(alloc: Global, arena: Arena) -> Result<Text, AllocError>
    requires { All (λ (e : Entry). e.pass ≤ 255) arena.entries }
    ensures { IfOk result (λ text. text ≡ text_of (journal_of arena.setup arena.entries)) }
{
    games_are_listed();
    arena.shows_legal();
    let journal = arena.into_journal();
    write_journal(alloc, &journal)
}
