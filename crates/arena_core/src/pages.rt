ghost use Rattle.std.specs.Prelude.{◌≡◌, ◌*◌, take, drop, IfOk};
ghost use Rattle.ranking.specs.Rows.{page};

use crate::people::People;
use entries::Entry;
use ranking::{Row, rows_are_the_lines};
use std::alloc::{AllocError, Global};

/// How many entries an answer has at most.
const MOST_ENTRIES: usize = 1_000;

/// How many rows an answer has at most.
const MOST_ROWS: u32 = 10;

/// The entries from this number on, at most 1,000 of them.
pub fn entries_from(alloc: Global, entries: &[Entry], from: u64) -> Result<Vec<Entry>, AllocError>
    ensures { IfOk result (λ list. list.items ≡ take 1000 (drop from entries.now)) }
{
    let rest = &entries[entries.len().min(from as usize)..];
    Vec::from_slice(alloc, &rest[..rest.len().min(MOST_ENTRIES)])
}

/// The ten rows from rank 10 `k` on, as far as the table has them.
pub fn rows_from(alloc: Global, people: &People, k: u32) -> Result<Vec<Row>, AllocError>
    ensures { IfOk result (λ list. list.items ≡ page (10 * k) 10 people.now.scores.lines) }
{
    rows_are_the_lines();
    let from = people.entered().min(k.saturating_mul(MOST_ROWS));
    people.page(alloc, from, MOST_ROWS)
}
