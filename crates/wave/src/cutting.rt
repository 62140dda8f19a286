ghost use Rattle.std.specs.Prelude.{◌≡◌, ◌*◌, ◌<◌, ◌≤◌, length};
ghost use Rattle.wave.specs.Plans.{group, frame};

use pair_cost::{Candidate, Frame};

/// How many rows a group has, but for the last.
pub(crate) const GROUP: usize = 14;

// Group number `number`.
pub(crate) fn group(rows: &[Candidate], number: usize) -> &[Candidate]
    requires { 14 * number < length rows.now }
    ensures { result.now ≡ group rows.now number }
{
    let first = GROUP * number;
    let rest = &rows[first..];
    &rest[..rest.len().min(GROUP)]
}

// What holds for all groups of these rows.
pub(crate) fn frame(rule: u32, rows: &[Candidate]) -> Frame
    requires { length rows.now ≤ 1000 }
    ensures { result ≡ frame rule rows.now }
{
    let max = match rows.last() {
        Some(row) => row.rank,
        None => 0,
    };
    Frame {
        max,
        idle: rows.len() as u32,
        rule,
    }
}
