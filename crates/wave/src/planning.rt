ghost use Rattle.std.specs.Prelude.{◌≡◌, ◌<◌, length, IfOk};
ghost use Rattle.wave.specs.Plans.{planned_pairs, planned_alone};
ghost use Rattle.wave.specs.Rankings.{IsRanking};

use crate::cutting::{GROUP, frame};
use crate::listing::{Listed, list_groups};
use crate::snapshot::{Plan, Snapshot};
use crate::solving::solve_all;
use conn::List;
use group_pairing::Solve;
use std::alloc::{AllocError, Global};
use std::thread::Threads;

/// The plan of a snapshot: its rows in groups of fourteen, each paired by its least partner list, with the colours of the
/// pairs and the players who have nobody. It is the same whatever solvers there are, of which there is at least one. They
/// work at once, each in a thread of its own where one can be made, and each has at least one group where there are as many
/// groups as solvers.
pub fn plan<R: Threads + Sync, V: Solve + Send>(
    rt: &R,
    alloc: Global,
    solvers: &mut [V],
    s: &Snapshot,
) -> Result<Plan, AllocError>
    requires solvers { 0 < length solvers.old }
    requires rows { IsRanking s.now.rows }
    ensures n { IfOk result (λ made. made.n ≡ s.now.n) }
    ensures pairs { IfOk result (λ made. made.pairs ≡ planned_pairs s.now.rule s.now.rows) }
    ensures alone { IfOk result (λ made. made.alone ≡ planned_alone s.now.rule s.now.rows) }
{
    let rows = s.rows.items();
    let f = frame(s.rule, rows);
    let groups = rows.len().div_ceil(GROUP);
    let workers = solvers.len().min(groups.max(1));
    let answers = solve_all(rt, alloc, &mut solvers[..workers], rows, &f, 0, groups)?;
    let Listed { pairs, alone } = list_groups(alloc, rows, &f, answers.as_slice())?;
    Ok(Plan {
        n: s.n,
        pairs: List::of(pairs),
        alone: List::of(alone),
    })
}
