ghost use Rattle.std.specs.Prelude.{◌≡◌, ◌≤◌, ◌<◌, ◌+◌, ◌-◌, ◌++◌, length, IfOk};
ghost use Rattle.wave.specs.Answers.{HoldsAnswers};
ghost use Rattle.wave.specs.Plans.{last_rank, group_count};
ghost use Rattle.wave.specs.Rankings.{IsRanking};
ghost use denote.Param.Send.{IsSync};

use crate::cutting::group;
use group_pairing::{Partners, Solve};
use pair_cost::{Candidate, Frame};
use std::alloc::{AllocError, Global};
use std::thread;
use std::thread::Threads;

// The answers of `count` groups from number `first` on, by all solvers at once. The solvers are halved and the groups
// shared out in proportion again and again, and the answers are joined in the order of groups.
pub(crate) fn solve_all<R: Threads + Sync, V: Solve + Send>(
    rt: &R,
    alloc: Global,
    solvers: &mut [V],
    rows: &[Candidate],
    f: &Frame,
    first: usize,
    count: usize,
) -> Result<Vec<Partners>, AllocError>
    requires some { 0 < length solvers.old }
    requires few { length solvers.old ≤ 72 }
    requires rows { IsRanking rows.now }
    requires max { f.now.max ≡ last_rank rows.now }
    requires groups { first + count ≤ group_count rows.now }
    ensures { IfOk result (λ made. HoldsAnswers rows.now f.now first count made.items) }
{
    if solvers.len() == 1 {
        return in_turn(alloc, &mut solvers[0], rows, f, first, count);
    }
    let half = solvers.len() / 2;
    let low = share(count, half, solvers.len());
    let middle = first + low;
    let high = count - low;
    let (left, right) = solvers.split_at_mut(half);
    let (front, back) = thread::join(
        rt,
        || -> Result<Vec<Partners>, AllocError>
            requires { IsSync R.row × (0 < length left.now) × (length left.now ≤ 72) × IsRanking rows.now × (f.now.max ≡ last_rank rows.now) × (first + low ≤ group_count rows.now) }
            ensures { IfOk result (λ made. HoldsAnswers rows.entry.now f.entry.now first low made.items) }
        { solve_all(rt, alloc, left, rows, f, first, low) },
        || -> Result<Vec<Partners>, AllocError>
            requires { IsSync R.row × (0 < length right.now) × (length right.now ≤ 72) × IsRanking rows.now × (f.now.max ≡ last_rank rows.now) × (middle + high ≤ group_count rows.now) }
            ensures { IfOk result (λ made. HoldsAnswers rows.entry.now f.entry.now middle high made.items) }
        { solve_all(rt, alloc, right, rows, f, middle, high) },
    );
    joined(front?, back?)
}

// How many of the groups go to the first `half` of so many solvers: at least one for each, and at least one for each of the
// others, where there are as many groups as solvers.
fn share(groups: usize, half: usize, solvers: usize) -> usize
    requires groups { groups ≤ 72 }
    requires half { half < solvers }
    requires solvers { solvers ≤ 72 }
    ensures most { result ≤ groups }
    ensures front { solvers ≤ groups → half ≤ result }
    ensures back { solvers ≤ groups → solvers - half ≤ groups - result }
{
    groups * half / solvers
}

// The answers of the groups one after another.
fn in_turn<V: Solve>(
    alloc: Global,
    solver: &mut V,
    rows: &[Candidate],
    f: &Frame,
    first: usize,
    count: usize,
) -> Result<Vec<Partners>, AllocError>
    requires rows { IsRanking rows.now }
    requires max { f.now.max ≡ last_rank rows.now }
    requires groups { first + count ≤ group_count rows.now }
    ensures { IfOk result (λ made. HoldsAnswers rows.now f.now first count made.items) }
{
    let mut made = Vec::with_capacity(alloc, count)?;
    for done in 0..count {
        made.push(solver.solve(group(rows, first + done), f))?;
    }
    Ok(made)
}

// The one behind the other.
fn joined(mut front: Vec<Partners>, back: Vec<Partners>) -> Result<Vec<Partners>, AllocError>
    ensures { IfOk result (λ made. made.items ≡ front.items ++ back.items) }
{
    front.extend_from_slice(back.as_slice())?;
    Ok(front)
}
