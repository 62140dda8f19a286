ghost use Rattle.std.specs.Prelude.{IsTrue, ◌<◌, ◌≤◌, All, AllPairs};
ghost use Rattle.pair_cost.specs.declared.candidate.Candidate.{Candidate};
ghost use Rattle.wave.specs.Rankings.{IsRanking};

use crate::{Plan, Snapshot, plan};
use conn::List;
use group_pairing::{Bench, Partners, Solve};
use pair_cost::{Candidate, Frame, Pair};
use std::alloc::{AllocError, Global};
use std::test::Fail;
use std::thread::Threads;

/// Whether the rows are those of a snapshot that can be planned.
fn is_ranking(rows: &[Candidate]) -> bool
    ensures { IsTrue result → IsRanking rows.now }
{
    let many = rows.len() <= 1000;
    many && are_placed(rows) && are_rated(rows) && fall_behind(rows)
}

fn are_placed(rows: &[Candidate]) -> bool
    ensures { IsTrue result → All (λ (row : Candidate). row.rank ≤ 999) rows.now }
{
    rows.iter().all(|row| row.rank <= 999)
}

fn are_rated(rows: &[Candidate]) -> bool
    ensures { IsTrue result → All (λ (row : Candidate). row.rating ≤ 4000) rows.now }
{
    rows.iter().all(|row| row.rating <= 4000)
}

#[tactic(auto, using(std::proofs::lemmas::List::Quantifiers::all_pairs_push))]
fn fall_behind(rows: &[Candidate]) -> bool
    ensures { IsTrue result → AllPairs (λ (a b : Candidate). a.rank < b.rank) rows.now }
{
    for (place, row) in rows.iter().enumerate() {
        if !all_better(&rows[..place], row.rank) {
            return false;
        }
    }
    true
}

fn all_better(rows: &[Candidate], rank: u32) -> bool
    ensures { IsTrue result → All (λ (row : Candidate). row.rank < rank) rows.now }
{
    rows.iter().all(|row| row.rank < rank)
}

/// So many players in rank order, each ten points behind the one before him, with a balance that is 1 at odd numbers. Of each
/// two neighbours each has met the other last. Every third one has been left alone, and by more waves the worse his rank is.
fn players(alloc: Global, count: u32, team: Option<u32>) -> Result<Vec<Candidate>, AllocError> {
    let mut rows = Vec::new(alloc);
    for player in 0..count {
        rows.push(Candidate {
            player,
            rank: player,
            rating: 4000 - 10 * (player % 400),
            last: Some(player ^ 1),
            balance: if player % 2 == 0 { 0 } else { 1 },
            team,
            alone: if player % 3 == 0 { player } else { 0 },
        })?;
    }
    Ok(rows)
}

/// A snapshot of these rows.
fn snapshot(rule: u32, rows: Vec<Candidate>) -> Snapshot {
    Snapshot {
        n: 7,
        stamp: 0,
        last_wave: None,
        running: 0,
        rule,
        rows: List::of(rows),
    }
}

/// The plan of a snapshot by these solvers, or nothing where its rows are no ranking.
fn planned<R: Threads + Sync, V: Solve + Send>(
    rt: &R,
    alloc: Global,
    solvers: &mut [V],
    snapshot: &Snapshot,
) -> Result<Option<Plan>, AllocError> {
    if !solvers.is_empty() && is_ranking(snapshot.rows.items()) {
        Ok(Some(plan(rt, alloc, solvers, snapshot)?))
    } else {
        Ok(None)
    }
}

/// A bench that counts how often it is called.
#[derive(Drop)]
struct Counted {
    bench: Bench,
    calls: u32,
}

impl Solve for Counted {
    fn solve(&mut self, rows: &[Candidate], f: &Frame) -> Partners {
        self.calls = self.calls.wrapping_add(1);
        self.bench.solve(rows, f)
    }
}

fn benches(alloc: Global, count: usize) -> Result<Vec<Counted>, AllocError> {
    let mut made = Vec::new(alloc);
    for _ in 0..count {
        let bench = Bench::new(alloc)?;
        let counted = Counted { bench, calls: 0 };
        made.push(counted)?;
    }
    Ok(made)
}

/// How many players, in a team or in none, under which rule; how many pairs they make and how many are left alone.
const COUNTS: [(u32, Option<u32>, u32, usize, usize); 12] = [
    (0, None, 1, 0, 0),
    (1, None, 1, 0, 1),
    (2, None, 1, 1, 0),
    // of each other's last opponents two meet again where they are all who are idle
    (2, None, 2, 1, 0),
    (13, None, 2, 6, 1),
    (14, None, 1, 7, 0),
    // the fifteenth is a group of his own
    (15, None, 1, 7, 1),
    (16, None, 1, 8, 0),
    // and the sixteenth his last opponent
    (16, None, 2, 7, 2),
    (16, Some(0), 1, 0, 16),
    (29, None, 1, 14, 1),
    (29, None, 2, 14, 1),
];

#[test]
fn groups_are_of_fourteen(rt: HostRuntime) -> Result<(), Fail> {
    let alloc = rt.alloc();
    let mut solvers = benches(alloc, 1)?;
    for (count, team, rule, pairs, alone) in COUNTS {
        let idle = snapshot(rule, players(alloc, count, team)?);
        let plan = planned(&rt, alloc, solvers.as_mut_slice(), &idle)?.ok_or("no ranking")?;
        assert_eq!(rt; plan.n, 7);
        assert_eq!(rt;
            plan.pairs.items().len(),
            pairs,
            "{count} players under {rule}"
        );
        assert_eq!(rt;
            plan.alone.items().len(),
            alone,
            "{count} players under {rule}"
        );
    }
    Ok(())
}

#[test]
fn pairs_stand_in_order_with_their_colours(rt: HostRuntime) -> Result<(), Fail> {
    let alloc = rt.alloc();
    let mut solvers = benches(alloc, 2)?;
    let mut rows = players(alloc, 4, None)?;
    assert_eq!(rt; rows.len(), 4);
    // none is a rematch; the third has the smaller balance of the third and the fourth, the second of the first two
    for row in rows.iter_mut() {
        row.last = None;
    }
    rows[0].balance = 2;
    let idle = snapshot(1, rows);
    let plan = planned(&rt, alloc, solvers.as_mut_slice(), &idle)?.ok_or("no ranking")?;
    let want = [Pair { white: 1, black: 0 }, Pair { white: 2, black: 3 }];
    assert_eq!(rt; plan.pairs.items(), want.as_slice());
    Ok(())
}

#[test]
fn those_left_alone_stand_in_rank_order(rt: HostRuntime) -> Result<(), Fail> {
    let alloc = rt.alloc();
    let mut solvers = benches(alloc, 3)?;
    // three groups, each of one team but for a player without a team, whom one of the others meets
    let mut rows = players(alloc, 41, None)?;
    for row in rows.iter_mut() {
        row.team = if row.rank % 14 == 3 {
            None
        } else {
            Some(row.rank / 14)
        };
        row.player = row.rank.wrapping_add(100);
    }
    let idle = snapshot(1, rows);
    let plan = planned(&rt, alloc, solvers.as_mut_slice(), &idle)?.ok_or("no ranking")?;
    assert_eq!(rt; plan.pairs.items().len(), 3);
    let mut last = 0;
    for player in plan.alone.items() {
        assert!(rt; last < *player, "{last} before {player}");
        last = *player;
    }
    assert_eq!(rt; plan.alone.items().len(), 35);
    Ok(())
}

#[test]
fn a_thousand_players_have_one_plan_by_any_solvers(rt: HostRuntime) -> Result<(), Fail> {
    let alloc = rt.alloc();
    for rule in [1, 2] {
        let idle = snapshot(rule, players(alloc, 1000, None)?);
        let mut one = benches(alloc, 1)?;
        let plan = planned(&rt, alloc, one.as_mut_slice(), &idle)?.ok_or("no ranking")?;
        assert_eq!(rt; plan.pairs.items().len(), 500);
        for count in [2, 8] {
            let mut solvers = benches(alloc, count)?;
            let more = planned(&rt, alloc, solvers.as_mut_slice(), &idle)?.ok_or("no ranking")?;
            assert_eq!(rt; more.pairs.items(), plan.pairs.items(), "{count} solvers");
            assert_eq!(rt; more.alone.items(), plan.alone.items(), "{count} solvers");
            for solver in &solvers {
                assert!(rt; solver.calls > 0, "{count} solvers");
            }
        }
    }
    Ok(())
}
