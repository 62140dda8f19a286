use crate::generate;
use entries::{Journal, What};
use std::alloc::{AllocError, Global};
use std::test::Fail;

/// Of how many entries each wave's plan is.
fn wave_lengths(alloc: Global, journal: &Journal) -> Result<Vec<u64>, AllocError> {
    let mut lengths = Vec::new(alloc);
    for e in journal.entries.items() {
        if let What::Wave(n) = e.what {
            lengths.push(n)?;
        }
    }
    Ok(lengths)
}

/// The number of the game in which the last entry is an act.
fn last_game(journal: &Journal) -> Option<u32> {
    match journal.entries.items().last()?.what {
        What::Act(_, game, _) => Some(game),
        _ => None,
    }
}

/// The two ratings, where there are two players.
fn ratings(journal: &Journal) -> Option<(u32, u32)> {
    match journal.setup.players.items() {
        [one, other] => Some((one.rating, other.rating)),
        _ => None,
    }
}

#[test]
fn two_players_play_four_scripts(rt: HostRuntime) -> Result<(), Fail> {
    let journal = generate(&rt, rt.alloc(), 0, 2)?;
    let lengths = wave_lengths(rt.alloc(), &journal)?;
    assert_eq!(rt; ratings(&journal), Some((1000, 1468)));
    assert_eq!(rt; lengths.as_slice(), [2, 22, 27, 29].as_slice());
    assert_eq!(rt; journal.entries.items().len(), 34);
    Ok(())
}

#[test]
fn no_entry_is_left_out(rt: HostRuntime) -> Result<(), Fail> {
    for (players, games) in [(100u32, 200u32), (1000, 2000)] {
        let journal = generate(&rt, rt.alloc(), 0, players)?;
        assert_eq!(rt; last_game(&journal), Some(games - 1));
    }
    Ok(())
}
