use crate::{Control, Entry, Player, Setup, Start};
use conn::{List, Text};
use std::alloc::Global;
use std::test::Fail;

#[test]
fn an_entry_is_small(rt: HostRuntime) {
    assert!(rt; size_of::<Entry>() <= 40);
    assert!(rt; size_of::<Start>() <= 16);
}

fn text(alloc: Global, bytes: &[u8]) -> Result<Text, Fail> {
    Ok(Text::of(Vec::from_slice(alloc, bytes)?))
}

#[test]
fn a_setup_is_copied(rt: HostRuntime) -> Result<(), Fail> {
    let alloc = rt.alloc();
    let anna = Player {
        name: text(alloc, b"anna")?,
        rating: 1900,
        team: Some(0),
    };
    let setup = Setup {
        control: Control {
            initial_ms: 60_000,
            inc_ms: 0,
            first_ms: 20_000,
        },
        starts: 0,
        ends: 3_600_000,
        wave_ms: 5_000,
        leaders: 3,
        rule: 2,
        teams: List::of(vec![in alloc; text(alloc, b"Red")?]?),
        players: List::of(vec![in alloc; anna]?),
    };
    let copied = setup.copy(alloc)?;
    assert_eq!(rt; copied.rule, 2);
    assert_eq!(rt; copied.ends, 3_600_000);
    assert_eq!(rt; copied.players.items().len(), 1);
    assert_eq!(rt; copied.teams.items().len(), 1);
    Ok(())
}
