use crate::Refusal;
use game_room::ActRefusal;

#[test]
fn refusals_are_numbered_from_one_to_ten(rt: HostRuntime) {
    let numbered = [
        (Refusal::NotEntered, 1),
        (Refusal::AlreadyIn, 2),
        (Refusal::AlreadyPaused, 3),
        (Refusal::Left, 4),
        (Refusal::Closed, 5),
        (Refusal::NoGame, 6),
        (Refusal::NotYours, 7),
        (Refusal::Act(ActRefusal::Over), 8),
        (Refusal::Act(ActRefusal::BerserkZero), 8),
        (Refusal::NothingDue, 9),
        (Refusal::Full, 10),
    ];
    for (refusal, number) in numbered {
        assert_eq!(rt; refusal.number(), number);
    }
}
