ghost use Rattle.std.specs.Prelude.{◌≡◌, ◌≤◌, ◌≢◌};
ghost use Rattle.entries.specs.Ranges.{IsControl};

use crate::{ActRefusal, Cause, Done, Header, Outcome, Room};
use board::{Colour, read_move};
use entries::{Action, Control, MAX_STAMP};
use std::mem::size_of;

mod endings;

const WHITE: Colour = Colour::White;

const BLACK: Colour = Colour::Black;

/// A control in seconds with 20 seconds for the first move.
fn control(initial: u64, increment: u64) -> Control
    requires initial { initial ≤ 10800 }
    requires increment { increment ≤ 180 }
    requires some { initial ≡ 0 → increment ≢ 0 }
    ensures { IsControl result }
{
    Control {
        initial_ms: 1000 * initial,
        inc_ms: 1000 * increment,
        first_ms: 20000,
    }
}

fn new_room(initial: u64, increment: u64, start: u64) -> Option<Room> {
    if initial > 10800 || increment > 180 || (initial == 0 && increment == 0) || start > MAX_STAMP {
        return None;
    }
    Some(Room::new(Header {
        id: 7,
        white: 0,
        black: 1,
        control: control(initial, increment),
        start,
    }))
}

/// The answer to an action, if the stamp is one at which the room may be asked.
fn acted(room: &mut Room, who: Colour, a: Action, t: u64) -> Option<Result<Done, ActRefusal>> {
    if t < room.turn_start() || t > MAX_STAMP || room.plies() >= 8_000_000 {
        return None;
    }
    Some(room.act(who, a, t))
}

/// The answer to the move of this word by the side to move.
fn moved(room: &mut Room, word: &[u8], t: u64) -> Option<Result<Done, ActRefusal>> {
    let m = read_move(word)?;
    let who = if room.plies() % 2 == 0 { WHITE } else { BLACK };
    acted(room, who, Action::Move(m), t)
}

/// The answer to the last of some moves, all at one stamp.
fn played(room: &mut Room, words: &[&[u8]], t: u64) -> Option<Result<Done, ActRefusal>> {
    let mut last = None;
    for word in words {
        last = moved(room, word, t);
    }
    last
}

fn ended(
    winner: Option<Colour>,
    cause: Cause,
    plies: u32,
    stamp: u64,
) -> Option<Result<Done, ActRefusal>> {
    Some(Ok(Done::Ended(Outcome {
        winner,
        cause,
        plies,
        white_berserk: false,
        black_berserk: false,
        stamp,
    })))
}

#[test]
fn mate_after_four_plies(rt: HostRuntime) {
    let Some(mut room) = new_room(180, 2, 1000) else {
        panic!(rt; "a control out of range");
    };
    assert_eq!(rt;
        acted(&mut room, WHITE, Action::Berserk, 1000),
        Some(Ok(Done::Noted))
    );
    assert_eq!(rt; moved(&mut room, b"f2f3", 2000), Some(Ok(Done::Moved)));
    assert_eq!(rt; moved(&mut room, b"e7e5", 3000), Some(Ok(Done::Moved)));
    assert_eq!(rt; moved(&mut room, b"g2g4", 4000), Some(Ok(Done::Moved)));
    let outcome = Outcome {
        winner: Some(BLACK),
        cause: Cause::Mate,
        plies: 4,
        white_berserk: true,
        black_berserk: false,
        stamp: 5000,
    };
    assert_eq!(rt;
        moved(&mut room, b"d8h4", 5000),
        Some(Ok(Done::Ended(outcome)))
    );
    assert_eq!(rt;
        moved(&mut room, b"a2a3", 6000),
        Some(Err(ActRefusal::Over))
    );
}

#[test]
fn stalemate_after_nineteen_plies(rt: HostRuntime) {
    let Some(mut room) = new_room(180, 2, 1000) else {
        panic!(rt; "a control out of range");
    };
    let words: [&[u8]; 19] = [
        b"e2e3", b"a7a5", b"d1h5", b"a8a6", b"h5a5", b"h7h5", b"h2h4", b"a6h6", b"a5c7", b"f7f6",
        b"c7d7", b"e8f7", b"d7b7", b"d8d3", b"b7b8", b"d3h7", b"b8c8", b"f7g6", b"c8e6",
    ];
    assert_eq!(rt;
        played(&mut room, &words, 1000),
        ended(None, Cause::Stalemate, 19, 1000)
    );
}

/// Moves before the knights go out and back, after which the start's two sides repeat what stood there.
const OPENING: [&[u8]; 4] = [b"e2e4", b"e7e5", b"d2d4", b"d7d5"];

const KNIGHTS: [&[u8]; 4] = [b"g1f3", b"g8f6", b"f3g1", b"f6g8"];

#[test]
fn repetitions_are_claimed_and_end_the_game(rt: HostRuntime) {
    let Some(mut room) = new_room(180, 2, 1000) else {
        panic!(rt; "a control out of range");
    };
    played(&mut room, &OPENING, 1000);
    played(&mut room, &KNIGHTS, 1000);
    played(&mut room, &KNIGHTS[..3], 1000);
    assert_eq!(rt;
        acted(&mut room, BLACK, Action::Claim, 1000),
        Some(Err(ActRefusal::NoClaim))
    );
    assert_eq!(rt; moved(&mut room, KNIGHTS[3], 1000), Some(Ok(Done::Moved)));
    assert_eq!(rt;
        acted(&mut room, BLACK, Action::Claim, 1000),
        Some(Err(ActRefusal::NotYourTurn))
    );
    played(&mut room, &KNIGHTS, 1000);
    assert_eq!(rt;
        played(&mut room, &KNIGHTS, 1000),
        ended(None, Cause::Fivefold, 20, 1000)
    );

    let Some(mut claimed) = new_room(180, 2, 1000) else {
        panic!(rt; "a control out of range");
    };
    played(&mut claimed, &OPENING, 1000);
    played(&mut claimed, &KNIGHTS, 1000);
    played(&mut claimed, &KNIGHTS, 1000);
    assert_eq!(rt;
        acted(&mut claimed, WHITE, Action::Claim, 1000),
        ended(None, Cause::Threefold, 12, 1000)
    );
}

#[test]
fn flags_fall_at_the_last_millisecond(rt: HostRuntime) {
    for (t, answer, white_ms) in [
        (61999, Some(Ok(Done::Moved)), 1),
        (62000, ended(Some(BLACK), Cause::Flag, 2, 62000), 0),
    ] {
        let Some(mut room) = new_room(60, 0, 0) else {
            panic!(rt; "a control out of range");
        };
        moved(&mut room, b"e2e4", 1000);
        moved(&mut room, b"e7e5", 2000);
        assert_eq!(rt; moved(&mut room, b"g1f3", t), answer);
        assert!(rt; room.turn_start() <= 70000);
        assert_eq!(rt; room.view(70000).white_ms, white_ms);
    }
}

#[test]
fn first_moves_are_due_at_the_last_millisecond(rt: HostRuntime) {
    for (t, looked) in [(20999, None), (21000, Some(Cause::NoShow))] {
        let Some(mut room) = new_room(60, 0, 1000) else {
            panic!(rt; "a control out of range");
        };
        assert!(rt; room.turn_start() <= t);
        assert_eq!(rt; room.due(t), looked.is_some());
        assert_eq!(rt; room.tick(t).map(|outcome| outcome.cause), looked);
        assert!(rt; room.turn_start() <= t);
        assert_eq!(rt; room.tick(t), None);
    }
}

#[test]
fn any_action_ends_a_due_game(rt: HostRuntime) {
    for (who, a) in [
        (WHITE, Action::Accept),
        (BLACK, Action::Berserk),
        (BLACK, Action::Offer),
        (WHITE, Action::Claim),
    ] {
        let Some(mut room) = new_room(60, 0, 1000) else {
            panic!(rt; "a control out of range");
        };
        assert_eq!(rt;
            acted(&mut room, who, a, 21000),
            ended(Some(BLACK), Cause::NoShow, 0, 21000)
        );
        assert_eq!(rt;
            acted(&mut room, who, Action::Offer, 21000),
            Some(Err(ActRefusal::Over))
        );
    }
}

#[test]
fn offers_stand_and_lapse(rt: HostRuntime) {
    let Some(mut room) = new_room(180, 2, 1000) else {
        panic!(rt; "a control out of range");
    };
    let stands = Some(Err(ActRefusal::OfferStands));
    let noted = Some(Ok(Done::Noted));
    assert_eq!(rt; acted(&mut room, WHITE, Action::Offer, 1000), noted);
    assert_eq!(rt; acted(&mut room, WHITE, Action::Offer, 1000), stands);
    assert_eq!(rt; acted(&mut room, BLACK, Action::Offer, 1000), stands);
    assert_eq!(rt;
        acted(&mut room, WHITE, Action::Accept, 1000),
        Some(Err(ActRefusal::NoOffer))
    );
    assert_eq!(rt; acted(&mut room, BLACK, Action::Decline, 1000), noted);
    assert_eq!(rt;
        acted(&mut room, BLACK, Action::Decline, 1000),
        Some(Err(ActRefusal::NoOffer))
    );
    assert_eq!(rt;
        acted(&mut room, WHITE, Action::Offer, 1000),
        stands,
        "declined before the next move"
    );
    moved(&mut room, b"e2e4", 1000);
    assert_eq!(rt; acted(&mut room, WHITE, Action::Offer, 1000), noted);
    moved(&mut room, b"e7e5", 1000);
    assert_eq!(rt;
        acted(&mut room, BLACK, Action::Accept, 1000),
        Some(Err(ActRefusal::NoOffer)),
        "lapsed"
    );
    assert_eq!(rt; acted(&mut room, WHITE, Action::Offer, 1000), noted);
    moved(&mut room, b"g1f3", 1000);
    assert_eq!(rt;
        acted(&mut room, BLACK, Action::Accept, 1000),
        ended(None, Cause::Agreed, 3, 1000)
    );
}

/// Initial time and increment in seconds, the answer to Black's berserk, and Black's bank after it.
const BERSERKS: [((u64, u64), Result<Done, ActRefusal>, u64); 3] = [
    ((180, 0), Ok(Done::Noted), 90000),
    ((60, 2), Ok(Done::Noted), 60000),
    ((0, 2), Err(ActRefusal::BerserkZero), 2000),
];

#[test]
fn berserks_and_moves_are_refused_in_order(rt: HostRuntime) {
    for ((initial, increment), answer, bank) in BERSERKS {
        let Some(mut room) = new_room(initial, increment, 1000) else {
            panic!(rt; "a control out of range");
        };
        let berserk = Action::Berserk;
        assert_eq!(rt; acted(&mut room, BLACK, berserk, 1000), Some(answer));
        assert!(rt; room.turn_start() <= 2000);
        assert_eq!(rt; room.view(2000).black_ms, bank);
        assert_eq!(rt;
            acted(&mut room, BLACK, Action::Berserk, 1000),
            Some(Err(match answer {
                Ok(_) => ActRefusal::BerserkTwice,
                Err(refusal) => refusal,
            }))
        );
        assert_eq!(rt;
            moved(&mut room, b"e2e5", 1000),
            Some(Err(ActRefusal::Illegal))
        );
        assert_eq!(rt; moved(&mut room, b"e2e4", 1000), Some(Ok(Done::Moved)));
        assert_eq!(rt;
            acted(&mut room, WHITE, Action::Berserk, 1000),
            Some(Err(ActRefusal::BerserkLate))
        );
        assert_eq!(rt;
            acted(&mut room, WHITE, Action::Claim, 1000),
            Some(Err(ActRefusal::NotYourTurn))
        );
        let resigned = acted(&mut room, BLACK, Action::Resign, 1000);
        assert_eq!(rt; resigned.map(|answer| answer.is_ok()), Some(true));
    }
}

#[test]
fn a_draw_is_agreed_before_any_move(rt: HostRuntime) {
    let Some(mut room) = new_room(180, 2, 1000) else {
        panic!(rt; "a control out of range");
    };
    assert_eq!(rt;
        acted(&mut room, WHITE, Action::Offer, 1000),
        Some(Ok(Done::Noted))
    );
    assert_eq!(rt;
        acted(&mut room, WHITE, Action::Offer, 1000),
        Some(Err(ActRefusal::OfferStands))
    );
    assert_eq!(rt;
        acted(&mut room, BLACK, Action::Accept, 1000),
        ended(None, Cause::Agreed, 0, 1000)
    );
}

fn can_be_shared<T: Send + Sync + Drop>(_value: &T) {}

#[test]
fn a_room_is_small_and_can_be_shared(rt: HostRuntime) {
    let Some(room) = new_room(180, 2, 1000) else {
        panic!(rt; "a control out of range");
    };
    can_be_shared(&room);
    assert!(rt; size_of::<Room>() <= 8_192);
}

/// How many of the moves of a game in which the knights go out and back three times are accepted.
fn accepted() -> u32 {
    let Some(mut room) = new_room(180, 2, 1000) else {
        return 0;
    };
    played(&mut room, &OPENING, 1000);
    for _ in 0..3 {
        played(&mut room, &KNIGHTS, 1000);
    }
    room.plies()
}

#[test]
fn ten_thousand_moves_are_accepted(rt: HostRuntime) {
    for _ in 0..625 {
        assert_eq!(rt; accepted(), 16);
    }
}

#[test]
fn refusals_have_their_numbers(rt: HostRuntime) {
    let numbers = [
        ActRefusal::Over as u8,
        ActRefusal::NotYourTurn as u8,
        ActRefusal::Illegal as u8,
        ActRefusal::OfferStands as u8,
        ActRefusal::NoOffer as u8,
        ActRefusal::NoClaim as u8,
        ActRefusal::BerserkLate as u8,
        ActRefusal::BerserkTwice as u8,
        ActRefusal::BerserkZero as u8,
    ];
    assert_eq!(rt; numbers, [1, 2, 3, 4, 5, 6, 7, 8, 9]);
}
