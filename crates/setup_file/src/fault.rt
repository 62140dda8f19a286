//! Why a file holds no setup.

ghost use Rattle.std.specs.Prelude.{◌≡◌, min};
ghost use Rattle.setup_file.specs.declared.fault.ReadSetupFault.TheVariants.{Bad, OutOfMemory};
ghost use Rattle.setup_file.specs.Reading.{at, fault_of, last_index, none_at};

use std::alloc::{AllocError, AllocFailed};

/// A member of a setup's file.
#[derive(Clone, Copy, Debug, PartialEq, Eq)]
pub enum Member {
    /// The whole file.
    Whole,
    /// `control`: an object, with the three members that follow.
    Control,
    /// `initial` of `control`: 0 to 10,800 seconds.
    Initial,
    /// `increment` of `control`: 0 to 180 seconds, and not 0 where `initial` is.
    Increment,
    /// `first` of `control`: 1,000 to 300,000 milliseconds, 20,000 if missing.
    First,
    /// `starts`: 0 to 899,999,999 milliseconds after the program's start.
    Starts,
    /// `ends`: above `starts`, and at most 900,000,000 milliseconds after the program's start.
    Ends,
    /// `wave`: 100 to 600,000 milliseconds, 5,000 if missing.
    Wave,
    /// `leaders`: 1 to 20, 5 if missing.
    Leaders,
    /// `rule`: 1 or 2, 1 if missing.
    Rule,
    /// `teams`: at most 100 names, no two the same; none if missing.
    Teams,
    /// `players`: 1 to 1,000 objects, each with the four members that follow.
    Players,
    /// `name` of a player: 1 to 20 letters, digits, `_` or `-`, which no player before has.
    Name,
    /// `rating` of a player: 400 to 4,000.
    Rating,
    /// `key` of a player: 16 to 64 letters, digits or `_`, which no player before has.
    Key,
    /// `team` of a player: a name of `teams`; missing or null for a player of no team.
    Team,
}

/// Why a member cannot stand: the first of these that holds of it.
#[derive(Clone, Copy, Debug, PartialEq, Eq)]
pub enum SetupCause {
    /// The bytes are no JSON text in UTF-8, or nest deeper than 127.
    NotJson,
    /// A member that must stand does not.
    Missing,
    /// The member is of another kind. A whole number has no sign, point or exponent, and is below 2 to the 64th.
    Kind,
    /// A number or a count is out of its range, or a name or key has not its form.
    Range,
    /// The same team, player's name or key stood before.
    Repeat,
    /// A player's team is no name of `teams`.
    UnknownTeam,
}

/// What is wrong with a file, and where.
#[derive(Clone, Copy, Debug, PartialEq, Eq)]
pub struct SetupFault {
    pub member: Member,
    /// For an element of `teams` or `players`, and for a member of a player, the element's place in its list, from 0.
    /// Otherwise 0. An element behind the 4,294,967,296th has the index 4,294,967,295.
    pub index: u32,
    pub cause: SetupCause,
}

/// Why there is no setup.
#[derive(Clone, Copy, Debug, PartialEq, Eq)]
pub enum ReadSetupFault {
    /// The file holds no setup, and this is its first fault.
    Bad(SetupFault),
    /// There was no room for the file's value, the names or the keys. It says nothing of the file.
    OutOfMemory,
}

impl From<SetupFault> for ReadSetupFault {
    ghost from_gives = { λ fault e. e ≡ Bad fault };

    fn from(fault: SetupFault) -> ReadSetupFault {
        ReadSetupFault::Bad(fault)
    }
}

impl From<AllocError> for ReadSetupFault {
    ghost from_gives = { λ _ e. e ≡ OutOfMemory };

    fn from(_e: AllocError) -> ReadSetupFault {
        ReadSetupFault::OutOfMemory
    }
}

impl<T: Drop> From<AllocFailed<T>> for ReadSetupFault {
    ghost from_gives = { λ _ e. e ≡ OutOfMemory };

    fn from(_e: AllocFailed<T>) -> ReadSetupFault {
        ReadSetupFault::OutOfMemory
    }
}

/// The fault of a member, or of an element of a list, of this cause.
pub(crate) fn fault_of(member: Member, index: u32, cause: SetupCause) -> SetupFault
    ensures { result ≡ fault_of member index cause }
{
    SetupFault {
        member,
        index,
        cause,
    }
}

/// What this member gives, or the fault of it.
pub(crate) fn at<T>(
    member: Member,
    index: u32,
    given: Result<T, SetupCause>,
) -> Result<T, SetupFault>
    ensures { result ≡ at member index given }
{
    match given {
        Ok(given) => Ok(given),
        Err(cause) => Err(fault_of(member, index, cause)),
    }
}

/// No element has this fault, or the first that has it does.
pub(crate) fn none_at(
    member: Member,
    cause: SetupCause,
    place: Option<usize>,
) -> Result<(), SetupFault>
    ensures { result ≡ none_at member cause place }
{
    match place {
        None => Ok(()),
        Some(place) => Err(fault_of(member, index_of(place), cause)),
    }
}

/// The index that a fault has for an element at this place.
fn index_of(place: usize) -> u32
    ensures { result ≡ min place last_index }
{
    place.min(u32::MAX as usize) as u32
}
