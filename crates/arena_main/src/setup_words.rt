//! What is said of the fault of a setup's file, in words.

use setup_file::{Member, SetupCause, SetupFault};
use std::fmt;
use std::fmt::{Display, Formatter, Write};

// Where a member stands in the file: a member of a player behind the player's place in the list.
fn name_of(member: Member) -> &'static str {
    match member {
        Member::Whole => "the file",
        Member::Control => "control",
        Member::Initial => "control.initial",
        Member::Increment => "control.increment",
        Member::First => "control.first",
        Member::Starts => "starts",
        Member::Ends => "ends",
        Member::Wave => "wave",
        Member::Leaders => "leaders",
        Member::Rule => "rule",
        Member::Teams => "teams",
        Member::Players => "players",
        Member::Name => "name",
        Member::Rating => "rating",
        Member::Key => "key",
        Member::Team => "team",
    }
}

fn cause_words(cause: SetupCause) -> &'static str {
    match cause {
        SetupCause::NotJson => "is no JSON text in UTF-8",
        SetupCause::Missing => "is missing",
        SetupCause::Kind => "is of another kind than it should be",
        SetupCause::Range => "is out of its range, or has not its form",
        SetupCause::Repeat => "stood before",
        SetupCause::UnknownTeam => "is no name of teams",
    }
}

/// The fault of a setup's file as a sentence: which member cannot stand, in which element of a list, and why. Where the first
/// element of a list is named, it may be the list itself.
#[derive(Debug, Clone, Copy)]
pub struct SetupWords(pub SetupFault);

impl Display for SetupWords {
    fn fmt<W: Write>(&self, f: &mut Formatter<W>) -> fmt::Result {
        let SetupFault {
            member,
            index,
            cause,
        } = self.0;
        let (name, why) = (name_of(member), cause_words(cause));
        match member {
            Member::Name | Member::Rating | Member::Key | Member::Team => {
                write!(f, "players[{index}].{name} {why}")
            }
            Member::Teams | Member::Players if index > 0 => write!(f, "{name}[{index}] {why}"),
            Member::Teams | Member::Players if cause != SetupCause::Missing => {
                write!(f, "{name}, or {name}[0], {why}")
            }
            _ => write!(f, "{name} {why}"),
        }
    }
}
