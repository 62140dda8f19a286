//! The laws that the proofs of this crate rest on.

ghost use Rattle.host.specs.Steps.{LawsOfRequests, LawsOfShown, LawsOfTurns};

use arena_history::{beginnings_are_histories, games_with_one_more};
use arena_rules::{games_of_legal_lists, legal_lists, stamps_of_entries, tables_of_legal_lists};
use http_lines::{requests_of_bytes, requests_that_were_read};
use team_battle::each_team_stands_once;

/// The players and teams whom replies and answers show are those of the setup.
pub(crate) fn laws_of_shown()
    ensures { LawsOfShown }
{
    beginnings_are_histories();
    games_with_one_more();
    games_of_legal_lists();
    tables_of_legal_lists();
    each_team_stands_once();
}

/// The stamp of what is done in a turn may stand behind the entries that the turn found.
pub(crate) fn laws_of_turns()
    ensures { LawsOfTurns }
{
    legal_lists();
    stamps_of_entries();
}

/// The requests of bytes are one list, and those that were read are its beginning.
pub(crate) fn laws_of_requests()
    ensures { LawsOfRequests }
{
    requests_of_bytes();
    requests_that_were_read();
}
