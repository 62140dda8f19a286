//! The bodies of answers, as texts.

ghost use Rattle.std.specs.Prelude.{◌≡◌, IfOk, false};
ghost use Rattle.serde_json.specs.View.{view};
ghost use Rattle.serde_json.specs.Written.{has_float};
ghost use Rattle.entries.specs.Ranges.{IsGood};
ghost use Rattle.api.specs.Bodies.{body_of, error_data, reply_data, number_asked, answer_data, IsShownReply, IsShownAnswer};

use crate::error::ApiError;
use crate::game::game_value;
use crate::values::{
    arena_value, error_value, journal_value, me_value, standing_value, teams_value,
};
use arena_rules::{Answer, Query, Reply};
use conn::Text;
use entries::Setup;
use serde_json::Value;
use std::alloc::{AllocError, Global};

/// The body of an error: an object whose one member `error` is its name.
pub fn error_body(alloc: Global, e: &ApiError) -> Result<Text, AllocError>
    ensures { IfOk result (λ text. text ≡ body_of (error_data e.now)) }
{
    let value = error_value(alloc, e)?;
    text_of(alloc, &value)
}

/// The body of what an accepted command of a player is answered. The setup is good, and the players that the reply shows are of
/// the setup.
pub fn reply_body(alloc: Global, setup: &Setup, reply: &Reply) -> Result<Text, AllocError>
    requires good { IsGood setup.now }
    requires shown { IsShownReply setup.now reply.now }
    ensures { IfOk result (λ text. text ≡ body_of (reply_data setup.now reply.now)) }
{
    let value = reply_value(alloc, setup, reply)?;
    text_of(alloc, &value)
}

// What an accepted command is answered, as a value.
fn reply_value(alloc: Global, setup: &Setup, reply: &Reply) -> Result<Value, AllocError>
    requires good { IsGood setup.now }
    requires shown { IsShownReply setup.now reply.now }
    ensures { IfOk result (λ v. view v ≡ reply_data setup.now reply.now) }
{
    match reply {
        Reply::Me(me) => me_value(alloc, setup, me),
        Reply::Game(game) => game_value(alloc, setup, game),
        Reply::Ticked(_) => unreachable!(),
    }
}

/// The body of what a question is answered. The setup is good, and the players and teams whose names the answer shows are of the
/// setup. The question tells the number of the page of a table and of the first entry of a journal.
pub fn answer_body(
    alloc: Global,
    setup: &Setup,
    query: &Query,
    answer: &Answer,
) -> Result<Text, AllocError>
    requires good { IsGood setup.now }
    requires shown { IsShownAnswer setup.now answer.now }
    ensures { IfOk result (λ text. text ≡ body_of (answer_data setup.now (number_asked query.now) answer.now)) }
{
    let value = answer_value(alloc, setup, number_asked(query), answer)?;
    text_of(alloc, &value)
}

// The number in a question about a list.
fn number_asked(query: &Query) -> u64
    ensures { result ≡ number_asked query.now }
{
    match query {
        Query::Standing(page) => u64::from(*page),
        Query::Journal(from) => *from,
        Query::Arena | Query::Teams | Query::Me(_) | Query::Game(_) => 0,
    }
}

// What a question is answered, as a value.
fn answer_value(
    alloc: Global,
    setup: &Setup,
    asked: u64,
    answer: &Answer,
) -> Result<Value, AllocError>
    requires good { IsGood setup.now }
    requires shown { IsShownAnswer setup.now answer.now }
    ensures { IfOk result (λ v. view v ≡ answer_data setup.now asked answer.now) }
{
    match answer {
        Answer::Arena(arena) => arena_value(alloc, setup, arena),
        Answer::Standing { total, rows } => {
            standing_value(alloc, setup, asked, *total, rows.items())
        }
        Answer::Teams(rows) => teams_value(alloc, setup, rows.items()),
        Answer::Me(me) => me_value(alloc, setup, me),
        Answer::Game(game) => game_value(alloc, setup, game),
        Answer::Journal { total, entries } => journal_value(alloc, asked, *total, entries.items()),
    }
}

// The compact text of a value without floats (RFC 8259).
fn text_of(alloc: Global, value: &Value) -> Result<Text, AllocError>
    requires { has_float (view value.now) ≡ false }
    ensures { IfOk result (λ text. text ≡ body_of (view value.now)) }
{
    let text = value.to_string(alloc)?;
    Ok(Text::of(text.into_bytes()))
}
