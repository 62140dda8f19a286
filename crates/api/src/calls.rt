//! The call that a request means.

ghost use Rattle.std.specs.Prelude.{◌≡◌, ◌<◌, ◌≤◌, ◌==◌, length, drop, position, IfOk, IfSome};
ghost use Rattle.api.specs.Paths.{part, parameter_at, game_part, last_part};
ghost use Rattle.api.specs.Calls.{or_error, checked, caller, at_most, number_up_to, game_in, draw_action, move_action, acting, own_call, called};

use crate::call::Call;
use crate::error::ApiError;
use crate::resource::{Method, OwnResource, Resource};
use arena_rules::{Command, Query};
use conn::Text;
use entries::Action;
use http_lines::{Extra, RequestHead};
use journal_text::move_of;
use setup_file::Keys;

/// Whether a row of this method is asked for by this word. Methods are told apart by case (RFC 9110, section 9.1).
#[tactic(auto, unfolding(crate::specs::Calls::checked))]
pub(crate) fn check_method(method: Method, word: &[u8]) -> Result<(), ApiError>
    ensures { result ≡ checked method word.now }
{
    match method {
        Method::Get if word != b"GET".as_slice() => Err(ApiError::BadMethod(Extra::AllowGet)),
        Method::Post if word != b"POST".as_slice() => Err(ApiError::BadMethod(Extra::AllowPost)),
        _ => Ok(()),
    }
}

/// The call on a row, by whoever has the key where one is needed.
#[tactic(auto, unfolding(crate::specs::Calls::called))]
pub(crate) fn call_on(resource: Resource, keys: &Keys, head: &RequestHead) -> Result<Call, ApiError>
    ensures { result ≡ called keys.now head.now resource }
{
    let path = head.path.bytes();
    match resource {
        Resource::Arena => Ok(Call::Query(Query::Arena)),
        Resource::Standing => {
            let page = number_up_to(999, parameter_at(14, path))?;
            Ok(Call::Query(Query::Standing(page as u32)))
        }
        Resource::Teams => Ok(Call::Query(Query::Teams)),
        Resource::Game => Ok(Call::Query(Query::Game(game_in(path)?))),
        Resource::Journal => {
            let from = number_up_to(8_000_000, parameter_at(13, path))?;
            Ok(Call::Query(Query::Journal(from)))
        }
        Resource::Own(own) => own_call(caller(keys, &head.bearer)?, path, own),
    }
}

// The number of the player who has the key that was sent.
#[tactic(auto, unfolding(crate::specs::Calls::caller))]
fn caller(keys: &Keys, bearer: &Option<Text>) -> Result<u32, ApiError>
    ensures { result ≡ caller keys.now bearer.now }
{
    let Some(key) = bearer else {
        return Err(ApiError::NoKey);
    };
    keys.find(key.bytes()).ok_or(ApiError::UnknownKey)
}

// The call of a player on a row about himself.
#[tactic(auto, unfolding(crate::specs::Calls::own_call))]
fn own_call(player: u32, path: &[u8], own: OwnResource) -> Result<Call, ApiError>
    ensures { result ≡ own_call player path.now own }
{
    match own {
        OwnResource::Me => Ok(Call::Query(Query::Me(player))),
        OwnResource::Enter => Ok(Call::Command(Command::Enter(player))),
        OwnResource::Pause => Ok(Call::Command(Command::Pause(player))),
        OwnResource::Leave => Ok(Call::Command(Command::Leave(player))),
        OwnResource::Move => acting(player, path, move_action(last_part(path))),
        OwnResource::Draw => acting(player, path, draw_action(last_part(path))),
        OwnResource::Resign => acting(player, path, Ok(Action::Resign)),
        OwnResource::Claim => acting(player, path, Ok(Action::Claim)),
        OwnResource::Berserk => acting(player, path, Ok(Action::Berserk)),
    }
}

// The action of a player in the game of a path.
#[tactic(auto, unfolding(crate::specs::Calls::acting))]
fn acting(player: u32, path: &[u8], action: Result<Action, ApiError>) -> Result<Call, ApiError>
    ensures { result ≡ acting player path.now action }
{
    let game = game_in(path)?;
    Ok(Call::Command(Command::Act(player, game, action?)))
}

// The game of a path.
#[tactic(auto, unfolding(crate::specs::Calls::game_in))]
fn game_in(path: &[u8]) -> Result<u32, ApiError>
    ensures { result ≡ game_in path.now }
{
    let game = number_up_to(u64::from(u32::MAX), game_part(path))?;
    Ok(game as u32)
}

// The number that the word says, up to a greatest one.
#[tactic(auto, unfolding(crate::specs::Calls::number_up_to))]
fn number_up_to(most: u64, word: &[u8]) -> Result<u64, ApiError>
    ensures is { result ≡ number_up_to most word.now }
    ensures most { IfOk result (λ n. n ≤ most) }
{
    match decimals::read(word) {
        Some(n) if n <= most => Ok(n),
        _ => Err(ApiError::BadParam),
    }
}

// What a word says of a draw.
#[tactic(auto, unfolding(crate::specs::Calls::draw_action))]
fn draw_action(word: &[u8]) -> Result<Action, ApiError>
    ensures { result ≡ draw_action word.now }
{
    if word == b"offer".as_slice() {
        Ok(Action::Offer)
    } else if word == b"accept".as_slice() {
        Ok(Action::Accept)
    } else if word == b"decline".as_slice() {
        Ok(Action::Decline)
    } else {
        Err(ApiError::BadParam)
    }
}

// The move that a word names.
#[tactic(auto, unfolding(crate::specs::Calls::move_action))]
fn move_action(word: &[u8]) -> Result<Action, ApiError>
    ensures { result ≡ move_action word.now }
{
    match move_of(word) {
        None => Err(ApiError::BadParam),
        Some(m) => Ok(Action::Move(m)),
    }
}

// What stands behind so many bytes.
fn behind(n: usize, path: &[u8]) -> &[u8]
    ensures { result.now ≡ drop n path.now }
{
    &path[n.min(path.len())..]
}

// The place of the first slash.
fn first_slash(path: &[u8]) -> Option<usize>
    ensures first { result ≡ position (λ b. b == 47) path.now }
    ensures within { IfSome result (λ at. at < length path.now) }
{
    path.iter().position(|b| *b == b'/')
}

// The bytes up to the first slash.
fn part(path: &[u8]) -> &[u8]
    ensures { result.now ≡ part path.now }
{
    match first_slash(path) {
        Some(at) => &path[..at],
        None => path,
    }
}

// What stands behind a text of so many bytes up to the next slash.
fn parameter_at(n: usize, path: &[u8]) -> &[u8]
    ensures { result.now ≡ parameter_at n path.now }
{
    part(behind(n, path))
}

// The game of a path, behind `/api/game/`.
fn game_part(path: &[u8]) -> &[u8]
    ensures { result.now ≡ game_part path.now }
{
    parameter_at(10, path)
}

// The word at the end of a path, behind the game and `/move/` or `/draw/`.
fn last_part(path: &[u8]) -> &[u8]
    ensures { result.now ≡ last_part path.now }
{
    parameter_at(6, behind(game_part(path).len(), behind(10, path)))
}
