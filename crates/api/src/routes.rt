//! The route table.

ghost use Rattle.std.specs.Prelude.{◌≡◌, [], OnOk, true};
ghost use Rattle.std.specs.List.{list_all};
ghost use Rattle.api.specs.Calls.{is_visible, found, call_of};
ghost use Rattle.api.specs.Paths.{resource_of};
ghost use Rattle.api.specs.Table.{table};

use crate::call::Call;
use crate::calls::{call_on, check_method};
use crate::error::ApiError;
use crate::resource::{OwnResource, Resource};
use http_lines::RequestHead;
use matchit::{InsertError, Router};
use setup_file::Keys;
use std::alloc::{AllocError, Global};
use std::marker::Model;

/// The route table, by which the path of a request finds its row. There is one such table, so contracts see nothing of it.
#[derive(Drop)]
pub struct Routes {
    router: Router<Resource>,
}

impl Model for Routes {
    ghost use Rattle.std.specs.Prelude.{◌≡◌};
    ghost use Rattle.api.specs.Table.{table};

    ghost Value = { Unit {0} };

    ghost view = { λ _. tt };

    ghost invariant = { λ r. r.router ≡ table };
}

impl Routes {
    /// The route table. It takes some memory for each of its fourteen rows.
    pub fn new(alloc: Global) -> Result<Routes, AllocError> {
        let mut router = Router::new(alloc);
        match insert_rows(&mut router) {
            Ok(()) => Ok(Routes { router }),
            Err(_) => Err(AllocError),
        }
    }

    /// The call that a request means, or its first error. It takes no memory. `keys` are those of the players, by their numbers.
    #[tactic(auto, unfolding(crate::specs::Calls::call_of))]
    pub fn route(&self, keys: &Keys, head: &RequestHead) -> Result<Call, ApiError>
        ensures { result ≡ call_of keys.now head.now }
    {
        let resource = self.find(head.path.bytes())?;
        check_method(resource.method(), head.method.bytes())?;
        call_on(resource, keys, head)
    }

    // The row of a path.
    #[tactic(auto, unfolding(crate::specs::Calls::found))]
    fn find(&self, path: &[u8]) -> Result<Resource, ApiError>
        ensures { result ≡ found path.now }
    {
        if !are_visible(path) {
            return Err(ApiError::NoRoute);
        }
        match str::from_utf8(path) {
            Ok(path) => self.resource_of(path).ok_or(ApiError::NoRoute),
            Err(_) => unreachable!(),
        }
    }

    // The row of a visible path.
    fn resource_of(&self, path: &str) -> Option<Resource>
        requires { list_all is_visible path.now ≡ true }
        ensures { result ≡ resource_of path.now }
    {
        match self.router.at(path) {
            Ok(found) => Some(*found.value),
            Err(_) => None,
        }
    }
}

// Whether each byte may stand in a path.
fn are_visible(path: &[u8]) -> bool
    ensures { result ≡ list_all is_visible path.now }
{
    path.iter().all(|b| 33 <= *b && *b <= 126)
}

// Puts all rows into an empty router.
fn insert_rows(router: &mut Router<Resource>) -> Result<(), InsertError>
    requires { router.old ≡ [] }
    ensures { OnOk result (router.new ≡ table) }
{
    router.insert("/api/arena", Resource::Arena)?;
    router.insert("/api/standing/{page}", Resource::Standing)?;
    router.insert("/api/teams", Resource::Teams)?;
    router.insert("/api/me", Resource::Own(OwnResource::Me))?;
    router.insert("/api/game/{id}", Resource::Game)?;
    router.insert("/api/journal/{from}", Resource::Journal)?;
    router.insert("/api/enter", Resource::Own(OwnResource::Enter))?;
    router.insert("/api/pause", Resource::Own(OwnResource::Pause))?;
    router.insert("/api/leave", Resource::Own(OwnResource::Leave))?;
    router.insert(
        "/api/game/{id}/move/{uci}",
        Resource::Own(OwnResource::Move),
    )?;
    router.insert(
        "/api/game/{id}/draw/{word}",
        Resource::Own(OwnResource::Draw),
    )?;
    router.insert("/api/game/{id}/resign", Resource::Own(OwnResource::Resign))?;
    router.insert("/api/game/{id}/claim", Resource::Own(OwnResource::Claim))?;
    router.insert(
        "/api/game/{id}/berserk",
        Resource::Own(OwnResource::Berserk),
    )?;
    Ok(())
}
