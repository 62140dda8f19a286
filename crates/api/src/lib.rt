//! The host's interface over HTTP: which call each request means, and the bodies of the answers. The layers above rely on
//! `specs/Calls.antt`, by which each request means one call or has one first error, on `specs/Errors.antt` for statuses and
//! names, and on `specs/Bodies.antt` for the JSON text of each answer.
#![tactic(auto)]

mod bodies;
mod call;
mod calls;
mod error;
mod game;
mod resource;
mod routes;
mod values;
mod words;

pub use bodies::{answer_body, error_body, reply_body};
pub use call::Call;
pub use error::{ApiError, extra, status};
pub use resource::{Method, OwnResource, Resource};
pub use routes::Routes;
