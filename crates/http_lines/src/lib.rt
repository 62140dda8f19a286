//! Requests of HTTP/1.x, read from a source in whatever pieces it comes, and responses, written to the byte. The layers above
//! rely on four pages of `specs/`. `HeadLines` says in lines where a head ends. `First` says what the first request of some bytes comes to: the end, one fault, or a
//! request with the bytes after it; `Requests::next` answers it. `Talk` says which requests the bytes of a whole connection
//! spell and how they end. `Response` is the bytes of a response; `write_response` appends them.
#![tactic(auto)]

mod fields;
mod head;
mod laws;
mod place;
mod read_ahead;
mod request;
mod requests;
mod response;
mod values;

pub use laws::{
    first_of_bytes, heads_are_lines, requests_of_bytes, requests_that_were_read,
    something_comes_first,
};
pub use request::{BODY_LIMIT, HEAD_LIMIT, Next, NextFault, RequestHead};
pub use requests::Requests;
pub use response::{Extra, Response, SendFault, write_response};

#[cfg(test)]
mod tests;
