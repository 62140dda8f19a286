//! What comes of reading a request.

ghost use Rattle.std.specs.Prelude.{◌≡◌};
ghost use Rattle.http_lines.specs.declared.request.NextFault.TheVariants.{OutOfMemory};

use conn::Text;
use std::alloc::AllocError;

/// How many bytes a head may take, the empty lines before it among them.
pub const HEAD_LIMIT: usize = 8192;

/// How many bytes a body may have.
pub const BODY_LIMIT: usize = 4096;

/// A request without its body, which is dropped.
#[derive(Debug, Drop)]
pub struct RequestHead {
    /// The method as it was sent. Methods are told apart by case (RFC 9110, section 9.1).
    pub method: Text,
    /// The target up to its first `?`, not decoded.
    pub path: Text,
    /// What follows `Bearer ` in the first Authorization field (RFC 6750, section 2.1), if that is its form.
    pub bearer: Option<Text>,
    /// Whether no further request is read from the connection: the version is 1.0, or a Connection field has the word
    /// `close` (RFC 9112, section 9.3).
    pub closes: bool,
}

/// What comes next in a connection.
#[derive(Debug, Drop)]
pub enum Next {
    /// A request, whose body was dropped.
    Request(RequestHead),
    /// The source ended, and behind the last request there was nothing but empty lines.
    End,
}

/// Why there is no next request.
#[derive(Clone, Copy, Debug, PartialEq, Eq)]
pub enum NextFault {
    /// The source ended inside a head or a body.
    CutOff,
    /// The bytes up to an empty line are not a head with at most 64 fields.
    BadHead,
    /// 8,192 bytes hold no whole head.
    HeadTooLong,
    /// The body has more than 4,096 bytes.
    BodyTooLong,
    /// There are two Content-Length fields, or the one is no decimal number.
    BadLength,
    /// There is a Transfer-Encoding field.
    NotSupported,
    /// A read failed.
    ReadFault,
    /// There was not memory enough for the texts of the request.
    OutOfMemory,
}

impl From<AllocError> for NextFault {
    ghost from_gives = { λ _ e. e ≡ OutOfMemory };

    fn from(_e: AllocError) -> NextFault {
        NextFault::OutOfMemory
    }
}
