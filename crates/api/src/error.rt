//! The errors that a request is answered.

ghost use Rattle.std.specs.Prelude.{◌≡◌, ◌≤◌, IfOk};
ghost use Rattle.api.specs.Errors.{act_status, refusal_status, status_of, extra_of, act_name, refusal_name, name_of};

use arena_rules::Refusal;
use game_room::ActRefusal;
use http_lines::Extra;

/// Why a request is not answered with what it asked for. Its first error counts, in the order of the variants up to `BadParam`.
#[derive(Debug, Clone, Copy, PartialEq, Eq)]
pub enum ApiError {
    /// No row of the route table has the path, or it has a byte that is not visible.
    NoRoute,
    /// The row has another method, which the field beside it names.
    BadMethod(Extra),
    /// The row needs a key, and none was sent.
    NoKey,
    /// Nobody has the key.
    UnknownKey,
    /// A number, a move or a word in the path is out of form or range.
    BadParam,
    /// A question is about a game that was not begun.
    NoGame,
    /// The command is refused.
    Refused(Refusal),
    /// The bytes are no head of a request.
    BadHead,
    /// The head is longer than a head may be.
    HeadTooLong,
    /// The body is longer than a body may be.
    BodyTooLong,
    /// The length of the body is said twice, or is no number.
    BadLength,
    /// The body has a transfer coding.
    NotSupported,
}

/// The status of an error (RFC 9110, section 15; RFC 6585, section 5).
pub fn status(e: &ApiError) -> u16
    ensures { result ≡ status_of e.now }
{
    match e {
        ApiError::BadParam | ApiError::BadHead | ApiError::BadLength => 400,
        ApiError::NoKey | ApiError::UnknownKey => 401,
        ApiError::NoRoute | ApiError::NoGame => 404,
        ApiError::BadMethod(_) => 405,
        ApiError::BodyTooLong => 413,
        ApiError::HeadTooLong => 431,
        ApiError::NotSupported => 501,
        ApiError::Refused(refusal) => refusal_status(*refusal),
    }
}

// The status of a refusal.
fn refusal_status(refusal: Refusal) -> u16
    ensures { result ≡ refusal_status refusal }
{
    match refusal {
        Refusal::NotYours => 403,
        Refusal::NoGame => 404,
        Refusal::Full => 503,
        Refusal::Act(refusal) => act_status(refusal),
        Refusal::NotEntered
        | Refusal::AlreadyIn
        | Refusal::AlreadyPaused
        | Refusal::Left
        | Refusal::Closed
        | Refusal::NothingDue => 409,
    }
}

// The status of what a game refuses.
fn act_status(refusal: ActRefusal) -> u16
    ensures { result ≡ act_status refusal }
{
    match refusal {
        ActRefusal::Illegal => 400,
        ActRefusal::Over
        | ActRefusal::NotYourTurn
        | ActRefusal::OfferStands
        | ActRefusal::NoOffer
        | ActRefusal::NoClaim
        | ActRefusal::BerserkLate
        | ActRefusal::BerserkTwice
        | ActRefusal::BerserkZero => 409,
    }
}

/// The field that an error has beside those of each response.
pub fn extra(e: &ApiError) -> Extra
    ensures { result ≡ extra_of e.now }
{
    match e {
        ApiError::BadMethod(allow) => *allow,
        ApiError::NoKey | ApiError::UnknownKey => Extra::Challenge,
        ApiError::NoRoute
        | ApiError::BadParam
        | ApiError::NoGame
        | ApiError::Refused(_)
        | ApiError::BadHead
        | ApiError::HeadTooLong
        | ApiError::BodyTooLong
        | ApiError::BadLength
        | ApiError::NotSupported => Extra::Plain,
    }
}

// The name of an error.
pub(crate) fn name(e: &ApiError) -> &'static str
    ensures { result.now ≡ name_of e.now }
{
    match e {
        ApiError::NoRoute => "NoRoute",
        ApiError::BadMethod(_) => "BadMethod",
        ApiError::NoKey => "NoKey",
        ApiError::UnknownKey => "UnknownKey",
        ApiError::BadParam => "BadParam",
        ApiError::NoGame => "NoGame",
        ApiError::Refused(refusal) => refusal_name(*refusal),
        ApiError::BadHead => "BadHead",
        ApiError::HeadTooLong => "HeadTooLong",
        ApiError::BodyTooLong => "BodyTooLong",
        ApiError::BadLength => "BadLength",
        ApiError::NotSupported => "NotSupported",
    }
}

// The name of a refusal.
fn refusal_name(refusal: Refusal) -> &'static str
    ensures { result.now ≡ refusal_name refusal }
{
    match refusal {
        Refusal::NotEntered => "NotEntered",
        Refusal::AlreadyIn => "AlreadyIn",
        Refusal::AlreadyPaused => "AlreadyPaused",
        Refusal::Left => "Left",
        Refusal::Closed => "Closed",
        Refusal::NoGame => "NoGame",
        Refusal::NotYours => "NotYours",
        Refusal::Act(refusal) => act_name(refusal),
        Refusal::NothingDue => "NothingDue",
        Refusal::Full => "Full",
    }
}

// The name of what a game refuses.
fn act_name(refusal: ActRefusal) -> &'static str
    ensures { result.now ≡ act_name refusal }
{
    match refusal {
        ActRefusal::Over => "Over",
        ActRefusal::NotYourTurn => "NotYourTurn",
        ActRefusal::Illegal => "Illegal",
        ActRefusal::OfferStands => "OfferStands",
        ActRefusal::NoOffer => "NoOffer",
        ActRefusal::NoClaim => "NoClaim",
        ActRefusal::BerserkLate => "BerserkLate",
        ActRefusal::BerserkTwice => "BerserkTwice",
        ActRefusal::BerserkZero => "BerserkZero",
    }
}
