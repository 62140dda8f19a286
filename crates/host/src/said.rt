//! What a response says of a request, before it is known how it is sent.

ghost use Rattle.std.specs.Prelude.{◌≡◌, IfOk};
ghost use Rattle.host.specs.Responses.{error_said, well_said};

use api::{ApiError, error_body, extra, status};
use conn::Text;
use http_lines::Extra;
use std::alloc::{AllocError, Global};

/// What a response says: its status, the field beside those of each response, and its body.
#[derive(Debug, Drop)]
pub struct Said {
    pub status: u16,
    pub extra: Extra,
    pub body: Text,
}

/// That a request has an error.
pub(crate) fn error_said(alloc: Global, error: &ApiError) -> Result<Said, AllocError>
    ensures { IfOk result (λ said. said ≡ error_said error.now) }
{
    let body = error_body(alloc, error)?;
    Ok(Said {
        status: status(error),
        extra: extra(error),
        body,
    })
}

/// What was asked for.
pub(crate) fn well_said(body: Text) -> Said
    ensures { result ≡ record { status = 200; extra = Extra.Plain; body = body } }
{
    Said {
        status: 200,
        extra: Extra::Plain,
        body,
    }
}
