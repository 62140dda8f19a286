//! How what is said is sent.

ghost use Rattle.std.specs.Prelude.{◌≡◌, ◌≤◌, true};
ghost use Rattle.http.specs.StatusCode.{IsStatusCode};
ghost use Rattle.host.specs.Causes.{answer_to_fault};
ghost use Rattle.host.specs.Responses.{bytes_of, error_of, error_said};
ghost use Rattle.host.specs.Steps.{AnswersFault, Sent, ended_after};

use crate::ended::Ended;
use crate::said::{Said, error_said};
use api::ApiError;
use conn::Sink;
use http_lines::{NextFault, Response, SendFault, write_response};
use std::alloc::Global;

/// Sends what is said, of so many entries seen, behind which nothing is read or something may be.
pub(crate) fn send<K: Sink>(
    alloc: Global,
    sink: &mut K,
    said: Said,
    seen: u64,
    close: bool,
) -> Result<(), SendFault>
    requires { IsStatusCode said.status }
    ensures sent { Sent (K.held sink.old) (K.held sink.new) (K.faults sink.old) (K.faults sink.new) (bytes_of seen close said) result }
    ensures kept { K.faults sink.old ≤ K.faults sink.new }
{
    let Said {
        status,
        extra,
        body,
    } = said;
    let response = Response {
        status,
        extra,
        seen,
        close,
        body,
    };
    write_response(alloc, sink, &response)
}

// How a connection ends by a fault of what was read.
fn ended_by(fault: NextFault) -> Ended
    ensures { result ≡ answer_to_fault fault }
{
    match fault {
        NextFault::CutOff => Ended::CutOff,
        NextFault::BadHead => Ended::BadHead,
        NextFault::HeadTooLong | NextFault::BodyTooLong => Ended::TooLong,
        NextFault::BadLength | NextFault::NotSupported => Ended::NotSupported,
        NextFault::ReadFault => Ended::ReadFault,
        NextFault::OutOfMemory => Ended::OutOfMemory,
    }
}

// The error that a fault is answered, if it is.
fn error_of(fault: NextFault) -> Option<ApiError>
    ensures { result ≡ error_of fault }
{
    match fault {
        NextFault::BadHead => Some(ApiError::BadHead),
        NextFault::HeadTooLong => Some(ApiError::HeadTooLong),
        NextFault::BodyTooLong => Some(ApiError::BodyTooLong),
        NextFault::BadLength => Some(ApiError::BadLength),
        NextFault::NotSupported => Some(ApiError::NotSupported),
        NextFault::CutOff | NextFault::ReadFault | NextFault::OutOfMemory => None,
    }
}

// How a connection ends by a fault of what was read, once its response was sent or not.
fn ended_after(fault: NextFault, outcome: Result<(), SendFault>) -> Ended
    ensures { result ≡ ended_after fault outcome }
{
    match outcome {
        Ok(()) => ended_by(fault),
        Err(SendFault::WriteFault) => Ended::WriteFault,
        Err(SendFault::OutOfMemory) => Ended::OutOfMemory,
    }
}

// Sends the response to an error, behind which nothing is read.
fn send_error<K: Sink>(
    alloc: Global,
    sink: &mut K,
    seen: u64,
    error: &ApiError,
) -> Result<(), SendFault>
    ensures sent { Sent (K.held sink.old) (K.held sink.new) (K.faults sink.old) (K.faults sink.new)
        (bytes_of seen true (error_said error.now)) result }
    ensures kept { K.faults sink.old ≤ K.faults sink.new }
{
    match error_said(alloc, error) {
        Ok(said) => send(alloc, sink, said, seen, true),
        Err(_) => Err(SendFault::OutOfMemory),
    }
}

/// Answers a fault of what was read, if it is answered, and says how the connection ends.
pub(crate) fn answer_fault<K: Sink>(
    alloc: Global,
    sink: &mut K,
    seen: u64,
    fault: NextFault,
) -> Ended
    ensures answers { AnswersFault seen fault (K.held sink.old) (K.held sink.new) (K.faults sink.old) (K.faults sink.new) result }
    ensures kept { K.faults sink.old ≤ K.faults sink.new }
{
    match error_of(fault) {
        None => ended_by(fault),
        Some(error) => {
            let outcome = send_error(alloc, sink, seen, &error);
            ended_after(fault, outcome)
        }
    }
}
