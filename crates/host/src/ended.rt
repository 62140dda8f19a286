//! How a connection ends.

/// How a connection ended. An error of a request is an answer like others, and ends none.
#[derive(Debug, Clone, Copy, PartialEq, Eq)]
pub enum Ended {
    /// The source ended between two requests with fewer than 100 answered, or the last answered request closes.
    Served,
    /// 100 requests were answered, and the last of them does not close.
    Limit,
    /// The source ended inside a head or a body. That has no response.
    CutOff,
    /// What was read is no head with at most 64 fields. 400 was written.
    BadHead,
    /// 8,192 bytes hold no whole head, and 431 was written; or a body has more than 4,096 bytes, and 413 was written.
    TooLong,
    /// A head has a Transfer-Encoding field, and 501 was written; or its Content-Length is not one decimal number, and 400 was
    /// written.
    NotSupported,
    /// A read failed.
    ReadFault,
    /// A write failed. A beginning of the response was written.
    WriteFault,
    /// There was not memory enough. The responses that were written are whole.
    OutOfMemory,
}
