//! What holds of the requests that bytes spell, for the layers above.

ghost use Rattle.http_lines.specs.First.{First, Outcome};
ghost use Rattle.http_lines.specs.HeadLines.{HeadsAreLines, NoHeadMeans, NothingMeans};
ghost use Rattle.http_lines.specs.Laws.{FirstIsOne, FirstIsThere, FirstOfItsOwn, RequestsAreOne, RequestsAreThere, ReadOfTheirOwn, OneMoreIsRead, ReadAndThen};

use crate::head::is_head;
use crate::place::Place;
use crate::request::HEAD_LIMIT;

/// Where a head ends, in lines: empty lines, one or more lines that are not empty, and an empty line are one, and nothing else is.
pub fn heads_are_lines()
    ensures ends { HeadsAreLines }
    ensures none { NoHeadMeans }
    ensures nothing { NothingMeans }
{}

/// Any bytes come to exactly one thing first, and a request is read from its own bytes, whatever follows them.
pub fn first_of_bytes()
    ensures one { FirstIsOne }
    ensures there { FirstIsThere }
    ensures own { FirstOfItsOwn }
{}

/// Any bytes in memory come to something first: it finds out whether a head that is read stands at their front.
pub fn something_comes_first(bytes: &[u8])
    ensures { (o : Outcome) × First bytes.now o }
{
    let Ok(len) = Place::Before.find_end(bytes) else {
        return;
    };
    if len > HEAD_LIMIT {
        return;
    }
    let _is_head = is_head(&bytes[..len]);
}

/// Any bytes spell exactly one list of requests, which ends in one way, however many may be read.
pub fn requests_of_bytes()
    ensures one { RequestsAreOne }
    ensures there { RequestsAreThere }
{}

/// Requests that were read one after the other, as a beginning of those of all the bytes.
pub fn requests_that_were_read()
    ensures own { ReadOfTheirOwn }
    ensures one_more { OneMoreIsRead }
    ensures and_then { ReadAndThen }
{}
