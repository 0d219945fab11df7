// The lines of `levels` that read the table, and the response of each.
ghost use Rattle.std.specs.Prelude.{◌≡◌, length};
ghost use Rattle.levels_spec.specs.inner.Responses.{response_of, range_response, version_response, listing_response};
ghost use Rattle.levels_answer.specs.inner.Querying.{OnSorts, OnHeader, list_letter};

use constraints::Constraint;
use levels_spec::Response;
use refusals::Refusal;
use sort_entries::Range;
use table::{Header, Version};

fn respond_range(answer: Result<Option<Range>, Refusal>) -> Response
    ensures { result ≡ response_of range_response answer }
{
    match answer {
        Err(refusal) => Response::Refused(refusal),
        Ok(found) => match found {
            None => Response::NoRange,
            Some(r) => Response::Range(r.start, r.end),
        },
    }
}

fn respond_version(answer: Result<Version, Refusal>) -> Response
    ensures { result ≡ response_of version_response answer }
{
    match answer {
        Err(refusal) => Response::Refused(refusal),
        Ok(v) => Response::Version(v.generation, v.rows),
    }
}

// The response is a listing, with row numbers or without, unless the version is refused.
fn respond_listing(numbered: bool, answer: Result<Version, Refusal>) -> Response
    ensures { result ≡ response_of (listing_response numbered) answer }
{
    match answer {
        Err(refusal) => Response::Refused(refusal),
        Ok(_) => Response::Listing(numbered),
    }
}

// F: the fast range of a condition.
pub fn query_range(h: Header, numbers: &[u32], sorts: &[u32]) -> Response
    requires { length numbers.now ≡ 3 }
    ensures { OnSorts 70 numbers.now h sorts.now result }
{
    let c = Constraint {
        kind: numbers[0],
        column: numbers[1],
        value: numbers[2],
    };
    respond_range(table_read::fast_subset(h, sorts, c))
}

// V: the version.
pub fn query_version(h: Header) -> Response
    ensures { OnHeader 86 h result }
{
    respond_version(table_read::version(h))
}

// L, and U with row numbers: a listing.
pub fn query_listing(numbered: bool, h: Header) -> Response
    ensures { OnHeader (list_letter numbered) h result }
{
    respond_listing(numbered, table_read::version(h))
}
