// Encodes the response of a line as bytes at the start of a lent text.
ghost use Rattle.std.specs.Prelude.{◌≤◌, length};
ghost use Rattle.levels_spec.specs.inner.Responses.{Encoded};
ghost use Rattle.levels_answer.specs.inner.Encoded.{ListingEncoded};

use levels_spec::Response;
use levels_text::write::{put_bytes, refuse, write_line};
use listing_write::write_listing;
use table::Header;

// Writes a listing; nothing if the header, the row store or the text is refused.
fn list_table(numbered: bool, h: Header, rows: &[u32], text: &mut [u8]) -> usize
    ensures { ListingEncoded numbered h rows.now text.new result }
{
    match write_listing(h, rows, numbered, text) {
        Err(_) => 0,
        Ok(bytes) => bytes,
    }
}

// Encodes any response. Returns how many bytes it takes.
pub fn encode_response(h: Header, response: Response, rows: &[u32], text: &mut [u8]) -> usize
    requires { 90 ≤ length text.old }
    ensures { Encoded h rows.now response text.new result }
{
    match response {
        Response::Nothing => 0,
        Response::Refused(refusal) => refuse(text, refusal.into()),
        Response::Merged(status, added, place) => write_line(text, b'M', &[status, added, place]),
        Response::NoRange => put_bytes(text, 0, b"F,none\n"),
        Response::Range(start, end) => write_line(text, b'F', &[start, end]),
        Response::Version(generation, count) => write_line(text, b'V', &[generation, count]),
        Response::Listing(numbered) => list_table(numbered, h, rows, text),
    }
}
