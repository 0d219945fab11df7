// The response to a line of `levels`, before it is encoded as text.
#![tactic(auto)]

use refusals::Refusal;
use table::Header;

#[derive(Clone, Copy)]
pub enum Response {
    Nothing,
    Refused(Refusal),
    // status, added as 0 or 1, place
    Merged(u32, u32, u32),
    NoRange,
    // start, end
    Range(u32, u32),
    // generation, row count
    Version(u32, u32),
    // the head line and the live rows; true: in the form with row numbers
    Listing(bool),
}

// The response, and the header after the line.
#[derive(Clone, Copy)]
pub struct Served {
    pub header: Header,
    pub response: Response,
}
