// The answer of a refresh. Its definitions and its contract are in this crate, below the histories that cite them.
#![tactic(auto)]

use table::Header;

// The header after the refresh, and whether a row was staged.
#[derive(Clone, Copy)]
pub struct Refreshed {
    pub header: Header,
    pub staged: bool,
}
