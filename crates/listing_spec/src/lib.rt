// What the functions that read a listing give of it.
#![tactic(auto)]

// The numbers of a head line, and how many rows are listed.
#[derive(Clone, Copy)]
pub struct ListingHead {
    pub columns: u32,
    pub keys: u32,
    pub sort: u32,
    pub rule: u32,
    pub generation: u32,
    pub listed: u32,
}

// The same in the new form. `count` is the row count, the last number of the head; at most `count` rows are listed.
#[derive(Clone, Copy)]
pub struct NumberedHead {
    pub columns: u32,
    pub keys: u32,
    pub sort: u32,
    pub rule: u32,
    pub generation: u32,
    pub count: u32,
    pub listed: u32,
}
