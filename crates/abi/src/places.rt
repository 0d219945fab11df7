// The number of a header's words.
pub const HEADER_WORDS: usize = 12;

// The places of these words. An opening has the first five, then the generation.
pub const COLUMNS: usize = 0;

pub const KEYS: usize = 1;

pub const SORT: usize = 2;

pub const RULE: usize = 3;

pub const CAPACITY: usize = 4;

pub const ROWS: usize = 5;

pub const DEAD: usize = 6;

pub const ENTRIES: usize = 7;

pub const PENDING: usize = 8;

pub const GENERATION: usize = 9;

pub const LARGEST_FLAG: usize = 10;

pub const LARGEST_VALUE: usize = 11;

pub const OPENING_GENERATION: usize = 5;
