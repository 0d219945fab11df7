// Images of tables: the numbers of the format. The definitions and contracts are in specs/.
#![tactic(auto)]

// "MGTB" as a word, lowest byte first.
pub const MAGIC: u32 = 0x4254_474d;

pub const FORMAT: u32 = 1;

// The places of the header, of the text's length and of the text.
pub const HEADER_AT: usize = 2;

pub const TEXT_LENGTH_AT: usize = 14;

pub const TEXT_AT: usize = 15;

// The words of an image besides the text and the words in use.
pub const FIXED_WORDS: usize = 16;

// The longest text, in bytes.
pub const LONGEST_TEXT: u32 = 4096;

pub const WORD_BYTES: usize = 4;

// A word of at most one byte, two bytes or three bytes is below these.
pub const BYTE_RANGE: u32 = 0x100;

pub const TWO_BYTE_RANGE: u32 = 0x1_0000;

pub const THREE_BYTE_RANGE: u32 = 0x100_0000;
