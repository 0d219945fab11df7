// The table: `SortedWritesTable` of table/mod.rs, over lent stores. This crate has the types that its definitions use, and the
// refusals of each operation; the operations are in crates above.
#![tactic(auto)]

ghost use Rattle.std.specs.Prelude.{◌≡◌, ◌≤◌};
ghost use Rattle.table.specs.Numbers.{opening_of};
ghost use Rattle.table.specs.Sound.{index_shape_of};
ghost use Rattle.table.specs.inner.Records.{kind_words};

use key_index::IndexShape;

pub mod refusing; // refusing.rt: the refusals of each operation

// A table's numbers. Its stores are lent at each call. `largest` is the largest sort value appended since opening or the last clear
// that emptied rows, if there is one: no row with a smaller sort value is appended.
#[derive(Clone, Copy)]
pub struct Header {
    pub columns: u32,
    pub keys: u32,
    pub sort: u32,
    pub rule: u32,
    pub capacity: u32,
    pub rows: u32,
    pub dead: u32,
    pub entries: u32,
    pub pending: u32,
    pub generation: u32,
    pub largest: Option<u32>,
}

// The bounds of an opening's columns and rule. The bound of its capacity is `key_index` `MOST_ROWS`.
pub const MOST_COLUMNS: u32 = 8;

pub const LAST_RULE: u32 = 3;

// The kind of a pending record, in its first word.
pub const INSERT: u32 = 0;

pub const REMOVE_KEY: u32 = 1;

pub const REMOVE_ROW: u32 = 2;

// The words of a pending record before its cells: the kind and the hash; in a removal by row also the row.
pub const RECORD_HEAD: u32 = 2;

pub const ROW_RECORD_HEAD: u32 = 3;

// The places of these words in a record, behind its kind.
pub const HASH_AT: usize = 1;

pub const ROW_AT: usize = 2;

// The lengths of the stores that an operation is lent; 0 for a store that it is not lent.
#[derive(Clone, Copy)]
pub struct Lent {
    pub rows: usize,
    pub keys: usize,
    pub sorts: usize,
    pub pending: usize,
    pub live: usize,
    pub base: usize,
}

// The result of a merge: the header, the stop's number and the place of its insert (both 0 if it did not stop), whether a row was
// appended, and how many rows its own compaction kept and dropped (both 0 if there was none).
#[derive(Clone, Copy)]
pub struct Merge {
    pub header: Header,
    pub status: u32,
    pub place: u32,
    pub added: bool,
    pub kept: u32,
    pub dropped: u32,
}

#[derive(Clone, Copy)]
pub struct Version {
    pub generation: u32,
    pub rows: u32,
}

// The numbers that the key index uses.
pub fn index_shape(h: Header) -> IndexShape
    ensures { result ≡ index_shape_of h }
{
    IndexShape {
        columns: h.columns,
        keys: h.keys,
        room: key_index::size_class_for(h.capacity, h.rows),
        rows: h.rows,
    }
}

// The number of words of a pending record of a known kind. A removal has one word and as many more as its kind before its key.
pub fn kind_words(h: Header, kind: u32) -> u32
    requires { (h.columns ≤ 8) × (h.keys ≤ 8) × (kind ≤ 2) }
    ensures { result ≡ kind_words (opening_of h) kind }
{
    if kind == INSERT {
        return h.columns + RECORD_HEAD;
    }
    h.keys + 1 + kind
}
