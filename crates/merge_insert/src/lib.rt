// All inserts of a merge, in order: `do_insert` of table/mod.rs.
#![tactic(auto)]

ghost use Rattle.merge_pending.specs.inner.Becoming.{Ready};
ghost use Rattle.std.specs.Prelude.{◌≤◌, length};
ghost use Rattle.merge_insert.specs.inner.Insertions.{Insertions, FirstInsert, InsertNext, InsertedNext};

pub use append::Stop;
use merge_pending::{next_record, record_length};
use row::insert_row;
use table::{HASH_AT, Header, INSERT, RECORD_HEAD};

mod append; // append.rt: one row appended
mod row; // row.rt: one insert

// The result of the passes over the pending records, before the compaction that may follow.
#[derive(Clone, Copy)]
pub struct MergeProgress {
    pub header: Header,
    pub stopped: Option<StoppedAt>,
}

// Where a merge stopped: why, and at which of the inserts.
#[derive(Clone, Copy)]
pub struct StoppedAt {
    pub stop: Stop,
    pub place: u32,
}

// The result of the inserts so far: the header, and how many inserts there were.
#[derive(Clone, Copy)]
struct Applied {
    header: Header,
    count: u32,
}

// The place where a pass over the inserts starts: the first record or, if that is a removal, behind all records of its kind that
// follow it.
fn first_place(h: Header, pending: &[u32]) -> u32
    requires { (h.columns ≤ 8) × (h.keys ≤ 8) × (h.pending ≤ length pending.now) }
    ensures { FirstInsert h pending.now result }
{
    let Some(words) = record_length(h, pending, 0) else {
        return 0;
    };
    if pending[0] == INSERT {
        return 0;
    }
    next_record(h, pending, 0, words, INSERT)
}

// Applies the record at a place if it is an insert. Takes the result of the inserts before it, and returns the result that includes
// it.
fn insert_next(
    m: Applied,
    rows: &mut [u32],
    keys: &mut [u32],
    sorts: &mut [u32],
    pending: &[u32],
    at: u32,
) -> Result<Applied, Stop>
    requires { InsertNext m rows.old keys.old sorts.old pending.now at }
    ensures { InsertedNext m rows.old keys.old sorts.old pending.now at result rows.new keys.new sorts.new }
{
    let start = at as usize;
    if pending[start] != INSERT {
        return Ok(m);
    }
    let hash = pending[start + HASH_AT];
    let appended = insert_row(m.header, rows, keys, sorts, pending, at + RECORD_HEAD, hash)?;
    Ok(Applied {
        header: appended.unwrap_or(m.header),
        count: m.count + 1,
    })
}

// Applies all inserts, in staging order, until one must be appended and cannot be. A run of removals before them is skipped.
pub fn insert_all(
    h: Header,
    rows: &mut [u32],
    keys: &mut [u32],
    sorts: &mut [u32],
    pending: &[u32],
) -> MergeProgress
    requires { Ready h rows.old keys.old sorts.old pending.now }
    ensures { Insertions h rows.old keys.old sorts.old pending.now result rows.new keys.new sorts.new }
{
    let mut done = Applied {
        header: h,
        count: 0,
    };
    let mut at = first_place(h, pending);
    // No `for`: each turn goes on by the words of a record.
    while let Some(words) = record_length(h, pending, at) {
        match insert_next(done, rows, keys, sorts, pending, at) {
            Ok(next) => done = next,
            Err(stop) => {
                return MergeProgress {
                    header: done.header,
                    stopped: Some(StoppedAt {
                        stop,
                        place: done.count,
                    }),
                };
            }
        }
        at += words;
    }
    MergeProgress {
        header: done.header,
        stopped: None,
    }
}
