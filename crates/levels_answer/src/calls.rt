// The lines of `levels` that change a table. Each makes its call and returns the header after it and the response. The compaction
// words are local arrays of the functions that lend them.
ghost use Rattle.std.specs.Prelude.{◌≡◌, ◌≤◌, length};
ghost use Rattle.refusals.specs.Refusals.{answer_view, if_accepted};
ghost use Rattle.table.specs.Outcomes.{stores};
ghost use Rattle.levels_spec.specs.inner.Responses.{response_of, nothing_response, merge_response, ServedWith, Serving};
ghost use Rattle.levels_answer.specs.inner.Calling.{OnPending, OnKeys, OnBody, OnAll};

use abi::places;
use levels_spec::{Response, Served};
use refusals::Refusal;
use table::{Header, Merge};

// The largest capacity that fits the program's stores.
const MOST_ROWS: u32 = 1024;

// The compaction words needed for `MOST_ROWS` rows.
const WORDS: usize = 16;

// The header and the response after an opening, a staging, a compaction or a clear.
fn taken(h: Header, answer: Result<Header, Refusal>) -> Served
    ensures { ServedWith (if_accepted (answer_view answer) (λ h. h) h) (response_of nothing_response answer) result }
{
    match answer {
        Err(refusal) => Served {
            header: h,
            response: Response::Refused(refusal),
        },
        Ok(after) => Served {
            header: after,
            response: Response::Nothing,
        },
    }
}

// I: the cells of a row.
pub fn insert(h: Header, numbers: &[u32], pending: &mut [u32]) -> Served
    ensures { OnPending 73 numbers.now h pending.old result pending.new }
{
    let answer = table_stage::stage_insert(h, pending, numbers);
    taken(h, answer)
}

// R: the cells of a key.
pub fn remove_key(h: Header, numbers: &[u32], pending: &mut [u32]) -> Served
    ensures { OnPending 82 numbers.now h pending.old result pending.new }
{
    let answer = table_stage::stage_remove(h, pending, numbers);
    taken(h, answer)
}

// K: a row number, then the cells of its key.
pub fn remove_row(h: Header, numbers: &[u32], pending: &mut [u32]) -> Served
    requires { 1 ≤ length numbers.now }
    ensures { OnPending 75 numbers.now h pending.old result pending.new }
{
    let answer = table_stage::stage_remove_row(h, pending, numbers[0], &numbers[1..]);
    taken(h, answer)
}

// O. If the opening is refused, the previous table remains, with its pending records.
pub fn open_table(
    h: Header,
    numbers: &[u32],
    rows: &[u32],
    keys: &mut [u32],
    sorts: &[u32],
    pending: &[u32],
) -> Served
    requires { length numbers.now ≡ 6 }
    ensures { Serving 79 numbers.now (stores h rows.now keys.old sorts.now pending.now) (stores result.header rows.now keys.new sorts.now pending.now) result.response }
{
    let capacity = numbers[places::CAPACITY];
    if MOST_ROWS < capacity {
        return Served {
            header: h,
            response: Response::Refused(Refusal::NoListing),
        };
    }
    let opened = table_open::open_table(
        numbers[places::COLUMNS],
        numbers[places::KEYS],
        numbers[places::SORT],
        numbers[places::RULE],
        capacity,
        numbers[places::OPENING_GENERATION],
        rows,
        keys,
        sorts,
        pending,
    );
    taken(h, opened)
}

// C: clear.
pub fn clear(h: Header, keys: &mut [u32]) -> Served
    ensures { OnKeys 67 h keys.old result keys.new }
{
    let cleared = table_open::clear(h, keys);
    taken(h, cleared)
}

// G: compact.
pub fn compact(h: Header, rows: &mut [u32], keys: &mut [u32], sorts: &mut [u32]) -> Served
    ensures { OnBody 71 h rows.old keys.old sorts.old result rows.new keys.new sorts.new }
{
    let mut live = [0u64; WORDS];
    let mut base = [0u32; WORDS];
    let compacted = table_compact::compact(h, rows, keys, sorts, &mut live, &mut base);
    taken(h, compacted)
}

// The header and the response after a merge.
fn respond_merge(h: Header, answer: Result<Merge, Refusal>) -> Served
    ensures { ServedWith (if_accepted (answer_view answer) (λ m. m.header) h) (response_of merge_response answer) result }
{
    match answer {
        Err(refusal) => Served {
            header: h,
            response: Response::Refused(refusal),
        },
        Ok(m) => Served {
            header: m.header,
            response: Response::Merged(m.status, u32::from(m.added), m.place),
        },
    }
}

// M: merge.
pub fn merge_pending(
    h: Header,
    rows: &mut [u32],
    keys: &mut [u32],
    sorts: &mut [u32],
    pending: &[u32],
) -> Served
    ensures { OnAll 77 (stores h rows.old keys.old sorts.old pending.now) (stores result.header rows.new keys.new sorts.new pending.now) result }
{
    let mut live = [0u64; WORDS];
    let mut base = [0u32; WORDS];
    let merged = merge::merge(h, rows, keys, sorts, pending, &mut live, &mut base);
    respond_merge(h, merged)
}
