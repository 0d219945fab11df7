// Decodes a request from words, and executes it by its entry point on lent stores.
ghost use Rattle.std.specs.Prelude.{◌≡◌, [], ◌∷◌};
ghost use Rattle.refusals.specs.Refusals.{if_accepted, answer_view};
ghost use Rattle.table.specs.Outcomes.{stores, compaction_words, lengths};
ghost use Rattle.replay.specs.Encoding.{refresh_in, request_of};
ghost use Rattle.replay.specs.inner.Making.{Made};
ghost use Rattle.replay.specs.inner.Decoding.{request_is, requested};

use merge::merge;
use refresh::refresh_rows_for_values;
use refresh_spec::Refreshed;
use refusals::Refusal;
use replay_frames::Frame;
use table::{Header, Merge};
use table_compact::compact;
use table_open::clear;
use table_stage::{stage_insert, stage_remove, stage_remove_row};

// A request, decoded from words.
#[derive(Clone, Copy)]
pub enum Request<'a> {
    Insert(&'a [u32]),
    RemoveKey(&'a [u32]),
    // row, key
    RemoveRow(u32, &'a [u32]),
    Merge,
    Compact,
    Clear,
    // columns, stamp, values
    Refresh(&'a [u32], u32, &'a [u32]),
}

// The number of columns, the columns, the stamp, then the values.
fn decode_refresh(words: &[u32]) -> Option<Request<'_>>
    ensures { requested result ≡ refresh_in words.now }
{
    let (count, words) = words.split_first()?;
    let (columns, words) = words.split_at_checked(*count as usize)?;
    let (stamp, values) = words.split_first()?;
    Some(Request::Refresh(columns, *stamp, values))
}

// The request of an item, if it is one.
pub fn decode(frame: Frame<'_>) -> Option<Request<'_>>
    ensures { requested result ≡ request_of frame.entry.kind frame.entry.words.now }
{
    let words = frame.words;
    match frame.kind {
        0 => Some(Request::Insert(words)),
        1 => Some(Request::RemoveKey(words)),
        2 => {
            let (row, key) = words.split_first()?;
            Some(Request::RemoveRow(*row, key))
        }
        3 => Some(Request::Merge),
        4 => Some(Request::Compact),
        5 => Some(Request::Clear),
        6 => decode_refresh(words),
        _ => None,
    }
}

// The header after a call. A refused call leaves it unchanged.
fn header_after(h: Header, answer: Result<Header, Refusal>) -> Header
    ensures { result ≡ if_accepted (answer_view answer) (λ h. h) h }
{
    match answer {
        Err(_) => h,
        Ok(n) => n,
    }
}

fn header_merged(h: Header, answer: Result<Merge, Refusal>) -> Header
    ensures { result ≡ if_accepted (answer_view answer) (λ m. m.header) h }
{
    match answer {
        Err(_) => h,
        Ok(m) => m.header,
    }
}

fn header_refreshed(h: Header, answer: Result<Refreshed, Refusal>) -> Header
    ensures { result ≡ if_accepted (answer_view answer) (λ a. a.header) h }
{
    match answer {
        Err(_) => h,
        Ok(refreshed) => refreshed.header,
    }
}

// Executes one request.
pub fn make_call(
    h: Header,
    request: Request<'_>,
    rows: &mut [u32],
    keys: &mut [u32],
    sorts: &mut [u32],
    pending: &mut [u32],
    live: &mut [u64],
    base: &mut [u32],
    index: &mut [u32],
) -> Header
    ensures { Made (request_is request.entry ∷ []) (lengths rows.old keys.old sorts.old pending.old live.old base.old) (stores h rows.old keys.old sorts.old pending.old) (compaction_words live.old base.old) index.old (stores result rows.new keys.new sorts.new pending.new) (compaction_words live.new base.new) index.new }
{
    match request {
        Request::Insert(cells) => header_after(h, stage_insert(h, pending, cells)),
        Request::RemoveKey(key) => header_after(h, stage_remove(h, pending, key)),
        Request::RemoveRow(row, key) => header_after(h, stage_remove_row(h, pending, row, key)),
        Request::Merge => header_merged(h, merge(h, rows, keys, sorts, pending, live, base)),
        Request::Compact => header_after(h, compact(h, rows, keys, sorts, live, base)),
        Request::Clear => header_after(h, clear(h, keys)),
        Request::Refresh(columns, stamp, values) => {
            let answer = refresh_rows_for_values(h, rows, pending, index, columns, values, stamp);
            header_refreshed(h, answer)
        }
    }
}
