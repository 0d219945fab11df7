// Lists of requests, decoded from words and executed one after another on lent stores, starting with the opening: the claim about
// histories holds for running code.
#![tactic(auto)]

ghost use Rattle.table.specs.Outcomes.{stores, body, compaction_words, lengths};
ghost use Rattle.replay.specs.inner.Making.{Made};
ghost use Rattle.replay.specs.Replays.{Replayed};
ghost use Rattle.replay.specs.Encoding.{request_of};
ghost use Rattle.replay_frames.specs.Frames.{framed};

use calls::{decode, make_call};
use refusals::Refusal;
use replay_frames::Frames;
use table::Header;
use table_open::open_table;

mod calls; // calls.rt: one request decoded and executed

// Executes all requests, in order. A refused request changes nothing.
fn make_calls(
    h: Header,
    calls: &[u32],
    rows: &mut [u32],
    keys: &mut [u32],
    sorts: &mut [u32],
    pending: &mut [u32],
    live: &mut [u64],
    base: &mut [u32],
    index: &mut [u32],
) -> Header
    ensures { Made (framed request_of calls.now) (lengths rows.old keys.old sorts.old pending.old live.old base.old) (stores h rows.old keys.old sorts.old pending.old) (compaction_words live.old base.old) index.old (stores result rows.new keys.new sorts.new pending.new) (compaction_words live.new base.new) index.new }
{
    let mut n = h;
    for frame in Frames(calls) {
        if let Some(request) = decode(frame) {
            n = make_call(n, request, rows, keys, sorts, pending, live, base, index);
        }
    }
    n
}

// Opens a table and executes all requests on it. Each refresh among them is lent the index store.
pub fn replay(
    columns: u32,
    key_columns: u32,
    sort: u32,
    rule: u32,
    capacity: u32,
    generation: u32,
    calls: &[u32],
    rows: &mut [u32],
    keys: &mut [u32],
    sorts: &mut [u32],
    pending: &mut [u32],
    live: &mut [u64],
    base: &mut [u32],
    index: &mut [u32],
) -> Result<Header, Refusal>
    ensures { Replayed (record { columns = columns; keys = key_columns; sort = sort; rule = rule; capacity = capacity }) generation (framed request_of calls.now) (body rows.old keys.old sorts.old) pending.old (compaction_words live.old base.old) index.old result (body rows.new keys.new sorts.new) pending.new (compaction_words live.new base.new) index.new }
{
    let opened = open_table(
        columns,
        key_columns,
        sort,
        rule,
        capacity,
        generation,
        rows,
        keys,
        sorts,
        pending,
    );
    let h = opened?;
    let n = make_calls(h, calls, rows, keys, sorts, pending, live, base, index);
    Ok(n)
}
