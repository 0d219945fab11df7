// `merge` of table/mod.rs: removals by key, removals by row, inserts. Then pending is emptied and, unless the merge stopped, the
// table is compacted if that is due.
#![tactic(auto)]

ghost use Rattle.std.specs.Prelude.{◌≤◌, ◌≡◌};
ghost use Rattle.merge_pending.specs.inner.Becoming.{Ready};
ghost use Rattle.plain_table.specs.Staged.{compaction_due};
ghost use Rattle.table.specs.Outcomes.{stores, body, compaction_words, Merging};
ghost use Rattle.table_compact.specs.inner.Compaction.{Lendable};
ghost use Rattle.merge.specs.inner.Parts.{Applying, Finishing};

use merge_insert::{MergeProgress, insert_all};
use merge_remove::remove_all;
use refusals::Refusal;
use table::refusing::{LAST_GENERATION, check_merge};
use table::{Header, Lent, Merge, REMOVE_KEY, REMOVE_ROW};
use table_compact::compact_rows;

// A compaction is due only if more rows than these are dead.
const DEAD_ALLOWED: u32 = 16;

// Whether there are enough dead rows for a compaction, and the generation can still rise.
fn is_due(h: Header) -> bool
    ensures { result ≡ compaction_due h.dead h.rows h.generation }
{
    if h.generation == LAST_GENERATION {
        return false;
    }
    if h.dead <= DEAD_ALLOWED {
        return false;
    }
    h.rows / 2 < h.dead
}

// Applies the pending records: removals by key, removals by row, inserts.
fn apply_pending(
    h: Header,
    rows: &mut [u32],
    keys: &mut [u32],
    sorts: &mut [u32],
    pending: &[u32],
) -> MergeProgress
    requires { Ready h rows.old keys.old sorts.old pending.now × (h.dead ≤ h.rows) }
    ensures { Applying h rows.old keys.old sorts.old pending.now result rows.new keys.new sorts.new }
{
    let without_keys = remove_all(h, rows, keys, pending, REMOVE_KEY);
    let without_rows = remove_all(without_keys, rows, keys, pending, REMOVE_ROW);
    insert_all(without_rows, rows, keys, sorts, pending)
}

// Empties pending and, unless the merge stopped, drops dead rows if that is due. `before` is the row count before the inserts: a
// row was appended if there are more rows now. The rows that a compaction keeps were live, and those that it drops were dead.
fn finish(
    m: MergeProgress,
    before: u32,
    rows: &mut [u32],
    keys: &mut [u32],
    sorts: &mut [u32],
    live: &mut [u64],
    base: &mut [u32],
) -> Merge
    requires { Lendable m.header rows.old keys.old sorts.old live.old base.old }
    ensures { Finishing m before rows.old keys.old sorts.old live.old base.old result rows.new keys.new sorts.new live.new base.new }
{
    let mut n = m.header;
    n.pending = 0;
    let mut r = Merge {
        header: n,
        status: 0,
        place: 0,
        added: before < m.header.rows,
        kept: 0,
        dropped: 0,
    };
    if let Some(at) = m.stopped {
        r.status = u32::from(at.stop);
        r.place = at.place;
        return r;
    }
    if !is_due(n) {
        return r;
    }
    let compacted = compact_rows(n, rows, keys, sorts, live, base);
    r.header = compacted;
    r.kept = compacted.rows;
    r.dropped = n.dead;
    r
}

pub fn merge(
    h: Header,
    rows: &mut [u32],
    keys: &mut [u32],
    sorts: &mut [u32],
    pending: &[u32],
    live: &mut [u64],
    base: &mut [u32],
) -> Result<Merge, Refusal>
    ensures { Merging (stores h rows.old keys.old sorts.old pending.now) (compaction_words live.old base.old) result (body rows.new keys.new sorts.new) (compaction_words live.new base.new) }
{
    let l = Lent {
        rows: rows.len(),
        keys: keys.len(),
        sorts: sorts.len(),
        pending: pending.len(),
        live: live.len(),
        base: base.len(),
    };
    check_merge(h, l)?;
    let m = apply_pending(h, rows, keys, sorts, pending);
    Ok(finish(m, h.rows, rows, keys, sorts, live, base))
}
