// Stages records for the next merge: an insert, a removal by key, a removal by row. Each is appended to the pending store with the
// compact hash of its key, as `Buffer` of table/mod.rs does.
#![tactic(auto)]

ghost use Rattle.std.specs.Prelude.{◌≡◌, ◌+◌, ◌≤◌, [], ◌∷◌, length};
ghost use Rattle.lists.specs.Lists.{splice};
ghost use Rattle.plain_table.specs.Staged.{insert, remove_key, remove_row};
ghost use Rattle.plain_table.specs.Refusing.{overfull};
ghost use Rattle.refusals.specs.Refusals.{refusal_number};
ghost use Rattle.table_stage.specs.inner.Staging.{record_refusal};
ghost use Rattle.table.specs.Outcomes.{Staging};

use refusals::Refusal;
use table::refusing::is_pending_outside;
use table::{
    HASH_AT, Header, INSERT, RECORD_HEAD, REMOVE_KEY, REMOVE_ROW, ROW_AT, ROW_RECORD_HEAD,
};

// The most words in use that a header can hold.
const MOST_WORDS: usize = 0xffff_ffff;

// Where the cells of a record begin, and the key of a removal by row.
const CELLS_AT: usize = RECORD_HEAD as usize;

const KEY_AT: usize = ROW_RECORD_HEAD as usize;

// Test 7: the free pending words do not suffice for a record, or the number of words in use would exceed a u32. The sum itself does
// not overflow.
pub fn is_overfull(used: u32, pending: usize, width: u32, more: u32) -> bool
    ensures { result ≡ overfull used pending (width + more) }
{
    let after = used as usize + (width as usize + more as usize);
    if pending < after {
        return true;
    }
    MOST_WORDS < after
}

// *Stage*: the checks of a record with `cells` cells where `width` are required, and with `more` words before them. `gone` is whether
// the record names a row that does not exist.
fn check_record(
    h: Header,
    pending: usize,
    cells: usize,
    width: u32,
    gone: bool,
    more: u32,
) -> Result<(), Refusal>
    ensures { refusal_number result ≡ record_refusal h pending cells width gone more }
{
    if is_pending_outside(h, pending) {
        return Err(Refusal::OutOfBounds);
    }
    if cells != width as usize {
        return Err(Refusal::WrongWidth);
    }
    if gone {
        return Err(Refusal::PastTheRows);
    }
    if is_overfull(h.pending, pending, width, more) {
        return Err(Refusal::PendingFull);
    }
    Ok(())
}

// Writes the words of a record that precede its cells.
fn write_head(pending: &mut [u32], at: usize, kind: u32, hash: u32)
    requires { at + 2 ≤ length pending.old }
    ensures { pending.new ≡ splice pending.old at (kind ∷ hash ∷ []) }
{
    pending[at] = kind;
    pending[at + HASH_AT] = hash;
}

// Writes the words of a removal by row that precede its key.
fn write_row_head(pending: &mut [u32], at: usize, hash: u32, row: u32)
    requires { at + 3 ≤ length pending.old }
    ensures { pending.new ≡ splice pending.old at (2 ∷ hash ∷ row ∷ []) }
{
    pending[at] = REMOVE_ROW;
    pending[at + HASH_AT] = hash;
    pending[at + ROW_AT] = row;
}

// Writes an insert or a removal by key.
pub fn write_record(pending: &mut [u32], at: usize, kind: u32, hash: u32, cells: &[u32])
    requires { at + (length cells.now + 2) ≤ length pending.old }
    ensures { pending.new ≡ splice pending.old at (kind ∷ hash ∷ cells.now) }
{
    write_head(pending, at, kind, hash);
    row_buffer::write_row(pending, at + CELLS_AT, cells);
}

// Writes a removal by row.
pub fn write_row_record(pending: &mut [u32], at: usize, hash: u32, row: u32, key: &[u32])
    requires { at + (length key.now + 3) ≤ length pending.old }
    ensures { pending.new ≡ splice pending.old at (2 ∷ hash ∷ row ∷ key.now) }
{
    write_row_head(pending, at, hash, row);
    row_buffer::write_row(pending, at + KEY_AT, key);
}

// Stages an insert. The row is stored unchanged; the merge skips a row with a dead first cell.
pub fn stage_insert(h: Header, pending: &mut [u32], cells: &[u32]) -> Result<Header, Refusal>
    ensures { Staging h pending.old (insert cells.now) result pending.new }
{
    check_record(h, pending.len(), cells.len(), h.columns, false, RECORD_HEAD)?;
    let hash = cells::compact_hash(&cells[..h.keys as usize]);
    write_record(pending, h.pending as usize, INSERT, hash, cells);
    let mut n = h;
    n.pending = h.pending + (h.columns + RECORD_HEAD);
    Ok(n)
}

// Stages removal of the key's live row; no effect if there is none at merge time.
pub fn stage_remove(h: Header, pending: &mut [u32], key: &[u32]) -> Result<Header, Refusal>
    ensures { Staging h pending.old (remove_key key.now) result pending.new }
{
    check_record(h, pending.len(), key.len(), h.keys, false, RECORD_HEAD)?;
    let hash = cells::compact_hash(key);
    write_record(pending, h.pending as usize, REMOVE_KEY, hash, key);
    let mut n = h;
    n.pending = h.pending + (h.keys + RECORD_HEAD);
    Ok(n)
}

// Stages removal of a row; no effect unless the row is live and has this key at merge time.
pub fn stage_remove_row(
    h: Header,
    pending: &mut [u32],
    row: u32,
    key: &[u32],
) -> Result<Header, Refusal>
    ensures { Staging h pending.old (remove_row row key.now) result pending.new }
{
    check_record(
        h,
        pending.len(),
        key.len(),
        h.keys,
        h.rows <= row,
        ROW_RECORD_HEAD,
    )?;
    let hash = cells::compact_hash(key);
    write_row_record(pending, h.pending as usize, hash, row, key);
    let mut n = h;
    n.pending = h.pending + (h.keys + ROW_RECORD_HEAD);
    Ok(n)
}
