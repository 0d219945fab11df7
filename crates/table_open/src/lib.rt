// Open and clear.
#![tactic(auto)]

ghost use Rattle.std.specs.Prelude.{◌≡◌, true};
ghost use Rattle.table.specs.Refusing.{outside};
ghost use Rattle.table.specs.Outcomes.{body, Opened, Clearing};

use refusals::Refusal;
use table::refusing::{check_clear, check_open};
use table::{Header, Lent};

// The header before the first opening. Every operation refuses it.
pub fn no_table() -> Header
    ensures { outside result ≡ true }
{
    Header {
        columns: 0,
        keys: 0,
        sort: 0,
        rule: 0,
        capacity: 0,
        rows: 0,
        dead: 0,
        entries: 0,
        pending: 0,
        generation: 0,
        largest: None,
    }
}

// Opens an empty table in the lent stores. Of rows and sort entries only the lengths are used; pending may have any length.
pub fn open_table(
    columns: u32,
    key_columns: u32,
    sort: u32,
    rule: u32,
    capacity: u32,
    generation: u32,
    rows: &[u32],
    keys: &mut [u32],
    sorts: &[u32],
    pending: &[u32],
) -> Result<Header, Refusal>
    ensures { Opened (record { columns = columns; keys = key_columns; sort = sort; rule = rule; capacity = capacity }) generation (body rows.now keys.old sorts.now) pending.now result keys.new }
{
    let h = Header {
        columns,
        keys: key_columns,
        sort,
        rule,
        capacity,
        rows: 0,
        dead: 0,
        entries: 0,
        pending: 0,
        generation,
        largest: None,
    };
    let l = Lent {
        rows: rows.len(),
        keys: keys.len(),
        sorts: sorts.len(),
        pending: pending.len(),
        live: 0,
        base: 0,
    };
    check_open(h, l)?;
    key_index::empty(key_index::size_class_for(capacity, 0), keys);
    Ok(h)
}

// Empties pending and, if there are rows, the table.
pub fn clear(h: Header, keys: &mut [u32]) -> Result<Header, Refusal>
    ensures { Clearing h keys.old result keys.new }
{
    check_clear(h, keys.len())?;
    let mut n = h;
    n.pending = 0;
    if h.rows == 0 {
        return Ok(n);
    }
    key_index::empty(key_index::size_class_for(h.capacity, 0), keys);
    n.rows = 0;
    n.dead = 0;
    n.entries = 0;
    n.generation = h.generation + 1;
    n.largest = None;
    Ok(n)
}
