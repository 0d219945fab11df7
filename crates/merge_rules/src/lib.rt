// The four merge rules: what happens to a known key's row when a new row is inserted. The Rust takes a `MergeFn`; here a rule
// number selects the rule. Each contract cites its definition in specs/.
#![tactic(auto)]

ghost use Rattle.std.specs.Prelude.{◌≡◌, ◌+◌, ◌%◌, ◌≤◌, not, ◌&&◌, length, take, drop, eqb};
ghost use Rattle.std.specs.Int.Signed.{lt_z};
ghost use Rattle.lists.specs.Lists.{splice};
ghost use Rattle.merge_rules.specs.Rules as rules;

// The rules other than 0, which keeps the old cell. A rule stays a number: the header that C callers lend stores it.
pub const TAKE_NEW: u32 = 1;

const TAKE_SMALLER: u32 = 2;

const TAKE_LARGER: u32 = 3;

// Whether the rule decides the cell of this column: it is neither a key column nor the sort column.
fn ruled_column(keys: u32, sort: u32, column: usize) -> bool
    ensures { result ≡ rules.ruled_column keys sort column }
{
    column >= keys as usize && column != sort as usize
}

// The smaller and the larger of two cells, as signed numbers.
fn smaller(a: u32, b: u32) -> u32
    ensures { result ≡ rules.smaller a b }
{
    a.cast_signed().min(b.cast_signed()).cast_unsigned()
}

fn larger(a: u32, b: u32) -> u32
    ensures { result ≡ rules.larger a b }
{
    b.cast_signed().max(a.cast_signed()).cast_unsigned()
}

// The cell that a rule takes from an old and a new cell of such a column.
fn taken(rule: u32, old: u32, new: u32) -> u32
    ensures { result ≡ rules.taken rule old new }
{
    match rule {
        TAKE_NEW => new,
        TAKE_SMALLER => smaller(old, new),
        TAKE_LARGER => larger(old, new),
        _ => old,
    }
}

// Whether the rule takes a cell that differs from the old one.
fn cell_changes(rule: u32, keys: u32, sort: u32, column: usize, old: u32, new: u32) -> bool
    ensures { result ≡ (rules.ruled_column keys sort column && not (eqb (rules.taken rule old new) old)) }
{
    ruled_column(keys, sort, column) && taken(rule, old, new) != old
}

fn made_cell(rule: u32, keys: u32, sort: u32, column: usize, old: u32, new: u32) -> u32
    ensures { result ≡ rules.made_cell rule keys sort column old new }
{
    if ruled_column(keys, sort, column) {
        taken(rule, old, new)
    } else if column == sort as usize {
        new
    } else {
        old
    }
}

// Whether the rule makes a row from the two; otherwise the old row is kept. Ignores key cells, and cells that only one of the two
// rows has.
pub fn changes(rule: u32, keys: u32, sort: u32, old: &[u32], new: &[u32]) -> bool
    ensures { result ≡ rules.changes_from rule keys sort 0 old.now new.now }
{
    for column in keys as usize..old.len().min(new.len()) {
        if cell_changes(rule, keys, sort, column, old[column], new[column]) {
            return true;
        }
    }
    false
}

// Writes the row that the rule makes to the start of `out`.
pub fn make(rule: u32, keys: u32, sort: u32, old: &[u32], new: &[u32], out: &mut [u32])
    requires { (length old.now ≡ length new.now) × (length old.now ≤ length out.old) }
    ensures { out.new ≡ splice out.old 0 (rules.made_from rule keys sort 0 old.now new.now) }
{
    for column in 0..old.len() {
        out[column] = made_cell(rule, keys, sort, column, old[column], new[column]);
    }
}

// The row that survives under rule 0 or 1: the old row, as a part of the row store, or the new row, as a part of the pending store.
pub fn surviving_row<'a>(
    rule: u32,
    keys: u32,
    sort: u32,
    width: usize,
    rows: &'a [u32],
    old: usize,
    pending: &'a [u32],
    new: usize,
) -> &'a [u32]
    requires { (rule ≤ 1) × (old + width ≤ length rows.now) × (new + width ≤ length pending.now) }
    ensures { result.now ≡ rules.survivor rule keys sort (take width (drop old rows.now)) (take width (drop new pending.now)) }
{
    let old_row = &rows[old..old + width];
    let new_row = &pending[new..new + width];
    if changes(rule, keys, sort, old_row, new_row) {
        new_row
    } else {
        old_row
    }
}
