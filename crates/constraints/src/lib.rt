// Conditions: `Constraint` of table_spec.rs. Each contract cites its definition in specs/Constraints.antt. A column that a row does
// not have reads as 0, in the code and in the definitions.
#![tactic(auto)]

ghost use Rattle.std.specs.Prelude.{◌≡◌, cond, ◌∷◌, [], eqb, get_or};
ghost use Rattle.constraints.specs.Constraints as rules;

pub mod decode; // decode.rt: conditions read from words

// The kinds of conditions.
pub const EQUAL_COLUMNS: u32 = 0;

pub const EQUAL: u32 = 1;

pub const LESS: u32 = 2;

pub const GREATER: u32 = 3;

pub const AT_MOST: u32 = 4;

pub const AT_LEAST: u32 = 5;

// Kind 0: two columns are equal, `column` and `value`. Kinds 1 to 5: the cell of `column` is equal to, less than, greater than, at
// most or at least `value`, unsigned. C callers pass arrays of this struct.
#[repr(C)]
#[derive(Clone, Copy)]
pub struct Constraint {
    pub kind: u32,
    pub column: u32,
    pub value: u32,
}

// The cell of a column, 0 if the row does not have the column.
fn cell(row: &[u32], column: u32) -> u32
    ensures { result ≡ get_or row.now column 0 }
{
    row.get(column as usize).copied().unwrap_or(0)
}

// The kind is one of the six, and the columns that it names exist.
pub fn known(c: Constraint, columns: u32) -> bool
    ensures { result ≡ rules.known columns c }
{
    (c.kind <= AT_LEAST) & (c.column < columns) & ((c.kind != EQUAL_COLUMNS) | (c.value < columns))
}

// Compares a cell with another cell (kind 0) or with a value (kinds 1 to 5). At most is the negation of greater, and at least that
// of less. So kinds 2 to 5 share one comparison, with its sides exchanged for two of them. A kind stays a number: C callers pass it,
// and others than the six are refused by `known`.
fn compares(kind: u32, cell: u32, other: u32) -> bool
    ensures { result ≡ cond (eqb kind 0) (eqb cell other) (rules.compares kind cell other) }
{
    if kind < LESS {
        return cell == other;
    }
    let (low, high) = if (kind == GREATER) | (kind == AT_MOST) {
        (other, cell)
    } else {
        (cell, other)
    };
    (low < high) == (kind < AT_MOST)
}

// The cells of a row, dead or live, meet the condition.
pub fn met(c: Constraint, row: &[u32]) -> bool
    ensures { result ≡ rules.met row.now c }
{
    let first = cell(row, c.column);
    let other = if c.kind == EQUAL_COLUMNS {
        cell(row, c.value)
    } else {
        c.value
    };
    compares(c.kind, first, other)
}

pub fn is_live(row: &[u32]) -> bool
    ensures { result ≡ rules.is_live row.now }
{
    !cells::is_stale(cell(row, 0))
}

// The row is live and meets the condition.
pub fn meets(c: Constraint, row: &[u32]) -> bool
    ensures { result ≡ rules.meets row.now (c ∷ []) }
{
    is_live(row) && met(c, row)
}
