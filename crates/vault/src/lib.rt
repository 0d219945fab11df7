// Column order for the vault: a list of rows, column after column, as differences down each column; and the inverse. Both process
// the rows in blocks, and each block column by column, so that a cell's neighbours in its row are still in the cache when their
// columns are processed.
#![tactic(auto)]

ghost use Rattle.std.specs.Prelude.{ℕ, ◌≡◌, ◌+◌, ◌*◌, ◌<◌, ◌≤◌, List, length};
ghost use Rattle.refusals.specs.Refusals.{refusal_number};
ghost use Rattle.vault.specs.Columns.{to_columns, from_columns, columns_refusal, Rearranged};
ghost use Rattle.vault.specs.inner.Filling.{cell_above, Shaped, Within, by_columns, by_rows, DirectionLaws, Begun, Filled};
ghost use Rattle.vault.specs.Laws.Directions.{to_columns_laws, from_columns_laws};

use refusals::Refusal;

// The largest width of a row.
const MOST_COLUMNS: u32 = 8;

// The number of rows in a block.
const BLOCK: usize = 256;

// The tests of a rearrangement.
fn check_columns(width: u32, cells: usize, output: usize) -> Result<(), Refusal>
    ensures { refusal_number result ≡ columns_refusal width cells output }
{
    if width < 1 {
        return Err(Refusal::OutOfBounds);
    }
    if MOST_COLUMNS < width {
        return Err(Refusal::OutOfBounds);
    }
    let rest = cells % (width as usize);
    if rest != 0 {
        return Err(Refusal::BrokenRow);
    }
    if output < cells {
        return Err(Refusal::TooShort);
    }
    Ok(())
}

// The end of the block that starts at this row. No `min`: with it the loops over a block are compiled to slower code.
fn block_end(start: usize, rows: usize) -> usize
    requires { start < rows }
    ensures { (start < result) × (result ≤ rows) }
{
    if rows - start <= BLOCK {
        rows
    } else {
        start + BLOCK
    }
}

// The cell above the cell of a row and column; 0 above the first row.
fn cell_above(width: usize, column: usize, cells: &[u32], row: usize) -> u32
    requires { (column < width) × (row * width ≤ length cells.now) }
    ensures { result ≡ cell_above width column cells.now row }
{
    if row == 0 {
        return 0;
    }
    let at = row * width + column;
    cells[at - width]
}

// A direction of the rearrangement.
trait Direction {
    // The cells as it writes them, for each width.
    ghost order: { ℕ → List ℕ → List ℕ };

    // Where it writes the cell of a row and column, for each width and number of rows.
    ghost place: { ℕ → ℕ → ℕ → ℕ → ℕ };

    ghost laws: { DirectionLaws order place };

    // Rearranges a column of a block.
    fn rearrange_column(
        width: usize,
        rows: usize,
        start: usize,
        end: usize,
        column: usize,
        cells: &[u32],
        output: &mut [u32],
    )
        requires { Shaped width rows cells.now output.old × Within start end rows × (column < width) × Begun order place width rows start cells.now output.old }
        ensures { Filled (order width cells.now) (place width rows) start end column (column + 1) output.old output.new };
}

// Row order to column order.
struct ToColumns;

impl Direction for ToColumns {
    ghost order = { to_columns };

    ghost place = { by_columns };

    ghost laws = { to_columns_laws };

    fn rearrange_column(
        width: usize,
        rows: usize,
        start: usize,
        end: usize,
        column: usize,
        cells: &[u32],
        output: &mut [u32],
    ) {
        let base = column * rows;
        let mut above = cell_above(width, column, cells, start);
        for row in start..end {
            let cell = cells[row * width + column];
            output[base + row] = cell.wrapping_sub(above);
            above = cell;
        }
    }
}

// Column order to row order.
struct FromColumns;

impl Direction for FromColumns {
    ghost order = { from_columns };

    ghost place = { by_rows };

    ghost laws = { from_columns_laws };

    fn rearrange_column(
        width: usize,
        rows: usize,
        start: usize,
        end: usize,
        column: usize,
        cells: &[u32],
        output: &mut [u32],
    ) {
        let base = column * rows;
        let mut above = cell_above(width, column, output, start);
        for row in start..end {
            above = cells[base + row].wrapping_add(above);
            output[row * width + column] = above;
        }
    }
}

// Rearranges a block, column by column.
fn rearrange_block<D: Direction>(
    width: usize,
    rows: usize,
    start: usize,
    end: usize,
    cells: &[u32],
    output: &mut [u32],
)
    requires { Shaped width rows cells.now output.old × Within start end rows × Begun D.order D.place width rows start cells.now output.old }
    ensures { Filled (D.order width cells.now) (D.place width rows) start end 0 width output.old output.new }
{
    for column in 0..width {
        D::rearrange_column(width, rows, start, end, column, cells, output);
    }
}

// Rearranges all rows, block by block.
fn rearrange_rows<D: Direction>(width: usize, rows: usize, cells: &[u32], output: &mut [u32])
    requires { Shaped width rows cells.now output.old }
    ensures { Filled (D.order width cells.now) (D.place width rows) 0 rows 0 width output.old output.new }
{
    let mut start = 0;
    // No `for`: each turn goes on by a block, and the last block may be shorter.
    while start < rows {
        let end = block_end(start, rows);
        rearrange_block::<D>(width, rows, start, end, cells, output);
        start = end;
    }
}

// Rearranges in either direction, after the tests.
fn rearrange<D: Direction>(width: u32, cells: &[u32], output: &mut [u32]) -> Result<(), Refusal>
    ensures { Rearranged D.order width cells.now output.old result output.new }
{
    check_columns(width, cells.len(), output.len())?;
    let rows = cells.len() / (width as usize);
    rearrange_rows::<D>(width as usize, rows, cells, output);
    Ok(())
}

// Writes rows of this width to the output, column after column, each cell but a column's first as its difference from the
// cell above.
pub fn to_columns(width: u32, cells: &[u32], output: &mut [u32]) -> Result<(), Refusal>
    ensures { Rearranged to_columns width cells.now output.old result output.new }
{
    rearrange::<ToColumns>(width, cells, output)
}

// The inverse: writes the rows of this width that `to_columns` rearranged.
pub fn from_columns(width: u32, cells: &[u32], output: &mut [u32]) -> Result<(), Refusal>
    ensures { Rearranged from_columns width cells.now output.old result output.new }
{
    rearrange::<FromColumns>(width, cells, output)
}
