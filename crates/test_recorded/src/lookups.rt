// Makes the lookups, range queries and version queries of the recorded list on the library. Returns each answer in the list's form.
use super::lines::{Answer, add_offset, number_at, part};
use refusals::Refusal;
use sort_entries::Range;
use table::Header;

// The offset of a row's first cell: the row number times the number of columns.
fn row_place(row: u32, columns: u32) -> usize {
    (0..columns).fold(0, |place, _| add_offset(place, row))
}

// A row's number, and its cells.
fn answer_row(h: Header, row: u32, rows: &[u32], out: &mut [u32]) -> Answer {
    let from = row_place(row, h.columns);
    let cells = part(rows, from, add_offset(from, h.columns));
    let mut reply = Answer::new(h, b'R', &[row]);
    if cells.len() <= out.len() {
        out[..cells.len()].copy_from_slice(cells);
        reply.more = h.columns;
    }
    reply
}

// L: look up a row by key.
pub fn look_up(h: Header, key: &[u32], rows: &[u32], keys: &[u32], out: &mut [u32]) -> Answer {
    match table_read::get_row(h, rows, keys, key) {
        Err(refusal) => Answer::refused(h, refusal.into()),
        Ok(None) => Answer::new(h, b'N', &[]),
        Ok(Some(row)) => answer_row(h, row, rows, out),
    }
}

// E: look up one cell by key.
pub fn one_cell(h: Header, numbers: &[u32], rows: &[u32], keys: &[u32]) -> Answer {
    let key = part(numbers, 1, numbers.len());
    match table_read::get_row_column(h, rows, keys, key, number_at(numbers, 0)) {
        Err(refusal) => Answer::refused(h, refusal.into()),
        Ok(None) => Answer::new(h, b'N', &[]),
        Ok(Some(cell)) => Answer::new(h, b'C', &[cell]),
    }
}

pub fn answer_range(h: Header, answer: Result<Option<Range>, Refusal>) -> Answer {
    match answer {
        Err(refusal) => Answer::refused(h, refusal.into()),
        Ok(None) => Answer::new(h, b'N', &[]),
        Ok(Some(Range { start, end })) => Answer::new(h, b'S', &[0, start, end]),
    }
}

// V: version.
pub fn version(h: Header) -> Answer {
    match table_read::version(h) {
        Err(refusal) => Answer::refused(h, refusal.into()),
        Ok(v) => Answer::new(h, b'V', &[v.generation, v.rows]),
    }
}
