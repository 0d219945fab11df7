// Dispatches the queries of the recorded list by their letters, and makes those over subsets on the library.
use super::lines::{Answer, NOT_COMPARED, add_offset, number_at, part};
use super::lookups::{answer_range, look_up, one_cell, version};
use constraints::Constraint;
use offsets::{Subset, SubsetForm};
use refusals::Refusal;
use table::Header;

// Reads the condition that begins at `place`.
fn constraint(numbers: &[u32], place: usize) -> Constraint {
    Constraint {
        kind: number_at(numbers, place),
        column: number_at(numbers, add_offset(place, 1)),
        value: number_at(numbers, add_offset(place, 2)),
    }
}

// A subset in a line, and the offset after it.
#[derive(Clone, Copy)]
struct LineSubset<'a> {
    subset: Subset<'a>,
    to: usize,
}

fn subset<'a>(numbers: &'a [u32], place: usize) -> LineSubset<'a> {
    let first = number_at(numbers, add_offset(place, 1));
    if number_at(numbers, place) == 0 {
        let end = number_at(numbers, add_offset(place, 2));
        return LineSubset {
            subset: Subset::Range(first, end),
            to: add_offset(place, 3),
        };
    }
    let from = add_offset(place, 2);
    let to = add_offset(from, first);
    LineSubset {
        subset: Subset::List(part(numbers, from, to)),
        to,
    }
}

// The ids of a list are in the lent numbers.
fn answer_subset(h: Header, answer: Result<SubsetForm, Refusal>) -> Answer {
    match answer {
        Err(refusal) => Answer::refused(h, refusal.into()),
        Ok(SubsetForm::Range(start, end)) => Answer::new(h, b'S', &[0, start, end]),
        Ok(SubsetForm::List(count)) => {
            let mut reply = Answer::new(h, b'S', &[1, count]);
            reply.more = count;
            reply
        }
    }
}

// N: refine.
fn refine(h: Header, numbers: &[u32], rows: &[u32], out: &mut [u32]) -> Answer {
    let passed = subset(numbers, 0);
    let c = constraint(numbers, passed.to);
    let answer = query::refine_one(h, rows, passed.subset, c, out);
    answer_subset(h, answer)
}

// T: intersect.
fn intersect(h: Header, numbers: &[u32], out: &mut [u32]) -> Answer {
    let first = subset(numbers, 0);
    let second = subset(numbers, first.to);
    let answer = offsets_intersect::intersect(first.subset, second.subset, out);
    answer_subset(h, answer)
}

// Makes a query, dispatched by its letter.
pub fn run_query(
    h: Header,
    letter: u8,
    numbers: &[u32],
    rows: &[u32],
    keys: &[u32],
    sorts: &[u32],
    out: &mut [u32],
) -> Answer {
    match letter {
        b'L' => look_up(h, numbers, rows, keys, out),
        b'E' => one_cell(h, numbers, rows, keys),
        b'F' => answer_range(h, table_read::fast_subset(h, sorts, constraint(numbers, 0))),
        b'S' => answer_range(h, table_read::updates_since(h, number_at(numbers, 0))),
        b'V' => version(h),
        b'W' => answer_range(
            h,
            table_read::rows_since_version(h, number_at(numbers, 0), number_at(numbers, 1)),
        ),
        b'N' => refine(h, numbers, rows, out),
        b'T' => intersect(h, numbers, out),
        _ => Answer::new(h, NOT_COMPARED, &[]),
    }
}
