// Checks a laboratory's answers: whether the row numbers given are those of the rows of a listing that meet every condition.
#![tactic(auto)]

ghost use Rattle.std.specs.Prelude.{◌≡◌, true, ◌≤◌, take, get_or};
ghost use Rattle.constraints.specs.Constraints.{meets};
ghost use Rattle.listing_parse.specs.inner.Surveys.{Surveyed};
ghost use Rattle.listing_check.specs.Answers.{misplaced, AnswersChecked};
ghost use Rattle.listing_check.specs.inner.Scanning.{misplaced_place, Due, RowRead, finished_as, Begun, Stepped, closed};

use constraints::Constraint;
use listing_parse::{MOST_FIELDS, Survey, reread_line, scan_text};
use query::loops::{are_known, is_match};
use refusals::Refusal;
use table::Header;

// What is wrong with the numbers: the number at this place is not above the one before; or this is the lowest row number that is
// wrongly present or wrongly absent.
#[derive(Clone, Copy)]
pub enum Mistake {
    Misplaced(usize),
    Wrong(u32),
}

// A row as its D line gives it, and the offset after the line. Cells past the listing's columns are not used.
#[derive(Clone, Copy)]
struct Row {
    number: u32,
    cells: [u32; 8],
    next: usize,
}

// The state of a merge scan of a listing's rows against the numbers given: the lines left, from `start` up to `end`, and the
// numbers left, from `place` on. `answer` is the result unless a wrong number is still found. Once it is final, no line and no
// number is left.
#[derive(Clone, Copy)]
struct CheckScan {
    answer: Result<Option<Mistake>, Refusal>,
    start: usize,
    end: usize,
    place: usize,
}

// The header of a table with the listing's rows, on which the conditions are tested.
fn header_of(s: Survey) -> Header
    ensures { result.columns ≡ s.columns }
{
    Header {
        columns: s.columns,
        keys: s.keys,
        sort: s.sort,
        rule: s.rule,
        capacity: s.rows,
        rows: s.rows,
        dead: 0,
        entries: 0,
        pending: 0,
        generation: s.generation,
        largest: None,
    }
}

// The place of the first number not above the one before, if there is one.
fn first_misplaced(given: &[u32]) -> Option<usize>
    ensures { misplaced_place result ≡ misplaced given.now }
{
    let mut at = 1;
    while at < given.len() {
        if given[at] <= given[at - 1] {
            return Some(at);
        }
        at += 1;
    }
    None
}

// The final state: no line or number is left that could change the answer.
fn finished(answer: Result<Option<Mistake>, Refusal>, count: usize) -> CheckScan
    ensures { result ≡ finished_as answer count }
{
    CheckScan {
        answer: answer,
        start: 0,
        end: 0,
        place: count,
    }
}

// The initial state: refused, misplaced, or right as long as the rows and the numbers agree.
fn begin(s: Survey, known: bool, text: &[u8], given: &[u32]) -> CheckScan
    requires { Surveyed true text.now s }
    ensures { Begun s known text.now given.now result }
{
    if !s.is_listing {
        return finished(Err(Refusal::NoListing), given.len());
    }
    if !known {
        return finished(Err(Refusal::NoSuchColumn), given.len());
    }
    match first_misplaced(given) {
        None => CheckScan {
            answer: Ok(None),
            start: s.start,
            end: text.len(),
            place: 0,
        },
        Some(place) => finished(Ok(Some(Mistake::Misplaced(place))), given.len()),
    }
}

// Reads the D line that begins at `start`.
fn row_at(columns: u32, text: &[u8], start: usize) -> Row
    requires { Due columns text.now start }
    ensures { RowRead columns text.now start result }
{
    let width = 1 + columns as usize;
    let mut numbers = [0u32; MOST_FIELDS];
    let next = reread_line(text, start, width, &mut numbers);
    let mut cells = [0u32; 8];
    row_buffer::write_row(&mut cells, 0, &numbers[1..width]);
    Row {
        number: numbers[0],
        cells: cells,
        next: next,
    }
}

// The number given at `place`; past the last one, a number above every row's.
fn given_at(given: &[u32], place: usize) -> u64
    ensures { result ≡ get_or given.now place 4294967296 }
{
    if place < given.len() {
        return given[place] as u64;
    }
    0x1_0000_0000
}

// Processes one row. A given number below the row's number is wrong. The row's own number is wrong unless it is given exactly if
// the row meets every condition.
fn step(given: &[u32], at: CheckScan, row: Row, meets: bool) -> CheckScan
    ensures { Stepped given.now at row meets result }
{
    let next = given_at(given, at.place);
    let number = row.number as u64;
    if next < number {
        return finished(Ok(Some(Mistake::Wrong(next as u32))), given.len());
    }
    let there = next == number;
    if there != meets {
        return finished(Ok(Some(Mistake::Wrong(row.number))), given.len());
    }
    let mut n = at;
    n.start = row.next;
    if there {
        n.place = at.place + 1;
    }
    n
}

// After the last row, a number that is left is wrong.
fn close(at: CheckScan, given: &[u32]) -> Result<Option<Mistake>, Refusal>
    ensures { result ≡ closed at given.now }
{
    let place = at.place;
    if place < given.len() {
        return Ok(Some(Mistake::Wrong(given[place])));
    }
    at.answer
}

// True if the row's cells meet every condition.
fn meets_all(h: Header, cells: [u32; 8], conditions: &[Constraint]) -> bool
    requires { (1 ≤ h.columns) × (h.columns ≤ 8) }
    ensures { result ≡ meets (take h.columns cells) conditions.now }
{
    is_match(h, &cells, 0, conditions)
}

// What is wrong with the numbers given, if anything. Scans the whole text first, then row by row together with the numbers given.
pub fn check_answers(
    text: &[u8],
    conditions: &[Constraint],
    given: &[u32],
) -> Result<Option<Mistake>, Refusal>
    ensures { AnswersChecked text.now conditions.now given.now result }
{
    let s = scan_text(true, text);
    let h = header_of(s);
    let known = are_known(h.columns, conditions);
    let mut at = begin(s, known, text, given);
    while at.start < at.end {
        let row = row_at(h.columns, text, at.start);
        let meets = meets_all(h, row.cells, conditions);
        at = step(given, at, row, meets);
    }
    close(at, given)
}
