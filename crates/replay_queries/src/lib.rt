// Runs one query, encoded in words, on the ids left.
#![tactic(auto)]

ghost use Rattle.std.specs.Prelude.{◌≡◌, ◌<◌};
ghost use Rattle.offsets.specs.Answers.{subset_of};
ghost use Rattle.replay_queries.specs.Encoding.{query_of};
ghost use Rattle.replay_queries.specs.inner.Executing.{counted, apply_answer, Executed, ListExecuted, RangeExecuted};

use constraints::Constraint;
use constraints::decode::{CONDITION_WORDS, MOST_CONDITIONS, read_condition, read_conditions};
use offsets::{Subset, SubsetForm};
use offsets_intersect::intersect;
use query::array::refine_first;
use query::refine_one;
use refusals::Refusal;
use replay_frames::Frame;
use table::Header;
use table_read::fast_subset;

pub mod run; // run.rt: a list of queries

// The kinds of queries: refining by a condition or by a list of them, intersecting with ids, with a range, or with the
// sort-column range of a condition.
const REFINE_ONE: u32 = 0;

const REFINE_LIST: u32 = 1;

const INTERSECT_LIST: u32 = 2;

const INTERSECT_RANGE: u32 = 3;

const INTERSECT_SORT_RANGE: u32 = 4;

// The words of a range.
const RANGE_WORDS: usize = 2;

// The lists that ids left can be in: the starting list, the first and the second lent list.
pub const STARTING_LIST: u32 = 0;

pub const FIRST_LIST: u32 = 1;

pub const SECOND_LIST: u32 = 2;

// The ids left: a range, or the starting list, or the first ids of the first or second lent list; `place` is the list. Also whether
// an accepted query refined, and how many queries were taken from the list, including refused ones.
#[derive(Clone, Copy)]
pub struct RunAnswer {
    pub dense: bool,
    pub start: u32,
    pub end: u32,
    pub count: u32,
    pub place: u32,
    pub refined: bool,
    pub taken: usize,
}

// Counts a query that has no effect.
fn count_one(l: RunAnswer) -> RunAnswer
    requires { l.taken < 18446744073709551615 }
    ensures { result ≡ counted l }
{
    let mut n = l;
    n.taken = l.taken + 1;
    n
}

// The ids left after the answer to a query that refines or intersects. `place` is the list that its output went to.
fn apply_answer(
    l: RunAnswer,
    place: u32,
    refines: bool,
    answer: Result<SubsetForm, Refusal>,
) -> RunAnswer
    requires { l.taken < 18446744073709551615 }
    ensures { result ≡ apply_answer l place refines answer }
{
    let refined = refines | l.refined;
    match answer {
        Err(_) => count_one(l),
        Ok(SubsetForm::Range(start, end)) => RunAnswer {
            dense: true,
            start: start,
            end: end,
            count: 0,
            place: STARTING_LIST,
            refined: refined,
            taken: l.taken + 1,
        },
        Ok(SubsetForm::List(count)) => RunAnswer {
            dense: false,
            start: 0,
            end: 0,
            count: count,
            place: place,
            refined: refined,
            taken: l.taken + 1,
        },
    }
}

// Intersects the ids left with the sort-column range of a condition. Without a range the step has no effect, like a refused one.
fn execute_range(
    h: Header,
    sorts: &[u32],
    c: Constraint,
    l: RunAnswer,
    subset: Subset,
    place: u32,
    out: &mut [u32],
) -> RunAnswer
    requires { l.taken < 18446744073709551615 }
    ensures { RangeExecuted h sorts.now (subset_of subset.entry) c l place out.old result out.new }
{
    let found = fast_subset(h, sorts, c);
    match found {
        Err(_) => count_one(l),
        Ok(None) => count_one(l),
        Ok(Some(found)) => {
            let range = Subset::Range(found.start, found.end);
            apply_answer(l, place, false, intersect(subset, range, out))
        }
    }
}

// Refines the ids left by a list of at most 16 conditions. Words that are no such list are skipped.
fn execute_list(
    h: Header,
    rows: &[u32],
    cells: &[u32],
    l: RunAnswer,
    subset: Subset,
    place: u32,
    out: &mut [u32],
) -> RunAnswer
    requires { l.taken < 18446744073709551615 }
    ensures { ListExecuted h rows.now (subset_of subset.entry) cells.now l place out.old result out.new }
{
    let count = cells.len() / CONDITION_WORDS;
    if count * CONDITION_WORDS != cells.len() {
        return l;
    }
    if count > MOST_CONDITIONS {
        return l;
    }
    let conditions = read_conditions(cells, count);
    apply_answer(
        l,
        place,
        true,
        refine_first(h, rows, subset, conditions, count, out),
    )
}

// Runs one query on the ids left and writes its output to the list of this place. Words that are no query are skipped.
pub fn execute(
    h: Header,
    rows: &[u32],
    sorts: &[u32],
    frame: Frame<'_>,
    l: RunAnswer,
    subset: Subset,
    place: u32,
    out: &mut [u32],
) -> RunAnswer
    requires { l.taken < 18446744073709551615 }
    ensures { Executed h rows.now sorts.now (subset_of subset.entry) (query_of frame.entry.kind frame.entry.words.now) l place out.old result out.new }
{
    let cells = frame.words;
    match frame.kind {
        REFINE_ONE if cells.len() == CONDITION_WORDS => {
            let c = read_condition(cells, 0);
            apply_answer(l, place, true, refine_one(h, rows, subset, c, out))
        }
        REFINE_LIST => execute_list(h, rows, cells, l, subset, place, out),
        INTERSECT_LIST => {
            let listed = Subset::List(cells);
            apply_answer(l, place, false, intersect(subset, listed, out))
        }
        INTERSECT_RANGE if cells.len() == RANGE_WORDS => {
            let range = Subset::Range(cells[0], cells[1]);
            apply_answer(l, place, false, intersect(subset, range, out))
        }
        INTERSECT_SORT_RANGE if cells.len() == CONDITION_WORDS => {
            let c = read_condition(cells, 0);
            execute_range(h, sorts, c, l, subset, place, out)
        }
        _ => l,
    }
}
