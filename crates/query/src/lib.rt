// Refine by one and by a list, any match, page.
#![tactic(auto)]

ghost use Rattle.offsets.specs.Answers.{subset_of};
ghost use Rattle.query_spec.specs.Queries.{RefinedOne, RefinedList, Matched, PageRead};

use constraints::Constraint;
use loops::{scan_match, scan_page, scan_refine};
use offsets::{Subset, SubsetForm};
use query_scan::{close_match, close_page, close_refine, scan_one, write_found};
use query_spec::Page;
use refusals::Refusal;
use table::Header;

pub mod array; // array.rt: conditions that lie in an array
pub mod loops; // loops.rt: the loops over rows and conditions

// Returns the rows of a subset that are live and meet a condition. From a range: a range while they are neighbours, else a list.
// From a list: a list.
pub fn refine_one(
    h: Header,
    rows: &[u32],
    subset: Subset,
    c: Constraint,
    out: &mut [u32],
) -> Result<SubsetForm, Refusal>
    ensures { RefinedOne h rows.now (subset_of subset.entry) c out.old result out.new }
{
    let done = scan_one(h, rows, subset, c, out)?;
    match subset {
        Subset::Range(..) => Ok(done.found.finish()),
        Subset::List(_) => Ok(SubsetForm::List(write_found(done.found, out))),
    }
}

// Returns the rows of a subset that are live and meet all conditions: the range if all of it is kept, else a list.
pub fn refine_ref(
    h: Header,
    rows: &[u32],
    subset: Subset,
    conditions: &[Constraint],
    out: &mut [u32],
) -> Result<SubsetForm, Refusal>
    ensures { RefinedList h rows.now (subset_of subset.entry) conditions.now out.old result out.new }
{
    let done = scan_refine(h, rows, subset, conditions, out)?;
    Ok(close_refine(subset, done, out))
}

// Whether a row of a subset is live and meets all conditions.
pub fn contains_match(
    h: Header,
    rows: &[u32],
    subset: Subset,
    conditions: &[Constraint],
) -> Result<bool, Refusal>
    ensures { Matched h rows.now (subset_of subset.entry) conditions.now result }
{
    let mut none = [0u32; 0];
    let done = scan_match(h, rows, subset, conditions, &mut none)?;
    Ok(close_match(done))
}

// Reads a page: visits n ids of a subset from the start place on, and writes those of the live rows that meet all conditions.
pub fn read_page(
    h: Header,
    rows: &[u32],
    subset: Subset,
    start: u32,
    n: usize,
    conditions: &[Constraint],
    out: &mut [u32],
) -> Result<Page, Refusal>
    ensures { PageRead h rows.now (subset_of subset.entry) start n conditions.now out.old result out.new }
{
    let done = scan_page(h, rows, subset, start, n, conditions, out)?;
    Ok(close_page(subset, done, out))
}
