// The refusals of the queries: the checks of specs/Queries.antt, over the header, lengths, the subset and whether the conditions
// are known.
ghost use Rattle.std.specs.Prelude.{◌≡◌};
ghost use Rattle.refusals.specs.Refusals.{refusal_number};
ghost use Rattle.offsets.specs.Answers.{subset_of};
ghost use Rattle.query_spec.specs.Queries.{past_rows};
ghost use Rattle.query_spec.specs.inner.Tests.{subset_refusal, RefineRefused, MatchRefused, PageRefused};

use offsets::Subset;
use refusals::Refusal;
use table::Header;

// Test 5: the range's end or the last id plus one is above the row count.
fn is_past_rows(h: Header, subset: Subset) -> bool
    ensures { result ≡ past_rows h (subset_of subset.entry) }
{
    match subset.bounds() {
        None => false,
        Some(ends) => u64::from(h.rows) < ends.end,
    }
}

// The tests that all queries share.
fn check_subset(h: Header, rows: usize, subset: Subset) -> Result<(), Refusal>
    ensures { refusal_number result ≡ subset_refusal h rows (subset_of subset.entry) }
{
    if table::refusing::is_outside(h) {
        return Err(Refusal::OutOfBounds);
    }
    if table::refusing::is_rows_short(h, rows) {
        return Err(Refusal::TooShort);
    }
    if !subset.is_well_formed() {
        return Err(Refusal::MalformedSubset);
    }
    if is_past_rows(h, subset) {
        return Err(Refusal::PastTheRows);
    }
    Ok(())
}

// *Refine by one, by a list*
pub fn check_refine(
    h: Header,
    rows: usize,
    subset: Subset,
    known: bool,
    output: usize,
) -> Result<(), Refusal>
    ensures { RefineRefused h rows (subset_of subset.entry) known output (refusal_number result) }
{
    check_subset(h, rows, subset)?;
    if !known {
        return Err(Refusal::NoSuchColumn);
    }
    if output < subset.size() {
        return Err(Refusal::TooShort);
    }
    Ok(())
}

// *Any match*
pub fn check_match(h: Header, rows: usize, subset: Subset, known: bool) -> Result<(), Refusal>
    ensures { MatchRefused h rows (subset_of subset.entry) known (refusal_number result) }
{
    check_subset(h, rows, subset)?;
    if !known {
        return Err(Refusal::NoSuchColumn);
    }
    Ok(())
}

// *Page*
pub fn check_page(
    h: Header,
    rows: usize,
    subset: Subset,
    start: u32,
    n: usize,
    known: bool,
    output: usize,
) -> Result<(), Refusal>
    ensures { PageRefused h rows (subset_of subset.entry) start n known output (refusal_number result) }
{
    check_subset(h, rows, subset)?;
    let first = start as usize;
    let size = subset.size();
    if size < first {
        return Err(Refusal::PastTheRows);
    }
    if !known {
        return Err(Refusal::NoSuchColumn);
    }
    if output < n.min(size - first) {
        return Err(Refusal::TooShort);
    }
    Ok(())
}
