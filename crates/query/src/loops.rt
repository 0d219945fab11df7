// The loops of every query: over the rows and, for each row, over the conditions. Each condition is passed by value to a test, each row
// to a step of `query_scan`.
ghost use Rattle.std.specs.Prelude.{◌≡◌, Bool, length};
ghost use Rattle.lists.specs.Lists.{all};
ghost use Rattle.offsets.specs.Answers.{subset_of};
ghost use Rattle.constraints.specs.Constraints.{known};
ghost use Rattle.constraints.specs.declared.Constraint.{Constraint as Condition};
ghost use Rattle.query_spec.specs.Queries.{matches};
ghost use Rattle.query_scan.specs.Visits as visits;
ghost use Rattle.query_scan.specs.inner.Scanning.{RowInStore, CanStart, Finished, ScanAnswered};

use constraints::Constraint;
use offsets::Subset;
use query_scan::{Scan, is_live_at, is_met_at, open_match, open_page, open_refine, step};
use refusals::Refusal;
use table::Header;

// Whether all conditions pass a test. Stops at the first that does not. The only function that iterates over conditions. A caller shows
// that its test answers as a definition does; then the result is that of the definition on all of them.
fn all_pass<F: Fn(Constraint) -> bool>(conditions: &[Constraint], test: F) -> bool
    requires { F.IsAlwaysCallable test }
    ensures { (passes : Condition → Bool) → ((c : Condition) (answer : Bool) → F.post test c answer → answer ≡ passes c) → result ≡ all passes conditions.now }
{
    conditions.iter().all(|c| test(*c))
}

// Whether all conditions are known.
pub fn are_known(columns: u32, conditions: &[Constraint]) -> bool
    ensures { result ≡ all (known columns) conditions.now }
{
    all_pass(conditions, |c| constraints::known(c, columns))
}

// Whether a row is live and meets all conditions. Stops at the first that it does not meet; for a dead row tests none.
pub fn is_match(h: Header, rows: &[u32], id: u32, conditions: &[Constraint]) -> bool
    requires { RowInStore h (length rows.now) id }
    ensures { result ≡ matches h rows.now conditions.now id }
{
    is_live_at(h, rows, id) && all_pass(conditions, |c| is_met_at(h, rows, id, c))
}

// Scans the places of a query that has begun, each by all conditions.
fn scan(
    h: Header,
    rows: &[u32],
    subset: Subset,
    conditions: &[Constraint],
    begun: Scan,
    out: &mut [u32],
) -> Scan
    requires { CanStart h (length rows.now) (subset_of subset) begun out.old }
    ensures { Finished h rows.now (subset_of subset.entry) (matches h rows.now conditions.now) begun out.old result out.new }
{
    let mut at = begun;
    while at.next < at.end {
        let hit = is_match(h, rows, at.id, conditions);
        at = step(h, rows, subset, at, hit, out);
    }
    at
}

// A refinement: refused, or all places scanned.
pub fn scan_refine(
    h: Header,
    rows: &[u32],
    subset: Subset,
    conditions: &[Constraint],
    out: &mut [u32],
) -> Result<Scan, Refusal>
    ensures { ScanAnswered visits.Refine h rows.now (subset_of subset.entry) conditions.now out.old result out.new }
{
    let known = are_known(h.columns, conditions);
    let begun = open_refine(h, rows.len(), subset, known, out.len())?;
    Ok(scan(h, rows, subset, conditions, begun, out))
}

// A search for a match: refused, or the places up to the first match scanned.
pub fn scan_match(
    h: Header,
    rows: &[u32],
    subset: Subset,
    conditions: &[Constraint],
    out: &mut [u32],
) -> Result<Scan, Refusal>
    ensures { ScanAnswered visits.Match h rows.now (subset_of subset.entry) conditions.now out.old result out.new }
{
    let known = are_known(h.columns, conditions);
    let begun = open_match(h, rows.len(), subset, known)?;
    Ok(scan(h, rows, subset, conditions, begun, out))
}

// A page: refused, or n places from the start place on scanned.
pub fn scan_page(
    h: Header,
    rows: &[u32],
    subset: Subset,
    start: u32,
    n: usize,
    conditions: &[Constraint],
    out: &mut [u32],
) -> Result<Scan, Refusal>
    ensures { ScanAnswered (visits.Page start n) h rows.now (subset_of subset.entry) conditions.now out.old result out.new }
{
    let known = are_known(h.columns, conditions);
    let begun = open_page(h, rows.len(), subset, start, n, known, out.len())?;
    Ok(scan(h, rows, subset, conditions, begun, out))
}
