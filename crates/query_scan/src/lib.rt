// A scan over places of a subset, row by row, which refine, any match and page share. They differ in the places, and in the number
// of matches that ends the scan. The ids of matching rows are collected in a `RetainBuilder`, so nothing is written while they are
// neighbours.
#![tactic(auto)]

ghost use Rattle.std.specs.Prelude.{◌≡◌, true, ◌∷◌, [], ℕ, ◌≤◌, ◌<◌, length, get_or};
ghost use Rattle.lists.specs.Lists.{row_at};
ghost use Rattle.constraints.specs.Constraints as rules;
ghost use Rattle.offsets.specs.Answers.{subset_of};
ghost use Rattle.offsets.specs.Subsets as subsets;
ghost use Rattle.offsets.specs.Subsets.{members};
ghost use Rattle.offsets.specs.inner.RetainBuilder.{CanAdd};
ghost use Rattle.query_spec.specs.Queries.{matches, dead_among};
ghost use Rattle.query_scan.specs.Visits as visits;
ghost use Rattle.query_scan.specs.inner.Scanning.{RowInStore, BeginsAt, CanMove, Moves, Keeps, CanStep, ScanSteps, CanStart, Finished, ScanStarts, ScanAnswered, CanWrite, Writes, RefineClosed, next_at, PageClosed, MatchClosed};

use constraints::Constraint;
use offsets::retain::RetainBuilder;
use offsets::{Subset, SubsetForm};
use query_spec::Page;
use query_spec::refusing::{check_match, check_page, check_refine};
use refusals::Refusal;
use row_buffer::row_start;
use table::Header;

// The state of a scan. It continues at place `next`, whose id is `id`, up to `end` or until `most` ids are kept. `dead` is the
// number of visited ids whose rows are dead. All fields are plain numbers, which a loop holds in registers.
#[derive(Clone, Copy)]
pub struct Scan {
    pub next: u32,
    pub end: u32,
    pub id: u32,
    pub most: u32,
    pub dead: u32,
    pub found: RetainBuilder,
}

// ---- a row

// Whether the row is live, by its first cell.
pub fn is_live_at(h: Header, rows: &[u32], id: u32) -> bool
    requires { RowInStore h (length rows.now) id }
    ensures { result ≡ rules.is_live (row_at h.columns id rows.now) }
{
    let from = row_start(id, h.columns);
    !cells::is_stale(rows[from])
}

// Whether the cells of the row meet the condition.
pub fn is_met_at(h: Header, rows: &[u32], id: u32, c: Constraint) -> bool
    requires { RowInStore h (length rows.now) id }
    ensures { result ≡ rules.met (row_at h.columns id rows.now) c }
{
    let from = row_start(id, h.columns);
    let to = from + h.columns as usize;
    constraints::met(c, &rows[from..to])
}

// Whether the row meets the condition and is live. The condition is tested first: it fails more often, and the branch is predicted
// better.
fn is_match(h: Header, rows: &[u32], id: u32, c: Constraint) -> bool
    requires { RowInStore h (length rows.now) id }
    ensures { result ≡ matches h rows.now (c ∷ []) id }
{
    if !is_met_at(h, rows, id, c) {
        return false;
    }
    is_live_at(h, rows, id)
}

// 1 for a dead row, else 0.
fn dead_at(h: Header, rows: &[u32], id: u32) -> u32
    requires { RowInStore h (length rows.now) id }
    ensures { result ≡ dead_among h rows.now (id ∷ []) }
{
    if is_live_at(h, rows, id) {
        return 0;
    }
    1
}

// ---- places

// The state at the start of a scan. Without places it has no id.
fn at_place(subset: Subset, next: u32, end: u32, most: u32) -> Scan
    requires { end ≤ subsets.size (subset_of subset) }
    ensures { BeginsAt (subset_of subset.entry) next end most result }
{
    let mut s = Scan {
        next: next,
        end: end,
        id: 0,
        most: most,
        dead: 0,
        found: RetainBuilder::new(),
    };
    if next < end {
        s.id = subset.id_at(next);
    }
    s
}

// Keeps the id at the next place. The scan ends when the wanted number of ids is kept.
fn keep_id(s: Scan, out: &mut [u32]) -> Scan
    requires { (s.next < s.end) × CanAdd out.old s.found s.id }
    ensures { Keeps s out.old result out.new }
{
    let found = s.found.add(out, s.id);
    let mut n = s;
    n.found = found;
    if found.count == s.most {
        n.end = s.next + 1;
    }
    n
}

// Moves to the next place. In a range the id increases by one, whether or not that place exists.
fn move_on(subset: Subset, s: Scan) -> Scan
    requires { CanMove (subset_of subset) s }
    ensures { Moves (subset_of subset.entry) s result }
{
    let mut n = s;
    n.next = s.next + 1;
    match subset {
        Subset::Range(..) => {
            n.id = s.id + 1;
        }
        Subset::List(ids) => {
            if n.next < s.end {
                n.id = ids[n.next as usize];
            }
        }
    }
    n
}

// Visits the row at the next place. `hit` is whether it matches.
pub fn step(h: Header, rows: &[u32], subset: Subset, s: Scan, hit: bool, out: &mut [u32]) -> Scan
    requires { CanStep h (length rows.now) (subset_of subset) s hit out.old }
    ensures { ScanSteps h rows.now (subset_of subset.entry) s hit out.old result out.new }
{
    let mut n = s;
    n.dead = s.dead + dead_at(h, rows, s.id);
    if !hit {
        return move_on(subset, n);
    }
    let kept = keep_id(n, out);
    move_on(subset, kept)
}

// Scans all places by one condition.
fn retain(h: Header, rows: &[u32], subset: Subset, c: Constraint, s: Scan, out: &mut [u32]) -> Scan
    requires { CanStart h (length rows.now) (subset_of subset) s out.old }
    ensures { Finished h rows.now (subset_of subset.entry) (matches h rows.now (c ∷ [])) s out.old result out.new }
{
    let mut at = s;
    while at.next < at.end {
        let hit = is_match(h, rows, at.id, c);
        at = step(h, rows, subset, at, hit, out);
    }
    at
}

// ---- the start

// Starts a refine: refused, or over all places.
pub fn open_refine(
    h: Header,
    rows: usize,
    subset: Subset,
    known: bool,
    output: usize,
) -> Result<Scan, Refusal>
    ensures { ScanStarts visits.Refine h rows (subset_of subset.entry) known output result }
{
    check_refine(h, rows, subset, known, output)?;
    let size = subset.size() as u32;
    Ok(at_place(subset, 0, size, size))
}

// Starts a search for a match: refused, or over all places up to the first match.
pub fn open_match(h: Header, rows: usize, subset: Subset, known: bool) -> Result<Scan, Refusal>
    ensures { (output : ℕ) → ScanStarts visits.Match h rows (subset_of subset.entry) known output result }
{
    check_match(h, rows, subset, known)?;
    let size = subset.size() as u32;
    Ok(at_place(subset, 0, size, 1))
}

// Starts a page: refused, or over n places from the start place on, as far as they exist.
pub fn open_page(
    h: Header,
    rows: usize,
    subset: Subset,
    start: u32,
    n: usize,
    known: bool,
    output: usize,
) -> Result<Scan, Refusal>
    ensures { ScanStarts (visits.Page start n) h rows (subset_of subset.entry) known output result }
{
    check_page(h, rows, subset, start, n, known, output)?;
    let left = subset.size() - start as usize;
    let places = n.min(left) as u32;
    Ok(at_place(subset, start, start + places, places))
}

// Refine by one: refused, or all places scanned by the condition.
pub fn scan_one(
    h: Header,
    rows: &[u32],
    subset: Subset,
    c: Constraint,
    out: &mut [u32],
) -> Result<Scan, Refusal>
    ensures { ScanAnswered visits.Refine h rows.now (subset_of subset.entry) (c ∷ []) out.old result out.new }
{
    let known = constraints::known(c, h.columns);
    let begun = open_refine(h, rows.len(), subset, known, out.len())?;
    Ok(retain(h, rows, subset, c, begun, out))
}

// ---- the end

// Writes the ids kept to the start of the output, unless they are there already. Returns their number.
pub fn write_found(g: RetainBuilder, out: &mut [u32]) -> u32
    requires { CanWrite out.old g }
    ensures { Writes out.old g result out.new }
{
    if g.written == 0 {
        offsets::retain::fill_from_dense(out, g.start, g.count);
    }
    g.count
}

// Ends a refine by a list: the unchanged range, or a list.
pub fn close_refine(subset: Subset, s: Scan, out: &mut [u32]) -> SubsetForm
    requires { CanWrite out.old s.found }
    ensures { RefineClosed (subset_of subset.entry) s out.old result out.new }
{
    match subset {
        Subset::Range(start, end) => {
            if s.found.count == end.saturating_sub(start) {
                return SubsetForm::Range(start, end);
            }
            SubsetForm::List(write_found(s.found, out))
        }
        Subset::List(_) => SubsetForm::List(write_found(s.found, out)),
    }
}

// The place to continue from.
fn next_place(subset: Subset, next: u32) -> Option<u32>
    ensures { result ≡ next_at (subset_of subset.entry) next }
{
    if (next as usize) < subset.size() {
        return Some(next);
    }
    None
}

// Ends a page: writes its ids.
pub fn close_page(subset: Subset, s: Scan, out: &mut [u32]) -> Page
    requires { CanWrite out.old s.found }
    ensures { PageClosed (subset_of subset.entry) s out.old result out.new }
{
    let next = next_place(subset, s.next);
    let written = write_found(s.found, out);
    Page {
        written: written,
        dead: s.dead,
        next: next,
    }
}

// Ends a search for a match: whether there is one.
pub fn close_match(s: Scan) -> bool
    ensures { MatchClosed s result }
{
    s.found.count != 0
}
