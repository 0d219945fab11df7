// `intersect` of offsets/mod.rs, with the Rust's forms and thresholds. Lists of similar length are merged in step. Otherwise the
// longer list is searched for the ids of the shorter one.
#![tactic(auto)]

ghost use Rattle.std.specs.Prelude.{◌≡◌, true, ℕ, ◌≤◌, List, length, Ok};
ghost use Rattle.lists.specs.Lists.{filter, within};
ghost use Rattle.refusals.specs.Refusals.{accepted, refusal_number};
ghost use Rattle.offsets.specs.Subsets.{range, list, list_or_nothing};
ghost use Rattle.offsets.specs.Answers.{subset_of, Answered, room_needed, intersect_refusal, intersect_reply};
ghost use Rattle.offsets.specs.inner.Writing.{Wrote};
ghost use Rattle.offsets_intersect.specs.inner.Common.{Fitting, Searchable, common, similar, MuchLonger};

use offsets::search::{binary_search_by_id, binary_search_from, scan_for_offset};
use offsets::{Subset, SubsetForm};
use refusals::Refusal;

mod blocks; // blocks.rt: lists of similar length

// Writes the ids of a list that are in a range: the part between two positions.
fn keep_within(ids: &[u32], start: u32, end: u32, output: &mut [u32]) -> usize
    requires { Fitting ids.now output.old × (start ≤ end) }
    ensures { Wrote output.old (filter (within start end) ids.now) result output.new }
{
    let low = binary_search_by_id(ids, start);
    let high = binary_search_from(ids, low, end);
    let from = low as usize;
    let upto = high as usize;
    row_buffer::write_row(output, 0, &ids[from..upto]);
    upto - from
}

// Writes the ids that another, longer list has too. Searches that list by strides, each search from the end of the one before.
fn gallop_along(ids: &[u32], others: &[u32], output: &mut [u32]) -> usize
    requires { Fitting ids.now output.old × Searchable others.now × MuchLonger (length ids.now) (length others.now) }
    ensures { Wrote output.old (common ids.now others.now) result output.new }
{
    let count = ids.len() as u32;
    let end = others.len() as u32;
    let mut o = 0;
    let mut n: u32 = 0;
    for i in 0..count {
        if end <= o {
            return n as usize;
        }
        let id = ids[i as usize];
        match scan_for_offset(others, o, id) {
            Ok(p) => {
                output[n as usize] = id;
                n += 1;
                o = p + 1;
            }
            Err(p) => {
                o = p;
            }
        }
    }
    n as usize
}

// Two lists are of similar length if neither has more ids than this, or neither is more than `RATIO` times as long as the other.
const FEW_IDS: usize = 16;

const RATIO: usize = 4;

// Whether two lists are of similar length.
fn are_similar(a: usize, b: usize) -> bool
    requires { a ≤ 65536 }
    ensures { result ≡ similar a b }
{
    (a <= FEW_IDS && b <= FEW_IDS) || (a / RATIO <= b && b <= a * RATIO)
}

// Writes the ids that both lists have: by a linear merge, or by searching the longer list for the ids of the shorter one.
fn keep_common(ids: &[u32], others: &[u32], output: &mut [u32]) -> usize
    requires { Fitting ids.now output.old × Searchable others.now }
    ensures { Wrote output.old (common ids.now others.now) result output.new }
{
    if are_similar(ids.len(), others.len()) {
        return blocks::merge_similar(ids, others, output);
    }
    if others.len() < ids.len() {
        return gallop_along(others, ids, output);
    }
    gallop_along(ids, others, output)
}

// Two ranges give a range. If they do not meet, it starts and ends at the larger start.
pub fn intersect_ranges(a: u32, b: u32, c: u32, d: u32) -> Result<SubsetForm, Refusal>
    ensures { (output : List ℕ) → Answered (intersect_reply (range a b) (range c d) (length output)) output result output }
{
    if b < a {
        return Err(Refusal::MalformedSubset);
    }
    if d < c {
        return Err(Refusal::MalformedSubset);
    }
    let start = a.max(c);
    let end = b.min(d);
    Ok(SubsetForm::Range(start, start.max(end)))
}

// A range with a list gives a list, or 0..0 if they have no id in common.
fn intersect_range_list(start: u32, end: u32, ids: &[u32], output: &mut [u32]) -> SubsetForm
    requires { Fitting ids.now output.old × (start ≤ end) }
    ensures { Answered (accepted (list_or_nothing (filter (within start end) ids.now))) output.old (Ok result) output.new }
{
    let n = keep_within(ids, start, end, output);
    if n == 0 {
        return SubsetForm::Range(0, 0);
    }
    SubsetForm::List(n as u32)
}

// A list with a range gives a list, even an empty one.
fn intersect_list_range(ids: &[u32], start: u32, end: u32, output: &mut [u32]) -> SubsetForm
    requires { Fitting ids.now output.old × (start ≤ end) }
    ensures { Answered (accepted (list (filter (within start end) ids.now))) output.old (Ok result) output.new }
{
    let n = keep_within(ids, start, end, output);
    SubsetForm::List(n as u32)
}

// Two lists give a list.
fn intersect_lists(ids: &[u32], others: &[u32], output: &mut [u32]) -> SubsetForm
    requires { Fitting ids.now output.old × Searchable others.now }
    ensures { Answered (accepted (list (common ids.now others.now))) output.old (Ok result) output.new }
{
    let n = keep_common(ids, others, output);
    SubsetForm::List(n as u32)
}

// The output length that an intersection needs.
fn room_needed(first: Subset, second: Subset) -> usize
    ensures { result ≡ room_needed (subset_of first.entry) (subset_of second.entry) }
{
    match first {
        Subset::Range(..) => match second {
            Subset::Range(..) => 0,
            Subset::List(ids) => ids.len(),
        },
        Subset::List(ids) => ids.len(),
    }
}

// Whether an intersection is refused.
fn check_intersect(first: Subset, second: Subset, output: usize) -> Result<(), Refusal>
    ensures { refusal_number result ≡ intersect_refusal (subset_of first.entry) (subset_of second.entry) output }
{
    if !first.is_well_formed() {
        return Err(Refusal::MalformedSubset);
    }
    if !second.is_well_formed() {
        return Err(Refusal::MalformedSubset);
    }
    let room = room_needed(first, second);
    if output < room {
        return Err(Refusal::TooShort);
    }
    Ok(())
}

// The ids that two subsets have in common, with the Rust's forms. Writes a list to the start of the output. Two ranges need no check
// of a list, which is too long to be inlined and passes its arguments in memory.
pub fn intersect(first: Subset, second: Subset, output: &mut [u32]) -> Result<SubsetForm, Refusal>
    ensures { Answered (intersect_reply (subset_of first.entry) (subset_of second.entry) (length output.old)) output.old result output.new }
{
    match first {
        Subset::Range(start, end) => match second {
            Subset::Range(other_start, other_end) => {
                intersect_ranges(start, end, other_start, other_end)
            }
            Subset::List(others) => {
                check_intersect(first, second, output.len())?;
                Ok(intersect_range_list(start, end, others, output))
            }
        },
        Subset::List(ids) => {
            check_intersect(first, second, output.len())?;
            match second {
                Subset::Range(start, end) => Ok(intersect_list_range(ids, start, end, output)),
                Subset::List(others) => Ok(intersect_lists(ids, others, output)),
            }
        }
    }
}
