// The functions of `abi_query`, exported to C. A slice is passed as a pointer and a length, a fixed array as a pointer alone.
#![tactic(auto)]

ghost use Rattle.refusals.specs.Refusals.{answer_view};
ghost use Rattle.query_spec.specs.Queries.{page_view, Matched, PageRead, RefinedOne, RefinedList};
ghost use Rattle.abi.specs.Encoding.{decode_header, subset_in, decode_subset, encode_bool, subset_head_view, encode_subset, encode_page, Answers};
ghost use Rattle.constraints.specs.Encoding.{condition_in};

use constraints::Constraint;

// The condition is three words: kind, column, value. The answer is a subset.
#[unsafe(no_mangle)]
pub extern "C" fn mouldgrey_refine_one(
    header: &[u32; 12],
    rows: &[u32],
    subset: &[u32; 3],
    ids: &[u32],
    condition: &[u32; 3],
    output: &mut [u32],
    answer: &mut [u32; 3],
) -> u32
    ensures { Answers (λ a. RefinedOne (decode_header header.now) rows.now (subset_in (decode_subset subset.now) ids.now) (condition_in condition.now 0) output.old a output.new) subset_head_view encode_subset answer.old result answer.new }
{
    abi_query::mouldgrey_refine_one(header, rows, subset, ids, condition, output, answer)
}

// The answer is a subset.
#[unsafe(no_mangle)]
pub extern "C" fn mouldgrey_refine_ref(
    header: &[u32; 12],
    rows: &[u32],
    subset: &[u32; 3],
    ids: &[u32],
    conditions: &[Constraint],
    output: &mut [u32],
    answer: &mut [u32; 3],
) -> u32
    ensures { Answers (λ a. RefinedList (decode_header header.now) rows.now (subset_in (decode_subset subset.now) ids.now) conditions.now output.old a output.new) subset_head_view encode_subset answer.old result answer.new }
{
    abi_query::mouldgrey_refine_ref(header, rows, subset, ids, conditions, output, answer)
}

// The answer is one word: 1 for a match.
#[unsafe(no_mangle)]
pub extern "C" fn mouldgrey_contains_match(
    header: &[u32; 12],
    rows: &[u32],
    subset: &[u32; 3],
    ids: &[u32],
    conditions: &[Constraint],
    matched: &mut [u32; 1],
) -> u32
    ensures { Answers (Matched (decode_header header.now) rows.now (subset_in (decode_subset subset.now) ids.now) conditions.now) answer_view encode_bool matched.old result matched.new }
{
    abi_query::mouldgrey_contains_match(header, rows, subset, ids, conditions, matched)
}

// The answer is four words: written, dead, has_next, next.
#[unsafe(no_mangle)]
pub extern "C" fn mouldgrey_read_page(
    header: &[u32; 12],
    rows: &[u32],
    subset: &[u32; 3],
    ids: &[u32],
    place: u32,
    n: usize,
    conditions: &[Constraint],
    output: &mut [u32],
    page: &mut [u32; 4],
) -> u32
    ensures { Answers (λ a. PageRead (decode_header header.now) rows.now (subset_in (decode_subset subset.now) ids.now) place n conditions.now output.old a output.new) page_view encode_page page.old result page.new }
{
    abi_query::mouldgrey_read_page(
        header, rows, subset, ids, place, n, conditions, output, page,
    )
}
