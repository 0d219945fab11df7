// The queries over a subset, for C (`abi_query_c`): refine by one and by a list, any match, page. A subset is three words, dense,
// start and end, with the list of ids passed separately; they make the struct that `query_borrowed` takes. A condition of a list is
// a struct of three words, so a list of them is lent without a conversion. Each function decodes, queries and stores.
#![tactic(auto)]

ghost use Rattle.refusals.specs.Refusals.{answer_view};
ghost use Rattle.query_spec.specs.Queries.{page_view, Matched, PageRead, RefinedOne, RefinedList};
ghost use Rattle.abi.specs.Encoding.{decode_header, subset_in, decode_subset, encode_bool, subset_head_view, encode_subset, encode_page, Answers};
ghost use Rattle.constraints.specs.Encoding.{condition_in};

use abi::{decode_condition, decode_header, decode_subset, store_match, store_page, store_subset};
use constraints::Constraint;

// The condition is three words: kind, column, value. The answer is a subset.
pub fn mouldgrey_refine_one(
    header: &[u32; 12],
    rows: &[u32],
    subset: &[u32; 3],
    ids: &[u32],
    condition: &[u32; 3],
    output: &mut [u32],
    answer: &mut [u32; 3],
) -> u32
    ensures { Answers (λ a. RefinedOne (decode_header header.now) rows.now (subset_in (decode_subset subset.now) ids.now) (condition_in condition.now 0) output.old a output.new) subset_head_view encode_subset answer.old result answer.new }
{
    let h = decode_header(header);
    let c = decode_condition(condition);
    let lent = decode_subset(subset, ids);
    let refined = query_borrowed::refine_one(h, rows, lent, c, output);
    store_subset(refined, answer)
}

// The answer is a subset.
pub fn mouldgrey_refine_ref(
    header: &[u32; 12],
    rows: &[u32],
    subset: &[u32; 3],
    ids: &[u32],
    conditions: &[Constraint],
    output: &mut [u32],
    answer: &mut [u32; 3],
) -> u32
    ensures { Answers (λ a. RefinedList (decode_header header.now) rows.now (subset_in (decode_subset subset.now) ids.now) conditions.now output.old a output.new) subset_head_view encode_subset answer.old result answer.new }
{
    let h = decode_header(header);
    let lent = decode_subset(subset, ids);
    let refined = query_borrowed::refine_ref(h, rows, lent, conditions, output);
    store_subset(refined, answer)
}

// The answer is one word: 1 for a match.
pub fn mouldgrey_contains_match(
    header: &[u32; 12],
    rows: &[u32],
    subset: &[u32; 3],
    ids: &[u32],
    conditions: &[Constraint],
    matched: &mut [u32; 1],
) -> u32
    ensures { Answers (Matched (decode_header header.now) rows.now (subset_in (decode_subset subset.now) ids.now) conditions.now) answer_view encode_bool matched.old result matched.new }
{
    let h = decode_header(header);
    let lent = decode_subset(subset, ids);
    let found = query_borrowed::contains_match(h, rows, lent, conditions);
    store_match(found, matched)
}

// The answer is four words: written, dead, has_next, next.
pub fn mouldgrey_read_page(
    header: &[u32; 12],
    rows: &[u32],
    subset: &[u32; 3],
    ids: &[u32],
    place: u32,
    n: usize,
    conditions: &[Constraint],
    output: &mut [u32],
    page: &mut [u32; 4],
) -> u32
    ensures { Answers (λ a. PageRead (decode_header header.now) rows.now (subset_in (decode_subset subset.now) ids.now) place n conditions.now output.old a output.new) page_view encode_page page.old result page.new }
{
    let h = decode_header(header);
    let lent = decode_subset(subset, ids);
    let visited = query_borrowed::read_page(h, rows, lent, place, n, conditions, output);
    store_page(visited, page)
}
