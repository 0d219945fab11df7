// The reads of a table, for C (`abi_read_c`): one cell, fast range, versions; and the intersection of two subsets.
#![tactic(auto)]

ghost use Rattle.std.specs.Prelude.{ℕ, List, length, get_or};
ghost use Rattle.constraints.specs.Encoding.{condition_in};
ghost use Rattle.offsets.specs.Subsets.{range};
ghost use Rattle.offsets.specs.Answers.{intersect_reply, Answered};
ghost use Rattle.refusals.specs.Refusals.{found_view, answer_view};
ghost use Rattle.table.specs.Numbers.{range_view};
ghost use Rattle.table.specs.Outcomes.{CellRead, RangeRead, RowsSince, RowsSinceVersion, VersionRead};
ghost use Rattle.abi.specs.Encoding.{decode_header, subset_in, decode_subset, encode_option, encode_range, encode_version, subset_head_view, encode_subset, Answers};

use abi::{
    decode_condition, decode_header, decode_subset, encode_option, encode_range, encode_version,
    store, store_subset,
};
use offsets::Subset;

// The answer is two words: found, cell.
pub fn mouldgrey_get_row_column(
    header: &[u32; 12],
    rows: &[u32],
    keys: &[u32],
    key: &[u32],
    column: u32,
    cell: &mut [u32; 2],
) -> u32
    ensures { Answers (λ answer. CellRead (decode_header header.now) rows.now keys.now key.now column answer) found_view encode_option cell.old result cell.new }
{
    let answer = table_read::get_row_column(decode_header(header), rows, keys, key, column);
    store(answer, cell, encode_option)
}

// The condition is three words: kind, column, value. The answer is three words: found, start, end.
pub fn mouldgrey_fast_subset(
    header: &[u32; 12],
    sorts: &[u32],
    condition: &[u32; 3],
    range: &mut [u32; 3],
) -> u32
    ensures { Answers (λ answer. RangeRead (decode_header header.now) sorts.now (condition_in condition.now 0) answer) range_view encode_range range.old result range.new }
{
    let h = decode_header(header);
    let answer = table_read::fast_subset(h, sorts, decode_condition(condition));
    store(answer, range, encode_range)
}

// The answer is three words: found, start, end.
pub fn mouldgrey_updates_since(header: &[u32; 12], row: u32, range: &mut [u32; 3]) -> u32
    ensures { Answers (λ answer. RowsSince (decode_header header.now) row answer) range_view encode_range range.old result range.new }
{
    let answer = table_read::updates_since(decode_header(header), row);
    store(answer, range, encode_range)
}

// The version is two words: generation, rows. The answer is three words: found, start, end.
pub fn mouldgrey_rows_since_version(
    header: &[u32; 12],
    version: &[u32; 2],
    range: &mut [u32; 3],
) -> u32
    ensures { Answers (λ answer. RowsSinceVersion (decode_header header.now) (get_or version.now 0 0) (get_or version.now 1 0) answer) range_view encode_range range.old result range.new }
{
    let answer = table_read::rows_since_version(decode_header(header), version[0], version[1]);
    store(answer, range, encode_range)
}

// The answer is two words: generation, rows.
pub fn mouldgrey_table_version(header: &[u32; 12], version: &mut [u32; 2]) -> u32
    ensures { Answers (λ answer. VersionRead (decode_header header.now) answer) answer_view encode_version version.old result version.new }
{
    let answer = table_read::version(decode_header(header));
    store(answer, version, encode_version)
}

// The common ids of two subsets. A subset is three words, as an argument and as an answer: dense, start, end.
pub fn mouldgrey_intersect(
    first: &[u32; 3],
    first_ids: &[u32],
    second: &[u32; 3],
    second_ids: &[u32],
    output: &mut [u32],
    subset: &mut [u32; 3],
) -> u32
    ensures { Answers (λ answer. Answered (intersect_reply (subset_in (decode_subset first.now) first_ids.now) (subset_in (decode_subset second.now) second_ids.now) (length output.old)) output.old answer output.new) subset_head_view encode_subset subset.old result subset.new }
{
    let a = decode_subset(first, first_ids);
    let b = decode_subset(second, second_ids);
    let answer = offsets_intersect::intersect(Subset::from(a), Subset::from(b), output);
    store_subset(answer, subset)
}

// The common ids of two ranges, as `mouldgrey_intersect` returns them for any output. The arguments fit in registers.
pub fn mouldgrey_intersect_ranges(
    start: u32,
    end: u32,
    other_start: u32,
    other_end: u32,
    subset: &mut [u32; 3],
) -> u32
    ensures { (output : List ℕ) → Answers (λ answer. Answered (intersect_reply (range start end) (range other_start other_end) (length output)) output answer output) subset_head_view encode_subset subset.old result subset.new }
{
    let answer = offsets_intersect::intersect_ranges(start, end, other_start, other_end);
    store_subset(answer, subset)
}
