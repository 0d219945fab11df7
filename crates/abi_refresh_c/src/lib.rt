// The function of `abi_refresh`, exported to C. A slice is passed as a pointer and a length, a fixed array as a pointer alone.
#![tactic(auto)]

ghost use Rattle.refusals.specs.Refusals.{answer_view};
ghost use Rattle.refresh_spec.specs.Refreshes.{Refreshing};
ghost use Rattle.abi.specs.Encoding.{decode_header, encode_bool, AnswersWithHeader};

// The answer is one word: 1 if a row was staged.
#[unsafe(no_mangle)]
pub extern "C" fn mouldgrey_refresh_rows_for_values(
    header: &mut [u32; 12],
    rows: &[u32],
    pending: &mut [u32],
    index: &mut [u32],
    columns: &[u32],
    values: &[u32],
    stamp: u32,
    staged: &mut [u32; 1],
) -> u32
    ensures { AnswersWithHeader (λ answer. Refreshing (decode_header header.old) rows.now pending.old index.old (record { columns = columns.now; values = values.now; stamp = stamp }) answer pending.new index.new) answer_view (λ a. a.header) (λ a. encode_bool a.staged) header.old staged.old result header.new staged.new }
{
    abi_refresh::mouldgrey_refresh_rows_for_values(
        header, rows, pending, index, columns, values, stamp, staged,
    )
}
