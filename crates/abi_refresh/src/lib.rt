// The refresh of the rows that contain a given value, for C (`abi_refresh_c`).
#![tactic(auto)]

ghost use Rattle.refusals.specs.Refusals.{answer_view};
ghost use Rattle.refresh_spec.specs.Refreshes.{Refreshing};
ghost use Rattle.abi.specs.Encoding.{decode_header, encode_bool, AnswersWithHeader};

use abi::{decode_header, encode_bool, encode_header, store};
use refresh::refresh_rows_for_values;

// The answer is one word: 1 if a row was staged.
pub fn mouldgrey_refresh_rows_for_values(
    header: &mut [u32; 12],
    rows: &[u32],
    pending: &mut [u32],
    index: &mut [u32],
    columns: &[u32],
    values: &[u32],
    stamp: u32,
    staged: &mut [u32; 1],
) -> u32
    ensures { AnswersWithHeader (λ answer. Refreshing (decode_header header.old) rows.now pending.old index.old (record { columns = columns.now; values = values.now; stamp = stamp }) answer pending.new index.new) answer_view (λ a. a.header) (λ a. encode_bool a.staged) header.old staged.old result header.new staged.new }
{
    let h = decode_header(header);
    let answer = refresh_rows_for_values(h, rows, pending, index, columns, values, stamp);
    store(answer.map(|a| a.header), header, encode_header);
    store(answer.map(|a| a.staged), staged, encode_bool)
}
