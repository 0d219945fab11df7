// Key lookup, for C (`abi_row_c`).
#![tactic(auto)]

ghost use Rattle.refusals.specs.Refusals.{found_view};
ghost use Rattle.table.specs.Outcomes.{LookedUp};
ghost use Rattle.abi.specs.Encoding.{decode_header, encode_option, Answers};

use abi::{decode_header, encode_option, store};

// The answer is two words: found, row.
pub fn mouldgrey_get_row(
    header: &[u32; 12],
    rows: &[u32],
    keys: &[u32],
    key: &[u32],
    row: &mut [u32; 2],
) -> u32
    ensures { Answers (λ answer. LookedUp (decode_header header.now) rows.now keys.now key.now answer) found_view encode_option row.old result row.new }
{
    let answer = table_read::get_row(decode_header(header), rows, keys, key);
    store(answer, row, encode_option)
}
