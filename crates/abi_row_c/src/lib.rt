// Key lookup, exported to C in a static library of its own: `look_up` is long, and the compiler inlines it only where an object
// calls it once.
#![tactic(auto)]

ghost use Rattle.refusals.specs.Refusals.{found_view};
ghost use Rattle.table.specs.Outcomes.{LookedUp};
ghost use Rattle.abi.specs.Encoding.{decode_header, encode_option, Answers};

// The answer is two words: found, row.
#[unsafe(no_mangle)]
pub extern "C" fn mouldgrey_get_row(
    header: &[u32; 12],
    rows: &[u32],
    keys: &[u32],
    key: &[u32],
    row: &mut [u32; 2],
) -> u32
    ensures { Answers (λ answer. LookedUp (decode_header header.now) rows.now keys.now key.now answer) found_view encode_option row.old result row.new }
{
    abi_row::mouldgrey_get_row(header, rows, keys, key, row)
}
