// The precedence check, exported to C in a static library of its own: it looks keys up, and the compiler inlines `look_up` only
// where an object calls it once.
#![tactic(auto)]

ghost use Rattle.refusals.specs.Refusals.{found_view};
ghost use Rattle.precedence.specs.Precedence.{PrecedenceChecked};
ghost use Rattle.abi.specs.Encoding.{decode_header, Answers};
ghost use Rattle.abi_precedence.specs.Encoding.{encode_failure};

// The answer is three words: found, row, pair.
#[unsafe(no_mangle)]
pub extern "C" fn mouldgrey_check_precedence(
    header: &[u32; 12],
    rows: &[u32],
    keys: &[u32],
    column: u32,
    pairs: &[u32],
    failure: &mut [u32; 3],
) -> u32
    ensures { Answers (λ answer. PrecedenceChecked (decode_header header.now) rows.now keys.now column pairs.now answer) found_view encode_failure failure.old result failure.new }
{
    abi_precedence::mouldgrey_check_precedence(header, rows, keys, column, pairs, failure)
}
