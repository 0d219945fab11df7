// The precedence check, for C (`abi_precedence_c`).
#![tactic(auto)]

ghost use Rattle.std.specs.Prelude.{◌≡◌};
ghost use Rattle.refusals.specs.Refusals.{found_view};
ghost use Rattle.precedence.specs.Precedence.{PrecedenceChecked};
ghost use Rattle.abi.specs.Encoding.{decode_header, Answers};
ghost use Rattle.abi_precedence.specs.Encoding.{failure_of, encode_failure};

use abi::{decode_header, store};
use precedence::Failure;

fn encode_failure(failure: Option<Failure>) -> [u32; 3]
    ensures { result ≡ encode_failure (failure_of failure) }
{
    match failure {
        None => [0, 0, 0],
        Some(fails) => [1, fails.row, fails.place],
    }
}

// The answer is three words: found, row, pair.
pub fn mouldgrey_check_precedence(
    header: &[u32; 12],
    rows: &[u32],
    keys: &[u32],
    column: u32,
    pairs: &[u32],
    failure: &mut [u32; 3],
) -> u32
    ensures { Answers (λ answer. PrecedenceChecked (decode_header header.now) rows.now keys.now column pairs.now answer) found_view encode_failure failure.old result failure.new }
{
    let answer = precedence::check_precedence(decode_header(header), rows, keys, column, pairs);
    store(answer, failure, encode_failure)
}
