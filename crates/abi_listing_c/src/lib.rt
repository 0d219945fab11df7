// The functions of `abi_listing`, exported to C. A slice is passed as a pointer and a length, a fixed array as a pointer alone.
#![tactic(auto)]

ghost use Rattle.std.specs.Prelude.{true, false, not, eqb};
ghost use Rattle.refusals.specs.Refusals.{answer_view};
ghost use Rattle.listing_spec.specs.Listings.{listing_view, numbered_view, ListingRead, ListingConverted};
ghost use Rattle.listing_check.specs.Answers.{check_view, AnswersChecked};
ghost use Rattle.listing_write.specs.Writing.{ListingWritten};
ghost use Rattle.abi.specs.Encoding.{decode_header, encode_number, Answers};
ghost use Rattle.abi_listing.specs.Encoding.{encode_finding};

use constraints::Constraint;

// Writes a listing of a table, in the new form if numbered is not 0. The answer is how many bytes were written.
#[unsafe(no_mangle)]
pub extern "C" fn mouldgrey_write_listing(
    header: &[u32; 12],
    rows: &[u32],
    numbered: u32,
    output: &mut [u8],
    length: &mut [u64; 1],
) -> u32
    ensures { Answers (λ answer. ListingWritten (not (eqb numbered 0)) (decode_header header.now) rows.now output.old answer output.new) answer_view encode_number length.old result length.new }
{
    abi_listing::mouldgrey_write_listing(header, rows, numbered, output, length)
}

// Reads a listing in the old form. The answer is six words: columns, keys, sort, rule, generation, listed.
#[unsafe(no_mangle)]
pub extern "C" fn mouldgrey_read_listing(
    text: &[u8],
    output: &mut [u32],
    head: &mut [u32; 6],
) -> u32
    ensures { Answers (λ answer. ListingRead false text.now output.old (listing_view answer) output.new) listing_view (λ numbers. numbers) head.old result head.new }
{
    abi_listing::mouldgrey_read_listing(text, output, head)
}

// Reads a listing in the new form. The answer is seven words: columns, keys, sort, rule, generation, count, listed.
#[unsafe(no_mangle)]
pub extern "C" fn mouldgrey_read_numbered(
    text: &[u8],
    output: &mut [u32],
    head: &mut [u32; 7],
) -> u32
    ensures { Answers (λ answer. ListingRead true text.now output.old (numbered_view answer) output.new) numbered_view (λ numbers. numbers) head.old result head.new }
{
    abi_listing::mouldgrey_read_numbered(text, output, head)
}

// From the old form to the new. The answer is how many bytes were written.
#[unsafe(no_mangle)]
pub extern "C" fn mouldgrey_to_numbered(
    text: &[u8],
    output: &mut [u8],
    length: &mut [u64; 1],
) -> u32
    ensures { Answers (λ answer. ListingConverted false text.now output.old answer output.new) answer_view encode_number length.old result length.new }
{
    abi_listing::mouldgrey_to_numbered(text, output, length)
}

// From the new form to the old. The answer is how many bytes were written.
#[unsafe(no_mangle)]
pub extern "C" fn mouldgrey_from_numbered(
    text: &[u8],
    output: &mut [u8],
    length: &mut [u64; 1],
) -> u32
    ensures { Answers (λ answer. ListingConverted true text.now output.old answer output.new) answer_view encode_number length.old result length.new }
{
    abi_listing::mouldgrey_from_numbered(text, output, length)
}

// Checks a laboratory's answers. The answer is two words: the kind of the verdict, 0 right, 1 misplaced, 2 wrong, and the place or
// the number, 0 if the numbers are right. A condition is a struct of three words, so a list of them is lent without a conversion.
#[unsafe(no_mangle)]
pub extern "C" fn mouldgrey_check_answers(
    text: &[u8],
    conditions: &[Constraint],
    given: &[u32],
    verdict: &mut [u64; 2],
) -> u32
    ensures { Answers (λ answer. AnswersChecked text.now conditions.now given.now answer) check_view encode_finding verdict.old result verdict.new }
{
    abi_listing::mouldgrey_check_answers(text, conditions, given, verdict)
}
