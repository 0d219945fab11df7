// Listings as text, and the check of a laboratory's answers against them, for C (`abi_listing_c`).
#![tactic(auto)]

ghost use Rattle.std.specs.Prelude.{◌≡◌, true, false, not, eqb};
ghost use Rattle.refusals.specs.Refusals.{answer_view};
ghost use Rattle.listing_spec.specs.Listings.{listing_view, numbered_view, ListingRead, ListingConverted};
ghost use Rattle.listing_check.specs.Answers.{check_view, AnswersChecked};
ghost use Rattle.listing_write.specs.Writing.{ListingWritten};
ghost use Rattle.abi.specs.Encoding.{decode_header, encode_number, Stored, Answers};
ghost use Rattle.abi_listing.specs.Encoding.{encode_finding};

use abi::decode_header;
use constraints::Constraint;
use listing_check::{Mistake, check_answers};
use listing_spec::{ListingHead, NumberedHead};
use listing_write::write_listing;
use refusals::{ACCEPTED, Refusal};

// Kinds of verdicts.
const RIGHT: u64 = 0;

const MISPLACED: u64 = 1;

const WRONG: u64 = 2;

fn store_listing(answer: Result<ListingHead, Refusal>, head: &mut [u32; 6]) -> u32
    ensures { Stored listing_view (λ numbers. numbers) answer head.old result head.new }
{
    match answer {
        Err(refusal) => refusal.into(),
        Ok(h) => {
            *head = [h.columns, h.keys, h.sort, h.rule, h.generation, h.listed];
            ACCEPTED
        }
    }
}

fn store_numbered(answer: Result<NumberedHead, Refusal>, head: &mut [u32; 7]) -> u32
    ensures { Stored numbered_view (λ numbers. numbers) answer head.old result head.new }
{
    match answer {
        Err(refusal) => refusal.into(),
        Ok(h) => {
            *head = [
                h.columns,
                h.keys,
                h.sort,
                h.rule,
                h.generation,
                h.count,
                h.listed,
            ];
            ACCEPTED
        }
    }
}

fn store_length(answer: Result<usize, Refusal>, length: &mut [u64; 1]) -> u32
    ensures { Stored answer_view encode_number answer length.old result length.new }
{
    match answer {
        Err(refusal) => refusal.into(),
        Ok(bytes) => {
            *length = [bytes as u64];
            ACCEPTED
        }
    }
}

fn store_check(answer: Result<Option<Mistake>, Refusal>, verdict: &mut [u64; 2]) -> u32
    ensures { Stored check_view encode_finding answer verdict.old result verdict.new }
{
    match answer {
        Err(refusal) => refusal.into(),
        Ok(found) => match found {
            None => {
                *verdict = [RIGHT, 0];
                ACCEPTED
            }
            Some(mistake) => match mistake {
                Mistake::Misplaced(place) => {
                    *verdict = [MISPLACED, place as u64];
                    ACCEPTED
                }
                Mistake::Wrong(number) => {
                    *verdict = [WRONG, u64::from(number)];
                    ACCEPTED
                }
            },
        },
    }
}

// Writes a listing of a table, in the new form if numbered is not 0. The answer is how many bytes were written.
pub fn mouldgrey_write_listing(
    header: &[u32; 12],
    rows: &[u32],
    numbered: u32,
    output: &mut [u8],
    length: &mut [u64; 1],
) -> u32
    ensures { Answers (λ answer. ListingWritten (not (eqb numbered 0)) (decode_header header.now) rows.now output.old answer output.new) answer_view encode_number length.old result length.new }
{
    let h = decode_header(header);
    let answer = write_listing(h, rows, numbered != 0, output);
    store_length(answer, length)
}

// Reads a listing in the old form. The answer is six words: columns, keys, sort, rule, generation, listed.
pub fn mouldgrey_read_listing(text: &[u8], output: &mut [u32], head: &mut [u32; 6]) -> u32
    ensures { Answers (λ answer. ListingRead false text.now output.old (listing_view answer) output.new) listing_view (λ numbers. numbers) head.old result head.new }
{
    let answer = listing_read::read_listing(text, output);
    store_listing(answer, head)
}

// Reads a listing in the new form. The answer is seven words: columns, keys, sort, rule, generation, count, listed.
pub fn mouldgrey_read_numbered(text: &[u8], output: &mut [u32], head: &mut [u32; 7]) -> u32
    ensures { Answers (λ answer. ListingRead true text.now output.old (numbered_view answer) output.new) numbered_view (λ numbers. numbers) head.old result head.new }
{
    let answer = listing_read::read_numbered(text, output);
    store_numbered(answer, head)
}

// From the old form to the new. The answer is how many bytes were written.
pub fn mouldgrey_to_numbered(text: &[u8], output: &mut [u8], length: &mut [u64; 1]) -> u32
    ensures { Answers (λ answer. ListingConverted false text.now output.old answer output.new) answer_view encode_number length.old result length.new }
{
    let answer = listing_read::to_numbered(text, output);
    store_length(answer, length)
}

// From the new form to the old. The answer is how many bytes were written.
pub fn mouldgrey_from_numbered(text: &[u8], output: &mut [u8], length: &mut [u64; 1]) -> u32
    ensures { Answers (λ answer. ListingConverted true text.now output.old answer output.new) answer_view encode_number length.old result length.new }
{
    let answer = listing_read::from_numbered(text, output);
    store_length(answer, length)
}

// Checks a laboratory's answers. The answer is two words: the kind of the verdict, 0 right, 1 misplaced, 2 wrong, and the place or
// the number, 0 if the numbers are right. A condition is a struct of three words, so a list of them is lent without a conversion.
pub fn mouldgrey_check_answers(
    text: &[u8],
    conditions: &[Constraint],
    given: &[u32],
    verdict: &mut [u64; 2],
) -> u32
    ensures { Answers (λ answer. AnswersChecked text.now conditions.now given.now answer) check_view encode_finding verdict.old result verdict.new }
{
    let answer = check_answers(text, conditions, given);
    store_check(answer, verdict)
}
