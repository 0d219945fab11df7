// Encodes headers and answers as words for C callers, and decodes their arguments. A fixed number of words is a fixed array, which
// goes to C as a plain pointer.
// The conversions are functions: an impl of `From` for a type of another crate may stand only there, and a type around the words is
// no plainer.
#![tactic(auto)]

ghost use Rattle.std.specs.Prelude.{◌≡◌, IfOk, IfErr};
ghost use Rattle.constraints.specs.Encoding.{condition_in};
ghost use Rattle.refusals.specs.Refusals.{number, answer_view};
ghost use Rattle.table.specs.Numbers.{largest_view};
ghost use Rattle.offsets.specs.Answers.{lent_subset};
ghost use Rattle.query_spec.specs.Queries.{page_view};
ghost use Rattle.abi.specs.Encoding.{decode_largest, decode_columns, decode_header, subset_in, head_of, decode_subset, encode_header, encode_merge, encode_bool, encode_option, range_of, encode_range, encode_version, subset_head_view, encode_subset, encode_page, Stored};

use constraints::Constraint;
use offsets::{SubsetForm, SubsetRef};
use query_spec::Page;
use refusals::{ACCEPTED, Refusal};
use sort_entries::Range;
use table::{Header, Merge, Version};

pub mod places; // places.rt: the places of a header's and of an opening's words

// ---- arguments

fn decode_largest(flag: u32, value: u32) -> Option<u32>
    ensures { result ≡ decode_largest flag value }
{
    (flag == 1).then_some(value)
}

fn decode_columns(columns: u32, flag: u32) -> u32
    ensures { result ≡ decode_columns columns flag }
{
    if flag <= 1 {
        return columns;
    }
    0
}

pub fn decode_header(words: &[u32; 12]) -> Header
    ensures { result ≡ decode_header words.now }
{
    Header {
        columns: decode_columns(words[places::COLUMNS], words[places::LARGEST_FLAG]),
        keys: words[places::KEYS],
        sort: words[places::SORT],
        rule: words[places::RULE],
        capacity: words[places::CAPACITY],
        rows: words[places::ROWS],
        dead: words[places::DEAD],
        entries: words[places::ENTRIES],
        pending: words[places::PENDING],
        generation: words[places::GENERATION],
        largest: decode_largest(words[places::LARGEST_FLAG], words[places::LARGEST_VALUE]),
    }
}

pub fn decode_condition(words: &[u32; 3]) -> Constraint
    ensures { result ≡ condition_in words.now 0 }
{
    Constraint {
        kind: words[0],
        column: words[1],
        value: words[2],
    }
}

pub fn decode_subset<'a>(words: &[u32; 3], ids: &'a [u32]) -> SubsetRef<'a>
    ensures head { head_of result ≡ decode_subset words.now }
    ensures subset { lent_subset result ≡ subset_in (decode_subset words.now) ids.now }
    ensures ids { result.ids.now ≡ ids.now }
{
    SubsetRef {
        dense: words[0] != 0,
        start: words[1],
        end: words[2],
        ids,
    }
}

// ---- answers

pub fn encode_bool(answer: bool) -> [u32; 1]
    ensures { result ≡ encode_bool answer }
{
    [u32::from(answer)]
}

// 1 and the number, or 0 and 0 if there is none.
pub fn encode_option(found: Option<u32>) -> [u32; 2]
    ensures { result ≡ encode_option (largest_view found) }
{
    match found {
        None => [0, 0],
        Some(number) => [1, number],
    }
}

pub fn encode_range(range: Option<Range>) -> [u32; 3]
    ensures { result ≡ encode_range (range_of range) }
{
    match range {
        None => [0, 0, 0],
        Some(Range { start, end }) => [1, start, end],
    }
}

pub fn encode_version(version: Version) -> [u32; 2]
    ensures { result ≡ encode_version version }
{
    [version.generation, version.rows]
}

pub fn encode_header(h: Header) -> [u32; 12]
    ensures { result ≡ encode_header h }
{
    let words = encode_option(h.largest);
    [
        h.columns,
        h.keys,
        h.sort,
        h.rule,
        h.capacity,
        h.rows,
        h.dead,
        h.entries,
        h.pending,
        h.generation,
        words[0],
        words[1],
    ]
}

pub fn encode_merge(m: Merge) -> [u32; 5]
    ensures { result ≡ encode_merge m }
{
    [m.status, m.place, u32::from(m.added), m.kept, m.dropped]
}

// Stores the encoding of an answer and returns 0. If the answer is refused, returns the refusal's number and stores nothing.
pub fn store<T, W: Copy, F: FnOnce(T) -> W>(
    answer: Result<T, Refusal>,
    words: &mut W,
    encode: F,
) -> u32
    requires { F.IsAlwaysCallable encode }
    ensures refused { IfErr answer (λ refusal. (result ≡ number refusal) × (words.new ≡ words.old)) }
    ensures accepted { IfOk answer (λ value. (result ≡ 0) × F.post encode value words.new) }
{
    match answer {
        Err(refusal) => refusal.into(),
        Ok(value) => {
            *words = encode(value);
            ACCEPTED
        }
    }
}

pub fn store_subset(answer: Result<SubsetForm, Refusal>, subset: &mut [u32; 3]) -> u32
    ensures { Stored subset_head_view encode_subset answer subset.old result subset.new }
{
    match answer {
        Err(refusal) => refusal.into(),
        Ok(SubsetForm::Range(start, end)) => {
            *subset = [1, start, end];
            ACCEPTED
        }
        Ok(SubsetForm::List(count)) => {
            *subset = [0, 0, count];
            ACCEPTED
        }
    }
}

pub fn store_match(answer: Result<bool, Refusal>, matched: &mut [u32; 1]) -> u32
    ensures { Stored answer_view encode_bool answer matched.old result matched.new }
{
    store(answer, matched, encode_bool)
}

pub fn store_page(answer: Result<Page, Refusal>, page: &mut [u32; 4]) -> u32
    ensures { Stored page_view encode_page answer page.old result page.new }
{
    match answer {
        Err(refusal) => refusal.into(),
        Ok(p) => {
            let next = p.next;
            match next {
                None => {
                    *page = [p.written, p.dead, 0, 0];
                    ACCEPTED
                }
                Some(place) => {
                    *page = [p.written, p.dead, 1, place];
                    ACCEPTED
                }
            }
        }
    }
}
