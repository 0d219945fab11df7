// Answers a line of `levels`, given as bytes: parses it, runs it, and writes its response to the start of a lent text.
#![tactic(auto)]

ghost use Rattle.std.specs.Prelude.{◌+◌, ◌≤◌, length, take};
ghost use Rattle.table.specs.Outcomes.{stores};
ghost use Rattle.levels_spec.specs.Answers.{Answering};
ghost use Rattle.levels_answer.specs.inner.Reading.{Responding, AnswerAppended};

use dispatch::serve;
use encode::encode_response;
use levels_spec::{Response, Served};
use levels_text::MOST_NUMBERS;
use refusals::Refusal;
use table::Header;

mod calls; // calls.rt: the lines that change the table
mod dispatch; // dispatch.rt: a line dispatched by its kind
mod encode; // encode.rt: a response encoded as bytes
mod queries; // queries.rt: the lines that query the table

// Runs any line, and returns its response before it is encoded as text.
fn respond(
    h: Header,
    line: &[u8],
    rows: &mut [u32],
    keys: &mut [u32],
    sorts: &mut [u32],
    pending: &mut [u32],
) -> Served
    ensures { Responding line.now (stores h rows.old keys.old sorts.old pending.old) (stores result.header rows.new keys.new sorts.new pending.new) result.response }
{
    let mut numbers = [0u32; MOST_NUMBERS];
    let Some(parsed) = levels_text::parse(line, &mut numbers) else {
        return Served {
            header: h,
            response: Response::Refused(Refusal::NoListing),
        };
    };
    let passed = &numbers[..parsed.count];
    serve(h, parsed.kind, passed, rows, keys, sorts, pending)
}

// The header after a line, and how many bytes the line prints.
#[derive(Clone, Copy)]
pub struct LineAnswer {
    pub header: Header,
    pub used: usize,
}

// Answers any line. The text has room for a listing of 1,024 rows, each of a number and eight cells.
pub fn answer(
    h: Header,
    line: &[u8],
    rows: &mut [u32],
    keys: &mut [u32],
    sorts: &mut [u32],
    pending: &mut [u32],
    text: &mut [u8],
) -> LineAnswer
    requires keys_len_bound { length keys.old ≤ 2048 }
    requires in_bounds { 103492 ≤ length text.old }
    ensures { Answering line.now (stores h rows.old keys.old sorts.old pending.old) (stores result.header rows.new keys.new sorts.new pending.new) text.new result.used }
{
    let Served { header, response } = respond(h, line, rows, keys, sorts, pending);
    LineAnswer {
        header,
        used: encode_response(header, response, rows, text),
    }
}

// Answers the line in the first `count` bytes. Writes the answer after the first `from` bytes of the text, which do not change.
pub fn append_answer(
    h: Header,
    line: &[u8],
    count: usize,
    rows: &mut [u32],
    keys: &mut [u32],
    sorts: &mut [u32],
    pending: &mut [u32],
    text: &mut [u8],
    from: usize,
) -> LineAnswer
    requires count_in_bounds { count ≤ length line.now }
    requires keys_len_bound { length keys.old ≤ 2048 }
    requires from_in_bounds { from + 103492 ≤ length text.old }
    ensures { AnswerAppended (take count line.now) (stores h rows.old keys.old sorts.old pending.old) (stores result.header rows.new keys.new sorts.new pending.new) text.old from text.new result.used }
{
    let answered = answer(
        h,
        &line[..count],
        rows,
        keys,
        sorts,
        pending,
        &mut text[from..],
    );
    LineAnswer {
        header: answered.header,
        used: from + answered.used,
    }
}
