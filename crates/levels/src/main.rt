// The program `levels` (document 01): reads lines of table operations from standard input and answers each on standard output.
// Answers are buffered, and written before each read. The program owns the stores and lends them to the library.
#![tactic(auto)]

ghost use Rattle.std.specs.Prelude.{◌≤◌, ◌<◌, length as len};
ghost use Rattle.levels_io.specs.inner.Scanning.{InputIn};
ghost use Rattle.levels.specs.Run.{machine, Ran};
ghost use Rattle.levels.specs.inner.Turns.{Within, Turned};
ghost use Rattle.levels.specs.inner.Advancing.{ReadOn, Ready, Advanced};
ghost use Rattle.levels.specs.inner.Stepping.{Shorter};
ghost use Rattle.levels.specs.inner.Running.{Finished};

use levels_answer::append_answer;
use levels_io::input::{Input, first_read, is_at_end, refill, take_line};
use levels_io::output::{
    WriteResult, count, flush, is_written, make_room, no_write, report_failure,
};
use std::io::{Stdin, Stdout};
use table::Header;
use table_open::no_table;

// Bytes of a line that are stored: one more than a line may have, so that a longer line is detected.
const LINE_BYTES: usize = 121;

// Bytes that one read takes at most.
const CHUNK_BYTES: usize = 4096;

// The words of the stores, for a table of eight columns and 1,024 rows.
const ROW_WORDS: usize = 8192;

const KEY_WORDS: usize = 2048;

const SORT_WORDS: usize = 2048;

const PENDING_WORDS: usize = 2048;

// Upper bound of the bytes that one line prints: a listing's head of six numbers, then 1,024 rows of nine.
const MOST_TEXT: usize = 103492;

// Size of the text buffer: space for such a line after 64 KiB of other answers.
const BUFFER: usize = 169028;

// Result of `advance`: how many bytes of the line are stored, whether the line is complete and must be answered, what was passed to
// `write`, and whether this is the last step of the loop.
#[derive(Clone, Copy)]
struct LineProgress {
    input: Input,
    length: usize,
    handed: WriteResult,
    is_line: bool,
    is_over: bool,
}

// Writes all buffered bytes, then reads. Reads nothing if the write fails.
fn read_on(
    stdin: Stdin,
    stdout: Stdout,
    chunk: &mut [u8],
    text: &[u8],
    rest: Input,
    length: usize,
    used: usize,
) -> LineProgress
    requires used_bound { used ≤ len text.now }
    requires end_le_next { rest.end ≤ rest.next }
    requires reads_nonzero { 0 < rest.reads }
    ensures { ReadOn chunk.old rest length used chunk.new result }
{
    let handed = flush(stdout, text, used);
    if is_written(handed) {
        let input = refill(stdin, chunk, rest);
        return LineProgress {
            input: input,
            length: length,
            handed: handed,
            is_line: false,
            is_over: false,
        };
    }
    LineProgress {
        input: rest,
        length: length,
        handed: handed,
        is_line: false,
        is_over: true,
    }
}

// Makes room in the buffer for the answer of a line.
fn ready(
    stdout: Stdout,
    text: &[u8],
    rest: Input,
    length: usize,
    used: usize,
    is_last: bool,
) -> LineProgress
    requires { used ≤ len text.now }
    ensures { Ready (len text.now) rest length used is_last result }
{
    let handed = make_room(stdout, text, used, MOST_TEXT);
    if is_written(handed) {
        return LineProgress {
            input: rest,
            length: length,
            handed: handed,
            is_line: true,
            is_over: is_last,
        };
    }
    LineProgress {
        input: rest,
        length: length,
        handed: handed,
        is_line: false,
        is_over: true,
    }
}

// Takes bytes of the line. If the line is complete, makes room for its answer; else reads more bytes, unless the input is over.
fn advance(
    stdin: Stdin,
    stdout: Stdout,
    line: &mut [u8],
    chunk: &mut [u8],
    text: &[u8],
    input: Input,
    length: usize,
    used: usize,
) -> LineProgress
    requires input_in { InputIn chunk.old input }
    requires length_len_bound { length ≤ len line.old }
    requires used_bound { used ≤ len text.now }
    ensures { Advanced line.old length chunk.old input text.now used line.new chunk.new result }
{
    let taken = take_line(line, length, chunk, input);
    let rest = taken.input;
    let kept = taken.length;
    if taken.is_whole {
        return ready(stdout, text, rest, kept, used, false);
    }
    if !is_at_end(rest) {
        return read_on(stdin, stdout, chunk, text, rest, kept, used);
    }
    if kept > 0 {
        return ready(stdout, text, rest, kept, used, true);
    }
    LineProgress {
        input: rest,
        length: 0,
        handed: no_write(),
        is_line: false,
        is_over: true,
    }
}

// State between two steps of the loop: the table, the input, the number of stored bytes of the line, the number of buffered bytes.
#[derive(Clone, Copy)]
struct State {
    header: Header,
    input: Input,
    length: usize,
    used: usize,
}

// The state after a step, what the step passed to `write`, and whether it is the last step.
#[derive(Clone, Copy)]
struct StepDone {
    state: State,
    handed: WriteResult,
    is_over: bool,
}

// One step of the loop: answers the line if it is complete, otherwise reads.
fn step(
    stdin: Stdin,
    stdout: Stdout,
    state: State,
    line: &mut [u8; LINE_BYTES],
    chunk: &mut [u8; CHUNK_BYTES],
    rows: &mut [u32; ROW_WORDS],
    keys: &mut [u32; KEY_WORDS],
    sorts: &mut [u32; SORT_WORDS],
    pending: &mut [u32; PENDING_WORDS],
    text: &mut [u8; BUFFER],
) -> StepDone
    requires { Within (machine state line.old chunk.old rows.old keys.old sorts.old pending.old text.old) }
    ensures turned { Turned (machine state line.old chunk.old rows.old keys.old sorts.old pending.old text.old) result.handed (machine result.state line.new chunk.new rows.new keys.new sorts.new pending.new text.new) result.is_over }
    ensures shorter { Shorter state.input result.state.input result.is_over }
{
    let header = state.header;
    let from = state.input;
    let progress = advance(
        stdin,
        stdout,
        line,
        chunk,
        text,
        from,
        state.length,
        state.used,
    );
    let input = progress.input;
    let handed = progress.handed;
    let left = state.used - count(handed);
    let length = progress.length;
    if !progress.is_line {
        let next = State {
            header: header,
            input: input,
            length: length,
            used: left,
        };
        return StepDone {
            state: next,
            handed: handed,
            is_over: progress.is_over,
        };
    }
    let answered = append_answer(header, line, length, rows, keys, sorts, pending, text, left);
    let after = answered.header;
    let next = State {
        header: after,
        input: input,
        length: 0,
        used: answered.used,
    };
    StepDone {
        state: next,
        handed: handed,
        is_over: progress.is_over,
    }
}

// The state at the end of a run, and what was last passed to `write`.
#[derive(Clone, Copy)]
struct Ended {
    state: State,
    handed: WriteResult,
}

// Writes the bytes that are still buffered, unless a write has failed.
fn finish(stdout: Stdout, state: State, handed: WriteResult, text: &[u8]) -> Ended
    requires { state.used ≤ len text.now }
    ensures { Finished state handed result }
{
    if is_written(handed) {
        let last = flush(stdout, text, state.used);
        return Ended {
            state: state,
            handed: last,
        };
    }
    Ended {
        state: state,
        handed: handed,
    }
}

// Repeats `step` until the input is over or a write fails. Writes the remaining buffered bytes when the input is over.
fn run(
    stdin: Stdin,
    stdout: Stdout,
    line: &mut [u8; LINE_BYTES],
    chunk: &mut [u8; CHUNK_BYTES],
    rows: &mut [u32; ROW_WORDS],
    keys: &mut [u32; KEY_WORDS],
    sorts: &mut [u32; SORT_WORDS],
    pending: &mut [u32; PENDING_WORDS],
    text: &mut [u8; BUFFER],
) -> Ended
    ensures { Ran (machine result.state line.new chunk.new rows.new keys.new sorts.new pending.new text.new) result.handed }
{
    let mut state = State {
        header: no_table(),
        input: first_read(stdin, chunk),
        length: 0,
        used: 0,
    };
    loop {
        let made = step(
            stdin, stdout, state, line, chunk, rows, keys, sorts, pending, text,
        );
        state = made.state;
        if made.is_over {
            let handed = made.handed;
            return finish(stdout, state, handed, text);
        }
    }
}

fn main(rt: HostRuntime) {
    let mut line = [0u8; LINE_BYTES];
    let mut chunk = [0u8; CHUNK_BYTES];
    let mut rows = [0u32; ROW_WORDS];
    let mut keys = [0u32; KEY_WORDS];
    let mut sorts = [0u32; SORT_WORDS];
    let mut pending = [0u32; PENDING_WORDS];
    let mut text = [0u8; BUFFER];
    let ended = run(
        rt.stdin(),
        rt.stdout(),
        &mut line,
        &mut chunk,
        &mut rows,
        &mut keys,
        &mut sorts,
        &mut pending,
        &mut text,
    );
    if !is_written(ended.handed) {
        report_failure(rt.stderr());
    }
}
