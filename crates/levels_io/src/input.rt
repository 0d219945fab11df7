// Lines of standard input, extracted from the chunks that reads return.
ghost use Rattle.std.specs.Prelude.{◌-◌, ◌≤◌, ◌<◌, ◌≡◌, ◌==◌, [], length as len, take, drop, position};
ghost use Rattle.levels_io.specs.Input.{bytes_read, unread};
ghost use Rattle.levels_io.specs.inner.Scanning.{Pushed, Scanned, InputIn};
ghost use Rattle.levels_io.specs.inner.Taking.{Moved, Refilled, EndTested, LineTaken};

use std::io::{Read, Stdin};

// Stores bytes of the line behind its first `length`, as far as there is room. Returns the new length.
fn store(line: &mut [u8], length: usize, bytes: &[u8]) -> usize
    requires { length ≤ len line.old }
    ensures { Pushed line.old length bytes.now line.new result }
{
    let kept = bytes.len().min(line.len() - length);
    let end = length + kept;
    line[length..end].copy_from_slice(&bytes[..kept]);
    end
}

// The offset of the first newline.
fn newline(bytes: &[u8]) -> Option<usize>
    ensures { result ≡ position (λ byte. byte == 10) bytes.now }
{
    bytes.iter().position(|byte| *byte == b'\n')
}

// Result of `scan_chunk`: how many bytes of the line are stored, the offset after the bytes taken, and whether the line ended.
#[derive(Clone, Copy)]
struct ChunkScan {
    length: usize,
    next: usize,
    is_whole: bool,
}

// Takes bytes of the chunk, up to the end of the line or of the bytes in the chunk.
fn scan_chunk(line: &mut [u8], length: usize, chunk: &[u8], from: usize, end: usize) -> ChunkScan
    requires length_len_bound { length ≤ len line.old }
    requires from_le_end { from ≤ end }
    requires end_bound { end ≤ len chunk.now }
    ensures { Scanned line.old length (take (end - from) (drop from chunk.now)) from line.new result }
{
    let bytes = &chunk[from..end];
    match newline(bytes) {
        Some(count) => ChunkScan {
            length: store(line, length, &bytes[..count]),
            next: from + count + 1,
            is_whole: true,
        },
        None => ChunkScan {
            length: store(line, length, bytes),
            next: end,
            is_whole: false,
        },
    }
}

// The input so far: the unread bytes of the chunk are those from `next` up to `end`; `got` is what the last read returned, and
// `reads` how many reads are left. The fields are private, so that other crates get an `Input` only from the functions below.
#[derive(Clone, Copy)]
pub struct Input {
    next: usize,
    end: usize,
    got: isize,
    reads: u64,
}

// Makes one read. Returns how many bytes it stored at the start of the chunk, or -1 if it failed.
fn read(mut stdin: Stdin, chunk: &mut [u8]) -> isize
    ensures { Moved (len chunk.old) result }
{
    match stdin.read(chunk) {
        Ok(count) => count as isize,
        Err(_) => -1,
    }
}

// Makes one read, after all bytes of the chunk are taken.
pub fn refill(stdin: Stdin, chunk: &mut [u8], input: Input) -> Input
    requires end_le_next { input.end ≤ input.next }
    requires reads_nonzero { 0 < input.reads }
    ensures { Refilled (unread chunk.old input) input.reads chunk.new result }
{
    let got = read(stdin, chunk);
    Input {
        next: 0,
        end: io::count(got, chunk),
        got,
        reads: input.reads - 1,
    }
}

// Makes the first of at most 2^64 - 1 reads. Nothing guarantees that the input ends, so the reads are counted down.
pub fn first_read(stdin: Stdin, chunk: &mut [u8]) -> Input
    ensures { Refilled [] 18446744073709551615 chunk.new result }
{
    let none = Input {
        next: 0,
        end: 0,
        got: 0,
        reads: u64::MAX,
    };
    refill(stdin, chunk, none)
}

// True if the last read returned no byte, or no read is left.
pub fn is_at_end(input: Input) -> bool
    requires { input.end ≡ bytes_read input.got }
    ensures { EndTested input result }
{
    input.end == 0 || input.reads == 0
}

// Result of `take_line`: the input after it, how many bytes of the line are stored, and whether its newline was found.
#[derive(Clone, Copy)]
pub struct TakenLine {
    pub input: Input,
    pub length: usize,
    pub is_whole: bool,
}

// Takes unread bytes up to the newline, or all of them. Appends them to the first `length` bytes of the line, as far as they fit.
pub fn take_line(line: &mut [u8], length: usize, chunk: &[u8], input: Input) -> TakenLine
    requires length_len_bound { length ≤ len line.old }
    requires input_in { InputIn chunk.now input }
    ensures { LineTaken line.old length chunk.now input line.new result }
{
    let found = scan_chunk(line, length, chunk, input.next, input.end);
    let mut rest = input;
    rest.next = found.next;
    TakenLine {
        input: rest,
        length: found.length,
        is_whole: found.is_whole,
    }
}
