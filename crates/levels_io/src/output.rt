// Bytes passed to `write` on standard output.
ghost use Rattle.std.specs.Prelude.{◌≡◌, true, ◌≤◌, length};
ghost use Rattle.levels_io.specs.inner.Flushing.{RoomMade};

use std::io::{Print, Stderr, Stdout};

// How many bytes were passed to `write`, and whether it wrote them all. The fields are private, so that other crates get a `WriteResult`
// only from the functions below.
#[derive(Clone, Copy)]
pub struct WriteResult {
    count: usize,
    is_written: bool,
}

// Passes all of the bytes to `write`.
fn write_bytes(stdout: Stdout, bytes: &[u8]) -> WriteResult
    ensures { result.count ≡ length bytes.now }
{
    let is_written = stdout.write_all(bytes).is_ok();
    WriteResult {
        count: bytes.len(),
        is_written,
    }
}

// Writes the buffered bytes: the first `used` of the text.
pub fn flush(stdout: Stdout, text: &[u8], used: usize) -> WriteResult
    requires { used ≤ length text.now }
    ensures { result.count ≡ used }
{
    write_bytes(stdout, &text[..used])
}

// Writes the buffered bytes if fewer than `room` bytes of the text are free; otherwise does nothing.
pub fn make_room(stdout: Stdout, text: &[u8], used: usize, room: usize) -> WriteResult
    requires { used ≤ length text.now }
    ensures { RoomMade (length text.now) used room result }
{
    if text.len() - used < room {
        return flush(stdout, text, used);
    }
    no_write()
}

// Passes nothing to `write`.
pub fn no_write() -> WriteResult
    ensures count_value { result.count ≡ 0 }
    ensures is_written_value { result.is_written ≡ true }
{
    WriteResult {
        count: 0,
        is_written: true,
    }
}

pub fn count(handed: WriteResult) -> usize
    ensures { result ≡ handed.count }
{
    handed.count
}

pub fn is_written(handed: WriteResult) -> bool
    ensures { result ≡ handed.is_written }
{
    handed.is_written
}

// Prints the only line that the program writes to standard error.
pub fn report_failure(stderr: Stderr) {
    let _ = stderr.write_all(b"levels: write failed\n");
}
