// Appends a line of output, as specs/Written.antt of `levels_text` defines it, to the bytes that a lent text already has.
ghost use Rattle.std.specs.Prelude.{◌≡◌, [], ◌∷◌, map, ◌+◌, ◌*◌, ◌≤◌, ◌<◌, length};
ghost use Rattle.lists.specs.Lists.{flatten};
ghost use Rattle.levels_text.specs.Written.{field, text_line};
ghost use Rattle.levels_text.specs.inner.Appending.{Appended, Wrote};

// Appends one byte.
fn put(text: &mut [u8], used: usize, byte: u8) -> usize
    requires { used < length text.old }
    ensures { Appended text.old used (byte ∷ []) text.new result }
{
    text[used] = byte;
    used + 1
}

pub fn put_bytes(text: &mut [u8], used: usize, bytes: &[u8]) -> usize
    requires { used + length bytes.now ≤ length text.old }
    ensures { Appended text.old used bytes.now text.new result }
{
    let end = used + bytes.len();
    text[used..end].copy_from_slice(bytes);
    end
}

// How many bytes a comma and a number take.
pub fn number_length(number: u32) -> usize
    ensures { result ≡ length (field number) }
{
    let mut digits = [0u8; 20];
    let count = io::decimal(u64::from(number), &mut digits);
    count + 1
}

// Appends a comma and a number.
fn put_number(text: &mut [u8], used: usize, number: u32) -> usize
    requires { used + length (field number) ≤ length text.old }
    ensures { Appended text.old used (field number) text.new result }
{
    let mut digits = [0u8; 20];
    let count = io::decimal(u64::from(number), &mut digits);
    let end = put(text, used, b',');
    put_bytes(text, end, &digits[..count])
}

fn put_numbers(text: &mut [u8], used: usize, numbers: &[u32]) -> usize
    requires { used + length (flatten (map field numbers.now)) ≤ length text.old }
    ensures { Appended text.old used (flatten (map field numbers.now)) text.new result }
{
    let mut end = used;
    for number in numbers {
        end = put_number(text, end, *number);
    }
    end
}

// Appends a letter, numbers and a newline.
pub fn put_line(text: &mut [u8], used: usize, letter: u8, numbers: &[u32]) -> usize
    requires { used + length (text_line letter numbers.now) ≤ length text.old }
    ensures { Appended text.old used (text_line letter numbers.now) text.new result }
{
    let lettered = put(text, used, letter);
    let numbered = put_numbers(text, lettered, numbers);
    put(text, numbered, b'\n')
}

// Like `put_line`, with a number before the others.
pub fn put_numbered(text: &mut [u8], used: usize, letter: u8, number: u32, numbers: &[u32]) -> usize
    requires { used + length (text_line letter (number ∷ numbers.now)) ≤ length text.old }
    ensures { Appended text.old used (text_line letter (number ∷ numbers.now)) text.new result }
{
    let lettered = put(text, used, letter);
    let numbered = put_number(text, lettered, number);
    let filled = put_numbers(text, numbered, numbers);
    put(text, filled, b'\n')
}

// Writes a line at the start of the text.
pub fn write_line(text: &mut [u8], letter: u8, numbers: &[u32]) -> usize
    requires { 11 * length numbers.now + 2 ≤ length text.old }
    ensures { Wrote (text_line letter numbers.now) text.new result }
{
    put_line(text, 0, letter, numbers)
}

// Writes the line of a refusal: X and its number.
pub fn refuse(text: &mut [u8], number: u32) -> usize
    requires { 90 ≤ length text.old }
    ensures { Wrote (text_line 88 (number ∷ [])) text.new result }
{
    write_line(text, b'X', &[number])
}
