// Lines of the recorded list (oracle/recorded/README.md) as the program `recorded` reads them, and answers in the same form: a
// letter and numbers. There are no preconditions: a number that a line lacks is 0.
use table::Header;

// The letter of an answer that is not compared: the answer to a query with a list of conditions.
pub const NOT_COMPARED: u8 = b'?';

// An answer: the header after it, the letter, its first numbers (`count` of them), and how many more are at the start of the lent
// numbers.
#[derive(Clone, Copy)]
pub struct Answer {
    pub header: Header,
    pub letter: u8,
    pub count: usize,
    pub first: [u32; 5],
    pub more: u32,
}

impl Answer {
    // An answer of at most five numbers.
    pub fn new(header: Header, letter: u8, numbers: &[u32]) -> Answer {
        let mut first = [0; 5];
        for (place, number) in first.iter_mut().zip(numbers) {
            *place = *number;
        }
        Answer {
            header,
            letter,
            count: numbers.len(),
            first,
            more: 0,
        }
    }

    pub fn refused(header: Header, number: u32) -> Answer {
        Answer::new(header, b'X', &[number])
    }
}

// A line: its letter, how many numbers are at the start of the lent numbers, and the offset after the line's end.
#[derive(Clone, Copy)]
pub struct Line {
    pub letter: u8,
    pub count: usize,
    pub next: usize,
}

pub fn number_at(numbers: &[u32], place: usize) -> u32 {
    numbers.get(place).copied().unwrap_or(0)
}

// The offset `place` + `count`; 0 if one of them is 1,000 or more. No line has that many numbers.
pub fn add_offset(place: usize, count: u32) -> usize {
    if place < 1000 && count < 1000 {
        return place + count as usize;
    }
    0
}

// The numbers from one offset up to another; none if there are no such numbers.
pub fn part<'a>(numbers: &'a [u32], from: usize, to: usize) -> &'a [u32] {
    match numbers.get(from..to) {
        Some(found) => found,
        None => &numbers[..0],
    }
}

// A decimal with one more digit. Other bytes, and digits that do not fit, are skipped.
fn with_digit(number: u32, byte: u8) -> u32 {
    if !byte.is_ascii_digit() {
        return number;
    }
    let longer = 10 * u64::from(number) + u64::from(byte - b'0');
    u32::try_from(longer).unwrap_or(number)
}

// Processes one byte after the letter: a comma begins a number. Returns how many numbers there are.
fn feed(count: usize, byte: u8, numbers: &mut [u32]) -> usize {
    if byte == b',' {
        if count < numbers.len() {
            numbers[count] = 0;
            return count + 1;
        }
        return count;
    }
    if 0 < count && count <= numbers.len() {
        numbers[count - 1] = with_digit(numbers[count - 1], byte);
    }
    count
}

// Reads the line that begins at `start`. The letter of an answer follows an equals sign.
pub fn read_line(text: &[u8], start: usize, numbers: &mut [u32]) -> Line {
    let mut letter = b'=';
    let mut count = 0;
    let mut next = start;
    for byte in text.get(start..).unwrap_or(&[]) {
        next = next.saturating_add(1);
        if *byte == b'\n' {
            break;
        }
        if letter == b'=' {
            letter = *byte;
        } else {
            count = feed(count, *byte, numbers);
        }
    }
    Line {
        letter,
        count,
        next,
    }
}
