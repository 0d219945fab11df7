// Compares answers with those of the recorded list, and counts how many agree.
use super::lines::{Answer, NOT_COMPARED, add_offset, part, read_line};

// How many answers the list has, how many were compared, and how many agreed.
#[derive(Clone, Copy)]
pub struct Counts {
    pub answers: u64,
    pub compared: u64,
    pub agreed: u64,
}

fn one_more(count: u64) -> u64 {
    count.saturating_add(1).min(1_000_000)
}

// The counts, and the offset after the answer's line.
#[derive(Clone, Copy)]
pub struct Comparison {
    pub counts: Counts,
    pub place: usize,
}

fn counted(counts: Counts, is_compared: bool, agrees: bool) -> Counts {
    let mut after = counts;
    after.answers = one_more(counts.answers);
    if is_compared {
        after.compared = one_more(counts.compared);
    }
    if agrees {
        after.agreed = one_more(counts.agreed);
    }
    after
}

// True if the numbers of an answer are those of a line.
fn is_same(reply: &Answer, out: &[u32], numbers: &[u32]) -> bool {
    numbers.len() == add_offset(reply.count, reply.more)
        && part(&reply.first, 0, reply.count) == part(numbers, 0, reply.count)
        && part(out, 0, add_offset(0, reply.more)) == part(numbers, reply.count, numbers.len())
}

// Compares the answer with the list's line at `place`.
pub fn compare(
    counts: Counts,
    reply: Answer,
    out: &[u32],
    text: &[u8],
    place: usize,
) -> Comparison {
    let mut numbers = [0u32; 64];
    let line = read_line(text, place, &mut numbers);
    let agrees = reply.letter == line.letter && is_same(&reply, out, part(&numbers, 0, line.count));
    Comparison {
        counts: counted(counts, reply.letter != NOT_COMPARED, agrees),
        place: line.next,
    }
}
