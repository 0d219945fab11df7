// Makes the calls of the recorded list on the library. Returns each answer in the list's form.
use super::lines::{Answer, number_at, part};
use abi::places;
use refusals::Refusal;
use table::{Header, Merge};

fn answer_table(h: Header, answer: Result<Header, Refusal>) -> Answer {
    match answer {
        Err(refusal) => Answer::refused(h, refusal.into()),
        Ok(after) => Answer::new(after, b'D', &[]),
    }
}

// I, R and K.
fn stage(h: Header, letter: u8, numbers: &[u32], pending: &mut [u32]) -> Answer {
    let staged = match letter {
        b'I' => table_stage::stage_insert(h, pending, numbers),
        b'R' => table_stage::stage_remove(h, pending, numbers),
        _ => {
            let row = number_at(numbers, 0);
            let key = part(numbers, 1, numbers.len());
            table_stage::stage_remove_row(h, pending, row, key)
        }
    };
    answer_table(h, staged)
}

fn answer_merge(h: Header, answer: Result<Merge, Refusal>) -> Answer {
    match answer {
        Err(refusal) => Answer::refused(h, refusal.into()),
        Ok(m) => Answer::new(
            m.header,
            b'M',
            &[m.status, u32::from(m.added), m.place, m.kept, m.dropped],
        ),
    }
}

// M, with compaction words for a capacity of 64.
fn merge_pending(
    h: Header,
    rows: &mut [u32],
    keys: &mut [u32],
    sorts: &mut [u32],
    pending: &[u32],
) -> Answer {
    let mut live = [0u64; 1];
    let mut base = [0u32; 1];
    let answer = merge::merge(h, rows, keys, sorts, pending, &mut live, &mut base);
    answer_merge(h, answer)
}

// G, with compaction words for the same capacity.
fn compact(h: Header, rows: &mut [u32], keys: &mut [u32], sorts: &mut [u32]) -> Answer {
    let mut live = [0u64; 1];
    let mut base = [0u32; 1];
    let answer = table_compact::compact(h, rows, keys, sorts, &mut live, &mut base);
    answer_table(h, answer)
}

// O and C.
fn empty(
    h: Header,
    letter: u8,
    numbers: &[u32],
    rows: &[u32],
    keys: &mut [u32],
    sorts: &[u32],
    pending: &[u32],
) -> Answer {
    if letter == b'C' {
        return answer_table(h, table_open::clear(h, keys));
    }
    let opened = table_open::open_table(
        number_at(numbers, places::COLUMNS),
        number_at(numbers, places::KEYS),
        number_at(numbers, places::SORT),
        number_at(numbers, places::RULE),
        number_at(numbers, places::CAPACITY),
        number_at(numbers, places::OPENING_GENERATION),
        rows,
        keys,
        sorts,
        pending,
    );
    answer_table(h, opened)
}

pub fn is_call(letter: u8) -> bool {
    matches!(letter, b'O' | b'I' | b'R' | b'K' | b'M' | b'G' | b'C')
}

// Makes a call, dispatched by its letter.
pub fn call(
    h: Header,
    letter: u8,
    numbers: &[u32],
    rows: &mut [u32],
    keys: &mut [u32],
    sorts: &mut [u32],
    pending: &mut [u32],
) -> Answer {
    match letter {
        b'M' => merge_pending(h, rows, keys, sorts, pending),
        b'G' => compact(h, rows, keys, sorts),
        b'O' | b'C' => empty(h, letter, numbers, rows, keys, sorts, pending),
        _ => stage(h, letter, numbers, pending),
    }
}
