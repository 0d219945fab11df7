// One step of the program `recorded`: a line of the recorded list, the call or query in it, and its answer.
use super::answers::{Counts, compare};
use super::calls::{call, is_call};
use super::lines::{Answer, part, read_line};
use super::queries::run_query;
use table::Header;

// Makes a call or query, dispatched by its letter.
fn serve(
    h: Header,
    letter: u8,
    numbers: &[u32],
    rows: &mut [u32],
    keys: &mut [u32],
    sorts: &mut [u32],
    pending: &mut [u32],
    out: &mut [u32],
) -> Answer {
    if is_call(letter) {
        return call(h, letter, numbers, rows, keys, sorts, pending);
    }
    run_query(h, letter, numbers, rows, keys, sorts, out)
}

// The table, the offset in the list, and the counts.
#[derive(Clone, Copy)]
pub struct State {
    pub header: Header,
    pub place: usize,
    pub counts: Counts,
}

// Processes a call or query and its answer: two lines. Nothing is left of a list after its last line.
pub fn step(
    state: State,
    text: &[u8; 65536],
    rows: &mut [u32; 512],
    keys: &mut [u32; 128],
    sorts: &mut [u32; 128],
    pending: &mut [u32; 256],
) -> Option<State> {
    let mut numbers = [0u32; 64];
    let mut out = [0u32; 80];
    let line = read_line(text, state.place, &mut numbers);
    if line.letter == 0 {
        return None;
    }
    let given = part(&numbers, 0, line.count);
    let reply = serve(
        state.header,
        line.letter,
        given,
        rows,
        keys,
        sorts,
        pending,
        &mut out,
    );
    let comparison = compare(state.counts, reply, &out, text, line.next);
    Some(State {
        header: reply.header,
        place: comparison.place,
        counts: comparison.counts,
    })
}
