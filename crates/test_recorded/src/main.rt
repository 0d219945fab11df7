// The program `recorded`: reads the recorded list from standard input, makes each of its calls and queries on the library, and
// compares the answers with those of the list. It prints how many answers the list has, how many were compared, and how many
// agreed. It skips queries with a list of conditions.
#![tactic(auto)]

use answers::Counts;
use std::io;
use std::io::{Read, Stdin};
use steps::{State, step};
use table_open::no_table;

mod answers; // answers.rt: answers compared with those of the list
mod calls; // calls.rt: the calls of the list
mod lines; // lines.rt: the lines of the list
mod lookups; // lookups.rt: its lookups, ranges and versions
mod queries; // queries.rt: its queries
mod steps; // steps.rt: a line and its answer

// Reads until the text is full, the input is over or a read fails.
fn read_text(mut stdin: Stdin, text: &mut [u8]) {
    let mut done = 0;
    while done < text.len() {
        match stdin.read(&mut text[done..]) {
            Ok(0) => return,
            Ok(count) => done += count,
            Err(_) => return,
        }
    }
}

fn write_counts(rt: &impl Print, counts: Counts) -> io::Result<()> {
    println!(rt; "{} recorded answers", counts.answers)?;
    println!(rt; "{} of them compared here", counts.compared)?;
    println!(rt; "{} agreed", counts.agreed)
}

fn main(rt: HostRuntime) -> io::Result<()> {
    let mut text = [0u8; 65536];
    read_text(rt.stdin(), &mut text);
    let mut rows = [0u32; 512];
    let mut keys = [0u32; 128];
    let mut sorts = [0u32; 128];
    let mut pending = [0u32; 256];
    let mut state = State {
        header: no_table(),
        place: 0,
        counts: Counts {
            answers: 0,
            compared: 0,
            agreed: 0,
        },
    };
    for _ in 0..65536 {
        let next = step(state, &text, &mut rows, &mut keys, &mut sorts, &mut pending);
        let Some(after) = next else {
            break;
        };
        state = after;
    }
    write_counts(&rt, state.counts)
}
