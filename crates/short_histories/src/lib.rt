// Every sequence of at most six steps, shorter before longer, equal lengths in the order of their first differing step. A position
// is its sequence read as a number in base 7 with the digits 1 to 7, where the digit of a step is its number plus 1. So 0 is the
// empty sequence, and each number has one sequence.
#![tactic(auto)]

ghost use Rattle.std.specs.Prelude.{◌≡◌, true, ◌≤◌, ◌<◌, length, get_or};
ghost use Rattle.lists.specs.Lists.{splice};
ghost use Rattle.short_histories.specs.Sequences.{sequence_at, position_of, known, StepAnswered, PositionAnswered, SequenceFound, NextFound};
ghost use Rattle.short_histories.specs.inner.Raised.{RaisedEnd, raised, ToRaise};

use refusals::Refusal;

// The number of sequences: 1 + 7 + 49 + ... + 117649.
const SEQUENCES: u32 = 137257;

const STEPS: u32 = 7;

const LAST_STEP: u32 = STEPS - 1;

const LONGEST: usize = 6;

// The call of a step.
#[derive(Clone, Copy, Debug, PartialEq, Eq, Hash)]
pub enum Step {
    Insert { key: u32, stamp: u32, third: u32 },
    Remove { key: u32 },
    Merge,
}

// The step of a number.
pub fn step_at(step: u32) -> Result<Step, Refusal>
    ensures { StepAnswered step result }
{
    match step {
        0 => Ok(Step::Insert {
            key: 0,
            stamp: 0,
            third: 0,
        }),
        1 => Ok(Step::Insert {
            key: 0,
            stamp: 1,
            third: 1,
        }),
        2 => Ok(Step::Insert {
            key: 1,
            stamp: 0,
            third: 1,
        }),
        3 => Ok(Step::Insert {
            key: 1,
            stamp: 1,
            third: 0,
        }),
        4 => Ok(Step::Remove { key: 0 }),
        5 => Ok(Step::Remove { key: 1 }),
        6 => Ok(Step::Merge),
        _ => Err(Refusal::UnknownSequence),
    }
}

// Whether a sequence has at most six steps, all of them known.
fn is_known(sequence: &[u32]) -> bool
    ensures { result ≡ known sequence.now }
{
    sequence.len() <= LONGEST && sequence.iter().all(|step| *step < STEPS)
}

// The position of a known sequence.
fn known_position(sequence: &[u32]) -> u32
    requires { known sequence.now ≡ true }
    ensures { (result ≡ position_of sequence.now) × (result < 137257) }
{
    let mut position = 0;
    for step in sequence {
        position = position * STEPS + *step + 1;
    }
    position
}

// The number of steps of the sequence at a position.
fn length_at(position: u32) -> usize
    requires { position < 137257 }
    ensures { (result ≡ length (sequence_at position)) × (result ≤ 6) }
{
    let mut steps = 0;
    let mut rest = position;
    while rest > 0 {
        rest = (rest - 1) / STEPS;
        steps += 1;
    }
    steps
}

// Writes the sequence at a position, its last step first.
fn write_sequence(position: u32, steps: usize, output: &mut [u32])
    requires { (position < 137257) × (steps ≡ length (sequence_at position)) × (steps ≤ length output.old) }
    ensures { output.new ≡ splice output.old 0 (sequence_at position) }
{
    let mut rest = position;
    for at in (0..steps).rev() {
        output[at] = (rest - 1) % STEPS;
        rest = (rest - 1) / STEPS;
    }
}

// Returns the position of a sequence, or its refusal.
pub fn position_of(sequence: &[u32]) -> Result<u32, Refusal>
    ensures { PositionAnswered sequence.now result }
{
    if !is_known(sequence) {
        return Err(Refusal::UnknownSequence);
    }
    Ok(known_position(sequence))
}

// Writes the sequence at a position to the start of the output, and returns its number of steps.
pub fn sequence_at(position: u32, output: &mut [u32]) -> Result<Option<u32>, Refusal>
    ensures { SequenceFound position output.old result output.new }
{
    if position >= SEQUENCES {
        return Err(Refusal::PastTheLast);
    }
    let steps = length_at(position);
    if output.len() < steps {
        return Err(Refusal::TooShort);
    }
    write_sequence(position, steps, output);
    Ok(Some(steps as u32))
}

// ---- the next sequence, as an odometer counts

// The number of steps up to the last one that can be raised. All steps behind it are 6; 0 if all steps are.
fn raised_end(sequence: &[u32]) -> usize
    ensures { RaisedEnd sequence.now result }
{
    match sequence.iter().rposition(|step| *step != LAST_STEP) {
        Some(last) => last + 1,
        None => 0,
    }
}

// The number of steps of the next sequence.
fn raised_length(sequence: &[u32], end: usize) -> usize
    requires { ToRaise sequence.now end }
    ensures { result ≡ length (raised sequence.now end) }
{
    if end == 0 {
        return sequence.len() + 1;
    }
    sequence.len()
}

// A step of the next sequence.
fn raised_step(sequence: &[u32], end: usize, at: usize) -> u32
    requires { ToRaise sequence.now end }
    ensures { result ≡ get_or (raised sequence.now end) at 0 }
{
    if end <= at {
        return 0;
    }
    let step = sequence[at];
    if at + 1 < end {
        return step;
    }
    step + 1
}

// Writes the next sequence to the start of the output. Each step in one pass: copies and fills of so few words are library calls.
fn write_raised(sequence: &[u32], end: usize, steps: usize, output: &mut [u32])
    requires { ToRaise sequence.now end × (steps ≡ length (raised sequence.now end)) × (steps ≤ length output.old) }
    ensures { output.new ≡ splice output.old 0 (raised sequence.now end) }
{
    for at in 0..steps {
        output[at] = raised_step(sequence, end, at);
    }
}

// Writes the sequence after this one to the start of the output, and returns its number of steps; none after the last. From the
// empty sequence on it generates all others.
pub fn next_sequence(sequence: &[u32], output: &mut [u32]) -> Result<Option<u32>, Refusal>
    ensures { NextFound sequence.now output.old result output.new }
{
    if !is_known(sequence) {
        return Err(Refusal::UnknownSequence);
    }
    let end = raised_end(sequence);
    let steps = raised_length(sequence, end);
    if LONGEST < steps {
        return Ok(None);
    }
    if output.len() < steps {
        return Err(Refusal::TooShort);
    }
    write_raised(sequence, end, steps, output);
    Ok(Some(steps as u32))
}
