// Lists of calls and of queries, for C (`abi_replay_c`): the two of the order's term 3, an opening with a list of calls and a list of
// queries; and all short histories.
#![tactic(auto)]

ghost use Rattle.std.specs.Prelude.{◌≡◌, min, get_or};
ghost use Rattle.replay_queries.specs.Encoding.{query_of};
ghost use Rattle.replay_frames.specs.Frames.{framed};
ghost use Rattle.replay.specs.Encoding.{request_of};
ghost use Rattle.plain_table.specs.Staged.{opening_in};
ghost use Rattle.refusals.specs.Refusals.{accepted};
ghost use Rattle.refusals.specs.Refusals.{answer_view, found_view};
ghost use Rattle.table.specs.Outcomes.{body, compaction_words};
ghost use Rattle.replay.specs.Replays.{Replayed};
ghost use Rattle.replay_queries.specs.RunQueries.{RunMade};
ghost use Rattle.abi.specs.Encoding.{decode_header, subset_in, decode_subset, encode_header, Stored, Answers, encode_number, encode_option};
ghost use Rattle.abi_replay.specs.Encoding.{encode_run, encode_step, step_words};
ghost use Rattle.short_histories.specs.Sequences.{StepAnswered, PositionAnswered, SequenceFound, NextFound};

use abi::{decode_header, decode_subset, encode_header, encode_option, places, store};
use refusals::ACCEPTED;
use replay_queries::RunAnswer;
use short_histories::Step;

// The largest count of queries that fits a word; a larger count is stored as this one.
const MOST_TAKEN: u32 = 4294967295;

// Opens a table and makes the calls in order, including refreshes over the index store. The opening is six words: columns, keys,
// sort, rule, capacity, generation.
pub fn mouldgrey_replay(
    opening: &[u32; 6],
    header: &mut [u32; 12],
    calls: &[u32],
    rows: &mut [u32],
    keys: &mut [u32],
    sorts: &mut [u32],
    pending: &mut [u32],
    live: &mut [u64],
    base: &mut [u32],
    index: &mut [u32],
) -> u32
    ensures { Answers (λ answer. Replayed (opening_in opening.now) (get_or opening.now 5 0) (framed request_of calls.now) (body rows.old keys.old sorts.old) pending.old (compaction_words live.old base.old) index.old answer (body rows.new keys.new sorts.new) pending.new (compaction_words live.new base.new) index.new) answer_view encode_header header.old result header.new }
{
    let answer = replay::replay(
        opening[places::COLUMNS],
        opening[places::KEYS],
        opening[places::SORT],
        opening[places::RULE],
        opening[places::CAPACITY],
        opening[places::OPENING_GENERATION],
        calls,
        rows,
        keys,
        sorts,
        pending,
        live,
        base,
        index,
    );
    store(answer, header, encode_header)
}

// The number of queries taken, as a word.
fn count_word(n: usize) -> u32
    ensures { result ≡ min n 4294967295 }
{
    if n > MOST_TAKEN as usize {
        return MOST_TAKEN;
    }
    n as u32
}

fn store_run(l: RunAnswer, words: &mut [u32; 7]) -> u32
    ensures { Stored accepted encode_run l words.old result words.new }
{
    *words = [
        u32::from(l.dense),
        l.start,
        l.end,
        l.count,
        l.place,
        u32::from(l.refined),
        count_word(l.taken),
    ];
    ACCEPTED
}

// Runs the queries in order, each on the ids that the last accepted one left. The answer is seven words: dense, start, end, count,
// place, refined, taken.
pub fn mouldgrey_run_queries(
    header: &[u32; 12],
    rows: &[u32],
    sorts: &[u32],
    subset: &[u32; 3],
    ids: &[u32],
    queries: &[u32],
    first: &mut [u32],
    second: &mut [u32],
    answer: &mut [u32; 7],
) -> u32
    ensures { Answers (λ a. RunMade (decode_header header.now) rows.now sorts.now (subset_in (decode_subset subset.now) ids.now) ids.now (framed query_of queries.now) first.old second.old a first.new second.new) accepted encode_run answer.old result answer.new }
{
    let h = decode_header(header);
    let start = decode_subset(subset, ids);
    let run = replay_queries::run::run_queries(h, rows, sorts, start, queries, first, second);
    store_run(run, answer)
}

// Kinds of steps.
const INSERT: u32 = 0;

const REMOVE: u32 = 1;

const MERGE: u32 = 2;

fn encode_step(step: Step) -> [u32; 4]
    ensures { result ≡ encode_step step }
{
    match step {
        Step::Insert { key, stamp, third } => [INSERT, key, stamp, third],
        Step::Remove { key } => [REMOVE, key, 0, 0],
        Step::Merge => [MERGE, 0, 0, 0],
    }
}

fn encode_position(position: u32) -> [u32; 1]
    ensures { result ≡ encode_number position }
{
    [position]
}

// The call of a step, in four words: 0, key, stamp, third cell; 1, key, 0, 0; 2, 0, 0, 0.
pub fn mouldgrey_step_at(step: u32, answer: &mut [u32; 4]) -> u32
    ensures { Answers (StepAnswered step) step_words (λ words. words) answer.old result answer.new }
{
    store(short_histories::step_at(step), answer, encode_step)
}

pub fn mouldgrey_position_of(sequence: &[u32], position: &mut [u32; 1]) -> u32
    ensures { Answers (PositionAnswered sequence.now) answer_view encode_number position.old result position.new }
{
    let found = short_histories::position_of(sequence);
    store(found, position, encode_position)
}

// The answer is two words: found, length.
pub fn mouldgrey_sequence_at(position: u32, output: &mut [u32], answer: &mut [u32; 2]) -> u32
    ensures { Answers (λ a. SequenceFound position output.old a output.new) found_view encode_option answer.old result answer.new }
{
    let found = short_histories::sequence_at(position, output);
    store(found, answer, encode_option)
}

// The answer is two words: found, length; 0 and 0 after the last sequence.
pub fn mouldgrey_next_sequence(sequence: &[u32], output: &mut [u32], answer: &mut [u32; 2]) -> u32
    ensures { Answers (λ a. NextFound sequence.now output.old a output.new) found_view encode_option answer.old result answer.new }
{
    let next = short_histories::next_sequence(sequence, output);
    store(next, answer, encode_option)
}
