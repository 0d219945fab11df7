// The functions of `abi_replay`, exported to C. A slice is passed as a pointer and a length, a fixed array as a pointer alone.
#![tactic(auto)]

ghost use Rattle.std.specs.Prelude.{get_or};
ghost use Rattle.replay_queries.specs.Encoding.{query_of};
ghost use Rattle.replay_frames.specs.Frames.{framed};
ghost use Rattle.replay.specs.Encoding.{request_of};
ghost use Rattle.plain_table.specs.Staged.{opening_in};
ghost use Rattle.refusals.specs.Refusals.{accepted};
ghost use Rattle.refusals.specs.Refusals.{answer_view, found_view};
ghost use Rattle.table.specs.Outcomes.{body, compaction_words};
ghost use Rattle.replay.specs.Replays.{Replayed};
ghost use Rattle.replay_queries.specs.RunQueries.{RunMade};
ghost use Rattle.abi.specs.Encoding.{decode_header, subset_in, decode_subset, encode_header, Answers, encode_number, encode_option};
ghost use Rattle.abi_replay.specs.Encoding.{encode_run, step_words};
ghost use Rattle.short_histories.specs.Sequences.{StepAnswered, PositionAnswered, SequenceFound, NextFound};

// Opens a table and makes the calls in order, including refreshes over the index store. The opening is six words: columns, keys,
// sort, rule, capacity, generation.
#[unsafe(no_mangle)]
pub extern "C" fn mouldgrey_replay(
    opening: &[u32; 6],
    header: &mut [u32; 12],
    calls: &[u32],
    rows: &mut [u32],
    keys: &mut [u32],
    sorts: &mut [u32],
    pending: &mut [u32],
    live: &mut [u64],
    base: &mut [u32],
    index: &mut [u32],
) -> u32
    ensures { Answers (λ answer. Replayed (opening_in opening.now) (get_or opening.now 5 0) (framed request_of calls.now) (body rows.old keys.old sorts.old) pending.old (compaction_words live.old base.old) index.old answer (body rows.new keys.new sorts.new) pending.new (compaction_words live.new base.new) index.new) answer_view encode_header header.old result header.new }
{
    abi_replay::mouldgrey_replay(
        opening, header, calls, rows, keys, sorts, pending, live, base, index,
    )
}

// Runs the queries in order, each on the ids that the last accepted one left. The answer is seven words: dense, start, end, count,
// place, refined, taken.
#[unsafe(no_mangle)]
pub extern "C" fn mouldgrey_run_queries(
    header: &[u32; 12],
    rows: &[u32],
    sorts: &[u32],
    subset: &[u32; 3],
    ids: &[u32],
    queries: &[u32],
    first: &mut [u32],
    second: &mut [u32],
    answer: &mut [u32; 7],
) -> u32
    ensures { Answers (λ a. RunMade (decode_header header.now) rows.now sorts.now (subset_in (decode_subset subset.now) ids.now) ids.now (framed query_of queries.now) first.old second.old a first.new second.new) accepted encode_run answer.old result answer.new }
{
    abi_replay::mouldgrey_run_queries(
        header, rows, sorts, subset, ids, queries, first, second, answer,
    )
}

// The call of a step, in four words: 0, key, stamp, third cell; 1, key, 0, 0; 2, 0, 0, 0.
#[unsafe(no_mangle)]
pub extern "C" fn mouldgrey_step_at(step: u32, answer: &mut [u32; 4]) -> u32
    ensures { Answers (StepAnswered step) step_words (λ words. words) answer.old result answer.new }
{
    abi_replay::mouldgrey_step_at(step, answer)
}

#[unsafe(no_mangle)]
pub extern "C" fn mouldgrey_position_of(sequence: &[u32], position: &mut [u32; 1]) -> u32
    ensures { Answers (PositionAnswered sequence.now) answer_view encode_number position.old result position.new }
{
    abi_replay::mouldgrey_position_of(sequence, position)
}

// The answer is two words: found, length.
#[unsafe(no_mangle)]
pub extern "C" fn mouldgrey_sequence_at(
    position: u32,
    output: &mut [u32],
    answer: &mut [u32; 2],
) -> u32
    ensures { Answers (λ a. SequenceFound position output.old a output.new) found_view encode_option answer.old result answer.new }
{
    abi_replay::mouldgrey_sequence_at(position, output, answer)
}

// The answer is two words: found, length; 0 and 0 after the last sequence.
#[unsafe(no_mangle)]
pub extern "C" fn mouldgrey_next_sequence(
    sequence: &[u32],
    output: &mut [u32],
    answer: &mut [u32; 2],
) -> u32
    ensures { Answers (λ a. NextFound sequence.now output.old a output.new) found_view encode_option answer.old result answer.new }
{
    abi_replay::mouldgrey_next_sequence(sequence, output, answer)
}
