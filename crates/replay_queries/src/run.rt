// Lists of queries, decoded from words and run one after another on the ids left: the claim about runs holds for running code.
ghost use Rattle.std.specs.Prelude.{◌≡◌, ◌<◌, length};
ghost use Rattle.replay_frames.specs.Frames.{framed};
ghost use Rattle.offsets.specs.Answers.{subset_of, lent_subset};
ghost use Rattle.replay_queries.specs.Encoding.{query_of};
ghost use Rattle.replay_queries.specs.Outcomes.{left_in};
ghost use Rattle.replay_queries.specs.RunQueries.{RunMade};
ghost use Rattle.replay_queries.specs.inner.Executing.{Inside};
ghost use Rattle.replay_queries.specs.inner.Running.{QueriesExecuted, QueryExecuted};

use super::{FIRST_LIST, RunAnswer, SECOND_LIST, STARTING_LIST, execute};
use offsets::{Subset, SubsetRef};
use replay_frames::{Frame, Frames};
use table::Header;

// The ids left, if they are a list these.
fn subset_left<'a>(l: RunAnswer, ids: &'a [u32]) -> Subset<'a>
    ensures { subset_of result ≡ left_in l ids.now }
{
    if l.dense {
        return Subset::Range(l.start, l.end);
    }
    Subset::List(ids)
}

// Runs one query on the ids left. Its output goes to the lent list that does not have them.
fn execute_query(
    h: Header,
    rows: &[u32],
    sorts: &[u32],
    frame: Frame<'_>,
    l: RunAnswer,
    ids: &[u32],
    first: &mut [u32],
    second: &mut [u32],
) -> RunAnswer
    requires { Inside l (length first.old) × (length second.old ≡ length first.old) × (l.taken < 18446744073709551615) }
    ensures { QueryExecuted h rows.now sorts.now ids.now (query_of frame.entry.kind frame.entry.words.now) l first.old second.old result first.new second.new }
{
    let count = l.count as usize;
    if l.place == FIRST_LIST {
        return execute(
            h,
            rows,
            sorts,
            frame,
            l,
            subset_left(l, &first[..count]),
            SECOND_LIST,
            second,
        );
    }
    if l.place == SECOND_LIST {
        return execute(
            h,
            rows,
            sorts,
            frame,
            l,
            subset_left(l, &second[..count]),
            FIRST_LIST,
            first,
        );
    }
    execute(
        h,
        rows,
        sorts,
        frame,
        l,
        subset_left(l, ids),
        FIRST_LIST,
        first,
    )
}

// Runs all queries, in order, each on the ids that the last accepted one left, in two lists of one length.
fn run_queries_within(
    h: Header,
    rows: &[u32],
    sorts: &[u32],
    l: RunAnswer,
    ids: &[u32],
    queries: &[u32],
    first: &mut [u32],
    second: &mut [u32],
) -> RunAnswer
    requires { (l.count ≡ 0) × (l.place ≡ 0) × (l.taken ≡ 0) × (length second.old ≡ length first.old) }
    ensures { QueriesExecuted h rows.now sorts.now ids.now (framed query_of queries.now) l first.old second.old result first.new second.new }
{
    let mut n = l;
    for frame in Frames(queries) {
        n = execute_query(h, rows, sorts, frame, n, ids, first, second);
    }
    n
}

// Runs all queries. Both lists are used up to the length of the shorter, so it does not matter which one is lent first.
pub fn run_queries(
    h: Header,
    rows: &[u32],
    sorts: &[u32],
    lent: SubsetRef,
    queries: &[u32],
    first: &mut [u32],
    second: &mut [u32],
) -> RunAnswer
    ensures { RunMade h rows.now sorts.now (lent_subset lent.entry) lent.entry.ids.now (framed query_of queries.now) first.old second.old result first.new second.new }
{
    let l = RunAnswer {
        dense: lent.dense,
        start: lent.start,
        end: lent.end,
        count: 0,
        place: STARTING_LIST,
        refined: false,
        taken: 0,
    };
    let room = first.len().min(second.len());
    run_queries_within(
        h,
        rows,
        sorts,
        l,
        lent.ids,
        queries,
        &mut first[..room],
        &mut second[..room],
    )
}
