// Intersects lists of similar length: a linear merge where they have ids in common, and blocks of four ids where they have had none for
// a while.
ghost use Rattle.std.specs.Prelude.{◌≡◌, true, ◌+◌, ◌≤◌, ◌<◌, length};
ghost use Rattle.offsets.specs.inner.Writing.{Wrote};
ghost use Rattle.offsets_intersect.specs.inner.Common.{Fitting, Searchable, common, similar};
ghost use Rattle.offsets_intersect.specs.inner.Blocks.{Lacks, Apart, ApartAt, SkippedTo, MergedTo};

// The number of ids of a block.
const BLOCK: usize = 4;

// After this many consecutive ids that the other list lacks, the merge switches to blocks.
const MAX_MISSES: usize = 16;

// The progress of a merge: positions in both lists, and the number of ids written.
#[derive(Clone, Copy)]
struct MergeCursor {
    i: usize,
    o: usize,
    n: usize,
}

// Whether the id is not in a block.
fn is_none_of(id: u32, others: &[u32]) -> bool
    requires { length others.now ≡ 4 }
    ensures { result ≡ true → Lacks others.now id }
{
    (id != others[0]) & (id != others[1]) & (id != others[2]) & (id != others[3])
}

// Whether two blocks have no id in common. Compares all pairs, without an early return, so that the test compiles to vector code.
fn are_apart(ids: &[u32], others: &[u32]) -> bool
    requires { length others.now ≡ 4 }
    ensures { result ≡ true → Apart ids.now others.now (length ids.now) }
{
    let mut apart = true;
    for id in ids {
        apart = apart & is_none_of(*id, others);
    }
    apart
}

// Whether both lists have a full block from here on, and these blocks have no id in common.
fn are_blocks_apart(ids: &[u32], others: &[u32], i: usize, o: usize) -> bool
    requires { (i ≤ length ids.now) × (o ≤ length others.now) }
    ensures { result ≡ true → ApartAt ids.now others.now i o 4 }
{
    if ids.len() - i < BLOCK {
        return false;
    }
    if others.len() - o < BLOCK {
        return false;
    }
    are_apart(&ids[i..i + BLOCK], &others[o..o + BLOCK])
}

// Skips blocks that have no id in common: of two such blocks, the one that ends first. It has one branch for four ids. With random
// ids a merge spends its time on mispredicted branches.
fn skip_apart(ids: &[u32], others: &[u32], from: MergeCursor) -> MergeCursor
    requires { Searchable ids.now × Searchable others.now × (from.i ≤ length ids.now) × (from.o ≤ length others.now) }
    ensures { SkippedTo ids.now others.now from.i from.o result.i result.o × (result.n ≡ from.n) }
{
    let mut i = from.i;
    let mut o = from.o;
    while are_blocks_apart(ids, others, i, o) {
        if ids[i + BLOCK - 1] < others[o + BLOCK - 1] {
            i += BLOCK;
        } else {
            o += BLOCK;
        }
    }
    MergeCursor { i, o, n: from.n }
}

// The position at which the merge stops if it finds no common id from `i` on.
fn stop_from(i: usize, end: usize) -> usize
    requires { (i < end) × (end ≤ 65536) }
    ensures { (i < result) × (result ≤ end) }
{
    end.min(i + MAX_MISSES)
}

// Merges in step from two positions inside the lists. Stops at the end of a list, or after many consecutive ids that the other list
// lacks.
fn merge_some(ids: &[u32], others: &[u32], output: &mut [u32], from: MergeCursor) -> MergeCursor
    requires { Fitting ids.now output.old × Searchable others.now × (from.i < length ids.now) × (from.o < length others.now) × (from.n ≤ from.i) }
    ensures { MergedTo ids.now others.now output.old output.new from.i from.o from.n result.i result.o result.n × (from.i + from.o < result.i + result.o) }
{
    let mut i = from.i;
    let mut o = from.o;
    let mut n = from.n;
    let mut stop = stop_from(i, ids.len());
    let mut id = ids[i];
    let mut other = others[o];
    loop {
        if other < id {
            o += 1;
            if others.len() <= o {
                return MergeCursor { i, o, n };
            }
            other = others[o];
        } else if id == other {
            output[n] = id;
            n += 1;
            i += 1;
            o += 1;
            if ids.len() <= i {
                return MergeCursor { i, o, n };
            }
            if others.len() <= o {
                return MergeCursor { i, o, n };
            }
            stop = stop_from(i, ids.len());
            id = ids[i];
            other = others[o];
        } else {
            i += 1;
            if stop <= i {
                return MergeCursor { i, o, n };
            }
            id = ids[i];
        }
    }
}

// Writes the ids that the other list has too. Alternates between merging in step and skipping blocks.
pub fn merge_similar(ids: &[u32], others: &[u32], output: &mut [u32]) -> usize
    requires { Fitting ids.now output.old × Searchable others.now × (similar (length ids.now) (length others.now) ≡ true) }
    ensures { Wrote output.old (common ids.now others.now) result output.new }
{
    let mut walk = MergeCursor { i: 0, o: 0, n: 0 };
    while walk.i < ids.len() && walk.o < others.len() {
        let walked = merge_some(ids, others, output, walk);
        walk = skip_apart(ids, others, walked);
    }
    walk.n
}
