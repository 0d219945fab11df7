// Subsets: offsets/mod.rs. A subset is a range or a rising list of ids. This crate checks that a subset is well-formed and computes
// its size and its ends. `offsets_intersect` is the rest of the subset layer. Proofs above this layer use the set laws in specs/Laws.
#![tactic(auto)]

ghost use Rattle.std.specs.Prelude.{◌≡◌, ◌<◌, true, length, get_or};
ghost use Rattle.lists.specs.Lists.{rising};
ghost use Rattle.offsets.specs.Subsets as subsets;
ghost use Rattle.offsets.specs.Subsets.{well_formed, members};
ghost use Rattle.offsets.specs.Answers.{subset_of};
ghost use Rattle.offsets.specs.inner.Rising.{RisesUpTo};
ghost use Rattle.offsets.specs.inner.Writing as ends;

pub mod retain; // retain.rt: the answer of a refinement as it grows
pub mod search; // search.rt: binary search, and search by doubling strides

// A borrowed subset: a range from a start up to an end, or the caller's list of ids.
#[derive(Clone, Copy)]
pub enum Subset<'a> {
    Range(u32, u32),
    List(&'a [u32]),
}

// A borrowed subset as C lends it: whether it is a range, its ends, and the caller's list of ids. A range ignores the list, a list the
// ends.
#[derive(Clone, Copy)]
pub struct SubsetRef<'a> {
    pub dense: bool,
    pub start: u32,
    pub end: u32,
    pub ids: &'a [u32],
}

impl<'a> From<SubsetRef<'a>> for Subset<'a> {
    ghost use Rattle.std.specs.Prelude.{◌≡◌};
    ghost use Rattle.offsets.specs.Answers.{subset_of, lent_subset};

    ghost from_gives = { λ lent subset. subset_of subset ≡ lent_subset lent };

    fn from(lent: SubsetRef<'a>) -> Subset<'a> {
        if lent.dense {
            return Subset::Range(lent.start, lent.end);
        }
        Subset::List(lent.ids)
    }
}

// The ends of a subset. The last id plus one may be 4,294,967,296, so they have 64 bits.
#[derive(Clone, Copy)]
pub struct Ends {
    pub start: u64,
    pub end: u64,
}

// A subset as an answer: a range, or the length of the list at the start of the lent output.
#[derive(Clone, Copy)]
pub enum SubsetForm {
    Range(u32, u32),
    List(u32),
}

const LONGEST_LIST: usize = 65536;

// The number of ids that the test for small steps covers at a time, and half of it. Small enough that the compiler unrolls the loop
// over a block.
const BLOCK: usize = 128;

const HALF: usize = 64;

// The number of ids tested at a time where steps may have any size.
const PART: usize = 8;

// Subtracting the later of two ids from the earlier one, modulo 2^32, gives at least this number if the step is from 1 to 2^24.
const SMALL_STEP: u32 = 0xff00_0000;

// From an id below this, 64 small steps stay below 2^32.
const LOW: u32 = 0x8000_0000;

// Whether the ids of a block and the next id rise strictly by small steps; false is inconclusive. Reads all of them, without an
// early return, so that the test compiles to vector code. Its cost is reads, so the second half keeps each id for the next
// iteration. It compares differences, since vector code lacks a comparison of unsigned numbers.
fn rises_by_small_steps(ids: &[u32]) -> bool
    requires { length ids.now ≡ 129 }
    ensures { result ≡ true → rising ids.now ≡ true }
{
    let mut last = ids[HALF];
    if LOW <= ids[0] {
        return false;
    }
    if LOW <= last {
        return false;
    }
    let mut rises = true;
    for i in 1..HALF + 1 {
        let id = ids[HALF + i];
        let step = ids[i - 1].wrapping_sub(ids[i]);
        let second = last.wrapping_sub(id);
        rises = rises & (SMALL_STEP <= step) & (SMALL_STEP <= second);
        last = id;
    }
    rises
}

// A position up to which the ids rise by small steps. Tests block by block, each block from the last id of the one before.
fn past_small_steps(ids: &[u32]) -> usize
    ensures { RisesUpTo ids.now result }
{
    let mut at = 0;
    // No `chunks`: each block begins with the last id of the one before.
    while BLOCK < ids.len() - at {
        if !rises_by_small_steps(&ids[at..at + BLOCK + 1]) {
            return at;
        }
        at += BLOCK;
    }
    at
}

// The ids rise strictly, by steps of any size.
fn rises_pairwise(ids: &[u32]) -> bool
    ensures { result ≡ rising ids.now }
{
    let mut rises = true;
    for i in 1..ids.len() {
        rises = rises & (ids[i - 1] < ids[i]);
    }
    rises
}

// The same, in parts of a fixed length, for which the loop is straight-line vector code. The last part ends at the last id, and may
// overlap ids that are already tested.
fn rises_by_parts(ids: &[u32]) -> bool
    ensures { result ≡ rising ids.now }
{
    if ids.len() <= PART {
        return rises_pairwise(ids);
    }
    let mut at = 0;
    // No `chunks`: each part begins with the last id of the one before.
    while PART < ids.len() - at {
        if !rises_pairwise(&ids[at..at + PART + 1]) {
            return false;
        }
        at += PART;
    }
    rises_pairwise(&ids[ids.len() - PART - 1..])
}

// The ids rise strictly.
fn is_rising(ids: &[u32]) -> bool
    ensures { result ≡ rising ids.now }
{
    let at = past_small_steps(ids);
    rises_by_parts(&ids[at..])
}

impl<'a> Subset<'a> {
    pub fn is_well_formed(self) -> bool
        ensures { result ≡ well_formed (subset_of self.entry) }
    {
        match self {
            Subset::Range(start, end) => start <= end,
            Subset::List(ids) => ids.len() <= LONGEST_LIST && is_rising(ids),
        }
    }

    // The number of ids; 0 for a malformed range.
    pub fn size(self) -> usize
        ensures { result ≡ subsets.size (subset_of self.entry) }
    {
        match self {
            Subset::Range(start, end) => end.saturating_sub(start) as usize,
            Subset::List(ids) => ids.len(),
        }
    }

    // The id at a place.
    pub fn id_at(self, place: u32) -> u32
        requires { place < subsets.size (subset_of self) }
        ensures { result ≡ get_or (members (subset_of self.entry)) place 0 }
    {
        match self {
            Subset::Range(start, _) => start + place,
            Subset::List(ids) => ids[place as usize],
        }
    }

    // The ends; an empty list has none.
    pub fn bounds(self) -> Option<Ends>
        ensures { result ≡ ends.bounds (subset_of self.entry) }
    {
        match self {
            Subset::Range(start, end) => Some(Ends {
                start: u64::from(start),
                end: u64::from(end),
            }),
            Subset::List(ids) => {
                if ids.is_empty() {
                    return None;
                }
                Some(Ends {
                    start: u64::from(ids[0]),
                    end: u64::from(ids[ids.len() - 1]) + 1,
                })
            }
        }
    }
}
