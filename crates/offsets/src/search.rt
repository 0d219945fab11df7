// Searches in a rising list of ids: offsets/mod.rs. A binary search, and the search by doubling strides that `offsets_intersect`
// makes in the longer of two lists. A list has at most 65,536 ids, so positions and strides have 32 bits.
ghost use Rattle.std.specs.Prelude.{◌≡◌, ◌<◌, ◌≤◌, true, length, MatchResult};
ghost use Rattle.lists.specs.Lists.{rising};
ghost use Rattle.lists.specs.inner.Searching.{first_not_below};
ghost use Rattle.offsets.specs.inner.Search.{Spaced, Bracketed, Searched, SearchedFrom, SearchedPart, ReachedAt, ReachedBetween, ScannedAt, Scanned};

// Binary search: a position such that the number before it is below the target and the number at it is not. The numbers are `width`
// cells apart. Sort entries, which are pairs, use it too.
pub fn binary_search_cells(cells: &[u32], width: usize, start: u32, end: u32, target: u32) -> u32
    requires { Spaced cells.now width end × (start ≤ end) }
    ensures { Bracketed cells.now width start end target result result }
{
    let mut low = start;
    let mut high = end;
    while low < high {
        let mid = low + (high - low) / 2;
        if cells[width * mid as usize] < target {
            low = mid + 1;
        } else {
            high = mid;
        }
    }
    low
}

// The binary search of `binary_search_from` in the part of the list between two positions.
fn binary_search_part(ids: &[u32], start: u32, end: u32, target: u32) -> u32
    requires { (start ≤ end) × (end ≤ length ids.now) }
    ensures { SearchedPart ids.now start end target result }
{
    binary_search_cells(ids, 1, start, end, target)
}

// The first position from `start` on whose id is not below the target. The ids must rise, and those before `start` must be below
// the target.
pub fn binary_search_from(ids: &[u32], start: u32, target: u32) -> u32
    requires { (length ids.now ≤ 65536) × (start ≤ length ids.now) }
    ensures { SearchedFrom ids.now start target result }
{
    let end = ids.len() as u32;
    binary_search_part(ids, start, end, target)
}

// The first position whose id is not below the target.
pub fn binary_search_by_id(ids: &[u32], target: u32) -> u32
    requires { length ids.now ≤ 65536 }
    ensures { Searched ids.now target result }
{
    binary_search_from(ids, 0, target)
}

// Strides from `start`, whose id is below the target. Each stride is twice as long as the one before. Stops at the target, past it,
// or at the end of the list. Returns the position of the target, or two positions between which it is.
fn gallop(ids: &[u32], start: u32, target: u32) -> Result<u32, (u32, u32)>
    requires { (length ids.now ≤ 65536) × (start < length ids.now) × (rising ids.now ≡ true → start < first_not_below target ids.now) }
    ensures { MatchResult result (λ p. ReachedAt ids.now target p) (λ between. ReachedBetween ids.now target between.0 between.1) }
{
    let mut low = start;
    let mut left = ids.len() as u32 - start;
    let mut step = 1;
    while step < left {
        let probe = low + step;
        let id = ids[probe as usize];
        if id == target {
            return Ok(probe);
        }
        if target < id {
            return Err((low + 1, probe));
        }
        low = probe;
        left -= step;
        step *= 2;
    }
    Err((low + 1, low + left))
}

// The position if the target is there, else the position to insert it at.
fn scan_at(ids: &[u32], at: u32, target: u32) -> Result<u32, u32>
    requires { at ≤ length ids.now }
    ensures { ScannedAt ids.now at target result }
{
    if ids.len() <= at as usize {
        return Err(at);
    }
    if ids[at as usize] == target {
        return Ok(at);
    }
    Err(at)
}

// The target's position from `start` on, or the position to insert it at, by doubling strides and a binary search in the last
// stride. The ids must rise, and those before `start` must be below the target.
pub fn scan_for_offset(ids: &[u32], start: u32, target: u32) -> Result<u32, u32>
    requires { length ids.now ≤ 65536 }
    ensures { Scanned ids.now start target result }
{
    if ids.len() <= start as usize {
        return Err(ids.len() as u32);
    }
    let id = ids[start as usize];
    if id == target {
        return Ok(start);
    }
    if target < id {
        return Err(start);
    }
    match gallop(ids, start, target) {
        Ok(p) => Ok(p),
        Err((low, high)) => {
            let p = binary_search_part(ids, low, high, target);
            scan_at(ids, p, target)
        }
    }
}
