// Finds the rows that mention one of a list of values by testing their cells. The values are processed in parts. Each part has a
// local hash table of links, in which a value links to the previous value of its bucket, so that a cell is looked up and not
// compared with all values.
#![tactic(auto)]

ghost use Rattle.std.specs.Prelude.{◌≡◌, true, ◌+◌, ◌≤◌, ◌<◌, ltb, length};
ghost use Rattle.lists.specs.Lists.{all, elem};
ghost use Rattle.plain_table.specs.Refreshing.{mentions};
ghost use Rattle.bitmap.specs.inner.Bitmaps.{Marked};
ghost use Rattle.refresh_spec.specs.Index.{bucket_of};
ghost use Rattle.refresh_spec.specs.inner.Finding.{mentions_from};
ghost use Rattle.refresh_scan.specs.inner.Scanning.{Scannable, mentions_only, Linked};

use row_buffer::row_start;
use table::Header;

// The number of values in a part. Their links are followed by the links of the buckets, four times as many so that most are empty.
const PART: usize = 1024;

const BUCKETS: u32 = 4096;

const LINKS: usize = 5120;

// The place of the link to the last value of a value's bucket.
fn bucket_place(value: u32) -> usize
    ensures { (result ≡ 1024 + bucket_of 4096 value) × (result < 5120) }
{
    PART + refresh_index::bucket_of(BUCKETS, value)
}

// Links the values of a part. A link is a place plus 1, or 0 for none; the link of a value refers to a lower place.
fn link_values(values: &[u32], links: &mut [u32])
    requires { Linked values.now 0 links.old }
    ensures { Linked values.now (length values.now) links.new }
{
    for (place, &value) in values.iter().enumerate() {
        let bucket = bucket_place(value);
        links[place] = links[bucket];
        links[bucket] = place as u32 + 1;
    }
}

// Whether a value is in a part.
fn is_among(values: &[u32], links: &[u32], value: u32) -> bool
    requires { Linked values.now (length values.now) links.now }
    ensures { result ≡ elem value values.now }
{
    let mut link = links[bucket_place(value)] as usize;
    while link != 0 {
        link -= 1;
        if values[link] == value {
            return true;
        }
        link = links[link] as usize;
    }
    false
}

// Whether a row has a value of a part in one of the columns. Not by `any`: with it a scan by two columns takes 1.6 times as long.
fn mentions_one(row: &[u32], columns: &[u32], values: &[u32], links: &[u32]) -> bool
    requires { (all (λ column. ltb column (length row.now)) columns.now ≡ true) × Linked values.now (length values.now) links.now }
    ensures { result ≡ mentions columns.now values.now row.now }
{
    for i in 0..columns.len() {
        let column = columns[i] as usize;
        if is_among(values, links, row[column]) {
            return true;
        }
    }
    false
}

// Sets the bit of a row if it is live and has a value of a part.
fn mark_row(
    h: Header,
    rows: &[u32],
    row: u32,
    columns: &[u32],
    values: &[u32],
    links: &[u32],
    words: &mut [u64],
) -> u32
    requires { Scannable h rows.now row columns.now words.old × (row < h.rows) × Linked values.now (length values.now) links.now }
    ensures { Marked (mentions_only h rows.now columns.now values.now row) (mentions_only h rows.now columns.now values.now row) words.old words.new result }
{
    let width = h.columns as usize;
    let at = row_start(row, h.columns);
    if row_buffer::is_dead(rows, at) {
        return 0;
    }
    if !mentions_one(&rows[at..at + width], columns, values, links) {
        return 0;
    }
    bitmap::mark(words, row)
}

// Sets the bits of the rows from this one on that have a value of a part.
fn mark_rows(
    h: Header,
    rows: &[u32],
    from: u32,
    columns: &[u32],
    values: &[u32],
    links: &[u32],
    words: &mut [u64],
) -> u32
    requires { Scannable h rows.now from columns.now words.old × Linked values.now (length values.now) links.now }
    ensures { Marked (mentions_from h rows.now columns.now values.now from) (mentions_from h rows.now columns.now values.now from) words.old words.new result }
{
    let mut marked: u32 = 0;
    for row in from..h.rows {
        marked += mark_row(h, rows, row, columns, values, links, words);
    }
    marked
}

// The same for a part that is not linked yet.
fn mark_part(
    h: Header,
    rows: &[u32],
    from: u32,
    columns: &[u32],
    values: &[u32],
    words: &mut [u64],
) -> u32
    requires { Scannable h rows.now from columns.now words.old × (length values.now ≤ 1024) }
    ensures { Marked (mentions_from h rows.now columns.now values.now from) (mentions_from h rows.now columns.now values.now from) words.old words.new result }
{
    let mut links = [0u32; LINKS];
    link_values(values, &mut links);
    mark_rows(h, rows, from, columns, values, &links, words)
}

// Sets the bits of the live rows from this one on that have one of the values in one of the columns. Returns how many were not set
// before.
pub fn mark_unlisted(
    h: Header,
    rows: &[u32],
    from: u32,
    columns: &[u32],
    values: &[u32],
    words: &mut [u64],
) -> u32
    requires { Scannable h rows.now from columns.now words.old }
    ensures { Marked (mentions_from h rows.now columns.now values.now from) (mentions_from h rows.now columns.now values.now from) words.old words.new result }
{
    if from == h.rows {
        return 0;
    }
    let mut marked: u32 = 0;
    for part in values.chunks(PART) {
        marked += mark_part(h, rows, from, columns, part, words);
    }
    marked
}
