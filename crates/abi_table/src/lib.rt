// The calls that change a table, and the soundness check, for C (`abi_table_c`).
#![tactic(auto)]

ghost use Rattle.std.specs.Prelude.{◌≡◌, get_or};
ghost use Rattle.plain_table.specs.Staged.{insert, remove_key, remove_row, opening_in};
ghost use Rattle.refusals.specs.Refusals.{answer_view};
ghost use Rattle.table.specs.Outcomes.{stores, body, compaction_words, Opened, Staging, Merging, Compacting, Clearing, Checked};
ghost use Rattle.abi.specs.Encoding.{decode_header, encode_header, encode_merge, encode_bool, Answers, AnswersWithHeader};
ghost use Rattle.abi_table.specs.Version.{library_version};

use abi::{decode_header, encode_bool, encode_header, encode_merge, places, store};

const MOULDGREY_VERSION: u32 = 1000;

pub fn mouldgrey_library_version() -> u32
    ensures { result ≡ library_version }
{
    MOULDGREY_VERSION
}

// The opening is six words: columns, keys, sort, rule, capacity, generation.
pub fn mouldgrey_open_table(
    opening: &[u32; 6],
    header: &mut [u32; 12],
    rows: &[u32],
    keys: &mut [u32],
    sorts: &[u32],
    pending: &[u32],
) -> u32
    ensures { Answers (λ answer. Opened (opening_in opening.now) (get_or opening.now 5 0) (body rows.now keys.old sorts.now) pending.now answer keys.new) answer_view encode_header header.old result header.new }
{
    let answer = table_open::open_table(
        opening[places::COLUMNS],
        opening[places::KEYS],
        opening[places::SORT],
        opening[places::RULE],
        opening[places::CAPACITY],
        opening[places::OPENING_GENERATION],
        rows,
        keys,
        sorts,
        pending,
    );
    store(answer, header, encode_header)
}

pub fn mouldgrey_stage_insert(header: &mut [u32; 12], pending: &mut [u32], cells: &[u32]) -> u32
    ensures { Answers (λ answer. Staging (decode_header header.old) pending.old (insert cells.now) answer pending.new) answer_view encode_header header.old result header.new }
{
    let answer = table_stage::stage_insert(decode_header(header), pending, cells);
    store(answer, header, encode_header)
}

pub fn mouldgrey_stage_remove(header: &mut [u32; 12], pending: &mut [u32], key: &[u32]) -> u32
    ensures { Answers (λ answer. Staging (decode_header header.old) pending.old (remove_key key.now) answer pending.new) answer_view encode_header header.old result header.new }
{
    let answer = table_stage::stage_remove(decode_header(header), pending, key);
    store(answer, header, encode_header)
}

pub fn mouldgrey_stage_remove_row(
    header: &mut [u32; 12],
    pending: &mut [u32],
    row: u32,
    key: &[u32],
) -> u32
    ensures { Answers (λ answer. Staging (decode_header header.old) pending.old (remove_row row key.now) answer pending.new) answer_view encode_header header.old result header.new }
{
    let answer = table_stage::stage_remove_row(decode_header(header), pending, row, key);
    store(answer, header, encode_header)
}

// The answer is five words: status, place, added, kept, dropped.
pub fn mouldgrey_merge(
    header: &mut [u32; 12],
    rows: &mut [u32],
    keys: &mut [u32],
    sorts: &mut [u32],
    pending: &[u32],
    live: &mut [u64],
    base: &mut [u32],
    merged: &mut [u32; 5],
) -> u32
    ensures { AnswersWithHeader (λ answer. Merging (stores (decode_header header.old) rows.old keys.old sorts.old pending.now) (compaction_words live.old base.old) answer (body rows.new keys.new sorts.new) (compaction_words live.new base.new)) answer_view (λ m. m.header) encode_merge header.old merged.old result header.new merged.new }
{
    let h = decode_header(header);
    let answer = merge::merge(h, rows, keys, sorts, pending, live, base);
    store(answer.map(|m| m.header), header, encode_header);
    store(answer, merged, encode_merge)
}

pub fn mouldgrey_compact(
    header: &mut [u32; 12],
    rows: &mut [u32],
    keys: &mut [u32],
    sorts: &mut [u32],
    live: &mut [u64],
    base: &mut [u32],
) -> u32
    ensures { Answers (λ answer. Compacting (decode_header header.old) (body rows.old keys.old sorts.old) (compaction_words live.old base.old) answer (body rows.new keys.new sorts.new) (compaction_words live.new base.new)) answer_view encode_header header.old result header.new }
{
    let answer = table_compact::compact(decode_header(header), rows, keys, sorts, live, base);
    store(answer, header, encode_header)
}

pub fn mouldgrey_clear(header: &mut [u32; 12], keys: &mut [u32]) -> u32
    ensures { Answers (λ answer. Clearing (decode_header header.old) keys.old answer keys.new) answer_view encode_header header.old result header.new }
{
    let answer = table_open::clear(decode_header(header), keys);
    store(answer, header, encode_header)
}

// The answer is one word: 1 for sound stores.
pub fn mouldgrey_is_sound(
    header: &[u32; 12],
    rows: &[u32],
    keys: &[u32],
    sorts: &[u32],
    pending: &[u32],
    sound: &mut [u32; 1],
) -> u32
    ensures { Answers (λ answer. Checked (decode_header header.now) rows.now keys.now sorts.now pending.now answer) answer_view encode_bool sound.old result sound.new }
{
    let answer = table_check::is_sound(decode_header(header), rows, keys, sorts, pending);
    store(answer, sound, encode_bool)
}
