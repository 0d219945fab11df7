// The functions of `abi_table`, exported to C. A slice is passed as a pointer and a length, a fixed array as a pointer alone.
#![tactic(auto)]

ghost use Rattle.std.specs.Prelude.{◌≡◌, get_or};
ghost use Rattle.plain_table.specs.Staged.{insert, remove_key, remove_row, opening_in};
ghost use Rattle.refusals.specs.Refusals.{answer_view};
ghost use Rattle.table.specs.Outcomes.{stores, body, compaction_words, Opened, Staging, Merging, Compacting, Clearing, Checked};
ghost use Rattle.abi.specs.Encoding.{decode_header, encode_header, encode_merge, encode_bool, Answers, AnswersWithHeader};
ghost use Rattle.abi_table.specs.Version.{library_version};

#[unsafe(no_mangle)]
pub extern "C" fn mouldgrey_library_version() -> u32
    ensures { result ≡ library_version }
{
    abi_table::mouldgrey_library_version()
}

// The opening is six words: columns, keys, sort, rule, capacity, generation.
#[unsafe(no_mangle)]
pub extern "C" fn mouldgrey_open_table(
    opening: &[u32; 6],
    header: &mut [u32; 12],
    rows: &[u32],
    keys: &mut [u32],
    sorts: &[u32],
    pending: &[u32],
) -> u32
    ensures { Answers (λ answer. Opened (opening_in opening.now) (get_or opening.now 5 0) (body rows.now keys.old sorts.now) pending.now answer keys.new) answer_view encode_header header.old result header.new }
{
    abi_table::mouldgrey_open_table(opening, header, rows, keys, sorts, pending)
}

#[unsafe(no_mangle)]
pub extern "C" fn mouldgrey_stage_insert(
    header: &mut [u32; 12],
    pending: &mut [u32],
    cells: &[u32],
) -> u32
    ensures { Answers (λ answer. Staging (decode_header header.old) pending.old (insert cells.now) answer pending.new) answer_view encode_header header.old result header.new }
{
    abi_table::mouldgrey_stage_insert(header, pending, cells)
}

#[unsafe(no_mangle)]
pub extern "C" fn mouldgrey_stage_remove(
    header: &mut [u32; 12],
    pending: &mut [u32],
    key: &[u32],
) -> u32
    ensures { Answers (λ answer. Staging (decode_header header.old) pending.old (remove_key key.now) answer pending.new) answer_view encode_header header.old result header.new }
{
    abi_table::mouldgrey_stage_remove(header, pending, key)
}

#[unsafe(no_mangle)]
pub extern "C" fn mouldgrey_stage_remove_row(
    header: &mut [u32; 12],
    pending: &mut [u32],
    row: u32,
    key: &[u32],
) -> u32
    ensures { Answers (λ answer. Staging (decode_header header.old) pending.old (remove_row row key.now) answer pending.new) answer_view encode_header header.old result header.new }
{
    abi_table::mouldgrey_stage_remove_row(header, pending, row, key)
}

// The answer is five words: status, place, added, kept, dropped.
#[unsafe(no_mangle)]
pub extern "C" fn mouldgrey_merge(
    header: &mut [u32; 12],
    rows: &mut [u32],
    keys: &mut [u32],
    sorts: &mut [u32],
    pending: &[u32],
    live: &mut [u64],
    base: &mut [u32],
    merged: &mut [u32; 5],
) -> u32
    ensures { AnswersWithHeader (λ answer. Merging (stores (decode_header header.old) rows.old keys.old sorts.old pending.now) (compaction_words live.old base.old) answer (body rows.new keys.new sorts.new) (compaction_words live.new base.new)) answer_view (λ m. m.header) encode_merge header.old merged.old result header.new merged.new }
{
    abi_table::mouldgrey_merge(header, rows, keys, sorts, pending, live, base, merged)
}

#[unsafe(no_mangle)]
pub extern "C" fn mouldgrey_compact(
    header: &mut [u32; 12],
    rows: &mut [u32],
    keys: &mut [u32],
    sorts: &mut [u32],
    live: &mut [u64],
    base: &mut [u32],
) -> u32
    ensures { Answers (λ answer. Compacting (decode_header header.old) (body rows.old keys.old sorts.old) (compaction_words live.old base.old) answer (body rows.new keys.new sorts.new) (compaction_words live.new base.new)) answer_view encode_header header.old result header.new }
{
    abi_table::mouldgrey_compact(header, rows, keys, sorts, live, base)
}

#[unsafe(no_mangle)]
pub extern "C" fn mouldgrey_clear(header: &mut [u32; 12], keys: &mut [u32]) -> u32
    ensures { Answers (λ answer. Clearing (decode_header header.old) keys.old answer keys.new) answer_view encode_header header.old result header.new }
{
    abi_table::mouldgrey_clear(header, keys)
}

// The answer is one word: 1 for sound stores.
#[unsafe(no_mangle)]
pub extern "C" fn mouldgrey_is_sound(
    header: &[u32; 12],
    rows: &[u32],
    keys: &[u32],
    sorts: &[u32],
    pending: &[u32],
    sound: &mut [u32; 1],
) -> u32
    ensures { Answers (λ answer. Checked (decode_header header.now) rows.now keys.now sorts.now pending.now answer) answer_view encode_bool sound.old result sound.new }
{
    abi_table::mouldgrey_is_sound(header, rows, keys, sorts, pending, sound)
}
