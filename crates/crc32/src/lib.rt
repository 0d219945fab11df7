// The CRC-32 of zlib, gzip and PNG. Each contract cites its definition in specs/Crc.antt.
//
// Slicing by 8: each iteration takes two words and reads each of eight tables once. The tables are one array, which each call
// of `crc_words` copies to its stack (8 KiB).
#![tactic(auto)]

ghost use Rattle.std.specs.Prelude.{◌≡◌, ◌+◌, ◌*◌, ◌%◌, ◌≤◌, ◌<◌};
ghost use mathlib.Core.List.{foldl};
ghost use Rattle.crc32.specs.Crc.{bit_steps, byte_step, crc32, word_bytes, bytes_of};
ghost use Rattle.crc32.specs.inner.Tables.{Tables};

mod tables;

use tables::{ENTRIES, TABLES};

const ALL_ONES: u32 = 0xffff_ffff;

// A word divided by one of these has its byte 1, 2 or 3 lowest.
const BYTE: u32 = 0x100;

const TWO_BYTES: u32 = 0x1_0000;

const THREE_BYTES: u32 = 0x100_0000;

const TABLE_LENGTH: usize = 256;

// How many tables four bytes take.
const WORD_TABLES: usize = 4;

// The low byte of `number` after 8 * (table + 1) steps of one bit.
fn entry(tables: &[u32; ENTRIES], table: usize, number: u32) -> u32
    requires { Tables tables.now × (table < 8) }
    ensures { result ≡ bit_steps ((table + 1) * 8) (number % 256) }
{
    tables[table * TABLE_LENGTH + (number % BYTE) as usize]
}

// `word` after 8 * (table + 4) steps of one bit. A byte reads a table lower for each byte below it.
fn four_bytes(tables: &[u32; ENTRIES], table: usize, word: u32) -> u32
    requires { Tables tables.now × (table ≤ 4) }
    ensures { result ≡ bit_steps ((table + 4) * 8) word }
{
    let first = entry(tables, table + 3, word);
    let second = entry(tables, table + 2, word / BYTE);
    let third = entry(tables, table + 1, word / TWO_BYTES);
    let fourth = entry(tables, table, word / THREE_BYTES);
    first ^ second ^ third ^ fourth
}

// The register after a word.
fn after_word(tables: &[u32; ENTRIES], register: u32, word: u32) -> u32
    requires { Tables tables.now }
    ensures { result ≡ foldl byte_step register (word_bytes word) }
{
    four_bytes(tables, 0, register ^ word)
}

// The register after two words.
fn after_two(tables: &[u32; ENTRIES], register: u32, first: u32, second: u32) -> u32
    requires { Tables tables.now }
    ensures { result ≡ foldl byte_step (foldl byte_step register (word_bytes first)) (word_bytes second) }
{
    four_bytes(tables, WORD_TABLES, register ^ first) ^ four_bytes(tables, 0, second)
}

// The register after words.
fn after_words(tables: &[u32; ENTRIES], words: &[u32]) -> u32
    requires { Tables tables.now }
    ensures { result ≡ foldl byte_step 4294967295 (bytes_of words.now) }
{
    let (pairs, last) = words.as_chunks::<2>();
    let mut register = ALL_ONES;
    for pair in pairs {
        register = after_two(tables, register, pair[0], pair[1]);
    }
    for word in last {
        register = after_word(tables, register, *word);
    }
    register
}

// The CRC-32 of the bytes of words, each lowest byte first.
pub fn crc_words(words: &[u32]) -> u32
    ensures { result ≡ crc32 (bytes_of words.now) }
{
    let tables = TABLES;
    after_words(&tables, words) ^ ALL_ONES
}
