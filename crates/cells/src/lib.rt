// Cells, the dead mark and the hash of a key: common.rs, and `CompactHash`, `ProbeHash` and `shard_hash` of
// table/mod.rs. Each contract cites its definition in specs/Cells.antt.
#![tactic(auto)]

ghost use Rattle.std.specs.Prelude.{◌≡◌};
ghost use Rattle.cells.specs.Cells.{is_dead, compact_hash, probed, mixed, key_hash};

// The dead mark. A row whose first cell is this number is dead. In any other column it is an ordinary number.
pub const STALE: u32 = 0xffff_ffff;

pub fn is_stale(first: u32) -> bool
    ensures { result ≡ is_dead first }
{
    first == STALE
}

// The compact hash has the top `H2_BITS` bits of the hash above its low bits.
const H2_BITS: u32 = 7;

const H2_MASK: u64 = 0x7f;

const H2_SHIFT: u32 = 64 - H2_BITS;

const LOW_BITS: u32 = 32 - H2_BITS;

const LOW_MASK: u64 = 0x1ff_ffff;

// The compact hash of a 64-bit hash.
pub fn from_full(full: u64) -> u32
    ensures { result ≡ compact_hash full }
{
    let low = full & LOW_MASK;
    let h2 = (full >> H2_SHIFT) & H2_MASK;
    (low | (h2 << LOW_BITS)) as u32
}

// A 64-bit hash that compacts to `hash`.
pub fn probe(hash: u32) -> u64
    ensures { result ≡ probed hash }
{
    let low = hash as u64;
    let h2 = low >> LOW_BITS;
    low | (h2 << H2_SHIFT)
}

// Adds one cell to the hash.
fn mix(hash: u32, cell: u32) -> u32
    ensures { result ≡ mixed hash cell }
{
    let sum = (hash as u64 + cell as u64 + 0x9e37_79b1) % 0x1_0000_0000;
    let turned = sum % 0x1_0000 * 0x1_0000 + sum / 0x1_0000;
    let product = sum * turned;
    ((product / 0x8000_0000 + product % 0x1_0000_0000) % 0x1_0000_0000) as u32
}

// The 64-bit hash of a key.
pub fn key_hash(key: &[u32]) -> u64
    ensures { result ≡ key_hash key.now }
{
    let hash = key.iter().fold(0, |hash, cell| mix(hash, *cell));
    hash as u64 * 0x1_0000_0001
}

// The compact hash of a key.
pub fn compact_hash(key: &[u32]) -> u32
    ensures { result ≡ compact_hash (key_hash key.now) }
{
    from_full(key_hash(key))
}
