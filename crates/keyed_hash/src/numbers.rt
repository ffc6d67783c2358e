//! Numbers out of bytes, and the product that mixes two of them.
ghost use Rattle.keyed_hash.specs.Hasher as keyed;
ghost use Rattle.std.specs.Prelude.{◌≡◌, ◌+◌, ◌≤◌, length};

/// The two halves of the 128 bits of the product, joined by exclusive or.
#[inline(always)]
pub(crate) fn folded_product(a: u64, b: u64) -> u64
    ensures { result ≡ keyed.folded_product a b }
{
    let product = a as u128 * b as u128;
    (product & 0xFFFF_FFFF_FFFF_FFFF) as u64 ^ (product >> 64) as u64
}

/// The four bytes from there on as a number, the lowest first.
#[inline(always)]
fn four_bytes(bytes: &[u8], at: usize) -> u64
    requires { at + 4 ≤ length bytes.now }
    ensures { result ≡ keyed.four_bytes bytes.now at }
{
    u32::from_le_bytes([bytes[at], bytes[at + 1], bytes[at + 2], bytes[at + 3]]) as u64
}

/// The eight bytes from there on as a number, the lowest first.
#[inline(always)]
pub(crate) fn eight_bytes(bytes: &[u8], at: usize) -> u64
    requires { at + 8 ≤ length bytes.now }
    ensures { result ≡ keyed.eight_bytes bytes.now at }
{
    u64::from_le_bytes([
        bytes[at],
        bytes[at + 1],
        bytes[at + 2],
        bytes[at + 3],
        bytes[at + 4],
        bytes[at + 5],
        bytes[at + 6],
        bytes[at + 7],
    ])
}

/// Up to eight bytes as one number, read in parts that may overlap.
#[inline(always)]
pub(crate) fn few_bytes(bytes: &[u8]) -> u64
    ensures { result ≡ keyed.few_bytes bytes.now }
{
    let len = bytes.len();
    if len >= 4 {
        four_bytes(bytes, 0) | four_bytes(bytes, len - 4) << 32
    } else if len > 0 {
        bytes[0] as u64 | (bytes[len / 2] as u64) << 8 | (bytes[len - 1] as u64) << 16
    } else {
        0
    }
}
