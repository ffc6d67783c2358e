//! Hashes of short texts, whose bytes are written as numbers by hand.

use keyed_hash::KeyedState;
use std::hash::{BuildHasher, Hasher, RandomState};
use std::test::Fail;

/// What a hasher of that state makes of the bytes.
fn hash_of(state: &KeyedState, bytes: &[u8]) -> u64 {
    let mut hasher = state.build_hasher();
    hasher.write(bytes);
    hasher.finish()
}

/// The two halves of the 128 bits of the product, joined by exclusive or.
fn product(a: u64, b: u64) -> u64 {
    let whole = a as u128 * b as u128;
    (whole >> 64) as u64 ^ (whole & u64::MAX as u128) as u64
}

/// Texts of up to eight bytes, and the number that each is read as: four bytes from either end, or the first, the one in the
/// middle and the last.
const SHORT: &[(&str, u64)] = &[
    ("", 0),
    ("a", 0x61_61_61),
    ("ab", 0x62_62_61),
    ("abc", 0x63_62_61),
    ("abcd", 0x6463_6261_6463_6261),
    ("abcdefg", 0x6766_6564_6463_6261),
    ("abcdefgh", 0x6867_6665_6463_6261),
];

#[test]
fn short_texts(rt: HostRuntime) -> Result<(), Fail> {
    let seed = RandomState::new(&rt)?;
    let (start, key) = (seed.hash_one(1u64), seed.hash_one(2u64) | 1);
    let state = KeyedState::new(&seed);
    assert!(rt; state.build_hasher().finish() == start);
    for &(text, word) in SHORT {
        let expected = product(start ^ word, key ^ (2 * text.len() as u64));
        assert!(rt; hash_of(&state, text.as_bytes()) == expected, "{text}");
    }
    Ok(())
}

#[test]
fn longer_texts(rt: HostRuntime) -> Result<(), Fail> {
    let seed = RandomState::new(&rt)?;
    let (start, key) = (seed.hash_one(1u64), seed.hash_one(2u64) | 1);
    let state = KeyedState::new(&seed);
    let nine = product(
        start.wrapping_add(9) ^ 0x6867_6665_6463_6261,
        key ^ 0x6968_6766_6564_6362,
    );
    assert!(rt; hash_of(&state, b"abcdefghi") == nine);
    let sixteen = product(
        start.wrapping_add(16) ^ 0x6867_6665_6463_6261,
        key ^ 0x706F_6E6D_6C6B_6A69,
    );
    assert!(rt; hash_of(&state, b"abcdefghijklmnop") == sixteen);
    let first = product(
        start.wrapping_add(17) ^ 0x6867_6665_6463_6261,
        key ^ 0x706F_6E6D_6C6B_6A69,
    );
    let seventeen = product(first ^ 0x6968_6766_6564_6362, key ^ 0x7170_6F6E_6D6C_6B6A);
    assert!(rt; hash_of(&state, b"abcdefghijklmnopq") == seventeen);
    Ok(())
}
