//! Bits in words of 64: four words at a time, and the rest word by word.
ghost use Rattle.std.specs.Prelude.{◌≡◌, ℕ, ◌+◌, ◌%◌, ◌^◌, ◌<◌, ◌≤◌, ◌↔◌, IsTrue, bit_and, bit_or, bit_xor, count_by, count_ones, false, length, map, slice_index, take, true};
ghost use Rattle.std.specs.Simd.Lanes.{Each1, chunk, sum_l, zip2};
ghost use Rattle.number_sets.specs.Words.{IsRow, bit_of, bits_of, without_bits};

use std::simd::prelude::*;

/// Each word of `a` with the bits of the word of `b` at its place.
pub(crate) fn union_words(a: &mut [u64], b: &[u64])
    requires { length a.old ≡ length b.now }
    ensures { (k : ℕ) → slice_index a.new k ≡ bit_or (slice_index a.old k) (slice_index b.now k) }
{
    for i in union_fours(a, b)..a.len() {
        a[i] |= b[i];
    }
}

/// Each word of `a` without the bits of the word of `b` at its place.
pub(crate) fn minus_words(a: &mut [u64], b: &[u64])
    requires { length a.old ≡ length b.now }
    ensures { (k : ℕ) → slice_index a.new k ≡ without_bits (slice_index a.old k) (slice_index b.now k) }
{
    for i in minus_fours(a, b)..a.len() {
        a[i] ^= a[i] & b[i];
    }
}

/// Of each word of `a` the bits that are in the word of `b` at its place.
pub(crate) fn intersect_words(a: &mut [u64], b: &[u64])
    requires { length a.old ≡ length b.now }
    ensures { (k : ℕ) → slice_index a.new k ≡ bit_and (slice_index a.old k) (slice_index b.now k) }
{
    for i in intersect_fours(a, b)..a.len() {
        a[i] &= b[i];
    }
}

/// Whether no bit is set in both.
pub(crate) fn are_disjoint(a: &[u64], b: &[u64]) -> bool
    requires { length a.now ≡ length b.now }
    ensures { IsTrue result ↔ ((k : ℕ) → bit_of a.now k ≡ true → bit_of b.now k ≡ false) }
{
    for i in disjoint_fours(a, b)..a.len() {
        if a[i] & b[i] != 0 {
            return false;
        }
    }
    true
}

/// Whether each bit of `a` is set in `b`.
pub(crate) fn is_within(a: &[u64], b: &[u64]) -> bool
    requires { length a.now ≡ length b.now }
    ensures { IsTrue result ↔ ((k : ℕ) → bit_of a.now k ≡ true → bit_of b.now k ≡ true) }
{
    for i in fours_within(a, b)..a.len() {
        if a[i] & b[i] != a[i] {
            return false;
        }
    }
    true
}

/// How many of the first `n` bits are set, where no other bit is.
pub(crate) fn count_words(words: &[u64], n: usize) -> usize
    requires { IsRow n words.now }
    ensures { result ≡ count_by (λ b. b) (bits_of n words.now) }
{
    let fours = words.len() - words.len() % 4;
    let mut count = count_fours(words, fours);
    for i in fours..words.len() {
        count += words[i].count_ones() as usize;
    }
    count
}

/// Adds the bits of `b` to the words of `a`, four at a time; says before which word it ended.
fn union_fours(a: &mut [u64], b: &[u64]) -> usize
    requires { length a.old ≡ length b.now }
    ensures within { result ≤ length a.old }
    ensures before { (k : ℕ) → k < result → slice_index a.new k ≡ bit_or (slice_index a.old k) (slice_index b.now k) }
    ensures after { (k : ℕ) → result ≤ k → slice_index a.new k ≡ slice_index a.old k }
{
    let mut i = 0;
    while a.len() - i >= 4 {
        let joined = u64x4::from_slice(&a[i..]) | u64x4::from_slice(&b[i..]);
        joined.copy_to_slice(&mut a[i..]);
        i += 4;
    }
    i
}

/// Removes the bits of `b` from the words of `a`, four at a time; says before which word it ended.
fn minus_fours(a: &mut [u64], b: &[u64]) -> usize
    requires { length a.old ≡ length b.now }
    ensures within { result ≤ length a.old }
    ensures before { (k : ℕ) → k < result → slice_index a.new k ≡ without_bits (slice_index a.old k) (slice_index b.now k) }
    ensures after { (k : ℕ) → result ≤ k → slice_index a.new k ≡ slice_index a.old k }
{
    let mut i = 0;
    while a.len() - i >= 4 {
        let these = u64x4::from_slice(&a[i..]);
        let left = these ^ (these & u64x4::from_slice(&b[i..]));
        left.copy_to_slice(&mut a[i..]);
        i += 4;
    }
    i
}

/// Leaves in the words of `a` the bits of `b`, four at a time; says before which word it ended.
fn intersect_fours(a: &mut [u64], b: &[u64]) -> usize
    requires { length a.old ≡ length b.now }
    ensures within { result ≤ length a.old }
    ensures before { (k : ℕ) → k < result → slice_index a.new k ≡ bit_and (slice_index a.old k) (slice_index b.now k) }
    ensures after { (k : ℕ) → result ≤ k → slice_index a.new k ≡ slice_index a.old k }
{
    let mut i = 0;
    while a.len() - i >= 4 {
        let common = u64x4::from_slice(&a[i..]) & u64x4::from_slice(&b[i..]);
        common.copy_to_slice(&mut a[i..]);
        i += 4;
    }
    i
}

fn are_zero(words: u64x4) -> bool
    ensures { IsTrue result ↔ Each1 (λ w. w ≡ 0) words }
{
    words.reduce_or() == 0
}

/// Whether the four words from `i` on have no bit in both.
fn are_disjoint_four(a: &[u64], b: &[u64], i: usize) -> bool
    requires long { i + 4 ≤ length a.now }
    requires same { length a.now ≡ length b.now }
    ensures { IsTrue result ↔ Each1 (λ w. w ≡ 0) (zip2 bit_and (chunk i 4 a.now) (chunk i 4 b.now)) }
{
    are_zero(u64x4::from_slice(&a[i..]) & u64x4::from_slice(&b[i..]))
}

/// Whether each bit of the four words of `a` from `i` on is set in `b`.
fn is_within_four(a: &[u64], b: &[u64], i: usize) -> bool
    requires long { i + 4 ≤ length a.now }
    requires same { length a.now ≡ length b.now }
    ensures { IsTrue result ↔ Each1 (λ w. w ≡ 0) (zip2 bit_xor (chunk i 4 a.now) (zip2 bit_and (chunk i 4 a.now) (chunk i 4 b.now))) }
{
    let these = u64x4::from_slice(&a[i..]);
    are_zero(these ^ (these & u64x4::from_slice(&b[i..])))
}

/// Before which word the first four with a bit in both begin, or fewer than four are left.
fn disjoint_fours(a: &[u64], b: &[u64]) -> usize
    requires { length a.now ≡ length b.now }
    ensures within { result ≤ length a.now }
    ensures before { (k : ℕ) → k < result → bit_and (slice_index a.now k) (slice_index b.now k) ≡ 0 }
{
    let mut i = 0;
    while a.len() - i >= 4 && are_disjoint_four(a, b, i) {
        i += 4;
    }
    i
}

/// Before which word the first four of `a` with a bit that `b` has not begin, or fewer than four are left.
fn fours_within(a: &[u64], b: &[u64]) -> usize
    requires { length a.now ≡ length b.now }
    ensures within { result ≤ length a.now }
    ensures before { (k : ℕ) → k < result → bit_and (slice_index a.now k) (slice_index b.now k) ≡ slice_index a.now k }
{
    let mut i = 0;
    while a.len() - i >= 4 && is_within_four(a, b, i) {
        i += 4;
    }
    i
}

/// How many bits are set in the first words, a multiple of four of them.
fn count_fours(words: &[u64], to: usize) -> usize
    requires within { to ≤ length words.now }
    requires fours { to % 4 ≡ 0 }
    requires fits { sum_l (map count_ones words.now) < 2 ^ 64 }
    ensures { result ≡ sum_l (map count_ones (take to words.now)) }
{
    let mut count = 0;
    let mut i = 0;
    while i < to {
        count += count_four(words, i) as usize;
        i += 4;
    }
    count
}

/// How many bits are set in the four words from `i` on.
fn count_four(words: &[u64], i: usize) -> u64
    requires { i + 4 ≤ length words.now }
    ensures { result ≡ sum_l (map count_ones (chunk i 4 words.now)) }
{
    u64x4::from_slice(&words[i..])
        .count_ones()
        .strict_reduce_sum()
}
