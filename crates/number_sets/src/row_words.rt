//! The words of a row: a single one takes no memory of its own.
ghost use Rattle.std.specs.Prelude.{◌≡◌, ◌<◌, ◌++◌, ℕ, IfOk, bit_and, bit_or, length, replicate, slice_index, slice_set};
ghost use Rattle.number_sets.specs.RowWords.{words_of};
ghost use Rattle.number_sets.specs.Words.{without_bits};

use crate::words::{intersect_words, minus_words, union_words};
use device::Memory;
use std::alloc::Global;

/// Words of 64 bits: one in place, or any number in memory.
#[derive(Drop)]
pub(crate) enum RowWords {
    One([u64; 1]),
    Many(Vec<u64>),
}

impl RowWords {
    /// So many words, each that one.
    pub(crate) fn filled(alloc: Global, word: u64, count: usize) -> Result<RowWords, Memory>
        ensures { IfOk result (λ w. words_of w ≡ replicate count word) }
    {
        if count == 1 {
            return Ok(RowWords::One([word]));
        }
        Ok(RowWords::Many(vec![in alloc; word; count]?))
    }

    /// The words in order.
    pub(crate) fn as_slice(&self) -> &[u64]
        ensures { result.now ≡ words_of self.now }
    {
        match self {
            RowWords::One(words) => words.as_slice(),
            RowWords::Many(words) => words.as_slice(),
        }
    }

    /// The word of that number.
    pub(crate) fn word(&self, number: usize) -> u64
        requires { number < length (words_of self.now) }
        ensures { result ≡ slice_index (words_of self.now) number }
    {
        self.as_slice()[number]
    }

    /// The same words.
    pub(crate) fn copy(&self, alloc: Global) -> Result<RowWords, Memory>
        ensures { IfOk result (λ w. words_of w ≡ words_of self.now) }
    {
        match self {
            RowWords::One(words) => Ok(RowWords::One(*words)),
            RowWords::Many(words) => Ok(RowWords::Many(words.as_slice().to_vec(alloc)?)),
        }
    }

    /// The same words, and so many behind them without a bit.
    pub(crate) fn extended(&self, alloc: Global, more: usize) -> Result<RowWords, Memory>
        ensures { IfOk result (λ w. words_of w ≡ words_of self.now ++ replicate more 0) }
    {
        let further = vec![in alloc; 0; more]?;
        let words = self.as_slice();
        let mut all = Vec::with_capacity(alloc, words.len().saturating_add(more))?;
        all.extend_from_slice(words)?;
        all.extend_from_slice(&further)?;
        Ok(RowWords::Many(all))
    }

    /// The word of that number becomes that one.
    pub(crate) fn set(&mut self, number: usize, word: u64)
        requires { number < length (words_of self.old) }
        ensures { words_of self.new ≡ slice_set (words_of self.old) number word }
    {
        match self {
            RowWords::One(words) => words[0] = word,
            RowWords::Many(words) => words[number] = word,
        }
    }

    /// Each word with the bits of the other word at its place.
    pub(crate) fn unite(&mut self, other: &[u64])
        requires { length (words_of self.old) ≡ length other.now }
        ensures len { length (words_of self.new) ≡ length (words_of self.old) }
        ensures each { (k : ℕ) → slice_index (words_of self.new) k ≡ bit_or (slice_index (words_of self.old) k) (slice_index other.now k) }
    {
        match self {
            RowWords::One(words) => union_words(words, other),
            RowWords::Many(words) => union_words(words, other),
        }
    }

    /// Each word without the bits of the other word at its place.
    pub(crate) fn subtract(&mut self, other: &[u64])
        requires { length (words_of self.old) ≡ length other.now }
        ensures len { length (words_of self.new) ≡ length (words_of self.old) }
        ensures each { (k : ℕ) → slice_index (words_of self.new) k ≡ without_bits (slice_index (words_of self.old) k) (slice_index other.now k) }
    {
        match self {
            RowWords::One(words) => minus_words(words, other),
            RowWords::Many(words) => minus_words(words, other),
        }
    }

    /// Of each word the bits that are in the other word at its place.
    pub(crate) fn intersect(&mut self, other: &[u64])
        requires { length (words_of self.old) ≡ length other.now }
        ensures len { length (words_of self.new) ≡ length (words_of self.old) }
        ensures each { (k : ℕ) → slice_index (words_of self.new) k ≡ bit_and (slice_index (words_of self.old) k) (slice_index other.now k) }
    {
        match self {
            RowWords::One(words) => intersect_words(words, other),
            RowWords::Many(words) => intersect_words(words, other),
        }
    }
}
