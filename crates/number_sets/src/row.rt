//! Sets of numbers below a bound.
ghost use Rattle.number_sets.specs.Members.{has};
ghost use Rattle.number_sets.specs.Words.{is_set};
ghost use Rattle.std.specs.Prelude.{◌&&◌, ◌*◌, ◌+◌, ◌++◌, ◌-◌, ◌/◌, ◌<◌, ◌||◌, ◌↔◌, ◌≡◌, IfOk, IsTrue, count_by, false, length, not, replicate, slice_index, slice_set, true, ℕ};

use crate::row_words::RowWords;
use crate::words::{are_disjoint, count_words, is_within};
use device::Memory;
use std::alloc::Global;
use std::marker::Model;

/// A set of numbers below `n`, in words of 64 bits.
#[derive(Drop)]
pub struct Row {
    len: usize,
    words: RowWords,
}

impl Model for Row {
    ghost use Rattle.std.specs.Prelude.{Bool, List};
    ghost use Rattle.number_sets.specs.RowWords.{words_of};
    ghost use Rattle.number_sets.specs.Words.{IsRow, bits_of};

    ghost Value = { List Bool };

    ghost view = { λ r. bits_of r.len (words_of r.words) };

    ghost invariant = { λ r. IsRow r.len (words_of r.words) };
}

/// How many words hold `n` bits.
const fn words_for(n: usize) -> usize
    ensures { result ≡ (n + 63) / 64 }
{
    n.div_ceil(64)
}

impl Row {
    /// The empty set of numbers below `n`.
    pub fn new(alloc: Global, n: usize) -> Result<Row, Memory>
        ensures { IfOk result (λ r. r ≡ replicate n false) }
    {
        let words = RowWords::filled(alloc, 0, words_for(n))?;
        Ok(Row { len: n, words })
    }

    /// All numbers below `n`.
    pub fn full(alloc: Global, n: usize) -> Result<Row, Memory>
        ensures { IfOk result (λ r. r ≡ replicate n true) }
    {
        let mut words = RowWords::filled(alloc, u64::MAX, words_for(n))?;
        if n % 64 != 0 {
            words.set(n / 64, (1 << (n % 64)) - 1);
        }
        Ok(Row { len: n, words })
    }

    /// The same set.
    pub fn copy(&self, alloc: Global) -> Result<Row, Memory>
        ensures { IfOk result (λ r. r ≡ self.now) }
    {
        Ok(Row {
            len: self.len,
            words: self.words.copy(alloc)?,
        })
    }

    /// The same set, of numbers below `n` where that is more.
    pub fn extended(&self, alloc: Global, n: usize) -> Result<Row, Memory>
        ensures { IfOk result (λ r. r ≡ self.now ++ replicate (n - length self.now) false) }
    {
        let len = self.len.max(n);
        let more = words_for(len) - words_for(self.len);
        Ok(Row {
            len,
            words: self.words.extended(alloc, more)?,
        })
    }

    /// Adds `i`. Says whether it is in range; if not, nothing changes.
    pub fn put(&mut self, i: usize) -> bool
        ensures in_range { IsTrue result ↔ (i < length self.old) }
        ensures after { self.new ≡ slice_set self.old i true }
    {
        if i >= self.len {
            return false;
        }
        let word = self.words.word(i / 64);
        self.words.set(i / 64, word | 1 << (i % 64));
        true
    }

    /// Adds the members of `other`.
    pub fn union(&mut self, other: &Row)
        requires { length self.old ≡ length other.now }
        ensures len { length self.new ≡ length self.old }
        ensures members { (k : ℕ) → has self.new k ≡ (has self.old k || has other.now k) }
    {
        self.words.unite(other.words.as_slice());
    }

    /// Removes the members of `other`.
    pub fn minus(&mut self, other: &Row)
        requires { length self.old ≡ length other.now }
        ensures len { length self.new ≡ length self.old }
        ensures members { (k : ℕ) → has self.new k ≡ (has self.old k && not (has other.now k)) }
    {
        self.words.subtract(other.words.as_slice());
    }

    /// Keeps the members that are in `other`.
    pub fn intersect(&mut self, other: &Row)
        requires { length self.old ≡ length other.now }
        ensures len { length self.new ≡ length self.old }
        ensures members { (k : ℕ) → has self.new k ≡ (has self.old k && has other.now k) }
    {
        self.words.intersect(other.words.as_slice());
    }

    /// Whether no member is one of `other`.
    pub fn is_disjoint(&self, other: &Row) -> bool
        requires { length self.now ≡ length other.now }
        ensures { IsTrue result ↔ ((k : ℕ) → has self.now k ≡ true → has other.now k ≡ false) }
    {
        are_disjoint(self.words.as_slice(), other.words.as_slice())
    }

    /// Whether each member is one of `other`.
    pub fn is_subset(&self, other: &Row) -> bool
        requires { length self.now ≡ length other.now }
        ensures { IsTrue result ↔ ((k : ℕ) → has self.now k ≡ true → has other.now k ≡ true) }
    {
        is_within(self.words.as_slice(), other.words.as_slice())
    }

    /// Whether `i` is a member.
    pub fn contains(&self, i: usize) -> bool
        ensures { result ≡ has self.now i }
    {
        if i >= self.len {
            return false;
        }
        self.words.word(i / 64) >> (i % 64) & 1 == 1
    }

    /// How many members there are.
    pub fn count(&self) -> usize
        ensures { result ≡ count_by (λ b. b) self.now }
    {
        count_words(self.words.as_slice(), self.len)
    }

    /// Below which number its members are.
    pub fn len(&self) -> usize
        ensures { result ≡ length self.now }
    {
        self.len
    }

    /// Its words: as many as hold `len` bits, and bit `k` of word `j` says whether `64 * j + k` is a member.
    pub fn words(&self) -> &[u64]
        ensures many { length result.now ≡ (length self.now + 63) / 64 }
        ensures bits { (j k : ℕ) → k < 64 → is_set (slice_index result.now j) k ≡ has self.now (64 * j + k) }
    {
        self.words.as_slice()
    }
}
