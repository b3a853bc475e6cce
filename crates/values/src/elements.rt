// The elements of a list, wherever they stand.
ghost use Rattle.std.specs.Prelude.{◌≡◌, List, [], ◌∷◌, ◌++◌, ℕ, ◌+◌, ◌*◌, ◌^◌, ◌<◌, ◌≤◌, length, get_or};
ghost use Rattle.totals_spec.specs.entries.Bytes.{values_in};
ghost use Rattle.totals_spec.specs.entries.Columns.{column_of};

use crate::word_at;
use std::alloc::AllocError;

/// Elements that are read one after another. A walk has a copy of its own for each such list, with
/// these methods inlined.
pub trait Elements: Copy {
    ghost list: { Self → List ℕ };

    /// How many they are. Each fits a word.
    fn count(&self) -> usize
        ensures value { result ≡ length (list self.now) }
        ensures fit { (i : ℕ) → get_or (list self.now) i 0 < 2 ^ 64 };

    fn at(&self, i: usize) -> u64
        requires { i < length (list self.now) }
        ensures { result ≡ get_or (list self.now) i 0 };
}

// How many words there are. Each fits one.
#[inline(always)]
fn words_in(words: &[u64]) -> usize
    ensures value { result ≡ length words.now }
    ensures fit { (i : ℕ) → get_or words.now i 0 < 2 ^ 64 }
{
    words.len()
}

// The same of bytes.
#[inline(always)]
fn bytes_in(bytes: &[u8]) -> usize
    ensures value { result ≡ length bytes.now }
    ensures fit { (i : ℕ) → get_or bytes.now i 0 < 2 ^ 8 }
{
    bytes.len()
}

/// Words.
#[derive(Clone, Copy)]
pub struct Words<'a> {
    pub values: &'a [u64],
}

impl Elements for Words<'_> {
    ghost list = { λ s. s.values.now };

    #[inline(always)]
    fn count(&self) -> usize {
        words_in(self.values)
    }

    #[inline(always)]
    fn at(&self, i: usize) -> u64 {
        self.values[i]
    }
}

/// Values in bytes, eight to a value. Bytes beyond the last whole one are none.
#[derive(Clone, Copy)]
pub struct Bytes<'a> {
    pub values: &'a [u8],
}

#[tactic(auto, using(totals_spec::proofs::entries::ValuesInBytes::values_length))]
impl Elements for Bytes<'_> {
    ghost list = { λ s. values_in s.values.now };

    #[inline(always)]
    fn count(&self) -> usize {
        bytes_in(self.values) / 8
    }

    #[inline(always)]
    fn at(&self, i: usize) -> u64 {
        word_at(self.values, i)
    }
}

/// Of the first rows of a table, the cells of one column: `count` of them, a row of `step` cells
/// apart.
#[derive(Clone, Copy)]
pub struct Column<'a> {
    pub cells: &'a [u64],
    pub first: usize,
    pub step: usize,
    pub count: usize,
    pub ghost inside: { (first < step) × (count * step ≤ length cells.now) },
}

impl Elements for Column<'_> {
    ghost list = { λ s. column_of s.count s.step s.cells.now s.first };

    #[inline(always)]
    fn count(&self) -> usize {
        let _cells = words_in(self.cells);
        self.count
    }

    #[inline(always)]
    fn at(&self, i: usize) -> u64 {
        self.cells[self.first + self.step * i]
    }
}

/// A list with one element more behind it.
pub struct Appended<E: Elements> {
    pub list: E,
    pub last: u64,
    pub ghost room: { length (E.list list) + 1 < 2 ^ 64 },
}

impl<E: Elements> Copy for Appended<E> {}

impl<E: Elements> Clone for Appended<E> {
    fn clone(&self) -> Result<Self, AllocError> {
        Ok(*self)
    }
}

impl<E: Elements> Elements for Appended<E> {
    ghost list = { λ s. E.list s.list ++ (s.last ∷ []) };

    #[inline(always)]
    fn count(&self) -> usize {
        self.list.count() + 1
    }

    #[inline(always)]
    fn at(&self, i: usize) -> u64 {
        if i < self.list.count() {
            self.list.at(i)
        } else {
            self.last
        }
    }
}
