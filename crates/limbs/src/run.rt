// Words of any number in a lent buffer: sums in place, modulo 2^64 to the number of the words.
ghost use Rattle.std.specs.Prelude.{◌≡◌, ◌≢◌, ◌+◌, ◌-◌, ◌*◌, ◌/◌, ◌%◌, ◌^◌, ◌<◌, ◌≤◌, ℕ, true, not, eqb};
ghost use Rattle.std.specs.Prelude.{length, get_or, EachIndex, sum_by};
ghost use Rattle.limbs.specs.Value.{value, low};
ghost use Rattle.limbs.specs.Tops.{Stands, magnitude_in};
ghost use Rattle.limbs.specs.Moved.{Raised, Lowered, Moved};
ghost use Rattle.limbs.specs.Flipped.{flip_pair};
ghost use Rattle.limbs.specs.Gathered.{Gathered, added, taken, no_addend};

use crate::pair;
use crate::word::{Sum, add_word, flipped, split};

/// words + other + carry, in the place of words.
pub fn add_into(words: &mut [u64], other: &[u64], mut carry: u64)
    requires { (length other.now ≡ length words.now) × (carry ≤ 1) }
    ensures sum { value words.new
        ≡ (value words.old + value other.now + carry) % 2 ^ (64 * length words.old) }
    ensures long { length words.new ≡ length words.old }
{
    for i in 0..words.len() {
        let s = add_word(words[i], other[i], carry);
        words[i] = s.word;
        carry = s.carry;
    }
}

/// One more at the word `at`.
#[inline(never)]
pub fn carry_up(words: &mut [u64], at: usize)
    requires { at ≤ length words.now }
    ensures sum { Raised (length words.old) (value words.old) (value words.new) (2 ^ (64 * at)) }
    ensures long { length words.new ≡ length words.old }
{
    for i in at..words.len() {
        let s = add_word(words[i], 1, 0);
        words[i] = s.word;
        if s.carry == 0 {
            return;
        }
    }
}

/// One less at the word `at`.
#[inline(never)]
pub fn borrow_up(words: &mut [u64], at: usize)
    requires { at ≤ length words.now }
    ensures sum { Lowered (length words.old) (value words.old) (value words.new) (2 ^ (64 * at)) }
    ensures long { length words.new ≡ length words.old }
{
    for i in at..words.len() {
        let old = words[i];
        words[i] = old.wrapping_sub(1);
        if old != 0 {
            return;
        }
    }
}

// Two words, or their complements.
fn flipped_pair(negative: bool, pair: u128) -> u128
    ensures { result ≡ flip_pair negative pair }
{
    pair ^ 0u128.wrapping_sub(u128::from(negative))
}

// What `add_word` gives, by one sum of two words: a compiler finds the additions with carry in it.
fn add_wide(left: u64, right: u64, carry: u64) -> Sum
    requires { carry ≤ 1 }
    ensures { (result.word + result.carry * 2 ^ 64 ≡ left + right + carry) × (result.carry ≤ 1) }
{
    let x = u128::from(left) + u128::from(right) + u128::from(carry);
    Sum {
        word: pair::low(x),
        carry: pair::high(x),
    }
}

/// A term of two words at the word `at`, added or taken off. A carry beyond its two words is rare
/// where the words start at their middle.
#[inline(always)]
pub fn put(words: &mut [u64], at: usize, term: u128, negative: bool)
    requires { at + 1 < length words.now }
    ensures sum { Moved negative (length words.old) (value words.old) (value words.new)
        (term * 2 ^ (64 * at)) }
    ensures long { length words.new ≡ length words.old }
{
    let t = flipped_pair(negative, term);
    let x = add_wide(words[at], pair::low(t), u64::from(negative));
    words[at] = x.word;
    let y = add_wide(words[at + 1], pair::high(t), x.carry);
    words[at + 1] = y.word;
    if y.carry != u64::from(negative) {
        if negative {
            borrow_up(words, at + 2);
        } else {
            carry_up(words, at + 2);
        }
    }
}

/// What is added: significand * 2^shift, or taken off.
#[derive(Clone, Copy)]
pub struct Addend {
    pub negative: bool,
    pub significand: u64,
    pub shift: usize,
}

/// Adds an addend, whose two words lie within the buffer.
pub fn add_one(words: &mut [u64], addend: Addend)
    requires { addend.shift / 64 + 1 < length words.now }
    ensures sum { Moved addend.negative (length words.old) (value words.old) (value words.new)
        (addend.significand * 2 ^ addend.shift) }
    ensures long { length words.new ≡ length words.old }
{
    let p = split(addend.shift);
    put(
        words,
        p.word,
        u128::from(addend.significand) << p.bit,
        addend.negative,
    );
}

/// Adds a list of addends, one after another.
pub fn add_list(words: &mut [u64], list: &[Addend])
    requires { EachIndex list.now
        (λ i. (get_or list.now i no_addend).shift / 64 + 1 < length words.now) }
    ensures sum { Gathered (length words.old) (value words.old) (value words.new)
        (sum_by added list.now) (sum_by taken list.now) }
    ensures long { length words.new ≡ length words.old }
{
    for i in 0..list.len() {
        add_one(words, list[i]);
    }
}

/// Whether one of the first `count` words is not 0.
pub fn any_set(words: &[u64], count: usize) -> bool
    requires { count ≤ length words.now }
    ensures { result ≡ not (eqb (low words.now count) 0) }
{
    for i in 0..count {
        if words[i] != 0 {
            return true;
        }
    }
    false
}

/// How many words there are up to the highest that is not `sign`.
pub fn significant(words: &[u64], sign: u64) -> usize
    ensures few { result ≤ length words.now }
    ensures above { (k : ℕ) → result ≤ k → k < length words.now → get_or words.now k 0 ≡ sign }
    ensures last { 0 < result → get_or words.now (result - 1) 0 ≢ sign }
{
    let mut count = words.len();
    while count > 0 {
        if words[count - 1] != sign {
            return count;
        }
        count -= 1;
    }
    0
}

/// A magnitude: the words low and high from the word `at` on, or with a sticky bit any number
/// between that and one more there.
#[derive(Clone, Copy)]
pub struct Top {
    pub sticky: bool,
    pub at: usize,
    pub low: u64,
    pub high: u64,
}

/// The magnitude of a number in two's complement, to two words: for a rounding to at most 64
/// digits.
pub fn highest(words: &[u64], negative: bool) -> Top
    requires { 2 ≤ length words.now }
    ensures stands { Stands result (magnitude_in negative words.now) }
    ensures long { result.sticky ≡ true → 0 < result.high }
{
    let sign = flipped(negative, 0);
    let at = significant(words, sign).max(2) - 2;
    let sticky = any_set(words, at);
    let low = words[at];
    let high = words[at + 1];
    if !negative {
        return Top {
            sticky,
            at,
            low,
            high,
        };
    }
    if sticky {
        return Top {
            sticky,
            at,
            low: !low,
            high: !high,
        };
    }
    if low == 0 && high == 0 {
        return Top {
            sticky,
            at: at + 2,
            low: 1,
            high: 0,
        };
    }
    let x = add_word(!low, 1, 0);
    let y = add_word(!high, 0, x.carry);
    Top {
        sticky,
        at,
        low: x.word,
        high: y.word,
    }
}
