// Numbers in some encoding, one after another.
ghost use Rattle.std.specs.Prelude.{◌≡◌, Bool, true, false, List, ℕ, ◌<◌, ◌^◌, length, get_or};
ghost use Rattle.std.specs.Prelude.{IfSome};
ghost use Rattle.totals_spec.specs.ten_bytes.Extended.{tens_in};
ghost use Rattle.format.specs.Shapes.{shape_of};
ghost use Rattle.format.specs.Environments.{env_of};
ghost use Rattle.binary.specs.Summands.{summand_in};
ghost use Rattle.binary.specs.declared.summand.Summand.{Summand};
ghost use Rattle.binary.specs.Gives.{Gives};
ghost use Rattle.reduction.specs.Encodings.{Encoding, of_layout, of_tens, ReadAs, TakesPairIn};
ghost use Rattle.reduction.specs.Encodings.{FieldIn, FieldsIn, item_in, pair_in};
ghost use Rattle.reduction.specs.Encodings.{field_end, fields_end};
ghost use Rattle.reduction.specs.Singles.{is_single};

use crate::scan::Scan;
use binary::element::{element_term, pair_term};
use binary::extended::{extended, operand as ten_operand};
use binary::summand::Summand;
use binary::ten::{ten_pair, ten_term};
use binary::term::{Term, plain_field, plain_fields, plain_pair_top, plain_top};
use binary::{Read, operand};
use format::env::Env;
use format::layout::Layout;
use format::shape::Shape;
use values::elements::Elements;
use values::ten_at;

/// A list of numbers. A walk has a copy of its own for each such list, with these methods inlined.
pub trait Numbers: Copy {
    // How the codes of the list are read.
    ghost encoding: { Self → Encoding };

    ghost codes: { Self → List ℕ };

    ghost single: { Self → Summand → Bool };

    /// The format of the numbers.
    fn shape(&self) -> Shape
        ensures { shape_of result ≡ (encoding self.now).format };

    /// How many there are.
    fn count(&self) -> usize
        ensures { result ≡ length (codes self.now) };

    /// The number at an index as an operand.
    fn operand(&self, env: Env, index: usize) -> Read
        requires { index < length (codes self.now) }
        ensures { ReadAs (encoding self.now) (env_of env) (get_or (codes self.now) index 0)
            result };

    /// A scan goes on with the pair at an index, as numbers of this list's format.
    fn take_pair(&self, right: &Self, env: Env, index: usize, scan: &mut Scan)
        requires { (index < length (codes self.now)) × (index < length (codes right.now)) }
        ensures { TakesPairIn (encoding self.now) (env_of env)
            (get_or (codes self.now) index 0, get_or (codes right.now) index 0) scan.old scan.new };

    /// The exponent field of an element that is plainly a normal number, and 0 for one that takes a
    /// closer look.
    fn plain_field(&self, index: usize) -> u64
        requires { index < length (codes self.now) }
        ensures { FieldIn (encoding self.now) (get_or (codes self.now) index 0) result };

    /// The same of a pair: the sum of the two fields.
    fn plain_fields(&self, right: &Self, index: usize) -> u64
        requires { (index < length (codes self.now)) × (index < length (codes right.now)) }
        ensures { FieldsIn (encoding self.now) (get_or (codes self.now) index 0)
            (get_or (codes right.now) index 0) result };

    /// The position that counts for T of plainly normal elements, from the greatest field; 0 where
    /// there are none.
    fn plain_top(&self, summand: Summand, field: u64) -> u64
        requires { field < field_end }
        ensures { result ≡ (encoding self.now).top (summand_in summand) field };

    /// The same of pairs, from the greatest sum of fields.
    fn plain_pair_top(&self, fields: u64) -> u64
        requires { fields < fields_end }
        ensures { result ≡ (encoding self.now).pair_top fields };

    /// Whether terms have one word, and few of their sums a carry beyond the two words that they
    /// reach.
    fn is_single(&self, summand: Summand) -> bool
        ensures { result ≡ single self.now summand };

    /// The term of the number at an index, where it has one: a zero may be told at once, and has
    /// none.
    fn term(&self, env: Env, summand: Summand, index: usize) -> Option<Term>
        requires { index < length (codes self.now) }
        ensures gives { Gives result
            (item_in (encoding self.now) (env_of env) (summand_in summand)
            (get_or (codes self.now) index 0)) }
        ensures one_word { IfSome result
            (λ t. single self.now summand ≡ true → t.significand < 2 ^ 64) };

    /// The term of the pair at an index.
    fn pair_term(&self, right: &Self, env: Env, index: usize) -> Option<Term>
        requires { (index < length (codes self.now)) × (index < length (codes right.now)) }
        ensures { Gives result
            (pair_in (encoding self.now) (env_of env)
            (get_or (codes self.now) index 0, get_or (codes right.now) index 0)) };
}

/// Numbers of an offered format.
#[derive(Clone, Copy)]
pub struct Encoded<E> {
    pub layout: Layout,
    pub elements: E,
}

impl<E: Elements> Numbers for Encoded<E> {
    ghost encoding = { λ s. of_layout s.layout };

    ghost codes = { λ s. E.list s.elements };

    ghost single = { λ s u. is_single u };

    #[inline(always)]
    fn shape(&self) -> Shape {
        self.layout.shape
    }

    #[inline(always)]
    fn count(&self) -> usize {
        self.elements.count()
    }

    #[inline(always)]
    fn operand(&self, env: Env, index: usize) -> Read {
        operand(self.layout, env, self.elements.at(index))
    }

    // A call, out of a loop over pairs that are plainly normal.
    #[inline(never)]
    fn take_pair(&self, right: &Self, env: Env, index: usize, scan: &mut Scan) {
        let left_read = operand(self.layout, env, self.elements.at(index));
        let right_read = operand(self.layout, env, right.elements.at(index));
        scan.take_pair(env, left_read, right_read);
    }

    #[inline(always)]
    fn plain_field(&self, index: usize) -> u64 {
        plain_field(self.layout, self.elements.at(index))
    }

    #[inline(always)]
    fn plain_fields(&self, right: &Self, index: usize) -> u64 {
        plain_fields(
            self.layout,
            self.elements.at(index),
            right.elements.at(index),
        )
    }

    #[inline(always)]
    fn plain_top(&self, summand: Summand, field: u64) -> u64 {
        plain_top(self.layout, summand, field)
    }

    #[inline(always)]
    fn plain_pair_top(&self, fields: u64) -> u64 {
        plain_pair_top(self.layout, fields)
    }

    #[inline(always)]
    fn is_single(&self, summand: Summand) -> bool {
        summand != Summand::Square
    }

    #[inline(always)]
    fn term(&self, env: Env, summand: Summand, index: usize) -> Option<Term> {
        element_term(self.layout, env, summand, self.elements.at(index))
    }

    #[inline(always)]
    fn pair_term(&self, right: &Self, env: Env, index: usize) -> Option<Term> {
        pair_term(
            self.layout,
            env,
            self.elements.at(index),
            right.elements.at(index),
        )
    }
}

/// Values of ten bytes (kind 4), which all take a closer look. Bytes beyond the last whole value
/// are none.
#[derive(Clone, Copy)]
pub struct Tens<'a> {
    pub values: &'a [u8],
}

#[tactic(auto, using(crate::proofs::Tens::tens_length))]
impl Numbers for Tens<'_> {
    ghost encoding = { λ s. of_tens };

    ghost codes = { λ s. tens_in s.values.now };

    ghost single = { λ s u. false };

    #[inline(always)]
    fn shape(&self) -> Shape {
        extended()
    }

    #[inline(always)]
    fn count(&self) -> usize {
        self.values.len() / 10
    }

    #[inline(always)]
    fn operand(&self, env: Env, index: usize) -> Read {
        ten_operand(env, ten_at(self.values, index))
    }

    #[inline(always)]
    fn take_pair(&self, right: &Self, env: Env, index: usize, scan: &mut Scan) {
        let left_read = self.operand(env, index);
        let right_read = right.operand(env, index);
        scan.take_pair(env, left_read, right_read);
    }

    #[inline(always)]
    fn plain_field(&self, _index: usize) -> u64 {
        0
    }

    #[inline(always)]
    fn plain_fields(&self, _right: &Self, _index: usize) -> u64 {
        0
    }

    #[inline(always)]
    fn plain_top(&self, _summand: Summand, _field: u64) -> u64 {
        0
    }

    #[inline(always)]
    fn plain_pair_top(&self, _fields: u64) -> u64 {
        0
    }

    // The 64 digits of the greatest values fill the upper of two words but for a bit.
    #[inline(always)]
    fn is_single(&self, _summand: Summand) -> bool {
        false
    }

    #[tactic(auto, using(crate::proofs::Tens::tens_length), unfolding(totals_spec::specs::ten_bytes::Extended::extended_item))]
    #[inline(always)]
    fn term(&self, env: Env, summand: Summand, index: usize) -> Option<Term> {
        Some(ten_term(env, summand, ten_at(self.values, index)))
    }

    #[tactic(auto, using(crate::proofs::Tens::tens_length), unfolding(totals_spec::specs::ten_bytes::Extended::extended_pair))]
    #[inline(always)]
    fn pair_term(&self, right: &Self, env: Env, index: usize) -> Option<Term> {
        Some(ten_pair(env, ten_at(self.values, index), ten_at(right.values, index)))
    }
}
