// The lists of terms that a pass adds up.
ghost use Rattle.std.specs.Prelude.{◌≡◌, Bool, true, false, List, ◌<◌, ◌^◌, length, get_or, map};
ghost use Rattle.std.specs.Prelude.{IfSome};
ghost use Rattle.totals_spec.specs.formats.Settings.{no_settings};
ghost use Rattle.totals_spec.specs.terms.Terms.{Item, nan_item};
ghost use Rattle.totals_spec.specs.sums.Totals.{pairs};
ghost use Rattle.totals_spec.specs.pence.Hundredfold.{hundred_item};
ghost use Rattle.format.specs.Layouts.{layout_of};
ghost use Rattle.format.specs.Environments.{env_of};
ghost use Rattle.binary.specs.Summands.{summand_in};
ghost use Rattle.binary.specs.Gives.{Gives};
ghost use Rattle.reduction.specs.Encodings.{item_in, pair_in};

use crate::numbers::Numbers;
use binary::element::hundred_term;
use binary::summand::Summand;
use binary::term::Term;
use format::env::Env;
use format::layout::Layout;
use values::elements::Elements;

/// Terms that stand for the items of a list, one after another. A pass has a copy of its own for
/// each such list, with these methods inlined.
pub trait Terms {
    ghost items: { Self → List Item };

    ghost single: { Self → Bool };

    /// The number of items.
    fn count(&self) -> usize
        ensures { result ≡ length (items self.now) };

    /// Whether each term has one word, and a pass is to reach two with it.
    fn is_single(&self) -> bool
        ensures { result ≡ single self.now };

    /// The term of the item at an index. A zero may be told at once, and has none.
    fn term(&self, index: usize) -> Option<Term>
        requires { index < length (items self.now) }
        ensures gives { Gives result (get_or (items self.now) index nan_item) }
        ensures one_word { IfSome result (λ t. single self.now ≡ true → t.significand < 2 ^ 64) };
}

/// The values, the magnitudes or the squares of some numbers.
#[derive(Clone, Copy)]
pub struct Summed<N> {
    pub numbers: N,
    pub env: Env,
    pub summand: Summand,
}

impl<N: Numbers> Terms for Summed<N> {
    ghost items = { λ s.
        map (item_in (N.encoding s.numbers) (env_of s.env) (summand_in s.summand))
        (N.codes s.numbers) };

    ghost single = { λ s. N.single s.numbers s.summand };

    #[inline(always)]
    fn count(&self) -> usize {
        self.numbers.count()
    }

    #[inline(always)]
    fn is_single(&self) -> bool {
        self.numbers.is_single(self.summand)
    }

    #[inline(always)]
    fn term(&self, index: usize) -> Option<Term> {
        self.numbers.term(self.env, self.summand, index)
    }
}

/// The products of the pairs of two lists.
#[derive(Clone, Copy)]
pub struct Paired<N> {
    pub left: N,
    pub right: N,
    pub env: Env,
}

impl<N: Numbers> Terms for Paired<N> {
    ghost items = { λ s.
        map (pair_in (N.encoding s.left) (env_of s.env))
        (pairs (N.codes s.left) (N.codes s.right)) };

    ghost single = { λ s. false };

    #[inline(always)]
    fn count(&self) -> usize {
        self.left.count().min(self.right.count())
    }

    #[inline(always)]
    fn is_single(&self) -> bool {
        false
    }

    #[inline(always)]
    fn term(&self, index: usize) -> Option<Term> {
        self.left.pair_term(&self.right, self.env, index)
    }
}

/// A hundred times each value of a list, for pence.
#[derive(Clone, Copy)]
pub struct Hundreds<E> {
    pub layout: Layout,
    pub elements: E,
}

impl<E: Elements> Terms for Hundreds<E> {
    ghost items = { λ s. map (hundred_item (layout_of s.layout) no_settings) (E.list s.elements) };

    ghost single = { λ s. false };

    #[inline(always)]
    fn count(&self) -> usize {
        self.elements.count()
    }

    #[inline(always)]
    fn is_single(&self) -> bool {
        false
    }

    #[inline(always)]
    fn term(&self, index: usize) -> Option<Term> {
        hundred_term(self.layout, Env::default(), self.elements.at(index))
    }
}
