// The term of an element or a pair, where it has one: at once of what is plainly a normal number or
// a zero, and by a closer look of all else.
ghost use Rattle.std.specs.Prelude.{◌≡◌, ◌≢◌, IfSome, ◌<◌, ◌^◌};
ghost use Rattle.totals_spec.specs.terms.Terms as terms;
ghost use Rattle.totals_spec.specs.pence.Hundredfold.{hundred_item};
ghost use Rattle.format.specs.Layouts.{layout_of};
ghost use Rattle.format.specs.Environments.{env_of};
ghost use Rattle.binary.specs.Summands.{summand_in};
ghost use Rattle.binary.specs.declared.summand.Summand.TheVariants.{Square};
ghost use Rattle.binary.specs.Gives.{Gives};

use crate::summand::Summand;
use crate::term::{
    Term, both_plain, looked_hundred, looked_pair, looked_term, plain_hundred, plain_product,
    plain_term,
};
use crate::{is_blank, is_plain};
use format::env::Env;
use format::layout::Layout;

/// The term of an element of a list, where it has one. That of a value or a magnitude has one word.
/// A zero, as of a missing month, is told at once. Inlined by name: both passes over elements ask
/// for it, and a call for each element takes three times the time.
#[inline(always)]
pub fn element_term(layout: Layout, env: Env, summand: Summand, bits: u64) -> Option<Term>
    ensures gives { Gives result
        (terms.item (layout_of layout) (env_of env) (summand_in summand) bits) }
    ensures one_word { IfSome result (λ t. summand ≢ Square → t.significand < 2 ^ 64) }
{
    if is_plain(layout, bits) {
        return Some(plain_term(layout, summand, bits));
    }
    if is_blank(layout, bits) {
        return None;
    }
    Some(looked_term(layout, env, summand, bits))
}

/// A hundred times an element of a list.
#[inline(always)]
pub fn hundred_term(layout: Layout, env: Env, element: u64) -> Option<Term>
    ensures { Gives result (hundred_item (layout_of layout) (env_of env) element) }
{
    if is_plain(layout, element) {
        return Some(plain_hundred(layout, element));
    }
    if is_blank(layout, element) {
        return None;
    }
    Some(looked_hundred(layout, env, element))
}

/// The term of a pair of a dot. Pairs with a zero are common enough to be told at once.
#[inline(always)]
pub fn pair_term(layout: Layout, env: Env, left: u64, right: u64) -> Option<Term>
    ensures { Gives result (terms.pair_item (layout_of layout) (env_of env) (left, right)) }
{
    if both_plain(layout, left, right) {
        return Some(plain_product(layout, left, right));
    }
    if is_blank(layout, left) {
        return None;
    }
    if is_blank(layout, right) {
        return None;
    }
    Some(looked_pair(layout, env, left, right))
}
