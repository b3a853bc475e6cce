// A chain of passes over a list of terms. All of a walk is inlined by name, down from its scan:
// calls that hand a scan, a window or a sum over in memory cost a total of one element two fifths.
ghost use Rattle.std.specs.Prelude.{◌≡◌, true, ◌<◌};
ghost use Rattle.totals_spec.specs.terms.Terms as terms;
ghost use Rattle.window.specs.Chain.{Passed};
ghost use Rattle.reduction.specs.Held.{Base, Sums, SumsWithin};

use crate::allowance::{Allowance, Every};
use crate::pass::{finished, start as middle};
use crate::terms::Terms;
use limbs::pair::low;
use limbs::term::{goes_on, move_term, settle, settle_single};
use limbs::word::add_word;
use std::ops::ControlFlow;
use window::{Chain, ExactSum, Pass, Stopped, window_part};

// One pass at an edge over a list of terms of one word, which reach two words of the window: of
// that, an array of the loop, only these are stored, unless a carry goes on.
#[inline(always)]
fn pass_singles<T: Terms>(list: &T, edge: u64) -> Pass
    requires { T.single list.now ≡ true }
    ensures { Passed (terms.terms (T.items list.now)) edge result }
{
    let mut total = middle();
    let mut lost: u64 = 0;
    for i in 0..list.count() {
        let Some(term) = list.term(i) else {
            continue;
        };
        let part = window_part(term, edge);
        lost = lost.max(part.lost);
        let Some(kept) = part.kept else {
            continue;
        };
        let placed = settle_single(low(kept.significand), kept.up, term.negative);
        if !placed.inside {
            continue;
        }
        let at = placed.at;
        let first = add_word(total[at], placed.w0, placed.carry);
        let second = add_word(total[at + 1], placed.w1, first.carry);
        if goes_on(term.negative, total[at + 1], second.word) {
            let next = move_term(total, kept.significand, kept.up, term.negative);
            total = next;
            continue;
        }
        total[at] = first.word;
        total[at + 1] = second.word;
    }
    finished(total, lost)
}

// And over terms of two words, which reach three.
#[inline(always)]
fn pass_doubles<T: Terms>(list: &T, edge: u64) -> Pass
    ensures { Passed (terms.terms (T.items list.now)) edge result }
{
    let mut total = middle();
    let mut lost: u64 = 0;
    for i in 0..list.count() {
        let Some(term) = list.term(i) else {
            continue;
        };
        let part = window_part(term, edge);
        lost = lost.max(part.lost);
        let Some(kept) = part.kept else {
            continue;
        };
        let placed = settle(kept.significand, kept.up, term.negative);
        if !placed.inside {
            continue;
        }
        let at = placed.at;
        let first = add_word(total[at], placed.w0, placed.carry);
        let second = add_word(total[at + 1], placed.w1, first.carry);
        let third = add_word(total[at + 2], placed.w2, second.carry);
        if goes_on(term.negative, total[at + 2], third.word) {
            let next = move_term(total, kept.significand, kept.up, term.negative);
            total = next;
            continue;
        }
        total[at] = first.word;
        total[at + 1] = second.word;
        total[at + 2] = third.word;
    }
    finished(total, lost)
}

// One pass at an edge.
#[inline(always)]
fn pass<T: Terms>(list: &T, edge: u64) -> Pass
    ensures { Passed (terms.terms (T.items list.now)) edge result }
{
    if list.is_single() {
        pass_singles(list, edge)
    } else {
        pass_doubles(list, edge)
    }
}

/// The exact sum of the terms, the highest of whose bits lies at `top`: pass after pass until one
/// of them decides the first digits of a format of so many, or is the last that is allowed
/// (docs/SPECIFICATION.md, Within an allowance).
#[inline(always)]
pub fn within<T: Terms, A: Allowance>(
    list: &T,
    digits: u64,
    top: u64,
    allowance: A,
) -> Result<ExactSum, Stopped>
    requires { let all = terms.terms (T.items list.now) in
        Base digits all × (top ≡ terms.top_of all) × (0 < A.allowed allowance) }
    ensures { SumsWithin digits (terms.terms (T.items list.now)) (A.allowed allowance) result }
{
    let mut chain = Chain::start(top);
    loop {
        let seen = pass(list, chain.edge);
        match chain.advance(digits, seen) {
            ControlFlow::Continue(next) => {
                if allowance.ends(next.passes) {
                    break Err(chain.stopped(seen, allowance.passes()));
                }
                chain = next;
            }
            ControlFlow::Break(outcome) => break Ok(ExactSum {
                outcome,
                passes: chain.passes + 1,
                edge: chain.edge,
            }),
        }
    }
}

/// The same with every pass that it takes.
#[inline(always)]
pub fn exact<T: Terms>(list: &T, digits: u64, top: u64) -> ExactSum
    requires { Base digits (terms.terms (T.items list.now))
        × (top ≡ terms.top_of (terms.terms (T.items list.now))) }
    ensures { Sums digits (terms.terms (T.items list.now)) result }
{
    match within(list, digits, top, Every) {
        Ok(sum) => sum,
        Err(_) => unreachable!(),
    }
}
