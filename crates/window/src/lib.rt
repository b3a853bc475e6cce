// The exact sum of terms, found in a window of 768 bits that moves down: what one pass sees, and
// what follows from it.
#![tactic(auto)]

ghost use Rattle.std.specs.Prelude.{◌≡◌, ℕ, ◌+◌, ◌-◌, ◌*◌, ◌/◌, ◌%◌, ◌^◌, ◌<◌, ◌≤◌};
ghost use Rattle.limbs.specs.Value.{value, bit_length};
ghost use Rattle.totals_spec.specs.Basics.{flag};
ghost use Rattle.totals_spec.specs.chain.Chain as spec;
ghost use Rattle.binary.specs.Terms.{magnitude};
ghost use Rattle.exact.specs.Unrounded.{Narrows};
ghost use Rattle.window.specs.Chain.{first_depth, next_depth, boundary_depth, window_bits, side_bits};
ghost use Rattle.window.specs.Chain.{PartAt, started, boundary_of, bound_of, beside_of, signed_of};
ghost use Rattle.window.specs.Chain.{near_by, counted, Ready, Goes, Bounds, Follows, Steps, Stops};
ghost use Rattle.window.specs.Chain.{Roundable, Quarters, Leaves};

use binary::term::Term;
use exact::{Unrounded, narrowed, nothing};
use limbs::{pair, window};
use std::ops::ControlFlow;

// The bit of a window that says that its number is negative.
const SIGN_BIT: usize = 767;

// Fewer than 2^64 terms are added.
const TERMS_BITS: u64 = 64;

// How far the first edge lies below the highest bit of a term.
const FIRST_DEPTH: u64 = 702;

// How far the edge beside a boundary lies below the one before it.
const BOUNDARY_DEPTH: u64 = 701;

// How far any other edge lies below the greatest bit that the sum can have.
const NEXT_DEPTH: u64 = 766;

// Passes that see nothing end where an edge is at most 64 above the lost bit.
const NEAR_LOST: u64 = TERMS_BITS - 1;

// What rounds the number of such passes up.
const SKIPPED: u64 = NEXT_DEPTH - TERMS_BITS;

// So many bits and the digits of the format S has where its first digits are decided, or lie near a
// boundary.
const DECIDED_BITS: u64 = 70;

// Within 2^65 units a boundary lies near.
const MARGIN_BITS: usize = 65;

// So many bits of S are more than the margin and the error: S tells on which side of a boundary the
// sum lies.
const SIDE_BITS: u64 = 66;

/// The part of a term at or above an edge, to be added `up` bits above it.
#[derive(Clone, Copy)]
pub struct UpperPart {
    pub significand: u128,
    pub up: usize,
}

/// A term at an edge: its part at or above it, if it reaches there, and the lost bit plus one, 0
/// where no bit is lost.
#[derive(Clone, Copy)]
pub struct Part {
    pub kept: Option<UpperPart>,
    pub lost: u64,
}

/// A term cut at an edge.
pub fn window_part(term: Term, edge: u64) -> Part
    requires { (term.shift < 2 ^ 62) × (magnitude term ≡ 0 → term.shift ≡ 0) }
    ensures { PartAt edge term result }
{
    if term.shift >= edge {
        let kept = UpperPart {
            significand: term.significand,
            up: (term.shift - edge) as usize,
        };
        return Part {
            kept: Some(kept),
            lost: 0,
        };
    }
    let end = term.shift + u64::from(pair::bit_length(term.significand));
    if end <= edge {
        return Part {
            kept: None,
            lost: end,
        };
    }
    let down = (edge - term.shift) as usize;
    let kept = UpperPart {
        significand: pair::shr(term.significand, down),
        up: 0,
    };
    let lost = if pair::any_below(term.significand, down) {
        edge
    } else {
        0
    };
    Part {
        kept: Some(kept),
        lost,
    }
}

/// One pass over the terms: their parts' sum modulo 2^768, and the lost bit plus one.
#[derive(Clone, Copy)]
pub struct Pass {
    pub lost: u64,
    pub total: [u64; 12],
}

/// A whole number of units of 2^`place`, with a sign: S of a pass, at its edge, or a boundary.
#[derive(Clone, Copy)]
pub struct Units {
    pub whole: [u64; 12],
    pub place: u64,
    pub negative: bool,
}

// S of a pass at an edge.
fn sum_at(edge: u64, total: [u64; 12]) -> Units
    ensures sum { signed_of result ≡ spec.signed_from spec.half (value total) }
    ensures at_edge { result.place ≡ edge }
{
    let negative = window::bit(total, SIGN_BIT);
    Units {
        whole: if negative {
            window::negate(total)
        } else {
            total
        },
        place: edge,
        negative,
    }
}

// The number of bits of a magnitude, n of a pass.
fn width(magnitude: [u64; 12]) -> u64
    ensures { (result ≡ bit_length (value magnitude)) × (result ≤ window_bits) }
{
    window::bit_length(magnitude) as u64
}

/// A chain of passes (docs/SPECIFICATION.md, The chain of passes) from inside: the boundary beside
/// which the sum lies, once one is set, how many passes were counted, and the next edge.
#[derive(Clone, Copy)]
pub struct Chain {
    pub boundary: Option<Units>,
    pub passes: u64,
    pub edge: u64,
}

/// What the sum is: zero, S, between S and one unit more, or below, on or above the boundary (in
/// magnitude).
#[derive(Clone, Copy)]
pub enum Outcome {
    Zero,
    Exact(Units),
    Inexact(Units),
    Below(Units),
    On(Units),
    Above(Units),
}

/// A chain that is not done within an allowance of passes (docs/SPECIFICATION.md, Within an
/// allowance): S of the last pass allowed, at its edge,
/// and the boundary that this pass was compared against.
#[derive(Clone, Copy)]
pub struct Stopped {
    pub sum: Units,
    pub boundary: Option<Units>,
}

// How many passes a step counts for. Where S, of `length` bits, is 0 and the lost bit lies far
// below the edge, the passes until an edge is at most 64 above it would find S = 0 and the same
// lost bit again: they are counted with this one, and not run.
fn passes_at(edge: u64, length: u64, lost: u64) -> u64
    requires { (edge < 2 ^ 62) × (lost ≤ edge) }
    ensures { result ≡ counted edge length lost }
{
    if length != 0 || edge <= lost + NEAR_LOST {
        1
    } else {
        (edge - lost + SKIPPED) / NEXT_DEPTH
    }
}

/// Where the last bits of a magnitude stand: within the margin of 2^65 above or below a multiple of
/// a power of two, or between.
#[derive(Clone, Copy)]
pub enum Nearness {
    Low,
    High,
    Between,
}

// Where the last `rest` bits of a magnitude stand.
fn how_near(magnitude: [u64; 12], rest: usize) -> Nearness
    requires { (side_bits < rest) × (rest < window_bits) }
    ensures { result ≡ near_by (value magnitude % 2 ^ rest) rest }
{
    let margin = window::power(MARGIN_BITS);
    let below = window::low_bits(magnitude, rest);
    if window::compare(below, margin).is_lt() {
        return Nearness::Low;
    }
    let ceiling = window::sub(window::power(rest), margin);
    if window::compare(below, ceiling).is_gt() {
        return Nearness::High;
    }
    Nearness::Between
}

impl Units {
    // The multiple of 2^rest of these units at or below them, or the one above.
    fn multiple(self, rest: u64, up: bool) -> Units
        requires { (0 < rest) × (self.place + rest < 2 ^ 64) }
        ensures { let kept = value self.whole / 2 ^ rest in
            boundary_of (Some result)
            ≡ spec.boundary self.negative (kept + flag 1 up) (self.place + rest) }
    {
        let kept = window::shr(self.whole, rest as usize);
        Units {
            whole: if up { window::increment(kept) } else { kept },
            place: self.place + rest,
            ..self
        }
    }

    // How the sum came out beside this boundary. S, of `length` bits, is the sum less the boundary:
    // its sign and its length tell.
    fn beside(self, sum: Units, length: u64) -> Outcome
        ensures { result ≡ beside_of self sum.negative length }
    {
        if length == 0 {
            Outcome::On(self)
        } else if sum.negative != self.negative {
            Outcome::Below(self)
        } else {
            Outcome::Above(self)
        }
    }

    // In two words, with a sticky bit where any number between these units and one more is meant.
    // Taken into `left` at each of its calls: a call of its own would copy the window once more, a
    // fifth of the time of a sum of three values.
    #[inline(always)]
    fn narrowed(self, sticky: bool) -> Unrounded
        requires { self.place < 2 ^ 63 }
        ensures { Narrows self.negative sticky self.place self.whole result }
    {
        narrowed(self.negative, sticky, self.place, self.whole)
    }

    // A little more than so many quarters of a unit of this boundary. A boundary has few enough
    // bits that two words hold them all.
    fn quarters(self, count: [u64; 12]) -> Unrounded
        requires { (2 ≤ self.place) × (value count < 2 ^ 128) }
        ensures { Quarters self.negative self.place (value count) result }
    {
        Unrounded {
            negative: self.negative,
            sticky: true,
            position: self.place - 2,
            significand: pair::joined(count[0], count[1]),
        }
    }
}

impl Chain {
    /// The chain before its first pass. Fewer than 2^64 terms, each below 2^(top + 1), sum to less
    /// than 2^(top + 65); with a bit for the sign that fills the 768 bits from top - 702 up.
    pub fn start(top: u64) -> Chain
        requires { first_depth ≤ top }
        ensures { result ≡ started top }
    {
        Chain {
            boundary: None,
            passes: 0,
            edge: top - FIRST_DEPTH,
        }
    }

    // The chain at a lower edge. S has `length` bits, and fewer than 2^64 parts were lost, each
    // below 2^lost: the sum is below twice the larger of 2^(edge + length) and 2^(lost + 64), and
    // with a bit for the sign that fills the window from 766 below the larger exponent up. Each
    // pass that is counted and not run lowers the edge by 766 more.
    fn lowered(self, length: u64, lost: u64) -> Chain
        requires { Ready self lost × (0 < lost) × (length ≤ window_bits) }
        ensures { Goes length lost self result }
    {
        let passes = passes_at(self.edge, length, lost);
        Chain {
            passes: self.passes + passes,
            edge: (self.edge + length).max(lost + TERMS_BITS) - NEXT_DEPTH * passes,
            ..self
        }
    }

    // The chain beside the boundary near its sum S: a multiple of 2^rest units. The sum lies less
    // than 2^66 units from it, the margin and the error; with a bit for the sign that fills the
    // window from 701 lower up.
    fn bounded(self, sum: Units, rest: u64, up: bool) -> Chain
        requires { (self.passes < 2 ^ 62) × (boundary_depth ≤ self.edge) × (sum.place < 2 ^ 62)
            × (side_bits < rest) × (rest < window_bits) }
        ensures { Bounds sum rest up self result }
    {
        Chain {
            boundary: Some(sum.multiple(rest, up)),
            passes: self.passes + 1,
            edge: self.edge - BOUNDARY_DEPTH,
        }
    }

    // What follows from a pass with no boundary, for a format of so many digits: S, its length, and
    // the lost bit plus one.
    fn step(self, digits: u64, sum: Units, length: u64, lost: u64) -> ControlFlow<Outcome, Chain>
        requires { (digits ≤ 64) × Ready self lost × (self.boundary ≡ None)
            × (sum.place ≡ self.edge) × (length ≡ bit_length (value sum.whole))
            × (length ≤ window_bits) }
        ensures { Follows result
            (spec.decide digits spec.no_boundary self.edge lost (signed_of sum) length)
            (counted self.edge length lost) self }
    {
        if lost == 0 {
            return ControlFlow::Break(if length == 0 {
                Outcome::Zero
            } else {
                Outcome::Exact(sum)
            });
        }
        if length < digits + DECIDED_BITS {
            return ControlFlow::Continue(self.lowered(length, lost));
        }
        let rest = length - digits - 1;
        match how_near(sum.whole, rest as usize) {
            Nearness::Low => ControlFlow::Continue(self.bounded(sum, rest, false)),
            Nearness::High => ControlFlow::Continue(self.bounded(sum, rest, true)),
            Nearness::Between => ControlFlow::Break(Outcome::Inexact(sum)),
        }
    }

    // What follows from a pass beside a boundary. The digits of the format are of no account here.
    fn step_beside(
        self,
        boundary: Units,
        sum: Units,
        length: u64,
        lost: u64,
    ) -> ControlFlow<Outcome, Chain>
        requires { Ready self lost × (self.boundary ≡ Some boundary)
            × (length ≡ bit_length (value sum.whole)) × (length ≤ window_bits) }
        ensures { (p : ℕ) → Follows result
            (spec.decide p (boundary_of (Some boundary)) self.edge lost (signed_of sum) length)
            (counted self.edge length lost) self }
    {
        if lost == 0 || length >= SIDE_BITS {
            ControlFlow::Break(boundary.beside(sum, length))
        } else {
            ControlFlow::Continue(self.lowered(length, lost))
        }
    }

    /// What follows from a pass at the chain's edge, for a format of so many digits: how the sum
    /// came out, or the chain that goes on.
    #[inline(always)]
    pub fn advance(self, digits: u64, seen: Pass) -> ControlFlow<Outcome, Chain>
        requires { (digits ≤ 64) × Ready self seen.lost }
        ensures { Steps digits self seen result }
    {
        let sum = sum_at(self.edge, seen.total);
        let length = width(sum.whole);
        match self.boundary {
            Some(boundary) => self.step_beside(boundary, sum, length, seen.lost),
            None => self.step(digits, sum, length, seen.lost),
        }
    }

    /// This chain after a pass at its edge, where the passes that are allowed end with it, or with
    /// one of those that are counted with it and not run: they have the same S, 0, and the edge 766
    /// lower for each.
    pub fn stopped(self, seen: Pass, allowance: u64) -> Stopped
        requires { (self.passes < allowance)
            × (next_depth * (allowance - self.passes - 1) ≤ self.edge) }
        ensures { Stops allowance self seen result }
    {
        let sum = sum_at(self.edge, seen.total);
        Stopped {
            sum: Units {
                place: self.edge - NEXT_DEPTH * (allowance - self.passes - 1),
                ..sum
            },
            boundary: self.boundary,
        }
    }
}

impl Outcome {
    /// What the end of a chain leaves to round: nothing where the terms cancel, S, or a value just
    /// above or below the boundary, which lies between the same two boundaries as the sum.
    pub fn left(self) -> Unrounded
        requires { Roundable self }
        ensures { Leaves self result }
    {
        match self {
            Outcome::Zero => nothing(),
            Outcome::Exact(s) => s.narrowed(false),
            Outcome::Inexact(s) => s.narrowed(true),
            Outcome::Below(b) => b.quarters(window::sub(window::shl(b.whole, 2), window::power(0))),
            Outcome::On(b) => b.narrowed(false),
            Outcome::Above(b) => b.quarters(window::shl(b.whole, 2)),
        }
    }
}

/// The end of a chain: how the sum came out, after how many passes, and where the last one cut.
#[derive(Clone, Copy)]
pub struct ExactSum {
    pub outcome: Outcome,
    pub passes: u64,
    pub edge: u64,
}
