// Terms, what an element or a pair adds: a sign, a significand of two words and a shift in units.
ghost use Rattle.binary.specs.declared.summand.Summand.TheVariants.{Square};
ghost use Rattle.std.specs.Prelude.{◌≡◌, ◌≢◌, ◌&&◌, ◌+◌, ◌-◌, ◌*◌, ◌^◌, ◌<◌};
ghost use Rattle.limbs.specs.Value.{bit_length};
ghost use Rattle.totals_spec.specs.formats.Format as spec;
ghost use Rattle.totals_spec.specs.terms.Terms as terms;
ghost use Rattle.totals_spec.specs.formats.Decode as dec;
ghost use Rattle.totals_spec.specs.sums.Totals as totals;
ghost use Rattle.totals_spec.specs.pence.Hundredfold.{hundred_of, hundred_item};
ghost use Rattle.format.specs.Layouts.{layout_of};
ghost use Rattle.format.specs.Environments.{env_of};
ghost use Rattle.format.specs.Unpacked.{unpacked_of};
ghost use Rattle.binary.specs.Summands.{summand_in};
ghost use Rattle.binary.specs.Terms.{item_of, StandsFor, Bounded};
ghost use Rattle.binary.specs.Plain.{plain_number, plain_product, both_plain};
ghost use Rattle.binary.specs.Plain.{plain_field, plain_fields, field_top, fields_top};

use crate::summand::Summand;
use crate::{Read, field_of, fraction_of, is_plain, operand, sign_of};
use format::ROOM;
use format::env::Env;
use format::layout::Layout;
use format::unpacked::Unpacked;
use limbs::word;
use limbs::word::{power, widening_mul};

// The highest of n bits at the shift k lies at n + k + ROOM - 1.
const TOP: u64 = ROOM - 1;

// The shift of a normal number is its exponent field less 1, and that of a product the sum of two
// fields less 2.
const FIELD_TOP: u64 = TOP - 1;

const FIELDS_TOP: u64 = TOP - 2;

/// significand * 2^shift units; both are 0 for what is no term.
#[derive(Clone, Copy)]
pub struct Term {
    pub negative: bool,
    pub significand: u128,
    pub shift: u64,
}

/// What an element or a pair is, with the position that counts for T where it is a term.
#[derive(Clone, Copy)]
pub enum Item {
    Nan,
    /// an infinity times a zero
    Invalid,
    Infinite(bool),
    Zero(bool),
    Top(u64),
}

/// What stands for no term: nothing is added.
pub fn no_term() -> Term
    ensures { (result.significand ≡ 0) × (result.shift ≡ 0) }
{
    Term {
        negative: false,
        significand: 0,
        shift: 0,
    }
}

/// The product of m * 2^k and n * 2^j.
#[tactic(auto, unfolding(totals_spec::specs::terms::Terms::product, crate::specs::Terms::magnitude))]
pub fn product(negative: bool, k: u64, m: u64, j: u64, n: u64) -> Term
    requires { (k < 268435456) × (j < 268435456) × (0 < m) × (0 < n) }
    ensures { StandsFor result (terms.term (terms.product negative k m j n)) }
{
    Term {
        negative,
        significand: widening_mul(m, n),
        shift: k + j + ROOM,
    }
}

// The sign that counts: in magnitude and square sums everything is positive.
fn summand_sign(summand: Summand, negative: bool) -> bool
    ensures { result ≡ (totals.is_value (summand_in summand) && negative) }
{
    summand == Summand::Value && negative
}

// The term of a number, by the summand.
#[tactic(auto, using(crate::proofs::Elements::single_of))]
fn summand_term(summand: Summand, negative: bool, shift: u64, significand: u64) -> Term
    requires { (shift < 268435456) × (0 < significand) }
    ensures stands_for { StandsFor result
        (terms.item_of (summand_in summand) (dec.finite negative shift significand)) }
    ensures one_word { summand ≢ Square → result.significand < 2 ^ 64 }
{
    match summand {
        Summand::Square => product(false, shift, significand, shift, significand),
        _ => Term {
            negative: summand_sign(summand, negative),
            significand: u128::from(significand),
            shift: shift + ROOM,
        },
    }
}

// The significand of a normal number.
fn plain_significand(layout: Layout, bits: u64) -> u64
    ensures { result
        ≡ 2 ^ spec.fraction_bits (layout_of layout) + dec.fraction_of (layout_of layout) bits }
{
    power(layout.shape.fraction_bits()) + fraction_of(layout, bits)
}

// An operand, for the passes: a call and not a copy in each loop, which few elements reach.
#[inline(never)]
fn closer(layout: Layout, env: Env, bits: u64) -> Read
    ensures { (unpacked_of result.value ≡ dec.operand (layout_of layout) (env_of env) bits)
        × (result.subnormal ≡ dec.is_subnormal (layout_of layout) bits) }
{
    operand(layout, env, bits)
}

// The term of an operand. This and `operand_pair` are inlined into the loops over elements that
// take a closer look.
#[inline(always)]
#[tactic(auto, unfolding(crate::specs::Terms::magnitude))]
pub(crate) fn operand_term(summand: Summand, value: Unpacked) -> Term
    requires { Bounded (unpacked_of value) }
    ensures stands_for { StandsFor result (terms.item_of (summand_in summand) (unpacked_of value)) }
    ensures one_word { summand ≢ Square → result.significand < 2 ^ 64 }
{
    match value {
        Unpacked::Finite {
            negative,
            shift,
            significand,
        } => summand_term(summand, negative, shift, significand),
        Unpacked::Zero(_) | Unpacked::Infinity(_) | Unpacked::Nan { .. } => no_term(),
    }
}

/// The term of an element that takes a closer look.
#[tactic(auto, unfolding(totals_spec::specs::terms::Terms::item), using(crate::proofs::Elements::operands))]
pub fn looked_term(layout: Layout, env: Env, summand: Summand, bits: u64) -> Term
    ensures stands_for { StandsFor result
        (terms.item (layout_of layout) (env_of env) (summand_in summand) bits) }
    ensures one_word { summand ≢ Square → result.significand < 2 ^ 64 }
{
    operand_term(summand, closer(layout, env, bits).value)
}

/// The term of a normal number.
pub fn plain_term(layout: Layout, summand: Summand, bits: u64) -> Term
    requires { (0 < dec.field_of (layout_of layout) bits) }
    ensures stands_for { StandsFor result
        (terms.item_of (summand_in summand) (plain_number (layout_of layout) bits)) }
    ensures one_word { summand ≢ Square → result.significand < 2 ^ 64 }
{
    summand_term(
        summand,
        sign_of(layout, bits),
        field_of(layout, bits) - 1,
        plain_significand(layout, bits),
    )
}

/// A hundred times an element that takes a closer look. Apart from the terms above, whose loops are
/// not to test for it in each turn.
#[tactic(auto, unfolding(totals_spec::specs::pence::Hundredfold::hundred_item, crate::specs::Terms::magnitude))]
pub fn looked_hundred(layout: Layout, env: Env, bits: u64) -> Term
    ensures { StandsFor result (hundred_item (layout_of layout) (env_of env) bits) }
{
    match closer(layout, env, bits).value {
        Unpacked::Finite {
            negative,
            shift,
            significand,
        } => product(negative, shift, significand, 0, 100),
        Unpacked::Zero(_) | Unpacked::Infinity(_) | Unpacked::Nan { .. } => no_term(),
    }
}

/// A hundred times a normal number.
pub fn plain_hundred(layout: Layout, bits: u64) -> Term
    requires { (0 < dec.field_of (layout_of layout) bits) }
    ensures { StandsFor result (hundred_of (plain_number (layout_of layout) bits)) }
{
    product(
        sign_of(layout, bits),
        field_of(layout, bits) - 1,
        plain_significand(layout, bits),
        0,
        100,
    )
}

// The term of a pair of operands.
#[inline(always)]
#[tactic(auto, unfolding(crate::specs::Terms::magnitude))]
pub(crate) fn operand_pair(left: Unpacked, right: Unpacked) -> Term
    requires { Bounded (unpacked_of left) × Bounded (unpacked_of right) }
    ensures { StandsFor result (terms.pair_of (unpacked_of left) (unpacked_of right)) }
{
    use Unpacked::{Finite, Infinity, Nan, Zero};
    match (left, right) {
        (
            Finite {
                negative,
                shift,
                significand,
            },
            Finite {
                negative: minus,
                shift: j,
                significand: n,
            },
        ) => product(negative != minus, shift, significand, j, n),
        (Zero(_) | Infinity(_) | Nan { .. }, _) | (_, Zero(_) | Infinity(_) | Nan { .. }) =>
            no_term(),
    }
}

/// The term of a pair that takes a closer look.
#[tactic(auto, unfolding(totals_spec::specs::terms::Terms::pair_item), using(crate::proofs::Elements::operands))]
pub fn looked_pair(layout: Layout, env: Env, left: u64, right: u64) -> Term
    ensures { StandsFor result (terms.pair_item (layout_of layout) (env_of env) (left, right)) }
{
    operand_pair(
        closer(layout, env, left).value,
        closer(layout, env, right).value,
    )
}

/// The term of two normal numbers.
pub fn plain_product(layout: Layout, left: u64, right: u64) -> Term
    requires { (0 < dec.field_of (layout_of layout) left)
        × (0 < dec.field_of (layout_of layout) right) }
    ensures { StandsFor result (terms.term (plain_product (layout_of layout) left right)) }
{
    let negative = sign_of(layout, left) != sign_of(layout, right);
    product(
        negative,
        field_of(layout, left) - 1,
        plain_significand(layout, left),
        field_of(layout, right) - 1,
        plain_significand(layout, right),
    )
}

/// Whether both of a pair are plainly normal numbers.
pub fn both_plain(layout: Layout, left: u64, right: u64) -> bool
    ensures { result ≡ both_plain (layout_of layout) left right }
{
    is_plain(layout, left) && is_plain(layout, right)
}

// The position of the highest bit of m * 2^k.
fn top_of(k: u64, m: u64) -> u64
    requires { (k < 268435456) × (0 < m) }
    ensures { result ≡ bit_length m + k + 1024 - 1 }
{
    k + (word::bit_length(m) as u64) + TOP
}

// That of a product: one above the sum of its factors' tops.
fn top_of_product(k: u64, m: u64, j: u64, n: u64) -> u64
    requires { (k < 268435456) × (j < 268435456) × (0 < m) × (0 < n) }
    ensures { result ≡ bit_length m + bit_length n + k + j + 1024 - 1 }
{
    k + j + (word::bit_length(m) as u64) + (word::bit_length(n) as u64) + TOP
}

/// The exponent field of an element that is plainly a normal number, and 0 for one that takes a
/// closer look.
pub fn plain_field(layout: Layout, bits: u64) -> u64
    ensures { result ≡ plain_field (layout_of layout) bits }
{
    if is_plain(layout, bits) {
        field_of(layout, bits)
    } else {
        0
    }
}

/// The same of a pair: the sum of the two fields.
pub fn plain_fields(layout: Layout, left: u64, right: u64) -> u64
    ensures { result ≡ plain_fields (layout_of layout) left right }
{
    if both_plain(layout, left, right) {
        field_of(layout, left) + field_of(layout, right)
    } else {
        0
    }
}

// The bit length of every normal number's significand, that of the least one.
fn normal_length(layout: Layout) -> u64
    ensures { result ≡ spec.digits (layout_of layout) }
{
    word::bit_length(power(layout.shape.fraction_bits())) as u64
}

/// The position that counts for T of plainly normal pairs, from the greatest sum of fields; 0 where
/// there are none.
pub fn plain_pair_top(layout: Layout, fields: u64) -> u64
    requires { (fields < 536870912) }
    ensures { result ≡ fields_top (layout_of layout) fields }
{
    if fields == 0 {
        0
    } else {
        fields + 2 * normal_length(layout) + FIELDS_TOP
    }
}

/// The same of elements, from the greatest field, by the summand: a square is a pair of an element
/// with itself.
pub fn plain_top(layout: Layout, summand: Summand, field: u64) -> u64
    requires { (field < 268435456) }
    ensures { result ≡ field_top (layout_of layout) (summand_in summand) field }
{
    match summand {
        Summand::Square => plain_pair_top(layout, field + field),
        Summand::Value | Summand::Magnitude if field == 0 => 0,
        Summand::Value | Summand::Magnitude => field + normal_length(layout) + FIELD_TOP,
    }
}

/// What an operand is in a sum, by the summand.
#[tactic(auto, unfolding(totals_spec::specs::terms::Terms::product, totals_spec::specs::terms::Terms::single))]
pub fn item_of(summand: Summand, value: Unpacked) -> Item
    requires { Bounded (unpacked_of value) }
    ensures { result ≡ item_of (terms.item_of (summand_in summand) (unpacked_of value)) }
{
    match value {
        Unpacked::Zero(negative) => Item::Zero(summand_sign(summand, negative)),
        Unpacked::Finite {
            shift,
            significand,
            ..
        } => Item::Top(match summand {
            Summand::Value | Summand::Magnitude => top_of(shift, significand),
            Summand::Square => top_of_product(shift, significand, shift, significand),
        }),
        Unpacked::Infinity(negative) => Item::Infinite(summand_sign(summand, negative)),
        Unpacked::Nan { .. } => Item::Nan,
    }
}

/// What a pair of operands is in a dot.
#[tactic(auto, unfolding(totals_spec::specs::terms::Terms::product))]
pub fn pair_of(left: Unpacked, right: Unpacked) -> Item
    requires { Bounded (unpacked_of left) × Bounded (unpacked_of right) }
    ensures { result ≡ item_of (terms.pair_of (unpacked_of left) (unpacked_of right)) }
{
    use Unpacked::{Finite, Infinity, Nan, Zero};
    match (left, right) {
        (Nan { .. }, _) | (_, Nan { .. }) => Item::Nan,
        (Infinity(_), Zero(_)) | (Zero(_), Infinity(_)) => Item::Invalid,
        (Infinity(s), Infinity(t) | Finite { negative: t, .. })
        | (Finite { negative: s, .. }, Infinity(t)) => Item::Infinite(s != t),
        (Zero(s), Zero(t) | Finite { negative: t, .. }) | (Finite { negative: s, .. }, Zero(t)) =>
            Item::Zero(s != t),
        (
            Finite {
                shift: k,
                significand: m,
                ..
            },
            Finite {
                shift: j,
                significand: n,
                ..
            },
        ) => Item::Top(top_of_product(k, m, j, n)),
    }
}
