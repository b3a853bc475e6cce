// A first figure: a sum or a dot within a number of passes that the caller allows. A chain that
// takes more is told as far as its last pass allowed has seen it.
ghost use Rattle.std.specs.Prelude.{◌≡◌, true, List, ◌^◌, ◌<◌, IfSome, length};
ghost use Rattle.totals_spec.specs.entries.Bytes.{values_in};
ghost use Rattle.totals_spec.specs.terms.Terms.{Term};
ghost use Rattle.totals_spec.specs.sums.Totals as totals;
ghost use Rattle.targets_spec.specs.within.Estimate as spec;
ghost use Rattle.limbs.specs.Value.{value};
ghost use Rattle.format.specs.Shapes.{shape_of};
ghost use Rattle.format.specs.Layouts.{layout_of};
ghost use Rattle.format.specs.Environments.{env_of};
ghost use Rattle.format.specs.Formats.{format_of};
ghost use Rattle.format.specs.Settings.{settings_of};
ghost use Rattle.binary.specs.Summands.{summand_in, summand_number};
ghost use Rattle.window.specs.Chain.{boundary_of, signed_of};
ghost use Rattle.totals.specs.Refusal.{sum_numbers, dot_numbers};
ghost use Rattle.totals.specs.Walked.{Within};
ghost use Rattle.targets.specs.Estimates.{seen_at, estimate_of, estimate_in, Bounded, BoundedIn};
ghost use Rattle.targets.specs.Estimates.{Made};

use binary::summand::Summand;
use format::Format;
use format::env::Env;
use format::layout::Layout;
use format::settings::Settings;
use format::shape::Shape;
use reduction::allowance::AtMost;
use reduction::numbers::Encoded;
use reduction::total::{Answer, Wide, place};
use totals::lists::{dot_in, sum_in};
use totals::refusal::{Refusal, dot_refusal, refuse_if, sum_refusal};
use totals::stray::no_stray;
use values::elements::{Bytes, Elements, Words};
use window::Stopped;

/// A boundary: a whole number of units of 2^`unit`, at least one, with a sign.
#[derive(Clone, Copy, PartialEq, Eq, Debug)]
pub struct Boundary {
    pub negative: bool,
    pub whole: [u64; 12],
    pub unit: i64,
}

/// What the last pass allowed has seen: S, a sign and a magnitude in units of its edge, and the
/// boundary that it was compared against. The exact sum lies fewer of these units than there are
/// terms from S and the boundary together.
#[derive(Clone, Copy, PartialEq, Eq, Debug)]
pub struct Seen {
    pub passes: u64,
    pub last_edge: i64,
    pub negative: bool,
    pub sum: [u64; 12],
    pub boundary: Option<Boundary>,
}

/// The answer within an allowance: the total's record, or what was seen of it.
#[derive(Clone, Copy, PartialEq, Eq, Debug)]
pub enum Estimate {
    Full(Answer),
    Unfinished(Seen),
}

// What was seen of a chain over terms in the units of a shape, that stops at a pass.
fn unfinished(shape: Shape, products: bool, passes: u64, at: Stopped) -> Seen
    requires { (at.sum.place < 2 ^ 62)
        × IfSome at.boundary (λ b. (b.place < 2 ^ 62) × (0 < value b.whole)) }
    ensures answer { estimate_of (Estimate.Unfinished result)
        ≡ seen_at (shape_of shape) products passes (boundary_of at.boundary) at.sum.place
        (signed_of at.sum) }
    ensures bounded { Bounded (Estimate.Unfinished result) }
{
    Seen {
        passes,
        last_edge: place(shape, products, at.sum.place),
        negative: at.sum.negative,
        sum: at.sum.whole,
        boundary: match at.boundary {
            Some(b) => Some(Boundary {
                negative: b.negative,
                whole: b.whole,
                unit: place(shape, products, b.place),
            }),
            None => None,
        },
    }
}

// The answer of a total in an offered format, by where its chain ends or stops.
fn told(layout: Layout, products: bool, allowance: u64, total: Result<Wide, Stopped>) -> Estimate
    requires { Made (layout_of layout) allowance total }
    ensures answer { (t : totals.Answer) (ts : List Term)
        → Within (layout_of layout) t ts allowance total
        → estimate_of result ≡ spec.within (layout_of layout) products ts allowance t }
    ensures bounded { Bounded result }
{
    match total {
        Ok(wide) => Estimate::Full(wide.answer),
        Err(at) => Estimate::Unfinished(unfinished(layout.shape, products, allowance, at)),
    }
}

// The sum of a list that passes the tests that do not look at the elements.
fn list_sum<E: Elements>(
    layout: Layout,
    env: Env,
    summand: Summand,
    elements: E,
    allowance: u64,
) -> Result<Estimate, Refusal>
    requires { (sum_numbers (layout_of layout) (env_of env) (summand_number summand)
        (length (E.list elements)) ≡ 0) × (0 < allowance) }
    ensures answer { let format = layout_of layout in
        let values = E.list elements in
        estimate_in result
        ≡ spec.within format (totals.is_square (summand_in summand))
        (totals.sum_terms format (env_of env) (summand_in summand) values) allowance
        (totals.sum_answer format (env_of env) (summand_number summand) values) }
    ensures bounded { BoundedIn result }
{
    no_stray(layout.shape.width, &elements)?;
    let numbers = Encoded { layout, elements };
    let total = sum_in(env, summand, numbers, AtMost(allowance));
    Ok(told(layout, summand == Summand::Square, allowance, total))
}

// The sum of the products of the pairs, likewise.
fn list_dot<E: Elements>(
    layout: Layout,
    env: Env,
    left: E,
    right: E,
    allowance: u64,
) -> Result<Estimate, Refusal>
    requires { (dot_numbers (layout_of layout) (env_of env) (length (E.list left))
        (length (E.list right)) ≡ 0) × (0 < allowance) }
    ensures answer { let format = layout_of layout in
        estimate_in result
        ≡ spec.within format true
        (totals.dot_terms format (env_of env) (E.list left) (E.list right)) allowance
        (totals.dot_answer format (env_of env) (E.list left) (E.list right)) }
    ensures bounded { BoundedIn result }
{
    no_stray(layout.shape.width, &left)?;
    no_stray(layout.shape.width, &right)?;
    let left = Encoded {
        layout,
        elements: left,
    };
    let right = Encoded {
        layout,
        elements: right,
    };
    let total = dot_in(env, left, right, AtMost(allowance));
    Ok(told(layout, true, allowance, total))
}

// The sum, wherever the elements stand.
fn sum_of<E: Elements>(
    format: Format,
    settings: Settings,
    summand: u64,
    elements: E,
    allowance: u64,
) -> Result<Estimate, Refusal>
    ensures answer { estimate_in result
        ≡ spec.sum_within (format_of format) (settings_of settings) summand (E.list elements)
        allowance }
    ensures bounded { BoundedIn result }
{
    refuse_if(allowance == 0, Refusal::NoAllowance)?;
    let (asked, summand) = sum_refusal(format, settings, summand, elements.count())?;
    list_sum(asked.layout, asked.env, summand, elements, allowance)
}

fn dot_of<E: Elements>(
    format: Format,
    settings: Settings,
    left: E,
    right: E,
    allowance: u64,
) -> Result<Estimate, Refusal>
    ensures answer { estimate_in result
        ≡ spec.dot_within (format_of format) (settings_of settings) (E.list left) (E.list right)
        allowance }
    ensures bounded { BoundedIn result }
{
    refuse_if(allowance == 0, Refusal::NoAllowance)?;
    let asked = dot_refusal(format, settings, left.count(), right.count())?;
    list_dot(asked.layout, asked.env, left, right, allowance)
}

/// The sum of the values (summand 0), of their magnitudes (1) or of their squares (2), within an
/// allowance of passes, at least one. Refused with 16, 3, 4, 6 or 7 (the specification, "Within an
/// allowance").
pub fn sum_within(
    format: Format,
    settings: Settings,
    summand: u64,
    values: &[u64],
    allowance: u64,
) -> Result<Estimate, Refusal>
    ensures answer { estimate_in result
        ≡ spec.sum_within (format_of format) (settings_of settings) summand values.now
        allowance }
    ensures bounded { BoundedIn result }
{
    sum_of(format, settings, summand, Words { values }, allowance)
}

/// The sum of the products of the pairs, within an allowance of passes. Refused with 16, or with 3
/// to 7.
pub fn dot_within(
    format: Format,
    settings: Settings,
    left: &[u64],
    right: &[u64],
    allowance: u64,
) -> Result<Estimate, Refusal>
    ensures answer { estimate_in result
        ≡ spec.dot_within (format_of format) (settings_of settings) left.now right.now allowance }
    ensures bounded { BoundedIn result }
{
    let left = Words { values: left };
    let right = Words { values: right };
    dot_of(format, settings, left, right, allowance)
}

/// `sum_within` over bytes, eight to a value, little end first. Bytes past the last whole value are
/// not looked at.
pub fn sum_bytes_within(
    format: Format,
    settings: Settings,
    summand: u64,
    values: &[u8],
    allowance: u64,
) -> Result<Estimate, Refusal>
    ensures answer { estimate_in result
        ≡ spec.sum_within (format_of format) (settings_of settings) summand (values_in values.now)
        allowance }
    ensures bounded { BoundedIn result }
{
    sum_of(format, settings, summand, Bytes { values }, allowance)
}

/// `dot_within` over bytes, likewise.
pub fn dot_bytes_within(
    format: Format,
    settings: Settings,
    left: &[u8],
    right: &[u8],
    allowance: u64,
) -> Result<Estimate, Refusal>
    ensures answer { estimate_in result
        ≡ spec.dot_within (format_of format) (settings_of settings) (values_in left.now)
        (values_in right.now) allowance }
    ensures bounded { BoundedIn result }
{
    let left = Bytes { values: left };
    let right = Bytes { values: right };
    dot_of(format, settings, left, right, allowance)
}
