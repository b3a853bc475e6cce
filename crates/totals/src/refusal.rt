// Why a call is refused, and the refusals that do not look at the elements, in the order of their
// numbers.
ghost use Rattle.std.specs.Prelude.{◌≡◌, ◌+◌, ◌*◌, ◌^◌, ◌<◌};
ghost use Rattle.totals_spec.specs.formats.Format.{valid_format};
ghost use Rattle.format.specs.Shapes.{shape_of};
ghost use Rattle.format.specs.Formats.{format_of};
ghost use Rattle.format.specs.Settings.{settings_of};
ghost use Rattle.totals.specs.Refusal.{number_of, place_of, refusal_number};
ghost use Rattle.totals.specs.Refusal.{first_numbers, few_number, sum_numbers, dot_numbers};
ghost use Rattle.totals.specs.Asked.{RefusesIf, LayoutFor, SetFor, SummandFor, Asks, AsksSum};
ghost use Rattle.totals.specs.Asked.{answer_in};

use binary::summand::Summand;
use format::Format;
use format::env::Env;
use format::layout::Layout;
use format::settings::Settings;
use format::shape::Shape;
use reduction::total::Answer;
use values::LIMIT;

// In what an entry returns, the place stands above the number.
const PLACE_UNIT: u64 = 256;

/// Why a call is refused: the first of these that holds, in the order of their numbers (the
/// specification, "Refusals").
#[derive(Clone, Copy, Debug, PartialEq, Eq)]
pub enum Refusal {
    /// 1: a list of bytes ends within a value.
    UnevenLength,
    /// 2: a buffer is too short for what is to be written.
    ShortBuffer,
    /// 3: the format is not offered, or is not named as a whole.
    NoSuchFormat,
    /// 4: a setting, or the summand, is out of its range.
    SettingOutOfRange,
    /// 5: two lists that belong together have different lengths.
    DifferentLengths,
    /// 6: there are more than 268,435,456 elements.
    TooManyElements,
    /// 7: an element does not fit the format's width; the index of the first one.
    StrayBit(usize),
    /// 8: a NaN or an infinity has no pence, and neither has a sum of 2^63 pence or above.
    NoPence,
    /// 9: rows times columns is not the number of cells.
    BadShape,
    /// 10: there are too few places for the totals of the rows, or of the columns.
    NoRoom,
    /// 11: an amount known within a range, or the ceiling, is not one.
    BadAmount,
    /// 12: the bytes are no career page.
    NotAPage,
    /// 13: a span ends before it starts, or beyond the page.
    BadSpan,
    /// 14: no finite number reaches the wanted total.
    NoContribution,
    /// 15: a NaN or an infinity stands in the list, or is the wanted total.
    NotFinite,
    /// 16: no pass is allowed.
    NoAllowance,
    /// 17: the list, or its sum, cannot be rounded into the target.
    TargetOutOfReach,
}

impl Refusal {
    /// The number that stands for it.
    pub fn number(self) -> u64
        ensures { result ≡ number_of self }
    {
        match self {
            Refusal::UnevenLength => 1,
            Refusal::ShortBuffer => 2,
            Refusal::NoSuchFormat => 3,
            Refusal::SettingOutOfRange => 4,
            Refusal::DifferentLengths => 5,
            Refusal::TooManyElements => 6,
            Refusal::StrayBit(_) => 7,
            Refusal::NoPence => 8,
            Refusal::BadShape => 9,
            Refusal::NoRoom => 10,
            Refusal::BadAmount => 11,
            Refusal::NotAPage => 12,
            Refusal::BadSpan => 13,
            Refusal::NoContribution => 14,
            Refusal::NotFinite => 15,
            Refusal::NoAllowance => 16,
            Refusal::TargetOutOfReach => 17,
        }
    }

    /// The place beside the number, 0 for what has none.
    pub fn place(self) -> u64
        ensures { result ≡ place_of self }
    {
        match self {
            Refusal::StrayBit(place) => place as u64,
            _ => 0,
        }
    }

    /// What an entry returns of it: the number, plus 256 times the place.
    #[inline(always)]
    pub fn code(self) -> u64
        requires { place_of self < 2 ^ 32 }
        ensures { result ≡ number_of self + 256 * place_of self }
    {
        self.number() + PLACE_UNIT * self.place()
    }
}

/// A refusal where the test holds.
pub fn refuse_if(holds: bool, refusal: Refusal) -> Result<(), Refusal>
    ensures { RefusesIf holds refusal result }
{
    if holds { Err(refusal) } else { Ok(()) }
}

/// The number of what may be refused, 0 where it is accepted.
pub fn number(done: Result<(), Refusal>) -> u64
    ensures { result ≡ refusal_number done }
{
    match done {
        Ok(()) => 0,
        Err(refusal) => refusal.number(),
    }
}

/// The result of a total, 0 where it is refused.
#[inline(always)]
pub fn result_of(total: Result<Answer, Refusal>) -> u64
    ensures { result ≡ (answer_in total).result }
{
    match total {
        Ok(answer) => answer.result,
        Err(_) => 0,
    }
}

/// A format that is offered, and settings in their ranges for it.
#[derive(Clone, Copy)]
pub struct Asked {
    pub layout: Layout,
    pub env: Env,
}

/// The layout of a format that is offered.
pub fn layout_for(format: Format) -> Result<Layout, Refusal>
    ensures { LayoutFor (format_of format) result }
{
    Layout::new(format).ok_or(Refusal::NoSuchFormat)
}

/// Settings in their ranges, for a format that is offered.
pub fn settings_for(shape: Shape, settings: Settings) -> Result<Env, Refusal>
    ensures { SetFor (shape_of shape) (settings_of settings) result }
{
    Env::new(shape, settings).ok_or(Refusal::SettingOutOfRange)
}

// What totals of words refuse first: a format that is not offered, and settings that are not those
// of its digits.
fn ranged(format: Format, settings: Settings) -> Result<Asked, Refusal>
    ensures { Asks (format_of format) (settings_of settings)
        (first_numbers (valid_format (format_of format)) (format_of format)
        (settings_of settings)) result }
{
    let layout = layout_for(format)?;
    let env = settings_for(layout.shape, settings)?;
    Ok(Asked { layout, env })
}

/// The summand with this number.
pub fn summand_for(number: u64) -> Result<Summand, Refusal>
    ensures { SummandFor number result }
{
    Summand::try_from(number).map_err(|_| Refusal::SettingOutOfRange)
}

/// Refused where a list has too many elements, or pairs.
pub fn few(count: usize) -> Result<(), Refusal>
    ensures { refusal_number result ≡ few_number count }
{
    refuse_if(count > LIMIT, Refusal::TooManyElements)
}

/// The refusal of a sum that does not look at its elements, or what it is asked with.
pub fn sum_refusal(
    format: Format,
    settings: Settings,
    summand: u64,
    count: usize,
) -> Result<(Asked, Summand), Refusal>
    ensures { AsksSum (format_of format) (settings_of settings) summand
        (sum_numbers (format_of format) (settings_of settings) summand count) result }
{
    let asked = ranged(format, settings)?;
    let summand = summand_for(summand)?;
    few(count)?;
    Ok((asked, summand))
}

/// The refusal of a dot that does not look at its elements, or what it is asked with.
pub fn dot_refusal(
    format: Format,
    settings: Settings,
    left: usize,
    right: usize,
) -> Result<Asked, Refusal>
    ensures { Asks (format_of format) (settings_of settings)
        (dot_numbers (format_of format) (settings_of settings) left right) result }
{
    let asked = ranged(format, settings)?;
    refuse_if(left != right, Refusal::DifferentLengths)?;
    few(left)?;
    Ok(asked)
}
