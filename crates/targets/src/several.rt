// One total, several formats: the plain sum of a list, walked once, and rounded once into each of
// three targets.
ghost use Rattle.std.specs.Prelude.{◌≡◌, ◌&&◌, ◌/◌, length};
ghost use Rattle.totals_spec.specs.formats.Format.{valid_format};
ghost use Rattle.totals_spec.specs.entries.Bytes.{values_in};
ghost use Rattle.targets_spec.specs.several.Several as spec;
ghost use Rattle.totals_spec.specs.rounding.IntoFormat.{reading_with};
ghost use Rattle.format.specs.Layouts.{layout_of};
ghost use Rattle.format.specs.Environments.{env_of};
ghost use Rattle.format.specs.Formats.{format_of};
ghost use Rattle.format.specs.Settings.{settings_of};
ghost use Rattle.totals.specs.Refusal.{first_numbers, sum_numbers};
ghost use Rattle.totals.specs.Asked.{answer_in};
ghost use Rattle.targets.specs.Kept.{KeptIn};
ghost use Rattle.targets.specs.Targets.{target_numbers, Aims, Printable, Prints, Listed};
ghost use Rattle.targets.specs.Targets.{AnswersTo, Told};

use crate::kept::{Kept, keep};
use format::Format;
use format::env::Env;
use format::layout::Layout;
use format::settings::Settings;
use reduction::total::{Answer, print, print_zero};
use totals::entry::VALUE_BYTES;
use totals::lists::met_special;
use totals::refusal::{Refusal, few, layout_for, refuse_if, settings_for, sum_refusal};

/// A format to round into, with settings of its own.
#[derive(Clone, Copy)]
pub struct Target {
    pub format: Format,
    pub settings: Settings,
}

/// The records of three targets, each of which may be refused.
#[derive(Clone, Copy)]
pub struct Printed {
    pub first: Result<Answer, Refusal>,
    pub second: Result<Answer, Refusal>,
    pub third: Result<Answer, Refusal>,
}

// The settings that a list is read with: denormals-are-zero, and all else 0.
fn reading(denormals_are_zero: u64) -> Settings
    ensures { settings_of result ≡ reading_with denormals_are_zero }
{
    Settings {
        denormals_are_zero,
        ..Settings::default()
    }
}

// A list's format, a target's and its settings in their ranges.
#[derive(Clone, Copy)]
struct Aim {
    list: Layout,
    layout: Layout,
    env: Env,
}

// What targets refuse first, 3 and 4, or what they are asked with.
fn aimed(format: Format, target: Target) -> Result<Aim, Refusal>
    ensures { Aims (format_of format) (format_of target.format) (settings_of target.settings)
        (first_numbers
        (valid_format (format_of format) && valid_format (format_of target.format))
        (format_of target.format) (settings_of target.settings)) result }
{
    let list = layout_for(format)?;
    let layout = layout_for(target.format)?;
    let env = settings_for(layout.shape, target.settings)?;
    Ok(Aim { list, layout, env })
}

// The refusal of a target that does not look at the elements, 3, 4 or 6, or what it is asked with.
fn target_refusal(
    format: Format,
    denormals_are_zero: u64,
    count: usize,
    target: Target,
) -> Result<Aim, Refusal>
    ensures { Aims (format_of format) (format_of target.format) (settings_of target.settings)
        (target_numbers (format_of format) denormals_are_zero count (format_of target.format)
        (settings_of target.settings)) result }
{
    let aim = aimed(format, target)?;
    refuse_if(denormals_are_zero > 1, Refusal::SettingOutOfRange)?;
    few(count)?;
    Ok(aim)
}

// The record of a target, where no element has a stray bit: 17, a zero, or what the list leaves,
// rounded.
fn print_one(aim: Aim, kept: Kept) -> Result<Answer, Refusal>
    requires { Printable (layout_of aim.list) (layout_of aim.layout) (env_of aim.env) kept }
    ensures { Prints (layout_of aim.list) (layout_of aim.layout) (env_of aim.env) kept
        (answer_in result) }
{
    let list = aim.list.shape;
    let scan = kept.scan;
    if aim.layout.shape.digits() > list.digits() || met_special(&scan) {
        return Err(Refusal::TargetOutOfReach);
    }
    Ok(match kept.sum {
        Some(sum) => print(list, aim.layout, aim.env, scan.subnormal, sum),
        None => print_zero(
            aim.layout,
            aim.env,
            scan.subnormal,
            scan.positive_zero,
            scan.negative_zero,
        ),
    })
}

// The record of a target of a list of so many values.
fn into_target(
    format: Format,
    denormals_are_zero: u64,
    count: usize,
    list: Result<Kept, Refusal>,
    target: Result<Target, Refusal>,
) -> Result<Answer, Refusal>
    requires { sum_numbers (format_of format) (reading_with denormals_are_zero) 0 count ≡ 0
        → Listed (format_of format) denormals_are_zero count list }
    ensures { AnswersTo (format_of format) denormals_are_zero count target list
        (answer_in result) }
{
    let aim = target_refusal(format, denormals_are_zero, count, target?)?;
    print_one(aim, list?)
}

// The walk of a list that is not refused as it stands.
fn walk_once(format: Format, denormals_are_zero: u64, values: &[u8]) -> Result<Kept, Refusal>
    ensures { sum_numbers (format_of format) (reading_with denormals_are_zero) 0
        (length values.now / 8) ≡ 0
        → KeptIn (format_of format) (reading_with denormals_are_zero)
        (values_in values.now) result }
{
    let count = values.len() / VALUE_BYTES;
    let (asked, _) = sum_refusal(format, reading(denormals_are_zero), 0, count)?;
    keep(asked.layout, asked.env, values)
}

// The plain sum of the values in three targets, or why a target is refused before.
pub(crate) fn into_three(
    format: Format,
    denormals_are_zero: u64,
    values: &[u8],
    first: Result<Target, Refusal>,
    second: Result<Target, Refusal>,
    third: Result<Target, Refusal>,
) -> Printed
    ensures { let format = format_of format in
        let values = values_in values.now in
        Told format denormals_are_zero values first (answer_in result.first)
        × Told format denormals_are_zero values second (answer_in result.second)
        × Told format denormals_are_zero values third (answer_in result.third) }
{
    let count = values.len() / VALUE_BYTES;
    let list = walk_once(format, denormals_are_zero, values);
    Printed {
        first: into_target(format, denormals_are_zero, count, list, first),
        second: into_target(format, denormals_are_zero, count, list, second),
        third: into_target(format, denormals_are_zero, count, list, third),
    }
}

/// The plain sum of the values, exact and rounded once into each of three targets. Values are
/// bytes, eight to a value, little end first; bytes past the last whole value are not looked at. A
/// target is refused with 3, 4, 6, 7 or 17, whatever the others are (the specification, "Targets").
pub fn in_three(
    format: Format,
    denormals_are_zero: u64,
    values: &[u8],
    first: Target,
    second: Target,
    third: Target,
) -> Printed
    ensures { let list = format_of format in
        let values = values_in values.now in
        (answer_in result.first ≡ spec.target_answer list denormals_are_zero values
        (format_of first.format) (settings_of first.settings))
        × (answer_in result.second ≡ spec.target_answer list denormals_are_zero values
        (format_of second.format) (settings_of second.settings))
        × (answer_in result.third ≡ spec.target_answer list denormals_are_zero values
        (format_of third.format) (settings_of third.settings)) }
{
    into_three(
        format,
        denormals_are_zero,
        values,
        Ok(first),
        Ok(second),
        Ok(third),
    )
}
