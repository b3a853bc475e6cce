// Kind 4: totals of values of ten bytes, in the byte entries alone.
ghost use Rattle.std.specs.Prelude.{◌≡◌, true};
ghost use Rattle.totals_spec.specs.sums.Nan.{default_nan_of};
ghost use Rattle.totals_spec.specs.sums.Totals.{pairs, special};
ghost use Rattle.totals_spec.specs.ten_bytes.Extended as spec;
ghost use Rattle.format.specs.Kinds.{bias_in};
ghost use Rattle.format.specs.Environments.{env_of};
ghost use Rattle.format.specs.Formats.{format_of};
ghost use Rattle.format.specs.Settings.{settings_of};
ghost use Rattle.binary.specs.Summands.{summand_in, summand_number};
ghost use Rattle.reduction.specs.Answered.{answer_as};
ghost use Rattle.totals.specs.Refusal.{first_numbers};
ghost use Rattle.totals.specs.Asked.{AsksTens, AsksTenSum};

use crate::entry::TEN_BYTES;
use crate::lists::{dot_of, sum_of};
use crate::refusal::{Refusal, few, refuse_if, settings_for, summand_for};
use binary::extended::extended;
use binary::nan::default_nan;
use binary::summand::Summand;
use format::Format;
use format::env::Env;
use format::settings::Settings;
use reduction::extended::any_unsupported;
use reduction::lists::{scan_list, scan_pairs};
use reduction::numbers::Tens;
use reduction::scan::Scan;
use reduction::total::{Wide, special as special_record};

// The one format of kind 4.
const EXPONENT_BITS: u64 = 15;

const WIDTH: u64 = 80;

fn unnamed(bias: Option<i64>) -> bool
    ensures { result ≡ spec.unnamed (bias_in bias) }
{
    bias.is_none()
}

// Kind 4 is offered in one format.
#[tactic(auto, unfolding(totals_spec::specs::ten_bytes::Extended::valid_extended))]
fn valid_extended(format: Format) -> bool
    ensures { result ≡ spec.valid_extended (format_of format) }
{
    format.exponent_bits == EXPONENT_BITS && format.width == WIDTH && unnamed(format.named)
}

// What totals of this kind refuse first, 3 and 4.
fn asked(format: Format, settings: Settings) -> Result<Env, Refusal>
    ensures { AsksTens (settings_of settings)
        (first_numbers (spec.valid_extended (format_of format)) spec.extended
        (settings_of settings)) result }
{
    if !valid_extended(format) {
        return Err(Refusal::NoSuchFormat);
    }
    settings_for(extended(), settings)
}

// The refusal of a sum, 3, 4 or 6, or what it is asked with.
pub(crate) fn sum_refusal(
    format: Format,
    settings: Settings,
    summand: u64,
    values: &[u8],
) -> Result<(Env, Summand), Refusal>
    ensures { AsksTenSum (settings_of settings) summand
        (spec.extended_sum_refusal (format_of format) (settings_of settings) summand
        (spec.tens_in values.now)) result }
{
    let env = asked(format, settings)?;
    let summand = summand_for(summand)?;
    few(values.len() / TEN_BYTES)?;
    Ok((env, summand))
}

// The refusal of a dot, 3, 4, 5 or 6, or its settings in their ranges.
pub(crate) fn dot_refusal(
    format: Format,
    settings: Settings,
    left: &[u8],
    right: &[u8],
) -> Result<Env, Refusal>
    ensures { AsksTens (settings_of settings)
        (spec.extended_dot_refusal (format_of format) (settings_of settings)
        (spec.tens_in left.now) (spec.tens_in right.now)) result }
{
    let env = asked(format, settings)?;
    let count = left.len() / TEN_BYTES;
    refuse_if(count != right.len() / TEN_BYTES, Refusal::DifferentLengths)?;
    few(count)?;
    Ok(env)
}

// The record where an element is unsupported: that decides before anything else, and the scan only
// says whether some element is subnormal.
fn unsupported(env: Env, scan: Scan) -> Wide
    ensures { answer_as true result
        ≡ spec.with_spread
        (special spec.extended scan.subnormal (default_nan_of (env_of env)) true) }
{
    special_record(extended(), scan.subnormal, default_nan(env), true)
}

// The sum of a list that is not refused.
pub(crate) fn sum(env: Env, summand: Summand, values: &[u8]) -> Wide
    requires { spec.extended_sum_refusal spec.kind4 (env_of env) (summand_number summand)
        (spec.tens_in values.now) ≡ 0 }
    ensures { answer_as true result
        ≡ spec.extended_sum (env_of env) (summand_in summand) (spec.tens_in values.now) }
{
    let numbers = Tens { values };
    if any_unsupported(values) {
        return unsupported(env, scan_list(&numbers, env, summand));
    }
    sum_of(env, summand, numbers)
}

// The dot of two lists that is not refused.
pub(crate) fn dot(env: Env, left: &[u8], right: &[u8]) -> Wide
    requires { spec.extended_dot_refusal spec.kind4 (env_of env) (spec.tens_in left.now)
        (spec.tens_in right.now) ≡ 0 }
    ensures { answer_as true result
        ≡ spec.extended_dot (env_of env)
        (pairs (spec.tens_in left.now) (spec.tens_in right.now)) }
{
    let left_tens = Tens { values: left };
    let right_tens = Tens { values: right };
    if any_unsupported(left) || any_unsupported(right) {
        return unsupported(env, scan_pairs(&left_tens, &right_tens, env));
    }
    dot_of(env, left_tens, right_tens)
}
