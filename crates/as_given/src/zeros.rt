// Totals without a term, under settings of any numbers.
ghost use Rattle.std.specs.Prelude.{◌≡◌, false};
ghost use Rattle.totals_spec.specs.formats.Decode as dec;
ghost use Rattle.totals_spec.specs.sums.Totals as totals;
ghost use Rattle.format.specs.Settings.{settings_of};
ghost use Rattle.format.specs.Layouts.{layout_of};
ghost use Rattle.reduction.specs.Answered.{answer_of};

use crate::settings::read_settings;
use format::layout::Layout;
use format::settings::Settings;
use reduction::total::Answer;

/// Whether terms that cancel give -0.
pub fn zero_sum_is_negative(settings: Settings) -> bool
    ensures { result ≡ totals.towards_negative (settings_of settings) }
{
    read_settings(settings).zero_sum_is_negative()
}

/// The sign of a sum of zeros, of which some are positive and some negative. None at all give +0.
pub fn zero_sum_sign(settings: Settings, positive: bool, negative: bool) -> bool
    ensures { let towards = totals.towards_negative (settings_of settings) in
        result ≡ totals.zero_sign positive negative towards }
{
    read_settings(settings).zero_sum_sign(positive, negative)
}

/// The record of a target where the list has no term: a zero, by the signs of the listed zeros.
pub fn print_zero(
    target: Layout,
    settings: Settings,
    subnormal: bool,
    positive_zero: bool,
    negative_zero: bool,
) -> Answer
    ensures { let towards = totals.towards_negative (settings_of settings) in
        let zero = dec.zero_of (totals.zero_sign positive_zero negative_zero towards) in
        answer_of result ≡ totals.special (layout_of target) subnormal zero false }
{
    reduction::total::print_zero(
        target,
        read_settings(settings),
        subnormal,
        positive_zero,
        negative_zero,
    )
}
