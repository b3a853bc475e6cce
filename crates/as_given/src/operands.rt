// Operands and the choice among NaNs, under settings of any numbers.
ghost use Rattle.std.specs.Prelude.{◌≡◌};
ghost use Rattle.totals_spec.specs.formats.Decode as dec;
ghost use Rattle.totals_spec.specs.formats.Settings as spec;
ghost use Rattle.totals_spec.specs.sums.Nan as nans;
ghost use Rattle.format.specs.Settings.{settings_of};
ghost use Rattle.format.specs.Layouts.{layout_of};
ghost use Rattle.format.specs.Unpacked.{unpacked_of};
ghost use Rattle.binary.specs.Nans.{nan_of, selected_of};

use crate::modes::read_nan_propagation;
use crate::settings::read_settings;
use binary::Read;
use binary::nan::Nan;
use format::layout::Layout;
use format::settings::Settings;
use format::unpacked::Unpacked;

/// An operand: the decoded number, or under denormals-are-zero a signed zero in place of a
/// subnormal one.
pub fn operand(layout: Layout, settings: Settings, bits: u64) -> Read
    ensures { (unpacked_of result.value
        ≡ dec.operand (layout_of layout) (settings_of settings) bits)
        × (result.subnormal ≡ dec.is_subnormal (layout_of layout) bits) }
{
    binary::operand(layout, read_settings(settings), bits)
}

/// The NaN of an invalid operation: quiet, without a payload, with the sign that is set
/// (docs/SPECIFICATION.md, NaNs).
pub fn default_nan(settings: Settings) -> Unpacked
    ensures { unpacked_of result ≡ nans.default_nan_of (settings_of settings) }
{
    binary::nan::default_nan(read_settings(settings))
}

/// The choice among the NaNs so far and one more, by the number of a rule
/// (docs/SPECIFICATION.md, NaNs).
pub fn select(rule: u64, kept: Option<Nan>, next: Option<Nan>) -> Option<Nan>
    ensures { nan_of result ≡ nans.choose (spec.propagation_of rule) (nan_of kept) (nan_of next) }
{
    binary::nan::select(read_nan_propagation(rule), kept, next)
}

/// What the choice gives in the end, made quiet.
pub fn selected(settings: Settings, chosen: Option<Nan>) -> Unpacked
    ensures { unpacked_of result ≡ selected_of (settings_of settings) (nan_of chosen) }
{
    binary::nan::selected(read_settings(settings), chosen)
}
