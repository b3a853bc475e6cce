// Settings of any numbers.
ghost use Rattle.format.specs.Settings.{settings_of};
ghost use Rattle.format.specs.Environments.{env_of};
ghost use Rattle.as_given.specs.Reading.{ReadAs};

use crate::modes::{read_nan_propagation, read_rounding, read_switch, read_tininess};
use format::env::Env;
use format::settings::Settings;

/// Settings as every definition reads them, be they in their ranges or not (totals_spec,
/// Settings).
pub fn read_settings(settings: Settings) -> Env
    ensures { ReadAs (settings_of settings) (env_of result) }
{
    Env {
        rounding: read_rounding(settings.rounding),
        tininess: read_tininess(settings.tininess),
        nan_propagation: read_nan_propagation(settings.nan_propagation),
        default_nan_negative: read_switch(settings.default_nan_negative),
        flush_to_zero: read_switch(settings.flush_to_zero),
        denormals_are_zero: read_switch(settings.denormals_are_zero),
        saturate: read_switch(settings.saturate),
        precision: if settings.precision == 0 {
            None
        } else {
            Some(settings.precision)
        },
    }
}
