// Settings that are in their ranges.
ghost use Rattle.std.specs.Prelude.{◌<◌};
ghost use Rattle.std.specs.Option.{ForSome};

use crate::modes::{NanPropagation, Rounding, Tininess, UnknownMode, switch};
use crate::settings::Settings;
use crate::shape::Shape;

/// Settings that are in their ranges, as the arithmetic reads them (docs/SPECIFICATION.md,
/// Settings).
#[derive(Clone, Copy, Debug, PartialEq, Eq)]
pub struct Env {
    pub rounding: Rounding,
    pub tininess: Tininess,
    pub nan_propagation: NanPropagation,
    pub default_nan_negative: bool,
    pub flush_to_zero: bool,
    pub denormals_are_zero: bool,
    pub saturate: bool,
    /// the digits to round to, where they are fewer than the format's
    pub precision: Option<u64>,
    pub ghost positive: { ForSome precision (λ q. 0 < q) },
}

impl Env {
    ghost use Rattle.std.specs.Prelude.{◌≡◌, false, IsTrue, MatchResult, MatchOption};
    ghost use Rattle.totals_spec.specs.formats.Settings.{valid_settings, precision_of, is_toward_negative, rounding_of};
    ghost use Rattle.format.specs.Settings.{settings_of};
    ghost use Rattle.format.specs.Shapes.{shape_of};
    ghost use Rattle.totals_spec.specs.sums.Totals.{zero_sign};
    ghost use Rattle.format.specs.Modes.{rounding_number};
    ghost use Rattle.format.specs.Environments.{env_of, AreModes, IsEnv};

    // The settings but for the precision, which depends on a format.
    fn modes(settings: Settings) -> Result<Env, UnknownMode>
        ensures { MatchResult result (λ e. env_of e ≡ settings_of settings)
            (λ e. AreModes (settings_of settings) false) }
    {
        Ok(Env {
            rounding: Rounding::try_from(settings.rounding)?,
            tininess: Tininess::try_from(settings.tininess)?,
            nan_propagation: NanPropagation::try_from(settings.nan_propagation)?,
            default_nan_negative: switch(settings.default_nan_negative)?,
            flush_to_zero: switch(settings.flush_to_zero)?,
            denormals_are_zero: switch(settings.denormals_are_zero)?,
            saturate: switch(settings.saturate)?,
            precision: if settings.precision == 0 {
                None
            } else {
                Some(settings.precision)
            },
        })
    }

    /// The settings, where they are in their ranges for a format. Refusal 4 is the failure of this,
    /// or a summand above 2 (docs/SPECIFICATION.md, Refusals).
    pub fn new(shape: Shape, settings: Settings) -> Option<Env>
        ensures { MatchOption result
            (valid_settings (shape_of shape) (settings_of settings) ≡ false)
            (λ e. IsEnv (shape_of shape) (settings_of settings) e) }
    {
        let Ok(env) = Env::modes(settings) else {
            return None;
        };
        if settings.precision <= shape.digits() {
            Some(env)
        } else {
            None
        }
    }

    /// q, the digits to round to: p where no precision is set.
    pub fn digits(self, shape: Shape) -> u64
        ensures { result ≡ precision_of (shape_of shape) (env_of self) }
    {
        self.precision.unwrap_or(shape.digits())
    }

    /// Whether terms that cancel give -0.
    pub fn zero_sum_is_negative(self) -> bool
        ensures { result ≡ is_toward_negative (rounding_of (rounding_number self.rounding)) }
    {
        self.rounding == Rounding::TowardNegative
    }

    /// The sign of a sum of zeros, of which some are positive and some negative. None at all give
    /// +0.
    pub fn zero_sum_sign(self, positive: bool, negative: bool) -> bool
        ensures { result ≡ zero_sign positive negative
            (is_toward_negative (rounding_of (rounding_number self.rounding))) }
    {
        negative && (!positive || self.zero_sum_is_negative())
    }
}

// As the number 0 in every place names it.
impl Default for Env {
    ghost use Rattle.std.specs.Prelude.{◌≡◌};
    ghost use Rattle.totals_spec.specs.formats.Settings.{no_settings};
    ghost use Rattle.format.specs.Environments.{env_of};

    ghost is_default = { λ e. env_of e ≡ no_settings };

    fn default() -> Env {
        Env {
            rounding: Rounding::TiesToEven,
            tininess: Tininess::BeforeRounding,
            nan_propagation: NanPropagation::SignalingFirst,
            default_nan_negative: false,
            flush_to_zero: false,
            denormals_are_zero: false,
            saturate: false,
            precision: None,
        }
    }
}
