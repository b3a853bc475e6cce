// The rounding rules, for modes of any number.
ghost use Rattle.std.specs.Prelude.{◌≡◌};
ghost use Rattle.totals_spec.specs.Basics.{is_set};
ghost use Rattle.totals_spec.specs.formats.Settings.{rounding_of};
ghost use Rattle.totals_spec.specs.rounding.Round as spec;
ghost use Rattle.exact.specs.Unrounded.{dropped_of, underflow_of};

use crate::modes::{read_rounding, read_switch};
use exact::rounding::{Dropped, Underflow};

/// Whether a rounding adds one unit to the kept digits (docs/SPECIFICATION.md, The one rounding).
pub fn rounds_up(rounding: u64, negative: bool, kept: u64, dropped: Dropped) -> bool
    ensures { result ≡ spec.rounds_up (rounding_of rounding) negative kept (dropped_of dropped) }
{
    exact::rounding::rounds_up(read_rounding(rounding), negative, kept, dropped)
}

/// Whether an overflow gives an infinity, and not the largest finite number.
pub fn overflows_to_infinity(rounding: u64, negative: bool) -> bool
    ensures { result ≡ spec.to_infinity (rounding_of rounding) negative }
{
    exact::rounding::overflows_to_infinity(read_rounding(rounding), negative)
}

/// The flags of a result by whether it is tiny and whether it is inexact, where the setting
/// flush-to-zero is this number.
pub fn underflow(tiny: bool, inexact: bool, flush_to_zero: u64) -> Underflow
    ensures { result ≡ underflow_of tiny inexact (is_set flush_to_zero) }
{
    Underflow::new(tiny, inexact, read_switch(flush_to_zero))
}
