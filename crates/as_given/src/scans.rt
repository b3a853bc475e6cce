// What a scan decides, under settings of any numbers.
ghost use Rattle.std.specs.Prelude.{◌≡◌};
ghost use Rattle.format.specs.Settings.{settings_of};
ghost use Rattle.reduction.specs.Scan.{Decides, terms_in, leaves_terms};

use crate::settings::read_settings;
use format::settings::Settings;
use reduction::scan::{Given, Scan};

/// What a scan decides (docs/SPECIFICATION.md, What an accepted list gives): a NaN, an invalid
/// product, infinities, or zeros alone. Where it decides nothing there are terms, and all is
/// finite.
pub fn decided(settings: Settings, infinity_first: bool, scan: &Scan) -> Option<Given>
    ensures { Decides result (settings_of settings) infinity_first scan.now
        × (leaves_terms result ≡ terms_in scan.now) }
{
    reduction::scan::decided(read_settings(settings), infinity_first, scan)
}
