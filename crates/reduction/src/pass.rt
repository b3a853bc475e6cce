// What a pass starts and ends with.
ghost use Rattle.std.specs.Prelude.{◌≡◌};
ghost use Rattle.limbs.specs.Value.{value, minus};
ghost use Rattle.reduction.specs.Held.{middle};

use limbs::window::sub;
use window::Pass;

// The middle of a word.
const MIDDLE: u64 = 9223372036854775808;

/// What a pass starts with. Each word starts at its middle: the sum so far then changes its sign
/// without a carry through all the words above a term.
pub fn start() -> [u64; 12]
    ensures { result ≡ middle }
{
    [MIDDLE; 12]
}

/// The end of a pass: the window less what it started with.
pub fn finished(total: [u64; 12], lost: u64) -> Pass
    ensures { (value result.total ≡ minus (value total) (value middle)) × (result.lost ≡ lost) }
{
    let total = sub(total, start());
    Pass { lost, total }
}
