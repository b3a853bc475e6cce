// The search for an element that does not fit the width, refusal 7. It serves the crates beside
// this one.
ghost use Rattle.std.specs.Prelude.{◌<◌};
ghost use Rattle.totals.specs.Stray.{FoundIn, Unstrayed};

use crate::refusal::Refusal;
use limbs::word::ones;
use values::elements::Elements;

// The bits of a word: no word has a stray bit in a format that is as wide.
const WORD_BITS: u64 = 64;

// The index of the first element above the greatest encoding. In 64 bits or more there is none.
fn find_stray<E: Elements>(width: u64, elements: &E) -> Option<usize>
    requires { 0 < width }
    ensures { FoundIn result width (E.list elements.now) }
{
    let count = elements.count();
    if width >= WORD_BITS {
        return None;
    }
    let most = ones(width);
    (0..count).find(|i| elements.at(*i) > most)
}

/// Whether no element has a stray bit; refused with the place of the first that has one.
pub fn no_stray<E: Elements>(width: u64, elements: &E) -> Result<(), Refusal>
    requires { 0 < width }
    ensures { Unstrayed result width (E.list elements.now) }
{
    match find_stray(width, elements) {
        Some(i) => Err(Refusal::StrayBit(i)),
        None => Ok(()),
    }
}
