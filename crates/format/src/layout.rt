// A format that is offered: its encodings have at most 64 bits.
ghost use Rattle.std.specs.Prelude.{◌≤◌};

use crate::kind::Kind;
use crate::shape::Shape;
use crate::{Format, valid_format};

/// A format that is offered, whose encodings each fit a word.
#[derive(Clone, Copy, Debug, PartialEq, Eq)]
pub struct Layout {
    pub shape: Shape,
    pub ghost narrow: { shape.width ≤ 64 },
}

impl Layout {
    ghost use Rattle.std.specs.Prelude.{◌≡◌, false, MatchOption};
    ghost use Rattle.totals_spec.specs.formats.Format.{valid_format};
    ghost use Rattle.format.specs.Formats.{format_of};
    ghost use Rattle.format.specs.Layouts.{IsLayout};

    /// The format with these numbers, where it is offered. Refusal 3 is the failure of this
    /// (docs/SPECIFICATION.md, Refusals).
    pub fn new(format: Format) -> Option<Layout>
        ensures { MatchOption result (valid_format (format_of format) ≡ false)
            (IsLayout (format_of format)) }
    {
        let Ok(kind) = Kind::try_from(format.kind) else {
            return None;
        };
        if !valid_format(format) {
            return None;
        }
        Some(Layout {
            shape: Shape {
                kind,
                exponent_bits: format.exponent_bits,
                width: format.width,
                bias: format.named,
            },
        })
    }
}
