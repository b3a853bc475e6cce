// The format that career pages, ranges and the program have: binary64.
ghost use Rattle.std.specs.Prelude.{◌≡◌};
ghost use Rattle.totals_spec.specs.formats.Format as formats;
ghost use Rattle.format.specs.Formats.{format_of};
ghost use Rattle.format.specs.Layouts.{layout_of};

use format::Format;
use format::kind::Kind;
use format::layout::Layout;
use format::shape::Shape;

/// binary64 in the numbers of a caller.
#[tactic(auto, unfolding(totals_spec::specs::formats::Format::binary64))]
pub fn binary64() -> Format
    ensures { format_of result ≡ formats.binary64 }
{
    Format {
        kind: 0,
        exponent_bits: 11,
        width: 64,
        named: None,
    }
}

/// binary64 as a layout: a format that is offered.
#[tactic(auto, unfolding(totals_spec::specs::formats::Format::binary64))]
pub fn layout() -> Layout
    ensures { layout_of result ≡ formats.binary64 }
{
    Layout {
        shape: Shape {
            kind: Kind::Ieee,
            exponent_bits: 11,
            width: 64,
            bias: None,
        },
    }
}
