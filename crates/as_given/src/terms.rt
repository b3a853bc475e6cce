// The terms of elements and of pairs, under settings of any numbers and for a summand of any.
ghost use Rattle.std.specs.Prelude.{◌≡◌, ◌<◌, ◌^◌, IfSome};
ghost use Rattle.totals_spec.specs.formats.Decode as dec;
ghost use Rattle.totals_spec.specs.formats.Settings.{summand_of};
ghost use Rattle.totals_spec.specs.terms.Terms as terms;
ghost use Rattle.totals_spec.specs.pence.Hundredfold.{hundred_item};
ghost use Rattle.format.specs.Settings.{settings_of};
ghost use Rattle.format.specs.Layouts.{layout_of};
ghost use Rattle.format.specs.Unpacked.{unpacked_of};
ghost use Rattle.binary.specs.Gives.{Gives};
ghost use Rattle.binary.specs.Plain.{plain_number, field_top};
ghost use Rattle.binary.specs.Terms.{item_of, StandsFor, Bounded};

use crate::settings::read_settings;
use crate::summands::read_summand;
use binary::term::{Item, Term};
use binary::{element, term};
use format::layout::Layout;
use format::settings::Settings;
use format::unpacked::Unpacked;

/// What an operand is in a sum, by the summand.
pub fn item_of(summand: u64, value: Unpacked) -> Item
    requires { Bounded (unpacked_of value) }
    ensures { result ≡ item_of (terms.item_of (summand_of summand) (unpacked_of value)) }
{
    term::item_of(read_summand(summand), value)
}

/// The position that counts for T of plainly normal elements, from the greatest field, by the
/// summand; 0 where there are none.
pub fn plain_top(layout: Layout, summand: u64, field: u64) -> u64
    requires { field < 268435456 }
    ensures { result ≡ field_top (layout_of layout) (summand_of summand) field }
{
    term::plain_top(layout, read_summand(summand), field)
}

/// The term of a normal number. That of a value or a magnitude has one word.
pub fn plain_term(layout: Layout, summand: u64, bits: u64) -> Term
    requires { 0 < dec.field_of (layout_of layout) bits }
    ensures stands_for { StandsFor result
        (terms.item_of (summand_of summand) (plain_number (layout_of layout) bits)) }
    ensures one_word { summand < 2 → result.significand < 2 ^ 64 }
{
    term::plain_term(layout, read_summand(summand), bits)
}

/// The term of an element that takes a closer look.
pub fn looked_term(layout: Layout, settings: Settings, summand: u64, bits: u64) -> Term
    ensures stands_for { StandsFor result
        (terms.item (layout_of layout) (settings_of settings) (summand_of summand) bits) }
    ensures one_word { summand < 2 → result.significand < 2 ^ 64 }
{
    term::looked_term(layout, read_settings(settings), read_summand(summand), bits)
}

/// A hundred times an element that takes a closer look.
pub fn looked_hundred(layout: Layout, settings: Settings, bits: u64) -> Term
    ensures { StandsFor result (hundred_item (layout_of layout) (settings_of settings) bits) }
{
    term::looked_hundred(layout, read_settings(settings), bits)
}

/// The term of a pair that takes a closer look.
pub fn looked_pair(layout: Layout, settings: Settings, left: u64, right: u64) -> Term
    ensures { StandsFor result
        (terms.pair_item (layout_of layout) (settings_of settings) (left, right)) }
{
    term::looked_pair(layout, read_settings(settings), left, right)
}

/// The term of an element of a list, where it has one.
pub fn element_term(layout: Layout, settings: Settings, summand: u64, bits: u64) -> Option<Term>
    ensures gives { Gives result
        (terms.item (layout_of layout) (settings_of settings) (summand_of summand) bits) }
    ensures one_word { IfSome result (λ t. summand < 2 → t.significand < 2 ^ 64) }
{
    element::element_term(layout, read_settings(settings), read_summand(summand), bits)
}

/// A hundred times an element of a list.
pub fn hundred_term(layout: Layout, settings: Settings, bits: u64) -> Option<Term>
    ensures { Gives result (hundred_item (layout_of layout) (settings_of settings) bits) }
{
    element::hundred_term(layout, read_settings(settings), bits)
}

/// The term of a pair of a dot.
pub fn pair_term(layout: Layout, settings: Settings, left: u64, right: u64) -> Option<Term>
    ensures { Gives result
        (terms.pair_item (layout_of layout) (settings_of settings) (left, right)) }
{
    element::pair_term(layout, read_settings(settings), left, right)
}
