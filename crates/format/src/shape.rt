// The numbers of a format, and what follows from them. The exponent range is behind `emin`, `emax`,
// `depth`, `origin` and `grid`, `fall` and `rise`: only these know the bias. Positions are counted
// in units, from 0 (totals_spec, Format).
ghost use Rattle.std.specs.Prelude.{IsTrue};
ghost use Rattle.format.specs.Kinds.{in_range};

use crate::ROOM;
use crate::kind::Kind;
use limbs::word::power;

/// The kind, the width of the exponent field, the whole width, and the bias where one is named: at
/// most 64 digits.
#[derive(Clone, Copy, Debug, PartialEq, Eq)]
pub struct Shape {
    pub kind: Kind,
    pub exponent_bits: u64,
    pub width: u64,
    pub bias: Option<i64>,
    pub ghost in_range: { IsTrue (in_range exponent_bits width bias) },
}

impl Shape {
    ghost use Rattle.std.specs.Prelude.{◌≡◌, ◌-◌, ◌^◌, ◌<◌, ◌≤◌};
    ghost use Rattle.totals_spec.specs.formats.Format.{kind_of, digits, fraction_bits, bias_of, bias, lift};
    ghost use Rattle.totals_spec.specs.formats.Format.{exponent_range, depth, origin, fall, grid, rise};
    ghost use Rattle.totals_spec.specs.formats.Format.{emin_at, emax_at};
    ghost use Rattle.format.specs.Kinds.{number_of};
    ghost use Rattle.format.specs.Shapes.{shape_of};

    /// p, the digits of a significand.
    pub fn digits(self) -> u64
        ensures { result ≡ digits (shape_of self) }
    {
        self.width - self.exponent_bits
    }

    /// The width of the fraction field.
    pub fn fraction_bits(self) -> u64
        ensures { result ≡ fraction_bits (shape_of self) }
    {
        self.digits() - 1
    }

    /// The largest exponent field: all ones.
    pub fn field_max(self) -> u64
        ensures value { result ≡ 2 ^ self.exponent_bits - 1 }
        ensures bound { result < 2 ^ self.exponent_bits }
    {
        power(self.exponent_bits) - 1
    }

    // The bias of the kind, where none is named.
    fn own_bias(self) -> u64
        ensures value { result ≡ bias_of (kind_of (number_of self.kind)) self.exponent_bits }
        ensures bound { result ≤ 134217728 }
    {
        let half = power(self.exponent_bits - 1);
        match self.kind {
            Kind::Fnuz => half,
            _ => half - 1,
        }
    }

    /// The bias, and 0 where a negative one is named: `lift` is its magnitude then.
    pub fn bias_above(self) -> u64
        ensures value { result ≡ bias (shape_of self) }
        ensures bound { result ≤ 268435456 }
    {
        match self.bias {
            None => self.own_bias(),
            Some(b) => if b < 0 { 0 } else { b.unsigned_abs() },
        }
    }

    /// The magnitude of a negative bias that is named, else 0.
    pub fn lift(self) -> u64
        ensures value { result ≡ lift (shape_of self) }
        ensures bound { result ≤ 268435456 }
    {
        match self.bias {
            None => 0,
            Some(b) => if b < 0 { b.unsigned_abs() } else { 0 },
        }
    }

    /// emax - emin
    pub fn exponent_range(self) -> u64
        ensures value { result ≡ exponent_range (shape_of self) }
        ensures bound { result < 268435456 }
    {
        let whole = power(self.exponent_bits);
        match self.kind {
            Kind::Ieee => whole - 3,
            _ => whole - 2,
        }
    }

    /// The least non-zero number is 2^(lift - depth).
    pub fn depth(self) -> u64
        ensures value { result ≡ depth (shape_of self) }
        ensures bound { result < 268435520 }
    {
        self.bias_above() + self.digits() - 2
    }

    /// The position of the bit worth 1 plus `fall`, in the units of a sum or of a sum of products.
    #[tactic(auto, unfolding(totals_spec::specs::formats::Format::origin))]
    pub fn origin(self, products: bool) -> u64
        ensures value { result ≡ origin (shape_of self) products }
        ensures bound { result < 1073741824 }
    {
        let d = self.depth();
        if products { ROOM + d + d } else { ROOM + d }
    }

    /// How far a negative bias lies below 0, in a sum, or twice in a sum of products.
    #[tactic(auto, unfolding(totals_spec::specs::formats::Format::fall))]
    pub fn fall(self, products: bool) -> u64
        ensures value { result ≡ fall (shape_of self) products }
        ensures bound { result ≤ 536870912 }
    {
        let n = self.lift();
        if products { n + n } else { n }
    }

    /// The position of the least non-zero number plus `rise`, which only products have: in a sum
    /// the least number lies at the same place whatever the bias.
    #[tactic(auto, unfolding(totals_spec::specs::formats::Format::grid))]
    pub fn grid(self, products: bool) -> u64
        ensures value { result ≡ grid (shape_of self) products }
        ensures bound { result < 1073741824 }
    {
        if products { ROOM + self.depth() } else { ROOM }
    }

    /// The part of the position of the least non-zero number that a negative bias makes: in
    /// products alone.
    #[tactic(auto, unfolding(totals_spec::specs::formats::Format::rise))]
    pub fn rise(self, products: bool) -> u64
        ensures value { result ≡ rise (shape_of self) products }
        ensures bound { result ≤ 268435456 }
    {
        if products { self.lift() } else { 0 }
    }

    /// The position of the highest bit of the least normal number, from the grid's.
    pub fn emin(self, base: u64) -> u64
        requires { base < 2 ^ 62 }
        ensures { result ≡ emin_at (shape_of self) base }
    {
        base + (self.digits() - 1)
    }

    /// The position of the highest bit of the largest number.
    pub fn emax(self, base: u64) -> u64
        requires { base < 2 ^ 62 }
        ensures { result ≡ emax_at (shape_of self) base }
    {
        self.emin(base) + self.exponent_range()
    }
}
