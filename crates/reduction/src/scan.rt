// What the operands of a sum add up to before the finite terms: one walk over the list, and what
// that alone decides.
ghost use Rattle.std.specs.Prelude.{◌≡◌, true, false, ◌||◌};
ghost use Rattle.format.specs.Modes.{propagation_number};
ghost use Rattle.format.specs.Environments.{env_of};
ghost use Rattle.format.specs.Unpacked.{unpacked_of};
ghost use Rattle.binary.specs.Terms.{Bounded};
ghost use Rattle.binary.specs.Summands.{summand_in};
ghost use Rattle.reduction.specs.Scan.{with_top, with_item, Offered, Reads, Fresh, Takes};
ghost use Rattle.reduction.specs.Scan.{TakesPair, nan_decides, Decides, terms_in, leaves_terms};

use binary::Read;
use binary::nan::{Nan, default_nan, select, selected};
use binary::summand::Summand;
use binary::term::{Item, item_of, pair_of};
use format::env::Env;
use format::modes::NanPropagation;
use format::unpacked::Unpacked;

/// What a walk over a list gathers: whether an operand is subnormal or a signaling NaN, which
/// infinities and zeros there are, how high the terms reach, and the NaN chosen so far.
#[derive(Clone, Copy, Default)]
pub struct Scan {
    pub subnormal: bool,
    pub signaling: bool,
    // an infinity times a zero
    pub invalid: bool,
    pub positive_infinity: bool,
    pub negative_infinity: bool,
    pub positive_zero: bool,
    pub negative_zero: bool,
    // the greatest position of a term, 0 where there is none
    pub top: u64,
    // the NaN chosen so far
    pub nan: Option<Nan>,
}

/// What a scan alone gives: a value without a pass, and whether flag 1 is set.
#[derive(Clone, Copy)]
pub struct Given {
    pub value: Unpacked,
    pub invalid: bool,
}

impl Scan {
    /// The scan of nothing.
    #[tactic(auto, unfolding(totals_spec::specs::terms::Terms::top_of))]
    pub fn new() -> Scan
        ensures { Fresh result }
    {
        Scan::default()
    }
}

// The four updates, which change a scan that is lent, in place: each stores the fields that it
// changes, and no other.
impl Scan {
    // A NaN: the choice among NaNs goes on.
    fn nan(&mut self, rule: NanPropagation, nan: Nan)
        ensures { Offered (propagation_number rule) nan self.old self.new }
    {
        self.nan = select(rule, self.nan, Some(nan));
        self.signaling |= nan.signaling;
    }

    // An infinity.
    fn infinity(&mut self, negative: bool)
        ensures { self.new ≡ with_item (Item.Infinite negative) self.old }
    {
        if negative {
            self.negative_infinity = true;
        } else {
            self.positive_infinity = true;
        }
    }

    // A zero.
    fn zero(&mut self, negative: bool)
        ensures { self.new ≡ with_item (Item.Zero negative) self.old }
    {
        if negative {
            self.negative_zero = true;
        } else {
            self.positive_zero = true;
        }
    }

    // A term whose highest bit lies at a position.
    pub(crate) fn top(&mut self, position: u64)
        ensures { self.new ≡ with_top position self.old }
    {
        if self.top < position {
            self.top = position;
        }
    }
}

// One operand, and one element or pair.
impl Scan {
    // An operand that was read: flag 128, and the choice among NaNs.
    fn read(&mut self, rule: NanPropagation, read: Read)
        ensures { Reads (propagation_number rule) read.subnormal (unpacked_of read.value)
            self.old self.new }
    {
        self.subnormal |= read.subnormal;
        if let Unpacked::Nan {
            negative,
            signaling,
            payload,
        } = read.value
        {
            self.nan(
                rule,
                Nan {
                    negative,
                    signaling,
                    payload,
                },
            );
        }
    }

    // What an element or a pair is.
    fn item(&mut self, item: Item)
        ensures { self.new ≡ with_item item self.old }
    {
        match item {
            Item::Nan => {}
            Item::Invalid => self.invalid = true,
            Item::Infinite(negative) => self.infinity(negative),
            Item::Zero(negative) => self.zero(negative),
            Item::Top(position) => self.top(position),
        }
    }

    /// One more element of a list, of which the operand was read.
    #[inline(always)]
    pub fn take(&mut self, env: Env, summand: Summand, read: Read)
        requires { Bounded (unpacked_of read.value) }
        ensures { Takes (env_of env) (summand_in summand) read.subnormal (unpacked_of read.value)
            self.old self.new }
    {
        self.read(env.nan_propagation, read);
        self.item(item_of(summand, read.value));
    }

    /// One more pair of a dot, of which both were read.
    #[inline(always)]
    pub fn take_pair(&mut self, env: Env, left: Read, right: Read)
        requires { Bounded (unpacked_of left.value) × Bounded (unpacked_of right.value) }
        ensures { TakesPair (env_of env) left.subnormal right.subnormal (unpacked_of left.value)
            (unpacked_of right.value) self.old self.new }
    {
        self.read(env.nan_propagation, left);
        self.read(env.nan_propagation, right);
        self.item(pair_of(left.value, right.value));
    }
}

// Whether a NaN decides. Where infinities come first, a quiet NaN yields to one of them and a
// signaling NaN does not.
fn nan_decides(infinity_first: bool, scan: &Scan) -> bool
    ensures { result ≡ nan_decides infinity_first scan.now }
{
    scan.nan.is_some() && !(infinity_first && !scan.signaling && scan.positive_infinity)
}

/// What a scan decides (docs/SPECIFICATION.md, What an accepted list gives): a NaN, an invalid
/// product, infinities, or zeros alone. Where it decides nothing there are terms, and all is
/// finite.
#[inline(always)]
pub fn decided(env: Env, infinity_first: bool, scan: &Scan) -> Option<Given>
    ensures { Decides result (env_of env) infinity_first scan.now
        × (leaves_terms result ≡ terms_in scan.now) }
{
    if nan_decides(infinity_first, scan) {
        Some(Given {
            value: selected(env, scan.nan),
            invalid: scan.signaling | scan.invalid,
        })
    } else if scan.invalid {
        Some(Given {
            value: default_nan(env),
            invalid: true,
        })
    } else if scan.positive_infinity && scan.negative_infinity {
        Some(Given {
            value: default_nan(env),
            invalid: true,
        })
    } else if scan.positive_infinity {
        Some(Given {
            value: Unpacked::Infinity(false),
            invalid: false,
        })
    } else if scan.negative_infinity {
        Some(Given {
            value: Unpacked::Infinity(true),
            invalid: false,
        })
    } else if scan.top == 0 {
        let negative = env.zero_sum_sign(scan.positive_zero, scan.negative_zero);
        Some(Given {
            value: Unpacked::Zero(negative),
            invalid: false,
        })
    } else {
        None
    }
}
