// How many passes a chain may take.
ghost use Rattle.std.specs.Prelude.{◌≡◌, ℕ, ◌^◌, ◌<◌, leb};

/// How many passes a chain may take. A chain has a copy of its own for each of these, so that one
/// over every pass that it takes has no test for the last that is allowed.
pub trait Allowance: Copy {
    ghost allowed: { Self → ℕ };

    /// The number of passes allowed.
    fn passes(&self) -> u64
        ensures { result ≡ allowed self.now };

    /// Whether so many passes are all that are allowed.
    fn ends(&self, passes: u64) -> bool
        requires { passes < 2 ^ 63 }
        ensures { result ≡ leb (allowed self.now) passes };
}

/// Every pass that it takes: no chain is as long as 2^64 - 1.
#[derive(Clone, Copy)]
pub struct Every;

impl Allowance for Every {
    ghost allowed = { λ s. 18446744073709551615 };

    #[inline(always)]
    fn passes(&self) -> u64 {
        u64::MAX
    }

    #[inline(always)]
    fn ends(&self, _passes: u64) -> bool {
        false
    }
}

/// So many passes, and no more.
#[derive(Clone, Copy)]
pub struct AtMost(pub u64);

impl Allowance for AtMost {
    ghost allowed = { λ s. s.0 };

    #[inline(always)]
    fn passes(&self) -> u64 {
        self.0
    }

    #[inline(always)]
    fn ends(&self, passes: u64) -> bool {
        passes >= self.0
    }
}
