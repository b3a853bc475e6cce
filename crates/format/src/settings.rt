/// Settings, as the numbers that a caller gives (docs/SPECIFICATION.md, Settings).
#[derive(Clone, Copy, Default)]
pub struct Settings {
    /// 0 ties to even, 1 ties to away, 2 ties toward zero, 3 toward positive, 4 toward negative, 5
    /// toward zero, 6 away from zero, 7 to odd
    pub rounding: u64,
    /// 0 before rounding, 1 after
    pub tininess: u64,
    /// 0 signaling first, 1 first operand, 2 larger significand, 3 default NaN
    pub nan_propagation: u64,
    /// 0 or 1: the default NaN is negative
    pub default_nan_negative: u64,
    /// 0 or 1: a tiny sum becomes a zero
    pub flush_to_zero: u64,
    /// 0 or 1: a subnormal element counts as a zero
    pub denormals_are_zero: u64,
    /// 0 or 1: where rounding overflows, the largest number is given
    pub saturate: u64,
    /// the digits to round to, 1 to those of the format, or 0 for all of these
    pub precision: u64,
}
