//! The text that the program answers its input with.

ghost use Rattle.promises.specs.Lines as law;

/// Up to 8,192 lines of a value each are answered with their total, ties to even and tininess after
/// rounding, and with their pence.
pub fn totals()
    ensures { law.Program-totals }
{}

/// The end of the last line is optional.
pub fn last_line()
    ensures { law.Program-last }
{}

/// The first bad line is refused by its number, whatever follows it.
pub fn refuses()
    ensures { law.Program-refuses }
{}

/// Line 8193 is refused, whatever stands on it.
pub fn full()
    ensures { law.Program-full }
{}
