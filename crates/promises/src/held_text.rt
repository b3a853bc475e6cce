// The program's lines are read back: hex, decimal, figures, and the four lines of an answer.
ghost use Rattle.promises.specs.HeldText as text;

/// Hex digits are the number that was written.
pub fn hex_reads()
    ensures { text.Hex-reads }
{}

/// And so are decimal digits, which begin with no needless 0.
pub fn decimal_reads()
    ensures { text.Decimal-reads }
{}

/// A figure below zero, and no other, has a minus sign.
pub fn figure_reads()
    ensures { text.Figure-reads }
{}

/// Where a list has no pence the program writes `none`.
pub fn pence_line()
    ensures { text.Pence-line }
{}

/// The program answers with four lines: result, flags, passes, pence.
pub fn four_lines()
    ensures { text.Four-lines }
{}
