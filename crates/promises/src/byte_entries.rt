// The byte entries of a sum and of a dot: the number that comes back, and what is written.
#![tactic(auto)]

ghost use Rattle.promises.specs.Entries as law;

/// Byte i of a number, counted from the least, is the number over 256^i, modulo 256.
pub fn bytes_of()
    ensures { law.Bytes-of }
{}

/// A value stands in each eight bytes, the least first.
pub fn eights_values()
    ensures { law.Eights-values }
{}

/// A sum returns 1, 2, or the total's refusal with its place above it, and then writes nothing; else
/// it returns 0 and writes result, flags, side and passes where they belong.
pub fn sum_call_does()
    ensures { law.Sum-call-does }
{}

/// And so does a dot.
pub fn dot_call_does()
    ensures { law.Dot-call-does }
{}

/// A sum of values of ten bytes does the same with 32 bytes of answer.
pub fn extended_sum_call_does()
    ensures { law.Extended-sum-call-does }
{}

/// And so does a dot of them.
pub fn extended_dot_call_does()
    ensures { law.Extended-dot-call-does }
{}
