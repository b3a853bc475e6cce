//! How much of its input the program reads.

ghost use Rattle.text.specs.Reading.{Prefix};

/// The first 139,265 bytes of an input decide the whole text that it is answered with.
pub fn first_bytes_decide()
    ensures { Prefix }
{}
