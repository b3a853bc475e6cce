// Values in bytes, eight to a value, or ten, the least byte first.
#![tactic(auto)]

/// Lists of elements, wherever they stand.
pub mod elements;

ghost use Rattle.std.specs.Prelude.{◌≡◌, ◌+◌, ◌/◌, ◌<◌, ◌≤◌, length, get_or};
ghost use Rattle.totals_spec.specs.entries.Bytes.{values_in};
ghost use Rattle.totals_spec.specs.ten_bytes.Extended.{tens_in};
ghost use Rattle.values.specs.Laid.{laid};
ghost use Rattle.values.specs.Tens.{ten_of};

/// The value at an index.
pub fn word_at(values: &[u8], index: usize) -> u64
    requires { index < length values.now / 8 }
    ensures { result ≡ get_or (values_in values.now) index 0 }
{
    u64::from_le_bytes(values.as_chunks().0[index])
}

/// A value of ten bytes (kind 4): its sign and exponent field, and its significand.
#[derive(Clone, Copy)]
pub struct Ten {
    pub head: u16,
    pub significand: u64,
}

/// The value of ten bytes at an index.
pub fn ten_at(values: &[u8], index: usize) -> Ten
    requires { index < length values.now / 10 }
    ensures { ten_of result ≡ get_or (tens_in values.now) index 0 }
{
    let [b0, b1, b2, b3, b4, b5, b6, b7, b8, b9] = values.as_chunks::<10>().0[index];
    Ten {
        head: u16::from_le_bytes([b8, b9]),
        significand: u64::from_le_bytes([b0, b1, b2, b3, b4, b5, b6, b7]),
    }
}

/// A word laid into eight bytes from a place on.
pub fn put_word(buffer: &mut [u8], at: usize, word: u64)
    requires { at + 8 ≤ length buffer.old }
    ensures { buffer.new ≡ laid buffer.old at word }
{
    buffer[at..at + 8].copy_from_slice(&word.to_le_bytes());
}

/// The most elements of a list, or pairs of a dot: 2^28. Refusal 6 is a list above it
/// (docs/SPECIFICATION.md, Refusals).
pub const LIMIT: usize = 268435456;
