// Lower-case hex digits: the value of one, and the number of several.
#![tactic(auto)]

ghost use Rattle.std.specs.Prelude.{◌≡◌, ◌+◌, ◌%◌, ◌^◌};
ghost use Rattle.hexadecimal.specs.Digits.{digit_of, digit_at, number_at};

/// A digit's value, where a byte is one.
pub fn digit(byte: u8) -> Option<u64>
    ensures { result ≡ digit_of byte }
{
    match byte {
        b'0'..=b'9' => Some(u64::from(byte - b'0')),
        b'a'..=b'f' => Some(u64::from(byte - b'a') + 10),
        _ => None,
    }
}

// The digit i places after another: 0 past the end, and for a byte that is no digit.
fn digit_at(bytes: &[u8], at: usize, i: usize) -> u64
    ensures { result ≡ digit_at bytes.now (at + i) }
{
    let byte = bytes.get(at..).and_then(|rest| rest.get(i));
    byte.copied().and_then(digit).unwrap_or(0)
}

/// The number of `count` digits from a place on, of which a word holds the last sixteen.
#[tactic(auto, using(crate::proofs::Words::one_more), unfolding(crate::specs::Digits::number_at))]
pub fn number(bytes: &[u8], at: usize, count: usize) -> u64
    ensures { result ≡ number_at bytes.now at count % 2 ^ 64 }
{
    let mut value: u64 = 0;
    for i in 0..count {
        value = value.wrapping_mul(16).wrapping_add(digit_at(bytes, at, i));
    }
    value
}
