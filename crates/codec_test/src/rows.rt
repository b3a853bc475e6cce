// The rows of the vectors: each is read, worked out and compared, and the number of answers that
// agree is returned.
ghost use Rattle.std.specs.Prelude.{◌≡◌, true, ◌^◌, ◌<◌, ◌≤◌, length};
ghost use Rattle.totals_spec.specs.formats.Format as spec;
ghost use Rattle.format.specs.Shapes.{shape_of};
ghost use Rattle.format.specs.Layouts.{layout_of};
ghost use Rattle.format.specs.Fits.{Encodes};
ghost use Rattle.binary.specs.Nans.{nan_of};
ghost use Rattle.exact.specs.Unrounded.{significand_of};

use as_given::zeros::{zero_sum_is_negative, zero_sum_sign};
use binary::nan::{Nan, select, selected};
use binary::{decode, encode, is_plain, operand};
use exact::{Unrounded, narrowed, round};
use format::Format;
use format::env::Env;
use format::flags::flag;
use format::layout::Layout;
use format::modes::{NanPropagation, Tininess};
use format::settings::Settings;
use format::shape::Shape;
use format::unpacked::Unpacked;
use hexadecimal::number;

// How many of some answers agree, of which each says whether it does.
fn count(agree: &[bool]) -> u64
    ensures { result ≤ length agree.now }
{
    agree.iter().filter(|&&agrees| agrees).count() as u64
}

fn format_at(row: &[u8]) -> Format {
    Format {
        kind: number(row, 0, 1),
        exponent_bits: number(row, 1, 1),
        width: number(row, 2, 1),
        named: None,
    }
}

// As the vectors lay a format out by its numbers of exponent bits and of bits.
fn long_format_at(row: &[u8]) -> Format {
    Format {
        kind: number(row, 0, 1),
        exponent_bits: number(row, 2, 2),
        width: number(row, 5, 2),
        named: None,
    }
}

fn tag(value: Unpacked, subnormal: bool, plain: bool) -> u64 {
    let (kind, negative, signaling) = match value {
        Unpacked::Zero(negative) => (0, negative, false),
        Unpacked::Finite { negative, .. } => (1, negative, false),
        Unpacked::Infinity(negative) => (2, negative, false),
        Unpacked::Nan {
            negative,
            signaling,
            ..
        } => (3, negative, signaling),
    };
    kind + flag(4, negative) + flag(8, signaling) + flag(16, subnormal) + flag(32, plain)
}

fn shift_of(value: Unpacked) -> u64 {
    match value {
        Unpacked::Finite { shift, .. } => shift,
        _ => 0,
    }
}

fn number_of(value: Unpacked) -> u64 {
    match value {
        Unpacked::Finite { significand, .. } => significand,
        Unpacked::Nan { payload, .. } => payload,
        _ => 0,
    }
}

// What is decoded, encoded again.
fn again(layout: Layout, bits: u64) -> u64 {
    encode(layout, decode(layout, bits))
}

fn decodings(layout: Layout, row: &[u8]) -> u64
    ensures { result ≤ 5 }
{
    let bits = number(row, 4, 2);
    let encoded = again(layout, bits);
    let value = decode(layout, bits);
    let plain = is_plain(layout, bits);
    let mut env = Env::default();
    env.denormals_are_zero = true;
    let zeroed = operand(layout, env, bits);
    count(&[
        tag(value, zeroed.subnormal, plain) == number(row, 7, 2),
        shift_of(value) == number(row, 9, 2),
        number_of(value) == number(row, 11, 2),
        tag(zeroed.value, zeroed.subnormal, plain) == number(row, 14, 2),
        encoded == number(row, 17, 2),
    ])
}

/// A row of decodings: the fields, the operand, and what is encoded again.
pub fn decode_row(row: &[u8]) -> u64
    ensures { result ≤ 5 }
{
    Layout::new(format_at(row)).map_or(0, |layout| decodings(layout, row))
}

// The NaN that an encoding is, if it is one.
fn nan_at(layout: Layout, bits: u64) -> Option<Nan>
    ensures { Encodes (layout_of layout) (nan_of result) }
{
    match decode(layout, bits) {
        Unpacked::Nan {
            negative,
            signaling,
            payload,
        } => Some(Nan {
            negative,
            signaling,
            payload,
        }),
        Unpacked::Zero(_) | Unpacked::Finite { .. } | Unpacked::Infinity(_) => None,
    }
}

fn chosen(layout: Layout, env: Env, left: Option<Nan>, right: Option<Nan>) -> u64
    requires { Encodes (layout_of layout) (nan_of left)
        × Encodes (layout_of layout) (nan_of right) }
{
    let first = select(env.nan_propagation, None, left);
    let nan = select(env.nan_propagation, first, right);
    encode(layout, selected(env, nan))
}

fn choices(layout: Layout, row: &[u8]) -> u64
    ensures { result ≤ 8 }
{
    let left = nan_at(layout, number(row, 4, 2));
    let right = nan_at(layout, number(row, 7, 2));
    let mut agreed: u64 = 0;
    for j in 0..8u64 {
        if let Ok(rule) = NanPropagation::try_from(j % 4) {
            let mut env = Env::default();
            env.nan_propagation = rule;
            env.default_nan_negative = j / 4 == 1;
            if chosen(layout, env, left, right) == number(row, 10 + 2 * (j as usize), 2) {
                agreed += 1;
            }
        }
    }
    agreed
}

/// A row of two NaNs, under each rule and each sign of the default NaN.
pub fn nan_row(row: &[u8]) -> u64
    ensures { result ≤ 8 }
{
    Layout::new(format_at(row)).map_or(0, |layout| choices(layout, row))
}

// A value to round: two words at a word of a window, which is narrowed.
fn value_at(row: &[u8], negative: bool) -> Unrounded {
    let mut window = [0u64; 12];
    let word = number(row, 5, 1) as usize;
    if word < 11 {
        window[word] = number(row, 34, 16);
        window[word + 1] = number(row, 17, 16);
    }
    narrowed(
        negative,
        number(row, 4, 1) == 1,
        number(row, 12, 4) % 65536,
        window,
    )
}

// Whether a value with a sticky bit has a digit more than the format keeps.
fn is_long(shape: Shape, value: Unrounded) -> bool
    ensures { result ≡ true → value.sticky ≡ true
        → 2 ^ spec.digits (shape_of shape) ≤ significand_of value }
{
    !value.sticky || value.length() > shape.digits()
}

// The result and the flags of a rounding, of what can be rounded.
fn rounded(layout: Layout, settings: Settings, grid: u64, value: Unrounded) -> Option<u64>
    requires { grid < 65536 }
{
    let env = Env::new(layout.shape, settings)?;
    if (64..=65535).contains(&value.position)
        && !value.is_nothing()
        && is_long(layout.shape, value)
    {
        let rounding = round(layout.shape, env, grid, value);
        Some(encode(layout, rounding.value) % 256 * 256 + rounding.flags)
    } else {
        None
    }
}

// The vectors write 65,536 for what cannot be rounded. Mode, tininess, flush and saturate are the
// digits of j, and above them the sign.
fn roundings(layout: Layout, row: &[u8]) -> u64
    ensures { result ≤ 128 }
{
    let grid = number(row, 7, 4) % 65536;
    let plus = value_at(row, false);
    let minus = value_at(row, true);
    let precision = number(row, 3, 1);
    let mut agreed: u64 = 0;
    for j in 0..128u64 {
        let settings = Settings {
            rounding: j % 8,
            tininess: j / 8 % 2,
            flush_to_zero: j / 16 % 2,
            saturate: j / 32 % 2,
            precision,
            ..Settings::default()
        };
        let value = if j < 64 { plus } else { minus };
        let answer = rounded(layout, settings, grid, value).unwrap_or(65536);
        if answer == number(row, 51 + 4 * (j as usize), 4) {
            agreed += 1;
        }
    }
    agreed
}

/// A row of a value and its negative, rounded in each of 64 settings.
pub fn round_row(row: &[u8]) -> u64
    ensures { result ≤ 128 }
{
    Layout::new(format_at(row)).map_or(0, |layout| roundings(layout, row))
}

fn widths(shape: Shape, row: &[u8]) -> u64
    ensures { result ≤ 7 }
{
    count(&[
        shape.bias_above() == number(row, 8, 8),
        shape.exponent_range() == number(row, 17, 8),
        shape.depth() == number(row, 26, 8),
        shape.origin(false) == number(row, 35, 8),
        shape.origin(true) == number(row, 44, 8),
        shape.grid(false) == number(row, 53, 8),
        shape.grid(true) == number(row, 62, 8),
    ])
}

/// A row of the numbers that follow from a format.
pub fn format_row(row: &[u8]) -> u64
    ensures { result ≤ 7 }
{
    Layout::new(long_format_at(row)).map_or(0, |layout| widths(layout.shape, row))
}

/// A row of settings and a format, which of the two are offered, and the sign of a zero.
pub fn settings_row(row: &[u8]) -> u64
    ensures { result ≤ 4 }
{
    let format = long_format_at(row);
    let settings = Settings {
        rounding: number(row, 8, 1),
        tininess: number(row, 9, 1),
        nan_propagation: number(row, 10, 1),
        default_nan_negative: number(row, 11, 1),
        flush_to_zero: number(row, 12, 1),
        denormals_are_zero: number(row, 13, 1),
        saturate: number(row, 14, 1),
        precision: number(row, 16, 2),
    };
    let zeros = number(row, 19, 1);
    let all = number(row, 21, 1);
    // The sign of a zero is told of any settings, be they in their ranges or not.
    let sign = zero_sum_sign(settings, zeros % 2 == 1, zeros / 2 % 2 == 1);
    let layout = Layout::new(format);
    let env = layout.and_then(|layout| Env::new(layout.shape, settings));
    count(&[
        layout.is_some() == (all % 2 == 1),
        env.is_some() == (all / 2 % 2 == 1),
        sign == (all / 4 % 2 == 1),
        zero_sum_is_negative(settings) == (all / 8 % 2 == 1),
    ])
}
