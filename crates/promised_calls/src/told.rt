// How an entry is told the bias of a format.
ghost use Rattle.std.specs.Prelude.{◌≡◌};
ghost use Rattle.format.specs.Formats.{format_of};
ghost use Rattle.promised_calls.specs.Lent.{names_bias, bias_told};

use format::Format;

/// Whether a format names its bias, and which: 0 and 0 where it names none.
pub fn told_bias(format: Format) -> (u64, i64)
    ensures names { result.0 ≡ names_bias (format_of format).named }
    ensures bias { result.1 ≡ bias_told (format_of format).named }
{
    match format.named {
        Some(bias) => (1, bias),
        None => (0, 0),
    }
}
