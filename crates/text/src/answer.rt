//! What an input comes to: the text that answers it, and whether that refuses a line.

ghost use Rattle.std.specs.Prelude.{◌≡◌, ◌≤◌, take};
ghost use Rattle.totals_spec.specs.program.Program.{lines, bad_line, read_from, program_format};
ghost use Rattle.totals_spec.specs.program.Program.{program_settings, answer_text, program_text};
ghost use Rattle.totals_spec.specs.sums.Totals.{sum_answer};
ghost use Rattle.totals_spec.specs.pence.Pence.{sum_pence};
ghost use Rattle.format.specs.Settings.{settings_of};
ghost use Rattle.text.specs.Reasons.{Tells};
ghost use Rattle.text.specs.Answered.{line_at, IsAnswered};
ghost use Rattle.text.specs.FourLines.{figure_of};

use crate::read::read_lines;
use crate::reason::{Reason, first_line, reason_for};
use crate::write::{Text, answer_lines, refused_line};
use format::settings::Settings;
use thiserror::Error;
use totals::formats::binary64;
use totals::pence::pence_of_sum;
use totals::refusal::Refusal;
use totals::sum;

/// A line that is refused, counted from 1, and why.
#[derive(Clone, Copy, Debug, Error, PartialEq, Eq)]
#[error("line {line} is refused: {reason}")]
pub struct RefusedLine {
    pub line: usize,
    pub reason: Reason,
}

/// Whether an input has a total.
#[derive(Clone, Copy, Debug, PartialEq, Eq)]
pub enum Answered {
    /// It has one.
    Total,
    /// It has none, for this line is refused.
    Refused(RefusedLine),
}

// Every setting is 0 but the tininess.
fn settings() -> Settings
    ensures { settings_of result ≡ program_settings }
{
    Settings {
        tininess: 1,
        ..Settings::default()
    }
}

// The figure of pence, where they are not refused.
fn figure(pence: Result<i64, Refusal>) -> Option<i64>
    ensures { result ≡ figure_of pence }
{
    match pence {
        Ok(figure) => Some(figure),
        Err(_) => None,
    }
}

// The text of the sum of some binary64 numbers.
fn sum_text(values: &[u64]) -> Text
    ensures { result ≡ answer_text (sum_answer program_format program_settings 0 values.now)
        (sum_pence program_format values.now) }
{
    let format = binary64();
    let pence = figure(pence_of_sum(format, values));
    match sum(format, settings(), 0, values) {
        Ok(total) => answer_lines(total.result, total.flags, total.passes, pence),
        Err(_) => answer_lines(0, 0, 0, pence),
    }
}

// The first line that is refused, and why. All lines before it have 17 bytes, and 18 bytes of it
// tell why.
#[tactic(auto, using(crate::proofs::Lines::counted, crate::proofs::Lines::begins_within))]
fn refused(input: &[u8], line: usize) -> RefusedLine
    requires { read_from 1 (lines input.now) ≡ bad_line line }
    ensures line { result.line ≡ line }
    ensures reason { Tells result.reason line (take 18 (line_at line (lines input.now))) }
{
    let rest = &input[(line - 1) * 17..];
    let front = &rest[..rest.len().min(18)];
    RefusedLine {
        line,
        reason: reason_for(line, first_line(front)),
    }
}

// The whole text that answers an input, and whether it has a total.
pub(crate) fn answer_to(input: &[u8]) -> (Text, Answered)
    ensures text { result.0 ≡ program_text input.now }
    ensures answered { IsAnswered result.1 input.now }
{
    match read_lines(input) {
        Ok(values) => (sum_text(&values), Answered::Total),
        Err(bad) => (
            refused_line(bad.line),
            Answered::Refused(refused(input, bad.line)),
        ),
    }
}
