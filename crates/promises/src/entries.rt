//! The byte entries: what they return, and what they leave in the caller's buffer.

ghost use Rattle.totals_spec.specs.ten_bytes.Promises as law;
ghost use Rattle.totals_spec.specs.entries.Promises as entry_law;

/// A byte entry returns a refusal's number in its lowest byte exactly where that number's condition
/// holds and none before it does: 1 and 2, and then those of the total.
pub fn entry_refused_exactly()
    ensures { entry_law.Entry-refused-exactly }
{}

/// A refused entry of a sum leaves every byte of the buffer as it was.
pub fn sum_entry_refused()
    ensures { entry_law.Sum-entry-refused }
{}

/// A refused entry of a dot leaves every byte of the buffer as it was.
pub fn dot_entry_refused()
    ensures { entry_law.Dot-entry-refused }
{}

/// A refused call of the exported sum or dot leaves every byte of the buffer as it was, whatever
/// the kind.
pub fn call_refused()
    ensures { law.Call-refused }
{}

/// After an accepted entry the buffer reads as the record: result, flags, side and passes in their
/// bytes, 0 between them, and all behind as it was.
pub fn entry_read_back()
    ensures { entry_law.Entry-read-back }
{}

/// In every kind but 4 the exported sum and dot are the byte entries of eight bytes a value.
pub fn other_kinds()
    ensures { law.Other-kinds }
{}
