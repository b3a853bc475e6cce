// The last calls of a running total: their refusals, and what they write.
ghost use Rattle.promises.specs.HeldRunning as running;
ghost use Rattle.promises.specs.HeldRunningRows as rows;

/// A finish, a finish into another format and the pence are refused just under their conditions, in their order.
pub fn finish_refused_exactly()
    ensures { running.Finish-refused-exactly }
{}

/// A refused finish writes nothing, and an accepted one its record.
pub fn finish_writes()
    ensures { running.Finish-writes }
{}

/// Refused pence write nothing, and accepted ones the figure.
pub fn pence_writes()
    ensures { running.Pence-writes }
{}

/// Squares are finished into other formats, wider ones too, rounded once.
pub fn into_agree()
    ensures { rows.Into-agree }
{}
