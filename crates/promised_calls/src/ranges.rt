// The totals of amounts known within a range: when they are refused, and that the order of the
// entries does not matter.
ghost use Rattle.std.specs.Prelude.{◌≡◌, ◌≢◌};
ghost use Rattle.figures_spec.specs.ranges.Conditions.{range_conditions};
ghost use Rattle.figures_spec.specs.ranges.Conditions.{range_entry_conditions};
ghost use Rattle.figures_spec.specs.ranges.Ranges as spec;
ghost use Rattle.figures_spec.specs.ranges.Entry.{range_entry};
ghost use Rattle.figures.specs.Ranges.{Totalled, EntersRange, range_in};
ghost use Rattle.promised_calls.specs.Order.{TriplesRearranged};
ghost use Rattle.promised_calls.specs.Refusals.{RefusesExactly, WritesNothing};

use figures::entry::enter_range;
use figures::range::{Bounds, range_total};
use totals::refusal::Refusal;

/// The lower and the upper total of entries, or their refusal: it tells its number alone, and
/// leaves both lists of figures.
pub fn range_or_refusal(
    tags: &[u64],
    firsts: &mut [u64],
    seconds: &mut [u64],
    ceiling: u64,
) -> Result<Bounds, Refusal>
    ensures is { Totalled tags.now firsts.old seconds.old ceiling result firsts.new seconds.new }
    ensures exactly { RefusesExactly (range_conditions tags.now firsts.old seconds.old ceiling)
        (range_in result).refusal }
    ensures nothing_else { (range_in result).refusal ≢ 0 → range_in result
        ≡ spec.refused_range (range_in result).refusal }
    ensures firsts_kept { WritesNothing (range_in result).refusal firsts.old firsts.new }
    ensures seconds_kept { WritesNothing (range_in result).refusal seconds.old seconds.new }
{
    range_total(tags, firsts, seconds, ceiling)
}

/// The exported totals of entries, or their refusal: 2 before the others.
pub fn range_entry_or_refusal(
    tags: &[u64],
    firsts: &mut [u64],
    seconds: &mut [u64],
    ceiling: u64,
    pair: &mut [u64],
) -> u64
    ensures is { EntersRange (range_entry tags.now firsts.old seconds.old ceiling pair.old) result
        firsts.new
        seconds.new pair.new }
    ensures exactly { RefusesExactly
        (range_entry_conditions tags.now firsts.old seconds.old ceiling pair.old) result }
    ensures firsts_kept { WritesNothing result firsts.old firsts.new }
    ensures seconds_kept { WritesNothing result seconds.old seconds.new }
    ensures pair_kept { WritesNothing result pair.old pair.new }
{
    enter_range(tags, firsts, seconds, ceiling, pair)
}

/// The totals of entries that are accepted, and of a rearrangement of them, are one record.
pub fn ranges_of_both(
    tags: &[u64],
    firsts: &mut [u64],
    seconds: &mut [u64],
    moved_tags: &[u64],
    moved_firsts: &mut [u64],
    moved_seconds: &mut [u64],
    ceiling: u64,
) -> (Result<Bounds, Refusal>, Result<Bounds, Refusal>)
    ensures first { Totalled tags.now firsts.old seconds.old ceiling result.0 firsts.new
        seconds.new }
    ensures second { Totalled moved_tags.now moved_firsts.old moved_seconds.old ceiling result.1
        moved_firsts.new
        moved_seconds.new }
    ensures alike { TriplesRearranged tags.now firsts.old seconds.old moved_tags.now
        moved_firsts.old
        moved_seconds.old
        → (range_in result.0).refusal ≡ 0 → range_in result.0 ≡ range_in result.1 }
{
    let first = range_total(tags, firsts, seconds, ceiling);
    let second = range_total(moved_tags, moved_firsts, moved_seconds, ceiling);
    (first, second)
}
