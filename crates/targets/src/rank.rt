// The ranks of an Ieee format's encodings: a larger number has a larger one, and the zeros have one
// and the same.
ghost use Rattle.std.specs.Prelude.{◌≡◌, ◌<◌};
ghost use Rattle.targets_spec.specs.contribution.Contribution as spec;
ghost use Rattle.format.specs.Layouts.{layout_of};

use binary::sign_of;
use format::layout::Layout;
use limbs::word::{low_bits, ones, power};

#[tactic(auto, unfolding(targets_spec::specs::contribution::Contribution::rank_of))]
pub(crate) fn rank_of(layout: Layout, bits: u64) -> u64
    ensures { result ≡ spec.rank_of (layout_of layout) bits }
{
    let zero = power(layout.shape.width - 1);
    let magnitude = low_bits(bits, (layout.shape.width - 1) as usize);
    if sign_of(layout, bits) {
        zero - magnitude
    } else {
        zero + magnitude
    }
}

// The number of a rank; of the zeros +0.
#[tactic(auto, unfolding(targets_spec::specs::contribution::Contribution::number_at))]
pub(crate) fn number_at(layout: Layout, rank: u64) -> u64
    requires { 0 < rank }
    ensures { result ≡ spec.number_at (layout_of layout) rank }
{
    let zero = power(layout.shape.width - 1);
    if rank < zero {
        zero + (zero - rank)
    } else {
        rank - zero
    }
}

// The rank of the least finite number.
#[tactic(auto, unfolding(targets_spec::specs::contribution::Contribution::first_rank))]
pub(crate) fn first_rank(layout: Layout) -> u64
    ensures { result ≡ spec.first_rank (layout_of layout) }
{
    power(layout.shape.fraction_bits()) + 1
}

// And that of the greatest.
#[tactic(auto, unfolding(targets_spec::specs::contribution::Contribution::last_rank))]
pub(crate) fn last_rank(layout: Layout) -> u64
    ensures { result ≡ spec.last_rank (layout_of layout) }
{
    ones(layout.shape.width) - power(layout.shape.fraction_bits())
}
