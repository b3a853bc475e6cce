// The NaN that a list gives. The choice is a running one, so that a list is read once; it is made
// quiet at the end, so that a signaling NaN keeps its rank till then.
ghost use Rattle.std.specs.Prelude.{◌≡◌};
ghost use Rattle.totals_spec.specs.formats.Settings as settings;
ghost use Rattle.totals_spec.specs.sums.Nan as nans;
ghost use Rattle.format.specs.Modes.{propagation_number};
ghost use Rattle.format.specs.Environments.{env_of};
ghost use Rattle.format.specs.Unpacked.{unpacked_of};
ghost use Rattle.binary.specs.Nans.{nan_of, selected_of};

use format::env::Env;
use format::modes::NanPropagation;
use format::unpacked::Unpacked;

/// A NaN. The one chosen so far is an `Option` of it.
#[derive(Clone, Copy)]
pub struct Nan {
    pub negative: bool,
    pub signaling: bool,
    pub payload: u64,
}

/// The NaN of an invalid operation: quiet, without a payload, with the sign that is set
/// (docs/SPECIFICATION.md, NaNs).
#[tactic(auto, unfolding(totals_spec::specs::sums::Nan::default_nan_of))]
pub fn default_nan(env: Env) -> Unpacked
    ensures { unpacked_of result ≡ nans.default_nan_of (env_of env) }
{
    Unpacked::Nan {
        negative: env.default_nan_negative,
        signaling: false,
        payload: 0,
    }
}

// Whether the first of two NaNs has the larger payload, or the same and alone no sign.
fn larger(left: Nan, right: Nan) -> bool
    ensures { result ≡ nans.larger left.negative left.payload right.negative right.payload }
{
    right.payload < left.payload
        || (left.payload == right.payload && !left.negative && right.negative)
}

// Whether the earlier of two NaNs stays.
fn stays(rule: NanPropagation, left: Nan, right: Nan) -> bool
    ensures { result ≡ nans.stays_nan
        (settings.propagation_of (propagation_number rule)) left.negative left.signaling
        left.payload right.negative right.signaling right.payload }
{
    match rule {
        NanPropagation::SignalingFirst => left.signaling || !right.signaling,
        NanPropagation::LargerSignificand if left.signaling == right.signaling => larger(
            left, right,
        ),
        NanPropagation::LargerSignificand => right.signaling,
        NanPropagation::FirstOperand | NanPropagation::DefaultNan => true,
    }
}

/// The choice among the NaNs so far and one more (docs/SPECIFICATION.md, NaNs).
pub fn select(rule: NanPropagation, kept: Option<Nan>, next: Option<Nan>) -> Option<Nan>
    ensures { nan_of result ≡ nans.choose (settings.propagation_of (propagation_number rule))
        (nan_of kept) (nan_of next) }
{
    match (kept, next) {
        (Some(left), Some(right)) => Some(if stays(rule, left, right) {
            left
        } else {
            right
        }),
        (Some(_), None) => kept,
        (None, _) => next,
    }
}

/// What the choice gives in the end, made quiet.
#[tactic(auto, unfolding(crate::specs::Nans::selected_of))]
pub fn selected(env: Env, chosen: Option<Nan>) -> Unpacked
    ensures { unpacked_of result ≡ selected_of (env_of env) (nan_of chosen) }
{
    match (env.nan_propagation, chosen) {
        (NanPropagation::DefaultNan, _) => default_nan(env),
        (_, Some(nan)) => Unpacked::Nan {
            negative: nan.negative,
            signaling: false,
            payload: nan.payload,
        },
        (_, None) => Unpacked::Zero(false),
    }
}
