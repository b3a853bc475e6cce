// The contribution that reaches a target: the least number with which, behind a list, the plain sum
// is a wanted total. The sum rises with that number, so halving the ranks finds it.
ghost use Rattle.std.specs.Prelude.{◌≡◌, ◌||◌, List, [], ◌∷◌, ◌++◌, ◌≤◌, ◌<◌, length};
ghost use Rattle.totals_spec.specs.entries.Bytes.{values_in};
ghost use Rattle.totals_spec.specs.sums.Totals as totals;
ghost use Rattle.targets_spec.specs.contribution.Contribution as spec;
ghost use Rattle.format.specs.Layouts.{layout_of};
ghost use Rattle.format.specs.Environments.{env_of};
ghost use Rattle.format.specs.Formats.{format_of};
ghost use Rattle.format.specs.Settings.{settings_of};
ghost use Rattle.totals.specs.Asked.{Asks};
ghost use Rattle.targets.specs.Contributions.{number_in, contribution_numbers, FiniteList, Halved};

use crate::rank::{first_rank, last_rank, number_at, rank_of};
use binary::summand::Summand;
use format::Format;
use format::env::Env;
use format::kind::Kind;
use format::layout::Layout;
use format::settings::Settings;
use reduction::lists::scan_list;
use reduction::numbers::Encoded;
use totals::lists::{met_special, unstrayed_sum};
use totals::refusal::{Asked, Refusal, layout_for, refuse_if, settings_for};
use totals::stray::no_stray;
use values::LIMIT;
use values::elements::{Appended, Bytes, Elements, Words};

// Whether subnormal numbers are taken, or given, as zeros.
fn flushes(env: Env) -> bool
    ensures { result ≡ (env.flush_to_zero || env.denormals_are_zero) }
{
    env.flush_to_zero || env.denormals_are_zero
}

// The refusal that does not look at the elements, 3, 4 or 6, or what is asked with.
fn contribution_refusal(format: Format, settings: Settings, count: usize) -> Result<Asked, Refusal>
    ensures { Asks (format_of format) (settings_of settings)
        (contribution_numbers (format_of format) (settings_of settings) count) result }
{
    let layout = layout_for(format)?;
    refuse_if(layout.shape.kind != Kind::Ieee, Refusal::NoSuchFormat)?;
    let env = settings_for(layout.shape, settings)?;
    refuse_if(flushes(env), Refusal::SettingOutOfRange)?;
    refuse_if(count >= LIMIT, Refusal::TooManyElements)?;
    Ok(Asked { layout, env })
}

// No element has a stray bit, and each is finite; refused with 7 or 15.
fn all_finite<E: Elements>(layout: Layout, elements: E) -> Result<(), Refusal>
    ensures { FiniteList (layout_of layout) (E.list elements) result }
{
    no_stray(layout.shape.width, &elements)?;
    let numbers = Encoded { layout, elements };
    let scan = scan_list(&numbers, Env::default(), Summand::Value);
    refuse_if(met_special(&scan), Refusal::NotFinite)
}

// The rank of the sum with one number more behind the list.
fn rank_with<E: Elements>(layout: Layout, env: Env, list: E, last: u64) -> u64
    requires { totals.sum_refusal (layout_of layout) (env_of env) 0
        (E.list list ++ (last ∷ [])) ≡ 0 }
    ensures { result ≡ spec.rank_with (layout_of layout) (env_of env) (E.list list) last }
{
    let longer = Appended { list, last };
    rank_of(
        layout,
        unstrayed_sum(layout, env, Summand::Value, longer).result,
    )
}

// Where halving ends: below that rank the sum is below the wanted total, and at it, if it is one,
// it is not.
fn halved<E: Elements>(layout: Layout, env: Env, list: E, wanted: u64) -> u64
    requires { spec.contribution_refusal (layout_of layout) (env_of env) (E.list list) wanted
        ≡ 0 }
    ensures { Halved (layout_of layout) (env_of env) (E.list list) wanted result }
{
    let target = rank_of(layout, wanted);
    let mut low = first_rank(layout);
    let mut high = last_rank(layout) + 1;
    while low < high {
        let middle = low + (high - low) / 2;
        if rank_with(layout, env, list, number_at(layout, middle)) < target {
            low = middle + 1;
        } else {
            high = middle;
        }
    }
    low
}

// The least number that does it; 14 where none does.
fn found<E: Elements>(layout: Layout, env: Env, list: E, wanted: u64) -> Result<u64, Refusal>
    requires { spec.contribution_refusal (layout_of layout) (env_of env) (E.list list) wanted
        ≡ 0 }
    ensures { number_in result
        ≡ spec.found (layout_of layout)
        (spec.least_rank (layout_of layout) (env_of env) (E.list list) wanted) }
{
    let rank = halved(layout, env, list, wanted);
    refuse_if(rank > last_rank(layout), Refusal::NoContribution)?;
    let number = number_at(layout, rank);
    let reached = rank_with(layout, env, list, number) == rank_of(layout, wanted);
    refuse_if(!reached, Refusal::NoContribution)?;
    Ok(number)
}

// Behind a list, wherever its elements stand.
fn behind<E: Elements>(
    format: Format,
    settings: Settings,
    list: E,
    wanted: u64,
) -> Result<u64, Refusal>
    ensures { number_in result
        ≡ spec.contribution (format_of format) (settings_of settings) (E.list list) wanted }
{
    let asked = contribution_refusal(format, settings, list.count())?;
    all_finite(asked.layout, Appended { list, last: wanted })?;
    found(asked.layout, asked.env, list, wanted)
}

/// The least finite number, as an encoding, with which, behind the values, the plain sum is the
/// wanted total. Refused with 3, 4, 6, 7, 15 or 14 (the specification, "Contributions").
pub fn contribution_to(
    format: Format,
    settings: Settings,
    values: &[u64],
    wanted: u64,
) -> Result<u64, Refusal>
    ensures { number_in result
        ≡ spec.contribution (format_of format) (settings_of settings) values.now wanted }
{
    behind(format, settings, Words { values }, wanted)
}

/// `contribution_to` over bytes, eight to a value, little end first. Bytes past the last whole
/// value are not looked at.
pub fn contribution_bytes_to(
    format: Format,
    settings: Settings,
    values: &[u8],
    wanted: u64,
) -> Result<u64, Refusal>
    ensures { number_in result
        ≡ spec.contribution (format_of format) (settings_of settings) (values_in values.now)
        wanted }
{
    behind(format, settings, Bytes { values }, wanted)
}
