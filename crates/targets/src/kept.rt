// The walk of a plain sum, kept for several roundings.
ghost use Rattle.std.specs.Prelude.{◌≡◌, length};
ghost use Rattle.totals_spec.specs.entries.Bytes.{values_in};
ghost use Rattle.format.specs.Layouts.{layout_of};
ghost use Rattle.format.specs.Environments.{env_of};
ghost use Rattle.totals.specs.Refusal.{sum_numbers};
ghost use Rattle.targets.specs.Kept.{KeptIn};

use binary::summand::Summand;
use format::env::Env;
use format::layout::Layout;
use reduction::lists::scan_list;
use reduction::numbers::Encoded;
use reduction::scan::Scan;
use reduction::terms::Summed;
use reduction::walk::exact;
use totals::lists::met_special;
use totals::refusal::Refusal;
use totals::stray::no_stray;
use values::elements::Bytes;
use window::ExactSum;

// What a plain sum keeps for further roundings: its scan, and the exact sum of its terms where
// there are some and all is finite.
#[derive(Clone, Copy)]
pub struct Kept {
    pub scan: Scan,
    pub sum: Option<ExactSum>,
}

// Of values in bytes, unless one of them has a stray bit.
pub(crate) fn keep(layout: Layout, env: Env, values: &[u8]) -> Result<Kept, Refusal>
    requires { sum_numbers (layout_of layout) (env_of env) 0 (length (values_in values.now)) ≡ 0 }
    ensures { KeptIn (layout_of layout) (env_of env) (values_in values.now) result }
{
    let elements = Bytes { values };
    no_stray(layout.shape.width, &elements)?;
    let numbers = Encoded { layout, elements };
    let scan = scan_list(&numbers, env, Summand::Value);
    let sum = if met_special(&scan) || scan.top == 0 {
        None
    } else {
        let list = Summed {
            numbers,
            env,
            summand: Summand::Value,
        };
        Some(exact(&list, layout.shape.digits(), scan.top))
    };
    Ok(Kept { scan, sum })
}
