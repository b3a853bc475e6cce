// The scan of a list, and of the pairs of two. Of plainly normal elements only the greatest
// exponent field counts: it is kept apart from the scan, and gives a position at the end. Inlined
// by name, as all of a walk is (crate::walk).
ghost use Rattle.std.specs.Prelude.{◌≡◌, length};
ghost use Rattle.totals_spec.specs.sums.Totals as totals;
ghost use Rattle.format.specs.Environments.{env_of};
ghost use Rattle.binary.specs.Summands.{summand_in};
ghost use Rattle.reduction.specs.Encodings.{ScannedAs, ScannedPairsAs};

use crate::numbers::Numbers;
use crate::scan::Scan;
use binary::summand::Summand;
use format::env::Env;

/// The scan of the elements of one list.
#[inline(always)]
pub fn scan_list<N: Numbers>(numbers: &N, env: Env, summand: Summand) -> Scan
    ensures { ScannedAs (N.encoding numbers.now) (env_of env) (summand_in summand)
        (N.codes numbers.now) result }
{
    let mut scan = Scan::new();
    let mut greatest: u64 = 0;
    for i in 0..numbers.count() {
        let field = numbers.plain_field(i);
        if field == 0 {
            scan.take(env, summand, numbers.operand(env, i));
        } else if greatest < field {
            greatest = field;
        }
    }
    scan.top(numbers.plain_top(summand, greatest));
    scan
}

/// The scan of the pairs of two lists of one length.
#[inline(always)]
pub fn scan_pairs<N: Numbers>(left: &N, right: &N, env: Env) -> Scan
    requires { length (N.codes right.now) ≡ length (N.codes left.now) }
    ensures { let pairs = totals.pairs (N.codes left.now) (N.codes right.now) in
        ScannedPairsAs (N.encoding left.now) (env_of env) pairs result }
{
    let mut scan = Scan::new();
    let mut greatest: u64 = 0;
    for i in 0..left.count() {
        let fields = left.plain_fields(right, i);
        if fields == 0 {
            left.take_pair(right, env, i, &mut scan);
        } else if greatest < fields {
            greatest = fields;
        }
    }
    scan.top(left.plain_pair_top(greatest));
    scan
}
