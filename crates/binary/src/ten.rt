// The terms of values of ten bytes (kind 4).
ghost use Rattle.std.specs.Prelude.{◌≡◌, ◌≢◌, ◌<◌, ◌^◌};
ghost use Rattle.totals_spec.specs.ten_bytes.Extended as spec;
ghost use Rattle.format.specs.Environments.{env_of};
ghost use Rattle.binary.specs.Summands.{summand_in};
ghost use Rattle.binary.specs.declared.summand.Summand.TheVariants.{Square};
ghost use Rattle.values.specs.Tens.{ten_of};
ghost use Rattle.binary.specs.Terms.{StandsFor};

use crate::extended::operand;
use crate::summand::Summand;
use crate::term::{Term, operand_pair, operand_term};
use format::env::Env;
use values::Ten;

/// The term of an element.
#[tactic(auto, unfolding(totals_spec::specs::ten_bytes::Extended::extended_item), using(crate::proofs::Elements::operands))]
pub fn ten_term(env: Env, summand: Summand, ten: Ten) -> Term
    ensures stands_for { StandsFor result
        (spec.extended_item (env_of env) (summand_in summand) (ten_of ten)) }
    ensures one_word { summand ≢ Square → result.significand < 2 ^ 64 }
{
    operand_term(summand, operand(env, ten).value)
}

/// The term of a pair.
#[tactic(auto, unfolding(totals_spec::specs::ten_bytes::Extended::extended_pair), using(crate::proofs::Elements::operands))]
pub fn ten_pair(env: Env, left: Ten, right: Ten) -> Term
    ensures { StandsFor result (spec.extended_pair (env_of env) (ten_of left, ten_of right)) }
{
    operand_pair(operand(env, left).value, operand(env, right).value)
}
