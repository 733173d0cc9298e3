//! The choice among candidates by the least sum of costs (HLSL, "Overload Resolution").

ghost use Rattle.std.specs.Prelude.{◌≡◌, ◌≤◌};
ghost use Rattle.hl_meaning.specs.Views.{plain_ty};
ghost use Rattle.hl_overload.specs.Best.{best_answer};
ghost use Rattle.hl_overload.specs.Choice.{Chooses, passing_cost, sum_of_costs, sums_of};
ghost use Rattle.hl_overload.specs.Views.{plain_candidates, plain_params, plain_types};

use crate::best::Best;
use crate::choice::{Candidate, ChoiceFault, Param, Params};
use crate::conversion::{cost, same_cost};
use hl_meaning::{Copying, HlType};

/// The candidate that a call with arguments of these types means.
///
/// A candidate fits where it has as many parameters as there are arguments, each `in` argument converts to the type of
/// its parameter, and each `out` or `inout` argument has exactly that type. The one of the least sum of costs is meant.
///
/// # Errors
/// `NoMatch` exactly where no candidate fits, and `Ambiguous` exactly where several have the least sum, with the first
/// two of them.
pub fn choose(candidates: &[Candidate], args: &[HlType]) -> Result<usize, ChoiceFault>
    ensures { Chooses (sums_of (plain_candidates candidates.now) (plain_types args.now)) result }
{
    let mut best: Option<Best> = None;
    for (place, candidate) in candidates.iter().enumerate() {
        best = Best::next(best, place, sum_of_costs(&candidate.params, args));
    }
    answer(best)
}

/// The sum of the costs of arguments, where they fit the parameters.
fn sum_of_costs(params: &Params, args: &[HlType]) -> Option<u64>
    ensures { result ≡ sum_of_costs (plain_params params.now) (plain_types args.now) }
{
    if params.len() != args.len() {
        return None;
    }
    let mut sum: u64 = 0;
    for (place, param) in params.as_slice().iter().enumerate() {
        match passing_cost(param, &args[place]) {
            Some(cost) => sum += u64::from(cost),
            None => return None,
        }
    }
    Some(sum)
}

/// The cost of an argument, where it fits the parameter.
fn passing_cost(param: &Param, arg: &HlType) -> Option<u8>
    ensures { result ≡ passing_cost param.now.copying (plain_ty param.now.ty) (plain_ty arg.now) }
{
    match param.copying {
        Copying::CopyIn => cost(arg, &param.ty),
        Copying::CopyOut | Copying::CopyBoth => same_cost(arg, &param.ty),
    }
}

/// What the best candidates answer.
fn answer(best: Option<Best>) -> Result<usize, ChoiceFault>
    ensures { result ≡ best_answer best }
{
    match best {
        None => Err(ChoiceFault::NoMatch),
        Some(
            Best {
                first,
                second: None,
                ..
            },
        ) => Ok(first),
        Some(
            Best {
                first,
                second: Some(second),
                ..
            },
        ) => Err(ChoiceFault::Ambiguous { first, second }),
    }
}
