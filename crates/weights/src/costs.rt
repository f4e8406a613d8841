//! The cost of a set of soft numbers.
ghost use Rattle.weights.specs.Costs.{cost};
ghost use Rattle.weights.specs.Kinds.{Totals};

use crate::kinds::WeightKind;
use terms::SoftSet;

/// The sum of the weights at the members of `set`, weight k being that of soft number k; none where it cannot be held.
pub fn cost_of<W: WeightKind>(weights: &[W], set: SoftSet) -> Option<W>
    ensures { Totals W.kind (cost W.kind weights.now set) result }
{
    let mut total = W::zero();
    for (number, weight) in weights.iter().enumerate() {
        if set.has(number) {
            total = total.sum(*weight)?;
        }
    }
    Some(total)
}
