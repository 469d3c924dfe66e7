ghost use Rattle.std.specs.Prelude.{IfOk};
ghost use Rattle.plans.specs.Plan.{problem_of, NeedsAll};
ghost use Rattle.plans.specs.Value.{Out};
ghost use Rattle.rewrite.specs.Flat.{MergesAreFlat};
ghost use Rattle.rewrite.specs.Pruned.{KeepsMeaning};
ghost use Rattle.drawing.specs.Drawn.{IsDrawn, IsSimplified};

use crate::{Clash, DrawFault};
use definition::laws::clashes_are_of_different_operations;
use definition::write;
use plain::{Fault, Memory, Text};
use plans::Plan;
use rewrite::{flatten_links, prune};
use std::alloc::Global;

/// The definition text of a plan's graph, with its links put into one and without what its target doesn't reach.
///
/// All operations of what it is read as are reached from the result, no merge among them is the first input of a merge, and under every
/// executor the result has the value of the plan's target, over the plan's sources. Each says the lines behind it; one in which several of the
/// plan's became one says those of all. Every plan may be drawn. `Clash` exactly where two different operations of what would be written have
/// the same address.
pub fn draw<C: Drop>(alloc: Global, plan: Plan<C>) -> Result<Text, DrawFault>
    ensures { IsDrawn plan result }
{
    let simple = simplify(alloc, plan)?;
    let _known = simple.graph();
    let written = write(alloc, &simple);
    // The plan is let go by name: the proof would walk all its parts at each end of the function.
    drop(simple);
    match written {
        Ok(text) => Ok(text),
        Err(Fault::Because(_)) => {
            clashes_are_of_different_operations();
            Err(Fault::Because(Clash))
        }
        Err(Fault::Memory) => Err(Fault::Memory),
    }
}

/// The plan that is drawn.
#[tactic(auto, using(crate::proofs::SimpleFacts::simplified, crate::proofs::SimpleFacts::flat_on, crate::proofs::SimpleFacts::means_on))]
fn simplify<C: Drop>(alloc: Global, plan: Plan<C>) -> Result<Plan<C>, Memory>
    ensures simplified { IfOk result (IsSimplified plan) }
    ensures flat { IfOk result (λ simple. MergesAreFlat simple.graph.vertices) }
    ensures keeps { IfOk result (KeepsMeaning plan) }
    ensures needed { IfOk result (λ simple. (out : Out) → NeedsAll (problem_of out simple)) }
{
    let flat = flatten_links(alloc, plan)?;
    prune(alloc, flat)
}
