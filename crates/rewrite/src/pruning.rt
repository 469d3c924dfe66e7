// Leaves out what a plan's target doesn't need.
ghost use Rattle.std.specs.Prelude.{IfOk};
ghost use Rattle.plans.specs.Plan.{problem_of, NeedsAll};
ghost use Rattle.plans.specs.Value.{Out};
ghost use Rattle.rewrite.specs.Pruned.{IsPruned, KeepsMeaning};

use crate::joining::{Joined, find_name, join_all};
use plain::Memory;
use plans::Plan;
use reached::mark_reached;
use std::alloc::Global;

/// The plan without what its target doesn't reach.
///
/// The vertices that are kept come in their order, each on the same inputs and with the same lines. So the target has the value that it
/// had, and of the vertices that fail those are left, with their lines and causes, that the target reaches; the configuration and the
/// sources stay. Every plan may be pruned. After `Memory` the plan is gone.
pub fn prune<C: Drop>(alloc: Global, plan: Plan<C>) -> Result<Plan<C>, Memory>
    ensures pruned { IfOk result (IsPruned plan) }
    ensures keeps { IfOk result (KeepsMeaning plan) }
    ensures needed { IfOk result (λ pruned. (out : Out) → NeedsAll (problem_of out pruned)) }
{
    let (graph, target, config, sources) = plan.into_parts();
    let marks = mark_reached(alloc, graph.vertices(), target)?;
    let (vertices, places) = graph.into_parts();
    let Joined { graph: kept, names } = join_all(alloc, vertices, places, marks.as_slice(), true)?;
    let _known = kept.vertices();
    let target = find_name(names.as_slice(), target);
    Ok(Plan::new(kept, target, config, sources))
}
