// Makes a plan smaller before it is solved.
ghost use Rattle.std.specs.Prelude.{IfOk};
ghost use Rattle.plans.specs.Plan.{problem_of, NeedsAll};
ghost use Rattle.plans.specs.Value.{Out};
ghost use Rattle.lowering.specs.Means.{AreLined};
ghost use Rattle.lowering.specs.Order.{LinesInOrder};
ghost use Rattle.rewrite.specs.Pruned.{KeepsMeaning};

use crate::links::{flatten_links, link_below};
use crate::pruning::prune;
use llb::{Vertex, VertexId};
use plain::{Memory, no_marks};
use plans::Plan;
use std::alloc::Global;

/// The plan as it is best solved: without what its target doesn't need, and with its links put into one, unless a tree between two links
/// is needed elsewhere too.
///
/// A merge of many trees is made in one tree of its own. In a chain of merges each leaves a tree that shares its folders with the next one, which
/// has to copy what it changes of them. But a tree between two links that is needed elsewhere would be made twice, and a chain of such trees
/// once for each: so the plan that is given has at most as many inputs as the one before. After `Memory` the plan is gone.
pub fn shrink<C: Drop>(alloc: Global, plan: Plan<C>) -> Result<Plan<C>, Memory>
    ensures keeps { IfOk result (KeepsMeaning plan) }
    ensures needed { IfOk result (λ smaller. (out : Out) → NeedsAll (problem_of out smaller)) }
    ensures order { IfOk result (λ smaller. LinesInOrder plan.graph → LinesInOrder smaller.graph) }
    ensures lined { IfOk result (λ smaller. AreLined plan.graph → AreLined smaller.graph) }
{
    if is_link_shared(alloc, plan.graph().vertices())? {
        return prune(alloc, plan);
    }
    flatten_links(alloc, plan)
}

/// Whether a merge that is the first input of a merge is the input of something else too. It is asked only to save work.
fn is_link_shared(alloc: Global, vertices: &[Vertex]) -> Result<bool, Memory> {
    let mut needed = no_marks(alloc, vertices.len())?;
    let mut again = no_marks(alloc, vertices.len())?;
    for vertex in vertices {
        for input in vertex.inputs.as_slice() {
            mark_need(&mut needed, &mut again, *input);
        }
    }
    for vertex in vertices {
        if let Some(below) = link_below(vertices, vertex) {
            if again.get(below.index()) == Some(&true) {
                return Ok(true);
            }
        }
    }
    Ok(false)
}

/// Marks a vertex as needed, and as needed again if it was marked before.
fn mark_need(needed: &mut Vec<bool>, again: &mut Vec<bool>, id: VertexId) {
    let Some(once) = needed.get_mut(id.index()) else {
        return;
    };
    if *once {
        if let Some(twice) = again.get_mut(id.index()) {
            *twice = true;
        }
    }
    *once = true;
}
