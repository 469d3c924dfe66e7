ghost use Rattle.std.specs.Prelude.{IfOk, Ok as OkOf};
ghost use Rattle.plans.specs.Plan.{NeedsAll, problem_of};
ghost use Rattle.plans.specs.Value.{Out};
ghost use Rattle.solver.specs.Solution.{IsSolution};
ghost use Rattle.solver.specs.declared.solution.Solution.{Solution};
ghost use Rattle.build.specs.Lowerable.{IsLowerable};
ghost use Rattle.build.specs.Meaning.{Tells};
ghost use Rattle.build.specs.Telling.{status_of, text_of};

use crate::lowered::lower_evaluated;
use evaluation::Evaluated;
use imageconfig::Config;
use plain::Memory;
use plans::Plan;
use rewrite::{is_flat, shrink};
use std::alloc::Global;

/// The plan of a file's needed stages. Its links are one merge, unless a tree between them is needed elsewhere too.
///
/// Under every executor, whatever solves the plan tells what the stages give, with the plan's configuration: the target's tree, or the first
/// instruction of the file that fails. The target needs every vertex. It asks for what evaluation gives.
pub fn plan_of(alloc: Global, evaluated: Evaluated) -> Result<Plan<Config>, Memory>
    requires { IsLowerable evaluated }
    ensures tells { IfOk result (λ plan. (out : Out) (solution : Solution)
        → IsSolution (problem_of out plan) solution → Tells out (OkOf evaluated) (status_of solution) (text_of plan.config solution)) }
    ensures needed { IfOk result (λ plan. (out : Out) → NeedsAll (problem_of out plan)) }
{
    let plan = lower_evaluated(alloc, evaluated)?;
    // The target needs every vertex of what was lowered: without links there is nothing to shrink, and to shrink is to build the graph again.
    if is_flat(plan.graph().vertices()) {
        return Ok(plan);
    }
    let smaller = shrink(alloc, plan)?;
    let _known = smaller.graph();
    Ok(smaller)
}
