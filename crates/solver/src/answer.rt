ghost use Rattle.std.specs.Prelude.{◌≡◌};
ghost use Rattle.plans.specs.Plan.{PlanValue, problem_of};
ghost use Rattle.plans.specs.Value.{Out};
ghost use Rattle.solver.specs.Answer.{IsAnswer};
ghost use Rattle.solver.specs.Solution.{IsSolution};

use crate::Solution;
use trees::{Cause, Tree};

/// The answer to a plan.
#[derive(Drop)]
pub enum Answer<C> {
    /// The tree that is the value of the plan's target, and the plan's configuration.
    Built(Tree, C),
    /// The failure of least line that was settled: the least of the lines behind the vertex that fails, 0 if it has none, and the cause.
    Failed { place: u32, cause: Cause },
}

impl<C: Drop> Answer<C> {
    /// The answer that a solution is, with the configuration of its plan. It takes no memory.
    pub fn of(solution: Solution, config: C) -> Answer<C>
        ensures { (out : Out) (plan : PlanValue C) → config ≡ plan.config → IsSolution (problem_of out plan) solution → IsAnswer out plan result }
    {
        match solution {
            Solution::Built(tree) => Answer::Built(tree, config),
            Solution::Failed {
                vertex: _,
                place,
                cause,
            } => {
                drop(config);
                Answer::Failed { place, cause }
            }
        }
    }
}
