// What follows where a plan's target needs every vertex, and what of a memo: each function's contract is one law, and its body is empty.
ghost use Rattle.std.specs.Prelude.{◌≡◌, ℕ, Bool, List};
ghost use Rattle.cachemounts.specs.declared.content.Content.{Content};
ghost use Rattle.trees.specs.declared.cause.Cause.{Cause};
ghost use Rattle.plans.specs.Plan.{PlanValue, IsPlan, Problem, problem_of, NeedsAll, HasLinesInOrder};
ghost use Rattle.plans.specs.Value.{Out};
ghost use Rattle.board.specs.Leaving.{LeaveTheSame, AreLeftByRuns, AreLeftAtEnd};
ghost use Rattle.board.specs.Problem.{IsProblem};
ghost use Rattle.memo.specs.Memo.{Knows, new_memo};
ghost use Rattle.solver.specs.Answer.{IsAnswer, AreAlike};
ghost use Rattle.solver.specs.Recall.{leaves_or_stays};
ghost use Rattle.solver.specs.Solution.{IsFailure, IsSolution};
ghost use Rattle.solver.specs.Solution.{AreAlike as AreAlikeSolutions};
ghost use Rattle.solver.specs.declared.answer.Answer.{Answer};
ghost use Rattle.solver.specs.declared.solution.Solution.{Solution};

use executor::Executor;

/// Where the target needs every vertex, a problem has no two solutions that differ but in which failure they name: both are built with the same
/// tree, or both failed.
pub fn solutions_agree()
    ensures { (problem : Problem) (this that : Solution) → IsProblem problem → NeedsAll problem
        → IsSolution problem this → IsSolution problem that → AreAlikeSolutions this that }
{}

/// So a plan has then, under one executor, no two answers that differ but in which failure they name: both are built with the same tree and
/// configuration, or both failed.
pub fn answers_agree<C>()
    ensures { (out : Out) (plan : PlanValue C) (this that : Answer C)
        → IsPlan plan → NeedsAll (problem_of out plan)
        → IsAnswer out plan this → IsAnswer out plan that → AreAlike this that }
{}

/// If lines are in order too, all failures that solutions name have one line: that of the first vertex that fails.
pub fn failures_name_the_first_line()
    ensures { (problem : Problem) (vertex place other line : ℕ) (cause why : Cause) → NeedsAll problem → HasLinesInOrder problem
        → IsFailure problem vertex place cause → IsFailure problem other line why → place ≡ line }
{}

/// A memo without an entry lets nothing stay in a cache: what a solve with such a one leaves there, the executor left.
pub fn a_new_memo_lets_nothing_stay<E: Executor>()
    ensures same { (executor : E) (is_for_one_build : Bool)
        → LeaveTheSame (leaves_or_stays (Knows (new_memo executor is_for_one_build)) (E.leaves executor)) (E.leaves executor) }
    ensures runs { (executor : E) (is_for_one_build : Bool) (problem : Problem) (first contents : List Content)
        → AreLeftByRuns (leaves_or_stays (Knows (new_memo executor is_for_one_build)) (E.leaves executor)) problem first contents
        → AreLeftByRuns (E.leaves executor) problem first contents }
    ensures ended { (executor : E) (is_for_one_build : Bool) (problem : Problem) (first contents : List Content)
        → AreLeftAtEnd (leaves_or_stays (Knows (new_memo executor is_for_one_build)) (E.leaves executor)) problem first contents
        → AreLeftAtEnd (E.leaves executor) problem first contents }
{}
