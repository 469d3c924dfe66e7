ghost use Rattle.std.specs.Prelude.{◌≡◌, ◌<◌, ℕ, [], false, None, Some, Ok, IfOk, OnOk};
ghost use Rattle.std.specs.Bool.{OnTrue, OnFalse};
ghost use Rattle.trees.specs.TreeMap.{TreeMap};
ghost use Rattle.board.specs.Board.{board_problem, AreLeft};
ghost use Rattle.board.specs.Leaving.{GivesBackWhatIsLeft, AreLeftByRuns, AreLeftAtEnd};
ghost use Rattle.board.specs.Legal.{IsReady};
ghost use Rattle.board.specs.Play.{value_at, unsettled_count};
ghost use Rattle.board.specs.Readiness.{has_tree};
ghost use Rattle.plans.specs.Plan.{problem_of};
ghost use Rattle.plans.specs.Value.{Out};
ghost use Rattle.solver.specs.Answer.{IsAnswer};
ghost use Rattle.solver.specs.Recall.{AreOf, MayStay};
ghost use Rattle.solver.specs.Solution.{IsSolution, IsBuilt};

use crate::recalling::run_recalled;
use crate::solution::solution_of;
use crate::{Answer, Gate, Numbering, OpenGate, Recall, Solution};
use board::{Board, Job, NoBoard, Refused};
use cachemounts::CacheStore;
use executor::Executor;
use plain::{Exact, Memory};
use plans::Plan;
use std::alloc::Global;
use std::marker::Brand;
use std::mem;
use vertexrun::Ran;

/// The worker that the sweep claims as: past those that threads have, which are numbered from 0 to 63.
const SWEEPER: u32 = 64;

/// The answer to a plan under an executor, with a store of caches of which nobody holds anything (`CacheStore::is_idle` tests that). It always returns.
/// Whatever the result, no lease is out then, and the caches hold what a legal history of the plan's problem left of what they held: each content is as it was,
/// or what the last settle that gave it back brought, which the run of its vertex left of what it was lent. If there is an answer, that history is over: after
/// it no vertex is ready.
pub fn solve_here<C: Exact, E: Executor>(
    alloc: Global,
    plan: &Plan<C>,
    executor: &E,
    caches: &mut CacheStore,
) -> Result<Answer<C>, Memory>
    requires { caches.old.holds ≡ [] }
    ensures answer { IfOk result (IsAnswer (E.out executor.now) plan.now) }
    ensures idle { caches.new.holds ≡ [] }
    ensures left { AreLeft (problem_of (E.out executor.now) plan.now) caches.old.contents caches.new.contents }
    ensures runs { AreLeftByRuns (E.leaves executor.now) (problem_of (E.out executor.now) plan.now) caches.old.contents caches.new.contents }
    ensures ended { OnOk result (AreLeftAtEnd (E.leaves executor.now) (problem_of (E.out executor.now) plan.now) caches.old.contents caches.new.contents) }
{
    let solution = solve_problem(alloc, plan, executor, caches)?;
    answer_of(alloc, plan, solution)
}

/// The same without the configuration, which the plan still has: nothing of it is copied.
pub fn solve_problem<C, E: Executor>(
    alloc: Global,
    plan: &Plan<C>,
    executor: &E,
    caches: &mut CacheStore,
) -> Result<Solution, Memory>
    requires { caches.old.holds ≡ [] }
    ensures solution { IfOk result (IsSolution (problem_of (E.out executor.now) plan.now)) }
    ensures idle { caches.new.holds ≡ [] }
    ensures left { AreLeft (problem_of (E.out executor.now) plan.now) caches.old.contents caches.new.contents }
    ensures runs { AreLeftByRuns (E.leaves executor.now) (problem_of (E.out executor.now) plan.now) caches.old.contents caches.new.contents }
    ensures ended { OnOk result (AreLeftAtEnd (E.leaves executor.now) (problem_of (E.out executor.now) plan.now) caches.old.contents caches.new.contents) }
{
    let lent = mem::replace(caches, CacheStore::new(alloc));
    let mut board = match Board::new(alloc, Job::new(plan, executor), lent) {
        Ok(board) => board,
        Err(refused) => {
            let NoBoard { caches: back } = refused;
            *caches = back;
            return Err(Memory);
        }
    };
    let solution = finish(alloc, &OpenGate, &mut board);
    let _known = board.history();
    *caches = board.into_caches();
    solution
}

/// A solution of a plan's problem, with the plan's configuration.
fn answer_of<C: Exact>(
    alloc: Global,
    plan: &Plan<C>,
    solution: Solution,
) -> Result<Answer<C>, Memory>
    ensures { (out : Out) → IsSolution (problem_of out plan.now) solution → IfOk result (IsAnswer out plan.now) }
{
    match solution {
        Solution::Built(tree) => Ok(Answer::Built(tree, plan.config().copy(alloc)?)),
        Solution::Failed {
            vertex: _,
            place,
            cause,
        } => Ok(Answer::Failed { place, cause }),
    }
}

/// The solution of a board: what is left of its job is claimed, run and settled, one vertex at a time, until no vertex is ready. What is settled
/// isn't run again: where that is the target with a tree, the solution is built with this tree, whatever else has failed. The gate is asked around
/// each run of the executor. No claim may be out (`Board::is_idle` tests that), and whatever the result, none is afterwards. Each settle gives back what a run
/// left: so if the history did so before, it does so afterwards. It always returns.
pub fn finish<'a, E: Executor + 'a, G: Gate>(
    alloc: Global,
    gate: &G,
    board: &mut Board<'a, E>,
) -> Result<Solution, Memory>
    requires { board.old.run.state.claims ≡ [] }
    ensures solution { IfOk result (IsSolution (board_problem E.out board.old)) }
    ensures settled { (tree : TreeMap) → value_at board.old.run.state.settled board.old.job.target ≡ Some (Ok tree)
        → IfOk result (IsBuilt tree) }
    ensures idle { board.new.run.state.claims ≡ [] }
    ensures over { OnOk result ((vertex : ℕ) → ¬ IsReady (board_problem E.out board.new) board.new.run.history vertex) }
    ensures job { board.new.job ≡ board.old.job }
    ensures first { board.new.first ≡ board.old.first }
    ensures left { GivesBackWhatIsLeft (E.leaves board.old.job.executor) (board_problem E.out board.old) board.old.first board.old.run.history
        → GivesBackWhatIsLeft (E.leaves board.new.job.executor) (board_problem E.out board.new) board.new.first board.new.run.history }
{
    finish_alone::<E, G, Brand>(alloc, gate, board)
}

/// The same, with names for what would be found in a memo, if there were one.
fn finish_alone<'a, E: Executor + 'a, G: Gate, N: Numbering + 'a>(
    alloc: Global,
    gate: &G,
    board: &mut Board<'a, E>,
) -> Result<Solution, Memory>
    requires idle { board.old.run.state.claims ≡ [] }
    requires named { AreOf (board_problem E.out board.old) N.out N.values }
    requires stays { MayStay N.knows (E.leaves board.old.job.executor) }
    ensures solution { IfOk result (IsSolution (board_problem E.out board.old)) }
    ensures settled { (tree : TreeMap) → value_at board.old.run.state.settled board.old.job.target ≡ Some (Ok tree)
        → IfOk result (IsBuilt tree) }
    ensures idle { board.new.run.state.claims ≡ [] }
    ensures over { OnOk result ((vertex : ℕ) → ¬ IsReady (board_problem E.out board.new) board.new.run.history vertex) }
    ensures job { board.new.job ≡ board.old.job }
    ensures first { board.new.first ≡ board.old.first }
    ensures left { GivesBackWhatIsLeft (E.leaves board.old.job.executor) (board_problem E.out board.old) board.old.first board.old.run.history
        → GivesBackWhatIsLeft (E.leaves board.new.job.executor) (board_problem E.out board.new) board.new.first board.new.run.history }
{
    let nothing: Option<&'a Recall<'a, 'a, E, N>> = None;
    finish_recalled(alloc, nothing, gate, board)
}

/// As `finish`, and of what is left a memo is asked first, if there is one.
pub fn finish_recalled<E: Executor, M: Executor, G: Gate, N: Numbering>(
    alloc: Global,
    recall: Option<&Recall<M, N>>,
    gate: &G,
    board: &mut Board<E>,
) -> Result<Solution, Memory>
    requires idle { board.old.run.state.claims ≡ [] }
    requires named { AreOf (board_problem E.out board.old) N.out N.values }
    requires stays { MayStay N.knows (E.leaves board.old.job.executor) }
    ensures solution { IfOk result (IsSolution (board_problem E.out board.old)) }
    ensures settled { (tree : TreeMap) → value_at board.old.run.state.settled board.old.job.target ≡ Some (Ok tree)
        → IfOk result (IsBuilt tree) }
    ensures idle { board.new.run.state.claims ≡ [] }
    ensures over { OnOk result ((vertex : ℕ) → ¬ IsReady (board_problem E.out board.new) board.new.run.history vertex) }
    ensures job { board.new.job ≡ board.old.job }
    ensures first { board.new.first ≡ board.old.first }
    ensures left { GivesBackWhatIsLeft (E.leaves board.old.job.executor) (board_problem E.out board.old) board.old.first board.old.run.history
        → GivesBackWhatIsLeft (E.leaves board.new.job.executor) (board_problem E.out board.new) board.new.first board.new.run.history }
{
    while turn(alloc, recall, gate, board)? {}
    solution_of(alloc, board)
}

/// Claims, runs and settles the least ready vertex. It answers whether there was one.
fn turn<E: Executor, M: Executor, G: Gate, N: Numbering>(
    alloc: Global,
    recall: Option<&Recall<M, N>>,
    gate: &G,
    board: &mut Board<E>,
) -> Result<bool, Memory>
    requires idle { board.old.run.state.claims ≡ [] }
    requires named { AreOf (board_problem E.out board.old) N.out N.values }
    requires stays { MayStay N.knows (E.leaves board.old.job.executor) }
    ensures job { board.new.job ≡ board.old.job }
    ensures first { board.new.first ≡ board.old.first }
    ensures left { GivesBackWhatIsLeft (E.leaves board.old.job.executor) (board_problem E.out board.old) board.old.first board.old.run.history
        → GivesBackWhatIsLeft (E.leaves board.new.job.executor) (board_problem E.out board.new) board.new.first board.new.run.history }
    ensures idle { board.new.run.state.claims ≡ [] }
    ensures nearer { IfOk result (λ more. OnTrue more (unsettled_count board.new.run.state.settled < unsettled_count board.old.run.state.settled)) }
    ensures same { IfOk result (λ more. OnFalse more (board.new ≡ board.old)) }
    ensures unbuilt { IfOk result (λ more. OnTrue more (has_tree (value_at board.old.run.state.settled board.old.job.target) ≡ false)) }
    ensures over { IfOk result (λ more. OnFalse more ((vertex : ℕ) → ¬ IsReady (board_problem E.out board.new) board.new.run.history vertex)) }
{
    let _known = board.history();
    let claimed = board.claim(alloc, SWEEPER)?;
    let Some(claim) = claimed else {
        return Ok(false);
    };
    let Ran { value, given } = match run_recalled(alloc, board.job(), recall, gate, &claim) {
        Ok(ran) => ran,
        Err(memory) => {
            board.abandon(claim);
            return Err(memory);
        }
    };
    match board.settle(alloc, claim, value, given) {
        Ok(()) => Ok(true),
        Err(refused) => {
            let Refused {
                claim,
                value: _,
                given: _,
            } = refused;
            board.abandon(claim);
            Err(Memory)
        }
    }
}
