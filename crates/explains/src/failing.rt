// How a build fails, if it does.
ghost use Rattle.std.specs.Prelude.{◌≡◌, ◌<◌, ◌≤◌, [], IfOk};
ghost use Rattle.plain.specs.Limits.{most_workers};
ghost use Rattle.plans.specs.Plan.{problem_of};
ghost use Rattle.solver.specs.Solution.{IsSolution};
ghost use Rattle.solver.specs.declared.solution.Solution.{Solution};
ghost use Rattle.build.specs.Lowerable.{IsLowerable};
ghost use Rattle.explains.specs.PrivateFailure.{IsFailureOf, failure_in};

use build::{Asked, plan_of};
use cachemounts::CacheStore;
use executor::Executor;
use imageconfig::Config;
use memo::Memo;
use plain::Memory;
use plans::Plan;
use solver::{OpenGate, Solution};
use std::alloc::Global;
use std::sync::Wait;
use std::thread::Threads;
use trees::Cause;
use workers::solve_together;

/// The line and the cause of the first instruction that fails of what a bundle asks for, if one does.
pub(crate) fn failure_of<E: Executor>(
    alloc: Global,
    rt: &(impl Threads + Wait + Sync),
    asked: Asked,
    executor: &E,
    workers: u32,
) -> Result<Option<(u32, Cause)>, Memory>
    requires workers { (0 < workers) × (workers ≤ most_workers) }
    requires lowerable { IsLowerable asked.evaluated }
    requires idle { asked.caches.holds ≡ [] }
    ensures { IfOk result (IsFailureOf (E.out executor.now) asked.evaluated) }
{
    let Asked {
        evaluated,
        mut caches,
    } = asked;
    match plan_of(alloc, evaluated) {
        Ok(plan) => {
            let failure = failure_in(alloc, rt, &plan, executor, workers, &mut caches);
            drop(plan);
            drop(caches);
            failure
        }
        Err(_) => {
            drop(caches);
            Err(Memory)
        }
    }
}

/// The line and the cause that a plan's solution has, if it is a failure.
fn failure_in<E: Executor>(
    alloc: Global,
    rt: &(impl Threads + Wait + Sync),
    plan: &Plan<Config>,
    executor: &E,
    workers: u32,
    caches: &mut CacheStore,
) -> Result<Option<(u32, Cause)>, Memory>
    requires workers { (0 < workers) × (workers ≤ most_workers) }
    requires idle { caches.old.holds ≡ [] }
    ensures { IfOk result (λ failure. (solution : Solution) × IsSolution (problem_of (E.out executor.now) plan.now) solution × (failure ≡ failure_in solution)) }
{
    let mut memo = Memo::for_one_build(alloc, executor);
    let solved = solve_together(
        alloc, rt, plan, executor, workers, &OpenGate, caches, &mut memo,
    );
    drop(memo);
    let solution = solved?;
    let failure = failure_told(&solution);
    drop(solution);
    Ok(failure)
}

/// The line and the cause of a solution, if it is a failure.
fn failure_told(solution: &Solution) -> Option<(u32, Cause)>
    ensures { result ≡ failure_in solution.now }
{
    match solution {
        Solution::Built(_) => None,
        Solution::Failed {
            vertex: _,
            place,
            cause,
        } => Some((*place, *cause)),
    }
}
