ghost use Rattle.std.specs.Prelude.{◌≡◌, ◌<◌, ◌≤◌, [], Ok as OkOf};
ghost use Rattle.plain.specs.Limits.{most_workers};
ghost use Rattle.answering.specs.Told.{IsTold};
ghost use Rattle.memo.specs.Memo.{Grows};
ghost use Rattle.build.specs.Lowerable.{IsLowerable};
ghost use Rattle.build.specs.PrivateTelling.{TellsAsked, TellsBundle, TellsPlan, TellsSolution};

use crate::asking::{Asked, ask_once};
use crate::remains::Remains;
use crate::{BuildFault, Status, plan_of};
use answering::{tell_failure, tell_refusal, tell_tree};
use cachemounts::CacheStore;
use counted::CountedWrite;
use executor::Executor;
use imageconfig::Config;
use memo::Memo;
use plain::Fault;
use plans::Plan;
use solver::{Gate, Solution};
use std::alloc::Global;
use std::hash::RandomState;
use std::sync::Wait;
use std::thread::Threads;
use workers::solve_keeping;

/// Tells of a bundle's bytes: writes one answer. The bytes end as soon as the bundle is read, so that a build has their memory.
pub(crate) fn tell_bundle<W: CountedWrite, E: Executor, G: Gate>(
    alloc: Global,
    keys: RandomState,
    rt: &(impl Threads + Wait + Sync),
    bytes: Vec<u8>,
    output: &mut W,
    executor: &E,
    workers: u32,
    gate: &G,
    memo: &mut Memo<E>,
    remains: &mut Remains,
) -> Result<Status, BuildFault>
    requires executor { E.out memo.old.executor ≡ E.out executor.now }
    requires workers { (0 < workers) × (workers ≤ most_workers) }
    requires writes { W.failures output.old < u64.MAX }
    ensures told { IsTold (TellsBundle bytes.items (E.out executor.now))
        (W.contents output.old) (W.failures output.old) (W.contents output.new) (W.failures output.new) result }
    ensures memo { Grows memo.old memo.new }
{
    match ask_once(alloc, keys, rt, bytes) {
        Ok(asked) => tell_asked(
            alloc, rt, asked, output, executor, workers, gate, memo, remains,
        ),
        Err(Fault::Because(refusal)) => tell_refusal(alloc, refusal, output),
        Err(Fault::Memory) => Err(BuildFault::Memory),
    }
}

/// Tells of what a bundle asks for.
fn tell_asked<W: CountedWrite, E: Executor, G: Gate>(
    alloc: Global,
    rt: &(impl Threads + Wait + Sync),
    asked: Asked,
    output: &mut W,
    executor: &E,
    workers: u32,
    gate: &G,
    memo: &mut Memo<E>,
    remains: &mut Remains,
) -> Result<Status, BuildFault>
    requires executor { E.out memo.old.executor ≡ E.out executor.now }
    requires workers { (0 < workers) × (workers ≤ most_workers) }
    requires lowerable { IsLowerable asked.evaluated }
    requires idle { asked.caches.holds ≡ [] }
    requires writes { W.failures output.old < u64.MAX }
    ensures told { IsTold (TellsAsked (E.out executor.now) (OkOf asked.evaluated))
        (W.contents output.old) (W.failures output.old) (W.contents output.new) (W.failures output.new) result }
    ensures memo { Grows memo.old memo.new }
{
    let Asked {
        evaluated,
        mut caches,
    } = asked;
    match plan_of(alloc, evaluated) {
        Ok(plan) => {
            let ended = tell_plan(
                alloc,
                rt,
                &plan,
                output,
                executor,
                workers,
                gate,
                &mut caches,
                memo,
                remains,
            );
            remains.keep_asked(plan, caches);
            ended
        }
        Err(_) => {
            drop(caches);
            Err(BuildFault::Memory)
        }
    }
}

/// Tells of a plan.
fn tell_plan<W: CountedWrite, E: Executor, G: Gate>(
    alloc: Global,
    rt: &(impl Threads + Wait + Sync),
    plan: &Plan<Config>,
    output: &mut W,
    executor: &E,
    workers: u32,
    gate: &G,
    caches: &mut CacheStore,
    memo: &mut Memo<E>,
    remains: &mut Remains,
) -> Result<Status, BuildFault>
    requires executor { E.out memo.old.executor ≡ E.out executor.now }
    requires workers { (0 < workers) × (workers ≤ most_workers) }
    requires idle { caches.old.holds ≡ [] }
    requires writes { W.failures output.old < u64.MAX }
    ensures told { IsTold (TellsPlan (E.out executor.now) plan.now)
        (W.contents output.old) (W.failures output.old) (W.contents output.new) (W.failures output.new) result }
    ensures memo { Grows memo.old memo.new }
{
    match solve_keeping(
        alloc,
        rt,
        plan,
        executor,
        workers,
        gate,
        caches,
        memo,
        remains.leftover(),
    ) {
        Ok(solution) => {
            let ended = tell_solution(alloc, rt, plan.config(), &solution, output);
            remains.keep_solution(solution);
            ended
        }
        Err(_) => Err(BuildFault::Memory),
    }
}

/// Tells of a solution, with this configuration.
fn tell_solution<W: CountedWrite, R: Threads + Sync>(
    alloc: Global,
    rt: &R,
    config: &Config,
    solution: &Solution,
    output: &mut W,
) -> Result<Status, BuildFault>
    requires writes { W.failures output.old < u64.MAX }
    ensures { IsTold (TellsSolution config.now solution.now)
        (W.contents output.old) (W.failures output.old) (W.contents output.new) (W.failures output.new) result }
{
    match solution {
        Solution::Built(tree) => tell_tree(alloc, rt, config, tree, output),
        Solution::Failed {
            vertex: _,
            place,
            cause,
        } => tell_failure(alloc, *place, *cause, output),
    }
}
