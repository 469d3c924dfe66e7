// `stores`: a name, ` | `, a number of workers and, if the executor wants memory, the number of its first run that does, from 0 on, as do all that
// begin later; ` | `, and a bundle. Its plan is solved over a store of what the bundle's caches hold, and then again over that store and with the same memo
// by an executor that has memory. The answer is the name and what each came to: a tree's entries, or a failure's line and cause, or want of memory; and
// that a lease is out after it, if one is.
//
// `tools/check allocations` runs this table with each of its allocations refused in turn.

ghost use Rattle.std.specs.Prelude.{◌≡◌, ◌<◌, ◌≤◌, []};
ghost use Rattle.build.specs.Lowerable.{IsLowerable};

use build::{Asked, ask, plan_of};
use cachemounts::CacheStore;
use executor::{Executor, Fixture, Outcome, Request};
use imageconfig::Config;
use memo::Memo;
use plain::Memory;
use plans::Plan;
use samples::listing;
use solver::{Gate, OpenGate, Solution};
use std::alloc::Global;
use std::hash::RandomState;
use std::sync::Wait;
use std::sync::atomic::{AtomicU64, Ordering};
use std::thread::Threads;
use trees::Tree;
use workers::solve_together;

/// Runs commands as the fixture does, and wants memory from the one of this number on.
#[derive(Drop)]
struct Wanting {
    begun: AtomicU64,
    from: u64,
}

impl Wanting {
    fn new(from: u64) -> Wanting {
        Wanting {
            begun: AtomicU64::new(0),
            from,
        }
    }
}

impl Executor for Wanting {
    ghost use Rattle.executor.specs.Fixture.{fixture_out};
    ghost use Rattle.executor.specs.PrivateFixtureExits.{fixture_out-exits};

    ghost out = { λ _ request. fixture_out request };

    ghost exits = { λ _ request status e. fixture_out-exits request status e };

    fn run(
        &self,
        alloc: Global,
        request: &Request,
        caches: &mut Vec<Tree>,
    ) -> Result<Outcome, Memory> {
        if self.begun.fetch_add(1, Ordering::SeqCst) >= self.from {
            return Err(Memory);
        }
        Fixture.run(alloc, request, caches)
    }
}

pub fn answer(
    alloc: Global,
    keys: RandomState,
    rt: &(impl Threads + Wait + Sync),
    case: &str,
) -> Result<String, Memory> {
    let (name, rest) = case.split_once(" | ").unwrap_or((case, ""));
    let (numbers, bundle) = rest.split_once(" | ").unwrap_or((rest, ""));
    let (workers, from) = numbers.split_once(" from ").unwrap_or((numbers, ""));
    let workers = workers_of(workers);
    let from = from.parse::<u64>().unwrap_or(u64::MAX);
    let text = match ask(alloc, keys, rt, bundle.as_bytes()) {
        Ok(asked) => asked_text(alloc, rt, asked, workers, from)?,
        Err(_) => return Err(Memory),
    };
    Ok(format!(in alloc; "{name}: {text}")?)
}

/// A number of workers.
pub fn workers_of(text: &str) -> u32
    ensures { (0 < result) × (result ≤ 64) }
{
    match text.parse::<u32>() {
        Ok(workers) if 0 < workers && workers <= 64 => workers,
        _ => 1,
    }
}

/// What a bundle comes to, twice over one store.
fn asked_text(
    alloc: Global,
    rt: &(impl Threads + Wait + Sync),
    asked: Asked,
    workers: u32,
    from: u64,
) -> Result<String, Memory>
    requires workers { (0 < workers) × (workers ≤ 64) }
    requires idle { asked.caches.holds ≡ [] }
    requires lowerable { IsLowerable asked.evaluated }
{
    let Asked {
        evaluated,
        mut caches,
    } = asked;
    match plan_of(alloc, evaluated) {
        Ok(plan) => {
            let text = plan_text(alloc, rt, &plan, &mut caches, workers, from);
            drop(plan);
            drop(caches);
            text
        }
        Err(memory) => {
            drop(caches);
            Err(memory)
        }
    }
}

fn plan_text(
    alloc: Global,
    rt: &(impl Threads + Wait + Sync),
    plan: &Plan<Config>,
    caches: &mut CacheStore,
    workers: u32,
    from: u64,
) -> Result<String, Memory>
    requires workers { (0 < workers) × (workers ≤ 64) }
    requires idle { caches.old.holds ≡ [] }
{
    let wanting = Wanting::new(from);
    let sated = Wanting::new(u64::MAX);
    let mut memo = Memo::new(alloc, &wanting);
    let first = solved(
        alloc, rt, plan, &wanting, &OpenGate, caches, workers, &mut memo,
    );
    let second = solved(
        alloc, rt, plan, &sated, &OpenGate, caches, workers, &mut memo,
    );
    drop(memo);
    let (first, second) = (first?, second?);
    Ok(format!(in alloc; "{first}; then {second}")?)
}

/// What a plan comes to over a store and with a memo, and whether a lease is out then.
pub fn solved<C, E: Executor, G: Gate>(
    alloc: Global,
    rt: &(impl Threads + Wait + Sync),
    plan: &Plan<C>,
    executor: &E,
    gate: &G,
    caches: &mut CacheStore,
    workers: u32,
    memo: &mut Memo<E>,
) -> Result<String, Memory>
    requires executor { E.out memo.old.executor ≡ E.out executor.now }
    requires workers { (0 < workers) × (workers ≤ 64) }
    requires idle { caches.old.holds ≡ [] }
    ensures idle { caches.new.holds ≡ [] }
{
    let solution = solve_together(alloc, rt, plan, executor, workers, gate, caches, memo);
    let text = match solution {
        Ok(solution) => solution_text(alloc, solution),
        Err(Memory) => Ok(String::from_str(alloc, "out of memory")?),
    };
    if caches.is_idle() {
        text
    } else {
        Ok(format!(in alloc; "{}, with a lease out", text?)?)
    }
}

/// What a solution is, in a line.
pub fn solution_text(alloc: Global, solution: Solution) -> Result<String, Memory> {
    match solution {
        Solution::Built(tree) => {
            let list = listing(alloc, &tree);
            drop(tree);
            let list = list?;
            Ok(format!(in alloc; "built{list}")?)
        }
        Solution::Failed {
            vertex: _,
            place,
            cause,
        } => Ok(format!(in alloc; "failed {place}: {cause}")?),
    }
}
