// `handing`: a name, ` | `, a number of workers, ` | `, and a bundle. It is built by so many workers, with an executor that does nothing and a gate that
// holds each worker back until all of them have come. The answer is the name and the exit status, how many commands were lent a cache whose root
// has the owner 77, and how many workers have come.
//
// So it shows that a build hands the bundle's caches, the gate and the number of workers on, which no answer of a build can show. A bundle has at
// least as many commands that need nothing of each other as there are workers.

ghost use Rattle.std.specs.Prelude.{◌<◌, ◌≤◌};

use crate::stores::workers_of;
use build::{run_build, status_code};
use counted::Counted;
use executor::{Executor, Outcome, Request};
use llb::VertexId;
use memo::Memo;
use plain::{Exact, Memory};
use solver::Gate;
use std::alloc::Global;
use std::hash::RandomState;
use std::io::Cursor;
use std::sync::Wait;
use std::sync::atomic::{AtomicU64, Ordering};
use std::thread;
use std::thread::Threads;
use trees::Tree;

/// The owner of the roots of the caches that are counted.
const OWNER: u32 = 77;

/// How many turns a worker waits for the others.
const MOST_TURNS: u64 = 1_000_000_000;

/// Does nothing, and counts the commands that are lent a cache of that owner.
#[derive(Drop)]
struct Watching {
    lent: AtomicU64,
}

impl Executor for Watching {
    ghost use Rattle.runs.specs.declared.run.RunOutcome.TheVariants.{Done, Exit};

    ghost out = { λ _ request. Done request.root };

    ghost exits = { λ _ request status e. Prim.cc };

    fn run(
        &self,
        alloc: Global,
        request: &Request,
        caches: &mut Vec<Tree>,
    ) -> Result<Outcome, Memory> {
        if caches.iter().any(|tree| tree.root().uid == OWNER) {
            self.lent.fetch_add(1, Ordering::SeqCst);
        }
        Ok(Outcome::Done(request.root.copy(alloc)?))
    }
}

/// Holds each worker back until so many have come, and keeps a bit for each.
#[derive(Drop)]
struct Meeting {
    workers: u32,
    seen: AtomicU64,
}

impl Meeting {
    /// How many workers have come.
    fn count(&self) -> u32 {
        self.seen.load(Ordering::SeqCst).count_ones()
    }
}

impl Gate for Meeting {
    fn enter(&self, worker: u32, _vertex: VertexId) {
        let bit = if worker < 64 { 1 << worker } else { 0 };
        self.seen.fetch_or(bit, Ordering::SeqCst);
        for _ in 0..MOST_TURNS {
            if self.count() == self.workers {
                return;
            }
            thread::yield_now();
        }
    }

    fn leave(&self, _worker: u32, _vertex: VertexId) {}
}

pub fn answer(
    alloc: Global,
    keys: RandomState,
    rt: &(impl Threads + Wait + Sync),
    case: &str,
) -> Result<String, Memory> {
    let (name, rest) = case.split_once(" | ").unwrap_or((case, ""));
    let (workers, bundle) = rest.split_once(" | ").unwrap_or((rest, ""));
    let workers = workers_of(workers);
    let lent = AtomicU64::new(0);
    let executor = Watching { lent };
    let seen = AtomicU64::new(0);
    let gate = Meeting { workers, seen };
    let status = status_of(alloc, keys, rt, bundle, &executor, workers, &gate);
    let lent = executor.lent.load(Ordering::SeqCst);
    let seen = gate.count();
    Ok(format!(in alloc; "{name}: status {status}, {lent} lent, {seen} of {workers} workers")?)
}

/// The exit status of a build.
fn status_of(
    alloc: Global,
    keys: RandomState,
    rt: &(impl Threads + Wait + Sync),
    bundle: &str,
    executor: &Watching,
    workers: u32,
    gate: &Meeting,
) -> u8
    requires workers { (0 < workers) × (workers ≤ 64) }
{
    let mut input = Counted::new(Cursor::new(bundle.as_bytes()));
    let mut output = Counted::new(Vec::<u8>::new(alloc));
    let mut memo = Memo::new(alloc, executor);
    let ended = run_build(
        alloc,
        keys,
        rt,
        &mut input,
        &mut output,
        executor,
        workers,
        gate,
        &mut memo,
    );
    drop(memo);
    status_code(ended)
}
