// `solving`: a name, ` | `, a plan by hand, ` | `, and who solves it: `here`, one thread with the plan's configuration, which is 7; `sweep`, one
// thread on a board of its own; or a number of workers. After it may stand what the gate does: `pair`, it holds the first command back until a second one
// has come; `late A B`, it holds the command of vertex A back until that of B has left; `alone`, it gives commands time to meet; `count N`, it counts those
// that a worker from N on runs. At the end may stand `times N`: it is solved so often. After ` | ` may stand what the cache `k` holds at the start: a file
// and its text, `/n=+`, a directory, `/n`, or `empty`.
//
// The answer is the name and what the plan comes to, each different answer once; what the gate saw; and, if caches were given, what `k` and `l` hold then.

ghost use Rattle.std.specs.Prelude.{◌≡◌, ◌<◌, ◌≤◌, []};

use crate::by_hand::plan_read;
use crate::lent::{caches_text, store_with};
use crate::reading::{cut, number};
use crate::stores::{solution_text, solved, workers_of};
use crate::watching::{Watch, Way};
use board::{Board, Job, NoBoard};
use cachemounts::CacheStore;
use executor::Fixture;
use memo::Memo;
use plain::Memory;
use plans::Plan;
use samples::listing;
use solver::{Answer, Gate, finish, solve_here};
use std::alloc::Global;
use std::sync::Wait;
use std::thread::Threads;

/// The fields of a case.
#[derive(Drop)]
struct Case<'a> {
    plan: &'a str,
    who: &'a str,
    way: Way,
    times: u32,
    /// What the cache `k` holds at the start, if caches are told.
    cache: Option<&'a str>,
}

pub fn answer(
    alloc: Global,
    rt: &(impl Threads + Wait + Sync),
    case: &str,
) -> Result<String, Memory> {
    let (name, rest) = case.split_once(" | ").unwrap_or((case, ""));
    let case = case_of(rest)?;
    let plan = plan_read(alloc, case.plan)?;
    let watch = Watch::new(case.way);
    let mut told = String::new(alloc);
    let done = tell(alloc, rt, &mut told, &plan, &case, &watch);
    drop(plan);
    match done {
        Ok(()) => Ok(format!(in alloc; "{name}: {told}")?),
        Err(memory) => Err(memory),
    }
}

/// What stands after the name of a case.
fn case_of(rest: &str) -> Result<Case<'_>, Memory> {
    let (plan, rest) = rest.split_once(" | ").unwrap_or((rest, ""));
    let (how, cache) = match rest.split_once(" | ") {
        Some((how, cache)) => (how, Some(cache)),
        None => (rest, None),
    };
    let (how, times) = match how.split_once(" times ") {
        Some((how, times)) => (how, number(times)?),
        None => (how, 1),
    };
    let (who, way) = cut(how);
    let way = Way::read(way)?;
    Ok(Case {
        plan,
        who,
        way,
        times,
        cache,
    })
}

/// Tells what a case comes to, what the gate saw, and what the caches hold.
fn tell(
    alloc: Global,
    rt: &(impl Threads + Wait + Sync),
    told: &mut String,
    plan: &Plan<u8>,
    case: &Case<'_>,
    watch: &Watch,
) -> Result<(), Memory> {
    let mut caches = store_with(alloc, case.cache.unwrap_or(""))?;
    let done = tell_all(alloc, rt, told, plan, case, watch, &mut caches);
    let held = caches_text(alloc, &mut caches);
    drop(caches);
    let ((), held) = (done?, held?);
    watch.tell(told)?;
    if case.cache.is_some() {
        told.push_str(held.as_str())?;
    }
    Ok(())
}

/// Tells each different answer to a plan that is solved as often as its case says.
fn tell_all(
    alloc: Global,
    rt: &(impl Threads + Wait + Sync),
    told: &mut String,
    plan: &Plan<u8>,
    case: &Case<'_>,
    watch: &Watch,
    caches: &mut CacheStore,
) -> Result<(), Memory> {
    for _ in 0..case.times {
        if !caches.is_idle() {
            return Ok(told.push_str("; a lease is out")?);
        }
        let text = solved_by(alloc, rt, plan, case.who, watch, caches)?;
        if !told.as_str().contains(text.as_str()) {
            told.push_str(text.as_str())?;
        }
    }
    Ok(())
}

/// What a plan comes to.
fn solved_by<G: Gate>(
    alloc: Global,
    rt: &(impl Threads + Wait + Sync),
    plan: &Plan<u8>,
    who: &str,
    gate: &G,
    caches: &mut CacheStore,
) -> Result<String, Memory>
    requires idle { caches.old.holds ≡ [] }
    ensures idle { caches.new.holds ≡ [] }
{
    match who {
        "here" => answer_text(alloc, solve_here(alloc, plan, &Fixture, caches)?),
        "sweep" => swept(alloc, plan, gate),
        _ => {
            let mut memo = Memo::new(alloc, &Fixture);
            let text = solved(
                alloc,
                rt,
                plan,
                &Fixture,
                gate,
                caches,
                workers_of(who),
                &mut memo,
            );
            drop(memo);
            text
        }
    }
}

/// An answer in a line.
fn answer_text(alloc: Global, answer: Answer<u8>) -> Result<String, Memory> {
    match answer {
        Answer::Built(tree, config) => {
            let list = listing(alloc, &tree);
            drop(tree);
            let list = list?;
            Ok(format!(in alloc; "built {config}:{list}")?)
        }
        Answer::Failed { place, cause } => Ok(format!(in alloc; "failed {place}: {cause}")?),
    }
}

/// What a plan comes to on a new board that no worker has.
fn swept<G: Gate>(alloc: Global, plan: &Plan<u8>, gate: &G) -> Result<String, Memory> {
    let job = Job::new(plan, &Fixture);
    let solution = match Board::new(alloc, job, CacheStore::new(alloc)) {
        Ok(mut board) => {
            let solution = finish(alloc, gate, &mut board);
            drop(board);
            solution
        }
        Err(NoBoard { caches }) => {
            drop(caches);
            Err(Memory)
        }
    };
    match solution {
        Ok(solution) => solution_text(alloc, solution),
        Err(memory) => Err(memory),
    }
}
