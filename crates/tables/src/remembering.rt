// `remembering`: a name, ` | `, a plan by hand, and after ` | ` each a step with one memo: `solve`, the plan is solved with it by two workers; `forget`, the memo is
// told to forget; or `find` and an operation, which is sought on the empty tree. The answer is the name, and after each step how many entries
// the memo has since it forgot last, and how many from before that, or whether it found one.

use crate::by_hand::plan_read;
use crate::reading::cut;
use crate::telling::begin;
use cachemounts::CacheStore;
use executor::Fixture;
use memo::Memo;
use plain::Memory;
use plans::Plan;
use samples::op_of;
use solver::OpenGate;
use std::alloc::Global;
use std::sync::Wait;
use std::thread::Threads;
use trees::Tree;
use workers::solve;

pub fn answer(
    alloc: Global,
    rt: &(impl Threads + Wait + Sync),
    case: &str,
) -> Result<String, Memory> {
    let (name, rest) = case.split_once(" | ").unwrap_or((case, ""));
    let (plan, steps) = rest.split_once(" | ").unwrap_or((rest, ""));
    let plan = plan_read(alloc, plan)?;
    let executor = Fixture;
    let mut memo = Memo::new(alloc, &executor);
    let mut told = String::new(alloc);
    let done = take_steps(alloc, rt, &mut told, &plan, &mut memo, steps);
    drop(memo);
    drop(plan);
    match done {
        Ok(()) => Ok(format!(in alloc; "{name}: {told}")?),
        Err(memory) => Err(memory),
    }
}

fn take_steps(
    alloc: Global,
    rt: &(impl Threads + Wait + Sync),
    told: &mut String,
    plan: &Plan<u8>,
    memo: &mut Memo<Fixture>,
    steps: &str,
) -> Result<(), Memory> {
    for step in steps.split(" | ") {
        begin(told)?;
        take_step(alloc, rt, told, plan, memo, step)?;
    }
    Ok(())
}

fn take_step(
    alloc: Global,
    rt: &(impl Threads + Wait + Sync),
    told: &mut String,
    plan: &Plan<u8>,
    memo: &mut Memo<Fixture>,
    step: &str,
) -> Result<(), Memory> {
    match cut(step) {
        ("find", op) => {
            let found = if has(alloc, memo, op)? {
                "found"
            } else {
                "none"
            };
            Ok(told.push_str(found)?)
        }
        ("forget", _) => {
            memo.forget(alloc);
            tell_counts(told, memo)
        }
        _ => {
            solve_with(alloc, rt, plan, memo)?;
            tell_counts(told, memo)
        }
    }
}

fn tell_counts(told: &mut String, memo: &Memo<Fixture>) -> Result<(), Memory> {
    let recent = memo.recent_len();
    let earlier = memo.earlier_len();
    Ok(write!(told, "{recent} recent, {earlier} earlier")?)
}

/// Whether a memo has an operation on the empty tree.
fn has(alloc: Global, memo: &Memo<Fixture>, op: &str) -> Result<bool, Memory> {
    let op = op_of(alloc, op)?;
    let inputs = [Tree::empty(alloc)];
    let found = memo.find(&op, &inputs).is_some();
    drop(op);
    drop(inputs);
    Ok(found)
}

/// Solves a plan with a memo.
fn solve_with(
    alloc: Global,
    rt: &(impl Threads + Wait + Sync),
    plan: &Plan<u8>,
    memo: &mut Memo<Fixture>,
) -> Result<(), Memory> {
    let mut caches = CacheStore::new(alloc);
    let answer = solve(alloc, rt, plan, &Fixture, 2, &OpenGate, &mut caches, memo);
    drop(caches);
    match answer {
        Ok(answer) => {
            drop(answer);
            Ok(())
        }
        Err(memory) => Err(memory),
    }
}
