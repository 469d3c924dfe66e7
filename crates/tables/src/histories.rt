// `histories`: a name, ` | `, a plan by hand or a bundle, ` | `, and events: `c0` is a claim by worker 0, `s0` its settle, `a0` its abandon. They are played on a
// new board, by one thread. The answer is the name and what has happened, in order: the event and the vertex, and `!` where a command is claimed.

use crate::by_hand::{plan_of_bundle, plan_read};
use crate::reading::number;
use board::{Event, Happened};
use executor::Fixture;
use llb::{Graph, Op, VertexId};
use plain::Memory;
use plans::Plan;
use replay::follow;
use std::alloc::Global;
use std::hash::RandomState;
use std::thread::Threads;

pub fn answer(
    alloc: Global,
    keys: RandomState,
    rt: &(impl Threads + Sync),
    case: &str,
) -> Result<String, Memory> {
    let (name, rest) = case.split_once(" | ").unwrap_or((case, ""));
    let (plan, events) = rest.rsplit_once(" | ").unwrap_or((rest, ""));
    let events = events_of(alloc, events)?;
    let text = if plan.starts_with("{") {
        of_bundle(alloc, keys, rt, plan, events.as_slice())?
    } else {
        by_hand(alloc, plan, events.as_slice())?
    };
    Ok(format!(in alloc; "{name}:{text}")?)
}

/// The events of a case.
fn events_of(alloc: Global, words: &str) -> Result<Vec<Event>, Memory> {
    let mut events = Vec::new(alloc);
    for word in words.split(' ') {
        events.push(event_of(word)?)?;
    }
    Ok(events)
}

fn event_of(word: &str) -> Result<Event, Memory> {
    let Some((kind, worker)) = word.split_at_checked(1) else {
        return Err(Memory);
    };
    let worker = number(worker)?;
    match kind {
        "c" => Ok(Event::Claim(worker)),
        "s" => Ok(Event::Settle(worker)),
        _ => Ok(Event::Abandon(worker)),
    }
}

fn by_hand(alloc: Global, plan: &str, events: &[Event]) -> Result<String, Memory> {
    let plan = plan_read(alloc, plan)?;
    let text = played(alloc, &plan, events);
    drop(plan);
    text
}

/// The history of the plan of a bundle.
fn of_bundle(
    alloc: Global,
    keys: RandomState,
    rt: &(impl Threads + Sync),
    bundle: &str,
    events: &[Event],
) -> Result<String, Memory> {
    let plan = plan_of_bundle(alloc, keys, rt, bundle)?;
    let text = played(alloc, &plan, events);
    drop(plan);
    text
}

fn played<C>(alloc: Global, plan: &Plan<C>, events: &[Event]) -> Result<String, Memory> {
    let history = follow(alloc, plan, &Fixture, events)?;
    let mut text = String::new(alloc);
    push_history(&mut text, plan.graph(), history.as_slice())?;
    Ok(text)
}

/// Tells what has happened.
pub fn push_history(text: &mut String, graph: &Graph, history: &[Happened]) -> Result<(), Memory> {
    for happened in history {
        match happened {
            Happened::Claimed { worker, vertex } => {
                let mark = if is_command(graph, *vertex) { "!" } else { "" };
                write!(text, " c{worker}:{}{mark}", vertex.number())?;
            }
            Happened::Settled {
                worker,
                vertex,
                given: _,
            } => write!(text, " s{worker}:{}", vertex.number())?,
            Happened::Abandoned { worker, vertex } => {
                write!(text, " a{worker}:{}", vertex.number())?;
            }
        }
    }
    Ok(())
}

/// Whether a vertex is a command.
pub fn is_command(graph: &Graph, vertex: VertexId) -> bool {
    match graph.vertex(vertex) {
        Some(vertex) => matches!(&vertex.op, Op::Exec(_)),
        None => false,
    }
}
