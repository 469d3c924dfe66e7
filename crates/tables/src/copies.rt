// `copies`: a name, ` | `, and a bundle. Each vertex of its plan is copied, the plan's configuration, and the tree of the answer to the plan, which has the
// plan's configuration too. The answer is the name, how many vertices the plan has, and what isn't equal to its copy.
//
// Then comes whether the graph that the program writes of the bundle is that of `FROM scratch` and `RUN put /a hi`, put together here with addresses that
// are computed here, the SHA-256 of each operation's text without its lines.

use crate::by_hand::plan_of_bundle;
use crate::devices::{Devices, run};
use cachemounts::CacheStore;
use executor::Fixture;
use imageconfig::Config;
use plain::{Exact, Memory};
use plans::Plan;
use sha2::{Digest, Sha256};
use solver::{Answer, solve_here};
use std::alloc::Global;
use std::hash::RandomState;
use std::rt::Files;
use std::sync::Wait;
use std::thread::Threads;

/// The text of the operation that gives the empty tree.
const SCRATCH: &str = r#"{"inputs":[],"op":"source","source":"scratch"}"#;

pub fn answer<F: Files + AllocGlobal + Clone + Drop>(
    alloc: Global,
    keys: RandomState,
    rt: &(impl Threads + Wait + Sync),
    files: &F,
    case: &str,
) -> Result<String, Memory> {
    let (name, bundle) = case.split_once(" | ").unwrap_or((case, ""));
    let plan = plan_of_bundle(alloc, keys, rt, bundle)?;
    let text = copied(alloc, &plan);
    drop(plan);
    let text = text?;
    let devices = Devices::whole(usize::MAX);
    let ended = run(
        alloc,
        keys,
        rt,
        files,
        "dfsolve graph",
        bundle.as_bytes(),
        devices,
    );
    let graph = graph_by_hand(alloc);
    let is_same = match &graph {
        Ok(graph) => ended.output.as_slice() == graph.as_bytes(),
        Err(_) => false,
    };
    drop(ended);
    drop(graph?);
    let told = if is_same { "as by hand" } else { "another one" };
    Ok(format!(in alloc; "{name}: {text}; its graph is {told}")?)
}

/// What isn't equal to its copy.
fn copied(alloc: Global, plan: &Plan<Config>) -> Result<String, Memory> {
    let vertices = plan.graph().vertices();
    let mut text = format!(in alloc; "{} vertices", vertices.len())?;
    for vertex in vertices {
        let is_same = is_copied(alloc, vertex)?;
        push_unless(&mut text, is_same, ", a vertex differs")?;
    }
    let is_same = is_copied(alloc, plan.config())?;
    push_unless(&mut text, is_same, ", the configuration differs")?;
    let is_same = is_answer_copied(alloc, plan)?;
    push_unless(&mut text, is_same, ", the answer differs")?;
    Ok(text)
}

/// Whether a value is equal to its copy.
fn is_copied<T: Exact + Drop>(alloc: Global, value: &T) -> Result<bool, Memory> {
    let copy = value.copy(alloc)?;
    let is_same = copy.same(value);
    drop(copy);
    Ok(is_same)
}

fn push_unless(text: &mut String, is_same: bool, what: &str) -> Result<(), Memory> {
    if !is_same {
        text.push_str(what)?;
    }
    Ok(())
}

/// Whether a plan comes to a tree that is equal to its copy, with the plan's configuration.
fn is_answer_copied(alloc: Global, plan: &Plan<Config>) -> Result<bool, Memory> {
    let mut caches = CacheStore::new(alloc);
    let answer = solve_here(alloc, plan, &Fixture, &mut caches);
    drop(caches);
    match answer? {
        Answer::Built(tree, config) => {
            let is_same = config.same(plan.config());
            drop(config);
            let is_copied = is_copied(alloc, &tree);
            drop(tree);
            Ok(is_copied? && is_same)
        }
        Answer::Failed { .. } => Ok(false),
    }
}

/// The graph of `FROM scratch` and `RUN put /a hi`.
fn graph_by_hand(alloc: Global) -> Result<String, Memory> {
    let scratch = address(alloc, SCRATCH)?;
    let before = format!(in alloc;
        "{{\"binds\":[],\"caches\":[],\"dir\":\"/\",\"env\":[],\"inputs\":[\"{scratch}\"],\"op\":\"exec\""
    )?;
    let after = "\"user\":\"\",\"words\":[\"/bin/sh\",\"-c\",\"put /a hi\"]}";
    let text = format!(in alloc; "{before},{after}")?;
    let run = address(alloc, text.as_str())?;
    let first = "{\"ops\":[{\"inputs\":[],\"op\":\"source\",\"places\":[1],\"source\":\"scratch\"}";
    Ok(format!(in alloc;
        "{first},{before},\"places\":[2],{after},{{\"inputs\":[\"{run}\"],\"op\":\"end\"}}],\"version\":2}}\n"
    )?)
}

fn address(alloc: Global, text: &str) -> Result<String, Memory> {
    let digest = Sha256::digest(text.as_bytes());
    let digits = hex::encode(alloc, digest.as_slice())?;
    Ok(format!(in alloc; "sha256:{digits}")?)
}
