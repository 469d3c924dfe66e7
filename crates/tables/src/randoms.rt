// `randoms`: a name, ` | `, and seeds, `FIRST to LAST`. Each makes a plan, which is solved with 1, 2, 4, 16 and 64 workers. The answer is the name and
// `alike`, or the seed of the first plan with which the rules disagree, and what it came to.

ghost use Rattle.std.specs.Prelude.{◌<◌, ◌≤◌};

use crate::reading::number;
use crate::stores::solved;
use cachemounts::CacheStore;
use executor::Fixture;
use llb::Graph;
use memo::Memo;
use plain::Memory;
use plans::Plan;
use samples::{add_row, plan_of};
use solver::OpenGate;
use std::alloc::Global;
use std::sync::Wait;
use std::thread::Threads;
use trees::Tree;

/// How many vertices each has at most.
const VERTICES: u32 = 14;

/// What a vertex may be, and on how many others it works. No operation fails but the one that says so.
const OPS: [(&str, usize); 12] = [
    ("scratch", 0),
    ("context", 0),
    ("run put /a 1", 1),
    ("run put /d/b 2", 1),
    ("run bump /a", 1),
    ("run bump /d/c", 1),
    ("run true", 1),
    ("locked bump /c/n", 1),
    (FAILING, 1),
    ("dirs /d/e", 1),
    ("copy / /x/", 2),
    ("merge", 2),
];

/// The operation that fails.
const FAILING: &str = "run fail 3";

/// Numbers of workers to compare.
const WORKERS: [u32; 5] = [1, 2, 4, 16, 64];

/// What is known of a plan's vertices before any solver has seen them, by the rules alone.
#[derive(Drop)]
struct Known {
    /// Of each vertex whether its value is a tree: it doesn't fail, and its inputs have trees.
    treed: Vec<bool>,
    /// The lines of those that fail, though their inputs have trees.
    failing: Vec<u32>,
    /// Whether the last one fails so. It is the target.
    last_fails: bool,
}

impl Known {
    /// How many vertices there are.
    fn count(&self) -> u32 {
        u32::try_from(self.treed.len()).unwrap_or(0)
    }

    /// Whether these vertices have trees.
    fn have_trees(&self, vertices: &[u32]) -> bool {
        for vertex in vertices {
            if self.treed.get(*vertex as usize) != Some(&true) {
                return false;
            }
        }
        true
    }

    /// Takes note of the next vertex, from a line: whether its inputs have trees, and whether it fails itself.
    fn add(&mut self, line: u32, has_trees: bool, fails: bool) -> Result<(), Memory> {
        self.last_fails = has_trees && fails;
        if self.last_fails {
            self.failing.push(line)?;
        }
        Ok(self.treed.push(has_trees && !fails)?)
    }

    /// Whether an answer, as `solved` writes it, is one that the rules allow: a tree where the target has one, or the failure of the least line.
    /// A target that fails itself may be settled before another vertex is run that it doesn't need, so any failure may be named then.
    fn allows(&self, answer: &str) -> bool {
        match answer.strip_prefix("failed ") {
            Some(failure) => self.has_failure(failure),
            None => self.treed.last() == Some(&true),
        }
    }

    fn has_failure(&self, failure: &str) -> bool {
        let line = failure.strip_suffix(": exit 3").unwrap_or("");
        match line.parse::<u32>() {
            Ok(line) if self.last_fails => self.failing.contains(&line),
            Ok(line) => self.failing.first() == Some(&line),
            Err(_) => false,
        }
    }
}

/// Numbers that look random: a linear congruential generator.
#[derive(Drop)]
struct Dice(u64);

impl Dice {
    /// A number below a bound.
    fn below(&mut self, bound: u32) -> u32 {
        self.0 = self
            .0
            .wrapping_mul(6_364_136_223_846_793_005)
            .wrapping_add(1_442_695_040_888_963_407);
        let number = u32::try_from(self.0 >> 33).unwrap_or(0);
        number.checked_rem(bound).unwrap_or(0)
    }

    /// What a vertex is, and on how many others it works.
    fn op(&mut self) -> (&'static str, usize) {
        *OPS.get(self.below(12) as usize).unwrap_or(&OPS[0])
    }
}

/// Adds a vertex to a graph, the empty tree where it is the first one, and what is known of it.
fn add_vertex(
    alloc: Global,
    dice: &mut Dice,
    graph: &mut Graph,
    known: &mut Known,
    line: u32,
) -> Result<(), Memory> {
    let count = known.count();
    let (text, inputs) = if count == 0 { OPS[0] } else { dice.op() };
    let pair = [dice.below(count), dice.below(count)];
    let Some(ids) = pair.get(..inputs) else {
        return Ok(());
    };
    let has_trees = known.have_trees(ids);
    // A vertex that was there before is known already, under a lower line.
    if add_row(alloc, graph, &(text, ids, line))? == Some(count) {
        known.add(line, has_trees, text == FAILING)?;
    }
    Ok(())
}

/// The graph of a seed, and what is known of it.
fn make_graph(alloc: Global, seed: u64, known: &mut Known) -> Result<Graph, Memory> {
    let mut graph = Graph::new(alloc);
    match add_vertices(alloc, seed, &mut graph, known) {
        Ok(()) => Ok(graph),
        Err(memory) => {
            drop(graph);
            Err(memory)
        }
    }
}

fn add_vertices(
    alloc: Global,
    seed: u64,
    graph: &mut Graph,
    known: &mut Known,
) -> Result<(), Memory> {
    let mut dice = Dice(seed);
    for line in 1..=VERTICES {
        add_vertex(alloc, &mut dice, graph, known, line)?;
    }
    Ok(())
}

/// The plan of a seed, whose target is its last vertex, and what is known of it. (It has a target, so it is for want of memory alone that
/// there is none.)
fn make_plan(alloc: Global, seed: u64, known: &mut Known) -> Result<Plan<u8>, Memory> {
    match make_graph(alloc, seed, known) {
        Ok(graph) => {
            let target = known.count().saturating_sub(1);
            match plan_of(alloc, graph, target, Tree::empty(alloc)) {
                Some(plan) => Ok(plan),
                None => Err(Memory),
            }
        }
        Err(memory) => Err(memory),
    }
}

/// How many plans have the answer that the rules allow, or the answers to the first one that hasn't.
pub fn answer(
    alloc: Global,
    rt: &(impl Threads + Wait + Sync),
    case: &str,
) -> Result<String, Memory> {
    let (name, seeds) = case.split_once(" | ").unwrap_or((case, ""));
    let (first, last) = seeds.split_once(" to ").unwrap_or((seeds, ""));
    let (first, last) = (number(first)?, number(last)?);
    for seed in first..=last {
        if let Some(answers) = differing(alloc, rt, u64::from(seed))? {
            return Ok(format!(in alloc; "{name}: seed {seed}{answers}")?);
        }
    }
    Ok(format!(in alloc; "{name}: alike")?)
}

/// The answers to the plan of a seed, if the rules don't allow one of them, or two differ that are built.
fn differing(
    alloc: Global,
    rt: &(impl Threads + Wait + Sync),
    seed: u64,
) -> Result<Option<String>, Memory> {
    let mut known = Known {
        treed: Vec::new(alloc),
        failing: Vec::new(alloc),
        last_fails: false,
    };
    let compared = match make_plan(alloc, seed, &mut known) {
        Ok(plan) => {
            let compared = compare(alloc, rt, &plan, &known);
            drop(plan);
            compared
        }
        Err(memory) => Err(memory),
    };
    drop(known);
    compared
}

/// The same of a plan of which this is known.
fn compare(
    alloc: Global,
    rt: &(impl Threads + Wait + Sync),
    plan: &Plan<u8>,
    known: &Known,
) -> Result<Option<String>, Memory> {
    let mut answers = String::new(alloc);
    let mut alike = true;
    let mut built = String::new(alloc);
    for workers in WORKERS {
        let text = solved_anew(alloc, rt, plan, workers)?;
        write!(answers, "; {workers}: {text}")?;
        alike = alike && known.allows(text.as_str());
        if text.as_str().starts_with("built") {
            alike = alike && (built.is_empty() || built.as_str() == text.as_str());
            built = text;
        }
    }
    Ok(if alike { None } else { Some(answers) })
}

/// What a plan comes to over an empty store of caches.
fn solved_anew(
    alloc: Global,
    rt: &(impl Threads + Wait + Sync),
    plan: &Plan<u8>,
    workers: u32,
) -> Result<String, Memory>
    requires { (0 < workers) × (workers ≤ 64) }
{
    let mut caches = CacheStore::new(alloc);
    let mut memo = Memo::new(alloc, &Fixture);
    let text = solved(
        alloc,
        rt,
        plan,
        &Fixture,
        &OpenGate,
        &mut caches,
        workers,
        &mut memo,
    );
    drop(memo);
    drop(caches);
    text
}
