// `memos`: a name, ` | `, and bundles with ` ⏎ ` between each and the next. They are built in this order with one memo, as a program does that goes on
// from build to build: an example for whoever embeds the builder (`docs/EMBEDDING.md`). The answer is the name, and on a line of its own for each
// bundle how many commands were run since the first build began, `: `, and the answer of `dfsolve build`.
//
// What an earlier build of the case ran isn't run again. So the numbers show that a build asks the memo, which no contract says.

use build::run_build;
use counted::Counted;
use executor::{Executor, Fixture, Outcome, Request};
use memo::Memo;
use plain::Memory;
use solver::OpenGate;
use std::alloc::Global;
use std::hash::RandomState;
use std::io::Cursor;
use std::sync::Wait;
use std::sync::atomic::{AtomicU64, Ordering};
use std::thread::Threads;
use trees::Tree;

/// How many workers solve a build.
const WORKERS: u32 = 4;

/// How many entries a memo has, at most, when a build begins.
const MOST_ENTRIES: usize = 10_000;

/// Runs commands as the fixture does, and counts them.
#[derive(Drop)]
struct Counting {
    runs: AtomicU64,
}

impl Counting {
    /// No command has been run.
    fn new() -> Counting {
        Counting {
            runs: AtomicU64::new(0),
        }
    }

    /// How many commands were run.
    fn count(&self) -> u64 {
        self.runs.load(Ordering::SeqCst)
    }
}

impl Executor for Counting {
    ghost use Rattle.executor.specs.Fixture.{fixture_out};
    ghost use Rattle.executor.specs.PrivateFixtureExits.{fixture_out-exits};

    ghost out = { λ _ request. fixture_out request };

    ghost exits = { λ _ request status e. fixture_out-exits request status e };

    fn run(
        &self,
        alloc: Global,
        request: &Request,
        caches: &mut Vec<Tree>,
    ) -> Result<Outcome, Memory> {
        self.runs.fetch_add(1, Ordering::SeqCst);
        Fixture.run(alloc, request, caches)
    }
}

pub fn answer(
    alloc: Global,
    keys: RandomState,
    rt: &(impl Threads + Wait + Sync),
    case: &str,
) -> Result<String, Memory> {
    let (name, bundles) = case.split_once(" | ").unwrap_or((case, ""));
    let mut told = String::from_str(alloc, name)?;
    let executor = Counting::new();
    let mut memo = Memo::new(alloc, &executor);
    let done = tell_builds(alloc, keys, rt, &mut told, bundles, &mut memo);
    drop(memo);
    match done {
        Ok(()) => Ok(told),
        Err(memory) => Err(memory),
    }
}

/// Tells of each bundle, on a line of its own.
fn tell_builds(
    alloc: Global,
    keys: RandomState,
    rt: &(impl Threads + Wait + Sync),
    told: &mut String,
    bundles: &str,
    memo: &mut Memo<Counting>,
) -> Result<(), Memory> {
    for bundle in bundles.split(" ⏎ ") {
        told.push('\n')?;
        match built(alloc, keys, rt, bundle, memo) {
            Ok(line) => told.push_str(line.as_str())?,
            Err(Memory) => told.push_str("out of memory")?,
        }
    }
    Ok(())
}

/// How many commands were run by now, and the answer to a bundle.
fn built(
    alloc: Global,
    keys: RandomState,
    rt: &(impl Threads + Wait + Sync),
    bundle: &str,
    memo: &mut Memo<Counting>,
) -> Result<String, Memory> {
    // What was added before the last such call goes, so the memo doesn't grow for ever.
    if memo.recent_len() > MOST_ENTRIES {
        memo.forget(alloc);
    }
    let executor = memo.executor();
    let mut input = Counted::new(Cursor::new(bundle.as_bytes()));
    let mut output = Counted::new(Vec::<u8>::new(alloc));
    let ended = run_build(
        alloc,
        keys,
        rt,
        &mut input,
        &mut output,
        executor,
        WORKERS,
        &OpenGate,
        memo,
    );
    if ended.is_err() {
        return Err(Memory);
    }
    let written = output.into_inner();
    let text = String::from_utf8_lossy(alloc, written.as_slice())?;
    let line = text.as_str().strip_suffix("\n").unwrap_or(text.as_str());
    let count = executor.count();
    Ok(format!(in alloc; "{count}: {line}")?)
}
