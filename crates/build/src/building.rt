ghost use Rattle.std.specs.Prelude.{◌≡◌, ◌<◌, ◌≤◌, ◌+◌};
ghost use Rattle.counted.specs.Edges.{LosesBeginning};
ghost use Rattle.plain.specs.Limits.{most_bundle_bytes, most_workers};
ghost use Rattle.memo.specs.Memo.{Grows};
ghost use Rattle.build.specs.Ends.{Ends, devices};

use crate::remains::Remains;
use crate::telling::tell_bundle;
use crate::{BuildFault, Status};
use counted::{CountedRead, CountedWrite, read_all};
use executor::Executor;
use memo::Memo;
use plain::limits::MOST_BUNDLE_BYTES;
use solver::Gate;
use std::alloc::Global;
use std::hash::RandomState;
use std::sync::Wait;
use std::thread::Threads;

/// Reads a bundle, builds it and writes one answer: a line of JSON with the LF that ends it.
///
/// Nothing was written after `Memory`. After `Device` a read failed, and nothing was written, or a write failed, and a beginning of an answer was
/// written. A call that failed isn't tried again. No more than one byte past the limit of bundles is read. The context is filtered in several
/// threads, the graph is solved by this many workers, 1 to 64, each in a thread of its own, and all else is done in the caller's. The gate is asked
/// around the run of each command. Nothing of what is said below knows a worker: whatever number there is, and in whatever order they come, the answer
/// is the one that running the target's stages instruction by instruction gives, up to the first that fails. Nothing says that it returns, since
/// it may wait.
///
/// What a memo of the executor has of earlier builds isn't run again, and it gets what this build gives, as `workers::solve` says. The answer doesn't know of
/// it. If a write fails, or there is no memory for the text of the answer, the memo has it nevertheless.
///
/// All this is said where the reader and the writer tell their bytes, as those in memory do (`Cursor`, `Vec<u8>`). Of standard
/// input and output the standard library says how many bytes a call takes at most, and not which bytes those are; there the
/// counts of failed calls are what is said. One body serves all: it doesn't know what it reads from or writes to.
///
/// The counts of failed calls are machine numbers, so a caller has to know that there is room for one more in each.
pub fn run_build<R: CountedRead, W: CountedWrite, E: Executor, G: Gate>(
    alloc: Global,
    keys: RandomState,
    rt: &(impl Threads + Wait + Sync),
    input: &mut R,
    output: &mut W,
    executor: &E,
    workers: u32,
    gate: &G,
    memo: &mut Memo<E>,
) -> Result<Status, BuildFault>
    requires executor { E.out memo.old.executor ≡ E.out executor.now }
    requires workers { (0 < workers) × (workers ≤ most_workers) }
    requires reads { R.failures input.old < u64.MAX }
    requires writes { W.failures output.old < u64.MAX }
    ensures ends { Ends (E.out executor.now)
        (devices (R.remaining input.old) (R.failures input.old) (W.contents output.old) (W.failures output.old))
        (devices (R.remaining input.new) (R.failures input.new) (W.contents output.new) (W.failures output.new))
        result }
    ensures taken { LosesBeginning (most_bundle_bytes + 1) (R.remaining input.old) (R.remaining input.new) }
    ensures memo { Grows memo.old memo.new }
{
    let mut remains = Remains::none(alloc);
    let ended = run_build_keeping(
        alloc,
        keys,
        rt,
        input,
        output,
        executor,
        workers,
        gate,
        memo,
        &mut remains,
    );
    drop(remains);
    ended
}

/// Does what [`run_build`] does, and keeps what it holds at its end, so that the caller may choose when to let that go. Nothing else is said of what is
/// kept.
#[tactic(auto, unfolding(plain::specs::Limits::most_bundle_bytes))]
pub fn run_build_keeping<R: CountedRead, W: CountedWrite, E: Executor, G: Gate>(
    alloc: Global,
    keys: RandomState,
    rt: &(impl Threads + Wait + Sync),
    input: &mut R,
    output: &mut W,
    executor: &E,
    workers: u32,
    gate: &G,
    memo: &mut Memo<E>,
    remains: &mut Remains,
) -> Result<Status, BuildFault>
    requires executor { E.out memo.old.executor ≡ E.out executor.now }
    requires workers { (0 < workers) × (workers ≤ most_workers) }
    requires reads { R.failures input.old < u64.MAX }
    requires writes { W.failures output.old < u64.MAX }
    ensures ends { Ends (E.out executor.now)
        (devices (R.remaining input.old) (R.failures input.old) (W.contents output.old) (W.failures output.old))
        (devices (R.remaining input.new) (R.failures input.new) (W.contents output.new) (W.failures output.new))
        result }
    ensures taken { LosesBeginning (most_bundle_bytes + 1) (R.remaining input.old) (R.remaining input.new) }
    ensures memo { Grows memo.old memo.new }
{
    build_within(
        alloc,
        keys,
        rt,
        MOST_BUNDLE_BYTES,
        input,
        output,
        executor,
        workers,
        gate,
        memo,
        remains,
    )
}

/// The same, the limit of bundles being a value and no number that is written out.
fn build_within<R: CountedRead, W: CountedWrite, E: Executor, G: Gate>(
    alloc: Global,
    keys: RandomState,
    rt: &(impl Threads + Wait + Sync),
    most: usize,
    input: &mut R,
    output: &mut W,
    executor: &E,
    workers: u32,
    gate: &G,
    memo: &mut Memo<E>,
    remains: &mut Remains,
) -> Result<Status, BuildFault>
    requires executor { E.out memo.old.executor ≡ E.out executor.now }
    requires workers { (0 < workers) × (workers ≤ most_workers) }
    requires limit { most ≡ most_bundle_bytes }
    requires room { most < usize.MAX }
    requires reads { R.failures input.old < u64.MAX }
    requires writes { W.failures output.old < u64.MAX }
    ensures ends { Ends (E.out executor.now)
        (devices (R.remaining input.old) (R.failures input.old) (W.contents output.old) (W.failures output.old))
        (devices (R.remaining input.new) (R.failures input.new) (W.contents output.new) (W.failures output.new))
        result }
    ensures taken { LosesBeginning (most + 1) (R.remaining input.old) (R.remaining input.new) }
    ensures memo { Grows memo.old memo.new }
{
    let bytes = read_all(alloc, input, most + 1)?;
    tell_bundle(
        alloc, keys, rt, bytes, output, executor, workers, gate, memo, remains,
    )
}
