// Which instruction of a bundle fails, and why.
//
// This is no teller of `telling`: the executor is shared with threads, and in a trait's method no bound of an executor says that it may be.
ghost use Rattle.std.specs.Prelude.{◌≡◌, ◌<◌, ◌≤◌, ◌+◌, IfOk};
ghost use Rattle.counted.specs.Edges.{LosesBeginning};
ghost use Rattle.plain.specs.Limits.{most_bundle_bytes};
ghost use Rattle.build.specs.Ends.{devices};
ghost use Rattle.explains.specs.Explained.{Explains};
ghost use Rattle.program.specs.Explain.{ExplainEnds};
ghost use Rattle.program.specs.Telling.{never};
ghost use Rattle.program.specs.PrivateTelling.{IsToldBy};

use crate::fault::TellFault;
use crate::told::Told;
use build::Status;
use counted::{CountedRead, CountedWrite, read_all, write_all};
use executor::Executor;
use explains::{Explained, explain};
use plain::limits::MOST_BUNDLE_BYTES;
use plain::{Bytes, Memory};
use std::alloc::Global;
use std::hash::RandomState;
use std::sync::Wait;
use std::thread::Threads;

/// How many workers build a bundle that is explained: as many as build one whose words give no number.
const WORKERS: u32 = 4;

/// Reads a bundle, and writes which instruction fails and why, or all faults of a bundle that is refused. Positions call its Dockerfile by the name of
/// `file`.
///
/// The status is that of the bundle's build. Nothing was written after `Memory`. After `Device` a read failed, and nothing was written, or a write
/// failed, and a beginning was.
#[tactic(auto, unfolding(plain::specs::Limits::most_bundle_bytes))]
pub(crate) fn explain_bundle<R: CountedRead, W: CountedWrite, E: Executor>(
    alloc: Global,
    keys: RandomState,
    rt: &(impl Threads + Wait + Sync),
    file: &str,
    input: &mut R,
    output: &mut W,
    executor: &E,
) -> Result<Status, TellFault>
    requires reads { R.failures input.old < u64.MAX }
    requires writes { W.failures output.old < u64.MAX }
    ensures ends { ExplainEnds file.now (E.out executor.now)
        (devices (R.remaining input.old) (R.failures input.old) (W.contents output.old) (W.failures output.old))
        (devices (R.remaining input.new) (R.failures input.new) (W.contents output.new) (W.failures output.new))
        result }
    ensures taken { LosesBeginning (most_bundle_bytes + 1) (R.remaining input.old) (R.remaining input.new) }
{
    explain_within(
        alloc,
        keys,
        rt,
        file,
        MOST_BUNDLE_BYTES,
        input,
        output,
        executor,
    )
}

/// The same, the limit of bundles being a value and no number that is written out.
fn explain_within<R: CountedRead, W: CountedWrite, E: Executor>(
    alloc: Global,
    keys: RandomState,
    rt: &(impl Threads + Wait + Sync),
    file: &str,
    most: usize,
    input: &mut R,
    output: &mut W,
    executor: &E,
) -> Result<Status, TellFault>
    requires limit { most ≡ most_bundle_bytes }
    requires room { most < usize.MAX }
    requires reads { R.failures input.old < u64.MAX }
    requires writes { W.failures output.old < u64.MAX }
    ensures ends { ExplainEnds file.now (E.out executor.now)
        (devices (R.remaining input.old) (R.failures input.old) (W.contents output.old) (W.failures output.old))
        (devices (R.remaining input.new) (R.failures input.new) (W.contents output.new) (W.failures output.new))
        result }
    ensures taken { LosesBeginning (most + 1) (R.remaining input.old) (R.remaining input.new) }
{
    let bytes = read_all(alloc, input, most + 1)?;
    match tell_build(alloc, keys, rt, file, bytes.as_slice(), executor) {
        Ok(told) => {
            write_all(output, told.text.as_slice())?;
            Ok(told.status)
        }
        Err(fault) => Err(fault),
    }
}

/// What is due of a bundle's bytes. It is never that nothing is.
fn tell_build<E: Executor>(
    alloc: Global,
    keys: RandomState,
    rt: &(impl Threads + Wait + Sync),
    file: &str,
    bundle: &[u8],
    executor: &E,
) -> Result<Told, TellFault>
    ensures { IsToldBy (Explains file.now (E.out executor.now)) never bundle.now result }
{
    Ok(tell_explained(alloc, keys, rt, file, bundle, executor)?)
}

/// What is told of the build of a bundle's bytes.
fn tell_explained<E: Executor>(
    alloc: Global,
    keys: RandomState,
    rt: &(impl Threads + Wait + Sync),
    file: &str,
    bundle: &[u8],
    executor: &E,
) -> Result<Told, Memory>
    ensures { IfOk result (λ told. Explains file.now (E.out executor.now) bundle.now told.status told.text) }
{
    let Explained { status, text } = explain(alloc, keys, rt, file, bundle, executor, WORKERS)?;
    Ok(Told {
        status,
        text: Bytes::from_vec(text.into_string(alloc)?.into_bytes()),
    })
}
