ghost use Rattle.std.specs.Prelude.{◌≡◌, ◌<◌, ◌+◌};
ghost use Rattle.counted.specs.Edges.{LosesBeginning};
ghost use Rattle.plain.specs.Limits.{most_bundle_bytes};
ghost use Rattle.build.specs.Ends.{GraphEnds, devices};

use crate::showing::show_bundle;
use crate::{BuildFault, Status};
use counted::{CountedRead, CountedWrite, read_all, write_all};
use plain::limits::MOST_BUNDLE_BYTES;
use std::alloc::Global;
use std::hash::RandomState;
use std::thread::Threads;

/// Reads a bundle, and writes the graph of what it asks for, as a definition, or its refusal: a line with the LF that ends it.
///
/// `Built` where a graph was written, `Refused` where a refusal was, and never `Failed`: nothing is run, so a graph is written also where a build
/// would fail. It is the drawing of the plan that stands for the file (`drawing::draw`), so it has what the target needs and nothing else, and under
/// every executor its result is worth the target's tree, and has none where the target has none.
///
/// `Clash` only where two different operations of that drawing have one address; nothing was written then. Nothing was written after `Memory`
/// either. After `Device` a read failed, and nothing was written, or a write failed, and a beginning of the line was. What `run_build` says of
/// readers, writers and their counts holds here too. It takes no `Wait`, so unlike `run_build` it returns.
#[tactic(auto, unfolding(plain::specs::Limits::most_bundle_bytes))]
pub fn run_graph<R: CountedRead, W: CountedWrite>(
    alloc: Global,
    keys: RandomState,
    rt: &(impl Threads + Sync),
    input: &mut R,
    output: &mut W,
) -> Result<Status, BuildFault>
    requires reads { R.failures input.old < u64.MAX }
    requires writes { W.failures output.old < u64.MAX }
    ensures ends { GraphEnds
        (devices (R.remaining input.old) (R.failures input.old) (W.contents output.old) (W.failures output.old))
        (devices (R.remaining input.new) (R.failures input.new) (W.contents output.new) (W.failures output.new))
        result }
    ensures taken { LosesBeginning (most_bundle_bytes + 1) (R.remaining input.old) (R.remaining input.new) }
{
    graph_within(alloc, keys, rt, MOST_BUNDLE_BYTES, input, output)
}

/// The same, the limit of bundles being a value and no number that is written out.
fn graph_within<R: CountedRead, W: CountedWrite>(
    alloc: Global,
    keys: RandomState,
    rt: &(impl Threads + Sync),
    most: usize,
    input: &mut R,
    output: &mut W,
) -> Result<Status, BuildFault>
    requires limit { most ≡ most_bundle_bytes }
    requires room { most < usize.MAX }
    requires reads { R.failures input.old < u64.MAX }
    requires writes { W.failures output.old < u64.MAX }
    ensures ends { GraphEnds
        (devices (R.remaining input.old) (R.failures input.old) (W.contents output.old) (W.failures output.old))
        (devices (R.remaining input.new) (R.failures input.new) (W.contents output.new) (W.failures output.new))
        result }
    ensures taken { LosesBeginning (most + 1) (R.remaining input.old) (R.remaining input.new) }
{
    let bytes = read_all(alloc, input, most + 1)?;
    match show_bundle(alloc, keys, rt, bytes.as_slice()) {
        Ok(told) => {
            write_all(output, told.line.as_str().as_bytes())?;
            Ok(told.status)
        }
        Err(fault) => Err(fault),
    }
}
