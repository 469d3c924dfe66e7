// A bundle, with what its ignore file leaves out.
ghost use Rattle.std.specs.Prelude.{◌≡◌, map, IfOk};
ghost use Rattle.contexts.specs.Left.{AreLeftOut};
ghost use Rattle.bundle.specs.LeftOut.{LeavesOut};
ghost use Rattle.bundle.specs.PrivateLeftOut.{CompletesFiltered};

use crate::parts::Parts;
use crate::whole::{Bundle, complete, no_bundle, parts_of};
use borrowed::FromLentKeyed;
use contexts::left_out;
use paths::Path;
use plain::{Exact, Fault, Items, Memory, Refusal};
use std::alloc::Global;
use std::hash::RandomState;
use std::thread::Threads;
use strict::ReadFault;
use trees::Entry;

/// The paths of a list of entries.
fn paths_of(alloc: Global, rows: &[(Path, Entry)]) -> Result<Items<Path>, Memory>
    ensures { IfOk result (λ paths. paths ≡ map (λ row. row.0) rows.now) }
{
    let mut paths = Items::new(alloc);
    for row in rows {
        paths.push(row.0.copy(alloc)?)?;
    }
    Ok(paths)
}

/// A bundle whose context has these paths in its list, with those that its ignore file leaves out.
fn with_left_out<C: Drop>(
    alloc: Global,
    bundle: Bundle<C>,
    paths: &[Path],
) -> Result<(Bundle<C>, Items<Path>), Memory>
    ensures { IfOk result (λ read. (read.0 ≡ bundle) × AreLeftOut bundle.context paths.now read.1) }
{
    match left_out(alloc, &bundle.context, paths) {
        Ok(left) => Ok((bundle, left)),
        Err(memory) => {
            drop(bundle);
            Err(memory)
        }
    }
}

/// The bundle of its parts, with what its ignore file leaves out.
fn complete_filtered<C: Drop>(
    alloc: Global,
    rt: &(impl Threads + Sync),
    parts: Parts<C>,
) -> Result<(Bundle<C>, Items<Path>), Fault<Refusal>>
    ensures { CompletesFiltered parts result }
{
    match paths_of(alloc, parts.files.context.rows()) {
        Ok(paths) => match complete(alloc, rt, parts) {
            Ok(bundle) => Ok(with_left_out(alloc, bundle, paths.as_slice())?),
            Err(fault) => Err(fault),
        },
        Err(_) => {
            drop(parts);
            Err(Fault::Memory)
        }
    }
}

/// Reads a bundle as [`read_bundle`](crate::read_bundle) does, and answers with it what its ignore file leaves out: of the paths that its context
/// lists, those that the filtered context hasn't, and of these the shortest, all below which is left out with them.
pub fn read_with_left_out<C: FromLentKeyed>(
    alloc: Global,
    keys: RandomState,
    rt: &(impl Threads + Sync),
    bytes: &[u8],
) -> Result<(Bundle<C>, Items<Path>), Fault<Refusal>>
    ensures { LeavesOut C.reading bytes.now result }
{
    let parts: Result<Parts<C>, ReadFault> = parts_of(alloc, keys, rt, bytes);
    match parts {
        Ok(parts) => complete_filtered(alloc, rt, parts),
        Err(Fault::Because(_)) => Err(Fault::Because(no_bundle())),
        Err(Fault::Memory) => Err(Fault::Memory),
    }
}
