// What is told of a bundle that is only read: from the bytes of the bundle to the bytes that are written.
ghost use Rattle.std.specs.Prelude.{◌≡◌, ◌<◌, ◌+◌};
ghost use Rattle.counted.specs.Edges.{LosesBeginning};
ghost use Rattle.plain.specs.Limits.{most_bundle_bytes};
ghost use Rattle.build.specs.Ends.{devices};
ghost use Rattle.program.specs.Telling.{TellingEnds};

use crate::fault::TellFault;
use crate::told::Told;
use build::Status;
use counted::{CountedRead, CountedWrite, read_all, write_all};
use plain::limits::MOST_BUNDLE_BYTES;
use std::alloc::Global;
use std::hash::RandomState;
use std::thread::Threads;

/// What knows one thing to tell of a bundle, such as its faults.
pub(crate) trait Teller {
    ghost use Rattle.std.specs.Thread.{IsSync};
    ghost use Rattle.build.specs.Ends.{Answering};
    ghost use Rattle.program.specs.Telling.{Stops};
    ghost use Rattle.program.specs.PrivateTelling.{IsToldBy, Moves, MovesStops};

    // What is due of a bundle: a status, and the text that is written.
    ghost tells: { Self → Answering };

    // Of which bundles nothing is due, and with which fault that ends.
    ghost stops: { Self → Stops };

    /// What is due of a bundle's bytes. `Memory` says only that a growth was refused, and `Device` is never answered. Threads may share the handle,
    /// which the bound alone doesn't say in a trait.
    fn tell<H: Threads + Sync>(
        &self,
        alloc: Global,
        keys: RandomState,
        rt: &H,
        bundle: &[u8],
    ) -> Result<Told, TellFault>
        requires { IsSync H.row }
        ensures { IsToldBy (tells self.now) (stops self.now) bundle.now result };

    // It depends on what a bundle holds, so on no byte past the limit of bundles.
    ghost moves: { (teller : Self) → Moves (tells teller) };

    ghost moves_stops: { (teller : Self) → MovesStops (stops teller) };
}

/// Reads a bundle, and writes what a teller tells of it.
///
/// The status is the teller's. Nothing was written after `Memory`. After `Device` a read failed, and nothing was written, or a write failed, and a
/// beginning was. After `Clash` and `Unspeakable`, with which a teller says that nothing is due, nothing was written.
#[tactic(auto, unfolding(plain::specs::Limits::most_bundle_bytes))]
pub(crate) fn tell_bundle<T: Teller, R: CountedRead, W: CountedWrite>(
    alloc: Global,
    keys: RandomState,
    rt: &(impl Threads + Sync),
    teller: &T,
    input: &mut R,
    output: &mut W,
) -> Result<Status, TellFault>
    requires reads { R.failures input.old < u64.MAX }
    requires writes { W.failures output.old < u64.MAX }
    ensures ends { TellingEnds (T.tells teller.now) (T.stops teller.now)
        (devices (R.remaining input.old) (R.failures input.old) (W.contents output.old) (W.failures output.old))
        (devices (R.remaining input.new) (R.failures input.new) (W.contents output.new) (W.failures output.new))
        result }
    ensures taken { LosesBeginning (most_bundle_bytes + 1) (R.remaining input.old) (R.remaining input.new) }
{
    tell_within(alloc, keys, rt, MOST_BUNDLE_BYTES, teller, input, output)
}

/// The same, the limit of bundles being a value and no number that is written out.
fn tell_within<T: Teller, R: CountedRead, W: CountedWrite>(
    alloc: Global,
    keys: RandomState,
    rt: &(impl Threads + Sync),
    most: usize,
    teller: &T,
    input: &mut R,
    output: &mut W,
) -> Result<Status, TellFault>
    requires limit { most ≡ most_bundle_bytes }
    requires room { most < usize.MAX }
    requires reads { R.failures input.old < u64.MAX }
    requires writes { W.failures output.old < u64.MAX }
    ensures ends { TellingEnds (T.tells teller.now) (T.stops teller.now)
        (devices (R.remaining input.old) (R.failures input.old) (W.contents output.old) (W.failures output.old))
        (devices (R.remaining input.new) (R.failures input.new) (W.contents output.new) (W.failures output.new))
        result }
    ensures taken { LosesBeginning (most + 1) (R.remaining input.old) (R.remaining input.new) }
{
    let bytes = read_all(alloc, input, most + 1)?;
    match teller.tell(alloc, keys, rt, bytes.as_slice()) {
        Ok(told) => {
            write_all(output, told.text.as_slice())?;
            Ok(told.status)
        }
        Err(fault) => Err(fault),
    }
}
