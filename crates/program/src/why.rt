// Why paths of a bundle's context are kept or left out.
ghost use Rattle.std.specs.Prelude.{IfOk};
ghost use Rattle.program.specs.Why.{TellsWhy};

use crate::fault::TellFault;
use crate::telling::Teller;
use crate::told::{Told, tell_refusal};
use build::Status;
use expand::Rejection;
use imageconfig::Config;
use plain::{Fault, Memory, Text};
use reasons::reasons;
use std::alloc::Global;
use std::hash::RandomState;
use std::thread::Threads;

/// Tells of each of these paths whether it is kept in a bundle's context, and which line of the ignore file decided. Or it tells the bundle's refusal.
///
/// `Built` if the lines were written, `Refused` if the refusal was, and never `Failed`.
#[derive(Drop)]
pub(crate) struct PathTeller<'a> {
    pub(crate) paths: &'a [Text],
}

impl<'a> Teller for PathTeller<'a> {
    ghost use Rattle.program.specs.Telling.{never};
    ghost use Rattle.program.specs.PrivateMoved.{why_moves, never_moves};

    ghost tells = { λ teller. TellsWhy teller.paths.now };

    ghost stops = { λ teller. never };

    ghost moves = { λ teller. why_moves teller.paths.now };

    ghost moves_stops = { λ teller. never_moves };

    fn tell<H: Threads + Sync>(
        &self,
        alloc: Global,
        keys: RandomState,
        rt: &H,
        bundle: &[u8],
    ) -> Result<Told, TellFault> {
        Ok(tell_paths(alloc, keys, rt, bundle, self.paths)?)
    }
}

/// What a bundle's bytes tell of these paths, or their refusal.
fn tell_paths(
    alloc: Global,
    keys: RandomState,
    rt: &(impl Threads + Sync),
    bundle: &[u8],
    paths: &[Text],
) -> Result<Told, Memory>
    ensures { IfOk result (λ told. TellsWhy paths.now bundle.now told.status told.text) }
{
    match reasons::<Config>(alloc, keys, rt, bundle, paths) {
        Ok(text) => Ok(Told {
            status: Status::Built,
            text,
        }),
        Err(Fault::Because(refusal)) => tell_refusal(alloc, Rejection::of(refusal)),
        Err(Fault::Memory) => Err(Memory),
    }
}
