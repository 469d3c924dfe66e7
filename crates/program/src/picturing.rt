// A bundle's graph as Graphviz reads it.
ghost use Rattle.std.specs.Prelude.{◌≡◌, IfOk};
ghost use Rattle.build.specs.Lowerable.{IsLowerable};
ghost use Rattle.answering.specs.declared.status.Status.TheVariants.{Built};
ghost use Rattle.dot.specs.Drawn.{drawing};
ghost use Rattle.program.specs.Dot.{IsPictureOf, TellsDot};

use crate::exporting::drawn_plan;
use crate::fault::TellFault;
use crate::telling::Teller;
use crate::told::{Told, tell_refusal};
use build::{Asked, Status, Titled, ask_titled};
use dot::write;
use evaluation::Evaluated;
use imageconfig::Config;
use plain::{Bytes, Fault, Memory, Text};
use plans::Plan;
use std::alloc::Global;
use std::hash::RandomState;
use std::thread::Threads;

/// Tells a bundle's graph in the DOT language, or the bundle's refusal.
///
/// The graph is the one that `graph` prints, and each of its steps has the title of its instruction. `Built` if it was written, also if a
/// build would fail, `Refused` if the refusal was, and never `Failed`.
pub(crate) struct PictureTeller;

impl Teller for PictureTeller {
    ghost use Rattle.program.specs.Telling.{never};
    ghost use Rattle.program.specs.PrivateMoved.{dot_moves, never_moves};

    ghost tells = { λ teller. TellsDot };

    ghost stops = { λ teller. never };

    ghost moves = { λ teller. dot_moves };

    ghost moves_stops = { λ teller. never_moves };

    fn tell<H: Threads + Sync>(
        &self,
        alloc: Global,
        keys: RandomState,
        rt: &H,
        bundle: &[u8],
    ) -> Result<Told, TellFault> {
        Ok(tell_dot(alloc, keys, rt, bundle)?)
    }
}

/// The graph of what a bundle's bytes ask for in the DOT language, or their refusal.
fn tell_dot(
    alloc: Global,
    keys: RandomState,
    rt: &(impl Threads + Sync),
    bundle: &[u8],
) -> Result<Told, Memory>
    ensures { IfOk result (λ told. TellsDot bundle.now told.status told.text) }
{
    match ask_titled(alloc, keys, rt, bundle) {
        Ok(titled) => {
            let Titled {
                asked,
                titles,
                left_out: _,
                digests: _,
            } = titled;
            let Asked {
                evaluated,
                caches: _,
            } = asked;
            tell_picture(alloc, evaluated, titles.as_slice())
        }
        Err(Fault::Because(refusal)) => tell_refusal(alloc, refusal),
        Err(Fault::Memory) => Err(Memory),
    }
}

/// The graph of a file's needed stages, whose lines have these titles.
fn tell_picture(
    alloc: Global,
    evaluated: Evaluated,
    titles: &[Option<Text>],
) -> Result<Told, Memory>
    requires { IsLowerable evaluated }
    ensures status { IfOk result (λ told. told.status ≡ Built) }
    ensures text { IfOk result (λ told. IsPictureOf evaluated titles.now told.text) }
{
    let plan = drawn_plan(alloc, evaluated)?;
    let told = tell_plan(alloc, &plan, titles);
    drop(plan);
    match told {
        Ok(text) => Ok(Told {
            status: Status::Built,
            text,
        }),
        Err(memory) => Err(memory),
    }
}

/// A plan, whose lines have these titles, in the DOT language.
fn tell_plan(alloc: Global, plan: &Plan<Config>, titles: &[Option<Text>]) -> Result<Bytes, Memory>
    ensures { IfOk result (λ text. text ≡ drawing titles.now plan.now.graph plan.now.target) }
{
    let text = write(alloc, plan, titles)?;
    Ok(Bytes::from_vec(text.into_string(alloc)?.into_bytes()))
}
