ghost use Rattle.build.specs.Lowerable.{IsLowerable};
ghost use Rattle.build.specs.PrivateShowing.{IsFileShown, IsShown};

use crate::asking::{Asked, ask};
use crate::{BuildFault, Status};
use answering::{Told, line_of};
use bundle::refused_answer;
use drawing::{Clash, draw};
use evaluation::Evaluated;
use lowering::lower_program;
use plain::Fault;
use std::alloc::Global;
use std::hash::RandomState;
use std::thread::Threads;

/// What is shown of a bundle's bytes: the graph of what they ask for, or their refusal.
pub(crate) fn show_bundle(
    alloc: Global,
    keys: RandomState,
    rt: &(impl Threads + Sync),
    bytes: &[u8],
) -> Result<Told, BuildFault>
    ensures { IsShown bytes.now result }
{
    match ask(alloc, keys, rt, bytes) {
        Ok(asked) => {
            let Asked {
                evaluated,
                caches: _,
            } = asked;
            show_file(alloc, evaluated)
        }
        Err(Fault::Because(refusal)) => {
            let text = refused_answer(alloc, &refusal)?;
            Ok(line_of(alloc, Status::Refused, text)?)
        }
        Err(Fault::Memory) => Err(BuildFault::Memory),
    }
}

/// The graph of a file's needed stages.
fn show_file(alloc: Global, evaluated: Evaluated) -> Result<Told, BuildFault>
    requires { IsLowerable evaluated }
    ensures { IsFileShown evaluated result }
{
    let Evaluated {
        rows,
        target,
        config,
        sources,
    } = evaluated;
    let plan = lower_program(alloc, rows, target, config, sources)?;
    let _known = plan.graph();
    match draw(alloc, plan) {
        Ok(text) => Ok(line_of(alloc, Status::Built, text)?),
        Err(Fault::Because(Clash)) => Err(BuildFault::Clash),
        Err(Fault::Memory) => Err(BuildFault::Memory),
    }
}
