// The configuration of a bundle's target.
ghost use Rattle.std.specs.Prelude.{◌≡◌, IfOk};
ghost use Rattle.std.specs.String.{string_bytes};
ghost use Rattle.counted.specs.Edges.{line_of};
ghost use Rattle.serde_json.specs.Written.{compact_text};
ghost use Rattle.imageconfig.specs.Writing.{config_data};
ghost use Rattle.answering.specs.declared.status.Status.TheVariants.{Built};
ghost use Rattle.program.specs.Config.{TellsConfig};

use crate::fault::TellFault;
use crate::telling::Teller;
use crate::told::{Told, tell_refusal};
use build::{Status, ask};
use imageconfig::Config;
use plain::{Bytes, Fault, Memory};
use std::alloc::Global;
use std::hash::RandomState;
use std::thread::Threads;

/// Tells the configuration of a bundle's target as a line of JSON, or the bundle's refusal.
///
/// `Built` if the configuration was written, also if a build would fail, `Refused` if the refusal was, and never `Failed`.
pub(crate) struct ConfigTeller;

impl Teller for ConfigTeller {
    ghost use Rattle.program.specs.Telling.{never};
    ghost use Rattle.program.specs.PrivateMoved.{config_moves, never_moves};

    ghost tells = { λ teller. TellsConfig };

    ghost stops = { λ teller. never };

    ghost moves = { λ teller. config_moves };

    ghost moves_stops = { λ teller. never_moves };

    fn tell<H: Threads + Sync>(
        &self,
        alloc: Global,
        keys: RandomState,
        rt: &H,
        bundle: &[u8],
    ) -> Result<Told, TellFault> {
        Ok(tell_config(alloc, keys, rt, bundle)?)
    }
}

/// The configuration of what a bundle's bytes ask for, or their refusal.
fn tell_config(
    alloc: Global,
    keys: RandomState,
    rt: &(impl Threads + Sync),
    bundle: &[u8],
) -> Result<Told, Memory>
    ensures { IfOk result (λ told. TellsConfig bundle.now told.status told.text) }
{
    match ask(alloc, keys, rt, bundle) {
        Ok(asked) => {
            let told = tell_value(alloc, &asked.evaluated.config);
            drop(asked);
            told
        }
        Err(Fault::Because(refusal)) => tell_refusal(alloc, refusal),
        Err(Fault::Memory) => Err(Memory),
    }
}

/// A configuration as a line of JSON.
fn tell_value(alloc: Global, config: &Config) -> Result<Told, Memory>
    ensures status { IfOk result (λ told. told.status ≡ Built) }
    ensures text { IfOk result (λ told. told.text ≡ line_of (compact_text (config_data config.now))) }
{
    let mut line = config_text(alloc, config)?;
    line.push('\n')?;
    Ok(Told {
        status: Status::Built,
        text: Bytes::from_vec(line.into_bytes()),
    })
}

/// A configuration as compact JSON.
fn config_text(alloc: Global, config: &Config) -> Result<String, Memory>
    ensures { IfOk result (λ text. string_bytes text ≡ compact_text (config_data config.now)) }
{
    let value = config.to_json(alloc)?;
    let text = value.to_string(alloc)?;
    Ok(text)
}
