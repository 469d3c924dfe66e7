// All faults of a bundle.
ghost use Rattle.std.specs.Prelude.{IfOk};
ghost use Rattle.program.specs.Check.{TellsFaults};

use crate::fault::TellFault;
use crate::telling::Teller;
use crate::told::Told;
use build::Status;
use checks::{Checked, Form, check};
use plain::{Bytes, Memory};
use std::alloc::Global;
use std::hash::RandomState;
use std::thread::Threads;

/// Tells all faults of a bundle in a form.
///
/// `Built` if there is none, and then nothing is written, `Failed` if there is one, and never `Refused`: what a build refuses is such a fault.
#[derive(Drop)]
pub(crate) struct FaultTeller<'a> {
    /// What positions call the Dockerfile.
    pub(crate) file: &'a str,
    pub(crate) form: Form,
}

impl<'a> Teller for FaultTeller<'a> {
    ghost use Rattle.program.specs.Telling.{never};
    ghost use Rattle.program.specs.PrivateMoved.{check_moves, never_moves};

    ghost tells = { λ teller. TellsFaults teller.file.now teller.form };

    ghost stops = { λ teller. never };

    ghost moves = { λ teller. check_moves teller.file.now teller.form };

    ghost moves_stops = { λ teller. never_moves };

    fn tell<H: Threads + Sync>(
        &self,
        alloc: Global,
        keys: RandomState,
        rt: &H,
        bundle: &[u8],
    ) -> Result<Told, TellFault> {
        Ok(tell_faults(alloc, keys, rt, self.file, bundle, self.form)?)
    }
}

/// The faults of a bundle's bytes, and the status that says whether there is one.
fn tell_faults(
    alloc: Global,
    keys: RandomState,
    rt: &(impl Threads + Sync),
    file: &str,
    bundle: &[u8],
    form: Form,
) -> Result<Told, Memory>
    ensures { IfOk result (λ told. TellsFaults file.now form bundle.now told.status told.text) }
{
    let Checked { text, is_sound } = check(alloc, keys, rt, file, bundle, form)?;
    let text = Bytes::from_vec(text.into_string(alloc)?.into_bytes());
    if is_sound {
        return Ok(Told {
            status: Status::Built,
            text,
        });
    }
    Ok(Told {
        status: Status::Failed,
        text,
    })
}
