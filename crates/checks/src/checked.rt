ghost use Rattle.std.specs.Prelude.{◌≡◌, IfOk};
ghost use Rattle.checks.specs.Checked.{IsCheckOf};

use crate::Form;
use crate::checking::{Findings, check_bundle};
use crate::images::images_for;
use crate::showing::shown_check;
use plain::{Memory, Text};
use std::alloc::Global;
use std::hash::RandomState;
use std::thread::Threads;

/// What checking a bundle gives.
#[derive(Drop)]
pub struct Checked {
    /// What is shown of all faults, one after another. It is empty if there is none. For a person it holds no control characters but LF and
    /// tabs.
    pub text: Text,
    /// Whether there is no fault.
    pub is_sound: bool,
}

/// Checks the bytes of a bundle whose Dockerfile is the file of this name: all faults that `check_bundle` finds, as `shown_faults` shows them in this form
/// with the text that they are in. Bytes that are no bundle are shown with where they are wrong.
pub fn check(
    alloc: Global,
    keys: RandomState,
    rt: &(impl Threads + Sync),
    file: &str,
    bytes: &[u8],
    form: Form,
) -> Result<Checked, Memory>
    ensures { IfOk result (λ checked. IsCheckOf file.now bytes.now form checked) }
{
    let Findings {
        faults,
        text,
        target,
        flaw,
    } = check_bundle(alloc, keys, rt, bytes)?;
    let images = images_for(alloc, bytes, faults.as_slice())?;
    let text = shown_check(
        alloc,
        file,
        flaw.as_ref(),
        target.as_ref(),
        images.as_slice(),
        faults.as_slice(),
        text.as_slice(),
        form,
    )?;
    Ok(Checked {
        text,
        is_sound: faults.is_empty(),
    })
}
