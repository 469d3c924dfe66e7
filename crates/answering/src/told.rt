// Answers that are held whole: a failure, and a refusal. They are short.
ghost use Rattle.std.specs.Prelude.{◌≡◌, ◌<◌, IfOk};
ghost use Rattle.counted.specs.Edges.{line_of};
ghost use Rattle.bundle.specs.Answer.{failed_text, refused_text};
ghost use Rattle.answering.specs.Told.{TellsText, IsTold};
ghost use Rattle.answering.specs.declared.status.Status.TheVariants.{Failed, Refused};

use crate::{BuildFault, Status};
use bundle::{failed_answer, refused_answer};
use counted::{CountedWrite, write_all};
use expand::Rejection;
use plain::{Memory, Text};
use std::alloc::Global;
use trees::Cause;

/// What a build tells: what its answer says, and the answer with the LF that ends it.
#[derive(Drop)]
pub struct Told {
    pub status: Status,
    pub line: Text,
}

/// Tells that the instruction on this line failed with this cause.
pub fn tell_failure<W: CountedWrite>(
    alloc: Global,
    line: u32,
    cause: Cause,
    output: &mut W,
) -> Result<Status, BuildFault>
    requires writes { W.failures output.old < u64.MAX }
    ensures { IsTold (TellsText Failed (failed_text line cause))
        (W.contents output.old) (W.failures output.old) (W.contents output.new) (W.failures output.new) result }
{
    let text = failed_answer(alloc, line, cause)?;
    let told = line_of(alloc, Status::Failed, text)?;
    write_told(output, told)
}

/// Tells that a bundle is refused.
pub fn tell_refusal<W: CountedWrite>(
    alloc: Global,
    refusal: Rejection,
    output: &mut W,
) -> Result<Status, BuildFault>
    requires writes { W.failures output.old < u64.MAX }
    ensures { IsTold (TellsText Refused (refused_text refusal))
        (W.contents output.old) (W.failures output.old) (W.contents output.new) (W.failures output.new) result }
{
    let text = refused_answer(alloc, &refusal)?;
    let told = line_of(alloc, Status::Refused, text)?;
    write_told(output, told)
}

/// Writes an answer that is held whole.
fn write_told<W: CountedWrite>(output: &mut W, told: Told) -> Result<Status, BuildFault>
    requires writes { W.failures output.old < u64.MAX }
    ensures { IsTold (λ other. other ≡ told)
        (W.contents output.old) (W.failures output.old) (W.contents output.new) (W.failures output.new) result }
{
    let Told { status, line } = told;
    match write_all(output, line.as_str().as_bytes()) {
        Ok(()) => Ok(status),
        Err(_) => Err(BuildFault::Device),
    }
}

/// A text as a line.
pub fn line_of(alloc: Global, status: Status, text: Text) -> Result<Told, Memory>
    ensures status { IfOk result (λ told. told.status ≡ status) }
    ensures line { IfOk result (λ told. told.line ≡ line_of text) }
{
    let mut line = text.into_string(alloc)?;
    line.push('\n')?;
    Ok(Told {
        status,
        line: Text::from_string(line),
    })
}
