ghost use Rattle.std.specs.Prelude.{◌≡◌, IfOk};
ghost use Rattle.counted.specs.Edges.{line_of};
ghost use Rattle.bundle.specs.Answer.{refused_text};
ghost use Rattle.answering.specs.declared.status.Status.TheVariants.{Refused};

use build::Status;
use bundle::refused_answer;
use expand::Rejection;
use plain::{Bytes, Memory};
use std::alloc::Global;

/// What is written of a bundle: all its bytes, and what they say.
#[derive(Drop)]
pub(crate) struct Told {
    pub(crate) status: Status,
    pub(crate) text: Bytes,
}

/// The refusal of a bundle as a line: the answer of a build.
pub(crate) fn tell_refusal(alloc: Global, refusal: Rejection) -> Result<Told, Memory>
    ensures status { IfOk result (λ told. told.status ≡ Refused) }
    ensures text { IfOk result (λ told. told.text ≡ line_of (refused_text refusal)) }
{
    let answer = refused_answer(alloc, &refusal)?;
    let mut line = answer.into_string(alloc)?;
    line.push('\n')?;
    Ok(Told {
        status: Status::Refused,
        text: Bytes::from_vec(line.into_bytes()),
    })
}
