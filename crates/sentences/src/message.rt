// What is said of a fault or a failure, in two sentences.
ghost use Rattle.std.specs.Prelude.{◌≡◌, IfOk};
ghost use Rattle.std.specs.String.{string_bytes};
ghost use Rattle.sentences.specs.Message.{code_of, wrong_of, remedy_of, message_of};

use crate::table::{required_remedy, required_sentence};
use crate::{Subject, remedy, sentence};
use expand::Reason;
use plain::{Memory, Text};
use std::alloc::{AllocError, Global};

/// What is said of a fault or a failure.
#[derive(Drop)]
pub struct Message {
    /// What is wrong.
    pub wrong: Text,
    /// What helps.
    pub helps: Text,
}

/// The code of a refusal.
pub fn code_of(alloc: Global, reason: &Reason) -> Result<String, AllocError>
    ensures { IfOk result (λ text. string_bytes text ≡ code_of reason.now) }
{
    match reason {
        Reason::Coded(code) => code.to_string(alloc),
        Reason::Required(_) => String::from_str(alloc, "R21"),
    }
}

/// What is wrong with a line of this instruction.
fn wrong_of(alloc: Global, reason: &Reason, subject: Subject) -> Result<String, AllocError>
    ensures { IfOk result (λ text. string_bytes text ≡ wrong_of reason.now subject) }
{
    match reason {
        Reason::Coded(code) => String::from_str(alloc, sentence(*code, subject)),
        Reason::Required(text) => {
            let (wrong, text) = (required_sentence(), text.as_str());
            format!(in alloc; "{wrong}: {text}")
        }
    }
}

/// What helps against it.
fn remedy_of(reason: &Reason, subject: Subject) -> &'static str
    ensures { result.now ≡ remedy_of reason.now subject }
{
    match reason {
        Reason::Coded(code) => remedy(*code, subject),
        Reason::Required(_) => required_remedy(),
    }
}

/// What the table says of a line of this instruction that is refused for this reason. By R21 what is wrong ends with the text that the line is refused
/// with.
pub fn message_of(alloc: Global, reason: &Reason, subject: Subject) -> Result<Message, Memory>
    ensures { IfOk result (λ message. message ≡ message_of reason.now subject) }
{
    let wrong = wrong_of(alloc, reason, subject)?;
    let helps = Text::from_str(alloc, remedy_of(reason, subject))?;
    Ok(Message {
        wrong: Text::from_string(wrong),
        helps,
    })
}
