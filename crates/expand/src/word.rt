ghost use Rattle.std.specs.Prelude.{◌≡◌, IfOk, option_map, option_and_then};
ghost use Rattle.std.specs.Str.{chars};
ghost use Rattle.expand.specs.PrivateForm.{kept_word};
ghost use Rattle.expand.specs.PrivateOutput.{bytewise};
ghost use Rattle.expand.specs.PrivatePieces.{tokens};
ghost use Rattle.expand.specs.PrivateReading.{pieces};
ghost use Rattle.expand.specs.PrivateScan.{scanned};
ghost use Rattle.expand.specs.Value.{no_part, with_text};
ghost use Rattle.expand.specs.Word.{Finds, Reads, word};

use crate::copied::Copied;
use crate::form::{Form, are_ordinary};
use crate::kind::Kind;
use crate::reading::read;
use crate::scan::scan;
use crate::token::Token;
use lines::Escape;
use plain::{Code, Fault, Items, Memory, Text};
use std::alloc::Global;
use std::marker::Model;
use words::TextFault;

/// A text that is expanded: a list of parts, each plain text, a variable, or a variable with an operator, a test and a
/// word, words within it being such lists as well (Dockerfile reference, environment replacement).
#[derive(Debug)]
pub struct Word {
    form: Form,
}

/// A word ends by a call, so that no proof above goes by how it is kept at each place where one is let go.
impl Drop for Word {
    fn drop(self) {
        let Word { form: _ } = self;
    }
}

impl Copied for Word {
    fn copied(&self, alloc: Global) -> Result<Word, Memory> {
        let form = self.form.copied(alloc)?;
        Ok(Word { form })
    }
}

impl Model for Word {
    ghost use Rattle.expand.specs.Value.{Parts};
    ghost use Rattle.expand.specs.PrivateForm.{IsClosed, kept_word};
    ghost use Rattle.expand.specs.PrivateTokens.{parts_code};

    ghost Value = { Parts };

    ghost coded = { parts_code };

    ghost view = { λ w. kept_word w.form };

    ghost invariant = { λ w. IsClosed w.form };
}

impl Word {
    /// The word of a text.
    ///
    /// R09 exactly where the text is none: a quote is open, a `${` doesn't go on with a name and then `}`, or `-`, `+` or `?`
    /// and a `:` before it or not, a word within it has no `}` of its own, or more than 32 `${` stand within one another.
    pub fn read(alloc: Global, kind: Kind, escape: Escape, text: &str) -> Result<Word, TextFault>
        ensures word { Reads kind escape text.now result }
        ensures found { Finds (word kind escape text.now) result }
    {
        if are_ordinary(kind, escape, text.as_bytes()) {
            let word = plain_word(alloc, text)?;
            return Ok(word);
        }
        let characters = characters_of(alloc, text)?;
        match read_tokens(alloc, kind, escape, characters.as_slice())? {
            Some(tokens) => Ok(Word {
                form: Form::Tokens(tokens),
            }),
            None => Err(Fault::Because(Code::R09)),
        }
    }

    /// How the word is kept.
    pub(crate) fn form(&self) -> &Form
        ensures { kept_word result.now ≡ self.now }
    {
        &self.form
    }
}

/// The word of a text that stands for itself. A long one is shared from here on: expanding the word copies no bytes.
fn plain_word(alloc: Global, text: &str) -> Result<Word, Memory>
    ensures { IfOk result (λ word. word ≡ with_text text.now no_part) }
{
    let text = Text::from_str(alloc, text)?.shared(alloc)?;
    Ok(Word {
        form: Form::Plain(text),
    })
}

/// The characters of a text.
#[tactic(auto, using(std::proofs::lemmas::Str::chars_from_encodes))]
fn characters_of(alloc: Global, text: &str) -> Result<Vec<char>, Memory>
    ensures { IfOk result (λ characters. characters.items ≡ chars text.now) }
{
    let characters = text.chars().collect(alloc)?;
    Ok(characters)
}

/// The tokens of characters; none where a quote is open or a substitution is bad.
fn read_tokens(
    alloc: Global,
    kind: Kind,
    escape: Escape,
    text: &[char],
) -> Result<Option<Items<Token>>, Memory>
    ensures { IfOk result (λ found. option_map bytewise found ≡ option_map tokens (option_and_then pieces (scanned kind escape text.now))) }
{
    match scan(alloc, kind, escape, text)? {
        Some(marked) => read(alloc, marked.as_slice()),
        None => Ok(None),
    }
}
