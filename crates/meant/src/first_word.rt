// What is said of a line that begins with no instruction.
ghost use Rattle.std.specs.Prelude.{◌≡◌, chars, IfOk};
ghost use Rattle.std.specs.List.{list_all, list_any};
ghost use Rattle.ascii.specs.Names.{is_letter};
ghost use Rattle.meant.specs.FirstWord.{begins_later, is_of_shell, no_instruction, near_keyword, unknown_word, word_message};

use crate::escapes::before_escape;
use crate::said::{said, said_near};
use ascii::{first_piece, is_letter};
use instructions::keywords;
use plain::{Code, Memory};
use sentences::{Message, Subject, has_unseen, remedy, sentence};
use std::alloc::Global;

/// Whether a word begins as no instruction does, but as what an instruction goes on with.
fn begins_later(word: &[u8]) -> bool
    ensures { result ≡ begins_later word.now }
{
    match word {
        [first, ..] => *first == b'-' || *first == b'&' || *first == b'|',
        [] => false,
    }
}

/// Whether a word is one with which a shell's lines begin.
#[tactic(auto, unfolding(crate::specs::FirstWord::is_of_shell))]
fn is_of_shell(word: &str) -> bool
    ensures { result ≡ is_of_shell word.now }
{
    word == "export"
        || word == "for"
        || word == "if"
        || word == "then"
        || word == "else"
        || word == "fi"
        || word == "do"
        || word == "done"
        || word == "cd"
        || word == "set"
        || word == "echo"
}

/// Whether all bytes of a word are letters.
fn are_letters(word: &[u8]) -> bool
    ensures { result ≡ list_all is_letter word.now }
{
    for byte in word {
        if !is_letter(*byte) {
            return false;
        }
    }
    true
}

/// What is said of a line that begins with this word, and helps so.
fn no_instruction(alloc: Global, helps: &str) -> Result<Message, Memory>
    ensures { IfOk result (λ message. message ≡ no_instruction helps.now) }
{
    let wrong = String::from_str(alloc, sentence(Code::R04, Subject::Other))?;
    said(alloc, wrong, helps)
}

/// What is said of a first word that may have been meant for an instruction.
fn near_keyword(alloc: Global, word: &str) -> Result<Message, Memory>
    ensures { IfOk result (λ message. message ≡ near_keyword word.now) }
{
    let wrong = String::from_str(alloc, sentence(Code::R04, Subject::Other))?;
    said_near(
        alloc,
        wrong,
        word,
        &keywords(),
        remedy(Code::R04, Subject::Other),
    )
}

/// What is said of a first word that is no instruction: a hint is given only where it can have been one.
#[tactic(auto, unfolding(crate::specs::FirstWord::unknown_word))]
fn unknown_word(alloc: Global, word: &str) -> Result<Message, Memory>
    ensures { IfOk result (λ message. message ≡ unknown_word word.now) }
{
    if begins_later(word.as_bytes()) || is_of_shell(word) {
        return no_instruction(
            alloc,
            "write \\ at the end of the line above, if this line goes on with it",
        );
    }
    if has_unseen(word) {
        return no_instruction(
            alloc,
            "take out the character that is shown by its number: it can't be seen",
        );
    }
    if are_letters(word.as_bytes()) {
        return near_keyword(alloc, word);
    }
    no_instruction(alloc, remedy(Code::R04, Subject::Other))
}

/// What is said of a line that begins with no instruction; none if it is one that is left out here on purpose.
pub(crate) fn word_message(
    alloc: Global,
    subject: Subject,
    line: &str,
) -> Result<Option<Message>, Memory>
    ensures { IfOk result (λ message. message ≡ word_message subject line.now) }
{
    match subject {
        Subject::Other => {
            let (word, _) = first_piece(line);
            Ok(Some(unknown_word(alloc, before_escape(word))?))
        }
        _ => Ok(None),
    }
}
