// What is wrong with a word of a line.
ghost use Rattle.std.specs.Prelude.{◌≡◌, IfOk};
ghost use Rattle.std.specs.String.{string_bytes};
ghost use Rattle.sentences.specs.WordCause.{word_sentence, word_remedy, wrong_word, word_message};

use crate::Message;
use plain::{Memory, Text};
use std::alloc::Global;

/// What is wrong with a word of a line: one of the causes of a code that has several.
#[derive(Clone, Copy)]
pub enum WordCause {
    /// R06: it has a variable, and is empty once that has its value.
    Empty,
    /// R08: it is the mark of a heredoc that no line closes.
    OpenHeredoc,
    /// R08: it is the mark of a heredoc of RUN, and something stands beside it.
    BesideHeredoc,
    /// R08: it is the mark of a heredoc of RUN whose body begins with `#!`.
    Interpreter,
    /// R08: it is the mark of a heredoc of a COPY with `--from`.
    HeredocFrom,
    /// R08: it is the mark of a heredoc, and the destination.
    HeredocPlace,
    /// R09: a quote of it isn't closed.
    OpenQuote,
    /// R09: a substitution of it is malformed.
    Substitution,
    /// R10: it is a label whose key has a variable, and is empty once that has its value.
    EmptyKey,
    /// R10: it gives a value to a name in quotes.
    QuotedName,
    /// R10: it gives a value to what is no name.
    BadName,
    /// R15: it begins as a list in JSON does, and is none.
    BrokenList,
    /// R15: it is a pattern that is malformed.
    Pattern,
}

/// What is wrong with a word.
fn word_sentence(cause: WordCause) -> &'static str
    ensures { result.now ≡ word_sentence cause }
{
    match cause {
        WordCause::Empty => "this word is empty, since its variable has no value on this line",
        WordCause::OpenHeredoc => "this heredoc is not closed: no line below is its name alone",
        WordCause::BesideHeredoc => "a RUN with a heredoc has nothing beside it here",
        WordCause::Interpreter => "a heredoc's first line names no interpreter here",
        WordCause::HeredocFrom => "a COPY with --from takes no heredoc",
        WordCause::HeredocPlace => "a heredoc is no destination",
        WordCause::OpenQuote => "a quote of this word is not closed",
        WordCause::Substitution => "a substitution of this word is malformed",
        WordCause::EmptyKey =>
            "the key of this label is empty, since its variable has no value on this line",
        WordCause::QuotedName => "the name of a variable has no quotes",
        WordCause::BadName => "this is no name of a variable",
        WordCause::BrokenList => "this begins like a list in JSON, and is none",
        WordCause::Pattern => "the pattern of this source is malformed",
    }
}

/// What helps against it.
fn word_remedy(cause: WordCause) -> &'static str
    ensures { result.now ≡ word_remedy cause }
{
    match cause {
        WordCause::Empty | WordCause::EmptyKey =>
            "give the variable a value above by ENV or ARG (name an ARG from above FROM again), or by a build argument",
        WordCause::OpenHeredoc => "write its name alone on a line below, without blanks around it",
        WordCause::BesideHeredoc =>
            "drop what stands beside it: the shell, which SHELL names, runs the body; COPY <<EOF /path makes a file",
        WordCause::Interpreter => "drop the line with #!, and name the shell by SHELL",
        WordCause::HeredocFrom => "write the heredoc in a COPY of its own",
        WordCause::HeredocPlace => "write COPY <<EOF /path",
        WordCause::OpenQuote => "close it; a value with a ' stands in double quotes",
        WordCause::Substitution =>
            "write ${name}, ${name:-word}, ${name:+word} or ${name:?word}, and \\$ for the character $",
        WordCause::QuotedName => "write the name without quotes, and its value in them",
        WordCause::BadName => "begin with a letter or _, and go on with letters, digits and _",
        WordCause::BrokenList =>
            "write texts in double quotes with commas between them, as [\"a\", \"b\"]",
        WordCause::Pattern => "close each [, and write \\[ where the character [ is meant",
    }
}

/// What is wrong with this word.
fn wrong_word(alloc: Global, cause: WordCause, word: &str) -> Result<String, Memory>
    ensures { IfOk result (λ text. string_bytes text ≡ wrong_word cause word.now) }
{
    let wrong = word_sentence(cause);
    Ok(format!(in alloc; "{wrong}: {word}")?)
}

/// What is said of a line of which this word is wrong.
pub fn word_message(alloc: Global, cause: WordCause, word: &str) -> Result<Message, Memory>
    ensures { IfOk result (λ message. message ≡ word_message cause word.now) }
{
    let wrong = wrong_word(alloc, cause, word)?;
    let helps = Text::from_str(alloc, word_remedy(cause))?;
    Ok(Message {
        wrong: Text::from_string(wrong),
        helps,
    })
}
