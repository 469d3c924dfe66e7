// Which word of a line is wrong, where its code has several causes, and which cause it is.
ghost use Rattle.std.specs.Prelude.{◌≡◌, filter, map, option_map, IfOk};
ghost use Rattle.std.specs.List.{find};
ghost use Rattle.std.specs.Option.{option_copied};
ghost use Rattle.instructions.specs.Expanded.{is_list};
ghost use Rattle.words.specs.Cutting.{ends_open};
ghost use Rattle.meant.specs.Faulty.{faulty_if, last_word};
ghost use Rattle.meant.specs.WordFaults.{rest_of, is_bad_word, quote_fault, has_byte, has_sign, only, only_fault, takes, empty_fault, has_quote, has_bad_name, name_cause, bad_name_fault, name_fault, begins_texts, but_last, pattern_fault, listed_fault, words_fault, text_fault, line_fault, tells_word, word_fault};

use crate::heredoc_faults::heredoc_fault;
use crate::mounts::key_of;
use crate::own::{escape_in, joined, lines_below};
use ascii::{after_blanks, first_piece, is_name};
use expand::{Kind, Reason, Word};
use lines::Escape;
use plain::{Code, Fault, Memory, Text};
use sentences::{Subject, WordCause};
use std::alloc::{AllocError, Global};
use words::{closed, flags, json_form, split};

/// A word of a line with what is wrong with it.
#[derive(Drop)]
pub struct FaultyWord {
    /// What is wrong with it.
    pub cause: WordCause,
    /// The word.
    pub word: Text,
}

/// A word with this wrong, if there is one.
pub(crate) fn faulty_if(
    alloc: Global,
    cause: WordCause,
    word: Option<&str>,
) -> Result<Option<FaultyWord>, Memory>
    ensures { IfOk result (λ found. found ≡ faulty_if cause (option_copied word.entry)) }
{
    match word {
        Some(word) => {
            let word = Text::from_str(alloc, word)?;
            Ok(Some(FaultyWord { cause, word }))
        }
        None => Ok(None),
    }
}

/// What follows the name of an instruction, and its flags if it takes any.
fn rest_of(alloc: Global, subject: Subject, text: &str) -> Result<&str, Memory>
    ensures { IfOk result (λ rest. rest.now ≡ rest_of subject text.now) }
{
    let (_, rest) = first_piece(text);
    match subject {
        Subject::From | Subject::Run | Subject::Copy => {
            let (flags, rest) = flags(alloc, rest)?;
            drop(flags);
            Ok(rest)
        }
        _ => Ok(rest),
    }
}

/// The last of some words.
pub(crate) fn last_word<'a>(words: &[&'a str]) -> Option<&'a str>
    ensures { option_map (λ word. word.now) result ≡ last_word (map (λ word. word.now) words.now) }
{
    match words.get(words.len().saturating_sub(1)) {
        Some(word) => Some(*word),
        None => None,
    }
}

/// Whether a quote of a text is open.
fn is_open(escape: Escape, text: &str) -> bool
    ensures { result ≡ ends_open escape text.now }
{
    closed(escape, text).is_err()
}

/// Whether a text is no word: with quotes that are closed, a substitution of it is malformed.
fn is_bad_word(alloc: Global, escape: Escape, text: &str) -> Result<bool, Memory>
    ensures { IfOk result (λ is. is ≡ is_bad_word escape text.now) }
{
    match Word::read(alloc, Kind::Quoted, escape, text) {
        Ok(word) => {
            drop(word);
            Ok(false)
        }
        Err(Fault::Because(_)) => Ok(true),
        Err(Fault::Memory) => Err(Memory),
    }
}

/// The first of some words that is none.
fn first_bad<'a>(
    alloc: Global,
    escape: Escape,
    words: &[&'a str],
) -> Result<Option<&'a str>, Memory>
    ensures { IfOk result (λ found. option_map (λ word. word.now) found ≡ find (is_bad_word escape) (map (λ word. word.now) words.now)) }
{
    for word in words {
        if is_bad_word(alloc, escape, *word)? {
            return Ok(Some(*word));
        }
    }
    Ok(None)
}

/// The word of which a quote is open, else the first one of which a substitution is malformed.
fn quote_fault(
    alloc: Global,
    escape: Escape,
    text: &str,
    words: &[&str],
) -> Result<Option<FaultyWord>, Memory>
    ensures { IfOk result (λ found. found ≡ quote_fault escape text.now (map (λ word. word.now) words.now)) }
{
    if is_open(escape, text) {
        return faulty_if(alloc, WordCause::OpenQuote, last_word(words));
    }
    let word = first_bad(alloc, escape, words)?;
    faulty_if(alloc, WordCause::Substitution, word)
}

/// What a word is told by that may be wrong.
#[derive(Clone, Copy)]
enum Sign {
    /// A variable.
    Variable,
    /// A variable in the key that it gives a value.
    VariableKey,
    /// A `[`.
    Bracket,
}

/// Whether a text has a byte.
pub(crate) fn has_byte(text: &str, wanted: u8) -> bool
    ensures { result ≡ has_byte wanted text.now }
{
    text.as_bytes().iter().any(|byte| *byte == wanted)
}

/// Whether a word has a sign.
fn has_sign(sign: Sign, word: &str) -> bool
    ensures { result ≡ has_sign sign word.now }
{
    match sign {
        Sign::Variable => has_byte(word, b'$'),
        Sign::VariableKey => has_byte(key_of(word), b'$'),
        Sign::Bracket => has_byte(word, b'['),
    }
}

/// Those of some words that have a sign.
fn with_sign<'a>(alloc: Global, sign: Sign, words: &[&'a str]) -> Result<Vec<&'a str>, AllocError>
    ensures { IfOk result (λ found. map (λ word. word.now) found.items ≡ filter (has_sign sign) (map (λ word. word.now) words.now)) }
{
    let mut found = Vec::new(alloc);
    for word in words {
        if has_sign(sign, *word) {
            found.push(*word)?;
        }
    }
    Ok(found)
}

/// A word that is the only one.
fn only<'a>(words: &[&'a str]) -> Option<&'a str>
    ensures { option_map (λ word. word.now) result ≡ only (map (λ word. word.now) words.now) }
{
    match words {
        [word] => Some(word),
        _ => None,
    }
}

/// The only word that has a sign, if it is the only one, with this wrong.
fn only_fault(
    alloc: Global,
    cause: WordCause,
    sign: Sign,
    words: &[&str],
) -> Result<Option<FaultyWord>, Memory>
    ensures { IfOk result (λ found. found ≡ only_fault cause sign (map (λ word. word.now) words.now)) }
{
    let found = with_sign(alloc, sign, words)?;
    faulty_if(alloc, cause, only(found.as_slice()))
}

/// Whether an instruction takes so many words, and no empty one.
fn takes(subject: Subject, count: usize) -> bool
    ensures { result ≡ takes subject count }
{
    match subject {
        Subject::Copy => count >= 2,
        Subject::Volume => count >= 1,
        Subject::User | Subject::Workdir | Subject::StopSignal => count == 1,
        _ => false,
    }
}

/// The word that is empty once its variable has its value: the only one with a variable.
fn empty_fault(
    alloc: Global,
    subject: Subject,
    words: &[&str],
) -> Result<Option<FaultyWord>, Memory>
    ensures { IfOk result (λ found. found ≡ empty_fault subject (map (λ word. word.now) words.now)) }
{
    if !takes(subject, words.len()) {
        return Ok(None);
    }
    only_fault(alloc, WordCause::Empty, Sign::Variable, words)
}

/// Whether a text has a quote.
fn has_quote(text: &str) -> bool
    ensures { result ≡ has_quote text.now }
{
    has_byte(text, b'"') || has_byte(text, b'\'')
}

/// Whether what a word gives a value is no name of a variable.
fn has_bad_name(word: &str) -> bool
    ensures { result ≡ has_bad_name word.now }
{
    !is_name(key_of(word).as_bytes())
}

/// What is wrong with such a word.
fn name_cause(word: &str) -> WordCause
    ensures { result ≡ name_cause word.now }
{
    if has_quote(key_of(word)) {
        WordCause::QuotedName
    } else {
        WordCause::BadName
    }
}

/// The first word that gives a value to what is no name.
fn bad_name_fault(alloc: Global, words: &[&str]) -> Result<Option<FaultyWord>, Memory>
    ensures { IfOk result (λ found. found ≡ bad_name_fault (find has_bad_name (map (λ word. word.now) words.now))) }
{
    for word in words {
        if has_bad_name(*word) {
            return faulty_if(alloc, name_cause(*word), Some(*word));
        }
    }
    Ok(None)
}

/// The word whose name or key is none.
fn name_fault(alloc: Global, subject: Subject, words: &[&str]) -> Result<Option<FaultyWord>, Memory>
    ensures { IfOk result (λ found. found ≡ name_fault subject (map (λ word. word.now) words.now)) }
{
    match subject {
        Subject::Arg | Subject::Env => bad_name_fault(alloc, words),
        Subject::Label => only_fault(alloc, WordCause::EmptyKey, Sign::VariableKey, words),
        _ => Ok(None),
    }
}

/// Whether a text begins as a list of texts in JSON does.
fn begins_texts(text: &[u8]) -> bool
    ensures { result ≡ begins_texts text.now }
{
    match text {
        [first, second, ..] => *first == b'[' && *second == b'"',
        _ => false,
    }
}

/// All words but the last.
fn but_last<'a, 'b>(words: &'b [&'a str]) -> &'b [&'a str]
    ensures { map (λ word. word.now) result.now ≡ but_last (map (λ word. word.now) words.now) }
{
    if words.is_empty() {
        return &[];
    }
    &words[..words.len() - 1]
}

/// What begins like a list in JSON, else the only source with a `[`.
fn pattern_fault(alloc: Global, text: &str, words: &[&str]) -> Result<Option<FaultyWord>, Memory>
    ensures { IfOk result (λ found. found ≡ pattern_fault text.now (map (λ word. word.now) words.now)) }
{
    let text = after_blanks(text);
    if begins_texts(text.as_bytes()) {
        return faulty_if(alloc, WordCause::BrokenList, Some(text));
    }
    only_fault(alloc, WordCause::Pattern, Sign::Bracket, but_last(words))
}

/// Whether a text is a list in JSON.
fn is_list(alloc: Global, text: &str) -> Result<bool, Memory>
    ensures { IfOk result (λ is. is ≡ is_list text.now) }
{
    let form = json_form(alloc, text)?;
    Ok(form.is_some())
}

/// The word of a text by which it is refused with this code.
fn listed_fault(
    alloc: Global,
    escape: Escape,
    code: Code,
    subject: Subject,
    text: &str,
    words: &[&str],
) -> Result<Option<FaultyWord>, Memory>
    ensures { IfOk result (λ found. found ≡ listed_fault escape code subject text.now (map (λ word. word.now) words.now)) }
{
    match code {
        Code::R06 => empty_fault(alloc, subject, words),
        Code::R09 => quote_fault(alloc, escape, text, words),
        Code::R10 => name_fault(alloc, subject, words),
        Code::R15 => pattern_fault(alloc, text, words),
        _ => Ok(None),
    }
}

/// The same of a text that is no list in JSON, whose strings are no words.
fn words_fault(
    alloc: Global,
    escape: Escape,
    code: Code,
    subject: Subject,
    text: &str,
) -> Result<Option<FaultyWord>, Memory>
    ensures { IfOk result (λ found. found ≡ words_fault escape code subject text.now) }
{
    if is_list(alloc, text)? {
        return Ok(None);
    }
    let words = split(alloc, escape, text)?;
    listed_fault(alloc, escape, code, subject, text, words.as_slice())
}

/// The word by which an instruction of this text, above these lines, is refused with this code.
fn text_fault(
    alloc: Global,
    escape: Escape,
    code: Code,
    text: &str,
    below: &[&str],
) -> Result<Option<FaultyWord>, Memory>
    ensures { IfOk result (λ found. found ≡ text_fault escape code text.now (map (λ line. line.now) below.now)) }
{
    let subject = Subject::of_line(text);
    let rest = rest_of(alloc, subject, text)?;
    match code {
        Code::R08 => heredoc_fault(alloc, subject, text, rest, below),
        _ => words_fault(alloc, escape, code, subject, rest),
    }
}

/// The same of the lines of an instruction, of which the first has this number.
pub(crate) fn line_fault(
    alloc: Global,
    lines: &[&str],
    own: &[&str],
    code: Code,
    number: u32,
) -> Result<Option<FaultyWord>, Memory>
    ensures { IfOk result (λ found. found ≡ line_fault (map (λ line. line.now) lines.now) (map (λ line. line.now) own.now) code number) }
{
    let escape = escape_in(lines);
    let text = joined(alloc, escape, own)?;
    let below = lines_below(lines, own, number);
    text_fault(alloc, escape, code, text.as_str(), below)
}

/// Whether a code has several causes, and is about a word.
fn tells_word(code: Code) -> bool
    ensures { result ≡ tells_word code }
{
    match code {
        Code::R06 | Code::R08 | Code::R09 | Code::R10 | Code::R15 => true,
        _ => false,
    }
}

/// The word by which an instruction is refused for this reason, with what is wrong with it, if the lines tell it. It has the lines `own` of a file of these
/// lines, of which the first has this number.
pub fn word_fault(
    alloc: Global,
    lines: &[&str],
    own: &[&str],
    reason: &Reason,
    number: u32,
) -> Result<Option<FaultyWord>, Memory>
    ensures { IfOk result (λ found. found ≡ word_fault (map (λ line. line.now) lines.now) (map (λ line. line.now) own.now) reason.now number) }
{
    match reason {
        Reason::Coded(code) if tells_word(*code) => line_fault(alloc, lines, own, *code, number),
        _ => Ok(None),
    }
}
