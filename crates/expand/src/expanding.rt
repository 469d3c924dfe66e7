ghost use Rattle.std.specs.Prelude.{◌≡◌, ◌≤◌, None, IfOk, option_map};
ghost use Rattle.std.specs.String.{string_bytes, string_len};
ghost use Rattle.plain.specs.Limits.{most_text_bytes};
ghost use Rattle.expand.specs.Expanding.{Gives, fault_of, unexpanded, valued, worse};
ghost use Rattle.expand.specs.PrivateExpanding.{IsPushed, IsWithin, run, sought};
ghost use Rattle.expand.specs.PrivateTokens.{word_of};
ghost use Rattle.expand.specs.Value.{choice_of, passes, refusal, value, text_of};

use crate::fault::{ExpandFault, Unexpanded};
use crate::form::Form;
use crate::lookup::Lookup;
use crate::operator::{Choice, Operator, Test};
use crate::token::Token;
use crate::word::Word;
use plain::limits::MOST_TEXT_BYTES;
use plain::{Exact, Fault, Memory, Text};
use std::alloc::Global;

/// The value of a word under a scope: the values of its parts, joined.
///
/// A variable that is unset has the empty text. The word of `${v-word}` stands in for v where v is unset, that of `${v+word}`
/// where it is set, and with a `:` before the sign an empty v counts as unset. Where v of `${v?word}` is unset, the text is
/// refused, and `word` says why. A word that isn't chosen is gone past.
///
/// `Required` exactly where a variable that is required doesn't pass its test: with the value of the first such word in reading
/// order, and of one within another the inner one's. `TooLong` exactly where that text, or else the value, has more than
/// 1,048,576 bytes; no text longer than that is built to find out.
pub fn expand<S: Lookup>(alloc: Global, word: &Word, scope: &S) -> Result<Text, ExpandFault>
    ensures { Gives (unexpanded (S.value_of scope.now) word.now) (value (S.value_of scope.now) word.now) result }
{
    match word.form() {
        Form::Plain(text) => copy_within(alloc, text, MOST_TEXT_BYTES),
        Form::Tokens(tokens) => expand_tokens(alloc, tokens.as_slice(), scope, MOST_TEXT_BYTES),
    }
}

/// The value of the next word of a line, if it has one, and what is reported of the line so far: `fault` is what was before.
/// `TooLong` comes before `Required`, and of several that are required the first.
pub fn expand_next<S: Lookup>(
    alloc: Global,
    word: &Word,
    scope: &S,
    fault: Option<Unexpanded>,
) -> Result<(Option<Text>, Option<Unexpanded>), Memory>
    ensures value { IfOk result (λ found. found.0 ≡ valued (S.value_of scope.now) word.now) }
    ensures fault { IfOk result (λ found. found.1 ≡ worse fault (unexpanded (S.value_of scope.now) word.now)) }
{
    match expand(alloc, word, scope) {
        Ok(text) => Ok((Some(text), fault)),
        Err(Fault::Because(why)) => Ok((None, Some(why.after(fault)))),
        Err(Fault::Memory) => Err(Memory),
    }
}

/// The value of tokens, unless they are refused, if it has no more bytes than a limit.
fn expand_tokens<S: Lookup>(
    alloc: Global,
    tokens: &[Token],
    scope: &S,
    limit: usize,
) -> Result<Text, ExpandFault>
    ensures { Gives (fault_of limit (refusal (S.value_of scope.now) (word_of tokens.now)) (value (S.value_of scope.now) (word_of tokens.now))) (value (S.value_of scope.now) (word_of tokens.now)) result }
{
    match sought(tokens, scope) {
        None => joined(alloc, tokens, scope, limit),
        Some(refusing) => match joined(alloc, refusing, scope, limit) {
            Ok(text) => Err(Fault::Because(Unexpanded::Required(text))),
            Err(fault) => Err(fault),
        },
    }
}

/// The tokens after the `?` of the word that tokens are refused with, if they are: of one within another the inner one's.
fn sought<'a, S: Lookup>(tokens: &'a [Token], scope: &S) -> Option<&'a [Token]>
    ensures { option_map (λ refusing. refusing.now) result ≡ sought (S.value_of scope.now) 0 0 None tokens.now }
{
    let mut skipped = 0usize;
    let mut open = 0usize;
    let mut found = None;
    let mut rest = tokens;
    for token in tokens {
        rest = &rest[1..];
        match token {
            Token::Plain(_) | Token::Variable(_) => {}
            Token::Close if skipped > 0 => skipped -= 1,
            Token::Close if open == 0 => return found,
            Token::Close => open -= 1,
            Token::Open(_, _, _) if skipped > 0 => skipped += 1,
            Token::Open(operator, test, name) => match choice(scope, *operator, *test, name) {
                Choice::Own | Choice::Nothing => skipped = 1,
                Choice::Word => open += 1,
                Choice::Refusal => {
                    open = 0;
                    found = Some(rest);
                }
            },
        }
    }
    found
}

/// The value of what tokens begin with, up to the close of the word that they stand in, if it has no more bytes than a limit.
///
/// A text of several pieces is built here, and shared from then on: a variable that is the whole of another line's word is there once.
fn joined<S: Lookup>(
    alloc: Global,
    tokens: &[Token],
    scope: &S,
    limit: usize,
) -> Result<Text, ExpandFault>
    ensures { IsWithin limit (run (S.value_of scope.now) 0 0 tokens.now) result }
{
    if let [Token::Variable(name)] = tokens {
        return expand_variable(alloc, name, scope, limit);
    }
    let mut text = String::new(alloc);
    match push_tokens(&mut text, tokens, scope, limit) {
        Ok(()) => {
            let text = Text::from_string(text).shared(alloc)?;
            Ok(text)
        }
        Err(fault) => {
            drop(text);
            Err(fault)
        }
    }
}

/// The value of a variable, if it has no more bytes than a limit.
fn expand_variable<S: Lookup>(
    alloc: Global,
    name: &Text,
    scope: &S,
    limit: usize,
) -> Result<Text, ExpandFault>
    ensures { IsWithin limit (text_of (S.value_of scope.now name.now)) result }
{
    match scope.find(name) {
        Some(text) => copy_within(alloc, text, limit),
        None => Ok(Text::from_str(alloc, "")?),
    }
}

/// A copy of a text, if it has no more bytes than a limit. It shares the bytes of a long one.
fn copy_within(alloc: Global, text: &Text, limit: usize) -> Result<Text, ExpandFault>
    ensures { IsWithin limit text.now result }
{
    if text.len() > limit {
        return Err(Fault::Because(Unexpanded::TooLong));
    }
    let text = text.copy(alloc)?;
    Ok(text)
}

/// Adds the value of what tokens begin with to a text, up to the close of the word that they stand in: `TooLong` where the whole
/// would be longer than the limit.
///
/// A word that isn't chosen is gone past: `skipped` is how many such words are open, `open` how many others.
fn push_tokens<S: Lookup>(
    text: &mut String,
    tokens: &[Token],
    scope: &S,
    limit: usize,
) -> Result<(), ExpandFault>
    requires { string_len text.old ≤ limit }
    ensures { IsPushed limit (string_bytes text.old) (run (S.value_of scope.now) 0 0 tokens.now) (string_bytes text.new) result }
{
    let mut skipped = 0usize;
    let mut open = 0usize;
    for token in tokens {
        match token {
            Token::Close if skipped > 0 => skipped -= 1,
            Token::Close if open == 0 => return Ok(()),
            Token::Close => open -= 1,
            Token::Plain(_) | Token::Variable(_) if skipped > 0 => {}
            Token::Open(_, _, _) if skipped > 0 => skipped += 1,
            Token::Plain(plain) => push_within(text, plain.as_str(), limit)?,
            Token::Variable(name) => push_within(text, value_at(scope, name), limit)?,
            Token::Open(operator, test, name) => match choice(scope, *operator, *test, name) {
                Choice::Own => {
                    push_within(text, value_at(scope, name), limit)?;
                    skipped = 1;
                }
                Choice::Word => open += 1,
                Choice::Nothing | Choice::Refusal => skipped = 1,
            },
        }
    }
    Ok(())
}

/// What a variable with a word stands for.
fn choice<S: Lookup>(scope: &S, operator: Operator, test: Test, name: &Text) -> Choice
    ensures { result ≡ choice_of operator (passes test (S.value_of scope.now name.now)) }
{
    let passes = match (test, scope.find(name)) {
        (_, None) => false,
        (Test::IsSet, Some(_)) => true,
        (Test::IsFilled, Some(text)) => text.len() > 0,
    };
    operator.choice(passes)
}

/// The text of a variable, which is empty where it is unset.
fn value_at<'a, S: Lookup>(scope: &'a S, name: &Text) -> &'a str
    ensures { result.now ≡ text_of (S.value_of scope.now name.now) }
{
    match scope.find(name) {
        Some(text) => text.as_str(),
        None => "",
    }
}

/// Adds a piece of text: `TooLong` where the whole would be longer than the limit.
fn push_within(text: &mut String, piece: &str, limit: usize) -> Result<(), ExpandFault>
    requires { string_len text.old ≤ limit }
    ensures { IsPushed limit (string_bytes text.old) piece.now (string_bytes text.new) result }
{
    if piece.len() > limit - text.len() {
        return Err(Fault::Because(Unexpanded::TooLong));
    }
    text.push_str(piece)?;
    Ok(())
}
