ghost use Rattle.std.specs.Prelude.{◌≡◌, ◌++◌, false, Some, IfOk, option_map};
ghost use Rattle.expand.specs.Scan.{is_freed};
ghost use Rattle.expand.specs.PrivateScan.{scanned, bare_from, emitted, quoted_from};
ghost use Rattle.words.specs.declared.quote.QuoteState.{QuoteState};

use crate::character::Character;
use crate::kind::Kind;
use lines::Escape;
use plain::Memory;
use std::alloc::Global;
use words::{Class, QuoteState};

/// The characters that a text leaves, each marked; none where a quote is open.
///
/// Of a word with quotes these are removed; a character in single quotes or behind an escape character that acts is plain
/// text, all others are active (Dockerfile reference, escaping). In a string of the JSON form and in a heredoc's body
/// quotes are characters like others, and the escape character acts before `$` and itself (own).
#[tactic(auto, using(crate::proofs::ScanLemmas::scanned_quoted, crate::proofs::ScanLemmas::scanned_unquoted))]
pub fn scan(
    alloc: Global,
    kind: Kind,
    escape: Escape,
    text: &[char],
) -> Result<Option<Vec<Character>>, Memory>
    ensures { IfOk result (λ found. option_map (λ v. v.items) found ≡ scanned kind escape text.now) }
{
    match kind {
        Kind::Quoted => scan_quoted(alloc, escape, text),
        Kind::Unquoted => scan_bare(alloc, escape, text),
    }
}

/// Adds what one more character of this class leaves. An escape character is held back until it is known whether it acts.
fn emit(
    found: &mut Vec<Character>,
    escape: Escape,
    state: QuoteState,
    class: Class,
    character: char,
) -> Result<(), Memory>
    ensures { IfOk result (λ _. found.new.items ≡ found.old.items ++ emitted escape state class character) }
{
    match (state, class) {
        (QuoteState::Outside, Class::SingleQuote | Class::DoubleQuote | Class::EscapeCharacter) =>
            {}
        (QuoteState::Outside, _) => found.push(Character::Active(character))?,
        (QuoteState::Escaped, _) => found.push(Character::Literal(character))?,
        (QuoteState::Single, Class::SingleQuote) => {}
        (QuoteState::Single, _) => found.push(Character::Literal(character))?,
        (QuoteState::Double, Class::DoubleQuote | Class::EscapeCharacter) => {}
        (QuoteState::Double, _) => found.push(Character::Active(character))?,
        (QuoteState::DoubleEscaped, Class::DoubleQuote | Class::Dollar | Class::EscapeCharacter) =>
            { found.push(Character::Literal(character))? }
        (QuoteState::DoubleEscaped, _) => {
            found.push(Character::Active(char::from(escape.byte())))?;
            found.push(Character::Active(character))?
        }
    }
    Ok(())
}

fn scan_quoted(
    alloc: Global,
    escape: Escape,
    text: &[char],
) -> Result<Option<Vec<Character>>, Memory>
    ensures { IfOk result (λ found. option_map (λ v. v.items) found ≡ quoted_from escape QuoteState.Outside text.now) }
{
    let mut found = Vec::with_capacity(alloc, text.len())?;
    let mut state = QuoteState::Outside;
    for character in text {
        let class = Class::of(escape, *character);
        emit(&mut found, escape, state, class, *character)?;
        state = state.after(class);
    }
    match state {
        QuoteState::Outside => Ok(Some(found)),
        QuoteState::Escaped => {
            found.push(Character::Active(char::from(escape.byte())))?;
            Ok(Some(found))
        }
        QuoteState::Single | QuoteState::Double | QuoteState::DoubleEscaped => Ok(None),
    }
}

/// Whether an escape character acts before this one, where there are no quotes.
fn is_freed(escape: Escape, character: char) -> bool
    ensures { result ≡ is_freed escape character }
{
    character == '$' || character == char::from(escape.byte())
}

fn scan_bare(alloc: Global, escape: Escape, text: &[char]) -> Result<Option<Vec<Character>>, Memory>
    ensures { IfOk result (λ found. option_map (λ v. v.items) found ≡ Some (bare_from escape false text.now)) }
{
    let byte = char::from(escape.byte());
    let mut found = Vec::with_capacity(alloc, text.len())?;
    let mut is_escaped = false;
    for character in text {
        if is_escaped {
            if is_freed(escape, *character) {
                found.push(Character::Literal(*character))?;
            } else {
                found.push(Character::Active(byte))?;
                found.push(Character::Active(*character))?;
            }
            is_escaped = false;
        } else if *character == byte {
            is_escaped = true;
        } else {
            found.push(Character::Active(*character))?;
        }
    }
    if is_escaped {
        found.push(Character::Active(byte))?;
    }
    Ok(Some(found))
}
