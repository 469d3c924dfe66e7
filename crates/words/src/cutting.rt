ghost use Rattle.std.specs.Prelude.{◌≡◌, ◌++◌, true, false, map, IfOk, MatchResult};
ghost use Rattle.ascii.specs.Pieces.{if_any};
ghost use Rattle.words.specs.Cutting.{AreWords, IsOpen, words, ends_open};

use crate::class::class_of;
use crate::fault::TextFault;
use crate::quote::QuoteState;
use lines::Escape;
use plain::{Code, Fault, Memory};
use std::alloc::Global;

/// The words of a text: what is between its blanks, where quotes and the escape character hold blanks together
/// (Dockerfile reference, escaping and quoting; what acts where: own).
///
/// In single quotes each character is kept, in double quotes the escape character acts before `"`, `$` and itself,
/// outside quotes before any character, and at the end of the text it is a character as any other. Words are as they are written.
/// The word of an open quote reaches to the end of the text: it counts as a word, and `closed` refuses it.
pub fn split<'a>(alloc: Global, escape: Escape, text: &'a str) -> Result<Vec<&'a str>, Memory>
    ensures words { IfOk result (λ found. AreWords escape text.now (map (λ word. word.now) found.items)) }
    ensures value { IfOk result (λ found. map (λ word. word.now) found.items ≡ words escape text.now) }
{
    let mut found = Vec::new(alloc);
    let mut start = 0;
    let mut state = QuoteState::Outside;
    for (index, byte) in text.as_bytes().iter().enumerate() {
        let class = class_of(escape, *byte);
        if state.cuts(class) {
            push_word(&mut found, &text[start..index])?;
            start = index + 1;
        }
        state = state.after(class);
    }
    push_word(&mut found, &text[start..])?;
    Ok(found)
}

/// Adds a word, unless it is empty.
fn push_word<'a>(found: &mut Vec<&'a str>, word: &'a str) -> Result<(), Memory>
    ensures { IfOk result (λ _. map (λ w. w.now) found.new.items ≡ map (λ w. w.now) found.old.items ++ if_any word.now) }
{
    if !word.is_empty() {
        found.push(word)?;
    }
    Ok(())
}

/// Whether each quote of a text is closed: R09 exactly where one is open.
///
/// It is a call of its own because other faults of a line come before that one.
pub fn closed(escape: Escape, text: &str) -> Result<(), TextFault>
    ensures open { MatchResult result (λ _. ¬ (IsOpen escape text.now)) (λ fault. (fault ≡ Fault.Because Code.R09) × IsOpen escape text.now) }
    ensures value { MatchResult result (λ _. ends_open escape text.now ≡ false) (λ fault. (fault ≡ Fault.Because Code.R09) × (ends_open escape text.now ≡ true)) }
{
    if ends_open(escape, text) {
        return Err(Fault::Because(Code::R09));
    }
    Ok(())
}

/// Whether a quote of a text is open.
fn ends_open(escape: Escape, text: &str) -> bool
    ensures { result ≡ ends_open escape text.now }
{
    let mut state = QuoteState::Outside;
    for byte in text.as_bytes() {
        state = state.after(class_of(escape, *byte));
    }
    state.is_in_quotes()
}
