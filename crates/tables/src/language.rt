// `language`: `spell TEXT` with the instructions that a Dockerfile spells, `word TEXT` and `body TEXT`
// with the values of a text with quotes and of one without, `env TEXT` with RUN's environment behind lines; behind `=>` stands the answer. In a case and in its
// answer a LF is written `¶`.

use crate::spelling::{spelling_of, values_of};
use crate::stage::{environment_after, reason_text};
use expand::{Kind, Reason, ReasonFault};
use plain::{Fault, Memory};
use std::alloc::Global;
use std::hash::RandomState;
use words::TextFault;

pub fn answer(alloc: Global, keys: RandomState, case: &str) -> Result<String, Memory> {
    let answer = answer_to_case(alloc, keys, case)?;
    Ok(format!(in alloc; "{case} => {answer}")?)
}

fn answer_to_case(alloc: Global, keys: RandomState, case: &str) -> Result<String, Memory> {
    let unfolded = replaced(alloc, case, '¶', "\n")?;
    let answer = match answer_unfolded(alloc, keys, unfolded.as_str()) {
        Ok(answer) => answer,
        Err(fault) => reason_text(alloc, &fault)?,
    };
    replaced(alloc, answer.as_str(), '\n', "¶")
}

/// The answer to a case as it is meant.
fn answer_unfolded(alloc: Global, keys: RandomState, case: &str) -> Result<String, ReasonFault> {
    match case.split_once(' ') {
        Some(("spell", text)) => coded(spelling_of(alloc, text)),
        Some(("word", text)) => coded(values_of(alloc, Kind::Quoted, text)),
        Some(("body", text)) => coded(values_of(alloc, Kind::Unquoted, text)),
        Some(("env", text)) => environment_after(alloc, keys, text),
        _ => Ok(String::from_str(alloc, "no case")?),
    }
}

/// What is refused by a code alone.
fn coded(answer: Result<String, TextFault>) -> Result<String, ReasonFault> {
    match answer {
        Ok(text) => Ok(text),
        Err(Fault::Because(code)) => Err(Fault::Because(Reason::Coded(code))),
        Err(Fault::Memory) => Err(Fault::Memory),
    }
}

/// A text in which a character is another text.
fn replaced(alloc: Global, text: &str, character: char, other: &str) -> Result<String, Memory> {
    let mut all = String::new(alloc);
    let mut is_first = true;
    for piece in text.split(character) {
        if !is_first {
            all.push_str(other)?;
        }
        is_first = false;
        all.push_str(piece)?;
    }
    Ok(all)
}
