ghost use Rattle.std.specs.Prelude.{◌≡◌, [], false, IfOk};
ghost use Rattle.std.specs.String.{string_bytes};
ghost use Rattle.serde_json.specs.View.{view};
ghost use Rattle.serde_json.specs.Written.{has_float};
ghost use Rattle.plain.specs.Codes.{code_text};
ghost use Rattle.sentences.specs.Json.{json_line, place_data, place_line, pointed_data, refusal_data, data_with, written_line};
ghost use Rattle.sentences.specs.Showing.{pointer_of};
ghost use Rattle.sentences.specs.Subject.{subject_of};
ghost use Rattle.sentences.specs.Table.{remedy, sentence};

use crate::{Message, Subject, remedy, sentence};
use plain::{Code, Memory};
use serde_json::{Value, json};
use std::alloc::{AllocError, Global};

/// A refusal as JSON, by its parts.
#[tactic(auto, unfolding(crate::specs::Json::refusal_data))]
fn refusal_value(
    alloc: Global,
    code: &str,
    file: &str,
    line: u32,
    message: &Message,
    text: &str,
) -> Result<Value, AllocError>
    ensures { IfOk result (λ v. view v ≡ refusal_data code.now file.now line message.now text.now) }
{
    let line = u64::from(line);
    let wrong = message.wrong.as_str();
    let helps = message.helps.as_str();
    json!(in alloc; {"code": code, "file": file, "line": line, "message": wrong, "remedy": helps, "text": text})
}

/// The same of a refusal that is about a word of its line, which begins in this column.
#[tactic(auto, unfolding(crate::specs::Json::pointed_data))]
fn pointed_value(
    alloc: Global,
    column: usize,
    word: &str,
    code: &str,
    file: &str,
    line: u32,
    message: &Message,
    text: &str,
) -> Result<Value, AllocError>
    ensures { IfOk result (λ v. view v ≡ pointed_data (column, word.now) code.now file.now line message.now text.now) }
{
    let line = u64::from(line);
    let column = column as u64;
    let wrong = message.wrong.as_str();
    let helps = message.helps.as_str();
    json!(in alloc; {"code": code, "column": column, "file": file, "line": line, "message": wrong, "remedy": helps, "text": text, "word": word})
}

/// A refusal as JSON, by its parts, with the word that it is about, if there is one.
fn value_with(
    alloc: Global,
    pointed: Option<(usize, &str)>,
    code: &str,
    file: &str,
    line: u32,
    message: &Message,
    text: &str,
) -> Result<Value, AllocError>
    ensures { IfOk result (λ v. view v ≡ data_with (pointer_of pointed.entry) code.now file.now line message.now text.now) }
{
    match pointed {
        None => refusal_value(alloc, code, file, line, message, text),
        Some((column, word)) => pointed_value(alloc, column, word, code, file, line, message, text),
    }
}

/// A value as a line of compact JSON, with the LF that ends it.
fn written_line(alloc: Global, value: Value) -> Result<String, Memory>
    ensures { IfOk result (λ text. has_float (view value) ≡ false → string_bytes text ≡ written_line (view value)) }
{
    let written = value.to_string(alloc);
    drop(value);
    let mut written = written?;
    written.push_str("\n")?;
    Ok(written)
}

/// What a program reads of a refusal by this code of the file of this name, of the line of this number, with what is said of it: one line of compact
/// JSON, with the LF that ends it. Its keys are `code`, `file`, `line`, `message`, `remedy` and `text`. If a word of the text is `pointed` at, which is
/// given after its column, there are the keys `column` and `word` too.
pub fn json_line(
    alloc: Global,
    file: &str,
    code: &str,
    number: u32,
    message: &Message,
    text: &str,
    pointed: Option<(usize, &str)>,
) -> Result<String, Memory>
    ensures { IfOk result (λ line. string_bytes line ≡ json_line file.now code.now number message.now text.now (pointer_of pointed.entry)) }
{
    let value = value_with(alloc, pointed, code, file, number, message, text)?;
    written_line(alloc, value)
}

/// A refusal that is about a place in a file, as JSON, by its parts.
#[tactic(auto, unfolding(crate::specs::Json::place_data))]
fn place_value(
    alloc: Global,
    code: String,
    file: &str,
    message: &str,
    place: &str,
    helps: &str,
) -> Result<Value, AllocError>
    ensures { IfOk result (λ v. view v ≡ place_data (string_bytes code) file.now message.now place.now helps.now) }
{
    json!(in alloc; {"code": code, "file": file, "line": 0u64, "message": message, "place": place, "remedy": helps, "text": ""})
}

/// The same, with what is said of its code.
fn value_at(alloc: Global, file: &str, code: Code, place: &str) -> Result<Value, AllocError>
    ensures { IfOk result (λ v. view v ≡ place_data (code_text code) file.now (sentence code (subject_of [])) place.now (remedy code (subject_of []))) }
{
    let subject = Subject::of_line("");
    let named = code.to_string(alloc)?;
    place_value(
        alloc,
        named,
        file,
        sentence(code, subject),
        place,
        remedy(code, subject),
    )
}

/// What a program reads of a refusal of the file of this name that is about no line but about a place in the file: the line of `json_line`, with the
/// key `place` too.
pub fn place_line(alloc: Global, file: &str, code: Code, place: &str) -> Result<String, Memory>
    ensures { IfOk result (λ text. string_bytes text ≡ place_line file.now code place.now) }
{
    let value = value_at(alloc, file, code, place)?;
    written_line(alloc, value)
}
