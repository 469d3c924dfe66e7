ghost use Rattle.std.specs.Prelude.{◌≡◌, IfOk};
ghost use Rattle.serde_json.specs.View.{view};
ghost use Rattle.bundle.specs.Answer.{failed_data, coded_data, required_data, refused_data, failed_text, refused_text};

use expand::{Reason, Rejection};
use plain::{Code, Memory, Text};
use serde_json::{Value, json};
use std::alloc::Global;
use trees::Cause;

/// The answer of a build in which the instruction on this line failed with this cause.
pub fn failed_answer(alloc: Global, line: u32, cause: Cause) -> Result<Text, Memory>
    ensures { IfOk result (λ text. text ≡ failed_text line cause) }
{
    let answer = failed_value(alloc, line, cause)?;
    let text = answer.to_string(alloc)?;
    Ok(Text::from_string(text))
}

/// The answer for an input that is refused; by R21 with the text that the line is refused with.
pub fn refused_answer(alloc: Global, refusal: &Rejection) -> Result<Text, Memory>
    ensures { IfOk result (λ text. text ≡ refused_text refusal.now) }
{
    let answer = refused_value(alloc, refusal)?;
    let text = answer.to_string(alloc)?;
    Ok(Text::from_string(text))
}

/// The answer of a build in which an instruction failed, as JSON.
#[tactic(auto, unfolding(crate::specs::Answer::failed_data))]
fn failed_value(alloc: Global, line: u32, cause: Cause) -> Result<Value, Memory>
    ensures { IfOk result (λ v. view v ≡ failed_data line cause) }
{
    let line = u64::from(line);
    let name = cause.to_string(alloc)?;
    Ok(json!(in alloc; {"cause": name, "line": line, "result": "failed"})?)
}

/// The answer for an input that is refused, as JSON.
fn refused_value(alloc: Global, refusal: &Rejection) -> Result<Value, Memory>
    ensures { IfOk result (λ v. view v ≡ refused_data refusal.now) }
{
    match &refusal.reason {
        Reason::Coded(code) => coded_value(alloc, *code, refusal.line),
        Reason::Required(text) => required_value(alloc, text, refusal.line),
    }
}

/// The answer for an input that is refused by a code alone, as JSON.
#[tactic(auto, unfolding(crate::specs::Answer::coded_data))]
fn coded_value(alloc: Global, code: Code, line: u32) -> Result<Value, Memory>
    ensures { IfOk result (λ v. view v ≡ coded_data code line) }
{
    let line = u64::from(line);
    let name = code.to_string(alloc)?;
    Ok(json!(in alloc; {"code": name, "line": line, "result": "refused"})?)
}

/// The answer for an input with a variable that is required, as JSON.
#[tactic(auto, unfolding(crate::specs::Answer::required_data))]
fn required_value(alloc: Global, text: &Text, line: u32) -> Result<Value, Memory>
    ensures { IfOk result (λ v. view v ≡ required_data text.now line) }
{
    let line = u64::from(line);
    let text = String::from_str(alloc, text.as_str())?;
    Ok(json!(in alloc; {"code": "R21", "line": line, "result": "refused", "text": text})?)
}
