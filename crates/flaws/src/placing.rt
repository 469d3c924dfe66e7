ghost use Rattle.std.specs.Prelude.{◌≡◌, IfOk};
ghost use Rattle.std.specs.String.{string_bytes};
ghost use Rattle.serde_json.specs.Data.{string};
ghost use Rattle.serde_json.specs.Written.{compact_text};
ghost use Rattle.flaws.specs.Places.{step_text, way_head, way_text, place_text};

use crate::flaw::{Flaw, Step};
use ascii::is_name;
use plain::{Memory, Text};
use serde_json::Value;
use std::alloc::Global;

/// A text as JSON.
fn quoted(alloc: Global, text: &str) -> Result<String, Memory>
    ensures { IfOk result (λ written. string_bytes written ≡ compact_text (string text.now)) }
{
    let value = Value::String(String::from_str(alloc, text)?);
    let written = value.to_string(alloc);
    drop(value);
    Ok(written?)
}

/// One step of a way.
fn step_text(alloc: Global, step: &Step) -> Result<String, Memory>
    ensures { IfOk result (λ text. string_bytes text ≡ step_text step.now) }
{
    match step {
        Step::Key(key) => {
            let key = key.as_str();
            if is_name(key.as_bytes()) {
                return Ok(format!(in alloc; ".{key}")?);
            }
            let key = quoted(alloc, key)?;
            Ok(format!(in alloc; "[{key}]")?)
        }
        Step::Item(place) => Ok(format!(in alloc; "[{place}]")?),
    }
}

/// What stands before a way.
fn way_head(way: &[Step]) -> &'static str
    ensures { result.now ≡ way_head way.now }
{
    match way {
        [] => ".",
        [Step::Key(key), ..] => if is_name(key.as_str().as_bytes()) {
            ""
        } else {
            "."
        },
        [Step::Item(_), ..] => ".",
    }
}

/// A way into a bundle.
fn way_text(alloc: Global, way: &[Step]) -> Result<String, Memory>
    ensures { IfOk result (λ text. string_bytes text ≡ way_text way.now) }
{
    let mut text = String::from_str(alloc, way_head(way))?;
    for step in way {
        let step = step_text(alloc, step)?;
        text.push_str(step.as_str())?;
    }
    Ok(text)
}

/// Where a bundle is wrong, as it is shown: a place in its JSON as jq takes it, such as `.images["node:20"].tree[3].mode`, and else in a few words, such
/// as `not UTF-8 after 17 bytes`.
pub fn place_text(alloc: Global, flaw: &Flaw) -> Result<Text, Memory>
    ensures { IfOk result (λ text. text ≡ place_text flaw.now) }
{
    let text = match flaw {
        Flaw::TooLong => String::from_str(alloc, "too long")?,
        Flaw::NoText(after) => format!(in alloc; "not UTF-8 after {after} bytes")?,
        Flaw::NoJson => String::from_str(alloc, "not JSON")?,
        Flaw::At(way) => way_text(alloc, way.as_slice())?,
    };
    Ok(Text::from_string(text))
}
