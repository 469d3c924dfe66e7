// The lines of the Dockerfile that an operation comes from, beside what the operation says. Its address doesn't know them.
ghost use Rattle.std.specs.Prelude.{◌≡◌, IfOk};
ghost use Rattle.serde_json.specs.View.{view};
ghost use Rattle.llb.specs.Places.{AreLines};
ghost use Rattle.strict.specs.Gives.{Gives};
ghost use Rattle.strict.specs.Written.{list_data};
ghost use Rattle.definition.specs.Lines.{ascend, lines_in, unlined, line_data, lined, operation_in};

use plain::limits::MOST_LINE_NUMBER;
use plain::{Fault, Items, Memory};
use serde_json::Value;
use std::alloc::Global;
use strict::{NotRead, ReadFault, list_at, put};

/// Whether numbers are those of lines in ascending order, all after `low`.
fn ascend(low: u32, lines: &[u32]) -> bool
    ensures { result ≡ ascend low lines.now }
{
    let mut last = low;
    for line in lines {
        if *line <= last || *line > MOST_LINE_NUMBER {
            return false;
        }
        last = *line;
    }
    true
}

/// The lines that an operation says. `NotRead` where it says none, or they aren't numbers of lines in ascending order, each once.
#[tactic(auto, unfolding(crate::specs::Lines::lines_in))]
fn lines_in(alloc: Global, value: &Value) -> Result<Items<u32>, ReadFault>
    ensures { Gives result (lines_in (view value.now)) }
{
    let lines: Items<u32> = list_at(alloc, value, "places")?;
    if ascend(0, lines.as_slice()) {
        Ok(lines)
    } else {
        Err(Fault::Because(NotRead))
    }
}

/// An operation without its lines.
fn unlined(value: Value) -> Value
    ensures { view result ≡ unlined (view value) }
{
    match value {
        Value::Object(mut members) => {
            drop(members.remove("places"));
            Value::Object(members)
        }
        value => value,
    }
}

/// An operation and its lines, by whether operations have to say them. If it has to and doesn't, a value that is no operation stands for it.
pub(crate) fn operation_in(
    alloc: Global,
    says_lines: bool,
    value: Value,
) -> Result<(Value, Items<u32>), Memory>
    ensures operation { IfOk result (λ both. (view both.0, both.1) ≡ operation_in says_lines (view value)) }
    ensures lines { IfOk result (λ both. AreLines both.1) }
{
    if !says_lines {
        return Ok((value, Items::new(alloc)));
    }
    match lines_in(alloc, &value) {
        Ok(lines) => Ok((unlined(value), lines)),
        Err(Fault::Because(_)) => Ok((Value::Null, Items::new(alloc))),
        Err(Fault::Memory) => Err(Memory),
    }
}

/// The numbers of lines as JSON.
fn lines_value(alloc: Global, lines: &[u32]) -> Result<Value, Memory>
    ensures { IfOk result (λ v. view v ≡ list_data line_data lines.now) }
{
    let mut values = Vec::with_capacity(alloc, lines.len())?;
    for line in lines {
        values.push(Value::from(u64::from(*line)))?;
    }
    Ok(Value::Array(values))
}

/// An operation with its lines.
pub(crate) fn lined(alloc: Global, value: Value, lines: &[u32]) -> Result<Value, Memory>
    ensures { IfOk result (λ v. view v ≡ lined lines.now (view value)) }
{
    match value {
        Value::Object(mut members) => {
            let lines = lines_value(alloc, lines)?;
            put(alloc, &mut members, "places", lines)?;
            Ok(Value::Object(members))
        }
        value => Ok(value),
    }
}
