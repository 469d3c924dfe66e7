// An object that is written member by member.
//
// Each call takes the members that there are and hands them on, so at no `?` of a caller anything is left to be let go, which a proof would
// walk part by part.

ghost use Rattle.std.specs.Prelude.{◌≡◌, IfOk};
ghost use Rattle.std.specs.List.{AllByRecursion};
ghost use Rattle.paths.specs.Path.{IsClean};
ghost use Rattle.serde_json.specs.Data.{string, put};
ghost use Rattle.serde_json.specs.View.{view, members_view};
ghost use Rattle.strict.specs.Written.{list_data};
ghost use Rattle.operations.specs.Texts.{path_data};

use crate::lists::{Writable, parts_value};
use paths::Path;
use plain::{Memory, Text};
use serde_json::{Map, Value};
use std::alloc::Global;
use strict::{list_to_json, put};

/// The members with a value at a key.
pub(crate) fn with(
    alloc: Global,
    members: Map<String, Value>,
    key: &str,
    value: Value,
) -> Result<Map<String, Value>, Memory>
    ensures { IfOk result (λ all. members_view all.entries ≡ put key.now (view value) (members_view members.entries)) }
{
    let mut members = members;
    match put(alloc, &mut members, key, value) {
        Ok(()) => Ok(members),
        Err(memory) => {
            drop(members);
            Err(memory)
        }
    }
}

/// The members with a text at a key.
pub(crate) fn with_text(
    alloc: Global,
    members: Map<String, Value>,
    key: &str,
    text: &str,
) -> Result<Map<String, Value>, Memory>
    ensures { IfOk result (λ all. members_view all.entries ≡ put key.now (string text.now) (members_view members.entries)) }
{
    match String::from_str(alloc, text) {
        Ok(text) => with(alloc, members, key, Value::String(text)),
        Err(_) => {
            drop(members);
            Err(Memory)
        }
    }
}

/// The members with a list of texts at a key.
pub(crate) fn with_texts(
    alloc: Global,
    members: Map<String, Value>,
    key: &str,
    texts: &[Text],
) -> Result<Map<String, Value>, Memory>
    ensures { IfOk result (λ all. members_view all.entries ≡ put key.now (list_data string texts.now) (members_view members.entries)) }
{
    match list_to_json(alloc, texts) {
        Ok(texts) => with(alloc, members, key, texts),
        Err(memory) => {
            drop(members);
            Err(memory)
        }
    }
}

/// A path by its text.
fn path_to_json(alloc: Global, path: &Path) -> Result<Value, Memory>
    ensures data { IfOk result (λ v. view v ≡ path_data path.now) }
    ensures clean { IsClean path.now }
{
    let _clean = path.components();
    Ok(Value::String(path.text(alloc)?.into_string(alloc)?))
}

/// The members with a path at a key, by its text.
pub(crate) fn with_path(
    alloc: Global,
    members: Map<String, Value>,
    key: &str,
    path: &Path,
) -> Result<Map<String, Value>, Memory>
    ensures data { IfOk result (λ all. members_view all.entries ≡ put key.now (path_data path.now) (members_view members.entries)) }
    ensures clean { IsClean path.now }
{
    match path_to_json(alloc, path) {
        Ok(path) => with(alloc, members, key, path),
        Err(memory) => {
            drop(members);
            Err(memory)
        }
    }
}

/// The members with a list of parts at a key.
pub(crate) fn with_parts<T: Writable>(
    alloc: Global,
    members: Map<String, Value>,
    key: &str,
    parts: &[T],
) -> Result<Map<String, Value>, Memory>
    ensures data { IfOk result (λ all. members_view all.entries ≡ put key.now (list_data T.written parts.now) (members_view members.entries)) }
    ensures proper { IfOk result (λ _. AllByRecursion T.proper parts.now) }
{
    match parts_value(alloc, parts) {
        Ok(parts) => with(alloc, members, key, parts),
        Err(memory) => {
            drop(members);
            Err(memory)
        }
    }
}
