ghost use Rattle.std.specs.Prelude.{◌≡◌, bytes_eq, map, is_some};
ghost use Rattle.std.specs.List.{list_any};
ghost use Rattle.std.specs.Option.{option_and_then};
ghost use Rattle.serde_json.specs.View.{view, members_view, items_view};
ghost use Rattle.serde_json.specs.Find.{get};
ghost use Rattle.strict.specs.Gives.{Gives};
ghost use Rattle.strict.specs.Strict.{has_only, strict, all_in, list_in, members_in, rows_in, path_in, path_of, short_number_in};

use crate::{NotRead, ReadFault};
use paths::Path;
use plain::{Fault, Items, Text};
use serde_json::{Map, Value};
use std::alloc::Global;

/// Values of a kind that is read from JSON.
pub trait FromJson: Sized + Drop {
    ghost use Rattle.std.specs.Prelude.{Option};
    ghost use Rattle.serde_json.specs.Data.{Data};

    ghost reading: { Data → Option Self };

    /// What a value is. `NotRead` where it is nothing of this kind.
    fn from_json(alloc: Global, value: &Value) -> Result<Self, ReadFault>
        ensures { Gives result (reading (view value.now)) };
}

impl FromJson for Text {
    ghost use Rattle.serde_json.specs.Find.{as_str};

    ghost reading = { as_str };

    fn from_json(alloc: Global, value: &Value) -> Result<Text, ReadFault> {
        let Some(text) = value.as_str() else {
            return Err(Fault::Because(NotRead));
        };
        Ok(Text::from_str(alloc, text)?)
    }
}

impl FromJson for bool {
    ghost use Rattle.serde_json.specs.Find.{as_bool};

    ghost reading = { as_bool };

    fn from_json(_alloc: Global, value: &Value) -> Result<bool, ReadFault> {
        match value.as_bool() {
            Some(flag) => Ok(flag),
            None => Err(Fault::Because(NotRead)),
        }
    }
}

impl FromJson for u32 {
    ghost use Rattle.strict.specs.Strict.{short_number_in};

    ghost reading = { short_number_in };

    #[tactic(auto, unfolding(crate::specs::Strict::short_number_in))]
    fn from_json(_alloc: Global, value: &Value) -> Result<u32, ReadFault> {
        let Some(number) = value.as_u64() else {
            return Err(Fault::Because(NotRead));
        };
        if number >= 1 << 32 {
            return Err(Fault::Because(NotRead));
        }
        Ok(number as u32)
    }
}

impl FromJson for Path {
    ghost use Rattle.strict.specs.Strict.{path_in};

    ghost reading = { path_in };

    /// A path whose text is already clean.
    #[tactic(auto, unfolding(crate::specs::Strict::path_in))]
    fn from_json(alloc: Global, value: &Value) -> Result<Path, ReadFault> {
        let Some(text) = value.as_str() else {
            return Err(Fault::Because(NotRead));
        };
        read_path(alloc, text)
    }
}

/// The path that a text is. `NotRead` where it is none, or its text isn't clean, absolute and within the limits.
pub fn read_path(alloc: Global, text: &str) -> Result<Path, ReadFault>
    ensures { Gives result (path_of text.now) }
{
    match Path::from_text(alloc, text)? {
        Some(path) => {
            let _clean = path.components();
            Ok(path)
        }
        None => Err(Fault::Because(NotRead)),
    }
}

/// Whether a value is an object with no other keys than these.
pub fn is_strict(value: &Value, keys: &[&str]) -> bool
    ensures { result ≡ is_some (strict (map (λ k. k.now) keys.now) (view value.now)) }
{
    match value.as_object() {
        Some(members) => has_only(members, keys),
        None => false,
    }
}

/// Whether an object has no other keys than these.
fn has_only(members: &Map<String, Value>, keys: &[&str]) -> bool
    ensures { result ≡ has_only (λ key. list_any (λ known. bytes_eq known key) (map (λ k. k.now) keys.now)) (members_view members.now.entries) }
{
    for (key, _) in members.iter() {
        if !is_among(keys, key.as_str()) {
            return false;
        }
    }
    true
}

/// Whether a key is one of these.
pub fn is_among(keys: &[&str], key: &str) -> bool
    ensures { result ≡ list_any (λ known. bytes_eq known key.now) (map (λ k. k.now) keys.now) }
{
    is_one_of(keys, key)
}

/// Whether a key is one of these, said of the keys as they are lent.
fn is_one_of(keys: &[&str], key: &str) -> bool
    ensures { result ≡ list_any (λ known. bytes_eq known.now key.now) keys.now }
{
    keys.iter().any(|known| *known == key)
}

/// What stands at a key. `NotRead` where nothing does, or nothing of this kind.
pub fn one_at<T: FromJson>(alloc: Global, value: &Value, key: &str) -> Result<T, ReadFault>
    ensures { Gives result (option_and_then T.reading (get key.now (view value.now))) }
{
    match value.get(key) {
        Some(value) => T::from_json(alloc, value),
        None => Err(Fault::Because(NotRead)),
    }
}

/// A list of values of one kind. `NotRead` where it is no list, or one of its values isn't of this kind.
#[tactic(auto, unfolding(crate::specs::Strict::list_in))]
pub fn read_list<T: FromJson>(alloc: Global, value: &Value) -> Result<Items<T>, ReadFault>
    ensures { Gives result (list_in T.reading (view value.now)) }
{
    let Some(values) = value.as_array() else {
        return Err(Fault::Because(NotRead));
    };
    read_items(alloc, values.as_slice())
}

/// What each of some values is.
fn read_items<T: FromJson>(alloc: Global, values: &[Value]) -> Result<Items<T>, ReadFault>
    ensures { Gives result (all_in T.reading (items_view values.now)) }
{
    let mut items = Items::new(alloc);
    for value in values {
        items.push(T::from_json(alloc, value)?)?;
    }
    Ok(items)
}

/// A list of values of one kind, which stands at a key. `NotRead` where nothing does, and where `read_list` answers it.
#[tactic(auto, unfolding(crate::specs::Strict::list_in))]
pub fn list_at<T: FromJson>(alloc: Global, value: &Value, key: &str) -> Result<Items<T>, ReadFault>
    ensures { Gives result (option_and_then (list_in T.reading) (get key.now (view value.now))) }
{
    match value.get(key) {
        Some(value) => read_list(alloc, value),
        None => Err(Fault::Because(NotRead)),
    }
}

/// The keys of an object with their values, which are of one kind, in the order of the keys' bytes. `NotRead` where it is no object, or one
/// of its values isn't of this kind.
#[tactic(auto, unfolding(crate::specs::Strict::rows_in))]
pub fn read_rows<T: FromJson>(alloc: Global, value: &Value) -> Result<Items<(Text, T)>, ReadFault>
    ensures { Gives result (rows_in T.reading (view value.now)) }
{
    let Some(members) = value.as_object() else {
        return Err(Fault::Because(NotRead));
    };
    read_members(alloc, members)
}

/// What each of an object's members is, with its key.
fn read_members<T: FromJson>(
    alloc: Global,
    members: &Map<String, Value>,
) -> Result<Items<(Text, T)>, ReadFault>
    ensures { Gives result (members_in T.reading (members_view members.now.entries)) }
{
    let mut rows = Items::new(alloc);
    for (key, value) in members.iter() {
        let key = Text::from_str(alloc, key.as_str())?;
        let value = T::from_json(alloc, value)?;
        rows.push((key, value))?;
    }
    Ok(rows)
}
