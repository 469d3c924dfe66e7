ghost use Rattle.std.specs.Prelude.{◌≡◌, option_map, bytes_eq, map, is_some};
ghost use Rattle.std.specs.List.{list_any};
ghost use Rattle.json.specs.Value.{members_view};
ghost use Rattle.serde_json.specs.Data.{no_members};
ghost use Rattle.serde_json.specs.Find.{get, as_null, as_str, as_array};
ghost use Rattle.strict.specs.Strict.{has_only, strict};
ghost use Rattle.borrowed.specs.Seen.{data_of, seen_members};
ghost use Rattle.borrowed.specs.Lent.{items_data};

use crate::numbers::read_number;
use json::Value;
use strict::is_among;

/// What stands at a key of an object: of several, the last. Of what is no object there is nothing.
pub fn at<'v, 'a>(value: &'v Value<'a>, key: &str) -> Option<&'v Value<'a>>
    ensures { option_map (λ v. data_of v.now) result ≡ get key.now (data_of value.now) }
{
    value.get(key)
}

/// Whether a value is null, as a number that is out of range is seen to be.
pub fn is_null(value: &Value<'_>) -> bool
    ensures { result ≡ is_some (as_null (data_of value.now)) }
{
    match value {
        Value::Null => true,
        Value::Number(text) => read_number(text).is_none(),
        _ => false,
    }
}

/// The text that a value is.
pub fn text_of<'a>(value: &Value<'a>) -> Option<&'a str>
    ensures { option_map (λ s. s.now) result ≡ as_str (data_of value.now) }
{
    value.as_str()
}

/// The values of a list.
pub fn list_of<'v, 'a>(value: &'v Value<'a>) -> Option<&'v [Value<'a>]>
    ensures { option_map (λ vs. items_data vs.now) result ≡ as_array (data_of value.now) }
{
    match value {
        Value::Array(values) => Some(values.as_slice()),
        _ => None,
    }
}

/// Whether a value is an object with no other keys than these.
pub fn is_strict(value: &Value<'_>, keys: &[&str]) -> bool
    ensures { result ≡ is_some (strict (map (λ k. k.now) keys.now) (data_of value.now)) }
{
    match value {
        Value::Object(members) => has_only(members.as_slice(), keys),
        _ => false,
    }
}

/// Whether an object has no other keys than these.
fn has_only(members: &[(&str, Value<'_>)], keys: &[&str]) -> bool
    ensures { result ≡ has_only (λ key. list_any (λ known. bytes_eq known key) (map (λ k. k.now) keys.now)) (seen_members (members_view members.now) no_members) }
{
    for member in members {
        if !is_among(keys, member.0) {
            return false;
        }
    }
    true
}
