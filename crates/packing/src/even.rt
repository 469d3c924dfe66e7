// Whether JSON that is written is read again as it is.
ghost use Rattle.std.specs.Prelude.{◌≡◌};
ghost use Rattle.serde_json.specs.View.{view, items_view, members_view};
ghost use Rattle.packing.specs.PrivateImages.{even, items_even, members_even};

use serde_json::{Map, Value};

/// Whether a value has no number that isn't whole, and nests at most so deep.
#[cycle(even)]
pub(crate) fn is_even(value: &Value, most: usize) -> bool
    ensures { result ≡ even most (view value.now) }
{
    match value {
        Value::Null | Value::Bool(_) | Value::String(_) => true,
        Value::Number(number) => !number.is_f64(),
        Value::Array(values) => most != 0 && are_even(values.as_slice(), most - 1),
        Value::Object(members) => most != 0 && are_members_even(members, most - 1),
    }
}

/// Whether that holds of each of some values.
#[cycle(even)]
fn are_even(values: &[Value], most: usize) -> bool
    ensures { result ≡ items_even most (items_view values.now) }
{
    for value in values {
        if !is_even(value, most) {
            return false;
        }
    }
    true
}

/// Whether that holds of the value of each member.
#[cycle(even)]
fn are_members_even(members: &Map<String, Value>, most: usize) -> bool
    ensures { result ≡ members_even most (members_view members.now.entries) }
{
    for (_, value) in members.iter() {
        if !is_even(value, most) {
            return false;
        }
    }
    true
}
