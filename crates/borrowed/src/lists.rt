ghost use Rattle.std.specs.Prelude.{◌≡◌, IfOk};
ghost use Rattle.json.specs.Value.{members_view};
ghost use Rattle.serde_json.specs.Data.{no_members};
ghost use Rattle.strict.specs.Gives.{Gives};
ghost use Rattle.strict.specs.Strict.{members_in, rows_in};
ghost use Rattle.borrowed.specs.Seen.{data_of, seen_members};
ghost use Rattle.borrowed.specs.PrivateRows.{rows_data};

use crate::reading::{FromLent, FromLentKeyed};
use json::Value;
use plain::{Fault, Items, Memory, Text};
use std::alloc::Global;
use std::collections::BTreeMap;
use std::hash::RandomState;
use strict::{NotRead, ReadFault};

/// The keys of an object with their values, which are of one kind, in the order of the keys' bytes; of a key that stands twice the last
/// value counts. `NotRead` where it is no object, or one of the values that count isn't of this kind.
#[tactic(auto, unfolding(strict::specs::Strict::rows_in))]
pub fn read_rows<T: FromLent>(
    alloc: Global,
    value: &Value<'_>,
) -> Result<Items<(Text, T)>, ReadFault>
    ensures { Gives result (rows_in T.reading (data_of value.now)) }
{
    let Value::Object(members) = value else {
        return Err(Fault::Because(NotRead));
    };
    let sorted = sort_members(alloc, members.as_slice())?;
    read_members(alloc, &sorted)
}

/// The same of values whose names are found by a hash with these keys.
#[tactic(auto, unfolding(strict::specs::Strict::rows_in))]
pub fn keyed_rows<T: FromLentKeyed>(
    alloc: Global,
    keys: RandomState,
    value: &Value<'_>,
) -> Result<Items<(Text, T)>, ReadFault>
    ensures { Gives result (rows_in T.reading (data_of value.now)) }
{
    let Value::Object(members) = value else {
        return Err(Fault::Because(NotRead));
    };
    let sorted = sort_members(alloc, members.as_slice())?;
    keyed_members(alloc, keys, &sorted)
}

/// An object's members in the order of their keys, of each key the last.
fn sort_members<'v, 'a>(
    alloc: Global,
    members: &'v [(&'a str, Value<'a>)],
) -> Result<BTreeMap<&'a str, &'v Value<'a>>, Memory>
    ensures { IfOk result (λ m. rows_data m.entries ≡ seen_members (members_view members.now) no_members) }
{
    let mut sorted = BTreeMap::new(alloc);
    for member in members {
        sorted.insert(member.0, &member.1)?;
    }
    Ok(sorted)
}

/// What each of an object's members is, with its key.
fn read_members<T: FromLent>(
    alloc: Global,
    members: &BTreeMap<&str, &Value<'_>>,
) -> Result<Items<(Text, T)>, ReadFault>
    ensures { Gives result (members_in T.reading (rows_data members.now.entries)) }
{
    let mut rows = Items::new(alloc);
    for (key, value) in members.iter() {
        let key = Text::from_str(alloc, key)?;
        let value = T::from_lent(alloc, value)?;
        rows.push((key, value))?;
    }
    Ok(rows)
}

/// The same of values whose names are found by a hash with these keys.
fn keyed_members<T: FromLentKeyed>(
    alloc: Global,
    keys: RandomState,
    members: &BTreeMap<&str, &Value<'_>>,
) -> Result<Items<(Text, T)>, ReadFault>
    ensures { Gives result (members_in T.reading (rows_data members.now.entries)) }
{
    let mut rows = Items::new(alloc);
    for (key, value) in members.iter() {
        let key = Text::from_str(alloc, key)?;
        let value = T::from_lent_keyed(alloc, keys, value)?;
        rows.push((key, value))?;
    }
    Ok(rows)
}
