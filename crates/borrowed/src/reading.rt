ghost use Rattle.std.specs.Prelude.{◌≡◌};
ghost use Rattle.std.specs.Option.{option_and_then};
ghost use Rattle.serde_json.specs.Find.{get};
ghost use Rattle.strict.specs.Gives.{Gives};
ghost use Rattle.strict.specs.Strict.{at_most_one};
ghost use Rattle.borrowed.specs.Seen.{data_of};
ghost use Rattle.borrowed.specs.Lent.{lent_data};

use crate::looking::{at, text_of};
use crate::numbers::whole_number_of;
use json::Value;
use paths::Path;
use plain::{Fault, Text};
use std::alloc::Global;
use std::hash::RandomState;
use strict::{NotRead, ReadFault, read_path};

/// Values of a kind that is read from JSON that is lent.
pub trait FromLent: Sized + Drop {
    ghost use Rattle.std.specs.Prelude.{Option};
    ghost use Rattle.serde_json.specs.Data.{Data};

    ghost reading: { Data → Option Self };

    /// What a value is. `NotRead` where it is nothing of this kind.
    fn from_lent(alloc: Global, value: &Value<'_>) -> Result<Self, ReadFault>
        ensures { Gives result (reading (data_of value.now)) };
}

/// Values of a kind that is read from JSON that is lent, and whose names are found by a hash with keys of the caller's.
pub trait FromLentKeyed: Sized + Drop {
    ghost use Rattle.std.specs.Prelude.{Option};
    ghost use Rattle.serde_json.specs.Data.{Data};

    ghost reading: { Data → Option Self };

    /// What a value is. `NotRead` where it is nothing of this kind.
    fn from_lent_keyed(
        alloc: Global,
        keys: RandomState,
        value: &Value<'_>,
    ) -> Result<Self, ReadFault>
        ensures { Gives result (reading (data_of value.now)) };
}

impl FromLent for Text {
    ghost use Rattle.serde_json.specs.Find.{as_str};

    ghost reading = { as_str };

    fn from_lent(alloc: Global, value: &Value<'_>) -> Result<Text, ReadFault> {
        let Some(text) = text_of(value) else {
            return Err(Fault::Because(NotRead));
        };
        Ok(Text::from_str(alloc, text)?)
    }
}

impl FromLent for bool {
    ghost use Rattle.serde_json.specs.Find.{as_bool};

    ghost reading = { as_bool };

    fn from_lent(_alloc: Global, value: &Value<'_>) -> Result<bool, ReadFault> {
        match value.as_bool() {
            Some(flag) => Ok(flag),
            None => Err(Fault::Because(NotRead)),
        }
    }
}

impl FromLent for u32 {
    ghost use Rattle.strict.specs.Strict.{short_number_in};

    ghost reading = { short_number_in };

    #[tactic(auto, unfolding(strict::specs::Strict::short_number_in))]
    fn from_lent(_alloc: Global, value: &Value<'_>) -> Result<u32, ReadFault> {
        let Some(number) = whole_number_of(value) else {
            return Err(Fault::Because(NotRead));
        };
        if number >= 1 << 32 {
            return Err(Fault::Because(NotRead));
        }
        Ok(number as u32)
    }
}

impl FromLent for Path {
    ghost use Rattle.strict.specs.Strict.{path_in};

    ghost reading = { path_in };

    /// A path whose text is already clean.
    #[tactic(auto, unfolding(strict::specs::Strict::path_in))]
    fn from_lent(alloc: Global, value: &Value<'_>) -> Result<Path, ReadFault> {
        let Some(text) = text_of(value) else {
            return Err(Fault::Because(NotRead));
        };
        read_path(alloc, text)
    }
}

/// What a value is, which has to be there. `NotRead` where it is missing, and where it is nothing of this kind.
pub fn one_of<T: FromLent>(alloc: Global, value: Option<&Value<'_>>) -> Result<T, ReadFault>
    ensures { Gives result (option_and_then T.reading (lent_data value.entry)) }
{
    match value {
        Some(value) => T::from_lent(alloc, value),
        None => Err(Fault::Because(NotRead)),
    }
}

/// What a value is that has to be there. `NotRead` where there is none, or nothing of this kind.
pub fn keyed_of<T: FromLentKeyed>(
    alloc: Global,
    keys: RandomState,
    value: Option<&Value<'_>>,
) -> Result<T, ReadFault>
    ensures { Gives result (option_and_then T.reading (lent_data value.entry)) }
{
    match value {
        Some(value) => T::from_lent_keyed(alloc, keys, value),
        None => Err(Fault::Because(NotRead)),
    }
}

/// What a value is, if there is one. `NotRead` where it is nothing of this kind, as `null` may be.
pub fn optional_of<T: FromLent>(
    alloc: Global,
    value: Option<&Value<'_>>,
) -> Result<Option<T>, ReadFault>
    ensures { Gives result (at_most_one T.reading (lent_data value.entry)) }
{
    match value {
        Some(value) => Ok(Some(T::from_lent(alloc, value)?)),
        None => Ok(None),
    }
}

/// What stands at a key. `NotRead` where nothing does, or nothing of this kind.
pub fn one_at<T: FromLent>(alloc: Global, value: &Value<'_>, key: &str) -> Result<T, ReadFault>
    ensures { Gives result (option_and_then T.reading (get key.now (data_of value.now))) }
{
    one_of(alloc, at(value, key))
}

/// What stands at a key that may be missing. `NotRead` where something stands there that is nothing of this kind, as `null` may be.
pub fn optional_at<T: FromLent>(
    alloc: Global,
    value: &Value<'_>,
    key: &str,
) -> Result<Option<T>, ReadFault>
    ensures { Gives result (at_most_one T.reading (get key.now (data_of value.now))) }
{
    optional_of(alloc, at(value, key))
}
