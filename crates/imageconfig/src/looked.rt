// JSON that is read, of either kind: lent, as a part of a text is, or held as a value of its own. What is read is said of the data that both kinds stand for, so
// one reader serves both.

ghost use Rattle.std.specs.Prelude.{◌≡◌, Some, map, option_map, is_some, IfOk};
ghost use Rattle.serde_json.specs.Data.{Data};
ghost use Rattle.serde_json.specs.Find.{get, as_null, as_str, as_array, as_object};
ghost use Rattle.serde_json.specs.View.{items_of};
ghost use Rattle.strict.specs.Gives.{Gives};
ghost use Rattle.strict.specs.Strict.{strict, rows_in};
ghost use Rattle.imageconfig.specs.Reading.{keys_in};

use borrowed::FromLent;
use json::Value as Lent;
use plain::{Items, Memory, Text};
use serde_json::Value as Owned;
use std::alloc::Global;
use strict::{FromJson, ReadFault};

/// JSON that is looked into.
pub(crate) trait Looked: Sized {
    /// The data that it stands for.
    ghost meaning: { Self → Data };

    /// What stands at a key of an object; of what is no object there is nothing.
    fn at(&self, key: &str) -> Option<&Self>
        ensures { option_map (λ v. meaning v.now) result ≡ get key.now (meaning self.now) };

    /// Whether it is null.
    fn is_null(&self) -> bool
        ensures { result ≡ is_some (as_null (meaning self.now)) };

    /// Whether it is an object.
    fn is_object(&self) -> bool
        ensures { result ≡ is_some (as_object (meaning self.now)) };

    /// The text that it is.
    fn text(&self) -> Option<&str>
        ensures { option_map (λ s. s.now) result ≡ as_str (meaning self.now) };

    /// The values of a list.
    fn list(&self) -> Option<&[Self]>
        ensures { option_map (λ vs. items_of (map meaning vs.now)) result ≡ as_array (meaning self.now) };

    /// Whether it is an object with no other keys than these.
    fn is_strict(&self, keys: &[&str]) -> bool
        ensures { result ≡ is_some (strict (map (λ k. k.now) keys.now) (meaning self.now)) };

    /// An object's keys with their values, which are texts, in the order of the keys' bytes.
    fn text_rows(&self, alloc: Global) -> Result<Items<(Text, Text)>, ReadFault>
        ensures { Gives result (rows_in as_str (meaning self.now)) };

    /// An object's keys, whatever their values are, in the order of their bytes.
    fn keys(&self, alloc: Global) -> Result<Items<Text>, ReadFault>
        ensures { Gives result (keys_in (meaning self.now)) };
}

impl<'a> Looked for Lent<'a> {
    ghost use Rattle.borrowed.specs.Seen.{data_of};

    ghost meaning = { data_of };

    fn at(&self, key: &str) -> Option<&Lent<'a>> {
        borrowed::at(self, key)
    }

    fn is_null(&self) -> bool {
        borrowed::is_null(self)
    }

    fn is_object(&self) -> bool {
        matches!(self, Lent::Object(_))
    }

    fn text(&self) -> Option<&str> {
        borrowed::text_of(self)
    }

    fn list(&self) -> Option<&[Lent<'a>]> {
        borrowed::list_of(self)
    }

    fn is_strict(&self, keys: &[&str]) -> bool {
        borrowed::is_strict(self, keys)
    }

    fn text_rows(&self, alloc: Global) -> Result<Items<(Text, Text)>, ReadFault> {
        borrowed::read_rows(alloc, self)
    }

    fn keys(&self, alloc: Global) -> Result<Items<Text>, ReadFault> {
        match borrowed::read_rows(alloc, self) {
            Ok(rows) => Ok(keys_of(alloc, rows)?),
            Err(fault) => Err(fault),
        }
    }
}

impl Looked for Owned {
    ghost use Rattle.serde_json.specs.View.{view};

    ghost meaning = { view };

    fn at(&self, key: &str) -> Option<&Owned> {
        self.get(key)
    }

    fn is_null(&self) -> bool {
        self.is_null()
    }

    fn is_object(&self) -> bool {
        self.is_object()
    }

    fn text(&self) -> Option<&str> {
        self.as_str()
    }

    fn list(&self) -> Option<&[Owned]> {
        match self.as_array() {
            Some(values) => Some(values.as_slice()),
            None => None,
        }
    }

    fn is_strict(&self, keys: &[&str]) -> bool {
        strict::is_strict(self, keys)
    }

    fn text_rows(&self, alloc: Global) -> Result<Items<(Text, Text)>, ReadFault> {
        strict::read_rows(alloc, self)
    }

    fn keys(&self, alloc: Global) -> Result<Items<Text>, ReadFault> {
        match strict::read_rows(alloc, self) {
            Ok(rows) => Ok(keys_of(alloc, rows)?),
            Err(fault) => Err(fault),
        }
    }
}

/// A value that is forgotten.
#[derive(Drop)]
struct Forgotten;

impl FromLent for Forgotten {
    ghost reading = { λ d. Some (record {}) };

    fn from_lent(_alloc: Global, _value: &Lent<'_>) -> Result<Forgotten, ReadFault> {
        Ok(Forgotten)
    }
}

impl FromJson for Forgotten {
    ghost reading = { λ d. Some (record {}) };

    fn from_json(_alloc: Global, _value: &Owned) -> Result<Forgotten, ReadFault> {
        Ok(Forgotten)
    }
}

/// The keys of rows, in their order.
fn keys_of(alloc: Global, rows: Items<(Text, Forgotten)>) -> Result<Items<Text>, Memory>
    ensures { IfOk result (λ keys. keys ≡ map (λ row. row.0) rows) }
{
    let mut keys = Items::new(alloc);
    for (key, _) in rows.into_vec() {
        keys.push(key)?;
    }
    Ok(keys)
}
