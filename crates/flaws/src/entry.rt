// How an entry of a tree is looked at, and a list of entries.

ghost use Rattle.std.specs.Prelude.{◌≡◌, IfOk, codes, is_some};
ghost use Rattle.std.specs.List.{list_all};
ghost use Rattle.serde_json.specs.Find.{get};
ghost use Rattle.borrowed.specs.Seen.{data_of};
ghost use Rattle.entries.specs.Reading.{is_octal, mode_of};
ghost use Rattle.flaws.specs.Flaws.{content_place, content_flaw, is_mark, meta_flaw, directory_flaw, file_flaw, entry_flaw};

use crate::flaw::Step;
use crate::keys::no_other;
use crate::looking::{Look, items, optional, read_as, required, to_key};
use borrowed::{FromLent, at, text_of};
use entries::{Listing, read_content};
use json::Value;
use paths::Path;
use plain::{Fault, Items, Memory};
use std::alloc::Global;
use std::hash::RandomState;

/// Whether a character is a digit from 0 to 7.
fn is_octal(digit: u8) -> bool
    ensures { result ≡ is_octal digit }
{
    b'0' <= digit && digit <= b'7'
}

/// Whether all characters are digits from 0 to 7.
fn are_octal(digits: &[u8]) -> bool
    ensures { result ≡ list_all is_octal digits.now }
{
    digits.iter().all(|digit| is_octal(*digit))
}

/// Whether a text is four octal digits, as a mode is.
fn is_mode(text: &str) -> bool
    ensures { result ≡ is_some (mode_of text.now) }
{
    let digits = text.as_bytes();
    if digits.len() != 4 || !are_octal(digits) {
        return false;
    }
    true
}

/// A mode.
struct ModeText;

impl Look for ModeText {
    ghost use Rattle.entries.specs.Reading.{mode_in};
    ghost use Rattle.flaws.specs.Looks.{read_as};

    ghost looks = { read_as mode_in };

    #[tactic(auto, unfolding(entries::specs::Reading::mode_in))]
    fn look(
        alloc: Global,
        _keys: RandomState,
        value: &Value<'_>,
    ) -> Result<Option<Items<Step>>, Memory> {
        let Some(text) = text_of(value) else {
            return Ok(Some(Items::new(alloc)));
        };
        if is_mode(text) {
            Ok(None)
        } else {
            Ok(Some(Items::new(alloc)))
        }
    }
}

/// The mark of a directory.
struct Mark;

impl Look for Mark {
    ghost use Rattle.flaws.specs.Looks.{whole};
    ghost use Rattle.flaws.specs.Flaws.{is_mark};

    ghost looks = { whole is_mark };

    fn look(
        alloc: Global,
        _keys: RandomState,
        value: &Value<'_>,
    ) -> Result<Option<Items<Step>>, Memory> {
        match bool::from_lent(alloc, value) {
            Ok(true) => Ok(None),
            Ok(false) | Err(Fault::Because(_)) => Ok(Some(Items::new(alloc))),
            Err(Fault::Memory) => Err(Memory),
        }
    }
}

/// A path.
struct PathText;

impl Look for PathText {
    ghost use Rattle.strict.specs.Strict.{path_in};
    ghost use Rattle.flaws.specs.Looks.{read_as};

    ghost looks = { read_as path_in };

    fn look(
        alloc: Global,
        _keys: RandomState,
        value: &Value<'_>,
    ) -> Result<Option<Items<Step>>, Memory> {
        read_as::<Path>(alloc, value)
    }
}

/// The number of a user or a group.
struct Owner;

impl Look for Owner {
    ghost use Rattle.strict.specs.Strict.{short_number_in};
    ghost use Rattle.flaws.specs.Looks.{read_as};

    ghost looks = { read_as short_number_in };

    fn look(
        alloc: Global,
        _keys: RandomState,
        value: &Value<'_>,
    ) -> Result<Option<Items<Step>>, Memory> {
        read_as::<u32>(alloc, value)
    }
}

/// Where in an object bytes are wrong that can't be read.
fn content_place(alloc: Global, value: &Value<'_>) -> Result<Items<Step>, Memory>
    ensures { IfOk result (λ way. way ≡ content_place (get (codes "text") (data_of value.now)) (get (codes "hex") (data_of value.now))) }
{
    match (at(value, "text"), at(value, "hex")) {
        (Some(_), None) => to_key(alloc, "text"),
        (None, Some(_)) => to_key(alloc, "hex"),
        (None, None) => Ok(Items::new(alloc)),
        (Some(_), Some(_)) => Ok(Items::new(alloc)),
    }
}

/// Where the bytes are wrong that stand in an object.
pub(crate) fn content(alloc: Global, value: &Value<'_>) -> Result<Option<Items<Step>>, Memory>
    ensures { IfOk result (λ found. found ≡ content_flaw (data_of value.now)) }
{
    match read_content(alloc, value) {
        Ok(bytes) => {
            drop(bytes);
            Ok(None)
        }
        Err(Fault::Because(_)) => Ok(Some(content_place(alloc, value)?)),
        Err(Fault::Memory) => Err(Memory),
    }
}

/// Where the mode or the owner of an entry is wrong.
fn meta(alloc: Global, keys: RandomState, value: &Value<'_>) -> Result<Option<Items<Step>>, Memory>
    ensures { IfOk result (λ found. found ≡ meta_flaw (data_of value.now)) }
{
    if let Some(way) = optional::<ModeText>(alloc, keys, value, "mode")? {
        return Ok(Some(way));
    }
    if let Some(way) = optional::<Owner>(alloc, keys, value, "uid")? {
        return Ok(Some(way));
    }
    optional::<Owner>(alloc, keys, value, "gid")
}

/// Where a directory with its path is wrong.
fn directory(
    alloc: Global,
    keys: RandomState,
    value: &Value<'_>,
) -> Result<Option<Items<Step>>, Memory>
    ensures { IfOk result (λ found. found ≡ directory_flaw (data_of value.now)) }
{
    if let Some(way) = no_other(alloc, keys, value, &["dir", "gid", "mode", "path", "uid"])? {
        return Ok(Some(way));
    }
    if let Some(way) = required::<Mark>(alloc, keys, value, "dir")? {
        return Ok(Some(way));
    }
    if let Some(way) = required::<PathText>(alloc, keys, value, "path")? {
        return Ok(Some(way));
    }
    meta(alloc, keys, value)
}

/// Where a file with its path is wrong.
fn file(alloc: Global, keys: RandomState, value: &Value<'_>) -> Result<Option<Items<Step>>, Memory>
    ensures { IfOk result (λ found. found ≡ file_flaw (data_of value.now)) }
{
    if let Some(way) = no_other(
        alloc,
        keys,
        value,
        &["gid", "hex", "mode", "path", "text", "uid"],
    )? {
        return Ok(Some(way));
    }
    if let Some(way) = required::<PathText>(alloc, keys, value, "path")? {
        return Ok(Some(way));
    }
    if let Some(way) = meta(alloc, keys, value)? {
        return Ok(Some(way));
    }
    content(alloc, value)
}

/// An entry with its path.
struct EntryObject;

impl Look for EntryObject {
    ghost use Rattle.flaws.specs.Flaws.{entry_flaw};

    ghost looks = { entry_flaw };

    fn look(
        alloc: Global,
        keys: RandomState,
        value: &Value<'_>,
    ) -> Result<Option<Items<Step>>, Memory> {
        match at(value, "dir") {
            Some(_) => directory(alloc, keys, value),
            None => file(alloc, keys, value),
        }
    }
}

/// A list of a tree's entries.
pub(crate) struct EntryList;

impl Look for EntryList {
    ghost use Rattle.flaws.specs.Flaws.{listing_flaw};

    ghost looks = { listing_flaw };

    fn look(
        alloc: Global,
        keys: RandomState,
        value: &Value<'_>,
    ) -> Result<Option<Items<Step>>, Memory> {
        match items::<EntryObject>(alloc, keys, value)? {
            Some(way) => Ok(Some(way)),
            None => read_as::<Listing>(alloc, value),
        }
    }
}
