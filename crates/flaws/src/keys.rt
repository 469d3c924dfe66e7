// The keys of an object.

ghost use Rattle.std.specs.Prelude.{◌≡◌, IfOk, map};
ghost use Rattle.bundle.specs.Parts.{is_image_name};
ghost use Rattle.borrowed.specs.Seen.{data_of};
ghost use Rattle.flaws.specs.Looks.{first_key, keys as keys_flaw, is_among, no_other};

use crate::flaw::Step;
use crate::looking::{Look, Looked, to_key};
use borrowed::{is_strict, keyed_rows};
use json::Value;
use plain::{Fault, Items, Memory, Text};
use std::alloc::Global;
use std::hash::RandomState;
use strict::is_among;

/// Values of any kind.
struct Any;

impl Look for Any {
    ghost use Rattle.std.specs.Prelude.{None};

    ghost looks = { λ d. None };

    fn look(
        _alloc: Global,
        _keys: RandomState,
        _value: &Value<'_>,
    ) -> Result<Option<Items<Step>>, Memory> {
        Ok(None)
    }
}

/// Whether a key is one of these.
#[tactic(auto, unfolding(crate::specs::Looks::is_among))]
fn is_known(known: &[&str], key: &str) -> bool
    ensures { result ≡ is_among (map (λ k. k.now) known.now) key.now }
{
    is_among(known, key)
}

/// The way to the first key that is none of these.
fn first_other<L>(
    alloc: Global,
    rows: &[(Text, Looked<L>)],
    known: &[&str],
) -> Result<Option<Items<Step>>, Memory>
    ensures { IfOk result (λ found. found ≡ first_key (is_among (map (λ k. k.now) known.now)) (map (λ row. row.0) rows.now)) }
{
    for row in rows {
        let key = row.0.as_str();
        if !is_known(known, key) {
            return Ok(Some(to_key(alloc, key)?));
        }
    }
    Ok(None)
}

/// Where an object is wrong that may have these keys alone: the first other one, if it has one.
#[tactic(auto, using(crate::proofs::RowFacts::strict_keys))]
pub(crate) fn no_other(
    alloc: Global,
    keys: RandomState,
    value: &Value<'_>,
    known: &[&str],
) -> Result<Option<Items<Step>>, Memory>
    ensures { IfOk result (λ found. found ≡ no_other (map (λ k. k.now) known.now) (data_of value.now)) }
{
    if is_strict(value, known) {
        return Ok(None);
    }
    match keyed_rows::<Looked<Any>>(alloc, keys, value) {
        Ok(rows) => first_other(alloc, rows.as_slice(), known),
        Err(Fault::Because(_)) => Ok(Some(Items::new(alloc))),
        Err(Fault::Memory) => Err(Memory),
    }
}

/// Whether an image may have this name.
fn is_image_name(name: &str) -> bool
    ensures { result ≡ is_image_name name.now }
{
    !name.is_empty() && name != "scratch"
}

/// The way to the first key that no image may have as its name.
fn first_bad_name<L>(
    alloc: Global,
    rows: &[(Text, Looked<L>)],
) -> Result<Option<Items<Step>>, Memory>
    ensures { IfOk result (λ found. found ≡ first_key is_image_name (map (λ row. row.0) rows.now)) }
{
    for row in rows {
        let key = row.0.as_str();
        if !is_image_name(key) {
            return Ok(Some(to_key(alloc, key)?));
        }
    }
    Ok(None)
}

/// Where an object is wrong whose keys are the names of images: the first that is none.
pub(crate) fn image_names(
    alloc: Global,
    keys: RandomState,
    value: &Value<'_>,
) -> Result<Option<Items<Step>>, Memory>
    ensures { IfOk result (λ found. found ≡ keys_flaw is_image_name (data_of value.now)) }
{
    match keyed_rows::<Looked<Any>>(alloc, keys, value) {
        Ok(rows) => first_bad_name(alloc, rows.as_slice()),
        Err(Fault::Because(_)) => Ok(Some(Items::new(alloc))),
        Err(Fault::Memory) => Err(Memory),
    }
}
