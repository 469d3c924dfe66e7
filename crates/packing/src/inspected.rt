// The configuration of an image that `docker image inspect` printed, where it stands at keys of its own.
ghost use Rattle.std.specs.Prelude.{◌≡◌, codes, option_map, IfOk};
ghost use Rattle.std.specs.Option.{option_and_then};
ghost use Rattle.serde_json.specs.Find.{get};
ghost use Rattle.serde_json.specs.View.{view};
ghost use Rattle.borrowed.specs.Lent.{items_data};
ghost use Rattle.borrowed.specs.Seen.{data_of};
ghost use Rattle.packing.specs.Images.{config_data, inspected, only_item, root_data};
ghost use Rattle.packing.specs.PrivateImages.{GivesJson};

use borrowed::{at, owned};
use json::Value as Lent;
use plain::{Fault, Memory};
use serde_json::{Map, Value};
use std::alloc::Global;
use strict::{NotRead, ReadFault, put};

/// A list's only value, if it has just one.
#[tactic(auto, using(crate::proofs::ImageFacts::only_of_one, crate::proofs::ImageFacts::only_of_others))]
pub(crate) fn only_one<'v, 'a>(values: &'v [Lent<'a>]) -> Option<&'v Lent<'a>>
    ensures { option_map (λ v. data_of v.now) result ≡ only_item (items_data values.now) }
{
    match values {
        [value] => Some(value),
        _ => None,
    }
}

/// The configuration of the only image in a list. `NotRead` where there is none, or not one alone.
pub(crate) fn config_of_list(alloc: Global, values: &[Lent<'_>]) -> Result<Value, ReadFault>
    ensures { GivesJson result (option_and_then inspected (only_item (items_data values.now))) }
{
    match only_one(values) {
        Some(value) => config_inspected(alloc, value),
        None => Err(Fault::Because(NotRead)),
    }
}

/// The configuration of an image that was inspected.
#[tactic(auto, using(crate::proofs::ImageFacts::tells_architecture, crate::proofs::ImageFacts::tells_inner_config, crate::proofs::ImageFacts::tells_os, crate::proofs::ImageFacts::tells_layers, crate::proofs::ImageFacts::gives_inspected))]
fn config_inspected(alloc: Global, value: &Lent<'_>) -> Result<Value, ReadFault>
    ensures { GivesJson result (inspected (data_of value.now)) }
{
    let architecture = owned_at(alloc, value, "Architecture")?;
    let config = owned_at(alloc, value, "Config")?;
    let os = owned_at(alloc, value, "Os")?;
    let layers = layers_inspected(alloc, value)?;
    Ok(config_value(alloc, architecture, config, os, layers)?)
}

/// A copy of what stands at a key. `NotRead` where nothing does.
fn owned_at(alloc: Global, value: &Lent<'_>, key: &str) -> Result<Value, ReadFault>
    ensures { GivesJson result (get key.now (data_of value.now)) }
{
    match at(value, key) {
        Some(value) => Ok(owned(alloc, value)?),
        None => Err(Fault::Because(NotRead)),
    }
}

/// The layers of an image that was inspected.
fn layers_inspected(alloc: Global, value: &Lent<'_>) -> Result<Value, ReadFault>
    ensures { GivesJson result (option_and_then (get (codes "Layers")) (get (codes "RootFS") (data_of value.now))) }
{
    match at(value, "RootFS") {
        Some(root) => owned_at(alloc, root, "Layers"),
        None => Err(Fault::Because(NotRead)),
    }
}

/// The object of a configuration.
fn config_value(
    alloc: Global,
    architecture: Value,
    config: Value,
    os: Value,
    layers: Value,
) -> Result<Value, Memory>
    ensures { IfOk result (λ value. view value ≡ config_data (view architecture) (view config) (view os) (view layers)) }
{
    let mut members = Map::new(alloc);
    put(alloc, &mut members, "architecture", architecture)?;
    put(alloc, &mut members, "config", config)?;
    put(alloc, &mut members, "os", os)?;
    put(alloc, &mut members, "rootfs", root_value(alloc, layers)?)?;
    Ok(Value::Object(members))
}

/// The object of a configuration's layers.
fn root_value(alloc: Global, layers: Value) -> Result<Value, Memory>
    ensures { IfOk result (λ value. view value ≡ root_data (view layers)) }
{
    let mut members = Map::new(alloc);
    put(alloc, &mut members, "diff_ids", layers)?;
    let kind = Value::String(String::from_str(alloc, "layers")?);
    put(alloc, &mut members, "type", kind)?;
    Ok(Value::Object(members))
}
