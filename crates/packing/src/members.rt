// The members of a bundle as JSON.
ghost use Rattle.std.specs.Prelude.{◌≡◌, [], ◌∷◌, codes, IfOk, OnOk, option_map};
ghost use Rattle.hex.specs.Hex.{encode_lower};
ghost use Rattle.serde_json.specs.Data.{string, object, no_members, member};
ghost use Rattle.serde_json.specs.View.{view, members_view};
ghost use Rattle.trees.specs.Rows.{lent_rows};
ghost use Rattle.packing.specs.Packed.{files_members, members_beside, put_args, put_images, put_target, put_texts, put_values};
ghost use Rattle.packing.specs.Asked.{asked_of};
ghost use Rattle.packing.specs.PrivateImages.{image_rows};

use crate::PackOptions;
use entries::tree_to_json;
use paths::Path;
use plain::{Items, Memory, Text};
use serde_json::{Map, Value, json};
use std::alloc::Global;
use strict::put;
use trees::LentEntry;

/// The members of the bundle of these entries, with this Dockerfile, the target and the build arguments.
pub(crate) fn members_beside(
    alloc: Global,
    rows: &[(Path, LentEntry<'_>)],
    dockerfile: &[u8],
    options: PackOptions<'_>,
) -> Result<Map<String, Value>, Memory>
    ensures { IfOk result (λ members. members_view members.entries ≡ members_beside (lent_rows rows.now) dockerfile.now (asked_of options.entry).target (asked_of options.entry).args) }
{
    let mut members = files_members(alloc, rows, dockerfile)?;
    put_args(alloc, &mut members, options.args)?;
    put_target(alloc, &mut members, options.target)?;
    Ok(members)
}

/// Adds images, if there are any: each stands under its name.
pub(crate) fn put_images(
    alloc: Global,
    members: &mut Map<String, Value>,
    images: Items<(Text, Value)>,
) -> Result<(), Memory>
    ensures { OnOk result (members_view members.new.entries ≡ put_images (image_rows images) (members_view members.old.entries)) }
{
    if images.is_empty() {
        return Ok(());
    }
    let values = values_of(alloc, images)?;
    put(alloc, members, "images", Value::Object(values))
}

/// Images as the members of an object.
fn values_of(alloc: Global, images: Items<(Text, Value)>) -> Result<Map<String, Value>, Memory>
    ensures { IfOk result (λ members. members_view members.entries ≡ put_values (image_rows images) no_members) }
{
    let mut members = Map::new(alloc);
    for (name, value) in images.into_vec() {
        put(alloc, &mut members, name.as_str(), value)?;
    }
    Ok(members)
}

/// The members that each bundle has: its context and its Dockerfile.
fn files_members(
    alloc: Global,
    rows: &[(Path, LentEntry<'_>)],
    dockerfile: &[u8],
) -> Result<Map<String, Value>, Memory>
    ensures { IfOk result (λ members. members_view members.entries ≡ files_members (lent_rows rows.now) dockerfile.now) }
{
    let mut members = Map::new(alloc);
    put(alloc, &mut members, "context", tree_to_json(alloc, rows)?)?;
    put(
        alloc,
        &mut members,
        "dockerfile",
        dockerfile_value(alloc, dockerfile)?,
    )?;
    Ok(members)
}

/// The object of a Dockerfile, its bytes in hexadecimal.
fn dockerfile_value(alloc: Global, dockerfile: &[u8]) -> Result<Value, Memory>
    ensures { IfOk result (λ value. view value ≡ object (member (codes "hex") (string (encode_lower dockerfile.now)) no_members)) }
{
    let hex = hex::encode(alloc, dockerfile)?;
    Ok(json!(in alloc; {"hex": hex})?)
}

/// Adds the build arguments, if there are any.
fn put_args(
    alloc: Global,
    members: &mut Map<String, Value>,
    args: &[(Text, Text)],
) -> Result<(), Memory>
    ensures { OnOk result (members_view members.new.entries ≡ put_args args.now (members_view members.old.entries)) }
{
    if args.is_empty() {
        return Ok(());
    }
    let texts = texts_of(alloc, args)?;
    put(alloc, members, "args", Value::Object(texts))
}

/// Texts as the members of an object.
fn texts_of(alloc: Global, rows: &[(Text, Text)]) -> Result<Map<String, Value>, Memory>
    ensures { IfOk result (λ members. members_view members.entries ≡ put_texts rows.now no_members) }
{
    let mut members = Map::new(alloc);
    for (name, value) in rows {
        let text = Value::String(String::from_str(alloc, value.as_str())?);
        put(alloc, &mut members, name.as_str(), text)?;
    }
    Ok(members)
}

/// Adds the target, if there is one.
fn put_target(
    alloc: Global,
    members: &mut Map<String, Value>,
    target: Option<&str>,
) -> Result<(), Memory>
    ensures { OnOk result (members_view members.new.entries ≡ put_target (option_map (λ target. target.now) target.entry) (members_view members.old.entries)) }
{
    match target {
        Some(target) => {
            let text = Value::String(String::from_str(alloc, target)?);
            put(alloc, members, "target", text)
        }
        None => Ok(()),
    }
}
