// What is said of an operation beside its bytes.

ghost use Rattle.std.specs.Prelude.{◌≡◌, ◌∷◌, ◌++◌, [], IfOk, Some, codes};
ghost use Rattle.std.specs.String.{string_bytes};
ghost use Rattle.exported.specs.Names.{whole_name};
ghost use Rattle.exported.specs.Metadata.{source_name, vertex_name, description_of, metadata_of, some_described, end_metadata};

use crate::capabilities::{end_caps, kind_caps, with_cap};
use crate::making::text_at;
use crate::names::whole_name;
use llb::{Op as Work, Source};
use llbmessages::{Op, OpMetadata};
use plain::{Exact, Fault, Memory, Text};
use std::alloc::Global;
use std::collections::BTreeMap;
use wire::{Map, Unordered};

/// What progress calls an image.
fn image_name(alloc: Global, name: &str) -> Result<String, Memory>
    ensures { IfOk result (λ text. string_bytes text ≡ codes "FROM " ++ whole_name name.now) }
{
    let name = whole_name(alloc, name)?;
    let mut text = String::from_str(alloc, "FROM ")?;
    text.push_str(name.as_str())?;
    Ok(text)
}

/// What progress calls a source.
fn source_name(alloc: Global, source: &Source) -> Result<Option<Text>, Memory>
    ensures { IfOk result (λ name. name ≡ source_name source.now) }
{
    match source {
        Source::Scratch => Ok(None),
        Source::Context => Ok(Some(Text::from_str(alloc, "[internal] load build context")?)),
        Source::Image(name) => Ok(Some(Text::from_string(image_name(alloc, name.as_str())?))),
    }
}

/// What progress calls a vertex, of which `line` is the least line.
pub(crate) fn vertex_name(
    alloc: Global,
    names: &[Option<Text>],
    line: u32,
    work: &Work,
) -> Result<Option<Text>, Memory>
    ensures { IfOk result (λ name. name ≡ vertex_name names.now line work.now) }
{
    match work {
        Work::Source(source) => source_name(alloc, source),
        Work::Exec(_) | Work::Copy(_) | Work::MakeDirs(_) | Work::Merge => {
            text_at(alloc, names, line as usize)
        }
    }
}

/// A map of one text.
fn described(alloc: Global, key: &str, text: &Text) -> Result<Map<Text>, Memory>
    ensures { IfOk result (λ map. map ≡ (key.now, text.now) ∷ []) }
{
    let key = Text::from_str(alloc, key)?;
    match text.copy(alloc) {
        Ok(text) => {
            let mut map = Map::new(alloc);
            match map.push(key, text) {
                Ok(()) => Ok(map),
                Err(Fault::Because(Unordered)) => unreachable!(),
                Err(Fault::Memory) => Err(Memory),
            }
        }
        Err(memory) => {
            drop(key);
            Err(memory)
        }
    }
}

/// The description of an operation of this name.
fn description_of(alloc: Global, name: &Option<Text>) -> Result<Map<Text>, Memory>
    ensures { IfOk result (λ description. description ≡ description_of name.now) }
{
    match name {
        None => Ok(Map::new(alloc)),
        Some(name) => described(alloc, "llb.customname", name),
    }
}

/// What is said of an operation of this name.
#[tactic(auto, unfolding(crate::specs::Metadata::metadata_of))]
pub(crate) fn metadata_of(alloc: Global, name: &Option<Text>, op: &Op) -> Result<OpMetadata, Memory>
    ensures { IfOk result (λ said. said ≡ metadata_of name.now op.now) }
{
    let caps = Map::from_sorted(alloc, kind_caps(alloc, &op.kind)?)?;
    match description_of(alloc, name) {
        Ok(description) => Ok(OpMetadata {
            ignore_cache: false,
            description,
            caps,
        }),
        Err(memory) => {
            drop(caps);
            Err(memory)
        }
    }
}

/// Whether some operation is described.
fn some_described(metadata: &BTreeMap<Text, OpMetadata>) -> bool
    ensures { result ≡ some_described metadata.now.entries }
{
    for (_, said) in metadata.iter() {
        if !said.description.entries().is_empty() {
            return true;
        }
    }
    false
}

/// What is said of the end, after operations of which this is said.
#[tactic(auto, unfolding(crate::specs::Metadata::end_metadata))]
pub(crate) fn end_metadata(
    alloc: Global,
    metadata: &BTreeMap<Text, OpMetadata>,
) -> Result<OpMetadata, Memory>
    ensures { IfOk result (λ said. said ≡ end_metadata metadata.now.entries) }
{
    let caps = end_caps(alloc)?;
    let caps = with_cap(alloc, caps, some_described(metadata), "meta.description")?;
    let caps = Map::from_sorted(alloc, caps)?;
    Ok(OpMetadata {
        ignore_cache: false,
        description: Map::new(alloc),
        caps,
    })
}
