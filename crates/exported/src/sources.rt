// Trees that no operation makes.

ghost use Rattle.std.specs.Prelude.{◌≡◌, [], ◌∷◌, ◌++◌, IfOk, None, Some, codes};
ghost use Rattle.std.specs.String.{string_bytes};
ghost use Rattle.wire.specs.Maps.{IsAfter};
ghost use Rattle.llbmessages.specs.declared.op.OpKind.TheVariants.{Source as SourceKind};
ghost use Rattle.exported.specs.Names.{pinned_name};
ghost use Rattle.exported.specs.Operations.{op_on};
ghost use Rattle.exported.specs.Sources.{image_source, exclude_entries, with_follows, context_entries, context_source};

use crate::names::pinned_name;
use crate::operations::{op_for, op_for_any};
use llbmessages::{Op, OpKind, Platform, SourceOp};
use named::NamedRows;
use plain::{Fault, Memory, Text};
use std::alloc::Global;
use wire::{Map, Unordered};

/// How BuildKit is told of an image.
fn identifier(alloc: Global, digests: &NamedRows<Text>, name: &Text) -> Result<String, Memory>
    ensures { IfOk result (λ text. string_bytes text ≡ codes "docker-image://" ++ pinned_name digests.now name.now) }
{
    let name = pinned_name(alloc, digests, name)?;
    let mut text = String::from_str(alloc, "docker-image://")?;
    text.push_str(name.as_str())?;
    Ok(text)
}

/// The operation of an image. Its name is pinned by its digest among these, unless it has one itself.
#[tactic(auto, unfolding(crate::specs::Sources::image_source))]
pub fn image_op(
    alloc: Global,
    platform: &Platform,
    digests: &NamedRows<Text>,
    name: &Text,
) -> Result<Op, Memory>
    ensures { IfOk result (λ op. op ≡ op_on (Some platform.now) [] (SourceKind (image_source (pinned_name digests.now name.now)))) }
{
    let identifier = Text::from_string(identifier(alloc, digests, name)?);
    let attrs = Map::new(alloc);
    let source = SourceOp { identifier, attrs };
    op_for(alloc, platform, &[], OpKind::Source(source))
}

/// An attribute.
fn attribute(alloc: Global, key: &str, value: &str) -> Result<(Text, Text), Memory>
    ensures { IfOk result (λ entry. entry ≡ (key.now, value.now)) }
{
    let key = Text::from_str(alloc, key)?;
    match Text::from_str(alloc, value) {
        Ok(value) => Ok((key, value)),
        Err(memory) => {
            drop(key);
            Err(memory)
        }
    }
}

/// The attributes with one more.
fn with_attribute(
    alloc: Global,
    attrs: Map<Text>,
    key: &str,
    value: &str,
) -> Result<Map<Text>, Memory>
    requires { IsAfter key.now attrs }
    ensures { IfOk result (λ more. more ≡ attrs ++ (key.now, value.now) ∷ []) }
{
    let mut attrs = attrs;
    let (key, value) = attribute(alloc, key, value)?;
    match attrs.push(key, value) {
        Ok(()) => Ok(attrs),
        Err(Fault::Because(Unordered)) => unreachable!(),
        Err(Fault::Memory) => Err(Memory),
    }
}

/// The attribute of patterns, if there are some.
fn excluding(alloc: Global, excludes: &Option<Text>) -> Result<Map<Text>, Memory>
    ensures { IfOk result (λ attrs. attrs ≡ exclude_entries excludes.now) }
{
    match excludes {
        None => Ok(Map::new(alloc)),
        Some(patterns) => {
            with_attribute(
                alloc,
                Map::new(alloc),
                "local.excludepatterns",
                patterns.as_str(),
            )
        }
    }
}

/// The attributes of patterns: of what isn't given, and of what alone is, if there are some.
fn choosing(
    alloc: Global,
    excludes: &Option<Text>,
    follows: &Option<Text>,
) -> Result<Map<Text>, Memory>
    ensures { IfOk result (λ attrs. attrs ≡ with_follows follows.now (exclude_entries excludes.now)) }
{
    let attrs = excluding(alloc, excludes)?;
    match follows {
        None => Ok(attrs),
        Some(patterns) => with_attribute(alloc, attrs, "local.followpaths", patterns.as_str()),
    }
}

/// The attributes of the files that a build is given.
fn context_attributes(
    alloc: Global,
    unique: &str,
    excludes: &Option<Text>,
    follows: &Option<Text>,
) -> Result<Map<Text>, Memory>
    ensures { IfOk result (λ attrs. attrs ≡ context_entries unique.now excludes.now follows.now) }
{
    let attrs = choosing(alloc, excludes, follows)?;
    let attrs = with_attribute(alloc, attrs, "local.sharedkeyhint", "context")?;
    with_attribute(alloc, attrs, "local.unique", unique)
}

/// The operation of the files that a build is given, without those of some patterns, a JSON list, and of the others only those of some other
/// patterns. Builds that may run at the same time with other files take another `unique` each.
#[tactic(auto, unfolding(crate::specs::Sources::context_source))]
pub fn context_op(
    alloc: Global,
    unique: &str,
    excludes: &Option<Text>,
    follows: &Option<Text>,
) -> Result<Op, Memory>
    ensures { IfOk result (λ op. op ≡ op_on None [] (SourceKind (context_source unique.now excludes.now follows.now))) }
{
    let attrs = context_attributes(alloc, unique, excludes, follows)?;
    match Text::from_str(alloc, "local://context") {
        Ok(identifier) => op_for_any(alloc, &[], OpKind::Source(SourceOp { identifier, attrs })),
        Err(memory) => {
            drop(attrs);
            Err(memory)
        }
    }
}
