// What is wrong with a mount of a RUN, by what is written of it.
ghost use Rattle.std.specs.Prelude.{◌≡◌, map, option_map, IfOk};
ghost use Rattle.std.specs.List.{list_any};
ghost use Rattle.std.specs.Option.{option_copied};
ghost use Rattle.std.specs.String.{string_bytes};
ghost use Rattle.meant.specs.Mounts.{key_of, value_in, value_of_item, key_name, is_of_bind, is_of_cache, fits, takes, has_name, fault_valued, fault_named, fault_in, first_kind, faulty, first_faulty, faulty_item, is_bind, line_binds, has_bind, target_among, target_of, is_wrong_mount, wrong_among, wrong_mount};

use crate::sources::{parts, value_of};
use ascii::{first_piece, split_at_blanks};
use lines::is_flag;
use plain::{Memory, Text};
use std::alloc::Global;
use words::pair;

/// What is wrong with an item of a mount.
#[derive(Clone, Copy)]
pub enum ItemFault {
    /// No mount has its key.
    UnknownKey,
    /// It is a key alone, which needs a value.
    NoValue,
    /// A mount of the other type has its key.
    OtherType,
    /// Its value is no type of a mount.
    UnknownType,
    /// Its key doesn't take its value.
    WrongValue,
    /// Its key stands in an item before it.
    Twice,
}

/// The key of an item, as it is written.
pub(crate) fn key_of(item: &str) -> &str
    ensures { result.now ≡ key_of item.now }
{
    match pair(item) {
        Some((key, _)) => key,
        None => item,
    }
}

/// The value of an item, if it has one.
fn value_in(item: &str) -> Option<&str>
    ensures { option_map (λ value. value.now) result ≡ value_in item.now }
{
    match pair(item) {
        Some((_, value)) => Some(value),
        None => None,
    }
}

/// The value of an item, empty if it has none.
pub(crate) fn value_of_item(item: &str) -> &str
    ensures { result.now ≡ value_of_item item.now }
{
    match value_in(item) {
        Some(value) => value,
        None => "",
    }
}

/// The name of a key that mounts have, which may be written in several ways.
#[tactic(auto, unfolding(crate::specs::Mounts::key_name))]
fn key_name(key: &str) -> Option<&'static str>
    ensures { option_copied result ≡ key_name key.now }
{
    if key == "target" || key == "dst" || key == "destination" {
        return Some("target");
    }
    if key == "rw" || key == "readwrite" {
        return Some("rw");
    }
    if key == "type" {
        return Some("type");
    }
    if key == "source" {
        return Some("source");
    }
    if key == "from" {
        return Some("from");
    }
    if key == "id" {
        return Some("id");
    }
    if key == "sharing" {
        return Some("sharing");
    }
    None
}

/// Whether a bind alone has the key of this name.
#[tactic(auto, unfolding(crate::specs::Mounts::is_of_bind))]
fn is_of_bind(name: &str) -> bool
    ensures { result ≡ is_of_bind name.now }
{
    name == "source" || name == "from" || name == "rw"
}

/// Whether a cache alone has it.
#[tactic(auto, unfolding(crate::specs::Mounts::is_of_cache))]
fn is_of_cache(name: &str) -> bool
    ensures { result ≡ is_of_cache name.now }
{
    name == "id" || name == "sharing"
}

/// Whether a cache, else a bind, has it.
fn fits(cache: bool, name: &str) -> bool
    ensures { result ≡ fits cache name.now }
{
    if cache {
        !is_of_bind(name)
    } else {
        !is_of_cache(name)
    }
}

/// Whether the key of this name takes a value.
#[tactic(auto, unfolding(crate::specs::Mounts::takes))]
fn takes(name: &str, value: &str) -> bool
    ensures { result ≡ takes name.now value.now }
{
    if name == "type" {
        return value == "bind" || value == "cache";
    }
    if name == "rw" {
        return value == "true" || value == "false";
    }
    if name == "sharing" {
        return value == "shared" || value == "private" || value == "locked";
    }
    !value.is_empty()
}

/// Whether the key of an item has this name.
#[tactic(auto, unfolding(crate::specs::Mounts::has_name))]
fn has_name(name: &str, item: &str) -> bool
    ensures { result ≡ has_name name.now item.now }
{
    match key_name(key_of(item)) {
        Some(other) => other == name,
        None => false,
    }
}

/// Whether one of these items has a key of this name.
fn have_name(name: &str, items: &[&str]) -> bool
    ensures { result ≡ list_any (has_name name.now) (map (λ item. item.now) items.now) }
{
    for item in items {
        if has_name(name, *item) {
            return true;
        }
    }
    false
}

/// What is wrong with an item whose key has this name and this value, after these.
#[tactic(auto, unfolding(crate::specs::Mounts::fault_valued))]
fn fault_valued(cache: bool, before: &[&str], name: &str, value: &str) -> Option<ItemFault>
    ensures { result ≡ fault_valued cache (map (λ item. item.now) before.now) name.now value.now }
{
    if name == "type" && !takes(name, value) {
        return Some(ItemFault::UnknownType);
    }
    if !fits(cache, name) {
        return Some(ItemFault::OtherType);
    }
    if !takes(name, value) {
        return Some(ItemFault::WrongValue);
    }
    if have_name(name, before) {
        return Some(ItemFault::Twice);
    }
    None
}

/// The same by the value, if there is one: `rw` alone is `rw=true`.
fn fault_named(cache: bool, before: &[&str], name: &str, value: Option<&str>) -> Option<ItemFault>
    ensures { result ≡ fault_named cache (map (λ item. item.now) before.now) name.now (option_copied value.entry) }
{
    match value {
        Some(value) => fault_valued(cache, before, name, value),
        None => {
            if name == "rw" {
                fault_valued(cache, before, name, "true")
            } else {
                Some(ItemFault::NoValue)
            }
        }
    }
}

/// What is wrong with an item of a cache, else of a bind, after these.
#[tactic(auto, unfolding(crate::specs::Mounts::fault_in))]
fn fault_in(cache: bool, before: &[&str], item: &str) -> Option<ItemFault>
    ensures { result ≡ fault_in cache (map (λ it. it.now) before.now) item.now }
{
    match key_name(key_of(item)) {
        Some(name) => fault_named(cache, before, name, value_in(item)),
        None => Some(ItemFault::UnknownKey),
    }
}

/// Whether items are those of a cache: their first type is.
fn is_cache(items: &[&str]) -> bool
    ensures { result ≡ first_kind (map (λ item. item.now) items.now) }
{
    for item in items {
        if has_name("type", *item) {
            return match value_in(*item) {
                Some(value) => value == "cache",
                None => false,
            };
        }
    }
    false
}

/// The first item of a mount with which something is wrong.
#[derive(Drop)]
pub struct FaultyItem {
    /// What stands before it in its flag.
    pub front: Text,
    /// The item.
    pub item: Text,
    /// What is wrong with it.
    pub fault: ItemFault,
    /// Whether the mount is a cache, and no bind.
    pub is_cache: bool,
}

/// An item with what is wrong with it.
fn faulty(
    alloc: Global,
    is_cache: bool,
    front: String,
    item: &str,
    fault: ItemFault,
) -> Result<FaultyItem, Memory>
    ensures { IfOk result (λ found. found ≡ faulty is_cache (string_bytes front) item.now fault) }
{
    let item = Text::from_str(alloc, item)?;
    Ok(FaultyItem {
        front: Text::from_string(front),
        item,
        fault,
        is_cache,
    })
}

/// The first of these items of a flag `--mount` with which something is wrong, if there is one.
#[tactic(auto, unfolding(crate::specs::Mounts::first_faulty))]
fn first_faulty(alloc: Global, items: &[&str]) -> Result<Option<FaultyItem>, Memory>
    ensures { IfOk result (λ found. found ≡ first_faulty (map (λ item. item.now) items.now)) }
{
    let cache = is_cache(items);
    let mut front = String::from_str(alloc, "--mount=")?;
    let mut seen = Vec::new(alloc);
    for item in items {
        if let Some(fault) = fault_in(cache, seen.as_slice(), *item) {
            return Ok(Some(faulty(alloc, cache, front, *item, fault)?));
        }
        front.push_str(*item)?;
        front.push_str(",")?;
        seen.push(*item)?;
    }
    Ok(None)
}

/// The first item of a flag `--mount` with which something is wrong, if there is one.
#[tactic(auto, unfolding(crate::specs::Mounts::faulty_item))]
pub fn faulty_item(alloc: Global, flag: &str) -> Result<Option<FaultyItem>, Memory>
    ensures { IfOk result (λ found. found ≡ faulty_item flag.now) }
{
    let Some(mount) = value_of("--mount", flag) else {
        return Ok(None);
    };
    let items = parts(alloc, mount)?;
    first_faulty(alloc, items.as_slice())
}

/// Whether a word of a line is a mount that binds a folder.
fn is_bind(alloc: Global, word: &str) -> Result<bool, Memory>
    ensures { IfOk result (λ is. is ≡ is_bind word.now) }
{
    let Some(mount) = value_of("--mount", word) else {
        return Ok(false);
    };
    let items = parts(alloc, mount)?;
    Ok(!is_cache(items.as_slice()))
}

/// Whether one of these words is.
fn have_bind(alloc: Global, words: &[&str]) -> Result<bool, Memory>
    ensures { IfOk result (λ have. have ≡ list_any is_bind (map (λ word. word.now) words.now)) }
{
    for word in words {
        if is_bind(alloc, *word)? {
            return Ok(true);
        }
    }
    Ok(false)
}

/// Whether a line has such a word.
fn line_binds(alloc: Global, line: &str) -> Result<bool, Memory>
    ensures { IfOk result (λ binds. binds ≡ line_binds line.now) }
{
    let words = split_at_blanks(alloc, line)?;
    have_bind(alloc, words.as_slice())
}

/// Whether one of the lines of an instruction binds a folder.
pub fn has_bind(alloc: Global, own: &[&str]) -> Result<bool, Memory>
    ensures { IfOk result (λ has. has ≡ has_bind (map (λ line. line.now) own.now)) }
{
    for line in own {
        if line_binds(alloc, *line)? {
            return Ok(true);
        }
    }
    Ok(false)
}

/// The target of a mount of these items.
fn target_among<'a>(items: &[&'a str]) -> Option<&'a str>
    ensures { option_map (λ target. target.now) result ≡ target_among (map (λ item. item.now) items.now) }
{
    for item in items {
        if has_name("target", *item) {
            return Some(value_of_item(*item));
        }
    }
    None
}

/// The target of a flag `--mount`, if it has one.
#[tactic(auto, unfolding(crate::specs::Mounts::target_of))]
pub(crate) fn target_of<'a>(alloc: Global, flag: &'a str) -> Result<Option<&'a str>, Memory>
    ensures { IfOk result (λ target. option_map (λ it. it.now) target ≡ target_of flag.now) }
{
    let Some(mount) = value_of("--mount", flag) else {
        return Ok(None);
    };
    let items = parts(alloc, mount)?;
    Ok(target_among(items.as_slice()))
}

/// Whether a flag can be no mount beside others, whatever these are: an item of it is wrong, or it has no target, or that is `/`.
fn is_wrong_mount(alloc: Global, flag: &str) -> Result<bool, Memory>
    ensures { IfOk result (λ is. is ≡ is_wrong_mount flag.now) }
{
    if let Some(found) = faulty_item(alloc, flag)? {
        drop(found);
        return Ok(true);
    }
    match target_of(alloc, flag)? {
        Some(target) => Ok(target == "/"),
        None => Ok(true),
    }
}

/// The first such flag among the leading ones of these pieces.
fn wrong_among<'a>(alloc: Global, pieces: &[&'a str]) -> Result<Option<&'a str>, Memory>
    ensures { IfOk result (λ flag. option_map (λ it. it.now) flag ≡ wrong_among (map (λ piece. piece.now) pieces.now)) }
{
    for piece in pieces {
        if !is_flag(*piece) {
            return Ok(None);
        }
        if is_wrong_mount(alloc, *piece)? {
            return Ok(Some(*piece));
        }
    }
    Ok(None)
}

/// The first such flag of a RUN of this text.
pub(crate) fn wrong_mount<'a>(alloc: Global, text: &'a str) -> Result<Option<&'a str>, Memory>
    ensures { IfOk result (λ flag. option_map (λ it. it.now) flag ≡ wrong_mount text.now) }
{
    let (_, rest) = first_piece(text);
    let pieces = split_at_blanks(alloc, rest)?;
    wrong_among(alloc, pieces.as_slice())
}
