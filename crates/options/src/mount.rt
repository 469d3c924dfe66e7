ghost use Rattle.std.specs.Prelude.{◌≡◌, ◌<◌, ◌∷◌, map, option_map, IfOk};
ghost use Rattle.std.specs.List.{list_all};
ghost use Rattle.options.specs.Item.{shown, value_at};
ghost use Rattle.options.specs.Mount.{mount_key, item_of, items, sharing_named, takes, is_known, is_cache, is_fitting, are_fitting, is_writable_by};
ghost use Rattle.options.specs.Mount.{sharing_by, kind_of, mount_from, mount_of, is_target_name, is_writable_name, is_mount_flag, are_mount_flags};
ghost use Rattle.options.specs.Mount.{mount_in, mounts};
ghost use Rattle.options.specs.PrivateMount.{parts, bytes_left};

use crate::item::{Item, Key, copy_value, has_twice, value_at};
use crate::value::{is_filled, is_truth};
use plain::{Exact, Items, Memory, Sharing, Text};
use std::alloc::{AllocError, Global};
use words::{Flag, pair};

/// A mount of a RUN (Dockerfile reference, `RUN --mount`).
#[derive(Debug, Drop)]
pub struct Mount {
    /// The path where it is mounted, as it is written. A relative target is read against the working directory.
    pub target: Text,
    pub kind: MountKind,
}

/// What is mounted.
#[derive(Debug, Drop)]
pub enum MountKind {
    /// A folder of the context, of a stage or of an image.
    Bind {
        /// The folder, read against the root; the root itself where there is none.
        source: Option<Text>,
        /// The stage or the image; the context where there is none.
        from: Option<Text>,
        /// Whether the command may write there. What it writes is seen by it alone.
        is_writable: bool,
    },
    /// A folder that outlives the build.
    Cache {
        /// What the folder is known by; the target's path as a text where there is none.
        id: Option<Text>,
        sharing: Sharing,
    },
}

impl Exact for MountKind {
    fn same(&self, other: &MountKind) -> bool {
        match (self, other) {
            (
                MountKind::Bind {
                    source,
                    from,
                    is_writable,
                },
                MountKind::Bind {
                    source: other_source,
                    from: other_from,
                    is_writable: is_other_writable,
                },
            ) => {
                source.same(other_source)
                    && from.same(other_from)
                    && is_writable.same(is_other_writable)
            }
            (
                MountKind::Cache { id, sharing },
                MountKind::Cache {
                    id: other_id,
                    sharing: other_sharing,
                },
            ) => id.same(other_id) && sharing.same(other_sharing),
            _ => false,
        }
    }

    fn copy(&self, alloc: Global) -> Result<MountKind, Memory> {
        match self {
            MountKind::Bind {
                source,
                from,
                is_writable,
            } => {
                let source = source.copy(alloc)?;
                let from = from.copy(alloc)?;
                Ok(MountKind::Bind {
                    source,
                    from,
                    is_writable: *is_writable,
                })
            }
            MountKind::Cache { id, sharing } => {
                let id = id.copy(alloc)?;
                Ok(MountKind::Cache {
                    id,
                    sharing: *sharing,
                })
            }
        }
    }
}

impl Exact for Mount {
    fn same(&self, other: &Mount) -> bool {
        self.target.same(&other.target) && self.kind.same(&other.kind)
    }

    fn copy(&self, alloc: Global) -> Result<Mount, Memory> {
        let target = self.target.copy(alloc)?;
        let kind = self.kind.copy(alloc)?;
        Ok(Mount { target, kind })
    }
}

/// Whether a name is that of a mount's target.
fn is_target_name(name: &str) -> bool
    ensures { result ≡ is_target_name name.now }
{
    name == "target" || name == "dst" || name == "destination"
}

/// Whether a name is that of the key that allows a bind to be written.
fn is_writable_name(name: &str) -> bool
    ensures { result ≡ is_writable_name name.now }
{
    name == "rw" || name == "readwrite"
}

/// The key that a name names in a mount.
fn mount_key(name: &str) -> Option<Key>
    ensures { result ≡ mount_key name.now }
{
    if is_target_name(name) {
        return Some(Key::Target);
    }
    if is_writable_name(name) {
        return Some(Key::Writable);
    }
    if name == "type" {
        return Some(Key::Kind);
    }
    if name == "source" {
        return Some(Key::Source);
    }
    if name == "from" {
        return Some(Key::From);
    }
    if name == "id" {
        return Some(Key::Id);
    }
    if name == "sharing" {
        return Some(Key::Sharing);
    }
    None
}

/// The item that a text is: `key=value`, or `rw` alone.
#[tactic(auto, unfolding(crate::specs::Mount::item_of))]
fn item_of(text: &str) -> Option<Item<'_>>
    ensures { option_map shown result ≡ item_of text.entry.now }
{
    match pair(text) {
        Some((name, value)) => match mount_key(name) {
            Some(key) => Some(Item { key, value }),
            None => None,
        },
        None => {
            if is_writable_name(text) {
                return Some(Item {
                    key: Key::Writable,
                    value: "true",
                });
            }
            None
        }
    }
}

/// The first part of a list, up to its first comma, and what follows that comma, if there is one.
fn cut_at_comma(list: &str) -> (&str, Option<&str>)
    ensures parts { parts (Some list.entry.now) ≡ result.0.now ∷ parts (option_map (λ rest. rest.now) result.1) }
    ensures fewer { bytes_left (option_map (λ rest. rest.now) result.1) < bytes_left (Some list.entry.now) }
{
    match list.split_once(',') {
        Some((part, rest)) => (part, Some(rest)),
        None => (list, None),
    }
}

/// The items of a mount, where each text between its commas is one.
#[tactic(auto, using(crate::proofs::ListLaws::behind_none, crate::proofs::ListLaws::behind_some, std::proofs::lemmas::List::map_push))]
fn items(alloc: Global, text: &str) -> Result<Option<Vec<Item<'_>>>, AllocError>
    ensures { IfOk result (λ found. option_map (λ is. map shown is.items) found ≡ items text.entry.now) }
{
    let mut found = Vec::new(alloc);
    let mut left = Some(text);
    while let Some(list) = left {
        let (part, rest) = cut_at_comma(list);
        match item_of(part) {
            Some(item) => found.push(item)?,
            None => return Ok(None),
        }
        left = rest;
    }
    Ok(Some(found))
}

/// The way of sharing that a text names.
fn sharing_named(value: &str) -> Option<Sharing>
    ensures { result ≡ sharing_named value.now }
{
    if value == "shared" {
        return Some(Sharing::Shared);
    }
    if value == "private" {
        return Some(Sharing::Private);
    }
    if value == "locked" {
        return Some(Sharing::Locked);
    }
    None
}

/// Whether a text names a type of mounts.
fn is_kind(value: &str) -> bool
    ensures { result ≡ takes Key.Kind value.now }
{
    value == "bind" || value == "cache"
}

/// Whether a mount's key takes a value.
fn takes(key: Key, value: &str) -> bool
    ensures { result ≡ takes key value.now }
{
    match key {
        Key::Kind => is_kind(value),
        Key::Target | Key::Source | Key::From | Key::Id => !value.is_empty(),
        Key::Writable => is_truth(value),
        Key::Sharing => sharing_named(value).is_some(),
    }
}

/// Whether a cache, else a bind, knows a key.
fn is_known(is_cache: bool, key: Key) -> bool
    ensures { result ≡ is_known is_cache key }
{
    match key {
        Key::Kind | Key::Target => true,
        Key::Source | Key::From | Key::Writable => !is_cache,
        Key::Id | Key::Sharing => is_cache,
    }
}

/// Whether items are those of a cache.
fn is_cache(items: &[Item]) -> bool
    ensures { result ≡ is_cache (map shown items.now) }
{
    match value_at(Key::Kind, items) {
        Some(value) => value == "cache",
        None => false,
    }
}

/// Whether each item has a key that the type knows, and a value that the key takes.
fn all_fit(is_cache: bool, items: &[Item]) -> bool
    ensures { result ≡ list_all (is_fitting is_cache) (map shown items.now) }
{
    for item in items {
        if !is_known(is_cache, item.key) || !takes(item.key, item.value) {
            return false;
        }
    }
    true
}

/// Whether items fit the mount's type and each other.
fn are_fitting(items: &[Item]) -> bool
    ensures { result ≡ are_fitting (map shown items.now) }
{
    all_fit(is_cache(items), items) && !has_twice(items)
}

/// Whether a bind with these items may be written.
fn is_writable(items: &[Item]) -> bool
    ensures { result ≡ is_writable_by (value_at Key.Writable (map shown items.now)) }
{
    match value_at(Key::Writable, items) {
        Some(value) => value == "true",
        None => false,
    }
}

/// How a cache with these items is shared.
fn sharing(items: &[Item]) -> Sharing
    ensures { result ≡ sharing_by (value_at Key.Sharing (map shown items.now)) }
{
    match value_at(Key::Sharing, items) {
        Some(value) => sharing_named(value).unwrap_or(Sharing::Shared),
        None => Sharing::Shared,
    }
}

/// What is mounted.
fn kind_of(alloc: Global, items: &[Item]) -> Result<MountKind, Memory>
    ensures { IfOk result (λ kind. kind ≡ kind_of (map shown items.now)) }
{
    if is_cache(items) {
        let id = copy_value(alloc, Key::Id, items)?;
        return Ok(MountKind::Cache {
            id,
            sharing: sharing(items),
        });
    }
    let source = copy_value(alloc, Key::Source, items)?;
    let from = copy_value(alloc, Key::From, items)?;
    Ok(MountKind::Bind {
        source,
        from,
        is_writable: is_writable(items),
    })
}

/// The mount of items, where they fit and there is a target.
fn mount_from(alloc: Global, items: &[Item]) -> Result<Option<Mount>, Memory>
    ensures { IfOk result (λ mount. mount ≡ mount_from (map shown items.now)) }
{
    if !are_fitting(items) {
        return Ok(None);
    }
    match copy_value(alloc, Key::Target, items)? {
        Some(target) => {
            let kind = kind_of(alloc, items)?;
            Ok(Some(Mount { target, kind }))
        }
        None => Ok(None),
    }
}

/// The mount that a text is, if it is one.
#[tactic(auto, unfolding(crate::specs::Mount::mount_of))]
fn mount_of(alloc: Global, text: &str) -> Result<Option<Mount>, Memory>
    ensures { IfOk result (λ mount. mount ≡ mount_of text.now) }
{
    match items(alloc, text)? {
        Some(items) => mount_from(alloc, items.as_slice()),
        None => Ok(None),
    }
}

/// Whether a flag is `--mount` with a value.
fn is_mount_flag(flag: &Flag) -> bool
    ensures { result ≡ is_mount_flag flag.now }
{
    flag.name.as_str() == "mount" && is_filled(&flag.value)
}

/// Whether these are flags of a RUN: each is `--mount=M` with an M that isn't empty (Dockerfile reference, RUN; that other
/// flags are unknown: own).
///
/// A RUN whose flags aren't is refused with R07. What M says isn't looked at here.
#[tactic(auto, unfolding(crate::specs::Mount::are_mount_flags))]
pub fn are_mount_flags(flags: &[Flag]) -> bool
    ensures { result ≡ are_mount_flags flags.now }
{
    for flag in flags {
        if !is_mount_flag(flag) {
            return false;
        }
    }
    true
}

/// The mount that a flag's value is, if it is one.
#[tactic(auto, unfolding(crate::specs::Mount::mount_in))]
fn mount_in(alloc: Global, flag: &Flag) -> Result<Option<Mount>, Memory>
    ensures { IfOk result (λ mount. mount ≡ mount_in flag.now) }
{
    match &flag.value {
        Some(value) => mount_of(alloc, value.as_str()),
        None => Ok(None),
    }
}

/// The mounts that the values of a RUN's flags are, in the order of the flags; none where one of them is no mount, and such
/// a RUN is refused with R17 (Dockerfile reference, `RUN --mount`).
///
/// A mount is a list of items cut at `,`, each `key=value`, or `rw` alone. No `type` means `bind`, which knows
/// `source`, `from` and `rw` or `readwrite`; a `cache` knows `id` and `sharing`; both need a `target`, `dst` or
/// `destination`. Another type, key or value, an empty value, a key twice and a missing target are no mount (own: Docker
/// knows more types and keys). The flags' names aren't looked at here.
#[tactic(auto, using(crate::proofs::ListLaws::behind_none, crate::proofs::ListLaws::behind_some), unfolding(crate::specs::Mount::mounts))]
pub fn mounts(alloc: Global, flags: &[Flag]) -> Result<Option<Items<Mount>>, Memory>
    ensures { IfOk result (λ found. found ≡ mounts flags.now) }
{
    let mut found = Items::new(alloc);
    for flag in flags {
        match mount_in(alloc, flag)? {
            Some(mount) => found.push(mount)?,
            None => return Ok(None),
        }
    }
    Ok(Some(found))
}
