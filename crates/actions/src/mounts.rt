// The mounts of a RUN: their paths are read as far as they can be, since the targets that are within the limits are compared even where
// another path isn't.
ghost use Rattle.std.specs.Prelude.{◌≡◌, ◌&&◌, ◌∷◌, ◌++◌, [], map, not, IfOk, OnOk};
ghost use Rattle.std.specs.List.{list_any};
ghost use Rattle.options.specs.Lists.{all_some};
ghost use Rattle.runs.specs.Run.{targets_clash, is_root, mounts_fit, ids_differ};
ghost use Rattle.actions.specs.Run.{target_in, folder_of};
ghost use Rattle.actions.specs.PrivateTexts.{within};
ghost use Rattle.actions.specs.PrivateMounts.{read_binds, read_caches, id_from, read_targets, read_ids, whole_bind, whole_cache};

use crate::texts::path_within;
use llb::Bind;
use options::{Mount, MountKind};
use paths::Path;
use plain::{Exact, Items, Memory, Sharing, Text};
use runs::CacheUse;
use std::alloc::Global;
use std::collections::BTreeSet;

/// A bind, each path where it is within the limits.
#[derive(Drop)]
pub(crate) struct ReadBind {
    rw: bool,
    source: Option<Path>,
    target: Option<Path>,
}

/// A cache, its id where it is known, and its target where it is within the limits.
#[derive(Drop)]
pub(crate) struct ReadCache {
    id: Option<Text>,
    sharing: Sharing,
    target: Option<Path>,
}

/// The folder of a bind: the root where none is written.
fn read_folder(alloc: Global, source: Option<Text>) -> Result<Option<Path>, Memory>
    ensures { IfOk result (λ folder. folder ≡ within (folder_of source)) }
{
    let root = Path::root(alloc);
    match source {
        None => Ok(Some(root)),
        Some(text) => path_within(alloc, text.as_str(), &root),
    }
}

/// The id of a cache: the text of its target where none is written.
fn read_id(alloc: Global, id: Option<Text>, target: &Option<Path>) -> Result<Option<Text>, Memory>
    ensures { IfOk result (λ found. found ≡ id_from id target.now) }
{
    match (id, target) {
        (Some(id), _) => Ok(Some(id)),
        (None, Some(target)) => Ok(Some(target.text(alloc)?)),
        (None, None) => Ok(None),
    }
}

/// Reads a mount, and puts it after the binds or the caches.
fn read_mount(
    alloc: Global,
    mount: Mount,
    dir: &Path,
    binds: &mut Items<ReadBind>,
    caches: &mut Items<ReadCache>,
) -> Result<(), Memory>
    ensures binds { OnOk result (binds.new ≡ binds.old ++ read_binds dir.now (mount ∷ [])) }
    ensures caches { OnOk result (caches.new ≡ caches.old ++ read_caches dir.now (mount ∷ [])) }
{
    let Mount { target, kind } = mount;
    let target = path_within(alloc, target.as_str(), dir)?;
    match kind {
        MountKind::Bind {
            source,
            from: _,
            is_writable,
        } => {
            let source = read_folder(alloc, source)?;
            binds.push(ReadBind {
                rw: is_writable,
                source,
                target,
            })
        }
        MountKind::Cache { id, sharing } => {
            let id = read_id(alloc, id, &target)?;
            caches.push(ReadCache {
                id,
                sharing,
                target,
            })
        }
    }
}

/// Reads mounts in a working directory: the binds and the caches, each in their order.
pub(crate) fn read_mounts(
    alloc: Global,
    mounts: Items<Mount>,
    dir: &Path,
) -> Result<(Items<ReadBind>, Items<ReadCache>), Memory>
    ensures binds { IfOk result (λ read. read.0 ≡ read_binds dir.now mounts) }
    ensures caches { IfOk result (λ read. read.1 ≡ read_caches dir.now mounts) }
{
    let mut binds = Items::new(alloc);
    let mut caches = Items::new(alloc);
    for mount in mounts.into_vec() {
        read_mount(alloc, mount, dir, &mut binds, &mut caches)?;
    }
    Ok((binds, caches))
}

/// The targets that were read, those of the binds first.
fn read_targets<'a>(
    alloc: Global,
    binds: &'a [ReadBind],
    caches: &'a [ReadCache],
) -> Result<Vec<&'a [Text]>, Memory>
    ensures { IfOk result (λ targets. map (λ target. target.now) targets.items ≡ read_targets binds.entry.now caches.entry.now) }
{
    let mut targets = Vec::with_capacity(alloc, binds.len() + caches.len())?;
    for bind in binds {
        if let Some(target) = &bind.target {
            targets.push(target.components())?;
        }
    }
    for cache in caches {
        if let Some(target) = &cache.target {
            targets.push(target.components())?;
        }
    }
    Ok(targets)
}

/// The ids that are known.
fn read_ids<'a>(alloc: Global, caches: &'a [ReadCache]) -> Result<Vec<&'a Text>, Memory>
    ensures { IfOk result (λ ids. map (λ id. id.now) ids.items ≡ read_ids caches.entry.now) }
{
    let mut ids = Vec::with_capacity(alloc, caches.len())?;
    for cache in caches {
        if let Some(id) = &cache.id {
            ids.push(id)?;
        }
    }
    Ok(ids)
}

/// Whether one target is the other or lies below it: they are the same as far as both go.
fn clash(these: &[Text], those: &[Text]) -> bool
    ensures { result ≡ targets_clash these.now those.now }
{
    these.iter().zip(those).all(|(this, that)| this == that)
}

/// Whether one of these is at, above or below the target.
fn clashes(targets: &[&[Text]], target: &[Text]) -> bool
    ensures { result ≡ list_any (λ other. targets_clash target.now other.now) targets.now }
{
    targets.iter().any(|other| clash(target, other))
}

/// Whether the target is `/`, where nothing may be mounted.
fn is_root(target: &[Text]) -> bool
    ensures { result ≡ is_root target.now }
{
    target.is_empty()
}

/// Whether something may be mounted at the target beside these.
fn fits_beside(target: &[Text], others: &[&[Text]]) -> bool
    ensures { result ≡ (not (is_root target.now) && not (list_any (λ other. targets_clash target.now other.now) others.now)) }
{
    !is_root(target) && !clashes(others, target)
}

/// Whether something may be mounted at all targets. They are few: a RUN has 16 mounts at most.
fn targets_fit(targets: &[&[Text]]) -> bool
    ensures { result ≡ mounts_fit (map (λ target. target.now) targets.now) }
{
    let mut rest = targets;
    while let [target, others @ ..] = rest {
        if !fits_beside(target, others) {
            return false;
        }
        rest = others;
    }
    true
}

/// Whether no id is there twice.
fn ids_differ(alloc: Global, ids: &[&Text]) -> Result<bool, Memory>
    ensures { IfOk result (λ differ. differ ≡ ids_differ (map (λ id. id.now) ids.now)) }
{
    let mut seen = BTreeSet::new(alloc);
    for id in ids {
        if !seen.insert(*id)? {
            return Ok(false);
        }
    }
    Ok(true)
}

/// Whether the mounts can be mounted together, as far as their paths were read, and no id is there twice.
pub(crate) fn mounts_stand_together(
    alloc: Global,
    binds: &[ReadBind],
    caches: &[ReadCache],
) -> Result<bool, Memory>
    ensures { IfOk result (λ fit. fit ≡ (mounts_fit (read_targets binds.now caches.now) && ids_differ (read_ids caches.now))) }
{
    let targets = read_targets(alloc, binds, caches)?;
    let ids = read_ids(alloc, caches)?;
    let differ = ids_differ(alloc, &ids)?;
    Ok(targets_fit(&targets) && differ)
}

/// A bind both of whose paths were read.
fn whole_bind(bind: ReadBind) -> Option<Bind>
    ensures { result ≡ whole_bind bind }
{
    let ReadBind { rw, source, target } = bind;
    let source = source?;
    let target = target?;
    Some(Bind { rw, source, target })
}

/// The binds, or none where a path of one couldn't be read.
pub(crate) fn whole_binds(
    alloc: Global,
    binds: Items<ReadBind>,
) -> Result<Option<Items<Bind>>, Memory>
    ensures { IfOk result (λ found. found ≡ all_some (map whole_bind binds)) }
{
    let mut found = Vec::with_capacity(alloc, binds.len())?;
    for bind in binds.into_vec() {
        match whole_bind(bind) {
            Some(bind) => found.push(bind)?,
            None => return Ok(None),
        }
    }
    Ok(Some(Items::from_vec(found)))
}

/// A cache whose target was read.
fn whole_cache(cache: ReadCache) -> Option<CacheUse>
    ensures { result ≡ whole_cache cache }
{
    let ReadCache {
        id,
        sharing,
        target,
    } = cache;
    let id = id?;
    let target = target?;
    Some(CacheUse {
        id,
        sharing,
        target,
    })
}

/// The caches, or none where the target of one couldn't be read.
pub(crate) fn whole_caches(
    alloc: Global,
    caches: Items<ReadCache>,
) -> Result<Option<Items<CacheUse>>, Memory>
    ensures { IfOk result (λ found. found ≡ all_some (map whole_cache caches)) }
{
    let mut found = Vec::with_capacity(alloc, caches.len())?;
    for cache in caches.into_vec() {
        match whole_cache(cache) {
            Some(cache) => found.push(cache)?,
            None => return Ok(None),
        }
    }
    Ok(Some(Items::from_vec(found)))
}
