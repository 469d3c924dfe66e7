ghost use Rattle.std.specs.Prelude.{◌≡◌, ◌++◌, ◌&&◌, not, map, IfOk};
ghost use Rattle.std.specs.List.{list_all, list_any};
ghost use Rattle.runs.specs.Run.{targets_clash, is_root, mounts_fit, ids_differ};
ghost use Rattle.plain.specs.Variable.{HaveNames};
ghost use Rattle.llb.specs.WellFormed.{is_well_formed_source, is_well_formed_exec, is_pattern, inputs_of_copy, is_well_formed_file_source, is_well_formed_copy, is_well_formed_on, environment_of};

use crate::{Bind, CopyFiles, Exec, FileSource, Op, Source};
use globs::Glob;
use paths::Path;
use plain::{Fault, Memory, Text, Variable};
use runs::CacheUse;
use std::alloc::Global;
use std::collections::BTreeSet;

/// What is called by a name among others of its kind.
trait Named {
    ghost use Rattle.std.specs.Prelude.{List, ℕ};

    ghost name_of: { Self → List ℕ };

    fn name(&self) -> &Text
        ensures { result.now ≡ name_of self.now };
}

impl Named for Variable {
    ghost name_of = { λ variable. variable.name };

    fn name(&self) -> &Text {
        self.name.as_text()
    }
}

impl Named for CacheUse {
    ghost name_of = { λ cache. cache.id };

    fn name(&self) -> &Text {
        &self.id
    }
}

/// What is mounted while a command runs.
trait Mounted {
    ghost use Rattle.std.specs.Prelude.{List, ℕ};

    ghost target_of: { Self → List (List ℕ) };

    fn target(&self) -> &Path
        ensures { result.now ≡ target_of self.now };
}

impl Mounted for Bind {
    ghost target_of = { λ bind. bind.target };

    fn target(&self) -> &Path {
        &self.target
    }
}

impl Mounted for CacheUse {
    ghost target_of = { λ cache. cache.target };

    fn target(&self) -> &Path {
        &self.target
    }
}

impl Op {
    /// Whether the operation is well formed on that many inputs: what the vertices of a graph are.
    ///
    /// A source has none, and an image's name isn't empty and not `scratch`. A command has a first input and one for each bind, a
    /// word, an environment without a name twice, and mounts that can be mounted together, no cache twice among them. A copy has a
    /// source, no malformed pattern, a first input, and a second one exactly where a source is a pattern. Making directories has one
    /// input, and a merge two at least.
    pub fn is_well_formed(&self, alloc: Global, inputs: usize) -> Result<bool, Memory>
        ensures { IfOk result (λ answer. answer ≡ is_well_formed_on self.now inputs) }
    {
        match self {
            Op::Source(source) => Ok(inputs == 0 && is_well_formed_source(source)),
            Op::Exec(exec) => {
                let is_well_formed = is_well_formed_exec(alloc, exec)?;
                Ok(inputs > 0 && inputs - 1 == exec.binds.len() && is_well_formed)
            }
            Op::Copy(files) => {
                let is_well_formed = is_well_formed_copy(alloc, files)?;
                Ok(inputs == inputs_of_copy(files) && is_well_formed)
            }
            Op::MakeDirs(_) => Ok(inputs == 1),
            Op::Merge => Ok(inputs >= 2),
        }
    }

    /// The environment that the operation runs in, if it is a command; what isn't has none.
    pub fn environment(&self) -> &[Variable]
        ensures value { result.now ≡ environment_of self.now }
        ensures names { HaveNames (environment_of self.now) }
    {
        match self {
            Op::Exec(exec) => exec.env.as_slice(),
            Op::Source(_) | Op::Copy(_) | Op::MakeDirs(_) | Op::Merge => &[],
        }
    }
}

/// Whether a source may be named so.
fn is_well_formed_source(source: &Source) -> bool
    ensures { result ≡ is_well_formed_source source.now }
{
    match source {
        Source::Scratch => true,
        Source::Context => true,
        Source::Image(name) => name.len() != 0 && name.as_str() != "scratch",
    }
}

/// How many inputs a copy has.
fn inputs_of_copy(files: &CopyFiles) -> usize
    ensures { result ≡ inputs_of_copy files.now }
{
    if has_pattern(files.sources.as_slice()) {
        2
    } else {
        1
    }
}

/// Whether one of these is looked for in a tree.
fn has_pattern(sources: &[FileSource]) -> bool
    ensures { result ≡ list_any is_pattern sources.now }
{
    sources.iter().any(|source| is_pattern(source))
}

/// Whether a source is looked for in a tree.
fn is_pattern(source: &FileSource) -> bool
    ensures { result ≡ is_pattern source.now }
{
    match source {
        FileSource::Pattern(_) => true,
        FileSource::Data(_, _) => false,
    }
}

/// Whether a copy has a source, and no malformed pattern.
fn is_well_formed_copy(alloc: Global, files: &CopyFiles) -> Result<bool, Memory>
    ensures { IfOk result (λ answer. answer ≡ is_well_formed_copy files.now) }
{
    let are_well_formed = are_well_formed_file_sources(alloc, files.sources.as_slice())?;
    Ok(!files.sources.is_empty() && are_well_formed)
}

/// Whether none of these is a malformed pattern.
fn are_well_formed_file_sources(alloc: Global, sources: &[FileSource]) -> Result<bool, Memory>
    ensures { IfOk result (λ answer. answer ≡ list_all is_well_formed_file_source sources.now) }
{
    for source in sources {
        if !is_well_formed_file_source(alloc, source)? {
            return Ok(false);
        }
    }
    Ok(true)
}

/// Whether a source is no malformed pattern.
fn is_well_formed_file_source(alloc: Global, source: &FileSource) -> Result<bool, Memory>
    ensures { IfOk result (λ answer. answer ≡ is_well_formed_file_source source.now) }
{
    let FileSource::Pattern(text) = source else {
        return Ok(true);
    };
    match Glob::read(alloc, text.as_str()) {
        Ok(_) => Ok(true),
        Err(Fault::Because(_)) => Ok(false),
        Err(Fault::Memory) => Err(Memory),
    }
}

/// Whether a command has a word, a proper environment, mounts that can be mounted together, and no cache twice.
fn is_well_formed_exec(alloc: Global, exec: &Exec) -> Result<bool, Memory>
    ensures { IfOk result (λ answer. answer ≡ is_well_formed_exec exec.now) }
{
    // that each is called by a name is kept by its type
    let env_names_differ = names_differ(alloc, exec.env.as_slice())?;
    let mounts_fit = binds_fit(exec.binds.as_slice(), exec.caches.as_slice());
    let caches_differ = names_differ(alloc, exec.caches.as_slice())?;
    let is_empty = exec.words.is_empty();
    Ok(all_hold(!is_empty, env_names_differ, mounts_fit, caches_differ))
}

/// Whether all four hold.
fn all_hold(first: bool, second: bool, third: bool, fourth: bool) -> bool
    ensures { result ≡ (first && (second && (third && fourth))) }
{
    first && second && third && fourth
}

/// Whether no two of these have the same name. It takes about as many steps as there are items, whatever they are called: an
/// environment may have thousands of names.
fn names_differ<T: Named>(alloc: Global, items: &[T]) -> Result<bool, Memory>
    ensures { IfOk result (λ answer. answer ≡ ids_differ (map T.name_of items.now)) }
{
    let mut seen = BTreeSet::new(alloc);
    for item in items {
        if !seen.insert(item.name())? {
            return Ok(false);
        }
    }
    Ok(true)
}

/// Whether one of these is mounted at, above or below the target.
fn clashes<T: Mounted>(items: &[T], target: &Path) -> bool
    ensures { result ≡ list_any (λ item. targets_clash target.now (T.target_of item)) items.now }
{
    items.iter().any(|item| target.is_at_or_under(item.target())
        || item.target().is_at_or_under(target))
}

/// Whether the path is `/`, where nothing may be mounted.
fn is_root(path: &Path) -> bool
    ensures { result ≡ is_root path.now }
{
    path.is_root()
}

/// Whether something may be mounted at the target beside these.
fn fits_beside<T: Mounted>(target: &Path, items: &[T]) -> bool
    ensures { result ≡ (not (is_root target.now)
        && not (list_any (λ item. targets_clash target.now (T.target_of item)) items.now)) }
{
    !is_root(target) && !clashes(items, target)
}

/// Whether the caches may be mounted together.
fn caches_fit(caches: &[CacheUse]) -> bool
    ensures { result ≡ mounts_fit (map (λ cache. cache.target) caches.now) }
{
    let mut rest = caches;
    while let [cache, tail @ ..] = rest {
        if !fits_beside(&cache.target, tail) {
            return false;
        }
        rest = tail;
    }
    true
}

/// Whether the binds and the caches may be mounted together.
fn binds_fit(binds: &[Bind], caches: &[CacheUse]) -> bool
    ensures { result ≡ mounts_fit
        (map (λ bind. bind.target) binds.now ++ map (λ cache. cache.target) caches.now) }
{
    let mut rest = binds;
    while let [bind, tail @ ..] = rest {
        if !fits_beside(&bind.target, tail) {
            return false;
        }
        if clashes(caches, &bind.target) {
            return false;
        }
        rest = tail;
    }
    caches_fit(caches)
}
