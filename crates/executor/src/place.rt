ghost use Rattle.std.specs.Prelude.{◌≡◌, ◌≤◌, Some, None, MatchOption, IfOk, drop, length};
ghost use Rattle.executor.specs.Places.{bind_from, cache_from, path_from};

use crate::Request;
use paths::Path;
use plain::Memory;
use runs::{CacheUse, RunBind};
use std::alloc::Global;

/// The bind that a path lies at or under, with its number.
pub(crate) fn find_bind<'a>(request: &'a Request, path: &Path) -> Option<(usize, &'a RunBind)>
    ensures { MatchOption result (bind_from 0 request.now.binds path.now ≡ None)
        (λ found. bind_from 0 request.now.binds path.now ≡ Some (found.0, found.1.now)) }
{
    for (number, bind) in request.binds.as_slice().iter().enumerate() {
        if path.is_at_or_under(&bind.target) {
            return Some((number, bind));
        }
    }
    None
}

/// The cache that a path lies at or under, by its number, with its target.
pub(crate) fn find_cache<'a>(request: &'a Request, path: &Path) -> Option<(usize, &'a CacheUse)>
    ensures { MatchOption result (cache_from 0 request.now.caches path.now ≡ None)
        (λ found. cache_from 0 request.now.caches path.now ≡ Some (found.0, found.1.now)) }
{
    for (number, cache) in request.caches.as_slice().iter().enumerate() {
        if path.is_at_or_under(&cache.target) {
            return Some((number, cache));
        }
    }
    None
}

/// What a path is called from a target that it lies at or under.
pub(crate) fn path_from(alloc: Global, target: &Path, path: &Path) -> Result<Path, Memory>
    ensures { IfOk result (λ rest. rest ≡ path_from target.now path.now) }
{
    let names = path.components();
    let above = target.depth().min(names.len());
    let below = &names[above..];
    let mut rest = Path::root(alloc);
    for name in below {
        rest = rest.child(alloc, name)?;
    }
    Ok(rest)
}
