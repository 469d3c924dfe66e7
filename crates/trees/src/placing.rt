// A COPY that isn't hung in as a folder places match by match: so a list is one match long, and the first cause ends it before more is
// listed.

ghost use Rattle.trees.specs.TreeMap.{IsTree};
ghost use Rattle.trees.specs.Copy.{parent_meta, changes_of, source_changes, paths_changes, path_changes, goes_into};
ghost use Rattle.trees.specs.PrivateCopy.{AppliesChanges, AppliesMore, kind_in};
ghost use Rattle.trees.specs.PrivateNode.{map_of};

use crate::apply::{Placed, apply_all};
use crate::changes::{data_changes, goes_into, path_changes};
use crate::node::Node;
use crate::{CopyOptions, Source, Tree, TreeFault};
use paths::Path;
use std::alloc::Global;
use std::collections::BTreeMap;

/// Places what the sources of a COPY place, one after another. After a fault the root is left half done.
pub(crate) fn place_each(
    alloc: Global,
    root: &mut Node,
    options: &CopyOptions,
    from: &Tree,
    dest: &Path,
    sources: &[Source],
) -> Result<(), TreeFault>
    requires { IsTree (map_of root.old) }
    ensures { AppliesChanges (parent_meta options.now) (changes_of options.now (goes_into (map_of root.old) dest.now options.now) from.now dest.now sources.now) (map_of root.old) (map_of root.new) result }
{
    let into = goes_into(root, dest, options);
    let mut placed = BTreeMap::new(alloc);
    for source in sources {
        place_source(alloc, root, &mut placed, options, into, from, dest, source)?;
    }
    Ok(())
}

/// Places what one source places, after what was placed before.
fn place_source(
    alloc: Global,
    root: &mut Node,
    placed: &mut Placed,
    options: &CopyOptions,
    into: bool,
    from: &Tree,
    dest: &Path,
    source: &Source,
) -> Result<(), TreeFault>
    requires { IsTree (map_of root.old) }
    ensures { AppliesMore (parent_meta options.now) (source_changes options.now into from.now dest.now source.now) (kind_in placed.old.entries) (map_of root.old)
        (kind_in placed.new.entries) (map_of root.new) result }
{
    match source {
        Source::Found(paths) => {
            let paths = paths.as_slice();
            place_matches(alloc, root, placed, options, into, from, dest, paths)
        }
        Source::Data(name, content) => {
            let changes = data_changes(alloc, options, into, dest, name, content)?;
            let parent = options.parent_meta();
            apply_all(alloc, root, placed, &parent, changes)
        }
    }
}

/// Does so with these matches.
fn place_matches(
    alloc: Global,
    root: &mut Node,
    placed: &mut Placed,
    options: &CopyOptions,
    into: bool,
    from: &Tree,
    dest: &Path,
    paths: &[Path],
) -> Result<(), TreeFault>
    requires { IsTree (map_of root.old) }
    ensures { AppliesMore (parent_meta options.now) (paths_changes options.now into from.now dest.now paths.now) (kind_in placed.old.entries) (map_of root.old)
        (kind_in placed.new.entries) (map_of root.new) result }
{
    for path in paths {
        place_match(alloc, root, placed, options, into, from, dest, path)?;
    }
    Ok(())
}

/// Does so with one match.
fn place_match(
    alloc: Global,
    root: &mut Node,
    placed: &mut Placed,
    options: &CopyOptions,
    into: bool,
    from: &Tree,
    dest: &Path,
    path: &Path,
) -> Result<(), TreeFault>
    requires { IsTree (map_of root.old) }
    ensures { AppliesMore (parent_meta options.now) (path_changes options.now into from.now dest.now path.now) (kind_in placed.old.entries) (map_of root.old)
        (kind_in placed.new.entries) (map_of root.new) result }
{
    let changes = path_changes(alloc, options, into, from, dest, path)?;
    let parent = options.parent_meta();
    apply_all(alloc, root, placed, &parent, changes)
}
