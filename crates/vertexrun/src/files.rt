ghost use Rattle.std.specs.Prelude.{◌≡◌, Some, IfOk, IsSome, map};
ghost use Rattle.trees.specs.Cause.{TreeOrCause as TreeOrCauseValue, GivesTree};
ghost use Rattle.trees.specs.Make.{made};
ghost use Rattle.trees.specs.Over.{merged};
ghost use Rattle.plans.specs.Files.{source_in, sources_in};
ghost use Rattle.plans.specs.Value.{copied_files, copy_value, file_value};

use crate::patterns::find_matches;
use llb::{CopyFiles, FileSource, Op};
use paths::Path;
use plain::{Exact, Fault, Memory};
use std::alloc::Global;
use trees::{Source, Tree, TreeFault, TreeOrCause};

/// The value of an operation on files, a copy or the making of a directory, on the trees of its inputs. The first input is copied,
/// and all is done in that copy.
pub fn settle_file(alloc: Global, op: &Op, inputs: &[&Tree]) -> Result<TreeOrCause, Memory>
    requires { IsSome (file_value op.now (map (λ tree. tree.now) inputs.now)) }
    ensures { IfOk result (λ value. file_value op.now (map (λ tree. tree.now) inputs.now) ≡ Some value) }
{
    match op {
        Op::Copy(files) => settle_copy(alloc, files, inputs),
        Op::MakeDirs(path) => match inputs {
            [tree] => settle_dirs(alloc, path, tree),
            _ => unreachable!(),
        },
        _ => unreachable!(),
    }
}

/// The trees of a merge's inputs laid over each other, the first at the bottom.
pub fn settle_merge(alloc: Global, inputs: &[&Tree]) -> Result<Tree, Memory>
    ensures { IfOk result (λ tree. tree ≡ merged (map (λ tree. tree.now) inputs.now)) }
{
    let [first, rest @ ..] = inputs else {
        return Ok(Tree::empty(alloc));
    };
    let mut tree = first.copy(alloc)?;
    for upper in rest {
        tree = tree.under(alloc, *upper)?;
    }
    Ok(tree)
}

/// The value of a copy on the tree that it copies into, and the one that it copies from, if it looks for a source in one.
fn settle_copy(alloc: Global, files: &CopyFiles, inputs: &[&Tree]) -> Result<TreeOrCause, Memory>
    requires { IsSome (copy_value files.now (map (λ tree. tree.now) inputs.now)) }
    ensures { IfOk result (λ value. copy_value files.now (map (λ tree. tree.now) inputs.now) ≡ Some value) }
{
    match inputs {
        [base] => copied_files(alloc, files, base, &Tree::empty(alloc)),
        [base, from] => copied_files(alloc, files, base, from),
        _ => unreachable!(),
    }
}

/// A tree with files of another one copied into it, or the cause why they can't be.
fn copied_files(
    alloc: Global,
    files: &CopyFiles,
    base: &Tree,
    from: &Tree,
) -> Result<TreeOrCause, Memory>
    ensures { IfOk result (λ value. value ≡ copied_files files.now base.now from.now) }
{
    let sources = find_sources(alloc, from, files.sources.as_slice())?;
    let base = base.copy(alloc)?;
    tree_or_cause(base.copied(alloc, from, sources.as_slice(), &files.dest, &files.options))
}

/// A tree with a directory and its parents made in it, or the cause why they can't be.
fn settle_dirs(alloc: Global, path: &Path, tree: &Tree) -> Result<TreeOrCause, Memory>
    ensures { IfOk result (λ value. value ≡ made tree.now path.now) }
{
    let mut tree = tree.copy(alloc)?;
    match tree.mkdirs(alloc, path) {
        Ok(()) => Ok(Ok(tree)),
        Err(Fault::Because(cause)) => Ok(Err(cause)),
        Err(Fault::Memory) => Err(Memory),
    }
}

/// The sources of a copy, each found in the tree that is copied from.
fn find_sources(alloc: Global, from: &Tree, sources: &[FileSource]) -> Result<Vec<Source>, Memory>
    ensures { IfOk result (λ found. found.items ≡ sources_in from.now sources.now) }
{
    let mut found = Vec::with_capacity(alloc, sources.len())?;
    for source in sources {
        found.push(find_source(alloc, from, source)?)?;
    }
    Ok(found)
}

/// A source, found in the tree that is copied from.
fn find_source(alloc: Global, from: &Tree, source: &FileSource) -> Result<Source, Memory>
    ensures { IfOk result (λ found. found ≡ source_in from.now source.now) }
{
    match source {
        FileSource::Pattern(text) => Ok(Source::Found(find_matches(alloc, from, text.as_str())?)),
        FileSource::Data(name, content) => {
            let name = name.copy(alloc)?;
            let content = content.copy(alloc)?;
            Ok(Source::Data(name, content))
        }
    }
}

/// What a call that gives a tree answered, with want of memory apart from its causes.
pub(crate) fn tree_or_cause(answer: Result<Tree, TreeFault>) -> Result<TreeOrCause, Memory>
    ensures { (value : TreeOrCauseValue) → GivesTree value answer → IfOk result (λ given. given ≡ value) }
{
    match answer {
        Ok(tree) => Ok(Ok(tree)),
        Err(Fault::Because(cause)) => Ok(Err(cause)),
        Err(Fault::Memory) => Err(Memory),
    }
}
