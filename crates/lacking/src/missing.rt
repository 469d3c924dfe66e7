ghost use Rattle.std.specs.Prelude.{◌≡◌, IfOk};
ghost use Rattle.llb.specs.declared.op.FileSource.TheVariants.{Pattern};
ghost use Rattle.lacking.specs.Missing.{alone, first_lacked, fails_for_source, is_context_path, is_for_source, lacked, lacks, missed_at, missed_by, missed_from, missed_in, missed_in_row, missed_source, only, pattern_of, with_place};

use globs::is_spelled_out;
use llb::{CopyFiles, FileSource, Op, Source};
use paths::Path;
use plain::{Exact, Items, Memory, Text};
use plans::Sources;
use rows::{Action, Origin, Stage, Step};
use std::alloc::Global;
use trees::{Cause, CopyOptions, Tree, TreeOrCause};
use vertexrun::settle_file;

/// A source of a COPY that isn't there.
#[derive(Drop)]
pub struct Missed {
    /// Its text, with its variables replaced.
    pub source: Text,
    /// Whether it is a path of the context, without signs of a pattern.
    pub is_context_path: bool,
}

/// A COPY of this pattern alone, into the root of a tree.
fn alone(alloc: Global, text: &Text) -> Result<CopyFiles, Memory>
    ensures { IfOk result (λ files. files ≡ alone (Pattern text.now)) }
{
    let mut sources = Items::new(alloc);
    sources.push(FileSource::Pattern(text.copy(alloc)?))?;
    Ok(CopyFiles {
        sources,
        dest: Path::root(alloc),
        options: CopyOptions {
            into: true,
            owner: None,
            mode: None,
        },
    })
}

/// Whether a cause is that a source isn't there.
fn is_for_source(cause: Cause) -> bool
    ensures { result ≡ is_for_source cause }
{
    match cause {
        Cause::F1 => true,
        Cause::F2 => false,
        Cause::F3 => false,
        Cause::F4 => false,
        Cause::F5 => false,
        Cause::Exit(_) => false,
    }
}

/// Whether a COPY fails because a source isn't there.
fn fails_for_source(value: &TreeOrCause) -> bool
    ensures { result ≡ fails_for_source value.now }
{
    match value {
        Ok(_) => false,
        Err(cause) => is_for_source(*cause),
    }
}

/// Whether a tree lacks what a pattern names.
#[tactic(auto, unfolding(crate::specs::Missing::lacks))]
fn lacks(alloc: Global, tree: &Tree, text: &Text) -> Result<bool, Memory>
    ensures { IfOk result (λ answer. answer ≡ lacks tree.now (Pattern text.now)) }
{
    let files = alone(alloc, text)?;
    let empty = Tree::empty(alloc);
    let value = settle_file(alloc, &Op::Copy(files), &[&empty, tree])?;
    Ok(fails_for_source(&value))
}

/// A source, if it is a pattern and a tree lacks it.
fn lacked(alloc: Global, tree: &Tree, source: &FileSource) -> Result<Option<Text>, Memory>
    ensures { IfOk result (λ found. found ≡ lacked tree.now source.now) }
{
    match source {
        FileSource::Pattern(text) => {
            if lacks(alloc, tree, text)? {
                Ok(Some(text.copy(alloc)?))
            } else {
                Ok(None)
            }
        }
        FileSource::Data(_, _) => Ok(None),
    }
}

/// The first of these sources that a tree lacks.
fn first_lacked(alloc: Global, tree: &Tree, sources: &[FileSource]) -> Result<Option<Text>, Memory>
    ensures { IfOk result (λ found. found ≡ first_lacked tree.now sources.now) }
{
    for source in sources {
        if let Some(text) = lacked(alloc, tree, source)? {
            return Ok(Some(text));
        }
    }
    Ok(None)
}

/// The text of a source, if it is a pattern.
fn pattern_of(alloc: Global, source: &FileSource) -> Result<Option<Text>, Memory>
    ensures { IfOk result (λ found. found ≡ pattern_of source.now) }
{
    match source {
        FileSource::Pattern(text) => Ok(Some(text.copy(alloc)?)),
        FileSource::Data(_, _) => Ok(None),
    }
}

/// The only one of these sources, if it is a pattern.
fn only(alloc: Global, sources: &[FileSource]) -> Result<Option<Text>, Memory>
    ensures { IfOk result (λ found. found ≡ only sources.now) }
{
    match sources {
        [source] => pattern_of(alloc, source),
        [] => Ok(None),
        [_, _, ..] => Ok(None),
    }
}

/// Which of these sources isn't in the tree that is named, of which it is known that one isn't.
fn missed_from(
    alloc: Global,
    trees: &Sources,
    origin: &Origin,
    sources: &[FileSource],
) -> Result<Option<Text>, Memory>
    ensures { IfOk result (λ found. found ≡ missed_from trees.now origin.now sources.now) }
{
    match origin {
        Origin::Source(source) => match trees.tree(source) {
            Some(tree) => first_lacked(alloc, tree, sources),
            None => Ok(None),
        },
        Origin::Stage(_) => only(alloc, sources),
    }
}

/// Whether a source is a path of the context.
fn is_context_path(origin: &Origin, text: &str) -> bool
    ensures { result ≡ is_context_path origin.now text.now }
{
    match origin {
        Origin::Source(Source::Context) => is_spelled_out(text),
        Origin::Source(Source::Scratch) => false,
        Origin::Source(Source::Image(_)) => false,
        Origin::Stage(_) => false,
    }
}

/// A source, with whether it is a path of the context.
fn with_place(origin: &Origin, found: Option<Text>) -> Option<Missed>
    ensures { result ≡ with_place origin.now found }
{
    match found {
        Some(source) => {
            let is_context_path = is_context_path(origin, source.as_str());
            Some(Missed {
                source,
                is_context_path,
            })
        }
        None => None,
    }
}

/// The source that an instruction misses which fails because one isn't there.
fn missed_by(alloc: Global, trees: &Sources, action: &Action) -> Result<Option<Missed>, Memory>
    ensures { IfOk result (λ found. found ≡ missed_by trees.now action.now) }
{
    match action {
        Action::Run { .. } => Ok(None),
        Action::Copy { files, from, .. } => match from {
            Some(origin) => {
                let found = missed_from(alloc, trees, origin, files.sources.as_slice())?;
                Ok(with_place(origin, found))
            }
            None => Ok(None),
        },
        Action::MakeDirs { .. } => Ok(None),
    }
}

/// The same of the instruction on a line of a stage, if it is there.
fn missed_in(
    alloc: Global,
    trees: &Sources,
    line: u32,
    steps: &[Step],
) -> Result<Option<Missed>, Memory>
    ensures { IfOk result (λ found. found ≡ missed_in trees.now line steps.now) }
{
    for step in steps {
        if step.line == line {
            return missed_by(alloc, trees, &step.action);
        }
    }
    Ok(None)
}

/// The same of a stage that isn't left out.
fn missed_in_row(
    alloc: Global,
    trees: &Sources,
    line: u32,
    row: &Option<Stage>,
) -> Result<Option<Missed>, Memory>
    ensures { IfOk result (λ found. found ≡ missed_in_row trees.now line row.now) }
{
    match row {
        Some(stage) => missed_in(alloc, trees, line, stage.steps.as_slice()),
        None => Ok(None),
    }
}

/// The same of the instruction on a line of a file.
fn missed_at(
    alloc: Global,
    trees: &Sources,
    line: u32,
    rows: &[Option<Stage>],
) -> Result<Option<Missed>, Memory>
    ensures { IfOk result (λ found. found ≡ missed_at trees.now line rows.now) }
{
    for row in rows {
        if let Some(missed) = missed_in_row(alloc, trees, line, row)? {
            return Ok(Some(missed));
        }
    }
    Ok(None)
}

/// The source that the instruction on a line of a file misses which fails with this cause, by the trees that are there before the build.
///
/// There is none if it fails for another cause, or fails for what a RUN binds. Nor is there one of several sources that are copied from a stage, whose
/// tree isn't looked at. What a source takes is what copying it alone takes.
pub fn missed_source(
    alloc: Global,
    trees: &Sources,
    rows: &[Option<Stage>],
    line: u32,
    cause: Cause,
) -> Result<Option<Missed>, Memory>
    ensures { IfOk result (λ found. found ≡ missed_source trees.now rows.now line cause) }
{
    if is_for_source(cause) {
        missed_at(alloc, trees, line, rows)
    } else {
        Ok(None)
    }
}
