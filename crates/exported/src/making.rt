// What a vertex is in a definition.

ghost use Rattle.std.specs.Prelude.{◌≡◌, IfOk, None, slice_index_or};
ghost use Rattle.llb.specs.declared.op.Source.TheVariants.{Context};
ghost use Rattle.llb.specs.declared.op.Op.TheVariants.{MakeDirs};
ghost use Rattle.exported.specs.Merges.{trees_at as trees_of};
ghost use Rattle.exported.specs.Making.{places_at, laid, merged, source_made, made_on, vertex_made};

use crate::chains::chain_op;
use crate::commands::exec_op;
use crate::files::{copy_op, make_dir_op};
use crate::merges::{merge_op, trees_at};
use crate::sources::{context_op, image_op};
use llb::{Op, Source, Vertex, VertexId};
use llbmessages::{Network, Op as Operation, Platform};
use named::NamedRows;
use paths::Path;
use plain::{Exact, Items, Memory, Text};
use std::alloc::Global;

/// What is chosen of a definition beside its plan.
#[derive(Drop)]
pub struct Options {
    /// The platform that images are taken of, and on which commands run.
    pub platform: Platform,
    /// The network of every command.
    pub network: Network,
    /// A text that no other build has which may run at the same time with other files.
    pub unique: Text,
    /// What a merge of trees is.
    pub merging: Merging,
    /// The digests that pin the names of images, by these names.
    pub digests: NamedRows<Text>,
    /// The files that the build isn't given: a JSON list of patterns.
    pub excludes: Option<Text>,
    /// Of the others, those that the build is given: a JSON list of patterns. `None` is all of them.
    pub follows: Option<Text>,
}

/// What a merge of trees is.
#[derive(Clone, Copy, Debug, PartialEq, Eq)]
pub enum Merging {
    /// BuildKit's own merge.
    Native,
    /// An operation of files, which any BuildKit knows: copies of trees, one onto the other.
    Chain,
}

/// What a vertex is in a definition.
pub enum Made {
    /// The tree of an operation that stands for another vertex, by its digest, or the empty tree.
    Same(Option<Text>),
    /// An operation of its own.
    By(Operation),
}

/// It ends by a call, so that no proof above goes by what a vertex is at each place where one is let go.
impl Drop for Made {
    fn drop(self) {
        match self {
            Made::Same(place) => drop(place),
            Made::By(operation) => drop(operation),
        }
    }
}

/// A copy of the text of this number, as the digest of a place; `None` where there is none.
pub(crate) fn text_at(
    alloc: Global,
    texts: &[Option<Text>],
    number: usize,
) -> Result<Option<Text>, Memory>
    ensures { IfOk result (λ text. text ≡ slice_index_or texts.now number None) }
{
    match texts.get(number) {
        Some(Some(text)) => Ok(Some(text.copy(alloc)?)),
        Some(None) | None => Ok(None),
    }
}

/// The places of some vertices, of which those before have these.
fn places_at(
    alloc: Global,
    known: &[Option<Text>],
    ids: &[VertexId],
) -> Result<Items<Option<Text>>, Memory>
    ensures { IfOk result (λ places. places ≡ places_at known.now ids.now) }
{
    let mut places = Items::new(alloc);
    for id in ids {
        places.push(text_at(alloc, known, id.index())?)?;
    }
    Ok(places)
}

/// What a source is.
fn source_made(alloc: Global, options: &Options, source: &Source) -> Result<Made, Memory>
    ensures { IfOk result (λ made. made ≡ source_made options.now source.now) }
{
    match source {
        Source::Scratch => Ok(Made::Same(None)),
        Source::Context => context_made(alloc, options),
        Source::Image(name) => Ok(Made::By(image_op(
            alloc,
            &options.platform,
            &options.digests,
            name,
        )?)),
    }
}

/// What the files that a build is given are.
fn context_made(alloc: Global, options: &Options) -> Result<Made, Memory>
    ensures { IfOk result (λ made. made ≡ source_made options.now Context) }
{
    let context = context_op(
        alloc,
        options.unique.as_str(),
        &options.excludes,
        &options.follows,
    )?;
    Ok(Made::By(context))
}

/// What a folder that is made is.
fn dir_made(
    alloc: Global,
    options: &Options,
    places: &[Option<Text>],
    path: &Path,
) -> Result<Made, Memory>
    ensures { IfOk result (λ made. made ≡ made_on options.now places.now (MakeDirs path.now)) }
{
    if path.is_root() {
        return Ok(Made::Same(text_at(alloc, places, 0)?));
    }
    Ok(Made::By(make_dir_op(alloc, &options.platform, places, path)?))
}

/// The operation that lays the trees of these digests over each other.
fn laid(alloc: Global, options: &Options, digests: &[Text]) -> Result<Operation, Memory>
    ensures { IfOk result (λ op. op ≡ laid options.now.merging options.now.platform digests.now) }
{
    match options.merging {
        Merging::Native => merge_op(alloc, digests),
        Merging::Chain => chain_op(alloc, &options.platform, digests),
    }
}

/// What a merge is.
fn merge_made(alloc: Global, options: &Options, places: &[Option<Text>]) -> Result<Made, Memory>
    ensures { IfOk result (λ made. made ≡ merged options.now (trees_of places.now)) }
{
    let trees = trees_at(alloc, places)?;
    match trees.as_slice() {
        [] => Ok(Made::Same(None)),
        [digest] => Ok(Made::Same(Some(digest.copy(alloc)?))),
        digests => Ok(Made::By(laid(alloc, options, digests)?)),
    }
}

/// What an operation on the trees of these places is.
fn made_on(
    alloc: Global,
    options: &Options,
    places: &[Option<Text>],
    op: &Op,
) -> Result<Made, Memory>
    ensures { IfOk result (λ made. made ≡ made_on options.now places.now op.now) }
{
    match op {
        Op::Source(source) => source_made(alloc, options, source),
        Op::Exec(exec) => Ok(Made::By(exec_op(
            alloc,
            &options.platform,
            options.network,
            places,
            exec,
        )?)),
        Op::Copy(files) => Ok(Made::By(copy_op(alloc, &options.platform, places, files)?)),
        Op::MakeDirs(path) => dir_made(alloc, options, places, path),
        Op::Merge => merge_made(alloc, options, places),
    }
}

/// What a vertex is in a definition: the trees of the vertices before it are at these places.
#[tactic(auto, unfolding(crate::specs::Making::vertex_made))]
pub fn vertex_made(
    alloc: Global,
    options: &Options,
    known: &[Option<Text>],
    vertex: &Vertex,
) -> Result<Made, Memory>
    ensures { IfOk result (λ made. made ≡ vertex_made options.now known.now vertex.now) }
{
    let places = places_at(alloc, known, vertex.inputs.as_slice())?;
    made_on(alloc, options, places.as_slice(), &vertex.op)
}
