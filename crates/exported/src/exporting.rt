// A plan as a definition.

ghost use Rattle.std.specs.Prelude.{◌≡◌, [], None, false, IfOk, slice_index_or};
ghost use Rattle.llb.specs.Places.{least_line};
ghost use Rattle.exported.specs.Exporting.{is_carried, is_carried_escape, are_carried, can_exclude, is_speakable, placed, vertex_placed, root_op, ended, exported, IsExported};
ghost use Rattle.exported.specs.PrivateExporting.{Gives, Tells};

use crate::draft::Draft;
use crate::files::make_dir_op;
use crate::making::{Made, Options, vertex_made};
use crate::metadata::vertex_name;
use crate::{ExportFault, Obstacle};
use llb::{Graph, Op as Work, Source, Vertex, VertexId};
use llbmessages::{Definition, Op};
use paths::Path;
use plain::{Bytes, Exact, Fault, Items, Memory, Text};
use plans::Plan;
use std::alloc::Global;

/// A plan as a definition of BuildKit's LLB: the bytes of just its operations, each once and after its inputs, of an end that names the
/// target's tree, and of what is said of each: what an engine has to be capable of, and what progress calls it. They are read as that
/// definition and nothing else.
///
/// `names` has at the number of a line what progress calls the instruction of that line, if it has a name; a vertex is called as the
/// instruction of the least of its lines.
///
/// `Unspeakable` or `Clash` at the first vertex of which BuildKit can't be told, or whose operation has the digest of a different one.
pub fn export<C>(
    alloc: Global,
    plan: &Plan<C>,
    options: &Options,
    names: &[Option<Text>],
) -> Result<Bytes, ExportFault>
    ensures { IsExported (exported options.now names.now plan.now.graph plan.now.target) result }
{
    let definition = definition_of(alloc, options, names, plan.graph(), plan.target())?;
    Ok(definition.to_bytes(alloc)?)
}

/// The definition of a graph and its result.
fn definition_of(
    alloc: Global,
    options: &Options,
    names: &[Option<Text>],
    graph: &Graph,
    wanted: VertexId,
) -> Result<Definition, ExportFault>
    ensures { Tells (exported options.now names.now graph.now wanted) result }
{
    let mut places = Items::new(alloc);
    let mut draft = Draft::new(alloc);
    for vertex in graph.vertices() {
        let line = line_of(graph, places.len())?;
        let place = add_vertex(
            alloc,
            options,
            names,
            line,
            places.as_slice(),
            &mut draft,
            vertex,
        )?;
        places.push(place)?;
    }
    match places.as_slice().get(wanted.index()) {
        Some(Some(digest)) => Ok(draft.end(alloc, digest)?),
        Some(None) | None => ended_empty(alloc, options, graph.len(), draft),
    }
}

/// The least line behind the vertex of this number.
fn line_of(graph: &Graph, number: usize) -> Result<u32, Memory>
    ensures { IfOk result (λ line. line ≡ least_line (slice_index_or graph.now.places number [])) }
{
    match u32::try_from(number) {
        Ok(number) => Ok(graph.least_place(VertexId::new(number))),
        Err(_) => Err(Memory),
    }
}

/// Adds the operation of a vertex, whose least line this is, and answers its place.
#[tactic(auto, unfolding(crate::specs::Exporting::vertex_placed))]
fn add_vertex(
    alloc: Global,
    options: &Options,
    names: &[Option<Text>],
    line: u32,
    places: &[Option<Text>],
    draft: &mut Draft,
    vertex: &Vertex,
) -> Result<Option<Text>, ExportFault>
    ensures { Gives (vertex_placed options.now names.now line places.now draft.old vertex.now) draft.new result }
{
    if !is_speakable(options, &vertex.op) {
        return Err(Fault::Because(Obstacle::Unspeakable(places.len())));
    }
    let made = vertex_made(alloc, options, places, vertex)?;
    let name = vertex_name(alloc, names, line, &vertex.op)?;
    add_made(alloc, places.len(), draft, &made, &name)
}

/// Adds the operation that a vertex of this number and name is, and answers its place.
fn add_made(
    alloc: Global,
    number: usize,
    draft: &mut Draft,
    made: &Made,
    name: &Option<Text>,
) -> Result<Option<Text>, ExportFault>
    ensures { Gives (placed number draft.old name.now made.now) draft.new result }
{
    match made {
        Made::Same(place) => Ok(place.copy(alloc)?),
        Made::By(op) => draft.add(alloc, number, op, name),
    }
}

/// Whether an operation can be said to BuildKit.
fn is_speakable(options: &Options, op: &Work) -> bool
    ensures { result ≡ is_speakable options.now op.now }
{
    match op {
        Work::Source(Source::Context) => {
            can_exclude(&options.excludes) && can_exclude(&options.follows)
        }
        _ => true,
    }
}

/// Whether the patterns can be said, if there are some.
fn can_exclude(excludes: &Option<Text>) -> bool
    ensures { result ≡ can_exclude excludes.now }
{
    match excludes {
        None => true,
        Some(patterns) => are_carried(patterns.as_str().as_bytes()),
    }
}

/// Whether a character is carried.
#[tactic(auto, unfolding(crate::specs::Exporting::is_carried))]
pub(crate) fn is_carried(byte: u8) -> bool
    ensures { result ≡ is_carried byte }
{
    32 <= byte && byte <= 126
}

/// Whether a character is carried after a `\`.
#[tactic(auto, unfolding(crate::specs::Exporting::is_carried_escape))]
fn is_carried_escape(byte: u8) -> bool
    ensures { result ≡ is_carried_escape byte }
{
    byte == b'"' || byte == b'\\' || byte == b'/'
}

/// Whether all characters that a JSON text says are carried.
fn are_carried(bytes: &[u8]) -> bool
    ensures { result ≡ are_carried false bytes.now }
{
    let mut escaped = false;
    for byte in bytes {
        let carried = if escaped {
            is_carried_escape(*byte)
        } else {
            is_carried(*byte)
        };
        if !carried {
            return false;
        }
        escaped = !escaped && *byte == b'\\';
    }
    true
}

/// The operation that makes the root of an empty tree.
#[tactic(auto, unfolding(crate::specs::Exporting::root_op))]
fn root_op(alloc: Global, options: &Options) -> Result<Op, Memory>
    ensures { IfOk result (λ op. op ≡ root_op options.now) }
{
    make_dir_op(alloc, &options.platform, &[], &Path::root(alloc))
}

/// A definition with its end, whose result is the empty tree; `number` is how many vertices there are.
fn ended_empty(
    alloc: Global,
    options: &Options,
    number: usize,
    draft: Draft,
) -> Result<Definition, ExportFault>
    ensures { Tells (ended options.now number draft None) result }
{
    let mut draft = draft;
    let root = root_op(alloc, options)?;
    match draft.add(alloc, number, &root, &None)? {
        Some(digest) => Ok(draft.end(alloc, &digest)?),
        None => unreachable!(),
    }
}
