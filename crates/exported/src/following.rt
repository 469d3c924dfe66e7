// What BuildKit is told of the files that a graph names.

ghost use Rattle.std.specs.Prelude.{◌≡◌, ◌++◌, [], map, IfOk, OnOk, option_copied};
ghost use Rattle.std.specs.List.{list_all, list_any};
ghost use Rattle.globs.specs.Glob.{components_of};
ghost use Rattle.exported.specs.Exporting.{is_carried};
ghost use Rattle.exported.specs.Excluding.{exclude_list};
ghost use Rattle.exported.specs.Following.{is_root, carried_names, plain_names, source_paths, sources_paths, bind_paths, mount_paths, input_paths, is_context_op, is_context, inputs_paths, named_paths, result_paths, paths_of, told_list, follow_list};

use crate::excluding::{pattern_of, patterns_text};
use crate::exporting::is_carried;
use crate::patterns::{begins, name_of};
use globs::cut_components;
use llb::{Bind, Exec, FileSource, Graph, Op, Source, Vertex, VertexId};
use plain::{Exact, Items, Memory, Text};
use plans::Plan;
use std::alloc::Global;

/// Paths, each as the names of its components.
type Paths = Items<Items<Text>>;

/// Whether a name can be told.
fn is_told(name: &[u8]) -> bool
    ensures { result ≡ list_all is_carried name.now }
{
    for byte in name {
        if !is_carried(*byte) {
            return false;
        }
    }
    true
}

/// The names before the first that can't be told.
fn carried_names(alloc: Global, names: &[Text]) -> Result<Items<Text>, Memory>
    ensures { IfOk result (λ front. front ≡ carried_names names.now) }
{
    let mut front = Items::new(alloc);
    for name in names {
        if !is_told(name.as_str().as_bytes()) {
            return Ok(front);
        }
        front.push(name.copy(alloc)?)?;
    }
    Ok(front)
}

/// The names that a pattern's components spell before the first of them that spells none.
fn plain_names(alloc: Global, components: &[&str]) -> Result<Items<Text>, Memory>
    ensures { IfOk result (λ names. names ≡ plain_names (map (λ text. text.now) components.now)) }
{
    let mut names = Items::new(alloc);
    for component in components {
        let name = name_of(alloc, component)?;
        if begins(false, component, name.as_str()) {
            return Ok(names);
        }
        names.push(Text::from_string(name))?;
    }
    Ok(names)
}

/// The path before a pattern's first sign.
fn pattern_path(alloc: Global, text: &str) -> Result<Items<Text>, Memory>
    ensures { IfOk result (λ path. path ≡ carried_names (plain_names (components_of text.now))) }
{
    let components = cut_components(alloc, text)?;
    let names = plain_names(alloc, components.as_slice())?;
    carried_names(alloc, names.as_slice())
}

/// Adds what a source of a COPY names.
fn push_source(alloc: Global, paths: &mut Paths, source: &FileSource) -> Result<(), Memory>
    ensures { OnOk result (paths.new ≡ paths.old ++ source_paths source.now) }
{
    match source {
        FileSource::Pattern(text) => paths.push(pattern_path(alloc, text.as_str())?),
        FileSource::Data(_, _) => Ok(()),
    }
}

/// Adds what sources of a COPY name.
fn push_sources(alloc: Global, paths: &mut Paths, sources: &[FileSource]) -> Result<(), Memory>
    ensures { OnOk result (paths.new ≡ paths.old ++ sources_paths sources.now) }
{
    for source in sources {
        push_source(alloc, paths, source)?;
    }
    Ok(())
}

/// Adds what a bind mount names, or the whole tree where there is none.
fn push_bind(alloc: Global, paths: &mut Paths, bind: Option<&Bind>) -> Result<(), Memory>
    ensures { OnOk result (paths.new ≡ paths.old ++ bind_paths (option_copied bind.entry)) }
{
    match bind {
        None => paths.push(Items::new(alloc)),
        Some(bind) => paths.push(carried_names(alloc, bind.source.components())?),
    }
}

/// Adds what a command names of its input of this number.
fn push_mount(alloc: Global, paths: &mut Paths, exec: &Exec, number: usize) -> Result<(), Memory>
    ensures { OnOk result (paths.new ≡ paths.old ++ mount_paths exec.now.binds number) }
{
    if number == 0 {
        return paths.push(Items::new(alloc));
    }
    push_bind(alloc, paths, exec.binds.as_slice().get(number - 1))
}

/// Adds what an operation names of its input of this number.
fn push_input(alloc: Global, paths: &mut Paths, op: &Op, number: usize) -> Result<(), Memory>
    ensures { OnOk result (paths.new ≡ paths.old ++ input_paths op.now number) }
{
    match op {
        Op::Exec(exec) => push_mount(alloc, paths, exec, number),
        Op::Copy(files) if number == 1 => push_sources(alloc, paths, files.sources.as_slice()),
        Op::Copy(_) | Op::Source(_) | Op::MakeDirs(_) | Op::Merge => {
            paths.push(Items::new(alloc))
        }
    }
}

/// Whether an operation is the files that a build is given.
fn is_context_op(op: &Op) -> bool
    ensures { result ≡ is_context_op op.now }
{
    matches!(op, Op::Source(Source::Context))
}

/// Whether the vertex of a number is.
fn is_context(vertices: &[Vertex], id: VertexId) -> bool
    ensures { result ≡ is_context vertices.now id }
{
    match vertices.get(id.index()) {
        Some(vertex) => is_context_op(&vertex.op),
        None => false,
    }
}

/// Adds what an operation names of the files that a build is given.
fn push_inputs(
    alloc: Global,
    paths: &mut Paths,
    vertices: &[Vertex],
    vertex: &Vertex,
) -> Result<(), Memory>
    ensures { OnOk result (paths.new ≡ paths.old ++ inputs_paths vertices.now vertex.now.op 0 vertex.now.inputs) }
{
    for (number, id) in vertex.inputs.as_slice().iter().enumerate() {
        if is_context(vertices, *id) {
            push_input(alloc, paths, &vertex.op, number)?;
        }
    }
    Ok(())
}

/// What is named of these files as a result.
fn result_paths(alloc: Global, vertices: &[Vertex], wanted: VertexId) -> Result<Paths, Memory>
    ensures { IfOk result (λ paths. paths ≡ result_paths vertices.now wanted) }
{
    let mut paths = Items::new(alloc);
    if is_context(vertices, wanted) {
        paths.push(Items::new(alloc))?;
    }
    Ok(paths)
}

/// What a graph with its result names of these files.
fn paths_of(alloc: Global, graph: &Graph, wanted: VertexId) -> Result<Paths, Memory>
    ensures { IfOk result (λ paths. paths ≡ paths_of graph.now wanted) }
{
    let vertices = graph.vertices();
    let mut paths = result_paths(alloc, vertices, wanted)?;
    for vertex in vertices {
        push_inputs(alloc, &mut paths, vertices, vertex)?;
    }
    Ok(paths)
}

/// Whether one of some paths is the root.
fn some_root(paths: &[Items<Text>]) -> bool
    ensures { result ≡ list_any is_root paths.now }
{
    for path in paths {
        if path.is_empty() {
            return true;
        }
    }
    false
}

/// The list of the patterns of some paths.
fn list_of(alloc: Global, paths: &[Items<Text>]) -> Result<Option<Text>, Memory>
    ensures { IfOk result (λ list. list ≡ exclude_list paths.now) }
{
    let mut patterns = Items::new(alloc);
    for path in paths {
        patterns.push(pattern_of(alloc, path.as_slice())?)?;
    }
    patterns_text(alloc, patterns.as_slice())
}

/// The same, if none of them is the root.
fn told_list(alloc: Global, paths: &[Items<Text>]) -> Result<Option<Text>, Memory>
    ensures { IfOk result (λ list. list ≡ told_list paths.now) }
{
    if some_root(paths) {
        return Ok(None);
    }
    list_of(alloc, paths)
}

/// The patterns of the paths that a plan's operations name of the files that its build is given, each of which relates to one path: a JSON list. BuildKit
/// takes what is there, with all below it. `None` if they name all files, or none.
pub fn follow_list<C>(alloc: Global, plan: &Plan<C>) -> Result<Option<Text>, Memory>
    ensures { IfOk result (λ list. list ≡ follow_list plan.now.graph plan.now.target) }
{
    let paths = paths_of(alloc, plan.graph(), plan.target())?;
    told_list(alloc, paths.as_slice())
}
