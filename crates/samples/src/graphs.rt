use crate::data::{path, texts, tree};
use llb::{Bind, CopyFiles, Exec, FileSource, Graph, Op, Source, Vertex, VertexId};
use paths::Path;
use plain::limits::MOST_LINE_NUMBER;
use plain::{Items, Memory, Sharing, Text, Variables};
use plans::{Plan, Sources};
use runs::CacheUse;
use std::alloc::Global;
use trees::{CopyOptions, Tree};

/// A command of the words between a text's spaces, at the root, with nothing mounted.
pub fn command(alloc: Global, text: &str) -> Result<Exec, Memory> {
    let user = Text::from_str(alloc, "")?;
    let words = texts(alloc, text)?;
    Ok(Exec {
        binds: Items::new(alloc),
        caches: Items::new(alloc),
        dir: Path::root(alloc),
        env: Variables::none(),
        user,
        words,
    })
}

/// A bind mount.
pub fn bind(alloc: Global, source: &str, target: &str, rw: bool) -> Result<Bind, Memory> {
    let source = path(alloc, source)?;
    let target = path(alloc, target)?;
    Ok(Bind { rw, source, target })
}

/// A cache mount.
pub fn cache(alloc: Global, id: &str, target: &str, sharing: Sharing) -> Result<CacheUse, Memory> {
    let id = Text::from_str(alloc, id)?;
    let target = path(alloc, target)?;
    Ok(CacheUse {
        id,
        sharing,
        target,
    })
}

/// Patterns as the sources of a copy: the pieces of a text between its spaces.
pub fn patterns(alloc: Global, text: &str) -> Result<Items<FileSource>, Memory> {
    let mut sources = Items::new(alloc);
    for piece in text.split(' ') {
        sources.push(FileSource::Pattern(Text::from_str(alloc, piece)?))?;
    }
    Ok(sources)
}

/// A copy without flags; into the destination where its text ends in `/`.
pub fn copy(alloc: Global, sources: Items<FileSource>, dest: &str) -> Result<CopyFiles, Memory> {
    let options = CopyOptions {
        into: dest.ends_with('/'),
        owner: None,
        mode: None,
    };
    let dest = path(alloc, dest)?;
    Ok(CopyFiles {
        sources,
        dest,
        options,
    })
}

/// A vertex of a plan: the operation that a line names (`op_of`), the vertices that it works on, and the line of its instruction, 0 for none.
pub type Row<'a> = (&'a str, &'a [u32], u32);

/// A command as `command` gives it, with a locked cache at `/c`.
pub fn locked(alloc: Global, id: &str, text: &str) -> Result<Exec, Memory> {
    let used = cache(alloc, id, "/c", Sharing::Locked)?;
    let mut exec = command(alloc, text)?;
    match exec.caches.push(used) {
        Ok(()) => Ok(exec),
        Err(memory) => {
            drop(exec);
            Err(memory)
        }
    }
}

/// A command as `locked` gives it with the cache `k`, and with another locked cache, `l`, at `/d`.
fn with_two_caches(alloc: Global, text: &str) -> Result<Exec, Memory> {
    let used = cache(alloc, "l", "/d", Sharing::Locked)?;
    let mut exec = locked(alloc, "k", text)?;
    match exec.caches.push(used) {
        Ok(()) => Ok(exec),
        Err(memory) => {
            drop(exec);
            Err(memory)
        }
    }
}

/// A command as `command` gives it, with a bind of this path of its second tree, at `/m`.
fn bound(alloc: Global, source: &str, text: &str) -> Result<Exec, Memory> {
    let mount = bind(alloc, source, "/m", false)?;
    let mut exec = command(alloc, text)?;
    match exec.binds.push(mount) {
        Ok(()) => Ok(exec),
        Err(memory) => {
            drop(exec);
            Err(memory)
        }
    }
}

/// The operation that a line names: `scratch`, `context`, `image NAME`, `run WORD ..`, `locked WORD ..` (a run with the locked cache `k` at
/// `/c`), `both WORD ..` (one with the locked cache `l` at `/d` besides), `bound PATH WORD ..` (a run with this path of its second tree at `/m`),
/// `dirs PATH`, `merge`, or `copy PATTERN .. DEST`. Any other line is `scratch`.
pub fn op_of(alloc: Global, line: &str) -> Result<Op, Memory> {
    let (kind, rest) = line.split_once(' ').unwrap_or((line, ""));
    match kind {
        "context" => Ok(Op::Source(Source::Context)),
        "image" => Ok(Op::Source(Source::Image(Text::from_str(alloc, rest)?))),
        "run" => Ok(Op::Exec(command(alloc, rest)?)),
        "locked" => Ok(Op::Exec(locked(alloc, "k", rest)?)),
        "both" => Ok(Op::Exec(with_two_caches(alloc, rest)?)),
        "bound" => {
            let (source, words) = rest.split_once(' ').unwrap_or((rest, ""));
            Ok(Op::Exec(bound(alloc, source, words)?))
        }
        "dirs" => Ok(Op::MakeDirs(path(alloc, rest)?)),
        "merge" => Ok(Op::Merge),
        "copy" => {
            let (sources, dest) = rest.rsplit_once(' ').unwrap_or((rest, "/"));
            Ok(Op::Copy(copy(alloc, patterns(alloc, sources)?, dest)?))
        }
        _ => Ok(Op::Source(Source::Scratch)),
    }
}

/// Adds an operation on these vertices to a graph, from a line if it has one, and gives its number; `None` where it isn't well formed on
/// them, one of them isn't in the graph, the line is none, or the graph is full.
pub fn add(
    alloc: Global,
    graph: &mut Graph,
    op: Op,
    inputs: &[u32],
    line: Option<u32>,
) -> Result<Option<u32>, Memory> {
    match ids_of(alloc, inputs) {
        Ok(inputs) => add_vertex(alloc, graph, Vertex { op, inputs }, line),
        Err(memory) => {
            drop(op);
            Err(memory)
        }
    }
}

fn ids_of(alloc: Global, numbers: &[u32]) -> Result<Items<VertexId>, Memory> {
    let mut ids = Items::new(alloc);
    for number in numbers {
        ids.push(VertexId::new(*number))?;
    }
    Ok(ids)
}

fn add_vertex(
    alloc: Global,
    graph: &mut Graph,
    vertex: Vertex,
    line: Option<u32>,
) -> Result<Option<u32>, Memory> {
    let is_line = match line {
        None => true,
        Some(line) => 0 < line && line <= MOST_LINE_NUMBER,
    };
    match graph.can_add(alloc, &vertex) {
        Ok(can_add) if can_add && is_line => match graph.add(alloc, vertex, line) {
            Ok(id) => Ok(Some(id.number())),
            Err(_) => Ok(None),
        },
        Ok(_) => {
            drop(vertex);
            Ok(None)
        }
        Err(memory) => {
            drop(vertex);
            Err(memory)
        }
    }
}

/// Adds a row to a graph as `add` does.
pub fn add_row(alloc: Global, graph: &mut Graph, row: &Row) -> Result<Option<u32>, Memory> {
    let (text, inputs, line) = *row;
    let op = op_of(alloc, text)?;
    let line = if line == 0 { None } else { Some(line) };
    add(alloc, graph, op, inputs, line)
}

/// The graph of these rows; `None` where one of them can't be added.
pub fn graph_of(alloc: Global, rows: &[Row]) -> Result<Option<Graph>, Memory> {
    let mut graph = Graph::new(alloc);
    for row in rows {
        match add_row(alloc, &mut graph, row) {
            Ok(Some(_)) => {}
            Ok(None) => return Ok(None),
            Err(memory) => return Err(memory),
        }
    }
    Ok(Some(graph))
}

/// The plan of a graph and a target, with this tree as the context, no image and the configuration 7; `None` where the target isn't in the
/// graph, or it names an image.
pub fn plan_of(alloc: Global, graph: Graph, target: u32, context: Tree) -> Option<Plan<u8>> {
    let sources = Sources::new(alloc, context);
    let target = VertexId::new(target);
    if target.index() >= graph.len() || !sources.suffice(&graph) {
        return None;
    }
    Some(Plan::new(graph, target, 7, sources))
}

/// The plan of the graph of these rows, as `plan_of` gives it, with these files as the context (`tree`). Rows that have none are told as want
/// of memory: either fails a test.
pub fn plan_of_rows(
    alloc: Global,
    rows: &[Row],
    target: u32,
    files: &[(&str, &str)],
) -> Result<Plan<u8>, Memory> {
    let context = tree(alloc, files)?;
    match graph_of(alloc, rows) {
        Ok(Some(graph)) => match plan_of(alloc, graph, target, context) {
            Some(plan) => Ok(plan),
            None => Err(Memory),
        },
        Ok(None) | Err(Memory) => {
            drop(context);
            Err(Memory)
        }
    }
}
