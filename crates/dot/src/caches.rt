// The caches of a plan, and their nodes.
ghost use Rattle.std.specs.Prelude.{◌≡◌, ◌++◌, [], IfOk, OnOk};
ghost use Rattle.std.specs.String.{string_bytes};
ghost use Rattle.plans.specs.Plan.{caches_of};
ghost use Rattle.dot.specs.Drawn.{line_of, lines_of, number_of, with_id, with_ids, ids_after, ids_of, caches};
ghost use Rattle.dot.specs.Drawn.Statement.{Cache};

use crate::quoted::push_quoted;
use llb::{Op, Vertex};
use plain::{Exact, Items, Memory, Text};
use runs::CacheUse;
use std::alloc::Global;

/// The caches that an operation uses.
pub(crate) fn caches_of(op: &Op) -> &[CacheUse]
    ensures { result.now ≡ caches_of op.now }
{
    match op {
        Op::Exec(exec) => exec.caches.as_slice(),
        Op::Source(_) | Op::Copy(_) | Op::MakeDirs(_) | Op::Merge => &[],
    }
}

/// The number of an id among others; how many they are if it isn't one of them.
pub(crate) fn number_of(ids: &[Text], id: &Text) -> usize
    ensures { result ≡ number_of ids.now id.now }
{
    for (number, other) in ids.iter().enumerate() {
        if other == id {
            return number;
        }
    }
    ids.len()
}

/// Adds an id, if it isn't there.
fn add_id(alloc: Global, ids: &mut Items<Text>, id: &Text) -> Result<(), Memory>
    ensures { OnOk result (ids.new ≡ with_id ids.old id.now) }
{
    if number_of(ids.as_slice(), id) == ids.len() {
        ids.push(id.copy(alloc)?)?;
    }
    Ok(())
}

/// Adds the ids of some caches that aren't there.
fn add_ids(alloc: Global, ids: &mut Items<Text>, caches: &[CacheUse]) -> Result<(), Memory>
    ensures { OnOk result (ids.new ≡ with_ids ids.old caches.now) }
{
    for cache in caches {
        add_id(alloc, ids, &cache.id)?;
    }
    Ok(())
}

/// The ids of the caches of some vertices, each once.
pub(crate) fn ids_of(alloc: Global, vertices: &[Vertex]) -> Result<Items<Text>, Memory>
    ensures { IfOk result (λ ids. ids ≡ ids_of vertices.now) }
{
    let mut ids = Items::new(alloc);
    for vertex in vertices {
        add_ids(alloc, &mut ids, caches_of(&vertex.op))?;
    }
    Ok(ids)
}

/// Adds the node of a cache.
#[tactic(auto, unfolding(crate::specs::Drawn::line_of))]
fn push_cache(alloc: Global, out: &mut String, number: usize, id: &str) -> Result<(), Memory>
    ensures { OnOk result (string_bytes out.new ≡ string_bytes out.old ++ line_of (Cache number id.now)) }
{
    let before = format!(in alloc; "  c{number} [label=\"cache ")?;
    push_quoted(out, before.as_str(), id, "\" shape=cylinder];\n")?;
    Ok(())
}

/// Adds the nodes of caches with these ids.
pub(crate) fn push_caches(alloc: Global, out: &mut String, ids: &[Text]) -> Result<(), Memory>
    ensures { OnOk result (string_bytes out.new ≡ string_bytes out.old ++ lines_of (caches 0 ids.now)) }
{
    for (number, id) in ids.iter().enumerate() {
        push_cache(alloc, out, number, id.as_str())?;
    }
    Ok(())
}
