// Puts the links of a plan into one.
ghost use Rattle.std.specs.Prelude.{◌≡◌, ◌<◌, ◌↔◌, true, length, IfOk, IsTrue};
ghost use Rattle.std.specs.List.{list_all};
ghost use Rattle.plans.specs.Plan.{problem_of, NeedsAll};
ghost use Rattle.plans.specs.Value.{Out};
ghost use Rattle.rewrite.specs.Flat.{IsFlattened, MergesAreFlat};
ghost use Rattle.rewrite.specs.PrivateFlat.{link_below, is_pair, LastsDiffer, MergesDiffer, MarksLast};
ghost use Rattle.rewrite.specs.PrivateSpelled.{IsFlatOf};
ghost use Rattle.rewrite.specs.Pruned.{KeepsMeaning};

use crate::joining::{Joined, find_name, join_all};
use crate::spelled::{spell_merges, take_lines};
use llb::{Graph, Vertex, VertexId};
use plain::{Memory, no_marks};
use plans::Plan;
use reached::{Flattened, flatten_reached, is_merge, mark_reached};
use std::alloc::Global;
use std::mem;

/// The plan with its links put into one: a merge that is the first input of a merge is replaced by its inputs, and no other merge is. So a
/// stage with several `COPY --link` one after another is one merge of its base and of what each of them copied.
///
/// What the target doesn't reach goes, also a merge that was replaced wherever it stood. Vertices that become equal are one, with the lines
/// of all of them, also those of a merge that went so. The target has the value that it had, and of the vertices that fail those are left, with their lines and causes, that
/// the target reaches; the configuration and the sources stay. Every plan may be flattened. It takes as many steps as the two plans have
/// vertices, inputs and lines, unless a merge has more than two inputs, and two merges have the same last one: then each merge before is spelled
/// out too, and looked for. After `Memory` the plan is gone.
pub fn flatten_links<C: Drop>(alloc: Global, plan: Plan<C>) -> Result<Plan<C>, Memory>
    ensures flattened { IfOk result (IsFlattened plan) }
    ensures flat { IfOk result (λ flat. MergesAreFlat flat.graph.vertices) }
    ensures keeps { IfOk result (KeepsMeaning plan) }
    ensures needed { IfOk result (λ flat. (out : Out) → NeedsAll (problem_of out flat)) }
{
    let (graph, target, config, sources) = plan.into_parts();
    let Joined { graph: flat, names } = flatten_graph(alloc, graph, target)?;
    let _known = flat.vertices();
    let target = find_name(names.as_slice(), target);
    Ok(Plan::new(flat, target, config, sources))
}

/// The graph of what the target reaches once links are put into one, and its vertices' new numbers. If two of the merges that the target reached may be
/// equal, each of these is spelled out, also one that was replaced, so that its lines are found.
fn flatten_graph(alloc: Global, graph: Graph, target: VertexId) -> Result<Joined, Memory>
    requires { target < length graph.vertices }
    ensures { IfOk result (λ joined. IsFlatOf graph target joined.graph joined.names) }
{
    let (vertices, places) = graph.into_parts();
    let before = mark_reached(alloc, vertices.as_slice(), target)?;
    let differ = do_merges_differ(alloc, vertices.as_slice(), before.as_slice())?;
    let spelled = spell_merges(
        alloc,
        vertices.as_slice(),
        places.as_slice(),
        before.as_slice(),
        differ,
    )?;
    let Flattened { vertices, marks } = flatten_reached(alloc, vertices, target)?;
    let Joined {
        graph: joined,
        names,
    } = join_all(alloc, vertices, places, marks.as_slice(), differ)?;
    let _known = joined.vertices();
    let graph = take_lines(alloc, joined, names.as_slice(), spelled.as_slice())?;
    Ok(Joined { graph, names })
}

/// Whether a look at inputs shows that no two of the merges that are marked are equal, also on flat inputs: all have two inputs, as those of links
/// do, or each has a last one of its own. It takes two passes and compares no lists. It is `false` also where merges differ in another way.
fn do_merges_differ(alloc: Global, vertices: &[Vertex], marks: &[bool]) -> Result<bool, Memory>
    requires { length marks.now ≡ length vertices.now }
    ensures { IfOk result (λ differ. differ ≡ true → MergesDiffer vertices.now marks.now) }
{
    if are_pairs(vertices) {
        return Ok(true);
    }
    do_lasts_differ(alloc, vertices, marks)
}

/// Whether each merge has two inputs.
fn are_pairs(vertices: &[Vertex]) -> bool
    ensures { result ≡ list_all is_pair vertices.now }
{
    vertices
        .iter()
        .all(|vertex| !is_merge(&vertex.op) || vertex.inputs.len() == 2)
}

/// Whether each of the merges that are marked has a last input of its own.
fn do_lasts_differ(alloc: Global, vertices: &[Vertex], marks: &[bool]) -> Result<bool, Memory>
    requires { length marks.now ≡ length vertices.now }
    ensures { IfOk result (λ differ. differ ≡ true → LastsDiffer vertices.now marks.now) }
{
    let mut lasts = no_marks(alloc, vertices.len())?;
    for (at, vertex) in vertices.iter().enumerate() {
        if marks[at] && is_merge(&vertex.op) {
            if !mark_last(&mut lasts, vertex.inputs.as_slice()) {
                return Ok(false);
            }
        }
    }
    Ok(true)
}

/// Marks the last of these, and reports whether it wasn't marked before. It is `false` too where there is no last one, or no mark for it.
fn mark_last(marks: &mut Vec<bool>, ids: &[VertexId]) -> bool
    ensures { result ≡ true → MarksLast marks.old.items marks.new.items ids.now }
{
    let [.., last] = ids else {
        return false;
    };
    match marks.get_mut(last.index()) {
        Some(mark) => !mem::replace(mark, true),
        None => false,
    }
}

/// Whether no merge is the first input of a merge, so that there is nothing to flatten. It takes as many steps as there are vertices.
pub fn is_flat(vertices: &[Vertex]) -> bool
    ensures { IsTrue result ↔ MergesAreFlat vertices.now }
{
    for vertex in vertices {
        if link_below(vertices, vertex).is_some() {
            return false;
        }
    }
    true
}

/// The merge that is the first input of a merge.
pub(crate) fn link_below(vertices: &[Vertex], vertex: &Vertex) -> Option<VertexId>
    ensures { result ≡ link_below vertices.now vertex.now }
{
    if !is_merge(&vertex.op) {
        return None;
    }
    let [first, ..] = vertex.inputs.as_slice() else {
        return None;
    };
    let below = vertices.get(first.index())?;
    if is_merge(&below.op) {
        Some(*first)
    } else {
        None
    }
}
