// Adds the vertices of operations, each on inputs that are there.
ghost use Rattle.std.specs.Prelude.{◌≡◌, ◌<◌, ◌+◌, length, IsTrue, IfOk, Some, slice_get};
ghost use Rattle.std.specs.List.{All};
ghost use Rattle.llb.specs.Graph.{IsAfterInputs};
ghost use Rattle.plain.specs.Limits.{most_vertices};
ghost use Rattle.llb.specs.WellFormed.{is_well_formed, is_well_formed_on};
ghost use Rattle.llb.specs.Places.{IsLine};
ghost use Rattle.plans.specs.Sources.{HasSource};
ghost use Rattle.rows.specs.declared.row.Origin.TheVariants.{Stage as StageOf};
ghost use Rattle.lowering.specs.PrivateGrowth.{AreInside, HasTip, IsPut, IsOriginPut, AreInputsPut, IsOperationPut};
ghost use Rattle.lowering.specs.PrivateRoom.{op_others, RoomFor};
ghost use Rattle.rows.specs.WellFormed.{HasTree};

use llb::{Full, Graph, Op, Vertex, VertexId};
use plain::{Fault, Items, Memory};
use rows::Origin;
use std::alloc::Global;

/// Adds a vertex to a graph that isn't full.
fn add(
    alloc: Global,
    graph: &mut Graph,
    op: Op,
    inputs: Items<VertexId>,
    line: u32,
) -> Result<VertexId, Memory>
    requires inputs { IsAfterInputs (length graph.old.vertices) (record { op = op; inputs = inputs }) }
    requires well_formed { IsTrue (is_well_formed (record { op = op; inputs = inputs })) }
    requires line { IsLine line }
    requires room { length graph.old.vertices < most_vertices }
    ensures { IfOk result (IsPut graph.old graph.new op inputs line) }
{
    let _known = graph.vertices();
    match graph.add(alloc, Vertex { op, inputs }, Some(line)) {
        Ok(id) => Ok(id),
        Err(Fault::Memory) => Err(Memory),
        Err(Fault::Because(Full)) => unreachable!(),
    }
}

/// Adds a vertex. The graph isn't full: it has no more sources than there are, and few other vertices.
pub(crate) fn put(
    alloc: Global,
    graph: &mut Graph,
    op: Op,
    inputs: Items<VertexId>,
    line: u32,
) -> Result<VertexId, Memory>
    requires inputs { IsAfterInputs (length graph.old.vertices) (record { op = op; inputs = inputs }) }
    requires well_formed { IsTrue (is_well_formed (record { op = op; inputs = inputs })) }
    requires line { IsLine line }
    requires room { RoomFor (λ s. HasSource s op) graph.old (op_others op) }
    ensures { IfOk result (IsPut graph.old graph.new op inputs line) }
{
    let _known = graph.vertices();
    add(alloc, graph, op, inputs, line)
}

/// The last vertex of a stage.
pub(crate) fn find_tip(tips: &[Option<VertexId>], number: u32) -> VertexId
    requires { HasTip tips.now (StageOf number) }
    ensures { slice_get tips.now number ≡ Some (Some result) }
{
    match tips[number as usize] {
        Some(tip) => tip,
        None => unreachable!(),
    }
}

/// The vertex of what an instruction names: that of a source, which is added, or the last one of a stage.
pub(crate) fn put_origin(
    alloc: Global,
    graph: &mut Graph,
    tips: &[Option<VertexId>],
    line: u32,
    origin: Origin,
) -> Result<VertexId, Memory>
    requires named { HasTip tips.now origin }
    requires inside { AreInside tips.now (length graph.old.vertices) }
    requires line { IsLine line }
    requires room { RoomFor (λ s. HasTree s origin) graph.old 0 }
    ensures { IfOk result (IsOriginPut graph.old graph.new tips.now line origin) }
{
    match origin {
        Origin::Source(source) => put(alloc, graph, Op::Source(source), Items::new(alloc), line),
        Origin::Stage(number) => Ok(find_tip(tips, number)),
    }
}

/// The inputs of an operation: a vertex, and one for each tree that is named.
fn put_inputs(
    alloc: Global,
    graph: &mut Graph,
    tips: &[Option<VertexId>],
    line: u32,
    base: VertexId,
    origins: Vec<Origin>,
) -> Result<Items<VertexId>, Memory>
    requires named { All (HasTip tips.now) origins.items }
    requires inside { AreInside tips.now (length graph.old.vertices) }
    requires base { base < length graph.old.vertices }
    requires line { IsLine line }
    requires room { RoomFor (λ s. All (HasTree s) origins.items) graph.old 0 }
    ensures { IfOk result (AreInputsPut graph.old graph.new tips.now line base origins.items) }
{
    let mut inputs = Items::new(alloc);
    inputs.push(base)?;
    for origin in origins {
        let id = put_origin(alloc, graph, tips, line, origin)?;
        inputs.push(id)?;
    }
    Ok(inputs)
}

/// Adds an operation on a vertex and on all that is named.
pub(crate) fn put_operation(
    alloc: Global,
    graph: &mut Graph,
    tips: &[Option<VertexId>],
    line: u32,
    base: VertexId,
    op: Op,
    origins: Vec<Origin>,
) -> Result<VertexId, Memory>
    requires named { All (HasTip tips.now) origins.items }
    requires inside { AreInside tips.now (length graph.old.vertices) }
    requires base { base < length graph.old.vertices }
    requires line { IsLine line }
    requires well_formed { IsTrue (is_well_formed_on op (length origins.items + 1)) }
    requires other { op_others op ≡ 1 }
    requires room { RoomFor (λ s. All (HasTree s) origins.items) graph.old 1 }
    ensures { IfOk result (IsOperationPut graph.old graph.new tips.now line base op origins.items) }
{
    let inputs = put_inputs(alloc, graph, tips, line, base, origins)?;
    put(alloc, graph, op, inputs, line)
}
