// Lowers a file to the plan of its target.
ghost use Rattle.std.specs.Prelude.{◌≡◌, ◌<◌, ◌≤◌, ◌*◌, length, map, IfOk, Some, slice_get};
ghost use Rattle.std.specs.List.{All};
ghost use Rattle.std.specs.FinMap.{len};
ghost use Rattle.rows.specs.declared.row.Stage.{Stage as StageValue};
ghost use Rattle.lowering.specs.Means.{Means, StandsFor};
ghost use Rattle.lowering.specs.PrivateGrowth.{AreInside, HasTip, no_graph, IsStagePut, IsRowPut, AreRowsPut};
ghost use Rattle.lowering.specs.PrivateRoom.{RoomFor};
ghost use Rattle.plain.specs.Limits.{most_images, most_lines};
ghost use Rattle.rows.specs.WellFormed.{HasTree, StageNames, RowNames, IsStage, IsWellFormed, row_steps, count_of_steps};

use crate::adding::{find_tip, put_origin};
use crate::steps::lower_steps;
use llb::{Graph, VertexId};
use plain::{Items, Memory};
use plans::{Plan, Sources};
use rows::Stage;
use std::alloc::Global;

/// Adds the vertices of a stage, and gives the last one.
fn lower_stage(
    alloc: Global,
    graph: &mut Graph,
    tips: &[Option<VertexId>],
    stage: Stage,
) -> Result<VertexId, Memory>
    requires stage { IsStage stage }
    requires named { StageNames (HasTip tips.now) stage }
    requires inside { AreInside tips.now (length graph.old.vertices) }
    requires room { RoomFor (λ s. StageNames (HasTree s) stage) graph.old (2 * length stage.steps) }
    ensures { IfOk result (IsStagePut graph.old graph.new tips.now stage) }
{
    let Stage { line, base, steps } = stage;
    let base = put_origin(alloc, graph, tips, line, base)?;
    lower_steps(alloc, graph, tips, base, steps.into_vec())
}

/// Adds the vertices of a row, and gives the last one; `None` for a stage that is left out.
fn lower_row(
    alloc: Global,
    graph: &mut Graph,
    tips: &[Option<VertexId>],
    row: Option<Stage>,
) -> Result<Option<VertexId>, Memory>
    requires stage { (stage : StageValue) → row ≡ Some stage → IsStage stage }
    requires named { RowNames (HasTip tips.now) row }
    requires inside { AreInside tips.now (length graph.old.vertices) }
    requires room { RoomFor (λ s. RowNames (HasTree s) row) graph.old (2 * row_steps row) }
    ensures { IfOk result (IsRowPut graph.old graph.new tips.now row) }
{
    match row {
        None => Ok(None),
        Some(stage) => Ok(Some(lower_stage(alloc, graph, tips, stage)?)),
    }
}

/// A graph, and the last vertex of each stage.
#[derive(Drop)]
struct Lowered {
    graph: Graph,
    tips: Items<Option<VertexId>>,
}

/// The graph of a file's rows, in their order.
fn lower_rows(alloc: Global, rows: Items<Option<Stage>>) -> Result<Lowered, Memory>
    requires rows { IsWellFormed rows }
    requires room { RoomFor (λ s. All (RowNames (HasTree s)) rows) no_graph (2 * count_of_steps rows) }
    ensures { IfOk result (λ lowered. AreRowsPut rows lowered.graph lowered.tips) }
{
    let mut graph = Graph::new(alloc);
    let mut tips = Vec::new(alloc);
    for row in rows.into_vec() {
        let tip = lower_row(alloc, &mut graph, tips.as_slice(), row)?;
        tips.push(tip)?;
    }
    let tips = Items::from_vec(tips);
    Ok(Lowered { graph, tips })
}

/// The plan of one stage of a file: the graph of all rows, with that stage's last vertex as the target, and with this configuration and
/// these sources.
///
/// Under every executor the plan means the file: the target's tree is the stage's, undefined alike, and what fails in the file fails in
/// the graph, on the same lines. Rows come in the order of the file, with `None` for a stage that isn't needed, so that a stage is known
/// by its number in the file. It asks for well-formed rows, a target that isn't left out, the tree of each source that the rows name, and
/// no more images and instructions than a Dockerfile within its limits has, which evaluation gives. Hand only images that the rows name:
/// each one in the sources is counted, named or not.
///
/// The vertices come in the order of the file, what an instruction names before the instruction, and each once.
pub fn lower_program<C: Drop>(
    alloc: Global,
    rows: Items<Option<Stage>>,
    target: u32,
    config: C,
    sources: Sources,
) -> Result<Plan<C>, Memory>
    requires rows { IsWellFormed rows }
    requires target { (stage : StageValue) × (slice_get rows target ≡ Some (Some stage)) }
    requires named { All (RowNames (HasTree sources)) rows }
    requires images { len sources.images ≤ most_images }
    requires steps { count_of_steps rows < most_lines }
    ensures means { IfOk result (λ plan. Means plan rows target) }
    ensures stands { IfOk result (λ plan. StandsFor plan rows target) }
    ensures config { IfOk result (λ plan. plan.config ≡ config) }
    ensures sources { IfOk result (λ plan. plan.sources ≡ sources) }
{
    let Lowered { graph, tips } = lower_rows(alloc, rows)?;
    let _known = graph.vertices();
    let tip = find_tip(tips.as_slice(), target);
    Ok(Plan::new(graph, tip, config, sources))
}
