// Lowers the instructions of a stage.
ghost use Rattle.std.specs.Prelude.{◌≡◌, ◌<◌, ◌+◌, ◌*◌, length, IsTrue, IfOk, true, false};
ghost use Rattle.std.specs.List.{All};
ghost use Rattle.llb.specs.WellFormed.{is_well_formed_on};
ghost use Rattle.llb.specs.Places.{IsLine};
ghost use Rattle.llb.specs.declared.op.Op.TheVariants.{Copy as CopyOp};
ghost use Rattle.rows.specs.declared.row.Action.TheVariants.{Copy};
ghost use Rattle.lowering.specs.Meaning.{listed};
ghost use Rattle.lowering.specs.PrivateGrowth.{AreInside, HasTip, IsStepPut, AreStepsPut};
ghost use Rattle.lowering.specs.PrivateRoom.{RoomFor};
ghost use Rattle.rows.specs.WellFormed.{HasTree, NamesOnly, IsStep};

use crate::adding::{put, put_operation};
use llb::{CopyFiles, Graph, Op, Source, VertexId};
use plain::{Items, Memory};
use rows::{Action, Origin, Step};
use std::alloc::Global;

/// What a COPY names, as a list.
fn list_origins(alloc: Global, from: Option<Origin>) -> Result<Vec<Origin>, Memory>
    ensures { IfOk result (λ origins. origins.items ≡ listed from) }
{
    let mut origins = Vec::new(alloc);
    if let Some(origin) = from {
        origins.push(origin)?;
    }
    Ok(origins)
}

/// Adds the vertices of a linked copy: a copy onto the empty tree, and its merge with the tree before it.
fn lower_linked(
    alloc: Global,
    graph: &mut Graph,
    tips: &[Option<VertexId>],
    base: VertexId,
    line: u32,
    files: CopyFiles,
    from: Option<Origin>,
) -> Result<VertexId, Memory>
    requires line { IsLine line }
    requires well_formed { IsTrue (is_well_formed_on (CopyOp files) (length (listed from) + 1)) }
    requires named { All (HasTip tips.now) (listed from) }
    requires inside { AreInside tips.now (length graph.old.vertices) }
    requires base { base < length graph.old.vertices }
    requires room { RoomFor (λ s. All (HasTree s) (listed from)) graph.old 2 }
    ensures { IfOk result (IsStepPut graph.old graph.new tips.now base (record { line = line; action = Copy files from true })) }
{
    let origins = list_origins(alloc, from)?;
    let none = Items::new(alloc);
    let scratch = put(alloc, graph, Op::Source(Source::Scratch), none, line)?;
    let copy = put_operation(alloc, graph, tips, line, scratch, Op::Copy(files), origins)?;
    let mut both = Items::new(alloc);
    both.push(base)?;
    both.push(copy)?;
    put(alloc, graph, Op::Merge, both, line)
}

/// Adds the vertex of a copy that isn't linked.
fn lower_copy(
    alloc: Global,
    graph: &mut Graph,
    tips: &[Option<VertexId>],
    base: VertexId,
    line: u32,
    files: CopyFiles,
    from: Option<Origin>,
) -> Result<VertexId, Memory>
    requires line { IsLine line }
    requires well_formed { IsTrue (is_well_formed_on (CopyOp files) (length (listed from) + 1)) }
    requires named { All (HasTip tips.now) (listed from) }
    requires inside { AreInside tips.now (length graph.old.vertices) }
    requires base { base < length graph.old.vertices }
    requires room { RoomFor (λ s. All (HasTree s) (listed from)) graph.old 2 }
    ensures { IfOk result (IsStepPut graph.old graph.new tips.now base (record { line = line; action = Copy files from false })) }
{
    let origins = list_origins(alloc, from)?;
    put_operation(alloc, graph, tips, line, base, Op::Copy(files), origins)
}

/// Adds the vertices of an instruction after the vertex `base`, and gives the last one.
fn lower_step(
    alloc: Global,
    graph: &mut Graph,
    tips: &[Option<VertexId>],
    base: VertexId,
    step: Step,
) -> Result<VertexId, Memory>
    requires step { IsStep step }
    requires named { NamesOnly (HasTip tips.now) step.action }
    requires inside { AreInside tips.now (length graph.old.vertices) }
    requires base { base < length graph.old.vertices }
    requires room { RoomFor (λ s. NamesOnly (HasTree s) step.action) graph.old 2 }
    ensures { IfOk result (IsStepPut graph.old graph.new tips.now base step) }
{
    let Step { line, action } = step;
    match action {
        Action::Run { exec, from } => {
            let origins = from.into_vec();
            put_operation(alloc, graph, tips, line, base, Op::Exec(exec), origins)
        }
        Action::Copy {
            files,
            from,
            linked,
        } => {
            if linked {
                lower_linked(alloc, graph, tips, base, line, files, from)
            } else {
                lower_copy(alloc, graph, tips, base, line, files, from)
            }
        }
        Action::MakeDirs { path } => {
            let none = Vec::new(alloc);
            put_operation(alloc, graph, tips, line, base, Op::MakeDirs(path), none)
        }
    }
}

/// Adds the vertices of a stage's instructions, each after the one before it, and gives the last one.
pub(crate) fn lower_steps(
    alloc: Global,
    graph: &mut Graph,
    tips: &[Option<VertexId>],
    base: VertexId,
    steps: Vec<Step>,
) -> Result<VertexId, Memory>
    requires steps { All IsStep steps.items }
    requires named { All (λ step. NamesOnly (HasTip tips.now) step.action) steps.items }
    requires inside { AreInside tips.now (length graph.old.vertices) }
    requires base { base < length graph.old.vertices }
    requires room { RoomFor (λ s. All (λ step. NamesOnly (HasTree s) step.action) steps.items) graph.old (2 * length steps.items) }
    ensures { IfOk result (AreStepsPut graph.old graph.new tips.now base steps.items) }
{
    let mut last = base;
    for step in steps {
        last = lower_step(alloc, graph, tips, last, step)?;
    }
    Ok(last)
}
