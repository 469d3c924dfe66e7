// Marks the vertices that a target reaches.
ghost use Rattle.std.specs.Prelude.{◌<◌, length, vec_len, Contains, IfOk};
ghost use Rattle.std.specs.List.{All};
ghost use Rattle.plain.specs.PrivateMarks.{MarksMore};
ghost use Rattle.llb.specs.Graph.{AreVertices};
ghost use Rattle.reached.specs.Reached.{AreReached};

use llb::{Vertex, VertexId};
use plain::{Items, Memory, no_marks};
use std::alloc::Global;

/// Marks these vertices.
pub(crate) fn mark(marks: &mut Vec<bool>, ids: &[VertexId])
    requires { All (λ id. id < vec_len marks.old) ids.now }
    ensures { MarksMore marks.old.items marks.new.items (Contains ids.now) }
{
    for id in ids {
        marks[id.index()] = true;
    }
}

/// Marks the vertices that the target reaches. Inputs stand before their vertices, so one pass from the last one on is enough.
pub fn mark_reached(
    alloc: Global,
    vertices: &[Vertex],
    target: VertexId,
) -> Result<Items<bool>, Memory>
    requires vertices { AreVertices vertices.now }
    requires target { target < length vertices.now }
    ensures { IfOk result (AreReached vertices.now target) }
{
    let mut marks = no_marks(alloc, vertices.len())?;
    marks[target.index()] = true;
    let mut at = vertices.len();
    while at > 0 {
        at -= 1;
        if marks[at] {
            mark(&mut marks, vertices[at].inputs.as_slice());
        }
    }
    Ok(Items::from_vec(marks))
}
