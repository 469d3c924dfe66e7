// The laws of graphs, claimed: each function's contract is one law, and its body is empty.
ghost use Rattle.std.specs.Prelude.{◌≡◌, ◌↔◌, ◌<◌, ◌≤◌, ◌⊎◌, ◌++◌, ℕ, List, Some, Ok, Contains, slice_get};
ghost use Rattle.llb.specs.declared.vertex.Vertex.{Vertex as VertexValue};
ghost use Rattle.llb.specs.Graph.{GraphValue, Adds};
ghost use Rattle.llb.specs.Places.{IsLine, AreLines, with_lines};

use plain::limits::MOST_LINE_NUMBER;

/// A number is that of a line where it is from 1 to `MOST_LINE_NUMBER`, which is what a caller of `Graph::add` compares it with.
pub fn lines_are_numbered()
    ensures { (line : ℕ) → IsLine line ↔ ((0 < line) × (line ≤ MOST_LINE_NUMBER)) }
{}

/// The lines of a vertex to which more were added are those that it had and those that were added, in ascending order.
pub fn lines_are_joined()
    ensures among { (more lines : List ℕ) (line : ℕ) → Contains (with_lines more lines) line ↔ (Contains more line ⊎ Contains lines line) }
    ensures ascend { (more lines : List ℕ) → AreLines more → AreLines lines → AreLines (with_lines more lines) }
{}

/// A vertex that was added has the id that was answered.
pub fn added_vertex_stands()
    ensures { (old new : GraphValue) (vertex : VertexValue) (lines : List ℕ) (id : ℕ)
        → Adds old new vertex lines (Ok id) → slice_get new.vertices id ≡ Some vertex }
{}

/// The vertices of a graph keep their ids when one is added: they are the first ones of the new graph.
pub fn vertices_stay()
    ensures { (old new : GraphValue) (vertex : VertexValue) (lines : List ℕ) (id : ℕ)
        → Adds old new vertex lines (Ok id) → (more : List VertexValue) × (new.vertices ≡ old.vertices ++ more) }
{}
