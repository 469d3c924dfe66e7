// What is proved of the definitions alone. The functions do nothing: their contracts are laws.

ghost use Rattle.std.specs.Prelude.{◌≡◌, ◌<◌, ℕ, List, [], Some, None, Result, Ok, length, slice_get};
ghost use Rattle.serde_json.specs.Read.{read};
ghost use Rattle.plain.specs.declared.fault.Fault.{Fault};
ghost use Rattle.llb.specs.Graph.{GraphValue, IsGraph, AreVertices};
ghost use Rattle.llb.specs.declared.vertex.Vertex.{Vertex};
ghost use Rattle.addresses.specs.Address.{addresses_of, vertex_address, clash_after};
ghost use Rattle.definition.specs.Definition.{AreAlike, AreProper, definition_data, first_definition_data};
ghost use Rattle.definition.specs.Reading.{IsReadAs, IsConclusive, graph_of};
ghost use Rattle.definition.specs.declared.fault.Defect.{Defect};

/// A clash is told exactly where two different operations have one address: where one is told at a place, the operation there has the
/// address of one before it; where none is told, operations of a graph that have one address are one.
pub fn clashes_are_of_different_operations()
    ensures told { (vertices : List Vertex) (place : ℕ) → clash_after [] vertices ≡ Some place
        → (before : ℕ) × AreAlike (addresses_of vertices) before place }
    ensures none { (vertices : List Vertex) (j k : ℕ) (one other : Vertex) → AreVertices vertices → clash_after [] vertices ≡ None
        → slice_get vertices j ≡ Some one → slice_get vertices k ≡ Some other
        → vertex_address (addresses_of vertices) one ≡ vertex_address (addresses_of vertices) other → one ≡ other }
{}

/// A text has one reading: two answers that both tell something of it are the same.
pub fn a_text_has_one_reading()
    ensures { (text : List ℕ) (one other : Result (GraphValue × ℕ) (Fault Defect)) → IsConclusive one → IsConclusive other
        → IsReadAs text one → IsReadAs text other → one ≡ other }
{}

/// What was written reads back: every text that spells the definition of a graph and its result is read as these, lines and all. One of version
/// 1, which has no lines, is read as the graph without them. With the law that a text has one reading it is read as nothing else.
pub fn what_was_written_reads_back()
    ensures back { (text : List ℕ) (graph : GraphValue) (wanted : ℕ) → IsGraph graph → AreProper graph.vertices → wanted < length graph.vertices
        → clash_after [] graph.vertices ≡ None → read text ≡ Some (definition_data graph wanted) → IsReadAs text (Ok (graph, wanted)) }
    ensures first { (text : List ℕ) (vertices : List Vertex) (wanted : ℕ) → AreVertices vertices → AreProper vertices → wanted < length vertices
        → clash_after [] vertices ≡ None → read text ≡ Some (first_definition_data vertices wanted) → IsReadAs text (Ok (graph_of vertices, wanted)) }
{}
