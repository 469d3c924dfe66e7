// The laws of drawings, claimed: each function's contract is one law, and its body is empty.
ghost use Rattle.std.specs.Prelude.{◌≡◌, ◌++◌, ◌∷◌, ℕ, List, Some, false, length, nat_lt, if◌then◌else◌};
ghost use Rattle.llb.specs.declared.op.Op.{Op};
ghost use Rattle.llb.specs.Graph.{GraphValue};
ghost use Rattle.dot.specs.Quoted.{after_quote, shown};
ghost use Rattle.dot.specs.Labels.{Titles, label};
ghost use Rattle.dot.specs.Drawn.{statements};
ghost use Rattle.dot.specs.Claimed.{nodes_of, edges_in, inputs_of};

/// A quoted string ends at its own quote, whatever text it says: what stands between the quotes has no other that ends it.
pub fn texts_end_at_their_quotes()
    ensures texts { (text rest : List ℕ) → after_quote false (shown text ++ 34 ∷ rest) ≡ Some rest }
    ensures labels { (titles : Titles) (lines : List ℕ) (op : Op) (rest : List ℕ)
        → after_quote false (label titles lines op ++ 34 ∷ rest) ≡ Some rest }
{}

/// Each vertex of a graph is one node of its drawing, and no other node is a vertex.
pub fn each_vertex_is_one_node()
    ensures { (titles : Titles) (graph : GraphValue) (target k : ℕ)
        → nodes_of k (statements titles graph target) ≡ (if nat_lt k (length graph.vertices) then 1 else 0) }
{}

/// Each input of each vertex is one edge, from the input to the vertex, and there is no other edge between vertices.
pub fn each_input_is_one_edge()
    ensures { (titles : Titles) (graph : GraphValue) (target : ℕ) → edges_in (statements titles graph target) ≡ inputs_of 0 graph.vertices }
{}
