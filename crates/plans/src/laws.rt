// The laws of vertices' values, claimed: each function's contract is one law, and its body is empty.
ghost use Rattle.std.specs.Prelude.{◌≡◌, ◌<◌, ◌++◌, ℕ, IsTrue, List, Some, Ok, Err, length, slice_get};
ghost use Rattle.trees.specs.TreeMap.{TreeMap};
ghost use Rattle.trees.specs.declared.cause.Cause.{Cause};
ghost use Rattle.runs.specs.Run.{fits_request};
ghost use Rattle.runs.specs.declared.run.RunRequest.{RunRequest};
ghost use Rattle.llb.specs.declared.op.Exec.{Exec as ExecValue};
ghost use Rattle.llb.specs.declared.vertex.Vertex.{Vertex as VertexValue};
ghost use Rattle.llb.specs.Graph.{AreVertices};
ghost use Rattle.llb.specs.WellFormed.{is_well_formed_exec};
ghost use Rattle.plans.specs.Plan.{Problem, IsValue, NeedsAll};
ghost use Rattle.plans.specs.Request.{request_of};
ghost use Rattle.plans.specs.Sources.{SourcesValue};
ghost use Rattle.plans.specs.Value.{Out, value_in, values_of, value_of};

/// Under every executor, the value of a vertex is what its operation gives on the trees of its inputs.
pub fn value_is_local()
    ensures { (out : Out) (sources : SourcesValue) (vertices : List VertexValue) (id : ℕ) (vertex : VertexValue)
        → AreVertices vertices → slice_get vertices id ≡ Some vertex
        → value_of out sources vertices id ≡ value_in out sources (values_of out sources vertices) vertex }
{}

/// Under every executor, vertices that are added later change no value of those before.
pub fn value_stays()
    ensures { (out : Out) (sources : SourcesValue) (vertices more : List VertexValue) (id : ℕ)
        → id < length vertices → value_of out sources (vertices ++ more) id ≡ value_of out sources vertices id }
{}

/// Where the target needs every vertex, one that fails leaves it without a tree.
pub fn a_failing_vertex_leaves_no_tree()
    ensures { (problem : Problem) (vertex : ℕ) (cause : Cause) (tree : TreeMap)
        → AreVertices problem.vertices → NeedsAll problem
        → IsValue problem vertex (Err cause) → ¬ IsValue problem problem.target (Ok tree) }
{}

/// The request of a well-formed command, on whatever trees, has mounts that can be mounted together and no cache twice: it is what
/// an executor asks of a request.
pub fn request_fits()
    ensures { (exec : ExecValue) (root : TreeMap) (trees : List TreeMap) (request : RunRequest)
        → IsTrue (is_well_formed_exec exec) → request_of exec root trees ≡ Ok request → IsTrue (fits_request request) }
{}
