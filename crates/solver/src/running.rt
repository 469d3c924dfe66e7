ghost use Rattle.std.specs.Prelude.{◌≡◌, ◌<◌, Some, IfOk, length, map, slice_get};
ghost use Rattle.board.specs.Claim.{IsClaim, IsResult, IsGivenBack};
ghost use Rattle.board.specs.Job.{job_problem};
ghost use Rattle.board.specs.Leaving.{IsLeftFor};
ghost use Rattle.board.specs.Problem.{IsProblem};

use crate::gate::Gated;
use crate::{Gate, OpenGate};
use board::{Claim, Job};
use cells::Place;
use executor::Executor;
use llb::{Vertex, VertexId};
use plain::Memory;
use std::alloc::Global;
use trees::{Tree, TreeOrCause};
use vertexrun::{Ran, vertex_result};

/// The result of a claim of a job: the value of its vertex, and the trees that go back to the vertex's caches, which the executor leaves of the
/// copies in the claim. `Board::settle` takes just these. It needs no board, so any number of claims may be run at once.
pub fn run<E: Executor, P: Place<TreeOrCause>>(
    alloc: Global,
    job: &Job<E>,
    claim: &Claim<P>,
) -> Result<Ran, Memory>
    requires { IsClaim (job_problem E.out job.now) claim.now }
    ensures value { IfOk result (λ ran. IsResult (job_problem E.out job.now) claim.now ran.value) }
    ensures given { IfOk result (λ ran. IsGivenBack (job_problem E.out job.now) claim.now ran.given.items) }
    ensures left { IfOk result (λ ran. IsLeftFor (E.leaves job.now.executor) (job_problem E.out job.now) claim.now ran.given.items) }
{
    run_gated(alloc, job, &OpenGate, claim)
}

/// The result of a claim as `run` gives it, with a gate asked before and after the executor's run, if there is one: where the vertex of the claim is a
/// command, each bind of which has its source.
pub fn run_gated<E: Executor, G: Gate, P: Place<TreeOrCause>>(
    alloc: Global,
    job: &Job<E>,
    gate: &G,
    claim: &Claim<P>,
) -> Result<Ran, Memory>
    requires { IsClaim (job_problem E.out job.now) claim.now }
    ensures value { IfOk result (λ ran. IsResult (job_problem E.out job.now) claim.now ran.value) }
    ensures given { IfOk result (λ ran. IsGivenBack (job_problem E.out job.now) claim.now ran.given.items) }
    ensures left { IfOk result (λ ran. IsLeftFor (E.leaves job.now.executor) (job_problem E.out job.now) claim.now ran.given.items) }
{
    let vertex = vertex_at(job, claim.vertex());
    let inputs = inputs_of(alloc, claim)?;
    let gated = Gated::new(job.executor(), gate, claim.worker(), claim.vertex());
    vertex_result(
        alloc,
        job.sources(),
        &gated,
        &vertex.op,
        inputs.as_slice(),
        claim.caches(),
    )
}

/// A vertex of a job.
pub(crate) fn vertex_at<'a, E: Executor>(job: &Job<'a, E>, id: VertexId) -> &'a Vertex
    requires { id < length job.now.graph.vertices }
    ensures value { slice_get job.now.graph.vertices id ≡ Some result.now }
    ensures problem { IsProblem (job_problem E.out job.now) }
{
    &job.graph().vertices()[id.index()]
}

/// The trees of the inputs of a claim's vertex, in their order.
pub(crate) fn inputs_of<P: Place<TreeOrCause>>(
    alloc: Global,
    claim: &Claim<P>,
) -> Result<Vec<&Tree>, Memory>
    ensures { IfOk result (λ inputs. map (λ tree. tree.now) inputs.items ≡ claim.now.inputs) }
{
    let mut inputs = Vec::with_capacity(alloc, claim.input_count())?;
    for at in 0..claim.input_count() {
        inputs.push(claim.input(at))?;
    }
    Ok(inputs)
}
