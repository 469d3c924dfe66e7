// Tests and look-ups on what a board holds, as functions over its parts, so that each is proved by itself.
ghost use Rattle.std.specs.Prelude.{◌≡◌, ◌↔◌, ℕ, IsTrue, ◌<◌, true, false, is_some, length, map, IfSome, IfNone, [], vec_len};
ghost use Rattle.board.specs.Job.{job_problem};
ghost use Rattle.board.specs.Play.{value_at, claim_of, without, claimable};
ghost use Rattle.board.specs.PrivateShelf.{AreInputIds};
ghost use Rattle.board.specs.Clearing.{IsLeastWorker};
ghost use Rattle.board.specs.PrivateFrontier.{IsFrontier};
ghost use Rattle.board.specs.declared.claim.ClaimOut.{ClaimOut};
ghost use Rattle.std.specs.Option.{option_map};
ghost use Rattle.plans.specs.Plan.{caches_of, uses_in};

use crate::frontier::Frontier;
use crate::shelf::Shelf;
use crate::{ClaimOut, Job};
use cachemounts::CacheStore;
use cells::Place;
use executor::Executor;
use llb::{Op, Vertex, VertexId};
use runs::CacheUse;
use trees::TreeOrCause;

/// The claim that a worker has out.
pub(crate) fn claim_of(claims: &[ClaimOut], worker: u32) -> Option<ClaimOut>
    ensures { result ≡ claim_of worker claims.now }
{
    for claim in claims {
        if claim.worker == worker {
            return Some(*claim);
        }
    }
    None
}

/// Leaves the claims of the other workers.
pub(crate) fn drop_claim(claims: &mut Vec<ClaimOut>, worker: u32)
    ensures kept { claims.new.items ≡ without worker claims.old.items }
    ensures fewer { (claim : ClaimOut) → claim_of worker claims.old.items ≡ Some claim → vec_len claims.new < vec_len claims.old }
{
    claims.retain(|claim| claim.worker != worker);
}

/// Whether a vertex is settled.
fn is_settled<P: Place<TreeOrCause>>(settled: &Shelf<P>, vertex: VertexId) -> bool
    ensures { result ≡ is_some (value_at settled.now vertex) }
{
    settled.get(vertex).is_some()
}

/// The caches that an operation uses.
fn caches_of(op: &Op) -> &[CacheUse]
    ensures { result.now ≡ caches_of op.now }
{
    match op {
        Op::Exec(exec) => exec.caches.as_slice(),
        Op::Source(_) | Op::Copy(_) | Op::MakeDirs(_) | Op::Merge => &[],
    }
}

/// The caches that a vertex uses; none where there is no such vertex.
pub(crate) fn uses_of(vertices: &[Vertex], vertex: VertexId) -> &[CacheUse]
    ensures { result.now ≡ uses_in vertices.now vertex }
{
    match vertices.get(vertex.index()) {
        Some(vertex) => caches_of(&vertex.op),
        None => &[],
    }
}

/// A vertex that a worker may claim, with the ids of its inputs.
pub(crate) struct NextClaim<'a> {
    pub vertex: VertexId,
    pub inputs: &'a [VertexId],
}

/// What a worker's claim is given: the least vertex that is ready, and nothing if the worker has a claim out. Vertices that failures stop may be
/// taken out of the frontier.
pub(crate) fn next_claim<'a, E: Executor, P: Place<TreeOrCause>>(
    job: &Job<'a, E>,
    settled: &Shelf<P>,
    claims: &[ClaimOut],
    caches: &CacheStore,
    frontier: &mut Frontier,
    worker: u32,
) -> Option<NextClaim<'a>>
    requires long { length settled.now ≡ length job.now.graph.vertices }
    requires frontier { IsFrontier job.now.graph.vertices job.now.graph.places settled.now claims.now frontier.old }
    ensures which { option_map (λ n. n.vertex) result
        ≡ claimable (job_problem E.out job.now) (record { settled = settled.now; claims = claims.now; holds = caches.now.holds }) worker }
    ensures inputs { IfSome result (λ n. AreInputIds job.now.graph.vertices settled.now n.vertex n.inputs.now) }
    ensures frontier { IsFrontier job.now.graph.vertices job.now.graph.places settled.now claims.now frontier.new }
{
    if claim_of(claims, worker).is_some() {
        return None;
    }
    if is_settled(settled, job.target()) {
        return None;
    }
    let graph = job.graph();
    let vertices = graph.vertices();
    let Some(vertex) = frontier.least(graph, caches) else {
        return None;
    };
    let inputs = vertices[vertex.index()].inputs.as_slice();
    Some(NextClaim { vertex, inputs })
}

/// Whether a worker's claim of a vertex is out, made after so many events.
pub(crate) fn is_out(claims: &[ClaimOut], worker: u32, vertex: VertexId, at: usize) -> bool
    ensures { IsTrue result ↔ (claim_of worker claims.now ≡ Some (record { worker = worker; vertex = vertex; at = at })) }
{
    match claim_of(claims, worker) {
        Some(claim) => claim.worker == worker && claim.vertex == vertex && claim.at == at,
        None => false,
    }
}

/// The claim of the least worker, if any is out.
pub(crate) fn least_worker(claims: &[ClaimOut]) -> Option<ClaimOut>
    ensures found { IfSome result (IsLeastWorker claims.now) }
    ensures none { IfNone result (claims.now ≡ []) }
{
    let mut least = *claims.first()?;
    for claim in claims {
        if claim.worker < least.worker {
            least = *claim;
        }
    }
    Some(least)
}
