ghost use Rattle.std.specs.Prelude.{◌≡◌, Ok as OkOf, IfOk};
ghost use Rattle.board.specs.Claim.{IsClaim, IsResult, IsGivenBack};
ghost use Rattle.board.specs.Job.{job_problem};
ghost use Rattle.board.specs.Leaving.{IsLeftFor};
ghost use Rattle.solver.specs.Recall.{AreOf, MayStay};

use crate::running::run_gated;
use crate::{Gate, Numbering, Recall};
use board::{Claim, Job};
use cells::Place;
use executor::{Executor, Outcome, Request};
use plain::{Exact, Memory, copied_items};
use std::alloc::Global;
use std::marker::{Model, PhantomData, Sync};
use trees::{Tree, TreeOrCause};
use vertexrun::Ran;

/// An executor in a solve that asks a memo first: in the caches of a request that the memo knew, the trees may also stay as they were. It runs what its executor
/// runs, and has no memo: `run_recalled` asks that. The board of such a solve is of this executor, by which its settles may give back either.
#[derive(Drop)]
pub struct Recalling<'e, E: Executor, N: Numbering> {
    executor: &'e E,
    of: PhantomData<N>,
}

impl<'e, E: Executor, N: Numbering> Model for Recalling<'e, E, N> {
    ghost Value = { E };

    ghost coded = { E.code };

    ghost view = { λ r. r.executor.now };
}

impl<'e, E: Executor, N: Numbering> Recalling<'e, E, N> {
    /// This executor, with the requests that are named.
    pub fn new(executor: &'e E) -> Recalling<'e, E, N>
        ensures { result ≡ executor.now }
    {
        Recalling {
            executor,
            of: PhantomData,
        }
    }
}

impl<'e, E: Executor, N: Numbering + Sync> Executor for Recalling<'e, E, N> {
    ghost use Rattle.solver.specs.Recall.{leaves_or_stays};

    ghost out = { E.out };

    ghost leaves = { λ executor. leaves_or_stays N.knows (E.leaves executor) };

    ghost exits = { E.exits };

    fn run(
        &self,
        alloc: Global,
        request: &Request,
        caches: &mut Vec<Tree>,
    ) -> Result<Outcome, Memory> {
        self.executor.run(alloc, request, caches)
    }
}

/// The result of a claim: the tree that a memo has for its vertex's operation on its inputs, if what is known of these tells of one, and then the claim's
/// caches get back the trees as they were taken; else what `run_gated` gives. Where the memo has it, neither the executor nor the gate is asked.
pub fn run_recalled<E: Executor, M: Executor, G: Gate, N: Numbering, P: Place<TreeOrCause>>(
    alloc: Global,
    job: &Job<E>,
    recall: Option<&Recall<M, N>>,
    gate: &G,
    claim: &Claim<P>,
) -> Result<Ran, Memory>
    requires of { IsClaim (job_problem E.out job.now) claim.now }
    requires named { AreOf (job_problem E.out job.now) N.out N.values }
    requires stays { MayStay N.knows (E.leaves job.now.executor) }
    ensures value { IfOk result (λ ran. IsResult (job_problem E.out job.now) claim.now ran.value) }
    ensures given { IfOk result (λ ran. IsGivenBack (job_problem E.out job.now) claim.now ran.given.items) }
    ensures left { IfOk result (λ ran. IsLeftFor (E.leaves job.now.executor) (job_problem E.out job.now) claim.now ran.given.items) }
{
    let Some(recall) = recall else {
        return run_gated(alloc, job, gate, claim);
    };
    match recall.tree(alloc, job, claim)? {
        Some(tree) => recalled(alloc, claim, tree),
        None => run_gated(alloc, job, gate, claim),
    }
}

/// A tree as the result of a claim, with the trees that are in the claim's caches.
fn recalled<P: Place<TreeOrCause>>(
    alloc: Global,
    claim: &Claim<P>,
    tree: &Tree,
) -> Result<Ran, Memory>
    ensures value { IfOk result (λ ran. ran.value ≡ OkOf tree.now) }
    ensures given { IfOk result (λ ran. ran.given.items ≡ claim.now.caches) }
{
    let given = copied_items(alloc, claim.caches())?;
    match tree.copy(alloc) {
        Ok(tree) => Ok(Ran {
            value: Ok(tree),
            given,
        }),
        Err(memory) => {
            drop(given);
            Err(memory)
        }
    }
}
