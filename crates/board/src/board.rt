ghost use Rattle.std.specs.Prelude.{◌≡◌, ◌↔◌, ◌<◌, [], Some, ℕ, map, IsTrue, IsFalse, IfOk, IfSome, IfNone, IfErr, OnOk, OnErr, slice_get};
ghost use Rattle.std.specs.Option.{option_map};
ghost use Rattle.cachemounts.specs.Holds.{new_holds};
ghost use Rattle.cachemounts.specs.Content.{tree_held};
ghost use Rattle.plans.specs.Plan.{uses_at};
ghost use Rattle.board.specs.Board.{board_problem, IsStep, AreContents, AreLeft};
ghost use Rattle.board.specs.Job.{job_problem};
ghost use Rattle.board.specs.Problem.{IsProblem};
ghost use Rattle.board.specs.Play.{begun, claim_of, claimable, value_at, unsettled_count, IsReplay};
ghost use Rattle.board.specs.Play.{Claim as Claiming, Settle as Settling, Abandon as Abandoning};
ghost use Rattle.board.specs.Claim.{IsClaim, IsOut, IsResult, IsGivenBack};
ghost use Rattle.board.specs.PrivateShelf.{AreInputIds};
ghost use Rattle.board.specs.Clearing.{IsCleared};
ghost use Rattle.board.specs.Leaving.{IsLent, IsLeftFor, GivesBackWhatIsLeft, AreLeftByRuns};
ghost use Rattle.board.specs.Legal.{IsAvailable, IsReady, IsNextClaim};

use crate::frontier::Frontier;
use crate::shelf::Shelf;
use crate::state::{self, NextClaim};
use crate::{Claim, ClaimOut, Happened, Job, Refused};
use cachemounts::{CacheStore, Content};
use cells::Place;
use executor::Executor;
use llb::VertexId;
use plain::{Items, Memory, copied_items, growth};
use std::alloc::Global;
use std::marker::Model;
use trees::{Tree, TreeOrCause};

/// Which vertices of a job are settled and with what, which claims are out, and what the job's caches hold. The type keeps that all of it is
/// the replay of the history: so whatever calls were made, the history is legal, each vertex that is settled has its value, and each cache holds what it
/// held at the start, or what the last settle gave back to it. That this is what a run left is said under a premise: each call keeps it, if each settle does.
#[derive(Drop)]
pub struct Board<'a, E: Executor, P: Place<TreeOrCause> = TreeOrCause> {
    job: Job<'a, E>,
    /// For each vertex its value, once it is settled.
    settled: Shelf<P>,
    /// The claims that are out, the oldest first: no worker twice, no vertex twice.
    claims: Vec<ClaimOut>,
    /// All that happened, in order. It has room for the end of each claim that is out, so that an abandon takes no memory.
    history: Vec<Happened>,
    /// The contents of the caches when the board was made.
    first: Vec<Content>,
    /// The contents of the caches now, and who holds which of them.
    caches: CacheStore,
    /// The vertices that may be claimed as far as their inputs go. Contracts don't see it.
    frontier: Frontier,
}

impl<'a, E: Executor, P: Place<TreeOrCause>> Model for Board<'a, E, P> {
    ghost use Rattle.std.specs.Prelude.{◌+◌, ◌≤◌, vec_len, vec_capacity};
    ghost use Rattle.board.specs.Board.{BoardValue, board_code, IsBoard};
    ghost use Rattle.board.specs.Job.{job_problem};
    ghost use Rattle.board.specs.PrivateFrontier.{IsFrontier};

    ghost Value = { BoardValue E };

    ghost coded = { board_code E.code };

    ghost view = { λ b. record {
      job = b.job;
      first = b.first.items;
      contents = b.caches.contents;
      run = record { history = b.history.items; state = record { settled = b.settled; claims = b.claims.items; holds = b.caches.holds } };
    } };

    ghost invariant = { λ b.
        IsBoard E.out (record {
          job = b.job;
          first = b.first.items;
          contents = b.caches.contents;
          run = record { history = b.history.items; state = record { settled = b.settled; claims = b.claims.items; holds = b.caches.holds } };
        })
        × (vec_len b.history + vec_len b.claims ≤ vec_capacity b.history)
        × IsFrontier b.job.graph.vertices b.job.graph.places b.settled b.claims.items b.frontier };
}

/// The store, given back where there was no memory for its board.
pub struct NoBoard {
    pub caches: CacheStore,
}

impl<'a, E: Executor, P: Place<TreeOrCause>> Board<'a, E, P> {
    /// A board on which nothing has happened, with a store of which nobody holds anything: `CacheStore::is_idle` tests that. If there is no
    /// memory, the store comes back as it was.
    pub fn new(
        alloc: Global,
        job: Job<'a, E>,
        caches: CacheStore,
    ) -> Result<Board<'a, E, P>, NoBoard>
        requires idle { caches.holds ≡ [] }
        ensures ok { IfOk result (λ board. board ≡ record { job = job.entry; first = caches.contents; contents = caches.contents; run = begun (job_problem E.out job.entry) }) }
        ensures back { IfErr result (λ refused. refused.caches ≡ caches) }
    {
        let Ok(settled) = Shelf::new(alloc, job.graph().len()) else {
            return Err(NoBoard { caches });
        };
        let Ok(first) = caches.contents(alloc) else {
            return Err(NoBoard { caches });
        };
        let Ok(frontier) = Frontier::new(alloc, job.graph()) else {
            return Err(NoBoard { caches });
        };
        Ok(Board {
            job,
            settled,
            claims: Vec::new(alloc),
            history: Vec::new(alloc),
            first,
            caches,
            frontier,
        })
    }

    /// Claims the ready vertex of least id for a worker, with the places of its inputs' trees and the lease of its caches. It claims nothing if
    /// no vertex is ready, or if the worker has a claim out. After `Memory` the board is as it was.
    pub fn claim(&mut self, alloc: Global, worker: u32) -> Result<Option<Claim<P>>, Memory>
        ensures next { IfOk result (λ claim. IsNextClaim (board_problem E.out self.old) self.old.run.history worker
            (option_map (λ c. c.vertex) claim)) }
        ensures worker { IfOk result (λ claim. IfSome claim (λ c. c.worker ≡ worker)) }
        ensures of { IfOk result (λ claim. IfSome claim (IsClaim (board_problem E.out self.new))) }
        ensures out { IfOk result (λ claim. IfSome claim (IsOut self.new.run.state)) }
        ensures caches { IfOk result (λ claim. IfSome claim (λ c. c.caches
            ≡ map (tree_held self.old.contents) (new_holds worker self.old.run.state.holds (uses_at (board_problem E.out self.old) c.vertex)))) }
        ensures lent { IfOk result (λ claim. IfSome claim (IsLent (board_problem E.out self.new) self.new.first self.new.run.history)) }
        ensures run { OnOk result (IsStep E.out (Claiming worker) self.old self.new) }
        ensures left { OnOk result (GivesBackWhatIsLeft (E.leaves self.old.job.executor) (board_problem E.out self.old) self.old.first self.old.run.history
            → GivesBackWhatIsLeft (E.leaves self.new.job.executor) (board_problem E.out self.new) self.new.first self.new.run.history) }
        ensures none { IfOk result (λ claim. IfNone claim (self.new ≡ self.old)) }
        ensures err { OnErr result (self.new ≡ self.old) }
    {
        let next = state::next_claim(
            &self.job,
            &self.settled,
            self.claims.as_slice(),
            &self.caches,
            &mut self.frontier,
            worker,
        );
        match next {
            Some(next) => {
                let claim = self.claim_vertex(alloc, worker, next)?;
                Ok(Some(claim))
            }
            None => Ok(None),
        }
    }

    /// Settles the vertex of a claim with its value, and gives trees back to the caches that the vertex uses, in the order of its uses. The claim
    /// has to be out (`is_out` tests that), as `claim` gives it; the value has to be the result of its vertex's operation on its inputs; and there
    /// has to be one tree for each use. After want of memory all three come back, and the board is as it was. If the trees are those that the vertex's
    /// run left of what the claim was lent, as a run answers them (`solver::run`), a history that gave back what was left goes on so.
    pub fn settle(
        &mut self,
        alloc: Global,
        claim: Claim<P>,
        value: P,
        given: Vec<Tree>,
    ) -> Result<(), Refused<P>>
        requires out { IsOut self.old.run.state claim }
        requires of { IsClaim (board_problem E.out self.old) claim }
        requires value { IsResult (board_problem E.out self.old) claim (P.stands value) }
        requires given { IsGivenBack (board_problem E.out self.old) claim given.items }
        ensures run { OnOk result (IsStep E.out (Settling claim.worker given.items) self.old self.new) }
        ensures value { OnOk result (slice_get self.new.run.state.settled claim.vertex ≡ Some (Some (P.stands value))) }
        ensures left { OnOk result (IsLent (board_problem E.out self.old) self.old.first self.old.run.history claim
            → IsLeftFor (E.leaves self.old.job.executor) (board_problem E.out self.old) claim given.items
            → GivesBackWhatIsLeft (E.leaves self.old.job.executor) (board_problem E.out self.old) self.old.first self.old.run.history
            → GivesBackWhatIsLeft (E.leaves self.new.job.executor) (board_problem E.out self.new) self.new.first self.new.run.history) }
        ensures nearer { OnOk result (unsettled_count self.new.run.state.settled < unsettled_count self.old.run.state.settled) }
        ensures err { OnErr result (self.new ≡ self.old) }
        ensures back { IfErr result (λ refused. (refused.claim ≡ claim) × (refused.value ≡ value) × (refused.given.items ≡ given.items)) }
    {
        let Ok(noted) = copied_items(alloc, given.as_slice()) else {
            return Err(Refused {
                claim,
                value,
                given,
            });
        };
        let worker = claim.worker();
        let vertex = claim.vertex();
        let lease = claim.into_lease();
        state::drop_claim(&mut self.claims, worker);
        let line = self.job.graph().least_place(vertex);
        self.frontier.settle(vertex, line, value.value());
        self.settled.put(vertex, value);
        self.caches.give(lease, given);
        growth::add(
            &mut self.history,
            Happened::Settled {
                worker,
                vertex,
                given: Items::from_vec(noted),
            },
        );
        Ok(())
    }

    /// Gives a claim up: its vertex is available again, and the contents of its caches stay as they are. A claim that is no longer out is
    /// dropped, and the board doesn't change. It takes no memory.
    pub fn abandon(&mut self, claim: Claim<P>)
        ensures out { IsOut self.old.run.state claim → IsStep E.out (Abandoning claim.worker) self.old self.new }
        ensures ended { ¬ IsOut self.old.run.state claim → self.new ≡ self.old }
        ensures left { GivesBackWhatIsLeft (E.leaves self.old.job.executor) (board_problem E.out self.old) self.old.first self.old.run.history
            → GivesBackWhatIsLeft (E.leaves self.new.job.executor) (board_problem E.out self.new) self.new.first self.new.run.history }
    {
        let worker = claim.worker();
        let vertex = claim.vertex();
        let at = claim.at();
        drop(claim.into_lease());
        if !state::is_out(self.claims.as_slice(), worker, vertex, at) {
            return;
        }
        self.give_up(ClaimOut { worker, vertex, at });
    }

    /// Abandons every claim that is out, in the order of their workers. It takes no memory.
    pub fn abandon_all(&mut self)
        ensures claims { self.new.run.state.claims ≡ [] }
        ensures run { IsCleared (board_problem E.out self.old) self.old.run self.new.run }
        ensures job { self.new.job ≡ self.old.job }
        ensures first { self.new.first ≡ self.old.first }
        ensures left { GivesBackWhatIsLeft (E.leaves self.old.job.executor) (board_problem E.out self.old) self.old.first self.old.run.history
            → GivesBackWhatIsLeft (E.leaves self.new.job.executor) (board_problem E.out self.new) self.new.first self.new.run.history }
    {
        while let Some(claim) = state::least_worker(self.claims.as_slice()) {
            self.give_up(claim);
        }
    }

    /// The value of a vertex, once it is settled.
    pub fn value(&self, vertex: VertexId) -> Option<&TreeOrCause>
        ensures { option_map (λ value. value.now) result ≡ value_at self.now.run.state.settled vertex }
    {
        self.settled.get(vertex)
    }

    /// What has happened, in order. What the board holds is the replay of it, and the contents of its caches are those that it left of the
    /// contents at the start.
    pub fn history(&self) -> &[Happened]
        ensures value { result.now ≡ self.now.run.history }
        ensures replay { IsReplay (board_problem E.out self.now) self.now.run }
        ensures problem { IsProblem (board_problem E.out self.now) }
        ensures contents { AreContents (board_problem E.out self.now) self.now.run.history self.now.first self.now.contents }
    {
        self.history.as_slice()
    }

    /// Whether a claim is out.
    pub fn is_out(&self, claim: &Claim<P>) -> bool
        ensures { IsTrue result ↔ IsOut self.now.run.state claim.now }
    {
        state::is_out(
            self.claims.as_slice(),
            claim.worker(),
            claim.vertex(),
            claim.at(),
        )
    }

    /// Whether no claim is out.
    pub fn is_idle(&self) -> bool
        ensures { IsTrue result ↔ (self.now.run.state.claims ≡ []) }
    {
        self.claims.is_empty()
    }

    /// Whether a vertex is available. If so, it may still not be ready: a cache may be held, a failure may stop it, or the target may be settled.
    /// If not, no vertex is ready. It looks at no cache, so that it takes no longer if many vertices wait for one.
    pub fn has_more(&self) -> bool
        ensures more { IsTrue result → (vertex : ℕ) × IsAvailable (board_problem E.out self.now) self.now.run.history vertex }
        ensures none { IsFalse result → (vertex : ℕ) → ¬ IsReady (board_problem E.out self.now) self.now.run.history vertex }
    {
        self.frontier.has_any()
    }

    /// The job that it solves.
    pub fn job(&self) -> &Job<'a, E>
        ensures { result.now ≡ self.now.job }
    {
        &self.job
    }

    /// Ends the board, and gives its history. Claims that are out are spent by `abandon` before, since no call of another board takes them.
    pub fn into_history(self) -> Vec<Happened>
        ensures value { result.items ≡ self.entry.run.history }
    {
        let Board {
            job: _,
            settled: _,
            claims: _,
            history,
            first: _,
            caches: _,
            frontier: _,
        } = self;
        history
    }

    /// Ends the board, and gives its store: the contents are those that the history left. If its settles gave back what runs left, so do those of a
    /// legal history that leaves these contents. If no claim is out, no lease is.
    pub fn into_caches(self) -> CacheStore
        ensures value { result ≡ record { contents = self.entry.contents; holds = self.entry.run.state.holds } }
        ensures idle { self.entry.run.state.claims ≡ [] → result.holds ≡ [] }
        ensures contents { AreContents (board_problem E.out self.entry) self.entry.run.history self.entry.first self.entry.contents }
        ensures left { AreLeft (board_problem E.out self.entry) self.entry.first result.contents }
        ensures runs { GivesBackWhatIsLeft (E.leaves self.entry.job.executor) (board_problem E.out self.entry) self.entry.first self.entry.run.history
            → AreLeftByRuns (E.leaves self.entry.job.executor) (board_problem E.out self.entry) self.entry.first result.contents }
    {
        let Board {
            job: _,
            settled: _,
            claims: _,
            history: _,
            first: _,
            caches,
            frontier: _,
        } = self;
        caches
    }

    /// The same board with each value in a place of its own. If there is no memory for that, it comes back as it was.
    pub fn at_home(self, alloc: Global) -> Result<Board<'a, E>, Board<'a, E, P>>
        ensures ok { IfOk result (λ board. board ≡ self.entry) }
        ensures back { IfErr result (λ board. board ≡ self.entry) }
    {
        let Ok(values) = self.settled.copied(alloc) else {
            return Err(self);
        };
        let Board {
            job,
            settled: _,
            claims,
            history,
            first,
            caches,
            frontier,
        } = self;
        Ok(Board {
            job,
            settled: values,
            claims,
            history,
            first,
            caches,
            frontier,
        })
    }

    /// Claims a vertex for the worker that may claim it next. After `Memory` the board is as it was.
    fn claim_vertex(
        &mut self,
        alloc: Global,
        worker: u32,
        next: NextClaim,
    ) -> Result<Claim<P>, Memory>
        requires next { claimable (board_problem E.out self.old) self.old.run.state worker ≡ Some next.vertex }
        requires inputs { AreInputIds self.old.job.graph.vertices self.old.run.state.settled next.vertex next.inputs.now }
        ensures vertex { IfOk result (λ claim. claim.vertex ≡ next.entry.vertex) }
        ensures worker { IfOk result (λ claim. claim.worker ≡ worker) }
        ensures of { IfOk result (IsClaim (board_problem E.out self.new)) }
        ensures out { IfOk result (IsOut self.new.run.state) }
        ensures caches { IfOk result (λ claim. claim.caches
            ≡ map (tree_held self.old.contents) (new_holds worker self.old.run.state.holds (uses_at (board_problem E.out self.old) claim.vertex))) }
        ensures lent { IfOk result (IsLent (board_problem E.out self.new) self.new.first self.new.run.history) }
        ensures run { OnOk result (IsStep E.out (Claiming worker) self.old self.new) }
        ensures left { OnOk result (GivesBackWhatIsLeft (E.leaves self.old.job.executor) (board_problem E.out self.old) self.old.first self.old.run.history
            → GivesBackWhatIsLeft (E.leaves self.new.job.executor) (board_problem E.out self.new) self.new.first self.new.run.history) }
        ensures err { OnErr result (self.new ≡ self.old) }
    {
        let NextClaim { vertex, inputs } = next;
        let inputs = self.settled.again(alloc, inputs)?;
        growth::room(&mut self.claims, 1)?;
        // One event for this claim, one for its end, and one for the end of each that is out already.
        growth::room(&mut self.history, self.claims.len() + 2)?;
        let vertices = self.job.graph().vertices();
        let lease = self
            .caches
            .take_as(alloc, worker, state::uses_of(vertices, vertex))?;
        let at = self.history.len();
        self.frontier.withdraw(vertex);
        growth::add(&mut self.claims, ClaimOut { worker, vertex, at });
        growth::add(&mut self.history, Happened::Claimed { worker, vertex });
        Ok(Claim::new(worker, vertex, at, inputs, lease))
    }

    /// Gives up a claim that is out.
    fn give_up(&mut self, claim: ClaimOut)
        requires { claim_of claim.worker self.old.run.state.claims ≡ Some claim }
        ensures run { IsStep E.out (Abandoning claim.worker) self.old self.new }
        ensures left { GivesBackWhatIsLeft (E.leaves self.old.job.executor) (board_problem E.out self.old) self.old.first self.old.run.history
            → GivesBackWhatIsLeft (E.leaves self.new.job.executor) (board_problem E.out self.new) self.new.first self.new.run.history }
    {
        let ClaimOut {
            worker,
            vertex,
            at: _,
        } = claim;
        state::drop_claim(&mut self.claims, worker);
        self.frontier.restore(vertex);
        self.caches.leave(worker as usize);
        growth::add(&mut self.history, Happened::Abandoned { worker, vertex });
    }
}
