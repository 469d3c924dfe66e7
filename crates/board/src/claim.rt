ghost use Rattle.std.specs.Prelude.{◌≡◌, ◌<◌, Ok, Some, length, slice_get};
ghost use Rattle.std.specs.Option.{option_map};

use crate::inputs::Inputs;
use cachemounts::Lease;
use cells::Place;
use llb::VertexId;
use std::marker::Model;
use trees::{Tree, TreeOrCause};

/// The claim of a vertex by a worker, with the trees of the vertex's inputs and the lease of its caches. It has to be spent, by `Board::settle` or
/// `Board::abandon`: the language doesn't let it go, since its vertex would stay claimed.
pub struct Claim<P: Place<TreeOrCause> = TreeOrCause> {
    worker: u32,
    vertex: VertexId,
    at: usize,
    inputs: Inputs<P>,
    lease: Lease,
}

impl<P: Place<TreeOrCause>> Model for Claim<P> {
    ghost use Rattle.std.specs.Prelude.{◌≡◌};
    ghost use Rattle.board.specs.Claim.{ClaimValue, claim_code};

    ghost Value = { ClaimValue };

    ghost coded = { claim_code };

    ghost view = { λ c. record { worker = c.worker; vertex = c.vertex; at = c.at; inputs = c.inputs; caches = c.lease.trees } };

    ghost invariant = { λ c. c.lease.holder ≡ c.worker };
}

impl<P: Place<TreeOrCause>> Claim<P> {
    /// A claim of a worker, made by the board alone.
    pub(crate) fn new(
        worker: u32,
        vertex: VertexId,
        at: usize,
        inputs: Inputs<P>,
        lease: Lease,
    ) -> Claim<P>
        requires { lease.holder ≡ worker }
        ensures { result ≡ record { worker = worker; vertex = vertex; at = at; inputs = inputs; caches = lease.trees } }
    {
        Claim {
            worker,
            vertex,
            at,
            inputs,
            lease,
        }
    }

    /// The worker that has claimed it.
    pub fn worker(&self) -> u32
        ensures { result ≡ self.now.worker }
    {
        self.worker
    }

    /// The vertex that was claimed.
    pub fn vertex(&self) -> VertexId
        ensures { result ≡ self.now.vertex }
    {
        self.vertex
    }

    /// The number of events before it on its board.
    pub fn at(&self) -> usize
        ensures { result ≡ self.now.at }
    {
        self.at
    }

    /// How many inputs its vertex has.
    pub fn input_count(&self) -> usize
        ensures { result ≡ length self.now.inputs }
    {
        self.inputs.len()
    }

    /// The tree of an input of its vertex, by the input's position.
    pub fn input(&self, at: usize) -> &Tree
        requires { at < length self.now.inputs }
        ensures { slice_get self.now.inputs at ≡ Some result.now }
    {
        self.inputs.tree(at)
    }

    /// The place in which the tree of an input of its vertex stands, by the input's position.
    pub fn place(&self, at: usize) -> &P
        requires { at < length self.now.inputs }
        ensures { option_map Ok (slice_get self.now.inputs at) ≡ Some (P.stands result.now) }
    {
        self.inputs.place(at)
    }

    /// Copies of the trees that were in the caches of its vertex, in the order of the vertex's uses.
    pub fn caches(&self) -> &[Tree]
        ensures { result.now ≡ self.now.caches }
    {
        self.lease.trees()
    }

    /// The lease, for the board alone.
    pub(crate) fn into_lease(self) -> Lease
        ensures { result ≡ record { holder = self.worker; trees = self.caches } }
    {
        let Claim {
            worker: _,
            vertex: _,
            at: _,
            inputs: _,
            lease,
        } = self;
        lease
    }
}

/// What a settle took, given back since there was no memory for it.
pub struct Refused<P: Place<TreeOrCause> = TreeOrCause> {
    pub claim: Claim<P>,
    pub value: P,
    pub given: Vec<Tree>,
}

/// A claim that is out, as the board keeps it. The number of events before it tells it from every other claim, also of the same worker and
/// vertex.
#[derive(Clone, Copy, Debug, PartialEq, Eq)]
pub struct ClaimOut {
    pub worker: u32,
    pub vertex: VertexId,
    pub at: usize,
}
