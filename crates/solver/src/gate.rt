ghost use Rattle.std.specs.Prelude.{◌≡◌};

use executor::{Executor, Outcome, Request};
use llb::VertexId;
use plain::Memory;
use std::alloc::Global;
use std::marker::{Model, Sync};
use trees::Tree;

/// What is asked around each run of an executor, outside every lock: so a test can hold workers back, and a log can tell who runs what. It can't
/// bend an answer, since it is told no tree and gives none. Several threads may ask one gate at a time.
pub trait Gate: Sync {
    /// Before the executor runs the command of a vertex for a worker. Where none is run, since a bind has no source or a memo has the tree, it isn't asked.
    fn enter(&self, worker: u32, vertex: VertexId);

    /// After that run, also where memory was wanting.
    fn leave(&self, worker: u32, vertex: VertexId);
}

/// The gate that does nothing.
pub struct OpenGate;

impl Gate for OpenGate {
    fn enter(&self, _worker: u32, _vertex: VertexId) {}

    fn leave(&self, _worker: u32, _vertex: VertexId) {}
}

/// An executor that asks a gate around each of its runs, in which a worker runs a vertex. It answers and leaves what its executor does.
#[derive(Drop)]
pub(crate) struct Gated<'e, 'g, E: Executor, G: Gate> {
    executor: &'e E,
    gate: &'g G,
    worker: u32,
    vertex: VertexId,
}

impl<'e, 'g, E: Executor, G: Gate> Model for Gated<'e, 'g, E, G> {
    ghost Value = { E };

    ghost coded = { E.code };

    ghost view = { λ g. g.executor.now };
}

impl<'e, 'g, E: Executor, G: Gate> Gated<'e, 'g, E, G> {
    /// This executor with this gate, for the run of a vertex by a worker.
    pub(crate) fn new(
        executor: &'e E,
        gate: &'g G,
        worker: u32,
        vertex: VertexId,
    ) -> Gated<'e, 'g, E, G>
        ensures { result ≡ executor.now }
    {
        Gated {
            executor,
            gate,
            worker,
            vertex,
        }
    }
}

impl<'e, 'g, E: Executor, G: Gate> Executor for Gated<'e, 'g, E, G> {
    ghost out = { E.out };

    ghost leaves = { E.leaves };

    ghost exits = { E.exits };

    fn run(
        &self,
        alloc: Global,
        request: &Request,
        caches: &mut Vec<Tree>,
    ) -> Result<Outcome, Memory> {
        self.gate.enter(self.worker, self.vertex);
        let outcome = self.executor.run(alloc, request, caches);
        self.gate.leave(self.worker, self.vertex);
        outcome
    }
}
