ghost use Rattle.std.specs.Prelude.{◌≡◌, ◌<◌, Some, length, slice_get};
ghost use Rattle.board.specs.Job.{job_problem};
ghost use Rattle.board.specs.Problem.{IsProblem};

use executor::Executor;
use llb::{Graph, VertexId};
use plans::{Plan, Sources};
use std::marker::Model;

/// What is to be solved: the vertices of a plan with their sources, and which of them is the target, under the answers of one executor. It
/// lends all of it, and knows no configuration.
#[derive(Drop)]
pub struct Job<'a, E: Executor> {
    executor: &'a E,
    graph: &'a Graph,
    sources: &'a Sources,
    target: VertexId,
}

impl<'a, E: Executor> Model for Job<'a, E> {
    ghost use Rattle.board.specs.Job.{JobValue, job_code, job_problem};
    ghost use Rattle.board.specs.Problem.{IsProblem};

    ghost Value = { JobValue E };

    ghost coded = { job_code E.code };

    ghost view = { λ j. record { executor = j.executor.now; graph = j.graph.now; sources = j.sources.now; target = j.target } };

    ghost invariant = { λ j. IsProblem (job_problem E.out (record { executor = j.executor.now; graph = j.graph.now; sources = j.sources.now; target = j.target })) };
}

impl<'a, E: Executor> Job<'a, E> {
    /// The job of a plan for an executor.
    pub fn new<C>(plan: &'a Plan<C>, executor: &'a E) -> Job<'a, E>
        ensures { result ≡ record { executor = executor.now; graph = plan.now.graph; sources = plan.now.sources; target = plan.now.target } }
    {
        Job {
            executor,
            graph: plan.graph(),
            sources: plan.sources(),
            target: plan.target(),
        }
    }

    /// The executor that runs the commands.
    pub fn executor(&self) -> &'a E
        ensures { result.now ≡ self.now.executor }
    {
        self.executor
    }

    /// The graph of the vertices.
    pub fn graph(&self) -> &'a Graph
        ensures value { result.now ≡ self.now.graph }
        ensures problem { IsProblem (job_problem E.out self.now) }
    {
        self.graph
    }

    /// The trees of the graph's sources.
    pub fn sources(&self) -> &'a Sources
        ensures { result.now ≡ self.now.sources }
    {
        self.sources
    }

    /// The vertex whose tree is wanted.
    pub fn target(&self) -> VertexId
        ensures { result ≡ self.now.target }
    {
        self.target
    }
}
