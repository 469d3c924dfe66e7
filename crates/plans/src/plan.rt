ghost use Rattle.std.specs.Prelude.{◌≡◌, ◌<◌, length};
ghost use Rattle.plans.specs.Plan.{IsPlan};
ghost use Rattle.plans.specs.Sources.{HasSources};

use crate::Sources;
use llb::{Graph, VertexId};
use std::marker::Model;

/// What a build has to solve: a graph, the vertex whose tree is wanted, the configuration that goes with that tree, and the
/// trees of the graph's sources.
#[derive(Drop)]
pub struct Plan<C> {
    graph: Graph,
    target: VertexId,
    config: C,
    sources: Sources,
}

impl<C> Model for Plan<C> {
    ghost use Rattle.plans.specs.Plan.{PlanValue, plan_code, IsPlan};

    ghost Value = { PlanValue C };

    ghost coded = { plan_code C.code };

    ghost view = { λ p. record { graph = p.graph; target = p.target; config = p.config; sources = p.sources } };

    ghost invariant = { λ p. IsPlan (record { graph = p.graph; target = p.target; config = p.config; sources = p.sources }) };
}

impl<C> Plan<C> {
    /// The plan of these four: the target is in the graph, and each source of the graph has its tree, which
    /// `Sources::suffice` tells. It takes no memory.
    pub fn new(graph: Graph, target: VertexId, config: C, sources: Sources) -> Plan<C>
        requires target { target < length graph.vertices }
        requires sources { HasSources sources graph.vertices }
        ensures { result ≡ record { graph = graph; target = target; config = config; sources = sources } }
    {
        let _known = graph.vertices();
        Plan {
            graph,
            target,
            config,
            sources,
        }
    }

    /// The graph.
    pub fn graph(&self) -> &Graph
        ensures value { result.now ≡ self.now.graph }
        ensures plan { IsPlan self.now }
    {
        &self.graph
    }

    /// The vertex whose tree is wanted.
    pub fn target(&self) -> VertexId
        ensures { result ≡ self.now.target }
    {
        self.target
    }

    /// The configuration that goes with the target's tree.
    pub fn config(&self) -> &C
        ensures { result.now ≡ self.now.config }
    {
        &self.config
    }

    /// The trees of the graph's sources.
    pub fn sources(&self) -> &Sources
        ensures { result.now ≡ self.now.sources }
    {
        &self.sources
    }

    /// The four that the plan was made of. It takes no memory.
    pub fn into_parts(self) -> (Graph, VertexId, C, Sources)
        ensures value { self ≡ record { graph = result.0; target = result.1; config = result.2; sources = result.3 } }
        ensures plan { IsPlan self }
    {
        let Plan {
            graph,
            target,
            config,
            sources,
        } = self;
        (graph, target, config, sources)
    }
}
