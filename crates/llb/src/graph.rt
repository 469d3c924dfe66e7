ghost use Rattle.std.specs.Prelude.{◌≡◌, ◌↔◌, ◌<◌, ◌≤◌, ℕ, [], length, slice_get, slice_index_or, IsTrue, IfOk, MatchOption, OnErr, option_copied};
ghost use Rattle.std.specs.Option.{ForSome};
ghost use Rattle.std.specs.List.{All};
ghost use Rattle.llb.specs.Graph.{IsAfterInputs, IsNew, IsGraph, Adds};
ghost use Rattle.plain.specs.Limits.{most_vertices};
ghost use Rattle.llb.specs.PrivateLast.{PutsLast};
ghost use Rattle.llb.specs.WellFormed.{is_well_formed, HasNames};
ghost use Rattle.llb.specs.Places.{IsLine, AreLines, lines_of, least_line};

use crate::hash::hash_of;
use crate::index::Index;
use crate::{Full, GraphFault, Vertex, VertexId, places};
use plain::limits::MOST_VERTICES;
use plain::{Fault, Items, Memory};
use std::alloc::Global;
use std::marker::Model;

/// The operations of a build, each after its inputs and each once, and beside each the lines of the instructions that it
/// stands for.
#[derive(Drop)]
pub struct Graph {
    vertices: Vec<Vertex>,
    places: Vec<Items<u32>>,
    // finds an equal vertex without comparing with all; contracts don't see it. Vertices that were appended aren't in it until one is sought
    index: Index,
}

impl Model for Graph {
    ghost use Rattle.llb.specs.Graph.{GraphValue, IsGraph};
    ghost use Rattle.llb.specs.Index.{IsIndexed};
    ghost use Rattle.llb.specs.PrivateIndex.{IsIndex};

    ghost Value = { GraphValue };

    ghost view = { λ g. record { vertices = g.vertices.items; places = g.places.items } };

    ghost invariant = { λ g. IsGraph (record { vertices = g.vertices.items; places = g.places.items })
        × (IsIndex g.index × IsIndexed g.vertices.items g.index) };
}

impl Graph {
    /// The graph without a vertex. It takes no memory.
    pub fn new(alloc: Global) -> Graph
        ensures { result ≡ record { vertices = []; places = [] } }
    {
        Graph {
            vertices: Vec::new(alloc),
            places: Vec::new(alloc),
            index: Index::new(alloc),
        }
    }

    /// Adds a vertex, and the line of the instruction that it stands for, if it has one: [`Graph::add_all`] of at most one line.
    pub fn add(
        &mut self,
        alloc: Global,
        vertex: Vertex,
        line: Option<u32>,
    ) -> Result<VertexId, GraphFault>
        requires inputs { IsAfterInputs (length self.old.vertices) vertex }
        requires well_formed { HasNames vertex → IsTrue (is_well_formed vertex) }
        requires line { ForSome line IsLine }
        ensures adds { Adds self.old self.new vertex (lines_of line) result }
        ensures err { OnErr result (self.new ≡ self.old) }
    {
        match line {
            None => self.add_all(alloc, vertex, &[]),
            Some(line) => self.add_all(alloc, vertex, &[line]),
        }
    }

    /// Adds a vertex, and the lines of the instructions that it stands for, in ascending order. Where an equal vertex is there, it
    /// gives that one's id and adds the lines to its lines; else the new vertex's id, the number of vertices before.
    ///
    /// It is `Full` exactly where the vertex is new and there are 16,384. After an error the graph is as it was. `can_add` tells
    /// whether a vertex may be added; a line is from 1 to `plain::limits::MOST_LINE_NUMBER`.
    pub fn add_all(
        &mut self,
        alloc: Global,
        vertex: Vertex,
        lines: &[u32],
    ) -> Result<VertexId, GraphFault>
        requires inputs { IsAfterInputs (length self.old.vertices) vertex }
        requires well_formed { HasNames vertex → IsTrue (is_well_formed vertex) }
        requires lines { AreLines lines.now }
        ensures adds { Adds self.old self.new vertex lines.now result }
        ensures err { OnErr result (self.new ≡ self.old) }
    {
        let _known = vertex.op.environment();
        // A vertex that isn't added is let go by name: let go at the end of the function, the proof would walk all its parts at each end.
        let Ok(()) = self.index.enter_rest(alloc, self.vertices.as_slice()) else {
            drop(vertex);
            return Err(Fault::Memory);
        };
        let hash = hash_of(&vertex);
        if let Some(at) = self.index.find(self.vertices.as_slice(), hash, &vertex) {
            drop(vertex);
            places::add_lines(alloc, &mut self.places, at, lines)?;
            return Ok(VertexId::new(at as u32));
        }
        let Ok(lines) = Vec::from_slice(alloc, lines) else {
            drop(vertex);
            return Err(Fault::Memory);
        };
        let lines = Items::from_vec(lines);
        let id = put_last(&mut self.vertices, &mut self.places, vertex, lines)?;
        // Without memory for it, it is entered when a vertex is sought next.
        let _entered = self.index.enter(alloc, hash);
        Ok(id)
    }

    /// Adds a vertex to which none of the graph is equal, and the lines of the instructions that it stands for, in ascending order: as
    /// [`Graph::add_all`], which finds out whether one is equal, but without looking for one.
    pub fn append(&mut self, vertex: Vertex, lines: Items<u32>) -> Result<VertexId, GraphFault>
        requires inputs { IsAfterInputs (length self.old.vertices) vertex }
        requires well_formed { HasNames vertex → IsTrue (is_well_formed vertex) }
        requires lines { AreLines lines }
        requires fresh { IsNew self.old.vertices vertex }
        ensures adds { Adds self.old self.new vertex lines result }
        ensures err { OnErr result (self.new ≡ self.old) }
    {
        let _known = vertex.op.environment();
        put_last(&mut self.vertices, &mut self.places, vertex, lines)
    }

    /// Whether a vertex may be added: it is well formed, and its inputs are in the graph.
    pub fn can_add(&self, alloc: Global, vertex: &Vertex) -> Result<bool, Memory>
        ensures { IfOk result (λ answer. IsTrue answer
            ↔ (IsAfterInputs (length self.now.vertices) vertex.now × IsTrue (is_well_formed vertex.now))) }
    {
        let is_well_formed = vertex.is_well_formed(alloc)?;
        Ok(are_below(vertex.inputs.as_slice(), self.vertices.len()) && is_well_formed)
    }

    /// How many vertices there are.
    pub fn len(&self) -> usize
        ensures { result ≡ length self.now.vertices }
    {
        self.vertices.len()
    }

    /// All vertices, by their ids.
    pub fn vertices(&self) -> &[Vertex]
        ensures value { result.now ≡ self.now.vertices }
        ensures graph { IsGraph self.now }
    {
        self.vertices.as_slice()
    }

    /// The vertices by their ids, and the lines behind each, of a graph that is taken apart. It takes no memory.
    pub fn into_parts(self) -> (Items<Vertex>, Items<Items<u32>>)
        ensures value { self ≡ record { vertices = result.0; places = result.1 } }
        ensures graph { IsGraph self }
    {
        let Graph {
            vertices,
            places,
            index: _,
        } = self;
        (Items::from_vec(vertices), Items::from_vec(places))
    }

    /// The vertex of an id; `None` where the graph has none.
    pub fn vertex(&self, id: VertexId) -> Option<&Vertex>
        ensures { option_copied result ≡ slice_get self.now.vertices id }
    {
        self.vertices.get(id.index())
    }

    /// The inputs of a vertex, in the order that its operation counts them; none where the graph has no such vertex.
    pub fn inputs(&self, id: VertexId) -> &[VertexId]
        ensures { MatchOption (slice_get self.now.vertices id) (result.now ≡ []) (λ vertex. result.now ≡ vertex.inputs) }
    {
        match self.vertices.get(id.index()) {
            Some(vertex) => vertex.inputs.as_slice(),
            None => &[],
        }
    }

    /// The lines of the instructions behind a vertex, in ascending order; none where the graph has no such vertex.
    pub fn places(&self, id: VertexId) -> &[u32]
        ensures { result.now ≡ slice_index_or self.now.places id [] }
    {
        match self.places.get(id.index()) {
            Some(lines) => lines.as_slice(),
            None => &[],
        }
    }

    /// The least of the lines behind a vertex; 0 where there is none.
    pub fn least_place(&self, id: VertexId) -> u32
        ensures { result ≡ least_line (slice_index_or self.now.places id []) }
    {
        match self.places.get(id.index()) {
            Some(lines) => places::least_line(lines.as_slice()),
            None => 0,
        }
    }
}

/// Puts a vertex and its lines behind those that are there. After an error nothing has changed.
fn put_last(
    vertices: &mut Vec<Vertex>,
    places: &mut Vec<Items<u32>>,
    vertex: Vertex,
    lines: Items<u32>,
) -> Result<VertexId, GraphFault>
    requires few { length vertices.old.items ≤ most_vertices }
    ensures { PutsLast vertices.old.items vertices.new.items places.old.items places.new.items vertex lines result }
{
    let at = vertices.len();
    if at == MOST_VERTICES {
        drop(vertex);
        return Err(Fault::Because(Full));
    }
    let (Ok(()), Ok(())) = (vertices.reserve(1), places.reserve(1)) else {
        drop(vertex);
        return Err(Fault::Memory);
    };
    places.push(lines).unwrap();
    vertices.push(vertex).unwrap();
    Ok(VertexId::new(at as u32))
}

/// Whether all these ids are smaller than the number.
fn are_below(ids: &[VertexId], number: usize) -> bool
    ensures { IsTrue result ↔ All (λ id. id < number) ids.now }
{
    ids.iter().all(|id| id.index() < number)
}
