ghost use Rattle.std.specs.Prelude.{◌≡◌, ◌↔◌, ◌<◌, Some, None, IfOk, IsTrue, length, slice_get};
ghost use Rattle.serde_json.specs.View.{view};
ghost use Rattle.llb.specs.Graph.{IsAfterInputs, IsNew};
ghost use Rattle.llb.specs.Places.{AreLines};
ghost use Rattle.plain.specs.Limits.{most_vertices};
ghost use Rattle.llb.specs.WellFormed.{is_well_formed};
ghost use Rattle.operations.specs.Texts.{op_data};
ghost use Rattle.addresses.specs.Address.{address_of, addresses_of, vertex_address, place_of};
ghost use Rattle.definition.specs.Reading.{no_graph, grown, address_place, IsNext};
ghost use Rattle.definition.specs.PrivateReading.{told_next, IsPlaced};

use crate::{DefFault, Defect};
use addresses::{Addresses, address_of};
use llb::{Graph, Op, Vertex, VertexId};
use operations::{Spelled, op_value, read_spelled};
use plain::{Exact, Fault, Memory, Text};
use serde_json::Value;
use std::alloc::Global;
use std::marker::Model;

/// The graph that was read so far, with the addresses of its vertices.
#[derive(Drop)]
pub(crate) struct Known {
    graph: Graph,
    addresses: Addresses,
}

impl Model for Known {
    ghost use Rattle.std.specs.Prelude.{◌≡◌};
    ghost use Rattle.llb.specs.Graph.{GraphValue};
    ghost use Rattle.definition.specs.Reading.{graph_code};
    ghost use Rattle.addresses.specs.Address.{addresses_of};

    ghost Value = { GraphValue };

    ghost coded = { graph_code };

    ghost view = { λ k. k.graph };

    ghost invariant = { λ k. k.addresses ≡ addresses_of k.graph.vertices };
}

/// The address of an operation on inputs that have these addresses.
fn address_on(alloc: Global, op: &Op, inputs: &[Text]) -> Result<Text, Memory>
    ensures { IfOk result (λ address. address ≡ address_of (op_data inputs.now op.now)) }
{
    let operation = op_value(alloc, op, inputs)?;
    address_of(alloc, &operation)
}

impl Known {
    /// No vertex yet. It takes no memory.
    pub(crate) fn new(alloc: Global) -> Known
        ensures { result ≡ no_graph }
    {
        Known {
            graph: Graph::new(alloc),
            addresses: Addresses::new(alloc),
        }
    }

    /// The vertex that a value spells after these, with its address; or its first fault.
    pub(crate) fn next(&self, alloc: Global, value: &Value) -> Result<(Vertex, Text), DefFault>
        requires few { length self.now.vertices < most_vertices }
        ensures next { IsNext self.now.vertices (view value.now) (told_next result) }
        ensures address { IfOk result (λ told. told.1 ≡ vertex_address (addresses_of self.now.vertices) told.0) }
    {
        let place = self.graph.len() as u32;
        let spelled = match read_spelled(alloc, value) {
            Ok(spelled) => spelled,
            Err(Fault::Because(_)) => return Err(Fault::Because(Defect::Malformed(place))),
            Err(Fault::Memory) => return Err(Fault::Memory),
        };
        self.placed(alloc, spelled)
    }

    /// The vertex that was spelled, with its address; or its first fault.
    fn placed(&self, alloc: Global, spelled: Spelled) -> Result<(Vertex, Text), DefFault>
        requires few { length self.now.vertices < most_vertices }
        ensures next { IsPlaced self.now.vertices spelled (told_next result) }
        ensures address { IfOk result (λ told. told.1 ≡ vertex_address (addresses_of self.now.vertices) told.0) }
    {
        let _once = self.addresses.len();
        let place = self.graph.vertices().len() as u32;
        let Spelled { op, inputs } = spelled;
        // An operation that isn't handed on is let go by name: the proof would walk all its parts at each end of the function.
        let ids = match self.addresses.ids(alloc, inputs.as_slice()) {
            Ok(ids) => ids,
            Err(_) => {
                drop(op);
                return Err(Fault::Memory);
            }
        };
        let Some(ids) = ids else {
            drop(op);
            return Err(Fault::Because(Defect::Unknown(place)));
        };
        let address = match address_on(alloc, &op, inputs.as_slice()) {
            Ok(address) => address,
            Err(_) => {
                drop(op);
                return Err(Fault::Memory);
            }
        };
        let vertex = Vertex { op, inputs: ids };
        let Some(at) = self.addresses.place(&address) else {
            return Ok((vertex, address));
        };
        let is_there = self.has(VertexId::new(at), &vertex);
        drop(vertex);
        if is_there {
            Err(Fault::Because(Defect::Repeated(place)))
        } else {
            Err(Fault::Because(Defect::Clash(place)))
        }
    }

    /// Whether this vertex has that id.
    fn has(&self, id: VertexId, vertex: &Vertex) -> bool
        ensures { IsTrue result ↔ (slice_get self.now.vertices id ≡ Some vertex.now) }
    {
        match self.graph.vertex(id) {
            Some(other) => other.same(vertex),
            None => false,
        }
    }

    /// These with one vertex more, whose address this is, and the lines behind it.
    pub(crate) fn with(
        self,
        alloc: Global,
        vertex: Vertex,
        address: Text,
        lines: &[u32],
    ) -> Result<Known, Memory>
        requires few { length self.vertices < most_vertices }
        requires after { IsAfterInputs (length self.vertices) vertex }
        requires formed { IsTrue (is_well_formed vertex) }
        requires fresh { IsNew self.vertices vertex }
        requires place { address_place self.vertices vertex ≡ None }
        requires address { address ≡ vertex_address (addresses_of self.vertices) vertex }
        requires lines { AreLines lines.now }
        ensures { IfOk result (λ more. more ≡ grown self vertex lines.now) }
    {
        let Known {
            mut graph,
            mut addresses,
        } = self;
        match graph.add_all(alloc, vertex, lines) {
            Ok(_) => {}
            Err(Fault::Because(_)) => unreachable!(),
            Err(Fault::Memory) => return Err(Memory),
        }
        addresses.push(alloc, address)?;
        Ok(Known { graph, addresses })
    }

    /// How many vertices there are.
    pub(crate) fn len(&self) -> usize
        ensures { result ≡ length self.now.vertices }
    {
        self.graph.len()
    }

    /// The number of the vertex that has this address.
    pub(crate) fn place(&self, address: &Text) -> Option<u32>
        ensures { result ≡ place_of (addresses_of self.now.vertices) address.now }
    {
        self.addresses.place(address)
    }

    /// The graph.
    pub(crate) fn into_graph(self) -> Graph
        ensures { result ≡ self }
    {
        let Known {
            graph,
            addresses: _,
        } = self;
        graph
    }
}
