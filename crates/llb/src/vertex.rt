ghost use Rattle.std.specs.Prelude.{◌≡◌, IfOk};
ghost use Rattle.llb.specs.WellFormed.{is_well_formed};

use crate::Op;
use plain::{Exact, Items, Memory, with_copy};
use std::alloc::Global;
use std::marker::Model;

/// Which vertex of a graph: the number of vertices that were added before it. Contracts see that number.
#[derive(Clone, Copy, Debug)]
pub struct VertexId {
    number: u32,
}

impl Model for VertexId {
    ghost use Rattle.std.specs.Prelude.{ℕ};
    ghost use Rattle.std.specs.Coded.{coded_ℕ};

    ghost Value = { ℕ };

    ghost coded = { coded_ℕ };

    ghost view = { λ id. id.number };

    ghost inverse = { λ n. record { number = n } };
}

impl VertexId {
    /// The id of the vertex of this number.
    pub fn new(number: u32) -> VertexId
        ensures { result ≡ number }
    {
        VertexId { number }
    }

    /// The vertex's number, for indexing.
    pub fn index(self) -> usize
        ensures { result ≡ self }
    {
        self.number as usize
    }

    /// The vertex's number.
    pub fn number(self) -> u32
        ensures { result ≡ self }
    {
        self.number
    }
}

impl PartialEq for VertexId {
    ghost use Rattle.std.specs.Prelude.{nat_eq};
    ghost use Rattle.std.specs.Cmp.{nat_eq_equiv, partial_equiv_from_equiv};

    ghost eq = { nat_eq };

    ghost laws = { partial_equiv_from_equiv nat_eq_equiv };

    fn eq(&self, other: &VertexId) -> bool {
        self.number == other.number
    }
}

impl Eq for VertexId {
    ghost use Rattle.std.specs.Cmp.{nat_eq_equiv};

    ghost laws = { nat_eq_equiv };
}

impl Exact for VertexId {
    fn same(&self, other: &VertexId) -> bool {
        self.number == other.number
    }

    fn copy(&self, _alloc: Global) -> Result<VertexId, Memory> {
        Ok(*self)
    }
}

/// An operation, and the vertices whose trees it works on, in the order that the operation counts them.
#[derive(Drop)]
pub struct Vertex {
    pub op: Op,
    pub inputs: Items<VertexId>,
}

impl Vertex {
    /// Whether the operation is well formed on these inputs, however many the graph has (`Op::is_well_formed`).
    pub fn is_well_formed(&self, alloc: Global) -> Result<bool, Memory>
        ensures { IfOk result (λ answer. answer ≡ is_well_formed self.now) }
    {
        self.op.is_well_formed(alloc, self.inputs.len())
    }
}

impl Exact for Vertex {
    fn same(&self, other: &Vertex) -> bool {
        self.inputs.same(&other.inputs) && self.op.same(&other.op)
    }

    fn copy(&self, alloc: Global) -> Result<Vertex, Memory> {
        let op = self.op.copy(alloc)?;
        let (op, inputs) = with_copy(alloc, op, &self.inputs)?;
        Ok(Vertex { op, inputs })
    }
}
