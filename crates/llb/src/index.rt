ghost use Rattle.std.specs.Prelude.{◌≡◌, ◌<◌, ◌≤◌, ◌++◌, ◌∷◌, [], Some, length, slice_get, IfSome, IfNone, OnOk, OnErr};
ghost use Rattle.plain.specs.Limits.{most_vertices};
ghost use Rattle.llb.specs.Graph.{IsNew};
ghost use Rattle.llb.specs.Hash.{hash_of};
ghost use Rattle.llb.specs.Index.{IsIndexed};
ghost use Rattle.llb.specs.PrivateIndex.{places, place_of, IsEnd, IsIndex};

use crate::Vertex;
use crate::hash::hash_of;
use plain::{Exact, Memory};
use std::alloc::Global;

/// How many places an index has: a quarter of as many as a graph may have vertices.
const PLACES: usize = 4096;

/// The hashes of vertices, under the vertices' numbers, and which numbers are at one place. A hash's place is what is left of it if it is
/// divided by the number of places.
///
/// From a place one is led to each number there, the last one first. So a look-up goes by few hashes, unless whoever wrote the
/// Dockerfile looked for vertices at one place: then by as many as there are vertices.
#[derive(Drop)]
pub(crate) struct Index {
    hashes: Vec<u64>,
    // at each place 1 more than the last number there, or 0; none before the first hash
    ends: Vec<u32>,
    // beside each hash 1 more than the number before it at its place, or 0
    befores: Vec<u32>,
}

impl Index {
    /// Nothing entered. It takes no memory.
    pub(crate) fn new(alloc: Global) -> Index
        ensures index { IsIndex result }
        ensures none { result.hashes.items ≡ [] }
    {
        Index {
            hashes: Vec::new(alloc),
            ends: Vec::new(alloc),
            befores: Vec::new(alloc),
        }
    }

    /// The end of all numbers at a hash's place.
    fn end_of(&self, hash: u64) -> usize
        requires { IsIndex self.now }
        ensures { IsEnd self.now (place_of self.now hash) (length self.now.hashes.items) result }
    {
        if self.ends.is_empty() {
            return 0;
        }
        self.ends[hash as usize % self.ends.len()] as usize
    }

    /// The number of the vertex that is equal to this one, which has this hash; `None` where there is none. All are entered.
    pub(crate) fn find(&self, vertices: &[Vertex], hash: u64, vertex: &Vertex) -> Option<usize>
        requires hash { hash ≡ hash_of vertex.now }
        requires index { IsIndex self.now }
        requires indexed { IsIndexed vertices.now self.now }
        requires all { length self.now.hashes.items ≡ length vertices.now }
        ensures found { IfSome result (λ at. slice_get vertices.now at ≡ Some vertex.now) }
        ensures fresh { IfNone result (IsNew vertices.now vertex.now) }
    {
        let mut end = self.end_of(hash);
        while end > 0 {
            let at = end - 1;
            if self.hashes[at] == hash && vertices[at].same(vertex) {
                return Some(at);
            }
            end = self.befores[at] as usize;
        }
        None
    }

    /// Makes the places, if there are none.
    fn open(&mut self, alloc: Global) -> Result<(), Memory>
        requires { IsIndex self.old }
        ensures index { IsIndex self.new }
        ensures same { self.new.hashes.items ≡ self.old.hashes.items }
        ensures open { OnOk result (0 < places self.new) }
    {
        if self.ends.is_empty() {
            self.ends = vec![in alloc; 0; PLACES]?;
        }
        Ok(())
    }

    /// Enters a hash under the next number. After `Memory` the same hashes are there.
    pub(crate) fn enter(&mut self, alloc: Global, hash: u64) -> Result<(), Memory>
        requires index { IsIndex self.old }
        requires room { length self.old.hashes.items < most_vertices }
        ensures index { IsIndex self.new }
        ensures ok { OnOk result (self.new.hashes.items ≡ self.old.hashes.items ++ hash ∷ []) }
        ensures err { OnErr result (self.new.hashes.items ≡ self.old.hashes.items) }
    {
        self.open(alloc)?;
        self.hashes.reserve(1)?;
        let place = hash as usize % self.ends.len();
        self.befores.push(self.ends[place])?;
        self.hashes.push(hash).unwrap();
        self.ends[place] = self.hashes.len() as u32;
        Ok(())
    }

    /// Enters the hashes of those vertices that aren't entered. After `Memory` some of them may be.
    pub(crate) fn enter_rest(&mut self, alloc: Global, vertices: &[Vertex]) -> Result<(), Memory>
        requires index { IsIndex self.old }
        requires indexed { IsIndexed vertices.now self.old }
        requires few { length vertices.now ≤ most_vertices }
        ensures index { IsIndex self.new }
        ensures indexed { IsIndexed vertices.now self.new }
        ensures all { OnOk result (length self.new.hashes.items ≡ length vertices.now) }
    {
        while self.hashes.len() < vertices.len() {
            let hash = hash_of(&vertices[self.hashes.len()]);
            self.enter(alloc, hash)?;
        }
        Ok(())
    }
}
