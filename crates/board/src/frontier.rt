// Which vertices are available: what a board keeps so that a claim needn't look for a ready vertex.
ghost use Rattle.std.specs.Prelude.{◌≡◌, ◌<◌, ◌≤◌, ◌^◌, ◌==◌, ◌&&◌, ℕ, true, false, length, map, replicate, slice_index, slice_set, IsTrue, IsFalse, IfOk, OnOk, None, [], vec_len};
ghost use Rattle.std.specs.List.{All};
ghost use Rattle.llb.specs.Graph.{AreVertices};
ghost use Rattle.cachemounts.specs.Holds.{can_take};
ghost use Rattle.plans.specs.Plan.{uses_in};
ghost use Rattle.board.specs.Play.{least};
ghost use Rattle.board.specs.PrivateNumbers.{has, HasNone};
ghost use Rattle.board.specs.PrivateFrontier.{users_at, line_in, comes_before, with_failed, IsFrontier, IsThinned, AreUsers, IsNoted, IsLowered, IsSettledIn, CanLower};

use crate::number_set::NumberSet;
use crate::state;
use cachemounts::CacheStore;
use llb::{Graph, Vertex, VertexId};
use plain::{Items, Memory};
use std::alloc::Global;
use trees::TreeOrCause;

/// The available vertices: those whose inputs are settled with trees and that were not begun, so that they are neither claimed nor settled. Beside
/// them is what says which vertices a settle makes available, and which ones failures stop: those whose line doesn't come before the least failed
/// line. It has room for every vertex, so that only `new` takes memory.
///
/// A vertex that a failure stops stays stopped. So the first claim that meets it removes it from the set, and later claims don't come to it.
#[derive(Drop)]
pub(crate) struct Frontier {
    /// For each vertex those that it is an input of, each as often as it is one.
    users: Vec<Items<VertexId>>,
    /// For each vertex how many of its inputs aren't settled with a tree.
    waiting: Vec<usize>,
    /// The available vertices, without some of those that failures stop.
    available: NumberSet,
    /// The least line of the vertices that are settled with a cause, if any is.
    failed: Option<u32>,
}

impl Frontier {
    /// The frontier of a board on which nothing was begun.
    pub(crate) fn new(alloc: Global, graph: &Graph) -> Result<Frontier, Memory>
        ensures { IfOk result (IsFrontier graph.now.vertices graph.now.places (replicate (length graph.now.vertices) None) []) }
    {
        let vertices = graph.vertices();
        let users = users(alloc, vertices)?;
        let waiting = input_counts(alloc, vertices)?;
        let available = without_inputs(alloc, waiting.as_slice())?;
        Ok(Frontier {
            users,
            waiting,
            available,
            failed: None,
        })
    }

    /// The least available vertex whose caches can be taken and that no failure stops. Stopped vertices of smaller id are taken out.
    pub(crate) fn least(&mut self, graph: &Graph, caches: &CacheStore) -> Option<VertexId>
        requires few { length graph.now.vertices < 2 ^ 32 }
        requires long { length self.old.available ≡ length graph.now.vertices }
        ensures which { result ≡ least (λ vertex. has self.old.available vertex && (can_take caches.now.holds (uses_in graph.now.vertices vertex)
            && comes_before (line_in graph.now.places vertex) self.old.failed)) (length graph.now.vertices) }
        ensures thinned { IsThinned graph.now.places self.old self.new }
    {
        let mut from = 0;
        while let Some(number) = self.available.first_from(from) {
            let vertex = VertexId::new(number as u32);
            if !self.comes_before(graph.least_place(vertex)) {
                self.available.remove(number);
            } else if caches.can_take(state::uses_of(graph.vertices(), vertex)) {
                return Some(vertex);
            }
            from = number + 1;
        }
        None
    }

    /// Whether any vertex is in the set.
    pub(crate) fn has_any(&self) -> bool
        ensures some { IsTrue result → (vertex : ℕ) × (has self.now.available vertex ≡ true) }
        ensures none { IsFalse result → HasNone self.now.available 0 }
    {
        self.available.first_from(0).is_some()
    }

    /// Whether a line comes before the least failed line, if there is one.
    fn comes_before(&self, line: u32) -> bool
        ensures { result ≡ comes_before line self.now.failed }
    {
        match self.failed {
            Some(failed) => line < failed,
            None => true,
        }
    }

    /// Leaves a vertex out, since it is claimed.
    pub(crate) fn withdraw(&mut self, vertex: VertexId)
        requires { vertex < length self.old.available }
        ensures { self.new ≡ record self.old { available = slice_set self.old.available vertex false } }
    {
        self.available.remove(vertex.index());
    }

    /// Takes a vertex back, since its claim was given up.
    pub(crate) fn restore(&mut self, vertex: VertexId)
        requires { vertex < length self.old.available }
        ensures { self.new ≡ record self.old { available = slice_set self.old.available vertex true } }
    {
        self.available.insert(vertex.index());
    }

    /// Notes that a vertex of this line is settled. A tree makes those of its users available that waited for it alone. A cause stops the
    /// vertices of its line and of later ones.
    pub(crate) fn settle(&mut self, vertex: VertexId, line: u32, value: &TreeOrCause)
        requires vertex { vertex < vec_len self.old.users }
        requires waiting { CanLower (users_at self.old.users.items vertex) self.old.waiting.items }
        requires room { length self.old.available ≡ length self.old.waiting.items }
        ensures { IsSettledIn vertex line value.now self.old self.new }
    {
        match value {
            Ok(_) => {
                let users = self.users[vertex.index()].as_slice();
                lower(users, self.waiting.as_mut_slice(), &mut self.available);
            }
            Err(_) => self.failed = Some(with_failed(line, self.failed)),
        }
    }
}

/// The least failed line, once this line has failed too.
fn with_failed(line: u32, failed: Option<u32>) -> u32
    ensures { result ≡ with_failed line failed }
{
    match failed {
        Some(failed) => failed.min(line),
        None => line,
    }
}

/// For each time that a user is in the list, counts one input less for it to wait for. Users that then wait for none become available.
fn lower(users: &[VertexId], waiting: &mut [usize], available: &mut NumberSet)
    requires waiting { CanLower users.now waiting.old }
    requires room { length available.old ≡ length waiting.old }
    ensures { IsLowered users.now waiting.old waiting.new available.old available.new }
{
    for user in users {
        let user = user.index();
        waiting[user] -= 1;
        if waiting[user] == 0 {
            available.insert(user);
        }
    }
}

/// For each vertex its users.
fn users(alloc: Global, vertices: &[Vertex]) -> Result<Vec<Items<VertexId>>, Memory>
    requires { AreVertices vertices.now }
    ensures { IfOk result (λ users. AreUsers vertices.now users.items) }
{
    let mut users = Vec::with_capacity(alloc, vertices.len())?;
    for _ in 0..vertices.len() {
        users.push(Items::new(alloc))?;
    }
    for (number, vertex) in vertices.iter().enumerate() {
        let user = VertexId::new(number as u32);
        note_user(users.as_mut_slice(), vertex.inputs.as_slice(), user)?;
    }
    Ok(users)
}

/// Notes a vertex as a user of each of its inputs.
fn note_user(
    users: &mut [Items<VertexId>],
    inputs: &[VertexId],
    user: VertexId,
) -> Result<(), Memory>
    requires { All (λ input. input < length users.old) inputs.now }
    ensures { OnOk result (IsNoted user inputs.now users.old users.new) }
{
    for input in inputs {
        let users_of_input = &mut users[input.index()];
        users_of_input.push(user)?;
    }
    Ok(())
}

/// How many inputs each vertex has.
fn input_counts(alloc: Global, vertices: &[Vertex]) -> Result<Vec<usize>, Memory>
    ensures { IfOk result (λ counts. counts.items ≡ map (λ vertex. length vertex.inputs) vertices.now) }
{
    let mut counts = Vec::with_capacity(alloc, vertices.len())?;
    for vertex in vertices {
        counts.push(vertex.inputs.len())?;
    }
    Ok(counts)
}

/// The numbers of the vertices without inputs.
fn without_inputs(alloc: Global, counts: &[usize]) -> Result<NumberSet, Memory>
    requires { length counts.now < 2 ^ 32 }
    ensures { IfOk result (λ available. available ≡ map (λ count. count == 0) counts.now) }
{
    let mut available = NumberSet::new(alloc, counts.len())?;
    for (number, count) in counts.iter().enumerate() {
        if *count == 0 {
            available.insert(number);
        }
    }
    Ok(available)
}
