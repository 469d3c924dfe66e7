// The values of the settled vertices, each where it stands.
ghost use Rattle.std.specs.Prelude.{◌≡◌, ◌<◌, IfOk, Some, None, true, length, map, replicate, slice_set};
ghost use Rattle.std.specs.Option.{option_map};
ghost use Rattle.board.specs.Readiness.{has_tree};
ghost use Rattle.board.specs.Play.{value_at, have_trees};
ghost use Rattle.board.specs.PrivateClaim.{tree_value};

use crate::inputs::Inputs;
use cells::Place;
use llb::VertexId;
use plain::{Exact, Memory};
use std::alloc::Global;
use std::marker::Model;
use trees::TreeOrCause;

/// For each vertex its value, once it is settled. Contracts see the values, wherever they stand.
#[derive(Drop)]
pub(crate) struct Shelf<P: Place<TreeOrCause>> {
    places: Vec<Option<P>>,
}

impl<P: Place<TreeOrCause>> Model for Shelf<P> {
    ghost use Rattle.std.specs.Prelude.{List, Option, map};
    ghost use Rattle.std.specs.Option.{option_map};
    ghost use Rattle.trees.specs.Cause.{TreeOrCause};
    ghost use Rattle.board.specs.PrivateShelf.{settled_code};

    ghost Value = { List (Option TreeOrCause) };

    ghost coded = { settled_code };

    ghost view = { λ s. map (option_map P.stands) s.places.items };
}

impl<P: Place<TreeOrCause>> Shelf<P> {
    /// Nothing is settled yet, of so many vertices.
    pub(crate) fn new(alloc: Global, count: usize) -> Result<Shelf<P>, Memory>
        ensures { IfOk result (λ shelf. shelf ≡ replicate count None) }
    {
        let mut places = Vec::with_capacity(alloc, count)?;
        for _ in 0..count {
            places.push(None)?;
        }
        Ok(Shelf { places })
    }

    /// The value of a vertex, once it is settled.
    pub(crate) fn get(&self, vertex: VertexId) -> Option<&TreeOrCause>
        ensures { option_map (λ value. value.now) result ≡ value_at self.now vertex }
    {
        match self.places.get(vertex.index()) {
            Some(Some(place)) => Some(place.value()),
            _ => None,
        }
    }

    /// Keeps the value of a vertex, where it stands.
    pub(crate) fn put(&mut self, vertex: VertexId, place: P)
        requires { vertex < length self.old }
        ensures { self.new ≡ slice_set self.old vertex (Some (P.stands place)) }
    {
        self.places[vertex.index()] = Some(place);
    }

    /// The same values, each in a place of its own.
    pub(crate) fn copied(&self, alloc: Global) -> Result<Shelf<TreeOrCause>, Memory>
        ensures { IfOk result (λ shelf. shelf ≡ self.now) }
    {
        let places = all_copied(alloc, self.places.as_slice())?;
        Ok(Shelf { places })
    }

    /// The trees of these vertices once more, where they stand, in their order.
    pub(crate) fn again(
        &mut self,
        alloc: Global,
        vertices: &[VertexId],
    ) -> Result<Inputs<P>, Memory>
        requires { have_trees self.old vertices.now ≡ true }
        ensures same { self.new ≡ self.old }
        ensures trees { IfOk result (λ trees. map tree_value trees ≡ map (value_at self.old) vertices.now) }
    {
        let mut inputs = Inputs::with_capacity(alloc, vertices.len())?;
        for vertex in vertices {
            let place = self.place_again(alloc, *vertex)?;
            inputs.push(place)?;
        }
        Ok(inputs)
    }

    /// The place of a settled vertex once more.
    fn place_again(&mut self, alloc: Global, vertex: VertexId) -> Result<P, Memory>
        requires { has_tree (value_at self.old vertex) ≡ true }
        ensures same { self.new ≡ self.old }
        ensures again { IfOk result (λ place. Some (P.stands place) ≡ value_at self.old vertex) }
    {
        again(alloc, &mut self.places[vertex.index()])
    }
}

/// What is in a place that is there, once more.
fn again<P: Place<TreeOrCause>>(alloc: Global, place: &mut Option<P>) -> Result<P, Memory>
    requires { has_tree (option_map P.stands place.old) ≡ true }
    ensures same { place.new ≡ place.old }
    ensures again { IfOk result (λ other. Some (P.stands other) ≡ option_map P.stands place.old) }
{
    match place {
        Some(place) => place.again(alloc),
        None => unreachable!(),
    }
}

/// Copies of what stands in these places.
fn all_copied<P: Place<TreeOrCause>>(
    alloc: Global,
    places: &[Option<P>],
) -> Result<Vec<Option<TreeOrCause>>, Memory>
    ensures { IfOk result (λ values. map (option_map (λ value. value)) values.items ≡ map (option_map P.stands) places.now) }
{
    let mut values = Vec::with_capacity(alloc, places.len())?;
    for place in places {
        values.push(copied(alloc, place)?)?;
    }
    Ok(values)
}

/// A copy of what stands in a place, if it is there.
fn copied<P: Place<TreeOrCause>>(
    alloc: Global,
    place: &Option<P>,
) -> Result<Option<TreeOrCause>, Memory>
    ensures { IfOk result (λ copied. option_map (λ value. value) copied ≡ option_map P.stands place.now) }
{
    match place {
        Some(place) => Ok(Some(place.value().copy(alloc)?)),
        None => Ok(None),
    }
}
