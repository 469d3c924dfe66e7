ghost use Rattle.std.specs.Prelude.{◌≡◌, None as NoneOf, slice_index_or, slice_set, IfOk};
ghost use Rattle.evaluation.specs.PrivateKept.{is_wanted, without_state, opened};
ghost use Rattle.evaluation.specs.State.{ended_state, source_state};

use crate::state::{State, begin_source};
use crate::users::Users;
use crate::walk::Walk;
use imageconfig::BoxedConfig;
use llb::Source;
use plain::{Items, Memory};
use plans::Images;
use rows::Origin;
use std::alloc::Global;
use std::hash::RandomState;

/// What a stage begins with, and the stages before it, of which what isn't wanted after that was let go.
#[derive(Drop)]
pub struct Opened {
    pub walk: Walk,
    pub state: State,
}

/// A stage from a source.
fn open_source(
    alloc: Global,
    keys: RandomState,
    images: &Images<BoxedConfig>,
    walk: Walk,
    source: &Source,
) -> Result<Opened, Memory>
    ensures { IfOk result (λ begun. begun ≡ record { walk = walk; state = source_state images.now source.now }) }
{
    match begin_source(alloc, keys, images, source) {
        Ok(state) => Ok(Opened { walk, state }),
        Err(memory) => {
            drop(walk);
            Err(memory)
        }
    }
}

/// What a stage begins with from one that leaves this, which is lent. A stage that a needed one is from is needed and stands before it, so
/// the cases without a state don't come.
fn copied_end(
    alloc: Global,
    keys: RandomState,
    states: &[Option<State>],
    number: usize,
) -> Result<State, Memory>
    ensures { IfOk result (λ state. state ≡ ended_state (slice_index_or states.now number NoneOf)) }
{
    match states.get(number) {
        Some(Some(state)) => state.child(alloc),
        Some(None) => State::bare(alloc, keys),
        None => State::bare(alloc, keys),
    }
}

/// A stage from a stage whose end is wanted after it too.
fn open_copied(
    alloc: Global,
    keys: RandomState,
    walk: Walk,
    number: usize,
) -> Result<Opened, Memory>
    ensures { IfOk result (λ begun. begun ≡ record { walk = walk; state = ended_state (slice_index_or walk.states number NoneOf) }) }
{
    match copied_end(alloc, keys, walk.states.as_slice(), number) {
        Ok(state) => Ok(Opened { walk, state }),
        Err(memory) => {
            drop(walk);
            Err(memory)
        }
    }
}

/// Takes what a stage leaves out of what the stages leave.
fn take_state(states: Items<Option<State>>, number: usize) -> (Option<State>, Items<Option<State>>)
    ensures taken { result.0 ≡ slice_index_or states number NoneOf }
    ensures left { result.1 ≡ slice_set states number NoneOf }
{
    let mut states = states.into_vec();
    if number < states.len() {
        let state = states[number].take();
        (state, Items::from_vec(states))
    } else {
        (None, Items::from_vec(states))
    }
}

/// What a stage begins with from one that leaves this, which is handed over.
fn taken_end(alloc: Global, keys: RandomState, state: Option<State>) -> Result<State, Memory>
    ensures { IfOk result (λ begun. begun ≡ ended_state state) }
{
    match state {
        Some(state) => Ok(state.into_child()),
        None => State::bare(alloc, keys),
    }
}

/// A stage from a stage whose end isn't wanted after it: it takes that over, so nothing is copied.
fn open_taken(alloc: Global, keys: RandomState, walk: Walk, number: usize) -> Result<Opened, Memory>
    ensures { IfOk result (λ begun. begun ≡ record { walk = without_state walk number; state = ended_state (slice_index_or walk.states number NoneOf) }) }
{
    let Walk {
        rows,
        states,
        names,
    } = walk;
    let (state, states) = take_state(states, number);
    let walk = Walk {
        rows,
        states,
        names,
    };
    match taken_end(alloc, keys, state) {
        Ok(state) => Ok(Opened { walk, state }),
        Err(memory) => {
            drop(walk);
            Err(memory)
        }
    }
}

/// The next stage of a file, which begins with this.
pub(crate) fn open(
    alloc: Global,
    keys: RandomState,
    images: &Images<BoxedConfig>,
    users: &Users,
    walk: Walk,
    base: &Origin,
) -> Result<Opened, Memory>
    ensures { IfOk result (λ begun. begun ≡ opened images.now (is_wanted users.now) walk base.now) }
{
    match base {
        Origin::Source(source) => open_source(alloc, keys, images, walk, source),
        Origin::Stage(number) => {
            let number = *number as usize;
            if users.is_wanted(walk.rows.len(), number) {
                open_copied(alloc, keys, walk, number)
            } else {
                open_taken(alloc, keys, walk, number)
            }
        }
    }
}
