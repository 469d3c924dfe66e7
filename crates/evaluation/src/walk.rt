ghost use Rattle.std.specs.Prelude.{◌≡◌, ◌∷◌, ◌++◌, [], Some as SomeOf, IfOk};
ghost use Rattle.std.specs.FinMap.{get as arg_value};
ghost use Rattle.plain.specs.Marks.{is_marked};
ghost use Rattle.scopes.specs.Scope.{value_in};
ghost use Rattle.evaluation.specs.Stages.{with_none};
ghost use Rattle.evaluation.specs.PrivateKept.{is_wanted, state_if, AreKept};
ghost use Rattle.evaluation.specs.PrivateWalk.{AreFew, AreNamed, IsEnded, IsWalk, IsOpenedAdded, IsStageAdded, IsNextStage, AreStages};

use crate::given::Given;
use crate::names::NamedImages;
use crate::opening::{Opened, open};
use crate::stage::{Progress, evaluate_instructions, many_images};
use crate::state::State;
use crate::users::Users;
use expand::RejectionFault;
use plain::{Fault, Items, Memory};
use rows::{Origin, Stage, Step};
use stages::{ResolvedInstruction, ResolvedStage};
use std::alloc::Global;

/// The stages so far: their rows, what each leaves, and the images that they name; `None` for a stage that isn't needed.
///
/// While they are evaluated, what a stage leaves is let go where it isn't wanted any more, and `None` stands there too.
#[derive(Drop)]
pub struct Walk {
    pub rows: Items<Option<Stage>>,
    pub states: Items<Option<State>>,
    pub names: NamedImages,
}

/// The names, unless they are more than one build may name.
fn refuse_many(names: NamedImages, line: u32) -> Result<NamedImages, RejectionFault>
    ensures { AreFew names line result }
{
    if names.are_many() {
        drop(names);
        return Err(many_images(line));
    }
    Ok(names)
}

/// The names with that of a FROM's image, or R18 at its line if they are too many.
fn name_base(
    alloc: Global,
    names: NamedImages,
    base: &Origin,
    line: u32,
) -> Result<NamedImages, RejectionFault>
    ensures { AreNamed names base.now line result }
{
    let mut names = names;
    match names.add_origin(alloc, base) {
        Ok(()) => refuse_many(names, line),
        Err(_) => {
            drop(names);
            Err(Fault::Memory)
        }
    }
}

/// What a stage's instructions leave and do, after what it begins with.
pub(crate) fn evaluate_stage(
    alloc: Global,
    given: &Given,
    state: State,
    names: NamedImages,
    line: u32,
    base: &Origin,
    instructions: Vec<ResolvedInstruction>,
) -> Result<Progress, RejectionFault>
    ensures { IsEnded (arg_value given.now.args.now) (value_in given.now.outer.now) state names line base.now instructions.items result }
{
    match name_base(alloc, names, base, line) {
        Ok(names) => {
            let begun = Progress {
                state,
                steps: Items::new(alloc),
                names,
            };
            evaluate_instructions(alloc, given, begun, instructions)
        }
        Err(fault) => {
            drop(state);
            drop(instructions);
            Err(fault)
        }
    }
}

/// The rows so far, with that of a stage.
fn push_row(
    rows: Items<Option<Stage>>,
    line: u32,
    base: Origin,
    steps: Items<Step>,
) -> Result<Items<Option<Stage>>, Memory>
    ensures { IfOk result (λ more. more ≡ rows ++ SomeOf (record { line = line; base = base; steps = steps }) ∷ []) }
{
    let mut rows = rows;
    match rows.push(Some(Stage { line, base, steps })) {
        Ok(()) => Ok(rows),
        Err(memory) => {
            drop(rows);
            Err(memory)
        }
    }
}

/// What a stage leaves, if it is wanted.
fn state_if(is_wanted: bool, state: State) -> Option<State>
    ensures { result ≡ state_if is_wanted state }
{
    if is_wanted {
        return Some(state);
    }
    drop(state);
    None
}

/// What the stages so far leave, and what one more leaves.
fn push_state(
    states: Items<Option<State>>,
    state: Option<State>,
) -> Result<Items<Option<State>>, Memory>
    ensures { IfOk result (λ more. more ≡ states ++ state ∷ []) }
{
    let mut states = states;
    match states.push(state) {
        Ok(()) => Ok(states),
        Err(memory) => {
            drop(states);
            Err(memory)
        }
    }
}

/// The stages so far, with these rows, and with what one more leaves.
fn end_walk(
    rows: Items<Option<Stage>>,
    states: Items<Option<State>>,
    state: Option<State>,
    names: NamedImages,
) -> Result<Walk, RejectionFault>
    ensures { IsWalk rows (states ++ state ∷ []) names result }
{
    match push_state(states, state) {
        Ok(states) => Ok(Walk {
            rows,
            states,
            names,
        }),
        Err(_) => {
            drop(rows);
            drop(names);
            Err(Fault::Memory)
        }
    }
}

/// The stages so far, and one more with this progress, which holds the names of all images so far.
pub(crate) fn end_stage(
    rows: Items<Option<Stage>>,
    states: Items<Option<State>>,
    line: u32,
    base: Origin,
    progress: Progress,
    is_wanted: bool,
) -> Result<Walk, RejectionFault>
    ensures { IsWalk (rows ++ SomeOf (record { line = line; base = base; steps = progress.steps }) ∷ []) (states ++ state_if is_wanted progress.state ∷ []) progress.names result }
{
    let Progress {
        state,
        steps,
        names,
    } = progress;
    let state = state_if(is_wanted, state);
    match push_row(rows, line, base, steps) {
        Ok(rows) => end_walk(rows, states, state, names),
        Err(_) => {
            drop(states);
            drop(state);
            drop(names);
            Err(Fault::Memory)
        }
    }
}

/// The stages so far, with one more that has begun.
fn evaluate_opened(
    alloc: Global,
    given: &Given,
    users: &Users,
    opened: Opened,
    stage: ResolvedStage,
) -> Result<Walk, RejectionFault>
    ensures { IsOpenedAdded (arg_value given.now.args.now) (value_in given.now.outer.now) (is_wanted users.now) opened stage result }
{
    let Opened { walk, state } = opened;
    let Walk {
        rows,
        states,
        names,
    } = walk;
    let ResolvedStage {
        line,
        base,
        instructions,
    } = stage;
    let number = rows.len();
    match evaluate_stage(
        alloc,
        given,
        state,
        names,
        line,
        &base,
        instructions.into_vec(),
    ) {
        Ok(progress) => {
            let is_wanted = users.is_wanted(number, number);
            end_stage(rows, states, line, base, progress, is_wanted)
        }
        Err(fault) => {
            drop(rows);
            drop(states);
            drop(base);
            Err(fault)
        }
    }
}

/// The stages so far, with one more that is needed.
fn evaluate_needed_stage(
    alloc: Global,
    given: &Given,
    users: &Users,
    walk: Walk,
    stage: ResolvedStage,
) -> Result<Walk, RejectionFault>
    ensures { IsStageAdded (arg_value given.now.args.now) (value_in given.now.outer.now) given.now.images.now (is_wanted users.now) walk stage result }
{
    match open(alloc, given.keys, given.images, users, walk, &stage.base) {
        Ok(opened) => evaluate_opened(alloc, given, users, opened, stage),
        Err(_) => {
            drop(stage);
            Err(Fault::Memory)
        }
    }
}

/// The stages so far, with one more that is left out.
pub(crate) fn skip_stage(walk: Walk) -> Result<Walk, Memory>
    ensures { IfOk result (λ more. more ≡ with_none walk) }
{
    let mut walk = walk;
    match walk.rows.push(None) {
        Ok(()) => {}
        Err(memory) => {
            drop(walk);
            return Err(memory);
        }
    }
    match walk.states.push(None) {
        Ok(()) => Ok(walk),
        Err(memory) => {
            drop(walk);
            Err(memory)
        }
    }
}

/// Whether a stage is marked.
pub(crate) fn is_marked(marks: &[bool], stage: usize) -> bool
    ensures { result ≡ is_marked marks.now stage }
{
    match marks.get(stage) {
        Some(is_marked) => *is_marked,
        None => false,
    }
}

/// The stages so far, with one more, which is evaluated where it is needed.
fn evaluate_next_stage(
    alloc: Global,
    given: &Given,
    needed: &[bool],
    users: &Users,
    walk: Walk,
    stage: ResolvedStage,
) -> Result<Walk, RejectionFault>
    ensures { IsNextStage (arg_value given.now.args.now) (value_in given.now.outer.now) given.now.images.now needed.now (is_wanted users.now) walk stage result }
{
    if is_marked(needed, walk.rows.len()) {
        return evaluate_needed_stage(alloc, given, users, walk, stage);
    }
    drop(stage);
    match skip_stage(walk) {
        Ok(more) => Ok(more),
        Err(_) => Err(Fault::Memory),
    }
}

/// The needed stages one after another, up to the first line that is refused.
fn evaluate_in_turn(
    alloc: Global,
    given: &Given,
    needed: &[bool],
    users: &Users,
    stages: Vec<ResolvedStage>,
) -> Result<Walk, RejectionFault>
    ensures { AreStages (arg_value given.now.args.now) (value_in given.now.outer.now) given.now.images.now needed.now (is_wanted users.now) stages.items result }
{
    let mut walk = Walk {
        rows: Items::new(alloc),
        states: Items::new(alloc),
        names: NamedImages::new(alloc, given.keys),
    };
    for stage in stages {
        match evaluate_next_stage(alloc, given, needed, users, walk, stage) {
            Ok(more) => walk = more,
            Err(fault) => return Err(fault),
        }
    }
    Ok(walk)
}

/// The needed stages of a file, up to the first line that is refused. What a stage leaves is kept while a later one begins with it, and what
/// the target leaves to the end.
pub(crate) fn evaluate_stages(
    alloc: Global,
    given: &Given,
    needed: &[bool],
    target: u32,
    stages: Vec<ResolvedStage>,
) -> Result<Walk, RejectionFault>
    ensures { AreKept (arg_value given.now.args.now) (value_in given.now.outer.now) given.now.images.now needed.now target stages.items result }
{
    match Users::of(alloc, needed, stages.as_slice(), target) {
        Ok(users) => evaluate_in_turn(alloc, given, needed, &users, stages),
        Err(_) => {
            drop(stages);
            Err(Fault::Memory)
        }
    }
}
