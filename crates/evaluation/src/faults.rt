ghost use Rattle.std.specs.Prelude.{◌≡◌, ◌∷◌, ◌++◌, [], Some as SomeOf, IfOk, slice_get};
ghost use Rattle.std.specs.FinMap.{get as arg_value};
ghost use Rattle.scopes.specs.Scope.{value_in};
ghost use Rattle.stages.specs.Needed.{AreNeeded};
ghost use Rattle.evaluation.specs.Faults.{leaves_nothing, is_base_lost, AreTableFaults};
ghost use Rattle.evaluation.specs.Stages.{with_none};
ghost use Rattle.evaluation.specs.PrivateFaults.{IsOpenedJudged, IsNeededJudged, IsJudged, AreJudged, AreAllJudged};
ghost use Rattle.evaluation.specs.PrivateKept.{is_wanted, state_if};

use crate::given::Given;
use crate::names::NamedImages;
use crate::opening::{Opened, open};
use crate::stage::Progress;
use crate::state::State;
use crate::users::Users;
use crate::walk::{Walk, end_stage, evaluate_stage, is_marked, skip_stage};
use expand::Rejection;
use imageconfig::BoxedConfig;
use plain::{Fault, Items, Memory};
use plans::Images;
use rows::{Origin, Stage};
use scopes::Args;
use stages::{ResolvedStage, TargetTable};
use std::alloc::Global;
use std::hash::RandomState;

/// The stages so far, of which some may be lost, and the refusals of those that are refused.
#[derive(Drop)]
pub struct Judged {
    pub walk: Walk,
    pub faults: Items<Rejection>,
}

/// Whether there is a stage of this number that leaves nothing.
fn leaves_nothing(states: &[Option<State>], number: usize) -> bool
    ensures { result ≡ leaves_nothing (slice_get states.now number) }
{
    match states.get(number) {
        Some(Some(_)) => false,
        Some(None) => true,
        None => false,
    }
}

/// Whether what a stage begins with is lost, after stages that left these states.
fn is_base_lost(needed: &[bool], states: &[Option<State>], base: &Origin) -> bool
    ensures { result ≡ is_base_lost needed.now states.now base.now }
{
    match base {
        Origin::Source(_) => false,
        Origin::Stage(number) => {
            let number = *number as usize;
            is_marked(needed, number) && leaves_nothing(states, number)
        }
    }
}

/// What was judged so far, with one refused stage more.
fn refuse_stage(
    alloc: Global,
    keys: RandomState,
    rows: Items<Option<Stage>>,
    states: Items<Option<State>>,
    faults: Items<Rejection>,
    refusal: Rejection,
) -> Result<Judged, Memory>
    ensures { IfOk result (λ more. more ≡ record { walk = with_none (record { rows = rows; states = states; names = [] }); faults = faults ++ refusal ∷ [] }) }
{
    let mut faults = faults;
    match faults.push(refusal) {
        Ok(()) => {}
        Err(memory) => {
            drop(rows);
            drop(states);
            drop(faults);
            return Err(memory);
        }
    }
    let names = NamedImages::new(alloc, keys);
    leave_out(Judged {
        walk: Walk {
            rows,
            states,
            names,
        },
        faults,
    })
}

/// What was judged so far, with one stage more that is left out.
fn leave_out(judged: Judged) -> Result<Judged, Memory>
    ensures { IfOk result (λ more. more ≡ record { walk = with_none judged.walk; faults = judged.faults }) }
{
    let Judged { walk, faults } = judged;
    match skip_stage(walk) {
        Ok(walk) => Ok(Judged { walk, faults }),
        Err(memory) => {
            drop(faults);
            Err(memory)
        }
    }
}

/// What was judged so far, with one stage more that ends so.
fn accept_stage(
    rows: Items<Option<Stage>>,
    states: Items<Option<State>>,
    faults: Items<Rejection>,
    line: u32,
    base: Origin,
    progress: Progress,
    is_wanted: bool,
) -> Result<Judged, Memory>
    ensures { IfOk result (λ more. more ≡ record {
      walk = record {
        rows = rows ++ SomeOf (record { line = line; base = base; steps = progress.steps }) ∷ [];
        states = states ++ state_if is_wanted progress.state ∷ [];
        names = progress.names;
      };
      faults = faults;
    }) }
{
    match end_stage(rows, states, line, base, progress, is_wanted) {
        Ok(walk) => Ok(Judged { walk, faults }),
        Err(_) => {
            drop(faults);
            Err(Memory)
        }
    }
}

/// What was judged so far, with one stage more that has begun.
fn judge_opened(
    alloc: Global,
    given: &Given,
    users: &Users,
    opened: Opened,
    faults: Items<Rejection>,
    stage: ResolvedStage,
) -> Result<Judged, Memory>
    ensures { IsOpenedJudged (arg_value given.now.args.now) (value_in given.now.outer.now) (is_wanted users.now) opened faults stage result }
{
    let Opened { walk, state } = opened;
    let Walk {
        rows,
        states,
        names,
    } = walk;
    let ResolvedStage {
        line,
        base,
        instructions,
    } = stage;
    let number = rows.len();
    match evaluate_stage(
        alloc,
        given,
        state,
        names,
        line,
        &base,
        instructions.into_vec(),
    ) {
        Ok(progress) => {
            let is_wanted = users.is_wanted(number, number);
            accept_stage(rows, states, faults, line, base, progress, is_wanted)
        }
        Err(Fault::Because(refusal)) => {
            drop(base);
            refuse_stage(alloc, given.keys, rows, states, faults, refusal)
        }
        Err(Fault::Memory) => {
            drop(rows);
            drop(states);
            drop(base);
            drop(faults);
            Err(Memory)
        }
    }
}

/// What was judged so far, with one stage more that is needed and doesn't begin with a lost one.
fn judge_needed_stage(
    alloc: Global,
    given: &Given,
    users: &Users,
    judged: Judged,
    stage: ResolvedStage,
) -> Result<Judged, Memory>
    ensures { IsNeededJudged (arg_value given.now.args.now) (value_in given.now.outer.now) given.now.images.now (is_wanted users.now) judged stage result }
{
    let Judged { walk, faults } = judged;
    match open(alloc, given.keys, given.images, users, walk, &stage.base) {
        Ok(opened) => judge_opened(alloc, given, users, opened, faults, stage),
        Err(memory) => {
            drop(faults);
            drop(stage);
            Err(memory)
        }
    }
}

/// What was judged so far, with one stage more, which is left out if it isn't needed or begins with a lost one.
fn judge_stage(
    alloc: Global,
    given: &Given,
    needed: &[bool],
    users: &Users,
    judged: Judged,
    stage: ResolvedStage,
) -> Result<Judged, Memory>
    ensures { IsJudged (arg_value given.now.args.now) (value_in given.now.outer.now) given.now.images.now needed.now (is_wanted users.now) judged stage result }
{
    let is_lost = is_base_lost(needed, judged.walk.states.as_slice(), &stage.base);
    if is_lost {
        drop(stage);
        return leave_out(judged);
    }
    if is_marked(needed, judged.walk.rows.len()) {
        return judge_needed_stage(alloc, given, users, judged, stage);
    }
    drop(stage);
    leave_out(judged)
}

/// The refusals of the stages one after another.
fn judge_in_turn(
    alloc: Global,
    given: &Given,
    needed: &[bool],
    users: &Users,
    stages: Vec<ResolvedStage>,
) -> Result<Items<Rejection>, Memory>
    ensures { AreJudged (arg_value given.now.args.now) (value_in given.now.outer.now) given.now.images.now needed.now (is_wanted users.now) stages.items result }
{
    let mut judged = Judged {
        walk: Walk {
            rows: Items::new(alloc),
            states: Items::new(alloc),
            names: NamedImages::new(alloc, given.keys),
        },
        faults: Items::new(alloc),
    };
    for stage in stages {
        match judge_stage(alloc, given, needed, users, judged, stage) {
            Ok(more) => judged = more,
            Err(memory) => return Err(memory),
        }
    }
    let Judged { walk, faults } = judged;
    drop(walk);
    Ok(faults)
}

/// The refusals of the stages of a file. What a stage leaves is kept while a later one begins with it.
fn judge_stages(
    alloc: Global,
    given: &Given,
    needed: &[bool],
    target: u32,
    stages: Vec<ResolvedStage>,
) -> Result<Items<Rejection>, Memory>
    ensures { AreAllJudged (arg_value given.now.args.now) (value_in given.now.outer.now) given.now.images.now needed.now stages.items result }
{
    match Users::of(alloc, needed, stages.as_slice(), target) {
        Ok(users) => judge_in_turn(alloc, given, needed, &users, stages),
        Err(memory) => {
            drop(stages);
            Err(memory)
        }
    }
}

/// The refusals of a table of which just these stages are needed.
fn list_needed(
    alloc: Global,
    keys: RandomState,
    table: TargetTable,
    images: &Images<BoxedConfig>,
    args: &Args,
    needed: &[bool],
) -> Result<Items<Rejection>, Memory>
    requires { AreNeeded table.stages table.target needed.now }
    ensures { IfOk result (λ faults. AreTableFaults images.now (arg_value args.now) table faults) }
{
    let (outer, stages, target) = table.into_parts();
    let given = Given {
        keys,
        args,
        outer: &outer,
        images,
    };
    judge_stages(alloc, &given, needed, target, stages.into_vec())
}

/// Gives the refusal of the first refused line of each stage that a table's target needs, in the order of the stages (own).
///
/// Each is refused as `evaluate` refuses, after what the stages before it leave. A stage that begins with one that is refused, or with one that is
/// left out for that, has nothing to be evaluated from, and is left out. A stage that only copies from such a stage, or mounts it, is evaluated.
/// The images that R18 counts are counted anew after a stage that is refused.
///
/// The first of them is what `evaluate` refuses the table for, and there is none exactly if it evaluates it.
pub fn list_faults(
    alloc: Global,
    keys: RandomState,
    table: TargetTable,
    images: &Images<BoxedConfig>,
    args: &Args,
) -> Result<Items<Rejection>, Memory>
    ensures { IfOk result (λ faults. AreTableFaults images.now (arg_value args.now) table faults) }
{
    match table.needed(alloc) {
        Ok(needed) => list_needed(alloc, keys, table, images, args, needed.as_slice()),
        Err(memory) => {
            drop(table);
            Err(memory)
        }
    }
}
