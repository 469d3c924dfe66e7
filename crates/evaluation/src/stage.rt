ghost use Rattle.std.specs.Prelude.{IfOk, ◌≡◌, ◌++◌, length, nat_lt};
ghost use Rattle.std.specs.FinMap.{get as arg_value};
ghost use Rattle.plain.specs.Limits.{most_images};
ghost use Rattle.scopes.specs.Scope.{value_in};
ghost use Rattle.evaluation.specs.Images.{with_origins};
ghost use Rattle.evaluation.specs.PrivateRefusals.{many_refused, reason_with, fault_with};
ghost use Rattle.evaluation.specs.Stages.{step_of};
ghost use Rattle.evaluation.specs.PrivateStage.{put_to, IsPut, IsStepped, IsNext, AreNext};

use crate::given::Given;
use crate::instruction::{Done, evaluate_instruction};
use crate::names::NamedImages;
use crate::state::State;
use expand::{Reason, Rejection, RejectionFault};
use plain::{Code, Fault, Items, Memory};
use rows::{Action, Origin, Step};
use stages::ResolvedInstruction;
use std::alloc::Global;

/// A stage so far: what its instructions leave, its steps, and the images that were named so far in the file.
#[derive(Drop)]
pub struct Progress {
    pub state: State,
    pub steps: Items<Step>,
    pub names: NamedImages,
}

/// The refusal of a line that goes past the limit of images.
pub(crate) fn many_images(line: u32) -> RejectionFault
    ensures { result ≡ many_refused line }
{
    Fault::Because(Rejection {
        reason: Reason::Coded(Code::R18),
        line,
    })
}

/// The reason that is reported for a refused line: R18 in place of R21 if the line also names an image too many.
fn reason_with(are_many: bool, reason: Reason) -> Reason
    ensures { result ≡ reason_with are_many reason }
{
    match reason {
        Reason::Coded(code) => Reason::Coded(code),
        Reason::Required(text) if are_many => {
            drop(text);
            Reason::Coded(Code::R18)
        }
        Reason::Required(text) => Reason::Required(text),
    }
}

/// The fault of a line by which these images are named: R18 for too many of them comes before a variable that is required.
fn fault_with(names: &NamedImages, fault: RejectionFault) -> RejectionFault
    ensures { result ≡ fault_with (nat_lt most_images (length names.now)) fault }
{
    match fault {
        Fault::Because(rejection) => {
            let Rejection { reason, line } = rejection;
            let reason = reason_with(names.are_many(), reason);
            Fault::Because(Rejection { reason, line })
        }
        Fault::Memory => Fault::Memory,
    }
}

/// A stage's steps, with that of a line that does something to the tree.
fn push_step(steps: Items<Step>, line: u32, action: Option<Action>) -> Result<Items<Step>, Memory>
    ensures { IfOk result (λ more. more ≡ steps ++ step_of line action) }
{
    let mut steps = steps;
    match action {
        Some(action) => match steps.push(Step { line, action }) {
            Ok(()) => Ok(steps),
            Err(memory) => {
                drop(steps);
                Err(memory)
            }
        },
        None => Ok(steps),
    }
}

/// The stage with one instruction more: what it left and did.
fn advance(
    steps: Items<Step>,
    names: NamedImages,
    line: u32,
    done: Done,
) -> Result<Progress, Memory>
    ensures { IfOk result (λ progress. progress ≡ put_to steps names line done) }
{
    let Done { state, action } = done;
    match push_step(steps, line, action) {
        Ok(steps) => Ok(Progress {
            state,
            steps,
            names,
        }),
        Err(memory) => {
            drop(state);
            drop(names);
            Err(memory)
        }
    }
}

/// The same, unless the line goes past the limit of images.
fn advance_unless_many(
    steps: Items<Step>,
    names: NamedImages,
    line: u32,
    done: Done,
) -> Result<Progress, RejectionFault>
    ensures { IsPut steps names line done result }
{
    if names.are_many() {
        drop(steps);
        drop(names);
        drop(done);
        return Err(many_images(line));
    }
    match advance(steps, names, line, done) {
        Ok(progress) => Ok(progress),
        Err(_) => Err(Fault::Memory),
    }
}

/// The images that were named so far, and those that a line names.
fn name_images(alloc: Global, names: NamedImages, origins: &[Origin]) -> Result<NamedImages, Memory>
    ensures { IfOk result (λ more. more ≡ with_origins names origins.now) }
{
    let mut names = names;
    match names.add_origins(alloc, origins) {
        Ok(()) => Ok(names),
        Err(memory) => {
            drop(names);
            Err(memory)
        }
    }
}

/// A stage so far, with the images that a line names.
fn name_line_images(
    alloc: Global,
    progress: Progress,
    origins: &[Origin],
) -> Result<Progress, Memory>
    ensures { IfOk result (λ more. more ≡ record { state = progress.state; steps = progress.steps; names = with_origins progress.names origins.now }) }
{
    let Progress {
        state,
        steps,
        names,
    } = progress;
    match name_images(alloc, names, origins) {
        Ok(names) => Ok(Progress {
            state,
            steps,
            names,
        }),
        Err(memory) => {
            drop(state);
            drop(steps);
            Err(memory)
        }
    }
}

/// An instruction after what its stage is so far, with the images that it names.
fn evaluate_named(
    alloc: Global,
    given: &Given,
    progress: Progress,
    resolved: ResolvedInstruction,
) -> Result<Progress, RejectionFault>
    ensures { IsStepped (arg_value given.now.args.now) (value_in given.now.outer.now) progress.state resolved.instruction.kind resolved.origins resolved.instruction.line progress.steps progress.names result }
{
    let Progress {
        state,
        steps,
        names,
    } = progress;
    let ResolvedInstruction {
        instruction,
        origins,
    } = resolved;
    let line = instruction.line();
    match evaluate_instruction(alloc, given, state, instruction, origins) {
        Ok(done) => advance_unless_many(steps, names, line, done),
        Err(fault) => {
            drop(steps);
            let fault = fault_with(&names, fault);
            drop(names);
            Err(fault)
        }
    }
}

/// A stage with one instruction more.
fn evaluate_next(
    alloc: Global,
    given: &Given,
    progress: Progress,
    resolved: ResolvedInstruction,
) -> Result<Progress, RejectionFault>
    ensures { IsNext (arg_value given.now.args.now) (value_in given.now.outer.now) progress resolved result }
{
    match name_line_images(alloc, progress, resolved.origins.as_slice()) {
        Ok(progress) => evaluate_named(alloc, given, progress, resolved),
        Err(_) => {
            drop(resolved);
            Err(Fault::Memory)
        }
    }
}

/// The instructions of a stage one after another, up to the first that is refused.
pub(crate) fn evaluate_instructions(
    alloc: Global,
    given: &Given,
    progress: Progress,
    instructions: Vec<ResolvedInstruction>,
) -> Result<Progress, RejectionFault>
    ensures { AreNext (arg_value given.now.args.now) (value_in given.now.outer.now) progress instructions.items result }
{
    let mut progress = progress;
    for resolved in instructions {
        match evaluate_next(alloc, given, progress, resolved) {
            Ok(more) => progress = more,
            Err(fault) => return Err(fault),
        }
    }
    Ok(progress)
}
