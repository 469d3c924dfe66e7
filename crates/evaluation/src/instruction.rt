ghost use Rattle.std.specs.Prelude.{◌≡◌, Some, None as NoneOf, OnOk};
ghost use Rattle.std.specs.FinMap.{get as arg_value};
ghost use Rattle.instructions.specs.Least.{Meets};
ghost use Rattle.instructions.specs.Reason.{Evaluates};
ghost use Rattle.instructions.specs.declared.instruction.InstructionKind.TheVariants as spelled;
ghost use Rattle.scopes.specs.Scope.{value_in};
ghost use Rattle.imageconfig.specs.Steps.{due as config_due, fault as config_fault};
ghost use Rattle.actions.specs.Copy as of_copy;
ghost use Rattle.actions.specs.Run as of_run;
ghost use Rattle.evaluation.specs.Instruction.{after, due, fault as fault_of, dir_in, first_of};
ghost use Rattle.evaluation.specs.PrivateRefusals.{EvaluatesTo};
ghost use Rattle.evaluation.specs.PrivateInstruction.{configured, both_set, variables_set, left_due, left_fault, acted, acted_due, acted_fault, finished, with_line, text_fault, code_fault};
ghost use Rattle.evaluation.specs.PrivateStage.{IsDone};

use crate::given::Given;
use crate::state::State;
use actions::{Surroundings, copy_action, run_action};
use expand::{ExpandFault, Reason, ReasonFault, Rejection, RejectionFault, Word};
use instructions::{
    Argument, Assignment, Command, CopyFlags, Instruction, InstructionKind, Mount,
    Source as CopySource,
};
use llb::Source;
use plain::{Fault, Items, Memory, Variable};
use rows::{Action, Origin};
use std::alloc::Global;
use words::TextFault;

/// What an instruction leaves to those after it, and what it does to its stage's tree, if anything.
#[derive(Drop)]
pub struct Done {
    pub state: State,
    pub action: Option<Action>,
}

/// The fault of a line.
fn with_line(fault: ReasonFault, line: u32) -> RejectionFault
    ensures { result ≡ with_line fault line }
{
    match fault {
        Fault::Because(reason) => Fault::Because(Rejection { reason, line }),
        Fault::Memory => Fault::Memory,
    }
}

/// The fault of a line one of whose texts has no value.
fn text_fault(fault: ExpandFault) -> ReasonFault
    ensures { result ≡ text_fault fault }
{
    match fault {
        Fault::Because(why) => Fault::Because(Reason::of(why)),
        Fault::Memory => Fault::Memory,
    }
}

/// The fault of a line that expands nothing.
fn code_fault(fault: TextFault) -> ReasonFault
    ensures { result ≡ code_fault fault }
{
    match fault {
        Fault::Because(code) => Fault::Because(Reason::Coded(code)),
        Fault::Memory => Fault::Memory,
    }
}

/// An ARG.
fn declare(
    alloc: Global,
    given: &Given,
    state: State,
    line: u32,
    arguments: &[Argument],
) -> Result<State, RejectionFault>
    ensures { EvaluatesTo (after (arg_value given.now.args.now) (value_in given.now.outer.now) state (spelled.Arg arguments.now)) (due (arg_value given.now.args.now) state (spelled.Arg arguments.now)) (fault_of (arg_value given.now.args.now) state (spelled.Arg arguments.now)) line result }
{
    let mut state = state;
    match state
        .scope
        .declare(alloc, arguments, given.args, given.outer)
    {
        Ok(()) => Ok(state),
        Err(fault) => {
            drop(state);
            Err(with_line(text_fault(fault), line))
        }
    }
}

/// Variables in the configuration and in the scope, which hold one text of each value.
fn set_both(alloc: Global, state: &mut State, variables: &[Variable]) -> Result<(), Memory>
    ensures { OnOk result (state.new ≡ both_set state.old variables.now) }
{
    state.config.set_variables(alloc, variables)?;
    state.scope.set_variables(alloc, variables)
}

/// An ENV. Its words are expanded once, under the values before the line.
fn set_variables(
    alloc: Global,
    state: State,
    line: u32,
    assignments: &[Assignment],
) -> Result<State, RejectionFault>
    ensures { EvaluatesTo (variables_set state assignments.now) (config_due (value_in state.scope) state.config (spelled.Env assignments.now)) (config_fault (value_in state.scope) (spelled.Env assignments.now)) line result }
{
    let mut state = state;
    match state.scope.variables(alloc, assignments) {
        Ok(variables) => match set_both(alloc, &mut state, variables.as_slice()) {
            Ok(()) => Ok(state),
            Err(_) => {
                drop(state);
                Err(Fault::Memory)
            }
        },
        Err(fault) => {
            drop(state);
            Err(with_line(text_fault(fault), line))
        }
    }
}

/// An instruction that changes the configuration alone.
fn configure(
    alloc: Global,
    state: State,
    instruction: &Instruction,
) -> Result<State, RejectionFault>
    ensures { EvaluatesTo (configured state instruction.now.kind) (config_due (value_in state.scope) state.config instruction.now.kind) (config_fault (value_in state.scope) instruction.now.kind) instruction.now.line result }
{
    let mut state = state;
    match state.config.apply(alloc, instruction, &state.scope) {
        Ok(()) => Ok(state),
        Err(fault) => {
            drop(state);
            Err(fault)
        }
    }
}

/// The first origin of a line; the context where it names none.
fn first_of(origins: Items<Origin>) -> Origin
    ensures { result ≡ first_of origins }
{
    match origins.into_vec().into_iter().next() {
        Some(origin) => origin,
        None => Origin::Source(Source::Context),
    }
}

/// A RUN, under what is set where it stands.
fn run_coded(
    alloc: Global,
    state: &State,
    mounts: Items<Mount>,
    command: Command,
    origins: Items<Origin>,
) -> Result<Action, TextFault>
    ensures { Meets (Some (of_run.run_action state.now.scope (dir_in state.now) state.now.config.user state.now.config.shell mounts command origins)) (of_run.run_due (dir_in state.now) mounts) result }
{
    let dir = state.config.get().dir(alloc)?;
    let at = Surroundings {
        scope: &state.scope,
        dir: &dir,
        user: &state.config.get().user,
        shell: state.config.get().shell.as_slice(),
    };
    run_action(alloc, mounts, command, origins, &at)
}

/// The same with its refusals as reasons: a RUN expands nothing.
fn run(
    alloc: Global,
    state: &State,
    mounts: Items<Mount>,
    command: Command,
    origins: Items<Origin>,
) -> Result<Action, ReasonFault>
    ensures { Evaluates (Some (of_run.run_action state.now.scope (dir_in state.now) state.now.config.user state.now.config.shell mounts command origins)) (of_run.run_due (dir_in state.now) mounts) NoneOf result }
{
    match run_coded(alloc, state, mounts, command, origins) {
        Ok(action) => Ok(action),
        Err(fault) => Err(code_fault(fault)),
    }
}

/// A COPY, under what is set where it stands.
fn copy(
    alloc: Global,
    state: &State,
    sources: Items<CopySource>,
    destination: Word,
    flags: CopyFlags,
    origin: Origin,
) -> Result<Action, ReasonFault>
    ensures { Evaluates (Some (of_copy.copy_action state.now.scope (dir_in state.now) sources destination flags origin)) (of_copy.copy_due state.now.scope (dir_in state.now) sources destination) (of_copy.copy_fault state.now.scope sources destination) result }
{
    let dir = state.config.get().dir(alloc)?;
    let at = Surroundings {
        scope: &state.scope,
        dir: &dir,
        user: &state.config.get().user,
        shell: state.config.get().shell.as_slice(),
    };
    copy_action(alloc, sources, destination, flags, origin, &at)
}

/// What an instruction does to the tree, under what it left. RUN and COPY leave what they found, and WORKDIR makes the directory that it
/// left.
///
/// What isn't handed on is let go by name: the proof would walk all its cases at the end of the function.
fn act(
    alloc: Global,
    state: &State,
    kind: InstructionKind,
    origins: Items<Origin>,
) -> Result<Option<Action>, ReasonFault>
    ensures { Evaluates (Some (acted state.now kind origins)) (acted_due state.now kind) (acted_fault state.now kind) result }
{
    match kind {
        InstructionKind::Run { mounts, command } => {
            let action = run(alloc, state, mounts, command, origins)?;
            Ok(Some(action))
        }
        InstructionKind::Copy {
            sources,
            destination,
            flags,
        } => {
            let action = copy(alloc, state, sources, destination, flags, first_of(origins))?;
            Ok(Some(action))
        }
        InstructionKind::Workdir { .. } => {
            drop(kind);
            drop(origins);
            let path = state.config.get().dir(alloc)?;
            Ok(Some(Action::MakeDirs { path }))
        }
        InstructionKind::From { .. }
        | InstructionKind::Arg { .. }
        | InstructionKind::Env { .. }
        | InstructionKind::Label { .. }
        | InstructionKind::Expose { .. }
        | InstructionKind::User { .. }
        | InstructionKind::StopSignal { .. }
        | InstructionKind::Volume { .. }
        | InstructionKind::Shell { .. }
        | InstructionKind::Cmd { .. }
        | InstructionKind::Entrypoint { .. } => {
            drop(kind);
            drop(origins);
            Ok(None)
        }
    }
}

/// What an instruction leaves to those after it; a RUN and a COPY leave what they found.
fn leave(
    alloc: Global,
    given: &Given,
    state: State,
    instruction: &Instruction,
) -> Result<State, RejectionFault>
    ensures { EvaluatesTo (after (arg_value given.now.args.now) (value_in given.now.outer.now) state instruction.now.kind) (left_due (arg_value given.now.args.now) state instruction.now.kind) (left_fault (arg_value given.now.args.now) state instruction.now.kind) instruction.now.line result }
{
    match instruction.kind() {
        InstructionKind::Arg { arguments } => {
            declare(
                alloc,
                given,
                state,
                instruction.line(),
                arguments.as_slice(),
            )
        }
        InstructionKind::Env { assignments } => {
            set_variables(alloc, state, instruction.line(), assignments.as_slice())
        }
        InstructionKind::From { .. }
        | InstructionKind::Label { .. }
        | InstructionKind::Expose { .. }
        | InstructionKind::User { .. }
        | InstructionKind::Workdir { .. }
        | InstructionKind::StopSignal { .. }
        | InstructionKind::Volume { .. }
        | InstructionKind::Shell { .. }
        | InstructionKind::Cmd { .. }
        | InstructionKind::Entrypoint { .. }
        | InstructionKind::Run { .. }
        | InstructionKind::Copy { .. } => configure(alloc, state, instruction),
    }
}

/// Makes a RUN's environment where it stands, and has the scope keep it: the RUNs up to the next ENV or ARG then share it.
fn keep_env(alloc: Global, state: &mut State, kind: &InstructionKind) -> Result<(), Memory>
    ensures { state.new ≡ state.old }
{
    match kind {
        InstructionKind::Run { .. } => state.scope.keep_env(alloc),
        _ => Ok(()),
    }
}

/// What an instruction does to the tree, beside what it left.
fn finish(
    alloc: Global,
    state: State,
    instruction: Instruction,
    origins: Items<Origin>,
) -> Result<Done, RejectionFault>
    ensures { EvaluatesTo (finished state instruction.kind origins) (acted_due state instruction.kind) (acted_fault state instruction.kind) instruction.line result }
{
    let line = instruction.line();
    let kind = instruction.into_kind();
    let mut state = state;
    if keep_env(alloc, &mut state, &kind).is_err() {
        drop(state);
        drop(kind);
        drop(origins);
        return Err(Fault::Memory);
    }
    match act(alloc, &state, kind, origins) {
        Ok(action) => Ok(Done { state, action }),
        Err(fault) => {
            drop(state);
            Err(with_line(fault, line))
        }
    }
}

/// An instruction of a stage: what it leaves and does, or why it is refused, with its line.
pub(crate) fn evaluate_instruction(
    alloc: Global,
    given: &Given,
    state: State,
    instruction: Instruction,
    origins: Items<Origin>,
) -> Result<Done, RejectionFault>
    ensures { IsDone (arg_value given.now.args.now) (value_in given.now.outer.now) state instruction.kind origins instruction.line result }
{
    match leave(alloc, given, state, &instruction) {
        Ok(state) => finish(alloc, state, instruction, origins),
        Err(fault) => {
            drop(instruction);
            drop(origins);
            Err(fault)
        }
    }
}
