// Going through the instructions of a file.
ghost use Rattle.std.specs.Prelude.{◌≡◌, ◌<◌, ◌≤◌, ◌^◌, ◌∷◌, ◌++◌, [], Some, None, option_map, length, IfOk};
ghost use Rattle.std.specs.FinMap.{get as arg_value};
ghost use Rattle.plain.specs.Limits.{most_stages};
ghost use Rattle.instructions.specs.Reason.{Evaluates};
ghost use Rattle.scopes.specs.Scope.{value_in, kept};
ghost use Rattle.scopes.specs.Evaluate.{arg_line, arg_fault};
ghost use Rattle.stages.specs.Naming.{names_in, origins_of};
ghost use Rattle.stages.specs.Before.{begun, declared_by, all_but_last};
ghost use Rattle.stages.specs.Due.{is_taken, base_text, base_fault, base_found, base_due, argument_due, outer_due, outer_fault, inner_due, other_due, other_fault, kind_due, kind_fault};
ghost use Rattle.stages.specs.PrivateResolving.{unbased, with_last, with_instruction, last_with, draft_begun, draft_declared, draft_outer, draft_extended, draft_other, draft_after, Drafts};

use crate::naming::{base_named, origins_of, stage_called};
use crate::stage::{ResolvedInstruction, ResolvedStage};
use expand::{Reason, ReasonFault, Rejection, RejectionFault, Unexpanded, Word, expand};
use instructions::{Argument, Instruction, InstructionKind};
use plain::limits::MOST_STAGES;
use plain::{Code, Exact, Fault, Items, Memory, Text};
use plans::Images;
use rows::Origin;
use scopes::{Args, Scope};
use std::alloc::Global;
use std::hash::RandomState;

/// What is known of a file after some of its instructions.
#[derive(Drop)]
pub(crate) struct Draft {
    /// The scope of the ARGs before the first FROM.
    pub(crate) outer: Scope,
    /// The names of the stages so far.
    pub(crate) names: Items<Option<Text>>,
    /// The stages that are whole.
    pub(crate) stages: Items<ResolvedStage>,
    /// The stage that may go on.
    pub(crate) last: Option<ResolvedStage>,
}

/// The image and the name of a stage, of a FROM.
pub(crate) fn begun(kind: &InstructionKind) -> Option<(&Word, &Option<Text>)>
    ensures { option_map (λ stage. (stage.0.now, stage.1.now)) result ≡ begun kind.entry.now }
{
    match kind {
        InstructionKind::From { image, name } => Some((image, name)),
        InstructionKind::Arg { .. }
        | InstructionKind::Env { .. }
        | InstructionKind::Label { .. }
        | InstructionKind::Expose { .. }
        | InstructionKind::User { .. }
        | InstructionKind::Workdir { .. }
        | InstructionKind::StopSignal { .. }
        | InstructionKind::Volume { .. }
        | InstructionKind::Shell { .. }
        | InstructionKind::Cmd { .. }
        | InstructionKind::Entrypoint { .. }
        | InstructionKind::Run { .. }
        | InstructionKind::Copy { .. } => None,
    }
}

/// What an ARG declares.
pub(crate) fn declared_by(kind: &InstructionKind) -> Option<&[Argument]>
    ensures { option_map (λ arguments. arguments.now) result ≡ declared_by kind.entry.now }
{
    match kind {
        InstructionKind::Arg { arguments } => Some(arguments.as_slice()),
        InstructionKind::From { .. }
        | InstructionKind::Env { .. }
        | InstructionKind::Label { .. }
        | InstructionKind::Expose { .. }
        | InstructionKind::User { .. }
        | InstructionKind::Workdir { .. }
        | InstructionKind::StopSignal { .. }
        | InstructionKind::Volume { .. }
        | InstructionKind::Shell { .. }
        | InstructionKind::Cmd { .. }
        | InstructionKind::Entrypoint { .. }
        | InstructionKind::Run { .. }
        | InstructionKind::Copy { .. } => None,
    }
}

/// Whether one of the stages has the name that a stage is given.
fn is_taken(names: &[Option<Text>], name: &Option<Text>) -> bool
    requires { length names.now < 2 ^ 32 }
    ensures { result ≡ is_taken names.now name.now }
{
    match name {
        None => false,
        Some(name) => stage_called(names, name).is_some(),
    }
}

/// Why a FROM is refused whose text has no value.
fn reason_without_text(is_taken: bool, is_full: bool, why: Unexpanded) -> Reason
    ensures { result ≡ unbased is_taken is_full why }
{
    if is_taken {
        drop(why);
        Reason::Coded(Code::R11)
    } else if is_full {
        drop(why);
        Reason::Coded(Code::R18)
    } else {
        Reason::of(why)
    }
}

/// The tree that a FROM names, if its stage may begin.
pub(crate) fn base<C>(
    alloc: Global,
    images: &Images<C>,
    outer: &Scope,
    names: &[Option<Text>],
    image: &Word,
    name: &Option<Text>,
) -> Result<Origin, ReasonFault>
    requires { length names.now < 2 ^ 32 }
    ensures { Evaluates (base_found (names_in images.now) names.now (base_text outer.now image.now)) (base_due (names_in images.now) names.now (base_text outer.now image.now) (base_fault outer.now image.now) name.now) (base_fault outer.now image.now) result }
{
    let is_taken = is_taken(names, name);
    let text = match expand(alloc, image, outer) {
        Ok(text) => text,
        Err(Fault::Because(why)) => {
            let reason = reason_without_text(is_taken, names.len() >= MOST_STAGES, why);
            return Err(Fault::Because(reason));
        }
        Err(Fault::Memory) => return Err(Fault::Memory),
    };
    if is_taken {
        drop(text);
        return Err(Fault::Because(Reason::Coded(Code::R11)));
    }
    let found = base_named(alloc, images, names, &text);
    drop(text);
    let Some(base) = found? else {
        return Err(Fault::Because(Reason::Coded(Code::R12)));
    };
    if names.len() >= MOST_STAGES {
        drop(base);
        return Err(Fault::Because(Reason::Coded(Code::R18)));
    }
    Ok(base)
}

/// The stages with the last one.
pub(crate) fn with_last(
    stages: Items<ResolvedStage>,
    last: Option<ResolvedStage>,
) -> Result<Items<ResolvedStage>, Memory>
    ensures { IfOk result (λ all. all ≡ with_last stages last) }
{
    let mut stages = stages;
    if let Some(last) = last {
        stages.push(last)?;
    }
    Ok(stages)
}

/// The names with one more.
fn with_name(
    alloc: Global,
    names: Items<Option<Text>>,
    name: &Option<Text>,
) -> Result<Items<Option<Text>>, Memory>
    ensures { IfOk result (λ all. all ≡ names ++ name.now ∷ []) }
{
    let mut names = names;
    let name = name.copy(alloc)?;
    names.push(name)?;
    Ok(names)
}

/// What is known where a stage begins: all before it are whole.
///
/// What isn't handed on is let go by name here and below: the proof would walk all its parts at each end of the function.
fn with_stage(
    alloc: Global,
    draft: Draft,
    stage: ResolvedStage,
    name: &Option<Text>,
) -> Result<Draft, Memory>
    ensures { IfOk result (λ all. all ≡ record { outer = draft.outer; names = draft.names ++ name.now ∷ []; stages = with_last draft.stages draft.last; last = Some stage }) }
{
    let Draft {
        outer,
        names,
        stages,
        last,
    } = draft;
    let stages = match with_last(stages, last) {
        Ok(stages) => stages,
        Err(memory) => {
            drop(outer);
            drop(names);
            drop(stage);
            return Err(memory);
        }
    };
    let names = match with_name(alloc, names, name) {
        Ok(names) => names,
        Err(memory) => {
            drop(outer);
            drop(stages);
            drop(stage);
            return Err(memory);
        }
    };
    Ok(Draft {
        outer,
        names,
        stages,
        last: Some(stage),
    })
}

/// A FROM.
fn begin<C>(
    alloc: Global,
    draft: Draft,
    images: &Images<C>,
    line: u32,
    image: &Word,
    name: &Option<Text>,
) -> Result<Draft, ReasonFault>
    requires { length draft.names ≤ most_stages }
    ensures { Evaluates (Some (draft_begun (names_in images.now) draft line image.now name.now)) (base_due (names_in images.now) draft.names (base_text draft.outer image.now) (base_fault draft.outer image.now) name.now) (base_fault draft.outer image.now) result }
{
    let base = match base(
        alloc,
        images,
        &draft.outer,
        draft.names.as_slice(),
        image,
        name,
    ) {
        Ok(base) => base,
        Err(fault) => {
            drop(draft);
            return Err(fault);
        }
    };
    let instructions = Items::new(alloc);
    let stage = ResolvedStage {
        line,
        base,
        instructions,
    };
    Ok(with_stage(alloc, draft, stage, name)?)
}

/// The scope with what an ARG before the first FROM declares.
fn with_arguments(
    alloc: Global,
    keys: RandomState,
    outer: Scope,
    arguments: &[Argument],
    args: &Args,
) -> Result<Scope, ReasonFault>
    ensures { Evaluates (Some (kept (outer ++ arg_line (value_in outer) (arg_value args.now) (λ name. None) arguments.now))) (argument_due (arg_fault (value_in outer) (arg_value args.now) arguments.now)) (arg_fault (value_in outer) (arg_value args.now) arguments.now) result }
{
    let empty = Scope::new(alloc, keys);
    let mut outer = outer;
    let declared = outer.declare(alloc, arguments, args, &empty);
    drop(empty);
    match declared {
        Ok(()) => Ok(outer),
        Err(Fault::Because(why)) => {
            drop(outer);
            Err(Fault::Because(Reason::of(why)))
        }
        Err(Fault::Memory) => {
            drop(outer);
            Err(Fault::Memory)
        }
    }
}

/// What is known after an ARG before the first FROM.
fn declare_arguments(
    alloc: Global,
    keys: RandomState,
    draft: Draft,
    arguments: &[Argument],
    args: &Args,
) -> Result<Draft, ReasonFault>
    ensures { Evaluates (Some (draft_declared (arg_value args.now) draft arguments.now)) (argument_due (arg_fault (value_in draft.outer) (arg_value args.now) arguments.now)) (arg_fault (value_in draft.outer) (arg_value args.now) arguments.now) result }
{
    let Draft {
        outer,
        names,
        stages,
        last,
    } = draft;
    match with_arguments(alloc, keys, outer, arguments, args) {
        Ok(outer) => Ok(Draft {
            outer,
            names,
            stages,
            last,
        }),
        Err(fault) => {
            drop(names);
            drop(stages);
            drop(last);
            Err(fault)
        }
    }
}

/// An instruction before the first FROM.
fn declare(
    alloc: Global,
    keys: RandomState,
    draft: Draft,
    kind: &InstructionKind,
    args: &Args,
) -> Result<Draft, ReasonFault>
    ensures { Evaluates (Some (draft_outer (arg_value args.now) draft (declared_by kind.now))) (outer_due (arg_value args.now) draft.outer (declared_by kind.now)) (outer_fault (arg_value args.now) draft.outer (declared_by kind.now)) result }
{
    match declared_by(kind) {
        Some(arguments) => declare_arguments(alloc, keys, draft, arguments, args),
        None => {
            drop(draft);
            Err(Fault::Because(Reason::Coded(Code::R05)))
        }
    }
}

/// The names of all stages but the last.
pub(crate) fn all_but_last(names: &[Option<Text>]) -> &[Option<Text>]
    ensures { result.now ≡ all_but_last names.now }
{
    &names[..names.len().saturating_sub(1)]
}

/// What an instruction of the last of some stages names beside its stage.
pub(crate) fn inner_origins<C>(
    alloc: Global,
    images: &Images<C>,
    names: &[Option<Text>],
    kind: &InstructionKind,
) -> Result<Items<Origin>, ReasonFault>
    requires { length names.now < 2 ^ 32 }
    ensures { Evaluates (Some (origins_of (names_in images.now) (all_but_last names.now) kind.now)) (inner_due (names_in images.now) (all_but_last names.now) kind.now) None result }
{
    match origins_of(alloc, images, all_but_last(names), kind) {
        Ok(origins) => Ok(origins),
        Err(Fault::Because(code)) => Err(Fault::Because(Reason::Coded(code))),
        Err(Fault::Memory) => Err(Fault::Memory),
    }
}

/// What is known after an instruction of the last stage.
fn with_resolved(draft: Draft, resolved: ResolvedInstruction) -> Result<Draft, Memory>
    ensures { IfOk result (λ more. more ≡ record draft { last = last_with resolved draft.last }) }
{
    let Draft {
        outer,
        names,
        stages,
        last,
    } = draft;
    match with_instruction(last, resolved) {
        Ok(last) => Ok(Draft {
            outer,
            names,
            stages,
            last,
        }),
        Err(memory) => {
            drop(outer);
            drop(names);
            drop(stages);
            Err(memory)
        }
    }
}

/// An instruction of a stage.
fn extend<C>(
    alloc: Global,
    draft: Draft,
    images: &Images<C>,
    instruction: Instruction,
) -> Result<Draft, ReasonFault>
    requires { length draft.names ≤ most_stages }
    ensures { Evaluates (Some (draft_extended (names_in images.now) draft instruction)) (inner_due (names_in images.now) (all_but_last draft.names) instruction.kind) None result }
{
    match inner_origins(alloc, images, draft.names.as_slice(), instruction.kind()) {
        Ok(origins) => {
            let resolved = ResolvedInstruction {
                instruction,
                origins,
            };
            Ok(with_resolved(draft, resolved)?)
        }
        Err(fault) => {
            drop(instruction);
            drop(draft);
            Err(fault)
        }
    }
}

/// The instructions with one more.
fn push_instruction(
    instructions: Items<ResolvedInstruction>,
    resolved: ResolvedInstruction,
) -> Result<Items<ResolvedInstruction>, Memory>
    ensures { IfOk result (λ all. all ≡ instructions ++ resolved ∷ []) }
{
    let mut instructions = instructions;
    match instructions.push(resolved) {
        Ok(()) => Ok(instructions),
        Err(memory) => {
            drop(instructions);
            Err(memory)
        }
    }
}

/// A stage with one more instruction.
fn longer(stage: ResolvedStage, resolved: ResolvedInstruction) -> Result<ResolvedStage, Memory>
    ensures { IfOk result (λ found. found ≡ with_instruction resolved stage) }
{
    let ResolvedStage {
        line,
        base,
        instructions,
    } = stage;
    match push_instruction(instructions, resolved) {
        Ok(instructions) => Ok(ResolvedStage {
            line,
            base,
            instructions,
        }),
        Err(memory) => {
            drop(base);
            Err(memory)
        }
    }
}

/// The last stage with one more instruction.
fn with_instruction(
    last: Option<ResolvedStage>,
    resolved: ResolvedInstruction,
) -> Result<Option<ResolvedStage>, Memory>
    ensures { IfOk result (λ found. found ≡ last_with resolved last) }
{
    match last {
        Some(stage) => match longer(stage, resolved) {
            Ok(stage) => Ok(Some(stage)),
            Err(memory) => Err(memory),
        },
        None => {
            drop(resolved);
            Ok(None)
        }
    }
}

/// An instruction other than FROM.
fn add_other<C>(
    alloc: Global,
    keys: RandomState,
    draft: Draft,
    images: &Images<C>,
    args: &Args,
    instruction: Instruction,
) -> Result<Draft, ReasonFault>
    requires { length draft.names ≤ most_stages }
    ensures { Evaluates (Some (draft_other (names_in images.now) (arg_value args.now) draft draft.names instruction)) (other_due (names_in images.now) (arg_value args.now) draft.outer draft.names instruction.kind) (other_fault (arg_value args.now) draft.outer draft.names instruction.kind) result }
{
    if draft.names.is_empty() {
        let declared = declare(alloc, keys, draft, instruction.kind(), args);
        drop(instruction);
        declared
    } else {
        extend(alloc, draft, images, instruction)
    }
}

/// One more instruction.
fn add<C>(
    alloc: Global,
    keys: RandomState,
    draft: Draft,
    images: &Images<C>,
    args: &Args,
    instruction: Instruction,
) -> Result<Draft, ReasonFault>
    requires { length draft.names ≤ most_stages }
    ensures { Evaluates (Some (draft_after (names_in images.now) (arg_value args.now) draft instruction)) (kind_due (names_in images.now) (arg_value args.now) draft.outer draft.names instruction.kind) (kind_fault (arg_value args.now) draft.outer draft.names instruction.kind) result }
{
    match begun(instruction.kind()) {
        Some((image, name)) => {
            let begun = begin(alloc, draft, images, instruction.line(), image, name);
            drop(instruction);
            begun
        }
        None => add_other(alloc, keys, draft, images, args, instruction),
    }
}

/// All instructions of a file, one after another, up to the first that is refused.
pub(crate) fn add_all<C>(
    alloc: Global,
    keys: RandomState,
    images: &Images<C>,
    args: &Args,
    instructions: Vec<Instruction>,
) -> Result<Draft, RejectionFault>
    ensures { Drafts (names_in images.now) (arg_value args.now) instructions.items result }
{
    let mut draft = Draft {
        outer: Scope::new(alloc, keys),
        names: Items::new(alloc),
        stages: Items::new(alloc),
        last: None,
    };
    for instruction in instructions {
        let line = instruction.line();
        draft = match add(alloc, keys, draft, images, args, instruction) {
            Ok(draft) => draft,
            Err(Fault::Because(reason)) => return Err(Fault::Because(Rejection { reason, line })),
            Err(Fault::Memory) => return Err(Fault::Memory),
        };
    }
    Ok(draft)
}
