// Going through all instructions of a file, past those that are refused.
ghost use Rattle.std.specs.Prelude.{◌≡◌, ◌<◌, ◌≤◌, ◌^◌, ◌++◌, ◌&&◌, [], ◌∷◌, length, is_some, option_map, IfOk, OnOk};
ghost use Rattle.std.specs.FinMap.{get as arg_value};
ghost use Rattle.plain.specs.Limits.{most_lines};
ghost use Rattle.instructions.specs.Reason.{reason};
ghost use Rattle.scopes.specs.Scope.{value_in, kept};
ghost use Rattle.scopes.specs.Evaluate.{arg_line, arg_fault};
ghost use Rattle.stages.specs.Naming.{names_in};
ghost use Rattle.stages.specs.Before.{begun, declared_by, all_but_last, stage_names};
ghost use Rattle.stages.specs.Due.{base_text, base_fault, base_due, argument_due, outer_due, outer_fault, inner_due, other_due, other_fault, kind_due, kind_fault};
ghost use Rattle.stages.specs.Resolved.{target_of};
ghost use Rattle.stages.specs.Faults.{is_outer_argument, refusals_after, target_refusals, empty_refusals, stage_refusals};
ghost use Rattle.stages.specs.PrivateFaults.{outer_with, outer_other, outer_by, names_by, reported, ReasonReported, Judges};

use crate::resolving::{base, begun, declared_by, inner_origins};
use crate::target::{are_arguments, target_of};
use dockerfile::Dockerfile;
use expand::{Reason, ReasonFault, Rejection, Word};
use instructions::{Argument, Instruction, InstructionKind};
use plain::{Code, Exact, Fault, Items, Memory, Text};
use plans::Images;
use scopes::{Args, Scope};
use std::alloc::Global;
use std::hash::RandomState;

/// The reason for which nothing was made, if that is so.
fn reason_of<X: Drop>(made: Result<X, ReasonFault>) -> Result<Option<Reason>, Memory>
    ensures { IfOk result (ReasonReported made) }
{
    match made {
        Ok(made) => {
            drop(made);
            Ok(None)
        }
        Err(Fault::Because(reason)) => Ok(Some(reason)),
        Err(Fault::Memory) => Err(Memory),
    }
}

/// The reason to refuse a FROM after stages of these names.
fn base_reason<C>(
    alloc: Global,
    images: &Images<C>,
    outer: &Scope,
    names: &[Option<Text>],
    image: &Word,
    name: &Option<Text>,
) -> Result<Option<Reason>, Memory>
    requires { length names.now < 2 ^ 32 }
    ensures { IfOk result (λ why. why ≡ reason (base_due (names_in images.now) names.now (base_text outer.now image.now) (base_fault outer.now image.now) name.now) (base_fault outer.now image.now)) }
{
    reason_of(base(alloc, images, outer, names, image, name))
}

/// Adds a name to some.
pub(crate) fn push_name(
    alloc: Global,
    names: &mut Items<Option<Text>>,
    name: &Option<Text>,
) -> Result<(), Memory>
    ensures { OnOk result (names.new ≡ names.old ++ name.now ∷ []) }
{
    let name = name.copy(alloc)?;
    names.push(name)?;
    Ok(())
}

/// The reason to refuse a FROM, and the names with that of its stage.
fn begin_reason<C>(
    alloc: Global,
    images: &Images<C>,
    outer: &Scope,
    names: &mut Items<Option<Text>>,
    image: &Word,
    name: &Option<Text>,
) -> Result<Option<Reason>, Memory>
    requires { length names.old < 2 ^ 32 }
    ensures why { IfOk result (λ why. why ≡ reason (base_due (names_in images.now) names.old (base_text outer.now image.now) (base_fault outer.now image.now) name.now) (base_fault outer.now image.now)) }
    ensures names { OnOk result (names.new ≡ names.old ++ name.now ∷ []) }
{
    let reason = base_reason(alloc, images, outer, names.as_slice(), image, name)?;
    match push_name(alloc, names, name) {
        Ok(()) => Ok(reason),
        Err(memory) => {
            drop(reason);
            Err(memory)
        }
    }
}

/// The reason to refuse an instruction of the last of some stages.
fn inner_reason<C>(
    alloc: Global,
    images: &Images<C>,
    names: &[Option<Text>],
    kind: &InstructionKind,
) -> Result<Option<Reason>, Memory>
    requires { length names.now < 2 ^ 32 }
    ensures { IfOk result (λ why. why ≡ reason (inner_due (names_in images.now) (all_but_last names.now) kind.now) None) }
{
    reason_of(inner_origins(alloc, images, names, kind))
}

/// The reason to refuse an ARG before the first FROM, which is declared if there is none.
pub(crate) fn argument_reason(
    alloc: Global,
    keys: RandomState,
    args: &Args,
    outer: &mut Scope,
    arguments: &[Argument],
) -> Result<Option<Reason>, Memory>
    ensures { IfOk result (Judges (argument_due (arg_fault (value_in outer.old) (arg_value args.now) arguments.now)) (arg_fault (value_in outer.old) (arg_value args.now) arguments.now) (kept (outer.old ++ arg_line (value_in outer.old) (arg_value args.now) (λ name. None) arguments.now)) outer.old outer.new) }
{
    let empty = Scope::new(alloc, keys);
    let declared = outer.declare(alloc, arguments, args, &empty);
    drop(empty);
    match declared {
        Ok(()) => Ok(None),
        Err(Fault::Because(why)) => Ok(Some(Reason::of(why))),
        Err(Fault::Memory) => Err(Memory),
    }
}

/// The reason to refuse an instruction other than FROM before the first FROM.
fn outer_reason(
    alloc: Global,
    keys: RandomState,
    args: &Args,
    outer: &mut Scope,
    kind: &InstructionKind,
) -> Result<Option<Reason>, Memory>
    ensures { IfOk result (Judges (outer_due (arg_value args.now) outer.old (declared_by kind.now)) (outer_fault (arg_value args.now) outer.old (declared_by kind.now)) (outer_with (arg_value args.now) outer.old (declared_by kind.now)) outer.old outer.new) }
{
    match declared_by(kind) {
        Some(arguments) => argument_reason(alloc, keys, args, outer, arguments),
        None => Ok(Some(Reason::Coded(Code::R05))),
    }
}

/// The reason to refuse an instruction other than FROM after stages of these names.
fn other_reason<C>(
    alloc: Global,
    keys: RandomState,
    images: &Images<C>,
    args: &Args,
    outer: &mut Scope,
    names: &[Option<Text>],
    kind: &InstructionKind,
) -> Result<Option<Reason>, Memory>
    requires { length names.now < 2 ^ 32 }
    ensures { IfOk result (Judges (other_due (names_in images.now) (arg_value args.now) outer.old names.now kind.now) (other_fault (arg_value args.now) outer.old names.now kind.now) (outer_other (arg_value args.now) outer.old names.now (declared_by kind.now)) outer.old outer.new) }
{
    if names.is_empty() {
        outer_reason(alloc, keys, args, outer, kind)
    } else {
        inner_reason(alloc, images, names, kind)
    }
}

/// The reason to refuse an instruction, and what is known after it.
fn kind_reason<C>(
    alloc: Global,
    keys: RandomState,
    images: &Images<C>,
    args: &Args,
    outer: &mut Scope,
    names: &mut Items<Option<Text>>,
    kind: &InstructionKind,
) -> Result<Option<Reason>, Memory>
    requires { length names.old < 2 ^ 32 }
    ensures why { IfOk result (Judges (kind_due (names_in images.now) (arg_value args.now) outer.old names.old kind.now) (kind_fault (arg_value args.now) outer.old names.old kind.now) (outer_by (arg_value args.now) outer.old names.old (declared_by kind.now) (begun kind.now)) outer.old outer.new) }
    ensures names { OnOk result (names.new ≡ names_by names.old (begun kind.now)) }
{
    match begun(kind) {
        Some((image, name)) => begin_reason(alloc, images, outer, names, image, name),
        None => other_reason(alloc, keys, images, args, outer, names.as_slice(), kind),
    }
}

/// What a file is refused for as a whole: for its target, and for having no stage.
fn whole_refusals(
    alloc: Global,
    instructions: &[Instruction],
    target: Option<&Text>,
) -> Result<Items<Rejection>, Memory>
    requires { length instructions.now ≤ most_lines }
    ensures { IfOk result (λ refusals. refusals ≡ target_refusals (target_of (stage_names instructions.now) (option_map (λ t. t.now) target.entry)) ++ empty_refusals instructions.now) }
{
    let mut refusals = Items::new(alloc);
    if target_of(instructions, target).is_none() {
        refusals.push(Rejection {
            reason: Reason::Coded(Code::R13),
            line: 0,
        })?;
    }
    if are_arguments(instructions) {
        refusals.push(Rejection {
            reason: Reason::Coded(Code::R05),
            line: 1,
        })?;
    }
    Ok(refusals)
}

/// Whether an instruction after stages of these names is an ARG before the first FROM.
fn is_outer_argument(names: &[Option<Text>], kind: &InstructionKind) -> bool
    ensures { result ≡ is_outer_argument names.now (declared_by kind.now) }
{
    names.is_empty() && declared_by(kind).is_some()
}

/// Adds the refusal of an instruction, if there is a reason, and answers whether it is the last, being that of an ARG before the first FROM.
fn tell(
    refusals: &mut Items<Rejection>,
    line: u32,
    reason: Option<Reason>,
    is_outer_argument: bool,
) -> Result<bool, Memory>
    ensures refusals { OnOk result (refusals.new ≡ refusals.old ++ reported line reason) }
    ensures last { IfOk result (λ is_last. is_last ≡ (is_some reason && is_outer_argument)) }
{
    match reason {
        Some(reason) => {
            refusals.push(Rejection { reason, line })?;
            Ok(is_outer_argument)
        }
        None => Ok(false),
    }
}

/// Some refusals, and after them those of a file's instructions.
fn with_line_refusals<C>(
    alloc: Global,
    keys: RandomState,
    images: &Images<C>,
    args: &Args,
    instructions: &[Instruction],
    refusals: Items<Rejection>,
) -> Result<Items<Rejection>, Memory>
    requires { length instructions.now ≤ most_lines }
    ensures { IfOk result (λ all. all ≡ refusals ++ refusals_after (names_in images.now) (arg_value args.now) [] instructions.now) }
{
    let mut refusals = refusals;
    let mut outer = Scope::new(alloc, keys);
    let mut names = Items::new(alloc);
    for instruction in instructions {
        let kind = instruction.kind();
        let is_outer = is_outer_argument(names.as_slice(), kind);
        let reason = kind_reason(alloc, keys, images, args, &mut outer, &mut names, kind)?;
        let is_last = tell(&mut refusals, instruction.line(), reason, is_outer)?;
        if is_last {
            return Ok(refusals);
        }
    }
    Ok(refusals)
}

/// All that the names of a file are refused for, with these images, build arguments and target, in the order of the lines (own): R13 for the
/// target, R05 at line 1 if there is no instruction other than ARG, and for each line for which a code is due the least of its codes. The
/// refusal of an ARG before the first FROM is the last, since the lines after it would be judged by its value.
///
/// The first of these is what [`TargetTable::resolve`](crate::TargetTable::resolve) refuses the file with, and there is none exactly if that
/// gives a table, as the law `the_first_fault_is_the_refusal` says.
pub fn list_refusals<C>(
    alloc: Global,
    keys: RandomState,
    file: &Dockerfile,
    images: &Images<C>,
    args: &Args,
    target: Option<&Text>,
) -> Result<Items<Rejection>, Memory>
    ensures { IfOk result (λ refusals. refusals ≡ stage_refusals (names_in images.now) (arg_value args.now) (option_map (λ t. t.now) target.entry) file.now) }
{
    let instructions = file.instructions();
    let refusals = whole_refusals(alloc, instructions, target)?;
    with_line_refusals(alloc, keys, images, args, instructions, refusals)
}
