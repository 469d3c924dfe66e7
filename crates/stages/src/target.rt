// The target among the stages of a file, and whether there is a stage at all.
ghost use Rattle.std.specs.Prelude.{◌≡◌, ◌≤◌, length, option_map, option_and_then};
ghost use Rattle.plain.specs.Limits.{most_lines};
ghost use Rattle.plain.specs.declared.fault.Fault.TheVariants.{Because};
ghost use Rattle.ascii.specs.Numbers.{decimal_of};
ghost use Rattle.expand.specs.declared.reason.Reason.TheVariants.{Coded};
ghost use Rattle.stages.specs.Naming.{within, stage_called};
ghost use Rattle.stages.specs.Before.{name_begun, stage_names};
ghost use Rattle.stages.specs.Resolved.{target_of, are_arguments};

use crate::naming::is_called;
use crate::resolving::declared_by;
use ascii::{are_digits, parse_number};
use expand::{Reason, Rejection, RejectionFault};
use instructions::{Instruction, InstructionKind};
use plain::{Code, Fault, Text};

/// The name of the stage that an instruction begins, if it begins one.
pub(crate) fn name_begun(instruction: &Instruction) -> Option<&Option<Text>>
    ensures { option_map (λ name. name.now) result ≡ name_begun instruction.entry.now }
{
    match instruction.kind() {
        InstructionKind::From { name, .. } => Some(name),
        InstructionKind::Arg { .. }
        | InstructionKind::Env { .. }
        | InstructionKind::Label { .. }
        | InstructionKind::Expose { .. }
        | InstructionKind::User { .. }
        | InstructionKind::Workdir { .. }
        | InstructionKind::StopSignal { .. }
        | InstructionKind::Volume { .. }
        | InstructionKind::Shell { .. }
        | InstructionKind::Cmd { .. }
        | InstructionKind::Entrypoint { .. }
        | InstructionKind::Run { .. }
        | InstructionKind::Copy { .. } => None,
    }
}

/// How many stages there are.
fn stage_count(instructions: &[Instruction]) -> u32
    requires { length instructions.now ≤ most_lines }
    ensures { result ≡ length (stage_names instructions.now) }
{
    let mut count = 0;
    for instruction in instructions {
        if name_begun(instruction).is_some() {
            count += 1;
        }
    }
    count
}

/// The number of the first stage of this name.
fn stage_called(instructions: &[Instruction], text: &Text) -> Option<u32>
    requires { length instructions.now ≤ most_lines }
    ensures { result ≡ stage_called (stage_names instructions.now) text.now }
{
    let mut number = 0;
    for instruction in instructions {
        if let Some(name) = name_begun(instruction) {
            if is_called(text, name) {
                return Some(number);
            }
            number += 1;
        }
    }
    None
}

/// The number that a text of digits writes, where it is that of one of so many stages.
fn stage_numbered(count: u32, text: &Text) -> Option<u32>
    ensures { result ≡ option_and_then (within count) (decimal_of text.now) }
{
    match parse_number(text.as_str()) {
        Some(number) => { if number < count { Some(number) } else { None } }
        None => None,
    }
}

/// The number of the stage that is wanted.
pub(crate) fn target_of(instructions: &[Instruction], target: Option<&Text>) -> Option<u32>
    requires { length instructions.now ≤ most_lines }
    ensures { result ≡ target_of (stage_names instructions.now) (option_map (λ t. t.now) target.entry) }
{
    let Some(text) = target else {
        return Some(stage_count(instructions).saturating_sub(1));
    };
    if are_digits(text.as_str().as_bytes()) {
        return stage_numbered(stage_count(instructions), text);
    }
    stage_called(instructions, text)
}

/// Whether all instructions are ARGs.
pub(crate) fn are_arguments(instructions: &[Instruction]) -> bool
    ensures { result ≡ are_arguments instructions.now }
{
    for instruction in instructions {
        if declared_by(instruction.kind()).is_none() {
            return false;
        }
    }
    true
}

/// A refusal.
pub(crate) fn refused(code: Code, line: u32) -> RejectionFault
    ensures { result ≡ Because (record { reason = Coded code; line = line }) }
{
    let reason = Reason::Coded(code);
    Fault::Because(Rejection { reason, line })
}
