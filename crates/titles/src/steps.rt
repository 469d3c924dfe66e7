// The steps of a stage.
ghost use Rattle.std.specs.Prelude.{◌≡◌, ◌≤◌, length, option_map};
ghost use Rattle.titles.specs.Titles.{step_word, step_count, base_count};

use instructions::InstructionKind;
use llb::Source;
use rows::Origin;
use stages::ResolvedInstruction;

/// The word that an instruction begins with which is a step.
pub(crate) fn step_word(kind: &InstructionKind) -> Option<&'static str>
    ensures { option_map (λ word. word.now) result ≡ step_word kind.now }
{
    match kind {
        InstructionKind::Workdir { .. } => Some("WORKDIR"),
        InstructionKind::Run { .. } => Some("RUN"),
        InstructionKind::Copy { .. } => Some("COPY"),
        InstructionKind::From { .. }
        | InstructionKind::Arg { .. }
        | InstructionKind::Env { .. }
        | InstructionKind::Label { .. }
        | InstructionKind::Expose { .. }
        | InstructionKind::User { .. }
        | InstructionKind::StopSignal { .. }
        | InstructionKind::Volume { .. }
        | InstructionKind::Shell { .. }
        | InstructionKind::Cmd { .. }
        | InstructionKind::Entrypoint { .. } => None,
    }
}

/// How many of some instructions are steps.
pub(crate) fn step_count(instructions: &[ResolvedInstruction]) -> usize
    ensures count { result ≡ step_count instructions.now }
    ensures few { result ≤ length instructions.now }
{
    let mut count: usize = 0;
    for resolved in instructions {
        if step_word(resolved.instruction.kind()).is_some() {
            count += 1;
        }
    }
    count
}

/// How many steps a stage's base is.
pub(crate) fn base_count(base: &Origin) -> usize
    ensures count { result ≡ base_count base.now }
    ensures few { result ≤ 1 }
{
    match base {
        Origin::Source(Source::Image(_)) => 1,
        Origin::Source(Source::Scratch | Source::Context) | Origin::Stage(_) => 0,
    }
}
