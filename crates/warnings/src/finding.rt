// The warnings of a file, line by line.
ghost use Rattle.std.specs.Prelude.{◌≡◌, ◌++◌, length, option_map, codes, IfOk, OnOk};
ghost use Rattle.std.specs.FinMap.{get as arg_value};
ghost use Rattle.std.specs.List.{filter_map};
ghost use Rattle.std.specs.String.{string_bytes};
ghost use Rattle.ascii.specs.Pieces.{behind_piece};
ghost use Rattle.warnings.specs.Known.{stage_by};
ghost use Rattle.warnings.specs.PrivateKnown.{given_by, known_by};
ghost use Rattle.warnings.specs.Warnings.{listed, flag_warning, is_later, later_warning, mount_warning, mark_text, heredoc_warning, is_platform, argument_warning, folder_warning, run_warnings, copy_warnings, warnings_at, warnings_of, AreWarningsOf, warnings_in};

use crate::escapes::{has_idle_escape, has_variable};
use crate::known::Known;
use crate::place::Place;
use crate::{Warning, WarningKind};
use ascii::first_piece;
use dockerfile::Dockerfile;
use instructions::{Argument, Instruction, InstructionKind, Mount, MountKind};
use lines::{Escape, Heredoc, Line, Mark};
use named::{NamedRows, Present};
use plain::{Exact, Fault, Items, Memory, Text};
use scopes::Args;
use std::alloc::Global;
use std::hash::RandomState;
use words::{Flag, flags};

/// Adds a warning, if there is one.
fn push(found: &mut Items<Warning>, warning: Option<Warning>) -> Result<(), Memory>
    ensures { OnOk result (found.new ≡ found.old ++ listed warning) }
{
    match warning {
        Some(warning) => found.push(warning),
        None => Ok(()),
    }
}

/// The warning of a mount's flag, if it has a variable.
fn flag_warning(
    alloc: Global,
    escape: Escape,
    line: u32,
    flag: &Flag,
) -> Result<Option<Warning>, Memory>
    ensures { IfOk result (λ warning. warning ≡ flag_warning escape line flag.now) }
{
    let Some(value) = &flag.value else {
        return Ok(None);
    };
    if !has_variable(escape, value.as_str().as_bytes()) {
        return Ok(None);
    }
    let mut word = String::from_str(alloc, "--mount=")?;
    word.push_str(value.as_str())?;
    Ok(Some(Warning {
        kind: WarningKind::MountVariable,
        line,
        word: Text::from_string(word),
    }))
}

/// Adds the warnings of a RUN's flags.
fn push_flags(
    alloc: Global,
    found: &mut Items<Warning>,
    escape: Escape,
    line: u32,
    flags: &[Flag],
) -> Result<(), Memory>
    ensures { OnOk result (found.new ≡ found.old ++ filter_map (flag_warning escape line) flags.now) }
{
    for flag in flags {
        let warning = flag_warning(alloc, escape, line, flag)?;
        push(found, warning)?;
    }
    Ok(())
}

/// Whether a name is that of a stage which begins with the instruction's own stage or below it, by the lines of the
/// FROMs.
fn is_later(
    alloc: Global,
    stages: &NamedRows<u32>,
    place: Place,
    name: &str,
) -> Result<bool, Memory>
    ensures { IfOk result (λ is. is ≡ is_later (stage_by stages.now) place name.now) }
{
    let name = Text::from_string(name.to_ascii_lowercase(alloc)?);
    match stages.get(&name) {
        Some(line) => Ok(place.stage <= *line),
        None => Ok(false),
    }
}

/// The warning of what names a tree, if that is the name of such a stage. It is written after `front`.
fn later_warning(
    alloc: Global,
    stages: &NamedRows<u32>,
    place: Place,
    line: u32,
    front: &str,
    from: &Option<Text>,
) -> Result<Option<Warning>, Memory>
    ensures { IfOk result (λ warning. warning ≡ later_warning (stage_by stages.now) place line front.now from.now) }
{
    let Some(name) = from else {
        return Ok(None);
    };
    if !is_later(alloc, stages, place, name.as_str())? {
        return Ok(None);
    }
    let mut word = String::from_str(alloc, front)?;
    word.push_str(name.as_str())?;
    Ok(Some(Warning {
        kind: WarningKind::LaterStage,
        line,
        word: Text::from_string(word),
    }))
}

/// The warning of a mount, if it names such a stage.
fn mount_warning(
    alloc: Global,
    stages: &NamedRows<u32>,
    place: Place,
    line: u32,
    mount: &Mount,
) -> Result<Option<Warning>, Memory>
    ensures { IfOk result (λ warning. warning ≡ mount_warning (stage_by stages.now) place line mount.now) }
{
    match &mount.kind {
        MountKind::Bind { from, .. } => later_warning(alloc, stages, place, line, "from=", from),
        MountKind::Cache { .. } => Ok(None),
    }
}

/// Adds the warnings of a RUN's mounts.
fn push_mounts(
    alloc: Global,
    found: &mut Items<Warning>,
    stages: &NamedRows<u32>,
    place: Place,
    line: u32,
    mounts: &[Mount],
) -> Result<(), Memory>
    ensures { OnOk result (found.new ≡ found.old ++ filter_map (mount_warning (stage_by stages.now) place line) mounts.now) }
{
    for mount in mounts {
        let warning = mount_warning(alloc, stages, place, line, mount)?;
        push(found, warning)?;
    }
    Ok(())
}

/// The mark of a heredoc without quotes, as it is written.
fn mark_text(alloc: Global, mark: &Mark) -> Result<String, Memory>
    ensures { IfOk result (λ text. string_bytes text ≡ mark_text mark.now) }
{
    let front = if mark.strips { "<<-" } else { "<<" };
    let mut text = String::from_str(alloc, front)?;
    text.push_str(mark.name.as_str())?;
    Ok(text)
}

/// The warning of a heredoc, if it is expanded and has an escape character that stays.
fn heredoc_warning(
    alloc: Global,
    escape: Escape,
    line: u32,
    heredoc: &Heredoc,
) -> Result<Option<Warning>, Memory>
    ensures { IfOk result (λ warning. warning ≡ heredoc_warning escape line heredoc.now) }
{
    if heredoc.mark.quoted || !has_idle_escape(escape, heredoc.body.as_str().as_bytes()) {
        return Ok(None);
    }
    let word = mark_text(alloc, &heredoc.mark)?;
    Ok(Some(Warning {
        kind: WarningKind::HeredocEscape,
        line,
        word: Text::from_string(word),
    }))
}

/// Adds the warnings of a COPY's heredocs.
fn push_heredocs(
    alloc: Global,
    found: &mut Items<Warning>,
    escape: Escape,
    line: u32,
    heredocs: &[Heredoc],
) -> Result<(), Memory>
    ensures { OnOk result (found.new ≡ found.old ++ filter_map (heredoc_warning escape line) heredocs.now) }
{
    for heredoc in heredocs {
        let warning = heredoc_warning(alloc, escape, line, heredoc)?;
        push(found, warning)?;
    }
    Ok(())
}

/// Whether BuildKit gives an ARG of this name a value of the build's platforms.
fn is_platform(name: &str) -> bool
    ensures { result ≡ is_platform name.now }
{
    name == "TARGETPLATFORM"
        || name == "TARGETOS"
        || name == "TARGETARCH"
        || name == "TARGETVARIANT"
        || name == "BUILDPLATFORM"
        || name == "BUILDOS"
        || name == "BUILDARCH"
        || name == "BUILDVARIANT"
}

/// The warning of a name that an ARG declares, if it is a platform's and nothing gives it a value.
fn argument_warning(
    alloc: Global,
    args: &Args,
    given: &NamedRows<Present>,
    line: u32,
    argument: &Argument,
) -> Result<Option<Warning>, Memory>
    ensures { IfOk result (λ warning. warning ≡ argument_warning (arg_value args.now) (given_by given.now) line argument.now) }
{
    let name = argument.name.as_text();
    if !is_platform(name.as_str())
        || argument.default.is_some()
        || args.get(name).is_some()
        || given.has(name)
    {
        return Ok(None);
    }
    Ok(Some(Warning {
        kind: WarningKind::PlatformArgument,
        line,
        word: name.copy(alloc)?,
    }))
}

/// Adds the warnings of an ARG.
fn push_arguments(
    alloc: Global,
    found: &mut Items<Warning>,
    args: &Args,
    given: &NamedRows<Present>,
    line: u32,
    arguments: &[Argument],
) -> Result<(), Memory>
    ensures { OnOk result (found.new ≡ found.old ++ filter_map (argument_warning (arg_value args.now) (given_by given.now) line) arguments.now) }
{
    for argument in arguments {
        let warning = argument_warning(alloc, args, given, line, argument)?;
        push(found, warning)?;
    }
    Ok(())
}

/// The warning of a WORKDIR with this path, if the user isn't root.
fn folder_warning(
    alloc: Global,
    place: Place,
    line: u32,
    path: &str,
) -> Result<Option<Warning>, Memory>
    ensures { IfOk result (λ warning. warning ≡ folder_warning place line path.now) }
{
    if !place.is_users {
        return Ok(None);
    }
    Ok(Some(Warning {
        kind: WarningKind::FolderOwner,
        line,
        word: Text::from_str(alloc, path)?,
    }))
}

/// Adds the warnings of a RUN that this line spells.
fn push_run(
    alloc: Global,
    found: &mut Items<Warning>,
    known: &Known,
    place: Place,
    line: &Line,
    number: u32,
    mounts: &[Mount],
) -> Result<(), Memory>
    ensures { OnOk result (found.new ≡ found.old ++ run_warnings (stage_by known.now.stages) place line.now number mounts.now) }
{
    let (flags, _) = flags(alloc, first_piece(line.text.as_str()).1)?;
    push_flags(alloc, found, line.escape, number, flags.as_slice())?;
    push_mounts(alloc, found, &known.stages, place, number, mounts)
}

/// Adds the warnings of a COPY that this line spells.
fn push_copy(
    alloc: Global,
    found: &mut Items<Warning>,
    known: &Known,
    place: Place,
    line: &Line,
    number: u32,
    from: &Option<Text>,
) -> Result<(), Memory>
    ensures { OnOk result (found.new ≡ found.old ++ copy_warnings (stage_by known.now.stages) place line.now number from.now) }
{
    push_heredocs(alloc, found, line.escape, number, line.heredocs.as_slice())?;
    let warning = later_warning(alloc, &known.stages, place, number, "--from=", from)?;
    push(found, warning)
}

/// Adds the warnings of an instruction that this line spells.
fn push_all(
    alloc: Global,
    found: &mut Items<Warning>,
    args: &Args,
    known: &Known,
    place: Place,
    line: &Line,
    instruction: &Instruction,
) -> Result<(), Memory>
    ensures { OnOk result (found.new ≡ found.old ++ warnings_at (known_by (arg_value args.now) known.now) place line.now instruction.now) }
{
    let number = instruction.line();
    match instruction.kind() {
        InstructionKind::Run { mounts, .. } => push_run(
            alloc,
            found,
            known,
            place,
            line,
            number,
            mounts.as_slice(),
        ),
        InstructionKind::Copy { flags, .. } => push_copy(
            alloc,
            found,
            known,
            place,
            line,
            number,
            &flags.from,
        ),
        InstructionKind::Arg { arguments } => push_arguments(
            alloc,
            found,
            args,
            &known.given,
            number,
            arguments.as_slice(),
        ),
        InstructionKind::Workdir { .. } => {
            let path = first_piece(line.text.as_str()).1;
            let warning = folder_warning(alloc, place, number, path)?;
            push(found, warning)
        }
        _ => Ok(()),
    }
}

/// The warnings of instructions that these lines spell, with what is known of their file.
fn warnings_by(
    alloc: Global,
    args: &Args,
    known: &Known,
    lines: &[Line],
    instructions: &[Instruction],
) -> Result<Items<Warning>, Memory>
    requires { length lines.now ≡ length instructions.now }
    ensures { IfOk result (λ found. found ≡ warnings_in (known_by (arg_value args.now) known.now) lines.now instructions.now) }
{
    let mut found = Items::new(alloc);
    let mut place = Place::first();
    for index in 0..lines.len() {
        let (line, instruction) = (&lines[index], &instructions[index]);
        push_all(alloc, &mut found, args, known, place, line, instruction)?;
        place = place.after(line, instruction);
    }
    Ok(found)
}

/// The warnings of a file with these instructions, which these lines spell.
fn warnings_of(
    alloc: Global,
    keys: RandomState,
    args: &Args,
    lines: &[Line],
    instructions: &[Instruction],
) -> Result<Items<Warning>, Memory>
    requires { length lines.now ≡ length instructions.now }
    ensures { IfOk result (λ found. found ≡ warnings_of (arg_value args.now) lines.now instructions.now) }
{
    let known = Known::of(alloc, keys, instructions)?;
    let found = warnings_by(alloc, args, &known, lines, instructions);
    drop(known);
    found
}

/// The warnings of a Dockerfile's text in a build with these arguments, in the order of its lines; there are none if
/// the text is refused for its lines or its instructions. Names are found by a hash with these keys.
///
/// Each is of something that isn't refused here and means another thing in BuildKit: a variable in a mount of a RUN; an
/// escape character that BuildKit takes away from a heredoc of a COPY; the name of a stage that doesn't stand above; an
/// ARG of a platform that has no value; a WORKDIR under a USER.
pub fn find_warnings(
    alloc: Global,
    keys: RandomState,
    text: &[u8],
    args: &Args,
) -> Result<Items<Warning>, Memory>
    ensures { IfOk result (λ found. AreWarningsOf (arg_value args.now) text.now found) }
{
    match Dockerfile::read_with_lines(alloc, text) {
        Ok((file, lines)) => {
            let found = warnings_of(alloc, keys, args, lines.as_slice(), file.instructions());
            drop(file);
            drop(lines);
            found
        }
        Err(Fault::Because(_)) => Ok(Items::new(alloc)),
        Err(Fault::Memory) => Err(Memory),
    }
}
