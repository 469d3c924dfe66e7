// Instructions as texts.

use crate::lookup::{Names, value_under};
use expand::Word;
use instructions::{
    Argument, Assignment, Body, Command, CopyFlags, InstructionKind, Label, Mount, MountKind,
    Source,
};
use plain::{Items, Memory, Mode, Owner, Sharing, Text};
use std::alloc::Global;
use words::TextFault;

/// What is written so far, and the values under which words are.
#[derive(Drop)]
pub struct Page {
    pub text: String,
    names: Names,
}

/// An empty page, on which `v` has the value `<v>`.
pub fn empty_page(alloc: Global) -> Result<Page, Memory> {
    let names = Names::new(alloc, Some("<v>"))?;
    Ok(Page {
        text: String::new(alloc),
        names,
    })
}

/// Adds texts, one behind another.
pub fn add(shown: &mut Page, texts: &[&str]) -> Result<(), TextFault> {
    for text in texts {
        shown.text.push_str(text)?;
    }
    Ok(())
}

/// Adds a word, as its value.
fn add_word(alloc: Global, shown: &mut Page, word: &Word) -> Result<(), TextFault> {
    let value = value_under(alloc, word, &shown.names)?;
    add(shown, &[value.as_str()])
}

/// Adds words, each behind `|`.
fn add_expanded(alloc: Global, shown: &mut Page, words: &[Word]) -> Result<(), TextFault> {
    for word in words {
        add(shown, &["|"])?;
        add_word(alloc, shown, word)?;
    }
    Ok(())
}

/// Adds a name and its text, where there is one, as `,id=k`.
fn add_option(shown: &mut Page, name: &str, text: &Option<Text>) -> Result<(), TextFault> {
    match text {
        Some(text) => add(shown, &[name, text.as_str()]),
        None => Ok(()),
    }
}

/// Adds ARG's arguments, as `|a=1|b`.
fn add_arguments(alloc: Global, shown: &mut Page, arguments: &[Argument]) -> Result<(), TextFault> {
    for argument in arguments {
        add(shown, &["|", argument.name.as_str()])?;
        if let Some(default) = &argument.default {
            add(shown, &["="])?;
            add_word(alloc, shown, default)?;
        }
    }
    Ok(())
}

/// Adds ENV's assignments, as `|a=1`.
fn add_assignments(
    alloc: Global,
    shown: &mut Page,
    assignments: &[Assignment],
) -> Result<(), TextFault> {
    for assignment in assignments {
        add(shown, &["|", assignment.name.as_str(), "="])?;
        add_word(alloc, shown, &assignment.value)?;
    }
    Ok(())
}

/// Adds labels, as `|a=1`.
fn add_labels(alloc: Global, shown: &mut Page, labels: &[Label]) -> Result<(), TextFault> {
    for label in labels {
        add(shown, &["|"])?;
        add_word(alloc, shown, &label.key)?;
        add(shown, &["="])?;
        add_word(alloc, shown, &label.value)?;
    }
    Ok(())
}

/// Adds a command: `|[a][b]`, or `|$` and the text for the shell.
fn add_command(shown: &mut Page, command: &Command) -> Result<(), TextFault> {
    match command {
        Command::Exec(words) => {
            add(shown, &["|"])?;
            for word in words.as_slice() {
                add(shown, &["[", word.as_str(), "]"])?;
            }
            Ok(())
        }
        Command::Shell(text) => add(shown, &["|$", text.as_str()]),
    }
}

/// Adds how a cache is shared, unless it is plainly shared.
fn add_sharing(shown: &mut Page, sharing: Sharing) -> Result<(), TextFault> {
    match sharing {
        Sharing::Shared => Ok(()),
        Sharing::Private => add(shown, &[",private"]),
        Sharing::Locked => add(shown, &[",locked"]),
    }
}

/// Adds a mount, as `|bind:/m,source=/s,rw` or `|cache:/c,id=k`.
fn add_mount(shown: &mut Page, mount: &Mount) -> Result<(), TextFault> {
    match &mount.kind {
        MountKind::Bind {
            source,
            from,
            is_writable,
        } => {
            add(shown, &["|bind:", mount.target.as_str()])?;
            add_option(shown, ",source=", source)?;
            add_option(shown, ",from=", from)?;
            add(shown, &[if *is_writable { ",rw" } else { "" }])
        }
        MountKind::Cache { id, sharing } => {
            add(shown, &["|cache:", mount.target.as_str()])?;
            add_option(shown, ",id=", id)?;
            add_sharing(shown, *sharing)
        }
    }
}

/// Adds mounts.
fn add_mounts(shown: &mut Page, mounts: &[Mount]) -> Result<(), TextFault> {
    for mount in mounts {
        add_mount(shown, mount)?;
    }
    Ok(())
}

/// Adds the body of a heredoc, that of a quoted mark behind `l:`.
fn add_body(alloc: Global, shown: &mut Page, body: &Body) -> Result<(), TextFault> {
    match body {
        Body::Expanded(word) => add_word(alloc, shown, word),
        Body::Literal(text) => add(shown, &["l:", text.as_str()]),
    }
}

/// Adds COPY's sources: a pattern as its value, a heredoc as `<NAME=BODY>`.
fn add_sources(alloc: Global, shown: &mut Page, sources: &[Source]) -> Result<(), TextFault> {
    for source in sources {
        add(shown, &["|"])?;
        match source {
            Source::Files(pattern) => add_word(alloc, shown, pattern)?,
            Source::Document { name, body } => {
                add(shown, &["<", name.as_str(), "="])?;
                add_body(alloc, shown, body)?;
                add(shown, &[">"])?;
            }
        }
    }
    Ok(())
}

/// Adds an owner, as `|owner=1:2`.
fn add_owner(alloc: Global, shown: &mut Page, owner: &Option<Owner>) -> Result<(), TextFault> {
    match owner {
        Some(owner) => {
            let text = format!(in alloc; "|owner={}:{}", owner.user, owner.group)?;
            add(shown, &[text.as_str()])
        }
        None => Ok(()),
    }
}

/// Adds a mode as a decimal number, as `|mode=493`.
fn add_mode(alloc: Global, shown: &mut Page, mode: &Option<Mode>) -> Result<(), TextFault> {
    match mode {
        Some(mode) => {
            let text = format!(in alloc; "|mode={}", mode.bits())?;
            add(shown, &[text.as_str()])
        }
        None => Ok(()),
    }
}

/// Adds what COPY's flags say.
fn add_flags(alloc: Global, shown: &mut Page, flags: &CopyFlags) -> Result<(), TextFault> {
    add_option(shown, "|from=", &flags.from)?;
    add_owner(alloc, shown, &flags.owner)?;
    add_mode(alloc, shown, &flags.mode)?;
    add(shown, &[if flags.is_linked { "|link" } else { "" }])
}

/// Adds the image and the name of a stage.
fn add_stage(
    alloc: Global,
    shown: &mut Page,
    image: &Word,
    name: &Option<Text>,
) -> Result<(), TextFault> {
    add(shown, &["FROM|"])?;
    add_word(alloc, shown, image)?;
    add_option(shown, "|", name)
}

/// Adds the name of an instruction of one argument, and that.
fn add_only(alloc: Global, shown: &mut Page, name: &str, argument: &Word) -> Result<(), TextFault> {
    add(shown, &[name])?;
    add_word(alloc, shown, argument)
}

/// Adds SHELL's words.
fn add_words(shown: &mut Page, words: &Items<Text>) -> Result<(), TextFault> {
    for word in words.as_slice() {
        add(shown, &["|", word.as_str()])?;
    }
    Ok(())
}

/// Adds an instruction whose arguments are variables, labels or words.
fn add_setting(
    alloc: Global,
    shown: &mut Page,
    instruction: &InstructionKind,
) -> Result<(), TextFault> {
    match instruction {
        InstructionKind::Arg { arguments } => {
            add(shown, &["ARG"])?;
            add_arguments(alloc, shown, arguments.as_slice())
        }
        InstructionKind::Env { assignments } => {
            add(shown, &["ENV"])?;
            add_assignments(alloc, shown, assignments.as_slice())
        }
        InstructionKind::Label { labels } => {
            add(shown, &["LABEL"])?;
            add_labels(alloc, shown, labels.as_slice())
        }
        InstructionKind::Expose { ports } => {
            add(shown, &["EXPOSE"])?;
            add_expanded(alloc, shown, ports.as_slice())
        }
        InstructionKind::Volume { paths } => {
            add(shown, &["VOLUME"])?;
            add_expanded(alloc, shown, paths.as_slice())
        }
        _ => Ok(()),
    }
}

/// Adds an instruction.
pub fn add_instruction(
    alloc: Global,
    shown: &mut Page,
    instruction: &InstructionKind,
) -> Result<(), TextFault> {
    match instruction {
        InstructionKind::From { image, name } => add_stage(alloc, shown, image, name),
        InstructionKind::User { user } => add_only(alloc, shown, "USER|", user),
        InstructionKind::Workdir { path } => add_only(alloc, shown, "WORKDIR|", path),
        InstructionKind::StopSignal { signal } => add_only(alloc, shown, "STOPSIGNAL|", signal),
        InstructionKind::Shell { words } => {
            add(shown, &["SHELL"])?;
            add_words(shown, words)
        }
        InstructionKind::Cmd { command } => {
            add(shown, &["CMD"])?;
            add_command(shown, command)
        }
        InstructionKind::Entrypoint { command } => {
            add(shown, &["ENTRYPOINT"])?;
            add_command(shown, command)
        }
        InstructionKind::Run { mounts, command } => {
            add(shown, &["RUN"])?;
            add_mounts(shown, mounts.as_slice())?;
            add_command(shown, command)
        }
        InstructionKind::Copy {
            sources,
            destination,
            flags,
        } => {
            add(shown, &["COPY"])?;
            add_sources(alloc, shown, sources.as_slice())?;
            add_only(alloc, shown, "|>", destination)?;
            add_flags(alloc, shown, flags)
        }
        other => add_setting(alloc, shown, other),
    }
}
