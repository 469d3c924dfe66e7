ghost use Rattle.std.specs.Prelude.{◌≡◌, Some, OnOk, OnErr};
ghost use Rattle.expand.specs.Expanding.{unexpanded};
ghost use Rattle.expand.specs.Value.{value};
ghost use Rattle.instructions.specs.Reason.{Evaluates};
ghost use Rattle.instructions.specs.declared.instruction.InstructionKind.TheVariants as spelled;
ghost use Rattle.paths.specs.Reading.{read_from};
ghost use Rattle.scopes.specs.Scope.{value_in};
ghost use Rattle.imageconfig.specs.Lines.{dir_due};
ghost use Rattle.imageconfig.specs.PrivateLines.{with_shell, with_cmd, with_entrypoint, IsChanged};
ghost use Rattle.imageconfig.specs.Steps.{dir_of};

use crate::config::Config;
use crate::line::{directory, label_rows, only_text, port_keys, volume_texts, words_of};
use expand::{Reason, ReasonFault, Word};
use instructions::{Assignment, Command, InstructionKind, Label};
use paths::Path;
use plain::{Exact, Fault, Items, Memory, Text};
use scopes::Scope;
use std::alloc::Global;

/// Changes a configuration by an instruction. Each change evaluates its texts first, and then puts them where they belong.
pub(crate) fn change(
    alloc: Global,
    config: &mut Config,
    kind: &InstructionKind,
    before: &Scope,
) -> Result<(), ReasonFault>
    ensures { IsChanged config.old (value_in before.now) kind.now config.new result }
{
    match kind {
        InstructionKind::Env { assignments } => set_env(alloc, config, assignments, before),
        InstructionKind::Label { labels } => set_labels(alloc, config, labels, before),
        InstructionKind::Expose { ports } => add_ports(alloc, config, ports, before),
        InstructionKind::User { user } => set_user(alloc, config, user, before),
        InstructionKind::Workdir { path } => set_dir(alloc, config, path, before),
        InstructionKind::StopSignal { signal } => set_stop_signal(alloc, config, signal, before),
        InstructionKind::Volume { paths } => add_volumes(alloc, config, paths, before),
        InstructionKind::Shell { words } => Ok(set_shell(alloc, config, words)?),
        InstructionKind::Cmd { command } => Ok(set_cmd(alloc, config, command)?),
        InstructionKind::Entrypoint { command } => Ok(set_entrypoint(alloc, config, command)?),
        InstructionKind::From { .. }
        | InstructionKind::Arg { .. }
        | InstructionKind::Run { .. }
        | InstructionKind::Copy { .. } => Ok(()),
    }
}

/// An ENV.
fn set_env(
    alloc: Global,
    config: &mut Config,
    assignments: &Items<Assignment>,
    before: &Scope,
) -> Result<(), ReasonFault>
    ensures { IsChanged config.old (value_in before.now) (spelled.Env assignments.now) config.new result }
{
    match before.variables(alloc, assignments.as_slice()) {
        Ok(variables) => Ok(config.env.set_variables(alloc, variables.as_slice())?),
        Err(Fault::Because(why)) => Err(Fault::Because(Reason::of(why))),
        Err(Fault::Memory) => Err(Fault::Memory),
    }
}

/// A LABEL.
fn set_labels(
    alloc: Global,
    config: &mut Config,
    labels: &Items<Label>,
    before: &Scope,
) -> Result<(), ReasonFault>
    ensures { IsChanged config.old (value_in before.now) (spelled.Label labels.now) config.new result }
{
    let rows = label_rows(alloc, labels.as_slice(), before)?;
    config.labels.set_all(rows)?;
    Ok(())
}

/// An EXPOSE.
fn add_ports(
    alloc: Global,
    config: &mut Config,
    ports: &Items<Word>,
    before: &Scope,
) -> Result<(), ReasonFault>
    ensures { IsChanged config.old (value_in before.now) (spelled.Expose ports.now) config.new result }
{
    let keys = port_keys(alloc, ports.as_slice(), before)?;
    config.exposed_ports.add_all(alloc, keys)?;
    Ok(())
}

/// A USER.
fn set_user(
    alloc: Global,
    config: &mut Config,
    user: &Word,
    before: &Scope,
) -> Result<(), ReasonFault>
    ensures { IsChanged config.old (value_in before.now) (spelled.User user.now) config.new result }
{
    config.user = only_text(alloc, user, before)?;
    Ok(())
}

/// A WORKDIR, against the working directory before the line.
fn set_dir(
    alloc: Global,
    config: &mut Config,
    path: &Word,
    before: &Scope,
) -> Result<(), ReasonFault>
    ensures { IsChanged config.old (value_in before.now) (spelled.Workdir path.now) config.new result }
{
    let path = path_from(alloc, path, &config.working_dir, before)?;
    config.working_dir = Some(path);
    Ok(())
}

/// A STOPSIGNAL.
fn set_stop_signal(
    alloc: Global,
    config: &mut Config,
    signal: &Word,
    before: &Scope,
) -> Result<(), ReasonFault>
    ensures { IsChanged config.old (value_in before.now) (spelled.StopSignal signal.now) config.new result }
{
    config.stop_signal = only_text(alloc, signal, before)?;
    Ok(())
}

/// A VOLUME.
fn add_volumes(
    alloc: Global,
    config: &mut Config,
    paths: &Items<Word>,
    before: &Scope,
) -> Result<(), ReasonFault>
    ensures { IsChanged config.old (value_in before.now) (spelled.Volume paths.now) config.new result }
{
    let texts = volume_texts(alloc, paths.as_slice(), before)?;
    config.volumes.add_all(alloc, texts)?;
    Ok(())
}

/// A SHELL.
fn set_shell(alloc: Global, config: &mut Config, words: &Items<Text>) -> Result<(), Memory>
    ensures ok { OnOk result (config.new ≡ with_shell config.old words.now) }
    ensures err { OnErr result (config.new ≡ config.old) }
{
    config.shell = words.copy(alloc)?;
    Ok(())
}

/// A CMD.
fn set_cmd(alloc: Global, config: &mut Config, command: &Command) -> Result<(), Memory>
    ensures ok { OnOk result (config.new ≡ with_cmd config.old command.now) }
    ensures err { OnErr result (config.new ≡ config.old) }
{
    config.cmd = words_of(alloc, &config.shell, command)?;
    config.cmd_is_own = true;
    Ok(())
}

/// An ENTRYPOINT.
fn set_entrypoint(alloc: Global, config: &mut Config, command: &Command) -> Result<(), Memory>
    ensures ok { OnOk result (config.new ≡ with_entrypoint config.old command.now) }
    ensures err { OnErr result (config.new ≡ config.old) }
{
    config.entrypoint = words_of(alloc, &config.shell, command)?;
    if !config.cmd_is_own {
        config.cmd = Items::new(alloc);
    }
    Ok(())
}

/// The path that a word leads to from a working directory.
fn path_from(
    alloc: Global,
    word: &Word,
    base: &Option<Path>,
    before: &Scope,
) -> Result<Path, ReasonFault>
    ensures { Evaluates (Some (read_from (value (value_in before.now) word.now) (dir_of base.now))) (dir_due (value_in before.now) (dir_of base.now) word.now) (unexpanded (value_in before.now) word.now) result }
{
    match base {
        Some(base) => directory(alloc, word, base, before),
        None => directory(alloc, word, &Path::root(alloc), before),
    }
}
