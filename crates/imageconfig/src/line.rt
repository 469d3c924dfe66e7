// What the lines of a configuration say.

ghost use Rattle.std.specs.Prelude.{◌≡◌, Some, IfOk};
ghost use Rattle.expand.specs.Expanding.{unexpanded};
ghost use Rattle.expand.specs.Value.{value};
ghost use Rattle.instructions.specs.Reason.{Evaluates};
ghost use Rattle.paths.specs.Reading.{read_from};
ghost use Rattle.scopes.specs.Scope.{value_in};
ghost use Rattle.instructions.specs.Command.{words_of};
ghost use Rattle.imageconfig.specs.Lines.{label_rows, label_fault, label_due, texts_of, words_fault, port_keys, port_due, volume_due, text_due, dir_due};
ghost use Rattle.imageconfig.specs.PrivateLines.{row_with, IsLabelled};

use crate::ports::{have_bad_port, keys_of};
use crate::values::{Found, have_empty, is_empty, values_of};
use expand::{Reason, ReasonFault, Unexpanded, Word, expand, expand_next};
use instructions::{Command, Label};
use paths::Path;
use plain::{Code, Exact, Fault, Items, Memory, Text};
use scopes::Scope;
use std::alloc::Global;

/// The row of a name and a value, if both are there.
fn row_with(name: Option<Text>, value: Option<Text>) -> Option<(Text, Text)>
    ensures { result ≡ row_with name value }
{
    match (name, value) {
        (Some(name), Some(value)) => Some((name, value)),
        _ => None,
    }
}

/// The rows of a LABEL so far, and what is against its texts.
#[derive(Drop)]
pub(crate) struct Labelled {
    rows: Items<(Text, Text)>,
    fault: Option<Unexpanded>,
    has_empty_key: bool,
}

/// The rows of a LABEL with one label more.
fn with_label(
    alloc: Global,
    line: Labelled,
    label: &Label,
    before: &Scope,
) -> Result<Labelled, Memory>
    ensures { IfOk result (λ more. IsLabelled (value_in before.now) line label.now more) }
{
    let Labelled {
        mut rows,
        fault,
        has_empty_key,
    } = line;
    let (key, fault) = expand_next(alloc, &label.key, before, fault)?;
    let (value, fault) = expand_next(alloc, &label.value, before, fault)?;
    let has_empty_key = has_empty_key || is_empty(&key);
    if let Some(label) = row_with(key, value) {
        rows.push(label)?;
    }
    Ok(Labelled {
        rows,
        fault,
        has_empty_key,
    })
}

/// The rows of a LABEL.
pub(crate) fn label_rows(
    alloc: Global,
    labels: &[Label],
    before: &Scope,
) -> Result<Items<(Text, Text)>, ReasonFault>
    ensures { Evaluates (Some (label_rows (value_in before.now) labels.now)) (label_due (value_in before.now) labels.now) (label_fault (value_in before.now) labels.now) result }
{
    let mut line = Labelled {
        rows: Items::new(alloc),
        fault: None,
        has_empty_key: false,
    };
    for label in labels {
        line = with_label(alloc, line, label, before)?;
    }
    let Labelled {
        rows,
        fault,
        has_empty_key,
    } = line;
    if has_empty_key {
        return Err(Fault::Because(Reason::Coded(Code::R10)));
    }
    match fault {
        Some(why) => Err(Fault::Because(Reason::of(why))),
        None => Ok(rows),
    }
}

/// The keys of an EXPOSE.
pub(crate) fn port_keys(
    alloc: Global,
    ports: &[Word],
    before: &Scope,
) -> Result<Items<Text>, ReasonFault>
    ensures { Evaluates (Some (port_keys (value_in before.now) ports.now)) (port_due (value_in before.now) ports.now) (words_fault (value_in before.now) ports.now) result }
{
    let Found { values, fault } = values_of(alloc, ports, before)?;
    if have_bad_port(values.as_slice()) {
        return Err(Fault::Because(Reason::Coded(Code::R16)));
    }
    if let Some(why) = fault {
        return Err(Fault::Because(Reason::of(why)));
    }
    Ok(keys_of(alloc, values.as_slice())?)
}

/// The texts of a VOLUME.
pub(crate) fn volume_texts(
    alloc: Global,
    paths: &[Word],
    before: &Scope,
) -> Result<Items<Text>, ReasonFault>
    ensures { Evaluates (Some (texts_of (value_in before.now) paths.now)) (volume_due (value_in before.now) paths.now) (words_fault (value_in before.now) paths.now) result }
{
    let Found { values, fault } = values_of(alloc, paths, before)?;
    if have_empty(values.as_slice()) {
        return Err(Fault::Because(Reason::Coded(Code::R06)));
    }
    match fault {
        Some(why) => Err(Fault::Because(Reason::of(why))),
        None => Ok(values),
    }
}

/// The text of a USER or a STOPSIGNAL.
pub(crate) fn only_text(alloc: Global, word: &Word, before: &Scope) -> Result<Text, ReasonFault>
    ensures { Evaluates (Some (value (value_in before.now) word.now)) (text_due (value_in before.now) word.now) (unexpanded (value_in before.now) word.now) result }
{
    match expand(alloc, word, before) {
        Ok(text) => {
            if text.len() == 0 {
                return Err(Fault::Because(Reason::Coded(Code::R06)));
            }
            Ok(text)
        }
        Err(Fault::Because(why)) => Err(Fault::Because(Reason::of(why))),
        Err(Fault::Memory) => Err(Fault::Memory),
    }
}

/// The path of a WORKDIR, against the working directory before the line.
pub(crate) fn directory(
    alloc: Global,
    word: &Word,
    base: &Path,
    before: &Scope,
) -> Result<Path, ReasonFault>
    ensures { Evaluates (Some (read_from (value (value_in before.now) word.now) base.now)) (dir_due (value_in before.now) base.now word.now) (unexpanded (value_in before.now) word.now) result }
{
    let text = only_text(alloc, word, before)?;
    match Path::read(alloc, text.as_str(), base) {
        Ok(path) => Ok(path),
        Err(Fault::Because(_)) => Err(Fault::Because(Reason::Coded(Code::R18))),
        Err(Fault::Memory) => Err(Fault::Memory),
    }
}

/// The words of a command.
pub(crate) fn words_of(
    alloc: Global,
    shell: &Items<Text>,
    command: &Command,
) -> Result<Items<Text>, Memory>
    ensures { IfOk result (λ words. words ≡ words_of shell.now command.now) }
{
    match command {
        Command::Exec(words) => words.copy(alloc),
        Command::Shell(text) => {
            let mut words = shell.copy(alloc)?;
            words.push(text.copy(alloc)?)?;
            Ok(words)
        }
    }
}
