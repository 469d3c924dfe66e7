// Configurations are compared and copied group by group, so that each step has few values to let go.

ghost use Rattle.std.specs.Prelude.{◌≡◌, ◌↔◌, IsTrue, IfOk};
ghost use Rattle.imageconfig.specs.PrivateFields.{basics_of, lists_of, objects_of, texts_of, together};

use crate::config::Config;
use crate::fields::{Basics, Lists, Objects, Texts, put_together};
use paths::Path;
use plain::{Exact, Memory};
use std::alloc::Global;

impl Exact for Config {
    fn same(&self, other: &Config) -> bool {
        are_basics_same(self, other)
            && are_texts_same(self, other)
            && are_objects_same(self, other)
            && are_lists_same(self, other)
            && self.cmd_is_own == other.cmd_is_own
    }

    fn copy(&self, alloc: Global) -> Result<Config, Memory> {
        let basics = copied_basics(alloc, self)?;
        copied_with_basics(alloc, self, basics)
    }
}

/// Whether two configurations have the same fields that are always set.
fn are_basics_same(this: &Config, that: &Config) -> bool
    ensures { IsTrue result ↔ (basics_of this.now ≡ basics_of that.now) }
{
    this.architecture.same(&that.architecture)
        && this.os.same(&that.os)
        && this.shell.same(&that.shell)
}

/// Whether two configurations have the same lists.
fn are_lists_same(this: &Config, that: &Config) -> bool
    ensures { IsTrue result ↔ (lists_of this.now ≡ lists_of that.now) }
{
    this.cmd.same(&that.cmd) && this.entrypoint.same(&that.entrypoint) && this.env.same(&that.env)
}

/// Whether two configurations have the same objects.
fn are_objects_same(this: &Config, that: &Config) -> bool
    ensures { IsTrue result ↔ (objects_of this.now ≡ objects_of that.now) }
{
    this.exposed_ports.same(&that.exposed_ports)
        && this.labels.same(&that.labels)
        && this.volumes.same(&that.volumes)
}

/// Whether two configurations have the same texts.
fn are_texts_same(this: &Config, that: &Config) -> bool
    ensures { IsTrue result ↔ (texts_of this.now ≡ texts_of that.now) }
{
    this.stop_signal.same(&that.stop_signal)
        && this.user.same(&that.user)
        && this.working_dir.same(&that.working_dir)
}

/// A copy of a configuration, with the fields that are always set.
fn copied_with_basics(alloc: Global, config: &Config, basics: Basics) -> Result<Config, Memory>
    ensures { IfOk result (λ copied. copied ≡ together basics (texts_of config.now) (objects_of config.now) (lists_of config.now) config.now.cmd_is_own) }
{
    match copied_texts(alloc, config) {
        Ok(texts) => copied_with_texts(alloc, config, basics, texts),
        Err(memory) => {
            drop(basics);
            Err(memory)
        }
    }
}

/// The same, with the fields that are texts.
fn copied_with_texts(
    alloc: Global,
    config: &Config,
    basics: Basics,
    texts: Texts,
) -> Result<Config, Memory>
    ensures { IfOk result (λ copied. copied ≡ together basics texts (objects_of config.now) (lists_of config.now) config.now.cmd_is_own) }
{
    match copied_objects(alloc, config) {
        Ok(objects) => copied_with_objects(alloc, config, basics, texts, objects),
        Err(memory) => {
            drop(basics);
            drop(texts);
            Err(memory)
        }
    }
}

/// The same, with the fields that are objects.
fn copied_with_objects(
    alloc: Global,
    config: &Config,
    basics: Basics,
    texts: Texts,
    objects: Objects,
) -> Result<Config, Memory>
    ensures { IfOk result (λ copied. copied ≡ together basics texts objects (lists_of config.now) config.now.cmd_is_own) }
{
    match copied_lists(alloc, config) {
        Ok(lists) => Ok(put_together(basics, texts, objects, lists, config.cmd_is_own)),
        Err(memory) => {
            drop(basics);
            drop(texts);
            drop(objects);
            Err(memory)
        }
    }
}

/// The fields that are always set.
fn copied_basics(alloc: Global, config: &Config) -> Result<Basics, Memory>
    ensures { IfOk result (λ basics. basics ≡ basics_of config.now) }
{
    let architecture = config.architecture.copy(alloc)?;
    let os = config.os.copy(alloc)?;
    let shell = config.shell.copy(alloc)?;
    Ok(Basics {
        architecture,
        os,
        shell,
    })
}

/// The fields that are lists.
fn copied_lists(alloc: Global, config: &Config) -> Result<Lists, Memory>
    ensures { IfOk result (λ lists. lists ≡ lists_of config.now) }
{
    let cmd = config.cmd.copy(alloc)?;
    let entrypoint = config.entrypoint.copy(alloc)?;
    let env = config.env.copy(alloc)?;
    Ok(Lists {
        cmd,
        entrypoint,
        env,
    })
}

/// The fields that are objects.
fn copied_objects(alloc: Global, config: &Config) -> Result<Objects, Memory>
    ensures { IfOk result (λ objects. objects ≡ objects_of config.now) }
{
    let exposed_ports = config.exposed_ports.copy(alloc)?;
    match config.labels.copy(alloc) {
        Ok(labels) => match config.volumes.copy(alloc) {
            Ok(volumes) => Ok(Objects {
                exposed_ports,
                labels,
                volumes,
            }),
            Err(memory) => {
                drop(exposed_ports);
                drop(labels);
                Err(memory)
            }
        },
        Err(memory) => {
            drop(exposed_ports);
            Err(memory)
        }
    }
}

/// The fields that are texts.
fn copied_texts(alloc: Global, config: &Config) -> Result<Texts, Memory>
    ensures { IfOk result (λ texts. texts ≡ texts_of config.now) }
{
    let stop_signal = config.stop_signal.copy(alloc)?;
    let user = config.user.copy(alloc)?;
    let working_dir = copied_dir(alloc, &config.working_dir)?;
    Ok(Texts {
        stop_signal,
        user,
        working_dir,
    })
}

/// A working directory of its own.
fn copied_dir(alloc: Global, dir: &Option<Path>) -> Result<Option<Path>, Memory>
    ensures { IfOk result (λ copied. copied ≡ dir.now) }
{
    match dir {
        Some(path) => {
            let path = path.copy(alloc)?;
            Ok(Some(path))
        }
        None => Ok(None),
    }
}
