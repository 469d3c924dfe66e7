ghost use Rattle.std.specs.Prelude.{◌≡◌, IfOk};
ghost use Rattle.imageconfig.specs.PrivateFields.{together};
ghost use Rattle.imageconfig.specs.Reading.{default_shell, bare};

use crate::config::Config;
use crate::environment::Environment;
use crate::names::Names;
use crate::rows::Rows;
use paths::Path;
use plain::{Items, Memory, Text};
use std::alloc::Global;
use std::hash::RandomState;

/// The fields of a configuration that are always set.
#[derive(Drop)]
pub(crate) struct Basics {
    pub(crate) architecture: Text,
    pub(crate) os: Text,
    pub(crate) shell: Items<Text>,
}

/// The fields of a configuration that are lists.
#[derive(Drop)]
pub(crate) struct Lists {
    pub(crate) cmd: Items<Text>,
    pub(crate) entrypoint: Items<Text>,
    pub(crate) env: Environment,
}

/// The fields of a configuration that are objects.
#[derive(Drop)]
pub(crate) struct Objects {
    pub(crate) exposed_ports: Names,
    pub(crate) labels: Rows,
    pub(crate) volumes: Names,
}

/// The fields of a configuration that are texts.
#[derive(Drop)]
pub(crate) struct Texts {
    pub(crate) stop_signal: Text,
    pub(crate) user: Text,
    pub(crate) working_dir: Option<Path>,
}

/// The configuration of these fields.
pub(crate) fn put_together(
    basics: Basics,
    texts: Texts,
    objects: Objects,
    lists: Lists,
    cmd_is_own: bool,
) -> Config
    ensures { result ≡ together basics texts objects lists cmd_is_own }
{
    let Basics {
        architecture,
        os,
        shell,
    } = basics;
    let Texts {
        stop_signal,
        user,
        working_dir,
    } = texts;
    let Objects {
        exposed_ports,
        labels,
        volumes,
    } = objects;
    let Lists {
        cmd,
        entrypoint,
        env,
    } = lists;
    Config {
        architecture,
        os,
        env,
        user,
        stop_signal,
        working_dir,
        cmd,
        cmd_is_own,
        entrypoint,
        labels,
        exposed_ports,
        volumes,
        shell,
    }
}

/// The words of the shell where no SHELL was given.
pub(crate) fn default_shell(alloc: Global) -> Result<Items<Text>, Memory>
    ensures { IfOk result (λ words. words ≡ default_shell) }
{
    let mut words = Items::from_vec(Vec::with_capacity(alloc, 2)?);
    words.push(Text::from_str(alloc, "/bin/sh")?)?;
    words.push(Text::from_str(alloc, "-c")?)?;
    Ok(words)
}

/// The configuration with nothing set, whose names are found by a hash with these keys.
pub(crate) fn bare(
    alloc: Global,
    keys: RandomState,
    architecture: Text,
    os: Text,
) -> Result<Config, Memory>
    ensures { IfOk result (λ config. config ≡ bare architecture os) }
{
    let shell = default_shell(alloc)?;
    Ok(Config {
        architecture,
        os,
        env: Environment::new(alloc, keys),
        user: Text::from_string(String::new(alloc)),
        stop_signal: Text::from_string(String::new(alloc)),
        working_dir: None,
        cmd: Items::new(alloc),
        cmd_is_own: false,
        entrypoint: Items::new(alloc),
        labels: Rows::new(alloc, keys),
        exposed_ports: Names::new(alloc, keys),
        volumes: Names::new(alloc, keys),
        shell,
    })
}
