ghost use Rattle.std.specs.Prelude.{◌≡◌, codes, IfOk, OnOk};
ghost use Rattle.serde_json.specs.Data.{string};
ghost use Rattle.serde_json.specs.View.{view, members_view};
ghost use Rattle.strict.specs.Written.{list_data};
ghost use Rattle.imageconfig.specs.PrivateWriting.{put_settings, put_rootfs, put_config};
ghost use Rattle.imageconfig.specs.Writing.{is_set, put_if, put_dir, put_first, put_middle, put_last, names_data, rows_data, variable_data, settings_data, rootfs_data, config_data};

use crate::config::Config;
use crate::environment::Environment;
use crate::names::Names;
use crate::rows::Rows;
use paths::Path;
use plain::{Items, Memory, Text};
use serde_json::{Map, Value};
use std::alloc::Global;
use strict::{ToJson, list_to_json, put};

/// Adds a member that is set.
fn put_if(
    alloc: Global,
    members: &mut Map<String, Value>,
    key: &str,
    is_set: bool,
    value: Value,
) -> Result<(), Memory>
    ensures { OnOk result (members_view members.new.entries ≡ put_if is_set key.now (view value) (members_view members.old.entries)) }
{
    if is_set {
        put(alloc, members, key, value)?;
    }
    Ok(())
}

/// Adds a list of texts, where it is set.
fn put_list(
    alloc: Global,
    members: &mut Map<String, Value>,
    key: &str,
    list: &Items<Text>,
) -> Result<(), Memory>
    ensures { OnOk result (members_view members.new.entries ≡ put_if (is_set list.now) key.now (list_data string list.now) (members_view members.old.entries)) }
{
    let value = list_to_json(alloc, list.as_slice())?;
    put_if(alloc, members, key, !list.is_empty(), value)
}

/// Adds the environment, where it is set.
fn put_env(alloc: Global, members: &mut Map<String, Value>, env: &Environment) -> Result<(), Memory>
    ensures { OnOk result (members_view members.new.entries ≡ put_if (is_set env.now) (codes "Env") (list_data variable_data env.now) (members_view members.old.entries)) }
{
    let value = env.to_json(alloc)?;
    put_if(alloc, members, "Env", !env.is_empty(), value)
}

/// Adds names, where they are set.
fn put_names(
    alloc: Global,
    members: &mut Map<String, Value>,
    key: &str,
    names: &Names,
) -> Result<(), Memory>
    ensures { OnOk result (members_view members.new.entries ≡ put_if (is_set names.now) key.now (names_data names.now) (members_view members.old.entries)) }
{
    let value = names.to_json(alloc)?;
    put_if(alloc, members, key, !names.is_empty(), value)
}

/// Adds the labels, where they are set.
fn put_labels(alloc: Global, members: &mut Map<String, Value>, labels: &Rows) -> Result<(), Memory>
    ensures { OnOk result (members_view members.new.entries ≡ put_if (is_set labels.now) (codes "Labels") (rows_data labels.now) (members_view members.old.entries)) }
{
    let value = labels.to_json(alloc)?;
    put_if(alloc, members, "Labels", !labels.is_empty(), value)
}

/// Adds a text, where it is set.
fn put_text(
    alloc: Global,
    members: &mut Map<String, Value>,
    key: &str,
    text: &Text,
) -> Result<(), Memory>
    ensures { OnOk result (members_view members.new.entries ≡ put_if (is_set text.now) key.now (string text.now) (members_view members.old.entries)) }
{
    let value = text.to_json(alloc)?;
    put_if(alloc, members, key, text.len() != 0, value)
}

/// Adds the working directory, where it is set.
fn put_dir(
    alloc: Global,
    members: &mut Map<String, Value>,
    dir: &Option<Path>,
) -> Result<(), Memory>
    ensures { OnOk result (members_view members.new.entries ≡ put_dir dir.now (members_view members.old.entries)) }
{
    match dir {
        Some(path) => put(
            alloc,
            members,
            "WorkingDir",
            Value::String(path.text(alloc)?.into_string(alloc)?),
        ),
        None => Ok(()),
    }
}

/// Adds Env, Entrypoint and Cmd, as far as they are set.
fn put_first(alloc: Global, members: &mut Map<String, Value>, config: &Config) -> Result<(), Memory>
    ensures { OnOk result (members_view members.new.entries ≡ put_first config.now (members_view members.old.entries)) }
{
    put_env(alloc, members, &config.env)?;
    put_list(alloc, members, "Entrypoint", &config.entrypoint)?;
    put_list(alloc, members, "Cmd", &config.cmd)?;
    Ok(())
}

/// Adds StopSignal, Labels and ExposedPorts, as far as they are set.
fn put_middle(
    alloc: Global,
    members: &mut Map<String, Value>,
    config: &Config,
) -> Result<(), Memory>
    ensures { OnOk result (members_view members.new.entries ≡ put_middle config.now (members_view members.old.entries)) }
{
    put_text(alloc, members, "StopSignal", &config.stop_signal)?;
    put_labels(alloc, members, &config.labels)?;
    put_names(alloc, members, "ExposedPorts", &config.exposed_ports)?;
    Ok(())
}

/// Adds WorkingDir, Volumes and User, as far as they are set.
fn put_last(alloc: Global, members: &mut Map<String, Value>, config: &Config) -> Result<(), Memory>
    ensures { OnOk result (members_view members.new.entries ≡ put_last config.now (members_view members.old.entries)) }
{
    put_dir(alloc, members, &config.working_dir)?;
    put_names(alloc, members, "Volumes", &config.volumes)?;
    put_text(alloc, members, "User", &config.user)?;
    Ok(())
}

/// Adds the fields that are set.
fn put_settings(
    alloc: Global,
    members: &mut Map<String, Value>,
    config: &Config,
) -> Result<(), Memory>
    ensures { OnOk result (members_view members.new.entries ≡ put_settings config.now (members_view members.old.entries)) }
{
    put_last(alloc, members, config)?;
    put_middle(alloc, members, config)?;
    put_first(alloc, members, config)?;
    Ok(())
}

/// `config`: the fields that are set.
#[tactic(auto, unfolding(crate::specs::Writing::settings_data))]
fn settings_value(alloc: Global, config: &Config) -> Result<Value, Memory>
    ensures { IfOk result (λ v. view v ≡ settings_data config.now) }
{
    let mut members = Map::new(alloc);
    put_settings(alloc, &mut members, config)?;
    Ok(Value::Object(members))
}

/// Adds what `rootfs` has, without layers.
fn put_rootfs(alloc: Global, members: &mut Map<String, Value>) -> Result<(), Memory>
    ensures { OnOk result (members_view members.new.entries ≡ put_rootfs (members_view members.old.entries)) }
{
    put(alloc, members, "diff_ids", Value::Array(Vec::new(alloc)))?;
    put(
        alloc,
        members,
        "type",
        Value::String(String::from_str(alloc, "layers")?),
    )?;
    Ok(())
}

/// `rootfs`, without layers.
fn rootfs_value(alloc: Global) -> Result<Value, Memory>
    ensures { IfOk result (λ v. view v ≡ rootfs_data) }
{
    let mut members = Map::new(alloc);
    put_rootfs(alloc, &mut members)?;
    Ok(Value::Object(members))
}

/// Adds what a configuration has.
fn put_config(
    alloc: Global,
    members: &mut Map<String, Value>,
    config: &Config,
) -> Result<(), Memory>
    ensures { OnOk result (members_view members.new.entries ≡ put_config config.now (members_view members.old.entries)) }
{
    put(
        alloc,
        members,
        "architecture",
        config.architecture.to_json(alloc)?,
    )?;
    put(alloc, members, "config", settings_value(alloc, config)?)?;
    put(alloc, members, "os", config.os.to_json(alloc)?)?;
    put(alloc, members, "rootfs", rootfs_value(alloc)?)?;
    Ok(())
}

/// The configuration as JSON.
#[tactic(auto, unfolding(crate::specs::Writing::config_data))]
pub(crate) fn config_value(alloc: Global, config: &Config) -> Result<Value, Memory>
    ensures { IfOk result (λ v. view v ≡ config_data config.now) }
{
    let mut members = Map::new(alloc);
    put_config(alloc, &mut members, config)?;
    Ok(Value::Object(members))
}
