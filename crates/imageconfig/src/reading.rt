ghost use Rattle.std.specs.Prelude.{◌≡◌, [], Some, None, map, option_map, codes, IfOk};
ghost use Rattle.std.specs.Option.{option_and_then};
ghost use Rattle.serde_json.specs.Find.{get, as_str};
ghost use Rattle.options.specs.Lists.{all_some};
ghost use Rattle.paths.specs.Reading.{is_absolute};
ghost use Rattle.strict.specs.Gives.{Gives};
ghost use Rattle.strict.specs.Strict.{all_in, list_in};
ghost use Rattle.serde_json.specs.View.{items_of};
ghost use Rattle.imageconfig.specs.Reading.{set_at, field, cut_row, env_in, names_in, labels_in, dir_of_text, dir_in, lists_in, objects_in, texts_in, groups_in, joined, fields_in, settings_in, rootfs_in, config_in};
ghost use Rattle.imageconfig.specs.Rows.{add_names};

use crate::config::Config;
use crate::environment::Environment;
use crate::fields::{Basics, Lists, Objects, Texts, bare, default_shell, put_together};
use crate::looked::Looked;
use crate::names::Names;
use crate::rows::Rows;
use paths::Path;
use plain::{Fault, Items, Memory, Text};
use std::alloc::Global;
use std::hash::RandomState;
use strict::{NotRead, ReadFault};

/// What stands at a key; `null` is as absent.
fn set_at<'v, J: Looked>(value: &'v J, key: &str) -> Option<&'v J>
    ensures { option_map (λ v. J.meaning v.now) result ≡ set_at key.now (J.meaning value.now) }
{
    match value.at(key) {
        Some(value) => { if value.is_null() { None } else { Some(value) } }
        None => None,
    }
}

/// A text.
fn text_in<J: Looked>(alloc: Global, value: &J) -> Result<Text, ReadFault>
    ensures { Gives result (as_str (J.meaning value.now)) }
{
    let Some(text) = value.text() else {
        return Err(Fault::Because(NotRead));
    };
    Ok(Text::from_str(alloc, text)?)
}

/// A text that stands at a key and has to be there.
fn one_text_at<J: Looked>(alloc: Global, value: &J, key: &str) -> Result<Text, ReadFault>
    ensures { Gives result (option_and_then as_str (get key.now (J.meaning value.now))) }
{
    match value.at(key) {
        Some(value) => text_in(alloc, value),
        None => Err(Fault::Because(NotRead)),
    }
}

/// A text, whose copies share its bytes.
fn shared_text<J: Looked>(alloc: Global, value: &J) -> Result<Text, ReadFault>
    ensures { Gives result (as_str (J.meaning value.now)) }
{
    let text = text_in(alloc, value)?;
    Ok(text.shared(alloc)?)
}

/// The same rows, with values whose copies share their bytes.
fn shared_rows(alloc: Global, rows: Items<(Text, Text)>) -> Result<Items<(Text, Text)>, Memory>
    ensures { IfOk result (λ shared. shared ≡ rows) }
{
    let mut shared = Items::new(alloc);
    for (name, value) in rows.into_vec() {
        shared.push((name, value.shared(alloc)?))?;
    }
    Ok(shared)
}

/// A list of texts, whose copies share their bytes.
#[tactic(auto, unfolding(strict::specs::Strict::list_in))]
fn shared_list<J: Looked>(alloc: Global, value: &J) -> Result<Items<Text>, ReadFault>
    ensures { Gives result (list_in as_str (J.meaning value.now)) }
{
    match value.list() {
        Some(values) => shared_texts(alloc, values),
        None => Err(Fault::Because(NotRead)),
    }
}

/// The texts that some values are, whose copies share their bytes.
fn shared_texts<J: Looked>(alloc: Global, values: &[J]) -> Result<Items<Text>, ReadFault>
    ensures { Gives result (all_in as_str (items_of (map J.meaning values.now))) }
{
    let mut texts = Items::new(alloc);
    for value in values {
        texts.push(shared_text(alloc, value)?)?;
    }
    Ok(texts)
}

/// A list of texts that stands at a key, empty where none does.
fn texts_at<J: Looked>(alloc: Global, value: &J, key: &str) -> Result<Items<Text>, ReadFault>
    ensures { Gives result (field [] (list_in as_str) key.now (J.meaning value.now)) }
{
    match set_at(value, key) {
        Some(value) => shared_list(alloc, value),
        None => Ok(Items::new(alloc)),
    }
}

/// A text that stands at a key, empty where none does.
fn text_at<J: Looked>(alloc: Global, value: &J, key: &str) -> Result<Text, ReadFault>
    ensures { Gives result (field [] as_str key.now (J.meaning value.now)) }
{
    match set_at(value, key) {
        Some(value) => shared_text(alloc, value),
        None => Ok(Text::from_string(String::new(alloc))),
    }
}

/// The name and the value of a text `NAME=VALUE`.
fn cut_row(alloc: Global, text: &str) -> Result<(Text, Text), ReadFault>
    ensures { Gives result (cut_row text.now) }
{
    match text.split_once('=') {
        Some((name, value)) => {
            if name.is_empty() {
                return Err(Fault::Because(NotRead));
            }
            let name = Text::from_str(alloc, name)?;
            let value = Text::from_str(alloc, value)?.shared(alloc)?;
            Ok((name, value))
        }
        None => Err(Fault::Because(NotRead)),
    }
}

/// The names and values of texts `NAME=VALUE`, in their order.
fn cut_rows(alloc: Global, texts: &[Text]) -> Result<Items<(Text, Text)>, ReadFault>
    ensures { Gives result (all_some (map cut_row texts.now)) }
{
    let mut rows = Items::new(alloc);
    for text in texts {
        rows.push(cut_row(alloc, text.as_str())?)?;
    }
    Ok(rows)
}

/// An environment: a list of texts `NAME=VALUE`, no name twice.
#[tactic(auto, unfolding(crate::specs::Reading::env_in))]
fn read_env<J: Looked>(
    alloc: Global,
    keys: RandomState,
    value: &J,
) -> Result<Environment, ReadFault>
    ensures { Gives result (env_in (J.meaning value.now)) }
{
    let texts = shared_list(alloc, value)?;
    let rows = cut_rows(alloc, texts.as_slice())?;
    Environment::once(alloc, keys, rows)
}

/// An environment that stands at a key, empty where none does.
fn env_at<J: Looked>(
    alloc: Global,
    keys: RandomState,
    value: &J,
    key: &str,
) -> Result<Environment, ReadFault>
    ensures { Gives result (field [] env_in key.now (J.meaning value.now)) }
{
    match set_at(value, key) {
        Some(value) => read_env(alloc, keys, value),
        None => Ok(Environment::new(alloc, keys)),
    }
}

/// The keys of an object, whose values are forgotten.
#[tactic(auto, unfolding(crate::specs::Reading::names_in))]
fn read_names<J: Looked>(alloc: Global, keys: RandomState, value: &J) -> Result<Names, ReadFault>
    ensures { Gives result (names_in (J.meaning value.now)) }
{
    let listed = value.keys(alloc)?;
    let mut names = Names::new(alloc, keys);
    names.add_all(alloc, listed)?;
    Ok(names)
}

/// The keys of an object that stands at a key, none where none does.
fn names_at<J: Looked>(
    alloc: Global,
    keys: RandomState,
    value: &J,
    key: &str,
) -> Result<Names, ReadFault>
    ensures { Gives result (field [] names_in key.now (J.meaning value.now)) }
{
    match set_at(value, key) {
        Some(value) => read_names(alloc, keys, value),
        None => Ok(Names::new(alloc, keys)),
    }
}

/// Labels: an object of texts.
#[tactic(auto, unfolding(crate::specs::Reading::labels_in))]
fn read_labels<J: Looked>(alloc: Global, keys: RandomState, value: &J) -> Result<Rows, ReadFault>
    ensures { Gives result (labels_in (J.meaning value.now)) }
{
    let texts = value.text_rows(alloc)?;
    let texts = shared_rows(alloc, texts)?;
    let mut rows = Rows::new(alloc, keys);
    rows.set_all(texts)?;
    Ok(rows)
}

/// Labels that stand at a key, none where none do.
fn labels_at<J: Looked>(
    alloc: Global,
    keys: RandomState,
    value: &J,
    key: &str,
) -> Result<Rows, ReadFault>
    ensures { Gives result (field [] labels_in key.now (J.meaning value.now)) }
{
    match set_at(value, key) {
        Some(value) => read_labels(alloc, keys, value),
        None => Ok(Rows::new(alloc, keys)),
    }
}

/// The working directory that a text is: none where it is empty.
fn dir_of_text(alloc: Global, text: &str) -> Result<Option<Path>, ReadFault>
    ensures { Gives result (dir_of_text text.now) }
{
    if text.is_empty() {
        return Ok(None);
    }
    if !is_absolute(text.as_bytes()) {
        return Err(Fault::Because(NotRead));
    }
    match Path::read(alloc, text, &Path::root(alloc)) {
        Ok(path) => Ok(Some(path)),
        Err(Fault::Because(_)) => Err(Fault::Because(NotRead)),
        Err(Fault::Memory) => Err(Fault::Memory),
    }
}

/// Whether a text begins with `/`.
fn is_absolute(bytes: &[u8]) -> bool
    ensures { result ≡ is_absolute bytes.now }
{
    match bytes {
        [first, ..] => *first == b'/',
        [] => false,
    }
}

/// A working directory.
#[tactic(auto, unfolding(crate::specs::Reading::dir_in))]
fn read_dir<J: Looked>(alloc: Global, value: &J) -> Result<Option<Path>, ReadFault>
    ensures { Gives result (dir_in (J.meaning value.now)) }
{
    let Some(text) = value.text() else {
        return Err(Fault::Because(NotRead));
    };
    dir_of_text(alloc, text)
}

/// A working directory that stands at a key, if one does.
fn dir_at<J: Looked>(alloc: Global, value: &J, key: &str) -> Result<Option<Path>, ReadFault>
    ensures { Gives result (field None dir_in key.now (J.meaning value.now)) }
{
    match set_at(value, key) {
        Some(value) => read_dir(alloc, value),
        None => Ok(None),
    }
}

/// The fields of `config` that are lists.
#[tactic(auto, unfolding(crate::specs::Reading::lists_in))]
fn read_lists<J: Looked>(alloc: Global, keys: RandomState, value: &J) -> Result<Lists, ReadFault>
    ensures { Gives result (lists_in (J.meaning value.now)) }
{
    let cmd = texts_at(alloc, value, "Cmd")?;
    let entrypoint = texts_at(alloc, value, "Entrypoint")?;
    let env = env_at(alloc, keys, value, "Env")?;
    Ok(Lists {
        cmd,
        entrypoint,
        env,
    })
}

/// The fields of `config` that are objects.
#[tactic(auto, unfolding(crate::specs::Reading::objects_in))]
fn read_objects<J: Looked>(
    alloc: Global,
    keys: RandomState,
    value: &J,
) -> Result<Objects, ReadFault>
    ensures { Gives result (objects_in (J.meaning value.now)) }
{
    let exposed_ports = names_at(alloc, keys, value, "ExposedPorts")?;
    match labels_at(alloc, keys, value, "Labels") {
        Ok(labels) => match names_at(alloc, keys, value, "Volumes") {
            Ok(volumes) => Ok(Objects {
                exposed_ports,
                labels,
                volumes,
            }),
            Err(fault) => {
                drop(exposed_ports);
                drop(labels);
                Err(fault)
            }
        },
        Err(fault) => {
            drop(exposed_ports);
            Err(fault)
        }
    }
}

/// The fields of `config` that are texts.
#[tactic(auto, unfolding(crate::specs::Reading::texts_in))]
fn read_texts<J: Looked>(alloc: Global, value: &J) -> Result<Texts, ReadFault>
    ensures { Gives result (texts_in (J.meaning value.now)) }
{
    let stop_signal = text_at(alloc, value, "StopSignal")?;
    let user = text_at(alloc, value, "User")?;
    let working_dir = dir_at(alloc, value, "WorkingDir")?;
    Ok(Texts {
        stop_signal,
        user,
        working_dir,
    })
}

/// The configuration of these fields.
fn joined(
    alloc: Global,
    architecture: Text,
    os: Text,
    lists: Lists,
    objects: Objects,
    texts: Texts,
) -> Result<Config, ReadFault>
    ensures { Gives result (Some (joined architecture os lists objects texts)) }
{
    match default_shell(alloc) {
        Ok(shell) => {
            let basics = Basics {
                architecture,
                os,
                shell,
            };
            Ok(put_together(basics, texts, objects, lists, false))
        }
        Err(_) => {
            drop(architecture);
            drop(os);
            drop(lists);
            drop(objects);
            drop(texts);
            Err(Fault::Memory)
        }
    }
}

/// The configuration whose `config` this is.
fn read_settings<J: Looked>(
    alloc: Global,
    keys: RandomState,
    architecture: Text,
    os: Text,
    value: &J,
) -> Result<Config, ReadFault>
    ensures { Gives result (settings_in architecture os (J.meaning value.now)) }
{
    if value.is_object() {
        return read_fields(alloc, keys, architecture, os, value);
    }
    drop(architecture);
    drop(os);
    Err(Fault::Because(NotRead))
}

/// The fields of `config`, in their groups.
#[tactic(auto, unfolding(crate::specs::Reading::groups_in))]
fn read_groups<J: Looked>(
    alloc: Global,
    keys: RandomState,
    value: &J,
) -> Result<(Lists, Objects, Texts), ReadFault>
    ensures { Gives result (groups_in (J.meaning value.now)) }
{
    let lists = read_lists(alloc, keys, value)?;
    match read_objects(alloc, keys, value) {
        Ok(objects) => match read_texts(alloc, value) {
            Ok(texts) => Ok((lists, objects, texts)),
            Err(fault) => {
                drop(lists);
                drop(objects);
                Err(fault)
            }
        },
        Err(fault) => {
            drop(lists);
            Err(fault)
        }
    }
}

/// The configuration whose fields are read.
#[tactic(auto, unfolding(crate::specs::Reading::fields_in))]
fn read_fields<J: Looked>(
    alloc: Global,
    keys: RandomState,
    architecture: Text,
    os: Text,
    value: &J,
) -> Result<Config, ReadFault>
    ensures { Gives result (fields_in architecture os (J.meaning value.now)) }
{
    match read_groups(alloc, keys, value) {
        Ok((lists, objects, texts)) => joined(alloc, architecture, os, lists, objects, texts),
        Err(fault) => {
            drop(architecture);
            drop(os);
            Err(fault)
        }
    }
}

/// The layers of `rootfs`, which are then forgotten.
#[tactic(auto, unfolding(crate::specs::Reading::rootfs_in))]
fn read_rootfs<J: Looked>(alloc: Global, value: &J) -> Result<Items<Text>, ReadFault>
    ensures { Gives result (rootfs_in (J.meaning value.now)) }
{
    if !value.is_strict(&["diff_ids", "type"]) {
        return Err(Fault::Because(NotRead));
    }
    let kind = one_text_at(alloc, value, "type")?;
    if kind.as_str() == "layers" {
        match value.at("diff_ids") {
            Some(value) => shared_list(alloc, value),
            None => Err(Fault::Because(NotRead)),
        }
    } else {
        Err(Fault::Because(NotRead))
    }
}

/// The layers of the `rootfs` of a configuration.
fn rootfs_at<J: Looked>(alloc: Global, value: &J) -> Result<Items<Text>, ReadFault>
    ensures { Gives result (option_and_then rootfs_in (get (codes "rootfs") (J.meaning value.now))) }
{
    match value.at("rootfs") {
        Some(value) => read_rootfs(alloc, value),
        None => Err(Fault::Because(NotRead)),
    }
}

/// The configuration that a value is.
#[tactic(auto, unfolding(crate::specs::Reading::config_in))]
pub(crate) fn read_config<J: Looked>(
    alloc: Global,
    keys: RandomState,
    value: &J,
) -> Result<Config, ReadFault>
    ensures { Gives result (config_in (J.meaning value.now)) }
{
    let architecture = one_text_at(alloc, value, "architecture")?;
    let os = one_text_at(alloc, value, "os")?;
    let _layers = rootfs_at(alloc, value)?;
    match value.at("config") {
        Some(settings) => read_settings(alloc, keys, architecture, os, settings),
        None => Ok(bare(alloc, keys, architecture, os)?),
    }
}
