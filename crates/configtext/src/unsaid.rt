ghost use Rattle.std.specs.Prelude.{◌≡◌, IfOk, false};
ghost use Rattle.counted.specs.Gathering.{sink, Says, HasRoom};
ghost use Rattle.serde_json.specs.Written.{compact_text};
ghost use Rattle.imageconfig.specs.Writing.{settings_data, config_data};
ghost use Rattle.configtext.specs.PrivateFields.{dir_text, first_fields, middle_fields, last_fields, said_fields, later_after};

use crate::fields::{put_labels, put_list, put_ready, put_string, put_variables};
use crate::labels::sort_labels;
use counted::{CountedWrite, Gathered, gather};
use imageconfig::Config;
use paths::Path;
use plain::{Memory, Text};
use quoted::put_quoted;
use std::alloc::Global;
use std::collections::BTreeMap;
use std::marker::Model;

/// A configuration that is to be said, with all memory that is needed for that. Contracts see the configuration.
#[derive(Drop)]
pub struct UnsaidConfig<'a> {
    config: &'a Config,
    /// The exposed ports as JSON.
    ports: String,
    /// The volumes as JSON.
    volumes: String,
    /// The working directory as a text, empty where none is set.
    working_dir: Text,
    /// The labels in the order in which they are said.
    labels: BTreeMap<&'a str, &'a str>,
}

impl<'a> Model for UnsaidConfig<'a> {
    ghost use Rattle.std.specs.Prelude.{◌≡◌};
    ghost use Rattle.std.specs.String.{string_bytes};
    ghost use Rattle.serde_json.specs.Data.{no_members};
    ghost use Rattle.serde_json.specs.Written.{compact_text};
    ghost use Rattle.imageconfig.specs.declared.config.Config.{Config};
    ghost use Rattle.imageconfig.specs.Writing.{names_data, put_texts_of};
    ghost use Rattle.configtext.specs.PrivateFields.{dir_text};
    ghost use Rattle.configtext.specs.PrivateLabels.{label_members};

    ghost Value = { Config };

    ghost view = { λ u. u.config.now };

    ghost invariant = { λ u.
        (string_bytes u.ports ≡ compact_text (names_data u.config.now.exposed_ports))
        × (string_bytes u.volumes ≡ compact_text (names_data u.config.now.volumes))
        × (u.working_dir ≡ dir_text u.config.now.working_dir)
        × (label_members u.labels.entries ≡ put_texts_of u.config.now.labels no_members) };
}

impl<'a> UnsaidConfig<'a> {
    /// A configuration of which nothing was said yet.
    pub fn of(alloc: Global, config: &'a Config) -> Result<UnsaidConfig<'a>, Memory>
        ensures { IfOk result (λ unsaid. unsaid ≡ config.now) }
    {
        let ports = config.exposed_ports.to_text(alloc)?;
        let volumes = config.volumes.to_text(alloc)?;
        let working_dir = text_of_dir(alloc, &config.working_dir)?;
        let labels = sort_labels(alloc, &config.labels)?;
        Ok(UnsaidConfig {
            config,
            ports,
            volumes,
            working_dir,
            labels,
        })
    }
}

/// A working directory as a text, which is empty where none is set.
fn text_of_dir(alloc: Global, dir: &Option<Path>) -> Result<Text, Memory>
    ensures { IfOk result (λ text. text ≡ dir_text dir.now) }
{
    match dir {
        Some(path) => path.text(alloc),
        None => Text::from_str(alloc, ""),
    }
}

/// Says a configuration as compact JSON: the text of what `Config::to_json` gives, though neither that value nor its text is made. It takes no
/// memory, and after a failed write nothing more is written.
pub fn put_config<W: CountedWrite>(
    output: &mut W,
    gathered: &mut Gathered,
    unsaid: &UnsaidConfig<'_>,
)
    requires room { HasRoom (W.failures output.old) gathered.old }
    ensures says { Says
        (sink (W.contents output.old) (W.failures output.old) gathered.old)
        (sink (W.contents output.new) (W.failures output.new) gathered.new)
        (compact_text (config_data unsaid.now)) }
    ensures room { HasRoom (W.failures output.new) gathered.new }
{
    gather(output, gathered, b"{\"architecture\":");
    put_quoted(
        output,
        gathered,
        unsaid.config.architecture.as_str().as_bytes(),
    );
    gather(output, gathered, b",\"config\":");
    put_settings(output, gathered, unsaid);
    gather(output, gathered, b",\"os\":");
    put_quoted(output, gathered, unsaid.config.os.as_str().as_bytes());
    gather(
        output,
        gathered,
        b",\"rootfs\":{\"diff_ids\":[],\"type\":\"layers\"}}",
    );
}

/// Says the fields that are set, as an object.
fn put_settings<W: CountedWrite>(output: &mut W, gathered: &mut Gathered, unsaid: &UnsaidConfig<'_>)
    requires room { HasRoom (W.failures output.old) gathered.old }
    ensures says { Says
        (sink (W.contents output.old) (W.failures output.old) gathered.old)
        (sink (W.contents output.new) (W.failures output.new) gathered.new)
        (compact_text (settings_data unsaid.now)) }
    ensures room { HasRoom (W.failures output.new) gathered.new }
{
    gather(output, gathered, b"{");
    let later = put_first(output, gathered, unsaid.config);
    let later = put_middle(output, gathered, later, unsaid);
    put_last(output, gathered, later, unsaid);
    gather(output, gathered, b"}");
}

/// Says Cmd, Entrypoint and Env, as far as they are set, and tells whether one is.
fn put_first<W: CountedWrite>(output: &mut W, gathered: &mut Gathered, config: &Config) -> bool
    requires room { HasRoom (W.failures output.old) gathered.old }
    ensures says { Says
        (sink (W.contents output.old) (W.failures output.old) gathered.old)
        (sink (W.contents output.new) (W.failures output.new) gathered.new)
        (said_fields false (first_fields config.now)) }
    ensures later { result ≡ later_after false (first_fields config.now) }
    ensures room { HasRoom (W.failures output.new) gathered.new }
{
    let later = put_list(output, gathered, false, "Cmd", config.cmd.as_slice());
    let later = put_list(
        output,
        gathered,
        later,
        "Entrypoint",
        config.entrypoint.as_slice(),
    );
    put_variables(output, gathered, later, "Env", &config.env)
}

/// Says ExposedPorts, Labels and StopSignal, as far as they are set, and tells whether a field has been said by now.
fn put_middle<W: CountedWrite>(
    output: &mut W,
    gathered: &mut Gathered,
    later: bool,
    unsaid: &UnsaidConfig<'_>,
) -> bool
    requires room { HasRoom (W.failures output.old) gathered.old }
    ensures says { Says
        (sink (W.contents output.old) (W.failures output.old) gathered.old)
        (sink (W.contents output.new) (W.failures output.new) gathered.new)
        (said_fields later (middle_fields unsaid.now)) }
    ensures later { result ≡ later_after later (middle_fields unsaid.now) }
    ensures room { HasRoom (W.failures output.new) gathered.new }
{
    let config = unsaid.config;
    let has_ports = !config.exposed_ports.is_empty();
    let later = put_ready(
        output,
        gathered,
        later,
        "ExposedPorts",
        has_ports,
        unsaid.ports.as_str(),
    );
    let has_labels = !config.labels.is_empty();
    let later = put_labels(
        output,
        gathered,
        later,
        "Labels",
        has_labels,
        &unsaid.labels,
    );
    put_string(output, gathered, later, "StopSignal", &config.stop_signal)
}

/// Says User, Volumes and WorkingDir, as far as they are set.
fn put_last<W: CountedWrite>(
    output: &mut W,
    gathered: &mut Gathered,
    later: bool,
    unsaid: &UnsaidConfig<'_>,
)
    requires room { HasRoom (W.failures output.old) gathered.old }
    ensures says { Says
        (sink (W.contents output.old) (W.failures output.old) gathered.old)
        (sink (W.contents output.new) (W.failures output.new) gathered.new)
        (said_fields later (last_fields unsaid.now)) }
    ensures room { HasRoom (W.failures output.new) gathered.new }
{
    let config = unsaid.config;
    let later = put_string(output, gathered, later, "User", &config.user);
    let has_volumes = !config.volumes.is_empty();
    let later = put_ready(
        output,
        gathered,
        later,
        "Volumes",
        has_volumes,
        unsaid.volumes.as_str(),
    );
    put_string(output, gathered, later, "WorkingDir", &unsaid.working_dir);
}
