ghost use Rattle.std.specs.Prelude.{◌≡◌, IfOk, OnOk, OnErr, false};
ghost use Rattle.serde_json.specs.View.{view};
ghost use Rattle.serde_json.specs.Written.{has_float};
ghost use Rattle.scopes.specs.Scope.{value_in};
ghost use Rattle.strict.specs.Gives.{Gives};
ghost use Rattle.imageconfig.specs.Reading.{plain, config_in};
ghost use Rattle.imageconfig.specs.Writing.{config_data};
ghost use Rattle.imageconfig.specs.Steps.{dir_of, child_of, with_variables, IsApplied};

use crate::changing::change;
use crate::environment::Environment;
use crate::fields::bare;
use crate::names::Names;
use crate::reading::read_config;
use crate::rows::Rows;
use crate::writing::config_value;
use borrowed::FromLentKeyed;
use expand::{Rejection, RejectionFault};
use instructions::Instruction;
use json::Value as Lent;
use paths::Path;
use plain::{Exact, Fault, Items, Memory, Text, Variable};
use scopes::Scope;
use serde_json::Value;
use std::alloc::Global;
use std::hash::RandomState;
use strict::ReadFault;

/// The configuration of an image, or of a stage at a line. A list, an object or a text that is empty isn't set: no rule tells the two apart.
#[derive(Drop)]
pub struct Config {
    pub architecture: Text,
    pub os: Text,
    pub env: Environment,
    pub user: Text,
    pub stop_signal: Text,
    /// `None` where it isn't set; `/` is set, and is written.
    pub working_dir: Option<Path>,
    pub cmd: Items<Text>,
    /// Whether the Cmd was set by the stage itself, and not by its base.
    pub cmd_is_own: bool,
    pub entrypoint: Items<Text>,
    pub labels: Rows,
    pub exposed_ports: Names,
    pub volumes: Names,
    /// The words before a shell form's text. They are never written.
    pub shell: Items<Text>,
}

impl Config {
    /// The configuration that a stage from `scratch` begins with: `amd64` and `linux`, and nothing set. Its names are
    /// found by a hash with these keys.
    pub fn plain(alloc: Global, keys: RandomState) -> Result<Config, Memory>
        ensures { IfOk result (λ config. config ≡ plain) }
    {
        let architecture = Text::from_str(alloc, "amd64")?;
        let os = Text::from_str(alloc, "linux")?;
        bare(alloc, keys, architecture, os)
    }

    /// The configuration that a value is (OCI image specification). Its names are found by a hash with these keys.
    ///
    /// `NotRead` where the value is none: a key is missing that has to be there, a value has a wrong type, as a `config` that is `null` has,
    /// while a field of it that is `null` counts as absent; `rootfs` has another `type` than `layers`, or a key beside `type` and `diff_ids`; a
    /// variable has no `=`, no name, or one that is there before; a working directory that isn't the empty text isn't absolute, or breaks a limit.
    pub fn from_json(alloc: Global, keys: RandomState, value: &Value) -> Result<Config, ReadFault>
        ensures { Gives result (config_in (view value.now)) }
    {
        read_config(alloc, keys, value)
    }

    /// The configuration as JSON (OCI image specification): the fields that are set, and no layers. No number in it is a float.
    #[tactic(auto, using(crate::proofs::FloatFacts::config_is_plain))]
    pub fn to_json(&self, alloc: Global) -> Result<Value, Memory>
        ensures data { IfOk result (λ v. view v ≡ config_data self.now) }
        ensures whole { IfOk result (λ v. has_float (view v) ≡ false) }
    {
        config_value(alloc, self)
    }

    /// What a stage begins with whose base has this configuration: the base's Cmd isn't the stage's own. A base that is a stage is a base like
    /// any other: the Cmd that it set itself counts as the base's in the stage after it.
    pub fn child(&self, alloc: Global) -> Result<Config, Memory>
        ensures { IfOk result (λ child. child ≡ child_of self.now) }
    {
        let mut child = self.copy(alloc)?;
        child.cmd_is_own = false;
        Ok(child)
    }

    /// The working directory, `/` where none is set.
    pub fn dir(&self, alloc: Global) -> Result<Path, Memory>
        ensures { IfOk result (λ dir. dir ≡ dir_of self.now.working_dir) }
    {
        match &self.working_dir {
            Some(path) => path.copy(alloc),
            None => Ok(Path::root(alloc)),
        }
    }

    /// Gives variables of the environment their values, as `Environment::set_variables`.
    pub(crate) fn set_variables(
        &mut self,
        alloc: Global,
        variables: &[Variable],
    ) -> Result<(), Memory>
        ensures ok { OnOk result (self.new ≡ with_variables self.old variables.now) }
        ensures err { OnErr result (self.new ≡ self.old) }
    {
        self.env.set_variables(alloc, variables)
    }

    /// Applies an instruction, whose words have their values under the scope before its line. FROM, ARG, RUN and COPY change nothing.
    ///
    /// ENTRYPOINT unsets a Cmd that came from the base, and keeps one that the stage set itself. An empty list unsets: `CMD []` leaves no Cmd,
    /// and `ENTRYPOINT []` no Entrypoint. The texts of VOLUME are keys as they stand once expanded: none is cleaned as a path.
    ///
    /// The least of these is reported, with the instruction's line. R06: a USER, a WORKDIR, a STOPSIGNAL or a VOLUME has an empty text. R10: a
    /// label has an empty key. R16: an EXPOSE has what is no port. R18: a text has more than 1,048,576 bytes, or a WORKDIR leads past a limit
    /// of paths. R21: a variable that is required doesn't pass its test; of several such texts the first in reading order gives the text. A
    /// text that has no value gets no other test. After a fault the configuration is as it was.
    pub fn apply(
        &mut self,
        alloc: Global,
        instruction: &Instruction,
        before: &Scope,
    ) -> Result<(), RejectionFault>
        ensures { IsApplied self.old (value_in before.now) instruction.now self.new result }
    {
        match change(alloc, self, instruction.kind(), before) {
            Ok(()) => Ok(()),
            Err(Fault::Because(reason)) => Err(Fault::Because(Rejection {
                reason,
                line: instruction.line(),
            })),
            Err(Fault::Memory) => Err(Fault::Memory),
        }
    }
}

impl FromLentKeyed for Config {
    ghost reading = { config_in };

    /// The configuration that a lent value is, as `Config::from_json`: a bundle's texts needn't be copied to be read.
    fn from_lent_keyed(
        alloc: Global,
        keys: RandomState,
        value: &Lent<'_>,
    ) -> Result<Config, ReadFault> {
        read_config(alloc, keys, value)
    }
}
