ghost use Rattle.std.specs.Prelude.{◌≡◌, IfOk, OnOk, OnErr};
ghost use Rattle.scopes.specs.Scope.{value_in};
ghost use Rattle.imageconfig.specs.Steps.{child_of, with_variables, IsApplied};

use crate::config::Config;
use borrowed::FromLentKeyed;
use expand::RejectionFault;
use instructions::Instruction;
use json::Value as Lent;
use plain::{Exact, Memory, Variable};
use scopes::Scope;
use std::alloc::Global;
use std::hash::RandomState;
use std::marker::Model;
use strict::ReadFault;

/// A configuration in memory of its own, which contracts see as the configuration. It has a dozen fields, and most of thousands of images
/// have the same few: what holds a configuration so is small, and is moved at little cost.
#[derive(Drop)]
pub struct BoxedConfig {
    inner: Box<Config>,
}

impl Model for BoxedConfig {
    ghost use Rattle.imageconfig.specs.declared.config.Config.{Config};

    ghost Value = { Config };

    ghost view = { λ b. b.inner.value };
}

impl BoxedConfig {
    /// A configuration, put into memory of its own.
    pub fn new(alloc: Global, config: Config) -> Result<BoxedConfig, Memory>
        ensures { IfOk result (λ boxed. boxed ≡ config) }
    {
        let inner = Box::new(alloc, config)?;
        Ok(BoxedConfig { inner })
    }

    /// The configuration, lent.
    pub fn get(&self) -> &Config
        ensures { result.now ≡ self.now }
    {
        &self.inner
    }

    /// The configuration, taken out. It takes no memory.
    pub fn into_config(self) -> Config
        ensures { result ≡ self }
    {
        let BoxedConfig { inner } = self;
        Box::into_inner(inner)
    }

    /// What a stage begins with whose base has this configuration, as `Config::child`.
    pub fn child(&self, alloc: Global) -> Result<BoxedConfig, Memory>
        ensures { IfOk result (λ child. child ≡ child_of self.now) }
    {
        BoxedConfig::new(alloc, self.inner.child(alloc)?)
    }

    /// The same where the base's configuration is handed over, and not copied. It takes no memory.
    pub fn into_child(self) -> BoxedConfig
        ensures { result ≡ child_of self }
    {
        let BoxedConfig { inner } = self;
        let mut inner = inner;
        inner.cmd_is_own = false;
        BoxedConfig { inner }
    }

    /// Gives variables of the environment their values, as `Environment::set_variables`.
    pub fn set_variables(&mut self, alloc: Global, variables: &[Variable]) -> Result<(), Memory>
        ensures ok { OnOk result (self.new ≡ with_variables self.old variables.now) }
        ensures err { OnErr result (self.new ≡ self.old) }
    {
        self.inner.set_variables(alloc, variables)
    }

    /// Applies an instruction, as `Config::apply`.
    pub fn apply(
        &mut self,
        alloc: Global,
        instruction: &Instruction,
        before: &Scope,
    ) -> Result<(), RejectionFault>
        ensures { IsApplied self.old (value_in before.now) instruction.now self.new result }
    {
        self.inner.apply(alloc, instruction, before)
    }
}

impl Exact for BoxedConfig {
    fn same(&self, other: &BoxedConfig) -> bool {
        self.get().same(other.get())
    }

    fn copy(&self, alloc: Global) -> Result<BoxedConfig, Memory> {
        BoxedConfig::new(alloc, self.get().copy(alloc)?)
    }
}

impl FromLentKeyed for BoxedConfig {
    ghost use Rattle.imageconfig.specs.Reading.{config_in};

    ghost reading = { config_in };

    /// The configuration that a value is, as `Config::from_lent_keyed`.
    fn from_lent_keyed(
        alloc: Global,
        keys: RandomState,
        value: &Lent<'_>,
    ) -> Result<BoxedConfig, ReadFault> {
        let config = Config::from_lent_keyed(alloc, keys, value)?;
        Ok(BoxedConfig::new(alloc, config)?)
    }
}
