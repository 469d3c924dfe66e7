ghost use Rattle.std.specs.Prelude.{◌≡◌, [], ◌++◌, map, option_map, OnOk, OnErr, IfOk};
ghost use Rattle.std.specs.FinMap.{get as arg_value};
ghost use Rattle.scopes.specs.Scope.{value_in, kept, run_env, HaveNames};
ghost use Rattle.scopes.specs.PrivateMaps.{env_row_of, arg_row_of};
ghost use Rattle.scopes.specs.Evaluate.{declaration_of, env_variables, env_fault, env_line, arg_line, arg_fault, Says, Declares};

use crate::args::Args;
use crate::evaluate::{argument_rows, assigned_variables, variable_rows};
use crate::maps::{push_arguments, push_variables, valued};
use expand::{ExpandFault, Lookup};
use instructions::{Argument, Assignment};
use named::NamedRows;
use plain::{Exact, Items, Memory, Text, Variable, Variables};
use std::alloc::Global;
use std::hash::RandomState;
use std::marker::Model;

/// What names have values by the ENV and ARG lines so far.
///
/// Contracts see a list of declarations that means the same: an ENV for each name that one has set, in the order in which these
/// names came first, then an ARG for each name that one has declared, in the order in which these were first declared. All names are names
/// of variables.
#[derive(Drop)]
pub struct Scope {
    variables: NamedRows<Text>,
    arguments: NamedRows<Option<Text>>,
    // what RUN's environment is, from when it is asked for until something is declared: the commands between have one, and share it
    env: Option<Variables>,
}

impl Model for Scope {
    ghost use Rattle.std.specs.Prelude.{◌≡◌, List};
    ghost use Rattle.scopes.specs.declared.declaration.Declaration.{Declaration};

    ghost Value = { List Declaration };

    ghost use Rattle.scopes.specs.Scope.{kept, value_in, HaveNames};
    ghost use Rattle.scopes.specs.PrivateMaps.{declared, IsEnvironmentOf};

    ghost view = { λ s. declared s.variables s.arguments };

    ghost invariant = { λ s. (kept (declared s.variables s.arguments) ≡ declared s.variables s.arguments) × IsEnvironmentOf (declared s.variables s.arguments) s.env × HaveNames (declared s.variables s.arguments) };
}

impl Scope {
    /// The scope before any ENV or ARG, whose names are found by a hash with these keys. It takes no memory.
    pub fn new(alloc: Global, keys: RandomState) -> Scope
        ensures { result ≡ [] }
    {
        Scope {
            variables: NamedRows::new(alloc, keys),
            arguments: NamedRows::new(alloc, keys),
            env: None,
        }
    }

    /// Adds an ARG line: each name is declared, and has the build argument of its name, else the value of its default, else,
    /// where it has no default, the value that it has in `outer`, the scope before the first FROM (Dockerfile reference, ARG).
    /// One that has no value by this leaves the name as it was (own).
    ///
    /// `TooLong` where a default whose name has no build argument can't be expanded for that reason; else `Required` with the
    /// first text that such a default is refused with. After a fault the scope is as it was. For a line before the first FROM,
    /// `outer` is the empty scope.
    pub fn declare(
        &mut self,
        alloc: Global,
        arguments: &[Argument],
        args: &Args,
        outer: &Scope,
    ) -> Result<(), ExpandFault>
        ensures { Declares self.old (arg_line (value_in self.old) (arg_value args.now) (value_in outer.now) arguments.now) (arg_fault (value_in self.old) (arg_value args.now) arguments.now) self.new result }
    {
        let rows = argument_rows(alloc, arguments, self, args, outer)?;
        self.give(rows)?;
        Ok(())
    }

    /// What an ENV line sets: each variable with the value of its word under this scope, the one before the line (Dockerfile
    /// reference, environment replacement). The line is added by `set_variables`, and whoever else takes what it sets needn't expand
    /// its words again. The copies of a value share its bytes.
    ///
    /// `TooLong` where a value can't be expanded for that reason; else `Required` with the first text that one is refused with.
    pub fn variables(
        &self,
        alloc: Global,
        assignments: &[Assignment],
    ) -> Result<Items<Variable>, ExpandFault>
        ensures { Says (env_variables (value_in self.now) assignments.now) (env_fault (value_in self.now) assignments.now) result }
    {
        assigned_variables(alloc, assignments, self)
    }

    /// Adds variables, each as an ENV of its name: those that an ENV line sets, or those of a base image, whose values are taken as
    /// they stand. The values share the bytes of those that are shared. After `Memory` the scope is as it was.
    pub fn set_variables(&mut self, alloc: Global, variables: &[Variable]) -> Result<(), Memory>
        ensures ok { OnOk result (self.new ≡ kept (self.old ++ map declaration_of variables.now)) }
        ensures err { OnErr result (self.new ≡ self.old) }
    {
        let rows = variable_rows(alloc, variables)?;
        self.set(rows)
    }

    /// Adds an ENV line: each variable has the value of its word under this scope, the one before the line (Dockerfile reference, environment
    /// replacement). After a fault the scope is as it was.
    pub fn set_env(&mut self, alloc: Global, assignments: &[Assignment]) -> Result<(), ExpandFault>
        ensures { Declares self.old (env_line (value_in self.old) assignments.now) (env_fault (value_in self.old) assignments.now) self.new result }
    {
        let variables = self.variables(alloc, assignments)?;
        self.set_variables(alloc, variables.as_slice())?;
        Ok(())
    }

    /// Adds an ENV for each row. After `Memory` the scope is as it was.
    fn set(&mut self, rows: Items<(Text, Text)>) -> Result<(), Memory>
        requires { HaveNames (map env_row_of rows) }
        ensures ok { OnOk result (self.new ≡ kept (self.old ++ map env_row_of rows)) }
        ensures err { OnErr result (self.new ≡ self.old) }
    {
        drop(self.env.take());
        self.variables.set_all(rows)
    }

    /// Adds an ARG for each row. After `Memory` the scope is as it was.
    fn give(&mut self, rows: Items<(Text, Option<Text>)>) -> Result<(), Memory>
        requires { HaveNames (map arg_row_of rows) }
        ensures ok { OnOk result (self.new ≡ kept (self.old ++ map arg_row_of rows)) }
        ensures err { OnErr result (self.new ≡ self.old) }
    {
        drop(self.env.take());
        self.arguments.give_all(rows)
    }

    /// The value of a name: that of its last ENV, else of the last ARG that gives it one; none where it is unset.
    pub fn get(&self, name: &Text) -> Option<&Text>
        ensures { option_map (λ text. text.now) result ≡ value_in self.now name.now }
    {
        match self.variables.get(name) {
            Some(value) => Some(value),
            None => self.arguments.get(name)?.as_ref(),
        }
    }

    /// The environment of RUN: the names that ENVs set, in the order in which they came first, with their last values; then
    /// the names that have a value by an ARG and no ENV, in the order in which they were first declared (own). There is no
    /// `PATH` among them unless one was set (own). It is shared with the scope if [`keep_env`](Scope::keep_env) made it before.
    pub fn run_env(&self, alloc: Global) -> Result<Variables, Memory>
        ensures { IfOk result (λ env. env ≡ run_env self.now) }
    {
        match &self.env {
            Some(env) => env.copy(alloc),
            None => self.made_env(alloc),
        }
    }

    /// Makes RUN's environment and keeps it, until the next ENV or ARG: the RUNs up to there share it, as many as they are.
    pub fn keep_env(&mut self, alloc: Global) -> Result<(), Memory>
        ensures { self.new ≡ self.old }
    {
        if self.env.is_none() {
            self.env = Some(self.made_env(alloc)?);
        }
        Ok(())
    }

    /// RUN's environment, made of what is declared.
    fn made_env(&self, alloc: Global) -> Result<Variables, Memory>
        ensures { IfOk result (λ env. env ≡ run_env self.now) }
    {
        let rows = self.env_rows(alloc)?;
        Variables::of(alloc, rows.into_vec())
    }

    /// Its rows.
    fn env_rows(&self, alloc: Global) -> Result<Items<Variable>, Memory>
        ensures { IfOk result (λ rows. rows ≡ run_env self.now) }
    {
        let with_value = valued(&self.arguments);
        let most = self.variables.len().saturating_add(with_value);
        let mut rows = no_rows(alloc, most)?;
        push_variables(alloc, &mut rows, &self.variables)?;
        push_arguments(alloc, &mut rows, &self.arguments, &self.variables)?;
        Ok(rows)
    }

    /// A scope of its own with the same declarations, with which a stage from a stage begins. An environment that is kept is shared.
    pub fn copy(&self, alloc: Global) -> Result<Scope, Memory>
        ensures { IfOk result (λ copied. copied ≡ self.now) }
    {
        let variables = self.variables.copy(alloc)?;
        let arguments = self.arguments.copy(alloc)?;
        let env = self.env.copy(alloc)?;
        Ok(Scope {
            variables,
            arguments,
            env,
        })
    }
}

/// No rows yet, with room for so many.
fn no_rows(alloc: Global, most: usize) -> Result<Items<Variable>, Memory>
    ensures { IfOk result (λ rows. rows ≡ []) }
{
    let rows = Vec::with_capacity(alloc, most)?;
    Ok(Items::from_vec(rows))
}

impl Lookup for Scope {
    ghost value_of = { λ scope name. value_in scope name };

    fn find(&self, name: &Text) -> Option<&Text> {
        self.get(name)
    }
}
