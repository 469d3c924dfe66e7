ghost use Rattle.std.specs.Prelude.{◌≡◌, ◌==◌, [], length, map, true, IfOk, OnOk, OnErr};
ghost use Rattle.std.specs.List.{list_all};
ghost use Rattle.plain.specs.Variable.{names_of as variable_names};
ghost use Rattle.plain.specs.VariableName.{is_variable_name};
ghost use Rattle.scopes.specs.Scope.{names_differ};
ghost use Rattle.serde_json.specs.View.{view};
ghost use Rattle.strict.specs.Gives.{Gives};
ghost use Rattle.strict.specs.Written.{list_data};
ghost use Rattle.imageconfig.specs.Environment.{IsEnvironment, row_of, variables_of};
ghost use Rattle.imageconfig.specs.Reading.{if_they_differ};
ghost use Rattle.imageconfig.specs.Rows.{names_of, put_rows};
ghost use Rattle.imageconfig.specs.Writing.{variable_data};

use crate::rows::{Rows, variable_rows};
use indexmap::map::Slice;
use plain::{Exact, Items, Memory, Text, Variable};
use serde_json::Value;
use std::alloc::Global;
use std::hash::RandomState;
use std::marker::Model;
use strict::ReadFault;

/// The variables of an image's environment, in the order in which their names came first. Each name is one that an operating system takes:
/// it isn't empty and holds no `=`. No two are the same.
#[derive(Drop)]
pub struct Environment {
    rows: Rows,
}

impl Model for Environment {
    ghost use Rattle.std.specs.Prelude.{List, ℕ};
    ghost use Rattle.std.specs.Coded.{coded_list, coded_ℕ, coded×};
    ghost use Rattle.imageconfig.specs.Environment.{IsEnvironment};

    ghost Value = { List (List ℕ × List ℕ) };

    ghost coded = { coded_list (coded× (coded_list coded_ℕ) (coded_list coded_ℕ)) };

    ghost view = { λ e. e.rows };

    ghost invariant = { λ e. IsEnvironment e.rows };
}

impl Environment {
    /// The empty environment, whose names are found by a hash with these keys. It takes no memory.
    pub fn new(alloc: Global, keys: RandomState) -> Environment
        ensures { result ≡ [] }
    {
        Environment {
            rows: Rows::new(alloc, keys),
        }
    }

    /// What the type keeps of the names. It does nothing at run time.
    pub fn keeps_names(&self)
        ensures { IsEnvironment self.now }
    {
        let _rows = &self.rows;
    }

    /// The variables in their order.
    #[tactic(auto, using(crate::proofs::NameFacts::variables_names))]
    pub fn variables(&self, alloc: Global) -> Result<Items<Variable>, Memory>
        ensures variables { IfOk result (λ variables. variables ≡ variables_of self.now) }
        ensures names { IsEnvironment self.now }
        ensures differ { IfOk result (λ variables. names_differ (variable_names variables) ≡ true) }
    {
        self.rows.variables(alloc)
    }

    /// The variables as rows, lent.
    pub fn as_slice(&self) -> Slice<'_, Text, Text>
        ensures { result ≡ self.now }
    {
        self.rows.as_slice()
    }

    /// Gives variables their values, each in the place that its name has, or at the end where it has none. The values share the bytes of
    /// those that are shared. After `Memory` the environment is as it was.
    pub fn set_variables(&mut self, alloc: Global, variables: &[Variable]) -> Result<(), Memory>
        ensures ok { OnOk result (self.new ≡ put_rows self.old (map row_of variables.now)) }
        ensures err { OnErr result (self.new ≡ self.old) }
    {
        let rows = variable_rows(alloc, variables)?;
        self.rows.set_all(rows)
    }

    /// Whether there is no variable.
    pub fn is_empty(&self) -> bool
        ensures { result ≡ (length self.now == 0) }
    {
        self.rows.is_empty()
    }

    /// The environment of these rows, of which none may have another one's name. `NotRead` where two have the same.
    pub(crate) fn once(
        alloc: Global,
        keys: RandomState,
        rows: Items<(Text, Text)>,
    ) -> Result<Environment, ReadFault>
        requires { list_all is_variable_name (names_of rows) ≡ true }
        ensures { Gives result (if_they_differ rows) }
    {
        let rows = Rows::once(alloc, keys, rows)?;
        Ok(Environment { rows })
    }

    /// The variables as a list of texts `NAME=VALUE`.
    pub(crate) fn to_json(&self, alloc: Global) -> Result<Value, Memory>
        ensures { IfOk result (λ v. view v ≡ list_data variable_data self.now) }
    {
        self.rows.to_list(alloc)
    }
}

impl Exact for Environment {
    fn same(&self, other: &Environment) -> bool {
        self.rows.same(&other.rows)
    }

    fn copy(&self, alloc: Global) -> Result<Environment, Memory> {
        let rows = self.rows.copy(alloc)?;
        Ok(Environment { rows })
    }
}
