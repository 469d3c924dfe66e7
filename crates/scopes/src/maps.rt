// The rows of RUN's environment that the two maps of a scope make: what ENVs set, and what ARGs declare.

ghost use Rattle.std.specs.Prelude.{◌≡◌, ◌∷◌, ◌++◌, [], map, IfOk, OnOk};
ghost use Rattle.plain.specs.VariableName.{IsVariableName};
ghost use Rattle.scopes.specs.Scope.{HaveNames};
ghost use Rattle.scopes.specs.PrivateMaps.{env_row_of, arg_row_of, variable_rows, argument_rows};

use named::NamedRows;
use plain::{Exact, Items, Memory, Text, Variable, VariableName};
use std::alloc::Global;

/// Adds a row for each ENV.
pub(crate) fn push_variables(
    alloc: Global,
    rows: &mut Items<Variable>,
    variables: &NamedRows<Text>,
) -> Result<(), Memory>
    requires { HaveNames (map env_row_of variables.now) }
    ensures { OnOk result (rows.new ≡ rows.old ++ variable_rows variables.now) }
{
    for (name, value) in variables.as_slice().iter() {
        push_row(alloc, rows, name, value)?;
    }
    Ok(())
}

/// Adds a row for each ARG that has a value and no ENV.
pub(crate) fn push_arguments(
    alloc: Global,
    rows: &mut Items<Variable>,
    arguments: &NamedRows<Option<Text>>,
    variables: &NamedRows<Text>,
) -> Result<(), Memory>
    requires { HaveNames (map arg_row_of arguments.now) }
    ensures { OnOk result (rows.new ≡ rows.old ++ argument_rows variables.now arguments.now) }
{
    for (name, value) in arguments.as_slice().iter() {
        push_argument(alloc, rows, name, value, variables)?;
    }
    Ok(())
}

/// Adds a row for an ARG, unless it has no value or its name has an ENV.
fn push_argument(
    alloc: Global,
    rows: &mut Items<Variable>,
    name: &Text,
    value: &Option<Text>,
    variables: &NamedRows<Text>,
) -> Result<(), Memory>
    requires { IsVariableName name.now }
    ensures { OnOk result (rows.new ≡ rows.old ++ argument_rows variables.now ((name.now, value.now) ∷ [])) }
{
    match value {
        Some(value) if !variables.has(name) => push_row(alloc, rows, name, value),
        _ => Ok(()),
    }
}

/// Adds a row.
fn push_row(
    alloc: Global,
    rows: &mut Items<Variable>,
    name: &Text,
    value: &Text,
) -> Result<(), Memory>
    requires { IsVariableName name.now }
    ensures { OnOk result (rows.new ≡ rows.old ++ (record { name = name.now; value = value.now }) ∷ []) }
{
    let name = name.copy(alloc)?;
    let value = value.copy(alloc)?;
    rows.push(Variable {
        name: VariableName::of(name),
        value,
    })
}

/// How many arguments have a value.
pub(crate) fn valued(arguments: &NamedRows<Option<Text>>) -> usize {
    let mut count: usize = 0;
    for (_, value) in arguments.as_slice().iter() {
        if value.is_some() {
            count = count.saturating_add(1);
        }
    }
    count
}
