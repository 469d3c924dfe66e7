ghost use Rattle.std.specs.Prelude.{◌≡◌, map, None, IfOk};
ghost use Rattle.std.specs.FinMap.{get as arg_value};
ghost use Rattle.plain.specs.VariableName.{IsVariableName};
ghost use Rattle.expand.specs.Expanding.{unexpanded, worse};
ghost use Rattle.scopes.specs.Scope.{or_else, value_in, HaveNames};
ghost use Rattle.scopes.specs.Evaluate.{assigned_variable, env_variables, env_fault, arg_fault, fallback, default_fault, Says};
ghost use Rattle.scopes.specs.PrivateEvaluate.{IsLonger, row_of, argument_row};
ghost use Rattle.scopes.specs.PrivateMaps.{env_row_of, arg_row_of};

use crate::args::Args;
use crate::scope::Scope;
use expand::{ExpandFault, Unexpanded, expand_next};
use instructions::{Argument, Assignment};
use plain::{Exact, Fault, Items, Memory, Text, Variable};
use std::alloc::Global;

/// What an ENV line sets so far, and what is against its texts: if something is, what it sets doesn't count.
#[derive(Drop)]
pub(crate) struct Setting {
    pub(crate) variables: Items<Variable>,
    pub(crate) fault: Option<Unexpanded>,
}

/// What an ENV line sets under the scope before it, unless something is against its texts.
pub(crate) fn assigned_variables(
    alloc: Global,
    assignments: &[Assignment],
    before: &Scope,
) -> Result<Items<Variable>, ExpandFault>
    ensures { Says (env_variables (value_in before.now) assignments.now) (env_fault (value_in before.now) assignments.now) result }
{
    let mut setting = Setting {
        variables: Items::new(alloc),
        fault: None,
    };
    for assignment in assignments {
        setting = assigned(alloc, setting, assignment, before)?;
    }
    let Setting { variables, fault } = setting;
    match fault {
        None => Ok(variables),
        Some(why) => {
            drop(variables);
            Err(Fault::Because(why))
        }
    }
}

/// What an ENV line sets, with one variable more.
fn assigned(
    alloc: Global,
    setting: Setting,
    assignment: &Assignment,
    before: &Scope,
) -> Result<Setting, Memory>
    ensures { IfOk result (λ more. IsLonger setting.variables setting.fault (assigned_variable (value_in before.now) assignment.now) (unexpanded (value_in before.now) assignment.now.value) more.variables more.fault) }
{
    let Setting {
        mut variables,
        fault,
    } = setting;
    let name = assignment.name.copy(alloc)?;
    let (value, fault) = expand_next(alloc, &assignment.value, before, fault)?;
    if let Some(value) = value {
        variables.push(Variable { name, value })?;
    }
    Ok(Setting { variables, fault })
}

/// Names with the values that variables give them. Whoever takes a copy of a value shares its bytes.
pub(crate) fn variable_rows(
    alloc: Global,
    variables: &[Variable],
) -> Result<Items<(Text, Text)>, Memory>
    ensures rows { IfOk result (λ rows. rows ≡ map row_of variables.now) }
    ensures names { IfOk result (λ rows. HaveNames (map env_row_of rows)) }
{
    let mut rows = Items::new(alloc);
    for variable in variables {
        let name = variable.name.as_text().copy(alloc)?;
        let value = variable.value.copy(alloc)?;
        let value = value.shared(alloc)?;
        rows.push((name, value))?;
    }
    Ok(rows)
}

/// What an ARG line says so far, and what is against its texts: if something is, what it says doesn't count.
#[derive(Drop)]
pub(crate) struct Saying {
    pub(crate) line: Items<(Text, Option<Text>)>,
    pub(crate) fault: Option<Unexpanded>,
}

/// What an ARG line says under the scope before it, unless something is against its defaults that count.
pub(crate) fn argument_rows(
    alloc: Global,
    arguments: &[Argument],
    before: &Scope,
    args: &Args,
    outer: &Scope,
) -> Result<Items<(Text, Option<Text>)>, ExpandFault>
    ensures rows { Says (map (argument_row (value_in before.now) (arg_value args.now) (value_in outer.now)) arguments.now) (arg_fault (value_in before.now) (arg_value args.now) arguments.now) result }
    ensures names { IfOk result (λ rows. HaveNames (map arg_row_of rows)) }
{
    let mut saying = Saying {
        line: Items::new(alloc),
        fault: None,
    };
    for argument in arguments {
        saying = argued(alloc, saying, argument, before, args, outer)?;
    }
    let Saying { line, fault } = saying;
    match fault {
        None => Ok(line),
        Some(why) => {
            drop(line);
            Err(Fault::Because(why))
        }
    }
}

/// A line with one argument more of an ARG.
fn argued(
    alloc: Global,
    saying: Saying,
    argument: &Argument,
    before: &Scope,
    args: &Args,
    outer: &Scope,
) -> Result<Saying, Memory>
    ensures line { IfOk result (λ more. IsLonger saying.line saying.fault (argument_row (value_in before.now) (arg_value args.now) (value_in outer.now) argument.now) (default_fault (value_in before.now) (arg_value args.now argument.now.name) argument.now.default) more.line more.fault) }
    ensures name { IfOk result (λ _. IsVariableName argument.now.name) }
{
    let Saying { mut line, fault } = saying;
    let name = argument.name.as_text().copy(alloc)?;
    let (value, fault) = argument_value(alloc, argument, before, args, outer, fault)?;
    line.push((name, value))?;
    Ok(Saying { line, fault })
}

/// The value that an argument has: the build argument, else its default, else what it has before the first FROM. With it what is
/// reported of the line so far; if something is, the value doesn't count.
fn argument_value(
    alloc: Global,
    argument: &Argument,
    before: &Scope,
    args: &Args,
    outer: &Scope,
    fault: Option<Unexpanded>,
) -> Result<(Option<Text>, Option<Unexpanded>), Memory>
    ensures fault { IfOk result (λ found. found.1 ≡ worse fault (default_fault (value_in before.now) (arg_value args.now argument.now.name) argument.now.default)) }
    ensures value { IfOk result (λ found. found.1 ≡ None → found.0 ≡ or_else (arg_value args.now argument.now.name) (fallback (value_in before.now) (value_in outer.now argument.now.name) argument.now.default)) }
{
    if let Some(value) = args.get(argument.name.as_text()) {
        let value = value.copy(alloc)?;
        return Ok((Some(value), fault));
    }
    if let Some(word) = &argument.default {
        return expand_next(alloc, word, before, fault);
    }
    match outer.get(argument.name.as_text()) {
        Some(value) => {
            let value = value.copy(alloc)?;
            Ok((Some(value), fault))
        }
        None => Ok((None, fault)),
    }
}
