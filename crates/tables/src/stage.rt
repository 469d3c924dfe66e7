use crate::spelling::lines_of;
use expand::{ExpandFault, Reason, ReasonFault};
use instructions::{InstructionKind, parse};
use lines::{Line, LineFault};
use plain::{Fault, Memory, Text, Variable, VariableName};
use scopes::{Args, Scope};
use std::alloc::Global;
use std::hash::RandomState;

/// A build as far as the lines of a case go.
#[derive(Drop)]
pub struct Stage {
    keys: RandomState,
    args: Args,
    outer: Scope,
    scope: Scope,
}

impl Stage {
    /// Before the first line.
    pub fn new(alloc: Global, keys: RandomState) -> Stage {
        Stage {
            keys,
            args: Args::new(alloc, keys),
            outer: Scope::new(alloc, keys),
            scope: Scope::new(alloc, keys),
        }
    }

    /// Takes lines in order.
    fn take_all(&mut self, alloc: Global, text: &str) -> Result<(), ReasonFault> {
        for line in text.split('\n') {
            self.take(alloc, line)?;
        }
        Ok(())
    }

    /// Takes a line of a Dockerfile, or one of two of the cases' own: `GIVEN name=value` for a build argument and `BASE name=value`
    /// for a variable of the base image.
    fn take(&mut self, alloc: Global, line: &str) -> Result<(), ReasonFault> {
        match line.split_once(' ') {
            Some(("GIVEN", rest)) => Ok(self.give(alloc, rest)?),
            Some(("BASE", rest)) => Ok(self.inherit(alloc, rest)?),
            _ => self.read(alloc, line),
        }
    }

    fn give(&mut self, alloc: Global, pair: &str) -> Result<(), Memory> {
        match pair.split_once('=') {
            Some((name, value)) => self.args.set(alloc, name, value),
            None => Ok(()),
        }
    }

    fn inherit(&mut self, alloc: Global, pair: &str) -> Result<(), Memory> {
        match pair.split_once('=') {
            Some((name, value)) => {
                let Some(name) = VariableName::new(Text::from_str(alloc, name)?) else {
                    return Ok(());
                };
                let value = Text::from_str(alloc, value)?;
                self.scope.set_variables(alloc, &[Variable { name, value }])
            }
            None => Ok(()),
        }
    }

    fn read(&mut self, alloc: Global, text: &str) -> Result<(), ReasonFault> {
        match lines_of(alloc, text) {
            Ok(lines) => {
                let done = self.read_lines(alloc, &lines);
                drop(lines);
                done
            }
            Err(fault) => Err(reason(fault)),
        }
    }

    fn read_lines(&mut self, alloc: Global, lines: &[Line]) -> Result<(), ReasonFault> {
        for line in lines {
            self.read_line(alloc, line)?;
        }
        Ok(())
    }

    fn read_line(&mut self, alloc: Global, line: &Line) -> Result<(), ReasonFault> {
        match parse(alloc, line) {
            Ok(instruction) => {
                let done = self.evaluate(alloc, instruction.kind());
                drop(instruction);
                done
            }
            Err(fault) => Err(reason(fault)),
        }
    }

    fn evaluate(&mut self, alloc: Global, kind: &InstructionKind) -> Result<(), ReasonFault> {
        match kind {
            InstructionKind::From { .. } => Ok(self.begin(alloc)?),
            InstructionKind::Arg { arguments } => {
                let told = self
                    .scope
                    .declare(alloc, arguments.as_slice(), &self.args, &self.outer);
                evaluated(told)
            }
            InstructionKind::Env { assignments } => {
                evaluated(self.scope.set_env(alloc, assignments.as_slice()))
            }
            _ => Ok(()),
        }
    }

    /// Begins the stage behind the lines before the first FROM.
    fn begin(&mut self, alloc: Global) -> Result<(), Memory> {
        self.outer = self.scope.copy(alloc)?;
        self.scope = Scope::new(alloc, self.keys);
        Ok(())
    }

    /// RUN's environment: each variable as `name=value`, and `;` behind it.
    pub fn environment(&self, alloc: Global) -> Result<String, Memory> {
        let mut text = String::new(alloc);
        for variable in self.scope.run_env(alloc)?.as_slice() {
            text.push_str(variable.name.as_str())?;
            text.push_str("=")?;
            text.push_str(variable.value.as_str())?;
            text.push_str(";")?;
        }
        Ok(text)
    }
}

/// RUN's environment after lines; why one of them is refused.
pub fn environment_after(
    alloc: Global,
    keys: RandomState,
    text: &str,
) -> Result<String, ReasonFault> {
    let mut stage = Stage::new(alloc, keys);
    let done = stage.take_all(alloc, text);
    let environment = stage.environment(alloc);
    drop(stage);
    match done {
        Ok(()) => Ok(environment?),
        Err(fault) => {
            drop(environment);
            Err(fault)
        }
    }
}

/// What a line is refused with that expands texts.
fn evaluated(told: Result<(), ExpandFault>) -> Result<(), ReasonFault> {
    match told {
        Ok(()) => Ok(()),
        Err(Fault::Because(why)) => Err(Fault::Because(Reason::of(why))),
        Err(Fault::Memory) => Err(Fault::Memory),
    }
}

/// Why a line is refused, without its number.
fn reason(fault: LineFault) -> ReasonFault {
    match fault {
        Fault::Because(refusal) => Fault::Because(Reason::Coded(refusal.code)),
        Fault::Memory => Fault::Memory,
    }
}

/// A reason as text: the code, and after `R21` the text.
pub fn reason_text(alloc: Global, fault: &ReasonFault) -> Result<String, Memory> {
    match fault {
        Fault::Because(Reason::Coded(code)) => Ok(format!(in alloc; "{code}")?),
        Fault::Because(Reason::Required(text)) => Ok(format!(in alloc; "R21 {}", text.as_str())?),
        Fault::Memory => Err(Memory),
    }
}
