use crate::{Exact, Memory, Text, VariableName};
use std::alloc::Global;

/// A variable of an environment: its name and the value that it has.
#[derive(Debug, Drop)]
pub struct Variable {
    pub name: VariableName,
    pub value: Text,
}

impl Exact for Variable {
    fn same(&self, other: &Variable) -> bool {
        self.name.same(&other.name) && self.value.same(&other.value)
    }

    fn copy(&self, alloc: Global) -> Result<Variable, Memory> {
        let name = self.name.copy(alloc)?;
        let value = self.value.copy(alloc)?;
        Ok(Variable { name, value })
    }
}
