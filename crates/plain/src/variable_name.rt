ghost use Rattle.std.specs.Prelude.{◌≡◌, SomeIff};
ghost use Rattle.plain.specs.VariableName.{IsVariableName, is_variable_name};

use crate::{Exact, Memory, Text};
use std::alloc::Global;
use std::marker::Model;

/// The name of a variable of an environment: a text that isn't empty and holds no `=` (POSIX, section 8.1).
#[derive(Debug, Drop)]
pub struct VariableName {
    text: Text,
}

impl Model for VariableName {
    ghost use Rattle.std.specs.Prelude.{List, ℕ};
    ghost use Rattle.std.specs.Coded.{coded_list, coded_ℕ};
    ghost use Rattle.plain.specs.VariableName.{IsVariableName};

    ghost Value = { List ℕ };

    ghost coded = { coded_list coded_ℕ };

    ghost view = { λ n. n.text };

    ghost invariant = { λ n. IsVariableName n.text };
}

impl VariableName {
    /// The name that a text is; `None` exactly where it is none: it is empty or holds a `=`.
    pub fn new(text: Text) -> Option<VariableName>
        ensures { SomeIff result (IsVariableName text) text }
    {
        if !is_variable_name(text.as_str()) {
            return None;
        }
        Some(VariableName { text })
    }

    /// The name that a text is, for callers that know that it is one.
    pub fn of(text: Text) -> VariableName
        requires { IsVariableName text }
        ensures { result ≡ text }
    {
        VariableName { text }
    }

    /// The name as a text, lent.
    pub fn as_text(&self) -> &Text
        ensures value { result.now ≡ self.now }
        ensures name { IsVariableName self.now }
    {
        &self.text
    }

    /// The name's bytes, lent.
    pub fn as_str(&self) -> &str
        ensures { result.now ≡ self.now }
    {
        self.text.as_str()
    }

    /// The name as a text. It takes no memory.
    pub fn into_text(self) -> Text
        ensures value { result ≡ self }
        ensures name { IsVariableName self }
    {
        self.text
    }
}

impl Exact for VariableName {
    fn same(&self, other: &VariableName) -> bool {
        self.text.same(&other.text)
    }

    fn copy(&self, alloc: Global) -> Result<VariableName, Memory> {
        let text = self.text.copy(alloc)?;
        Ok(VariableName { text })
    }
}

/// Whether a text is the name of a variable.
fn is_variable_name(text: &str) -> bool
    ensures { result ≡ is_variable_name text.now }
{
    !text.is_empty() && !text.as_bytes().contains(&b'=')
}
