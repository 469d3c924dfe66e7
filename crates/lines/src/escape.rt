ghost use Rattle.std.specs.Prelude.{◌≡◌};
ghost use Rattle.lines.specs.Escape.{byte_of, escape_named};

use plain::{Exact, Memory};
use std::alloc::Global;

/// A Dockerfile's escape character (Dockerfile reference, the `escape` directive).
#[derive(Clone, Copy, Debug, PartialEq, Eq)]
pub enum Escape {
    /// A backslash, which it is where no directive says otherwise.
    Backslash,
    /// A backtick.
    Backtick,
}

impl Escape {
    /// The character's byte.
    pub fn byte(self) -> u8
        ensures { result ≡ byte_of self }
    {
        match self {
            Escape::Backslash => b'\\',
            Escape::Backtick => b'`',
        }
    }
}

impl Exact for Escape {
    fn same(&self, other: &Escape) -> bool {
        matches!(
            (self, other),
            (Escape::Backslash, Escape::Backslash) | (Escape::Backtick, Escape::Backtick)
        )
    }

    fn copy(&self, _alloc: Global) -> Result<Escape, Memory> {
        Ok(*self)
    }
}

/// The escape character that a directive's value names.
pub(crate) fn escape_named(value: &str) -> Option<Escape>
    ensures { result ≡ escape_named value.now }
{
    if value == "\\" {
        Some(Escape::Backslash)
    } else if value == "`" {
        Some(Escape::Backtick)
    } else {
        None
    }
}
