ghost use Rattle.std.specs.Prelude.{◌≡◌, IfOk};
ghost use Rattle.std.specs.List.{list_any};
ghost use Rattle.expand.specs.Expanding.{is_valued, is_empty};
ghost use Rattle.scopes.specs.Scope.{value_in};
ghost use Rattle.imageconfig.specs.Lines.{values_of, words_fault};
ghost use Rattle.imageconfig.specs.PrivateLines.{IsFound};

use expand::{Unexpanded, Word, expand_next};
use plain::{Items, Memory, Text};
use scopes::Scope;
use std::alloc::Global;

/// The values of those words that have one, and what is against the others.
#[derive(Drop)]
pub(crate) struct Found {
    pub(crate) values: Items<Text>,
    pub(crate) fault: Option<Unexpanded>,
}

/// Values with that of a word more, if it has one.
fn with_value(alloc: Global, found: Found, word: &Word, before: &Scope) -> Result<Found, Memory>
    ensures { IfOk result (λ more. IsFound (value_in before.now) found word.now more) }
{
    let Found { mut values, fault } = found;
    let (value, fault) = expand_next(alloc, word, before, fault)?;
    if let Some(value) = value {
        values.push(value)?;
    }
    Ok(Found { values, fault })
}

/// The values of words.
pub(crate) fn values_of(alloc: Global, words: &[Word], before: &Scope) -> Result<Found, Memory>
    ensures values { IfOk result (λ found. found.values ≡ values_of (value_in before.now) words.now) }
    ensures fault { IfOk result (λ found. found.fault ≡ words_fault (value_in before.now) words.now) }
{
    let mut found = Found {
        values: Items::new(alloc),
        fault: None,
    };
    for word in words {
        found = with_value(alloc, found, word, before)?;
    }
    Ok(found)
}

/// Whether a value that is there is empty.
pub(crate) fn is_empty(value: &Option<Text>) -> bool
    ensures { result ≡ is_valued is_empty value.now }
{
    match value {
        Some(text) => text.len() == 0,
        None => false,
    }
}

/// Whether one of the values is empty.
pub(crate) fn have_empty(values: &[Text]) -> bool
    ensures { result ≡ list_any is_empty values.now }
{
    values.iter().any(|value| value.len() == 0)
}
