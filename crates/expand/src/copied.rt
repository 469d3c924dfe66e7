// Values that are copied and never compared: words, and what holds some.

ghost use Rattle.std.specs.Prelude.{◌≡◌, IfOk};

use crate::form::Form;
use crate::token::Token;
use crate::word::Word;
use plain::{Exact, Items, Memory};
use std::alloc::Global;

/// Values of which an equal one can be made. `plain::Exact` can compare them too; whether two words are equal nobody asks.
pub trait Copied: Sized {
    /// An equal value of its own. Its texts share their bytes with the first.
    fn copied(&self, alloc: Global) -> Result<Self, Memory>
        ensures { IfOk result (λ copied. copied ≡ self.now) };
}

impl<T: Copied> Copied for Option<T> {
    fn copied(&self, alloc: Global) -> Result<Option<T>, Memory> {
        match self {
            Some(value) => Ok(Some(value.copied(alloc)?)),
            None => Ok(None),
        }
    }
}

impl<T: Copied + Drop> Copied for Items<T> {
    fn copied(&self, alloc: Global) -> Result<Items<T>, Memory> {
        let items = copied_each(alloc, self.as_slice())?;
        Ok(Items::from_vec(items))
    }
}

/// A copy of each element of a slice, in order.
fn copied_each<T: Copied + Drop>(alloc: Global, items: &[T]) -> Result<Vec<T>, Memory>
    ensures { IfOk result (λ copied. copied.items ≡ items.now) }
{
    let mut copied = Vec::with_capacity(alloc, items.len())?;
    for item in items {
        copied.push(item.copied(alloc)?)?;
    }
    Ok(copied)
}

impl Copied for Token {
    fn copied(&self, alloc: Global) -> Result<Token, Memory> {
        match self {
            Token::Plain(text) => Ok(Token::Plain(text.copy(alloc)?)),
            Token::Variable(name) => Ok(Token::Variable(name.copy(alloc)?)),
            Token::Open(operator, test, name) => Ok(Token::Open(
                *operator,
                *test,
                name.copy(alloc)?,
            )),
            Token::Close => Ok(Token::Close),
        }
    }
}

impl Copied for Form {
    fn copied(&self, alloc: Global) -> Result<Form, Memory> {
        match self {
            Form::Plain(text) => Ok(Form::Plain(text.copy(alloc)?)),
            Form::Tokens(tokens) => Ok(Form::Tokens(tokens.copied(alloc)?)),
        }
    }
}
