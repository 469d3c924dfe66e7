ghost use Rattle.std.specs.Prelude.{◌≡◌};

use crate::Meaning;
use std::marker::{Model, PhantomData};

/// A value with the number of the thing that has it. The type keeps that it means that.
#[derive(Drop)]
pub struct Found<T, M: Meaning<T>> {
    number: u32,
    value: T,
    of: PhantomData<M>,
}

impl<T, M: Meaning<T>> Model for Found<T, M> {
    ghost use Rattle.cells.specs.Found.{FoundValue, found_code};

    ghost Value = { FoundValue T };

    ghost coded = { found_code T.code };

    ghost view = { λ f. record { number = f.number; value = f.value } };

    ghost invariant = { λ f. M.means f.number f.value };
}

impl<T, M: Meaning<T>> Found<T, M> {
    /// The value of the thing of this number.
    pub(crate) fn new(number: u32, value: T) -> Found<T, M>
        requires { M.means number value }
        ensures { result ≡ record { number = number; value = value } }
    {
        Found {
            number,
            value,
            of: PhantomData,
        }
    }

    /// The number of the thing that has it.
    pub fn number(&self) -> u32
        ensures { result ≡ self.now.number }
    {
        self.number
    }

    /// The value.
    pub fn value(&self) -> &T
        ensures value { result.now ≡ self.now.value }
        ensures means { M.means self.now.number self.now.value }
    {
        &self.value
    }
}
