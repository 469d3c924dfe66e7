ghost use Rattle.std.specs.Prelude.{◌≡◌, ◌<◌, IfOk, IfSome};

use crate::{Found, KnownCell, Meaning};
use once_cell::race::OnceBox;
use plain::Memory;
use std::alloc::Global;
use std::marker::Model;

/// A cell for each number below some count. Contracts see that count.
#[derive(Drop)]
pub struct Row<T: Drop, M: Meaning<T>> {
    cells: Vec<OnceBox<Found<T, M>>>,
}

impl<T: Drop, M: Meaning<T>> Model for Row<T, M> {
    ghost use Rattle.std.specs.Prelude.{ℕ, vec_len};
    ghost use Rattle.std.specs.Coded.{coded_ℕ};

    ghost Value = { ℕ };

    ghost coded = { coded_ℕ };

    ghost view = { λ r. vec_len r.cells };
}

impl<T: Drop, M: Meaning<T>> Row<T, M> {
    /// So many cells, in which nothing stands.
    pub fn new(alloc: Global, count: usize) -> Result<Row<T, M>, Memory>
        ensures { IfOk result (λ row. row ≡ count) }
    {
        let mut cells = Vec::with_capacity(alloc, count)?;
        for _ in 0..count {
            cells.push(OnceBox::new(alloc))?;
        }
        Ok(Row { cells })
    }

    /// How many cells there are.
    pub fn len(&self) -> usize
        ensures { result ≡ self.now }
    {
        self.cells.len()
    }

    /// Puts the value of a thing into the cell of its number, unless one stands there already, and answers the cell with what stands there then.
    /// None if that has another number. Nothing in this crate puts it there; that nobody does can't be said of a cell, of which only the type is known.
    pub fn keep<'a>(
        &'a self,
        alloc: Global,
        number: u32,
        value: T,
    ) -> Result<Option<KnownCell<'a, T, M>>, Memory>
        requires within { number < self.now }
        requires means { M.means number value }
        ensures number { IfOk result (λ known. IfSome known (λ k. k.number ≡ number)) }
        ensures means { IfOk result (λ known. IfSome known (λ k. M.means number k.value)) }
    {
        let cell = &self.cells[number as usize];
        let mine = Box::new(alloc, Found::new(number, value))?;
        let mut note = cell.note();
        let found = cell.get_or_init_as(move || mine, &mut note);
        let _known = found.value();
        if found.number() != number {
            return Ok(None);
        }
        Ok(Some(KnownCell::new(cell, note, found)))
    }

    /// What stands in the cell of a number, if anything does that is of this number.
    pub fn get(&self, number: u32) -> Option<&T>
        ensures { IfSome result (λ value. M.means number value.now) }
    {
        let Some(cell) = self.cells.get(number as usize) else {
            return None;
        };
        let Some(found) = cell.get() else {
            return None;
        };
        let value = found.value();
        if found.number() == number {
            Some(value)
        } else {
            None
        }
    }
}
