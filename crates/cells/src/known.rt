ghost use Rattle.std.specs.Prelude.{◌≡◌, Some};
ghost use Rattle.once_cell.specs.Once.{cell_name};

use crate::{Found, Meaning};
use once_cell::race::{Note, OnceBox};
use std::marker::Model;

/// A cell in which a value stands, with a note of that cell, which knows the value. It takes two pointers, since a note takes no bytes.
///
/// The second pointer is what the note has shown. A note can be asked through `&mut` alone, and who reads a value through `&` has none.
#[derive(Drop)]
pub struct KnownCell<'a, T, M: Meaning<T>> {
    cell: &'a OnceBox<Found<T, M>>,
    note: Note<Found<T, M>>,
    found: &'a Found<T, M>,
}

impl<'a, T, M: Meaning<T>> Model for KnownCell<'a, T, M> {
    ghost use Rattle.std.specs.Prelude.{◌≡◌, Some};
    ghost use Rattle.once_cell.specs.Once.{cell_name};
    ghost use Rattle.cells.specs.Found.{FoundValue, found_code};

    ghost Value = { FoundValue T };

    ghost coded = { found_code T.code };

    ghost view = { λ k. k.found.now };

    ghost invariant = { λ k. (k.note.cell ≡ cell_name k.cell.now) × (k.note.known ≡ Some k.found.now) };
}

impl<'a, T, M: Meaning<T>> KnownCell<'a, T, M> {
    /// A cell with a note of it that has shown what stands there.
    pub(crate) fn new(
        cell: &'a OnceBox<Found<T, M>>,
        note: Note<Found<T, M>>,
        found: &'a Found<T, M>,
    ) -> KnownCell<'a, T, M>
        requires cell { note.cell ≡ cell_name cell.now }
        requires known { note.known ≡ Some found.now }
        ensures { result ≡ found.now }
    {
        KnownCell { cell, note, found }
    }

    /// The same once more.
    pub fn again(&mut self) -> KnownCell<'a, T, M>
        ensures same { self.new ≡ self.old }
        ensures again { result ≡ self.old }
    {
        KnownCell {
            cell: self.cell,
            note: self.note.again(),
            found: self.found,
        }
    }

    /// What stands in the cell, read there once more: it is what the note knows.
    pub fn read(&mut self) -> &'a Found<T, M>
        ensures same { self.new ≡ self.old }
        ensures value { result.now ≡ self.old }
    {
        match self.cell.get_as(&mut self.note) {
            Some(found) => found,
            None => unreachable!(),
        }
    }

    /// The number of the thing that has the value.
    pub fn number(&self) -> u32
        ensures { result ≡ self.now.number }
    {
        self.found.number()
    }

    /// The value. It lives as long as the cell, so it may outlive this.
    pub fn value(&self) -> &'a T
        ensures value { result.now ≡ self.now.value }
        ensures means { M.means self.now.number self.now.value }
    {
        self.found.value()
    }
}
