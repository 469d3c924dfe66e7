ghost use Rattle.std.specs.Prelude.{◌≡◌, [], OnOk};
ghost use Rattle.ignorefile.specs.PrivatePositions.{under, Enters};

use plain::{Items, Memory};
use std::alloc::Global;
use std::collections::BTreeMap;

/// Positions of lines, each under a number: how many names the paths have that the line relates to, or the byte that their last names
/// begin with. Those under one number stand together.
#[derive(Drop)]
pub(crate) struct Positions {
    by_number: BTreeMap<usize, Items<usize>>,
}

impl Positions {
    /// Nothing entered. It takes no memory.
    pub(crate) fn new(alloc: Global) -> Positions
        ensures { result.by_number.entries ≡ [] }
    {
        Positions {
            by_number: BTreeMap::new(alloc),
        }
    }

    /// The positions under a number, in the order in which they were entered.
    pub(crate) fn under(&self, number: usize) -> &[usize]
        ensures { result.now ≡ under self.now number }
    {
        match self.by_number.get(&number) {
            Some(positions) => positions.as_slice(),
            None => &[],
        }
    }

    /// Enters a position under a number, after those that are there.
    pub(crate) fn enter(
        &mut self,
        alloc: Global,
        number: usize,
        position: usize,
    ) -> Result<(), Memory>
        ensures { OnOk result (Enters self.old self.new number position) }
    {
        let positions = self.by_number.entry(number)?.or_insert(Items::new(alloc));
        positions.push(position)?;
        Ok(())
    }
}
