ghost use Rattle.std.specs.Prelude.{◌≡◌, [], OnOk, OnErr};
ghost use Rattle.memo.specs.PrivateIndex.{under, Enters, SameUnder};

use plain::{Items, Memory};
use std::alloc::Global;
use std::collections::BTreeMap;

/// Numbers of entries by the entries' keys. Those of one key stand together.
///
/// It is an ordered map and no hash table: finding a key takes few steps whatever keys there are.
#[derive(Drop)]
pub(crate) struct Index {
    numbers: BTreeMap<u64, Items<usize>>,
}

impl Index {
    /// Nothing entered. It takes no memory.
    pub(crate) fn new(alloc: Global) -> Index
        ensures { result.numbers.entries ≡ [] }
    {
        Index {
            numbers: BTreeMap::new(alloc),
        }
    }

    /// The numbers under a key, in the order in which they were entered.
    pub(crate) fn under(&self, key: u64) -> &[usize]
        ensures { result.now ≡ under self.now key }
    {
        match self.numbers.get(&key) {
            Some(numbers) => numbers.as_slice(),
            None => &[],
        }
    }

    /// Enters a number under a key, after those that are there. After `Memory` the same numbers are under each key.
    pub(crate) fn enter(&mut self, alloc: Global, key: u64, number: usize) -> Result<(), Memory>
        ensures ok { OnOk result (Enters self.old self.new key number) }
        ensures err { OnErr result (SameUnder self.old self.new) }
    {
        let numbers = self.numbers.entry(key)?.or_insert(Items::new(alloc));
        numbers.push(number)?;
        Ok(())
    }
}
