// Where the rows of a list go while it is read: into a list, or into the tree that they make.

ghost use Rattle.std.specs.Prelude.{◌≡◌, ◌++◌, List, OnOk};
ghost use Rattle.trees.specs.Row.{Row};

use paths::Path;
use std::alloc::Global;
use strict::ReadFault;
use trees::Entry;

/// What takes the rows of a list as they are made.
pub(crate) trait TakesRows {
    // the rows that it has taken
    ghost rows: { Self → List Row };

    /// Takes more rows. `NotRead` where it takes no such rows.
    fn take(&mut self, alloc: Global, run: Vec<(Path, Entry)>) -> Result<(), ReadFault>
        ensures { OnOk result (rows self.new ≡ rows self.old ++ run.items) };
}

impl TakesRows for Vec<(Path, Entry)> {
    ghost rows = { λ v. v.items };

    fn take(&mut self, _alloc: Global, run: Vec<(Path, Entry)>) -> Result<(), ReadFault> {
        let mut run = run;
        self.append(&mut run)?;
        Ok(())
    }
}
