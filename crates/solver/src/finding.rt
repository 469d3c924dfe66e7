ghost use Rattle.std.specs.Prelude.{◌≡◌};
ghost use Rattle.solver.specs.Recall.{number_in};

use crate::Numbering;
use cells::{Meaning, Row};
use memo::Age;
use std::marker::PhantomData;

/// What came of the search for the tree of a vertex in a memo.
#[derive(Clone, Copy)]
pub struct Finding {
    /// Its number among the recent trees, if it was found there.
    pub recent: Option<usize>,
    /// Its number among the earlier ones, if it was found there.
    pub earlier: Option<usize>,
    /// Whether a recent entry says that the vertex's operation gave it.
    pub is_remembered: bool,
}

impl Finding {
    /// The number in a generation.
    pub(crate) fn number(&self, age: Age) -> Option<usize>
        ensures { result ≡ number_in self.now age }
    {
        match age {
            Age::Recent => self.recent,
            Age::Earlier => self.earlier,
        }
    }
}

/// What stands in the cell of a vertex: a finding with numbers of its tree.
#[derive(Drop)]
pub struct FindingsOf<N> {
    of: PhantomData<N>,
}

impl<N: Numbering> Meaning<Finding> for FindingsOf<N> {
    ghost use Rattle.solver.specs.Recall.{IsFinding};

    ghost means = { IsFinding N.values N.recent N.earlier };
}

/// A cell for the finding of each vertex.
pub type Findings<N> = Row<Finding, FindingsOf<N>>;
