use crate::Case;
use cells::{KnownCell, Meaning, Row};
use std::marker::PhantomData;
use trees::TreeOrCause;

/// What stands in the cell of a vertex: its value in the problem of a case.
#[derive(Drop)]
pub struct Values<J> {
    of: PhantomData<J>,
}

impl<J: Case> Meaning<TreeOrCause> for Values<J> {
    ghost use Rattle.plans.specs.Plan.{IsValue};

    ghost means = { IsValue J.problem };
}

/// A cell for each vertex of the problem of a case, made before the board. It is lent to the site, and the board's claims and values are in it.
pub type Results<J> = Row<TreeOrCause, Values<J>>;

/// A cell in which the value of a vertex stands.
pub type Known<'a, J> = KnownCell<'a, TreeOrCause, Values<J>>;
