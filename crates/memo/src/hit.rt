use crate::number::Age;
use trees::Tree;

/// What a memo has for an operation on some trees, lent.
#[derive(Clone, Copy)]
pub struct Hit<'a> {
    /// The tree that the operation gave.
    pub tree: &'a Tree,
    /// The generation that keeps all these trees.
    pub age: Age,
    /// The tree's number there.
    pub number: usize,
    /// Those of the trees that the operation was given, in their order.
    pub inputs: &'a [usize],
}
