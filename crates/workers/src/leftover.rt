use board::Board;
use executor::Executor;
use llb::VertexId;
use plain::{Exact, Memory};
use std::alloc::Global;
use trees::Tree;

/// The trees that a solve made on its way, which share what is in them with its solution.
///
/// Nobody asks for them any more. To let them go takes a step for each file that the solution hasn't, so who has something better to do
/// first lets them go after it.
pub struct Leftover {
    trees: Vec<Tree>,
}

/// It ends by a call, so that no proof above goes by what is there at each place where it is let go.
impl Drop for Leftover {
    fn drop(self) {
        let Leftover { trees: _ } = self;
    }
}

impl Leftover {
    /// No trees. It takes no memory.
    pub fn none(alloc: Global) -> Leftover {
        Leftover {
            trees: Vec::new(alloc),
        }
    }

    /// Adds the trees of a board's vertices. What there is no memory for is left out.
    pub(crate) fn add<E: Executor>(&mut self, alloc: Global, board: &Board<E>) {
        let _rest_left_out = self.add_all(alloc, board);
    }

    /// The same, up to where there is no memory.
    fn add_all<E: Executor>(&mut self, alloc: Global, board: &Board<E>) -> Result<(), Memory> {
        let count = board.job().graph().vertices().len() as u32;
        for number in 0..count {
            if let Some(Ok(tree)) = board.value(VertexId::new(number)) {
                self.trees.push(tree.copy(alloc)?)?;
            }
        }
        Ok(())
    }
}
