ghost use Rattle.std.specs.Prelude.{◌≡◌, ◌+◌, ℕ, [], None, Some, Ok, false, length, IfOk, IfSome, IfNone};
ghost use Rattle.trees.specs.TreeMap.{TreeMap};
ghost use Rattle.board.specs.Board.{board_problem};
ghost use Rattle.board.specs.Legal.{IsReady};
ghost use Rattle.board.specs.Play.{value_at};
ghost use Rattle.board.specs.Readiness.{has_tree};
ghost use Rattle.solver.specs.PrivateSolution.{IsLeastFailure};
ghost use Rattle.solver.specs.Solution.{IsSolution, IsBuilt};

use board::Board;
use executor::Executor;
use llb::VertexId;
use plain::{Exact, Memory};
use std::alloc::Global;
use trees::{Cause, Tree};

/// The solution of a job: it knows no configuration.
#[derive(Drop)]
pub enum Solution {
    /// The tree that is the value of the target.
    Built(Tree),
    /// The failure of least line that was settled: a vertex, the least of the lines behind it, 0 if it has none, and the cause with which it
    /// fails.
    Failed {
        vertex: VertexId,
        place: u32,
        cause: Cause,
    },
}

/// The solution of a board on which no claim is out and no vertex is ready: a copy of the target's tree if it is settled with one, else the
/// vertex of least line that is settled with a cause.
pub(crate) fn solution_of<E: Executor>(alloc: Global, board: &Board<E>) -> Result<Solution, Memory>
    requires idle { board.now.run.state.claims ≡ [] }
    requires over { (vertex : ℕ) → ¬ IsReady (board_problem E.out board.now) board.now.run.history vertex }
    ensures solution { IfOk result (IsSolution (board_problem E.out board.now)) }
    ensures settled { (tree : TreeMap) → value_at board.now.run.state.settled board.now.job.target ≡ Some (Ok tree)
        → IfOk result (IsBuilt tree) }
{
    let _known = board.history();
    if let Some(tree) = tree_of(board, board.job().target()) {
        return Ok(Solution::Built(tree.copy(alloc)?));
    }
    let Some(failure) = least_failure(board) else {
        unreachable!();
    };
    let Failure {
        vertex,
        place,
        cause,
    } = failure;
    Ok(Solution::Failed {
        vertex,
        place,
        cause,
    })
}

/// A vertex that is settled with a cause, and the least line behind it.
#[derive(Clone, Copy)]
struct Failure {
    vertex: VertexId,
    place: u32,
    cause: Cause,
}

/// Of the vertices that are settled with a cause one of the least line, if any is.
fn least_failure<E: Executor>(board: &Board<E>) -> Option<Failure>
    ensures { IsLeastFailure (board_problem E.out board.now) board.now.run.state.settled (length board.now.job.graph.vertices) result }
{
    let mut least = None;
    for number in 0..board.job().graph().vertices().len() as u32 {
        least = lesser_failure(board, least, VertexId::new(number));
    }
    least
}

/// The lesser of this failure and the vertex's, if the vertex is settled with a cause.
fn lesser_failure<E: Executor>(
    board: &Board<E>,
    least: Option<Failure>,
    vertex: VertexId,
) -> Option<Failure>
    requires { IsLeastFailure (board_problem E.out board.now) board.now.run.state.settled vertex least }
    ensures { IsLeastFailure (board_problem E.out board.now) board.now.run.state.settled (vertex + 1) result }
{
    let Some(Err(cause)) = board.value(vertex) else {
        return least;
    };
    let place = board.job().graph().least_place(vertex);
    let here = Failure {
        vertex,
        place,
        cause: *cause,
    };
    match least {
        Some(failure) => {
            if place < failure.place {
                Some(here)
            } else {
                Some(failure)
            }
        }
        None => Some(here),
    }
}

/// The tree with which a vertex is settled.
fn tree_of<'a, E: Executor>(board: &'a Board<E>, vertex: VertexId) -> Option<&'a Tree>
    ensures found { IfSome result (λ tree. value_at board.now.run.state.settled vertex ≡ Some (Ok tree.now)) }
    ensures none { IfNone result (has_tree (value_at board.now.run.state.settled vertex) ≡ false) }
{
    match board.value(vertex) {
        Some(Ok(tree)) => Some(tree),
        _ => None,
    }
}
