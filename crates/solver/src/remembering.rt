ghost use Rattle.std.specs.Prelude.{◌≡◌, ◌<◌, Some, IfOk, IfSome, IsTrue, length, slice_get};
ghost use Rattle.board.specs.Board.{board_problem};
ghost use Rattle.board.specs.Problem.{values_in};
ghost use Rattle.plans.specs.Value.{trees_at};
ghost use Rattle.memo.specs.Kept.{KeepsAll, kept_trees};
ghost use Rattle.memo.specs.Memo.{is_source, Grows};
ghost use Rattle.solver.specs.Recall.{IsKept};
ghost use Rattle.solver.specs.PrivateRemembering.{AreKept, IsPut, Remembers};

use crate::Numbering;
use crate::finding::Findings;
use crate::running::vertex_at;
use board::{Board, Job};
use executor::Executor;
use llb::{Op, VertexId};
use memo::{Age, Memo};
use plain::{Items, Memory};
use std::alloc::Global;
use trees::Tree;

/// Adds to a memo what the vertices of a board gave: the tree of each one that is no source, with the trees of its inputs. What was found among the recent
/// entries of the memo, by the findings, isn't added once more; what was found among the earlier ones is, so that the next call of `forget` leaves it. What there
/// is no memory for is left out, and so is all if the memo is for one build.
pub fn remember<E: Executor, M: Executor, N: Numbering>(
    alloc: Global,
    memo: &mut Memo<M>,
    board: &Board<E>,
    findings: Option<&Findings<N>>,
)
    requires executor { M.out memo.old.executor ≡ E.out board.now.job.executor }
    requires values { N.values ≡ values_in (board_problem E.out board.now) }
    requires recent { N.recent ≡ memo.old.recent.trees }
    ensures grows { Grows memo.old memo.new }
    ensures one { IsTrue memo.old.is_for_one_build → memo.new ≡ memo.old }
{
    if memo.is_for_one_build() {
        return;
    }
    let _rest_left_out = remember_all(alloc, memo, board, findings);
}

/// The same, up to where there is no memory.
fn remember_all<E: Executor, M: Executor, N: Numbering>(
    alloc: Global,
    memo: &mut Memo<M>,
    board: &Board<E>,
    findings: Option<&Findings<N>>,
) -> Result<(), Memory>
    requires executor { M.out memo.old.executor ≡ E.out board.now.job.executor }
    requires values { N.values ≡ values_in (board_problem E.out board.now) }
    requires recent { N.recent ≡ memo.old.recent.trees }
    ensures { Grows memo.old memo.new }
{
    let count = board.job().graph().vertices().len() as u32;
    let mut kept = known_numbers(alloc, count, findings)?;
    for number in 0..count {
        let vertex = VertexId::new(number);
        if is_remembered(findings, vertex) {
            continue;
        }
        remember_vertex(alloc, memo, board, &mut kept, vertex)?;
    }
    Ok(())
}

/// For each of so many vertices the number that its tree has among the recent ones of a memo, as far as that was found.
fn known_numbers<N: Numbering>(
    alloc: Global,
    count: u32,
    findings: Option<&Findings<N>>,
) -> Result<Vec<Option<usize>>, Memory>
    ensures { IfOk result (λ kept. AreKept N.values N.recent kept.items) }
{
    let mut kept = Vec::with_capacity(alloc, count as usize)?;
    for number in 0..count {
        kept.push(known_number(findings, VertexId::new(number)))?;
    }
    Ok(kept)
}

/// The number that the tree of a vertex has among the recent ones of a memo, if that was found.
fn known_number<N: Numbering>(findings: Option<&Findings<N>>, vertex: VertexId) -> Option<usize>
    ensures { IfSome result (IsKept N.values N.recent vertex) }
{
    let Some(findings) = findings else {
        return None;
    };
    match findings.get(vertex.number()) {
        Some(finding) => finding.recent,
        None => None,
    }
}

/// Whether the recent entries of a memo have one of a vertex, by the findings.
fn is_remembered<N: Numbering>(findings: Option<&Findings<N>>, vertex: VertexId) -> bool {
    let Some(findings) = findings else {
        return false;
    };
    match findings.get(vertex.number()) {
        Some(finding) => finding.is_remembered,
        None => false,
    }
}

/// Adds to a memo what a vertex of a board gave, if it is no source. Of some vertices the numbers are known under which the memo keeps their trees, and those
/// of others are put beside them.
fn remember_vertex<E: Executor, M: Executor>(
    alloc: Global,
    memo: &mut Memo<M>,
    board: &Board<E>,
    kept: &mut Vec<Option<usize>>,
    vertex: VertexId,
) -> Result<(), Memory>
    requires executor { M.out memo.old.executor ≡ E.out board.now.job.executor }
    requires there { vertex < length board.now.job.graph.vertices }
    requires kept { AreKept (values_in (board_problem E.out board.now)) memo.old.recent.trees kept.old.items }
    ensures { Remembers (values_in (board_problem E.out board.now)) memo.old memo.new kept.new.items }
{
    let _known = board.history();
    let node = vertex_at(board.job(), vertex);
    if is_source(&node.op) {
        return Ok(());
    }
    let Some(tree) = keep_tree(alloc, memo, board, kept, vertex)? else {
        return Ok(());
    };
    let Some(inputs) = keep_trees(alloc, memo, board, kept, node.inputs.as_slice())? else {
        return Ok(());
    };
    memo.add_kept(alloc, &node.op, inputs, tree)
}

/// Whether an operation is a source.
fn is_source(op: &Op) -> bool
    ensures { result ≡ is_source op.now }
{
    match op {
        Op::Source(_) => true,
        Op::Exec(_) => false,
        Op::Copy(_) => false,
        Op::MakeDirs(_) => false,
        Op::Merge => false,
    }
}

/// The numbers under which a memo keeps the trees of these vertices; none if one has no tree.
fn keep_trees<E: Executor, M: Executor>(
    alloc: Global,
    memo: &mut Memo<M>,
    board: &Board<E>,
    kept: &mut Vec<Option<usize>>,
    vertices: &[VertexId],
) -> Result<Option<Items<usize>>, Memory>
    requires { AreKept (values_in (board_problem E.out board.now)) memo.old.recent.trees kept.old.items }
    ensures remembers { Remembers (values_in (board_problem E.out board.now)) memo.old memo.new kept.new.items }
    ensures trees { IfOk result (λ found. IfSome found (λ numbers. trees_at (values_in (board_problem E.out board.now)) vertices.now ≡ Some (kept_trees memo.new.recent numbers))) }
    ensures keeps { IfOk result (λ found. IfSome found (KeepsAll memo.new.recent)) }
{
    let mut numbers = Items::new(alloc);
    for vertex in vertices {
        match keep_tree(alloc, memo, board, kept, *vertex)? {
            Some(number) => numbers.push(number)?,
            None => return Ok(None),
        }
    }
    Ok(Some(numbers))
}

/// The number under which a memo keeps the tree of a vertex, which it keeps now if it didn't; none if the vertex has no tree.
fn keep_tree<E: Executor, M: Executor>(
    alloc: Global,
    memo: &mut Memo<M>,
    board: &Board<E>,
    kept: &mut Vec<Option<usize>>,
    vertex: VertexId,
) -> Result<Option<usize>, Memory>
    requires { AreKept (values_in (board_problem E.out board.now)) memo.old.recent.trees kept.old.items }
    ensures remembers { Remembers (values_in (board_problem E.out board.now)) memo.old memo.new kept.new.items }
    ensures number { IfOk result (λ found. IfSome found (IsKept (values_in (board_problem E.out board.now)) memo.new.recent.trees vertex)) }
{
    if let Some(Some(number)) = kept.as_slice().get(vertex.index()) {
        return Ok(Some(*number));
    }
    let _known = board.history();
    match board.value(vertex) {
        Some(Ok(tree)) => {
            let number = keep(alloc, memo, board.job(), vertex, tree)?;
            put(kept, vertex.index(), number);
            Ok(Some(number))
        }
        _ => Ok(None),
    }
}

/// The number of the tree of a vertex, which a memo keeps from now on if it didn't. That of a source is looked for first, since its tree comes anew in each build.
fn keep<E: Executor, M: Executor>(
    alloc: Global,
    memo: &mut Memo<M>,
    job: &Job<E>,
    vertex: VertexId,
    tree: &Tree,
) -> Result<usize, Memory>
    ensures there { IfOk result (λ number. slice_get memo.new.recent.trees number ≡ Some tree.now) }
    ensures grows { Grows memo.old memo.new }
{
    let Some(node) = job.graph().vertex(vertex) else {
        return memo.keep(alloc, tree);
    };
    if !is_source(&node.op) {
        return memo.keep(alloc, tree);
    }
    match memo.source_number(alloc, Age::Recent, &node.op, tree) {
        Some(number) => Ok(number),
        None => memo.keep_source(alloc, &node.op, tree),
    }
}

/// Puts a number at a place, if there is such a place.
fn put(numbers: &mut Vec<Option<usize>>, place: usize, number: usize)
    ensures { IsPut numbers.old.items numbers.new.items place number }
{
    if place < numbers.len() {
        numbers[place] = Some(number);
    }
}
