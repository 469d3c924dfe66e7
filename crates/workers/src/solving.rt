ghost use Rattle.std.specs.Prelude.{◌≡◌, ◌<◌, ◌≤◌, ℕ, true, [], IfOk, IfErr, OnOk, OnErr, IsTrue, length};
ghost use Rattle.plain.specs.Limits.{most_workers};
ghost use Rattle.plans.specs.Plan.{problem_of};
ghost use Rattle.board.specs.Board.{board_problem, AreLeft};
ghost use Rattle.board.specs.Job.{job_problem};
ghost use Rattle.board.specs.Leaving.{LeaveTheSame, GivesBackWhatIsLeft, AreLeftByRuns, AreLeftAtEnd};
ghost use Rattle.board.specs.Legal.{IsReady};
ghost use Rattle.runs.specs.declared.run.RunRequest.{RunRequest};
ghost use Rattle.memo.specs.Memo.{Grows, Knows};
ghost use Rattle.solver.specs.Answer.{IsAnswer};
ghost use Rattle.solver.specs.Recall.{AreOf, MayStay, leaves_or_stays};
ghost use Rattle.solver.specs.Solution.{IsSolution};

use crate::leftover::Leftover;
use crate::working::{Tools, work_all};
use board::{Board, Job, NoBoard};
use cachemounts::CacheStore;
use cells::Place;
use executor::Executor;
use memo::Memo;
use plain::{Exact, Memory, growth};
use plans::Plan;
use rolls::{Opened, Room};
use sites::{Case, Known, Results, Site};
use solver::{Answer, Gate, Numbering, Recall, Recalling, Solution, finish_recalled, remember};
use std::alloc::Global;
use std::marker::Brand;
use std::mem;
use std::sync::{Condvar, Wait};
use std::thread::Threads;
use trees::TreeOrCause;

/// The answer to a plan under an executor, by this many workers, with a store of caches of which nobody holds anything
/// (`CacheStore::is_idle` tests that). The gate is asked around the run of each command: by the workers from 0 on, and by the caller's thread, which
/// does what they have left, as worker 64. A thread that can't be started is no fault: its work is done by the others. It may never return. If it does, no lease
/// is out, whatever the result, and the caches hold what a legal history of the plan's problem left of what they held: which one is the order of settles. Each
/// content is as it was, or what the last settle that gave it back brought, which the run of its vertex left of what it was lent. If there is an answer,
/// that history is over: after it no vertex is ready.
///
/// A memo of the executor is asked for the result of each claim, and what it has is run by nobody; then the claim's caches get back what was taken, which
/// only befalls a request that the memo knows. If there is an answer, the memo gets what the vertices gave, after the workers have left. What there is no
/// memory for is left out, and so is all by one that is for one build.
pub fn solve<C: Exact + Drop, E: Executor, G: Gate, R: Threads + Wait + Sync>(
    alloc: Global,
    rt: &R,
    plan: &Plan<C>,
    executor: &E,
    workers: u32,
    gate: &G,
    caches: &mut CacheStore,
    memo: &mut Memo<E>,
) -> Result<Answer<C>, Memory>
    requires executor { E.out memo.old.executor ≡ E.out executor.now }
    requires workers { (0 < workers) × (workers ≤ most_workers) }
    requires idle { caches.old.holds ≡ [] }
    ensures answer { IfOk result (IsAnswer (E.out executor.now) plan.now) }
    ensures idle { caches.new.holds ≡ [] }
    ensures left { AreLeft (problem_of (E.out executor.now) plan.now) caches.old.contents caches.new.contents }
    ensures runs { AreLeftByRuns (leaves_or_stays (Knows memo.old) (E.leaves executor.now)) (problem_of (E.out executor.now) plan.now)
        caches.old.contents caches.new.contents }
    ensures ended { OnOk result (AreLeftAtEnd (leaves_or_stays (Knows memo.old) (E.leaves executor.now)) (problem_of (E.out executor.now) plan.now)
        caches.old.contents caches.new.contents) }
    ensures memo { Grows memo.old memo.new }
    ensures one { IsTrue memo.old.is_for_one_build → memo.new ≡ memo.old }
    ensures err { OnErr result (memo.new ≡ memo.old) }
{
    // The configuration is copied before anybody works: want of memory for it then changes nothing.
    let config = plan.config().copy(alloc)?;
    match solve_together(alloc, rt, plan, executor, workers, gate, caches, memo) {
        Ok(solution) => Ok(Answer::of(solution, config)),
        Err(memory) => {
            drop(config);
            Err(memory)
        }
    }
}

/// Does what [`solve`] does, without the configuration, which the plan still has, and with the vertex of a failure.
pub fn solve_together<C, E: Executor, G: Gate, R: Threads + Wait + Sync>(
    alloc: Global,
    rt: &R,
    plan: &Plan<C>,
    executor: &E,
    workers: u32,
    gate: &G,
    caches: &mut CacheStore,
    memo: &mut Memo<E>,
) -> Result<Solution, Memory>
    requires executor { E.out memo.old.executor ≡ E.out executor.now }
    requires workers { (0 < workers) × (workers ≤ most_workers) }
    requires idle { caches.old.holds ≡ [] }
    ensures solution { IfOk result (IsSolution (problem_of (E.out executor.now) plan.now)) }
    ensures idle { caches.new.holds ≡ [] }
    ensures left { AreLeft (problem_of (E.out executor.now) plan.now) caches.old.contents caches.new.contents }
    ensures runs { AreLeftByRuns (leaves_or_stays (Knows memo.old) (E.leaves executor.now)) (problem_of (E.out executor.now) plan.now)
        caches.old.contents caches.new.contents }
    ensures ended { OnOk result (AreLeftAtEnd (leaves_or_stays (Knows memo.old) (E.leaves executor.now)) (problem_of (E.out executor.now) plan.now)
        caches.old.contents caches.new.contents) }
    ensures memo { Grows memo.old memo.new }
    ensures one { IsTrue memo.old.is_for_one_build → memo.new ≡ memo.old }
    ensures err { OnErr result (memo.new ≡ memo.old) }
{
    let mut leftover = Leftover::none(alloc);
    let solution = solve_keeping(
        alloc,
        rt,
        plan,
        executor,
        workers,
        gate,
        caches,
        memo,
        &mut leftover,
    );
    drop(leftover);
    solution
}

/// Does what [`solve_together`] does, and adds to what is left over the trees that it made, as far as there is memory for that. Nothing else is said of them.
pub fn solve_keeping<C, E: Executor, G: Gate, R: Threads + Wait + Sync>(
    alloc: Global,
    rt: &R,
    plan: &Plan<C>,
    executor: &E,
    workers: u32,
    gate: &G,
    caches: &mut CacheStore,
    memo: &mut Memo<E>,
    leftover: &mut Leftover,
) -> Result<Solution, Memory>
    requires executor { E.out memo.old.executor ≡ E.out executor.now }
    requires workers { (0 < workers) × (workers ≤ most_workers) }
    requires idle { caches.old.holds ≡ [] }
    ensures solution { IfOk result (IsSolution (problem_of (E.out executor.now) plan.now)) }
    ensures idle { caches.new.holds ≡ [] }
    ensures left { AreLeft (problem_of (E.out executor.now) plan.now) caches.old.contents caches.new.contents }
    ensures runs { AreLeftByRuns (leaves_or_stays (Knows memo.old) (E.leaves executor.now)) (problem_of (E.out executor.now) plan.now)
        caches.old.contents caches.new.contents }
    ensures ended { OnOk result (AreLeftAtEnd (leaves_or_stays (Knows memo.old) (E.leaves executor.now)) (problem_of (E.out executor.now) plan.now)
        caches.old.contents caches.new.contents) }
    ensures memo { Grows memo.old memo.new }
    ensures one { IsTrue memo.old.is_for_one_build → memo.new ≡ memo.old }
    ensures err { OnErr result (memo.new ≡ memo.old) }
{
    let opened = Opened::new(alloc)?;
    let lent = mem::replace(caches, CacheStore::new(alloc));
    let outcome = solved::<C, E, G, Brand, R>(
        alloc, rt, plan, executor, workers, gate, lent, opened, memo, leftover,
    );
    let Ended {
        solution,
        caches: left,
    } = outcome;
    *caches = left;
    solution
}

/// What became of a board: its solution, and the store that it leaves.
#[derive(Drop)]
struct Ended {
    solution: Result<Solution, Memory>,
    caches: CacheStore,
}

/// The solution of a job by so many workers and then by the caller's thread, all of which ask a memo. If there is one, the memo gets what the vertices gave.
fn solved<
    C,
    E: Executor,
    G: Gate,
    J: Case + Room + Numbering + Send + Sync,
    R: Threads + Wait + Sync,
>(
    alloc: Global,
    rt: &R,
    plan: &Plan<C>,
    executor: &E,
    workers: u32,
    gate: &G,
    caches: CacheStore,
    opened: Opened,
    memo: &mut Memo<E>,
    leftover: &mut Leftover,
) -> Ended
    requires problem { problem_of (E.out executor.now) plan.now ≡ J.problem }
    requires first { caches.contents ≡ J.first }
    requires before { J.before ≡ [] }
    requires leaves { LeaveTheSame (leaves_or_stays J.knows (E.leaves executor.now)) J.leaves }
    requires promises { J.promises ≡ true }
    requires idle { caches.holds ≡ [] }
    requires room { opened.table.shared.table_id ≡ J.table }
    requires workers { workers ≤ most_workers }
    requires executor { E.out memo.old.executor ≡ J.out }
    requires named { AreOf J.problem J.out J.values }
    requires recent { memo.old.recent.trees ≡ J.recent }
    requires earlier { memo.old.earlier.trees ≡ J.earlier }
    requires knows { (request : RunRequest) → Knows memo.old request → J.knows request }
    ensures solution { IfOk result.solution (IsSolution J.problem) }
    ensures idle { result.caches.holds ≡ [] }
    ensures left { AreLeft J.problem J.first result.caches.contents }
    ensures runs { AreLeftByRuns J.leaves J.problem J.first result.caches.contents }
    ensures ended { OnOk result.solution (AreLeftAtEnd J.leaves J.problem J.first result.caches.contents) }
    ensures memo { Grows memo.old memo.new }
    ensures one { IsTrue memo.old.is_for_one_build → memo.new ≡ memo.old }
    ensures err { OnErr result.solution (memo.new ≡ memo.old) }
{
    let recalling = Recalling::<E, J>::new(executor);
    let job = Job::new(plan, &recalling);
    let count = job.graph().len();
    let Ok(results) = Results::<J>::new(alloc, count) else {
        return unsolved(caches);
    };
    let Ok(recall) = Recall::<E, J>::new(alloc, &*memo, count) else {
        return unsolved(caches);
    };
    let own = Job::new(plan, &recalling);
    let asked = recall.as_ref();
    let outcome = closed(
        alloc, rt, workers, gate, &job, asked, own, caches, &results, opened,
    );
    match outcome {
        Ok(Home { solution, board }) => {
            let findings = match recall {
                Some(recall) => Some(recall.into_findings()),
                None => None,
            };
            remember(alloc, memo, &board, findings.as_ref());
            leftover.add(alloc, &board);
            let _known = board.history();
            Ended {
                solution: Ok(solution),
                caches: board.into_caches(),
            }
        }
        Err(caches) => unsolved(caches),
    }
}

/// What becomes of a board if there is no memory.
fn unsolved(caches: CacheStore) -> Ended
    ensures solution { OnOk result.solution ⊥ }
    ensures caches { result.caches ≡ caches }
{
    Ended {
        solution: Err(Memory),
        caches,
    }
}

/// A board with each value in a place of its own, on which no claim is out, and its solution.
#[derive(Drop)]
struct Home<'a, E: Executor> {
    solution: Solution,
    board: Board<'a, E>,
}

/// The board of a job after the work of so many workers, whose results stand in cells, and then of the caller's thread. If there is no memory for the
/// board, nobody works, and if there is none for the solution, what comes is the store.
fn closed<
    'a,
    E: Executor,
    M: Executor,
    G: Gate,
    J: Case + Room + Numbering + Send + Sync,
    R: Threads + Wait + Sync,
>(
    alloc: Global,
    rt: &R,
    workers: u32,
    gate: &G,
    job: &Job<E>,
    recall: Option<&Recall<M, J>>,
    own: Job<'a, E>,
    caches: CacheStore,
    results: &'a Results<J>,
    opened: Opened,
) -> Result<Home<'a, E>, CacheStore>
    requires job { job_problem E.out job.now ≡ J.problem }
    requires same { LeaveTheSame (E.leaves job.now.executor) J.leaves }
    requires named { AreOf J.problem J.out J.values }
    requires stays { MayStay J.knows J.leaves }
    requires own { job_problem E.out own ≡ J.problem }
    requires leaves { LeaveTheSame (E.leaves own.executor) J.leaves }
    requires promises { J.promises ≡ true }
    requires long { results.now ≡ length J.problem.vertices }
    requires first { caches.contents ≡ J.first }
    requires before { J.before ≡ [] }
    requires idle { caches.holds ≡ [] }
    requires room { opened.table.shared.table_id ≡ J.table }
    requires workers { workers ≤ most_workers }
    ensures solution { IfOk result (λ closed. IsSolution J.problem closed.solution) }
    ensures problem { IfOk result (λ closed. board_problem E.out closed.board ≡ J.problem) }
    ensures first { IfOk result (λ closed. closed.board.first ≡ J.first) }
    ensures leaves { IfOk result (λ closed. LeaveTheSame (E.leaves closed.board.job.executor) J.leaves) }
    ensures given { IfOk result (λ closed. GivesBackWhatIsLeft (E.leaves closed.board.job.executor) (board_problem E.out closed.board) closed.board.first closed.board.run.history) }
    ensures claims { IfOk result (λ closed. closed.board.run.state.claims ≡ []) }
    ensures over { IfOk result (λ closed. (vertex : ℕ) → ¬ IsReady J.problem closed.board.run.history vertex) }
    ensures idle { IfErr result (λ caches. caches.holds ≡ []) }
    ensures left { IfErr result (λ caches. AreLeft J.problem J.first caches.contents) }
    ensures runs { IfErr result (λ caches. AreLeftByRuns J.leaves J.problem J.first caches.contents) }
{
    let board = match Board::new(alloc, own, caches) {
        Ok(board) => board,
        Err(refused) => {
            let NoBoard { caches } = refused;
            return Err(caches);
        }
    };
    let tools = Tools {
        alloc,
        job,
        recall,
        gate,
        bell: Condvar::new(),
    };
    let board = worked(rt, &tools, workers, board, results, opened);
    finished(&tools, board)
}

/// What becomes of a board on which no claim is out: the caller's thread does what is left, on the same board with each result in a place of its own.
/// If there is no memory for these, it does nothing.
fn finished<'a, E: Executor, M: Executor, G: Gate, J: Numbering, P: Place<TreeOrCause>>(
    tools: &Tools<E, M, G, J>,
    board: Board<'a, E, P>,
) -> Result<Home<'a, E>, CacheStore>
    requires claims { board.run.state.claims ≡ [] }
    requires named { AreOf (board_problem E.out board) J.out J.values }
    requires stays { MayStay J.knows (E.leaves board.job.executor) }
    requires given { GivesBackWhatIsLeft (E.leaves board.job.executor) (board_problem E.out board) board.first board.run.history }
    ensures solution { IfOk result (λ closed. IsSolution (board_problem E.out board.entry) closed.solution) }
    ensures job { IfOk result (λ closed. closed.board.job ≡ board.entry.job) }
    ensures first { IfOk result (λ closed. closed.board.first ≡ board.entry.first) }
    ensures given { IfOk result (λ closed. GivesBackWhatIsLeft (E.leaves closed.board.job.executor) (board_problem E.out closed.board) closed.board.first closed.board.run.history) }
    ensures claims { IfOk result (λ closed. closed.board.run.state.claims ≡ []) }
    ensures over { IfOk result (λ closed. (vertex : ℕ) → ¬ IsReady (board_problem E.out board.entry) closed.board.run.history vertex) }
    ensures idle { IfErr result (λ caches. caches.holds ≡ []) }
    ensures left { IfErr result (λ caches. AreLeft (board_problem E.out board.entry) board.entry.first caches.contents) }
    ensures runs { IfErr result (λ caches. AreLeftByRuns (E.leaves board.entry.job.executor) (board_problem E.out board.entry) board.entry.first caches.contents) }
{
    match board.at_home(tools.alloc) {
        Ok(mut board) => match finish_recalled(tools.alloc, tools.recall, tools.gate, &mut board) {
            Ok(solution) => Ok(Home { solution, board }),
            Err(_) => Err(board.into_caches()),
        },
        Err(board) => Err(board.into_caches()),
    }
}

/// A new board after the work of so many workers, with no claim out. If there is no memory for their seats, nobody works.
fn worked<
    'a,
    E: Executor,
    M: Executor,
    G: Gate,
    J: Case + Room + Numbering + Send + Sync,
    R: Threads + Wait + Sync,
>(
    rt: &R,
    tools: &Tools<E, M, G, J>,
    workers: u32,
    board: Board<'a, E, Known<'a, J>>,
    results: &'a Results<J>,
    opened: Opened,
) -> Board<'a, E, Known<'a, J>>
    requires job { job_problem E.out tools.now.job.now ≡ J.problem }
    requires same { LeaveTheSame (E.leaves tools.now.job.now.executor) J.leaves }
    requires named { AreOf J.problem J.out J.values }
    requires stays { MayStay J.knows J.leaves }
    requires problem { board_problem E.out board ≡ J.problem }
    requires long { results.now ≡ length J.problem.vertices }
    requires first { board.first ≡ J.first }
    requires leaves { LeaveTheSame (E.leaves board.job.executor) J.leaves }
    requires promises { J.promises ≡ true }
    requires room { opened.table.shared.table_id ≡ J.table }
    requires before { J.before ≡ [] }
    requires begun { board.run.history ≡ [] }
    requires claims { board.run.state.claims ≡ [] }
    requires workers { workers ≤ most_workers }
    ensures problem { board_problem E.out result ≡ J.problem }
    ensures first { result.first ≡ J.first }
    ensures leaves { LeaveTheSame (E.leaves result.job.executor) J.leaves }
    ensures given { GivesBackWhatIsLeft (E.leaves result.job.executor) (board_problem E.out result) result.first result.run.history }
    ensures claims { result.run.state.claims ≡ [] }
{
    let Ok(mut seats) = Vec::with_capacity(tools.alloc, workers as usize) else {
        return board;
    };
    let mut site = Site::<E, J>::new(board, results, opened);
    for _ in 0..workers {
        growth::add(&mut seats, site.seat(tools.alloc));
    }
    work_all(rt, site.desk(), tools, seats.as_mut_slice());
    site.close(seats.as_mut_slice())
}
