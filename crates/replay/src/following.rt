ghost use Rattle.std.specs.Prelude.{◌≡◌, [], None, map, IfOk, IfSome, IfNone, OnOk};
ghost use Rattle.plans.specs.Plan.{problem_of};
ghost use Rattle.board.specs.Board.{board_problem};
ghost use Rattle.board.specs.Claim.{claim_out};
ghost use Rattle.board.specs.Leaving.{GivesBackWhatIsLeft};
ghost use Rattle.board.specs.Legal.{Plays};
ghost use Rattle.board.specs.Play.{claim_of};
ghost use Rattle.board.specs.declared.event.Event.TheVariants.{Claim as Claiming, Settle as Settling, Abandon as Abandoning};
ghost use Rattle.replay.specs.PrivateFollowing.{AreOut, AreLent, Begins, IsAt, IsTaken, Applies};

use board::{Board, Claim, Event, Happened, Job, NoBoard, Refused};
use cachemounts::CacheStore;
use executor::Executor;
use plain::{Items, Memory, growth};
use plans::Plan;
use solver::run;
use std::alloc::Global;
use vertexrun::Ran;

/// The history that a list of events leaves on a new board with an empty store: an event that isn't possible when its turn comes is skipped. A
/// settle brings what the run of its claim gives, and gives back what it leaves of what the caches held when its vertex was claimed. A claim that is
/// still out after the last event is given up, and the history doesn't tell of that.
pub fn follow<C, E: Executor>(
    alloc: Global,
    plan: &Plan<C>,
    executor: &E,
    events: &[Event],
) -> Result<Items<Happened>, Memory>
    ensures plays { IfOk result (Plays (problem_of (E.out executor.now) plan.now) events.now) }
    ensures given { IfOk result (GivesBackWhatIsLeft (E.leaves executor.now) (problem_of (E.out executor.now) plan.now) []) }
{
    let job = Job::new(plan, executor);
    let mut board = match Board::new(alloc, job, CacheStore::new(alloc)) {
        Ok(board) => board,
        Err(refused) => {
            let NoBoard { caches: _ } = refused;
            return Err(Memory);
        }
    };
    let mut out = Vec::new(alloc);
    for event in events {
        if let Err(memory) = apply(alloc, &mut board, &mut out, *event) {
            abandon_each(&mut board, out);
            return Err(memory);
        }
    }
    let count = board.history().len();
    abandon_each(&mut board, out);
    let mut history = board.into_history();
    // No event asked for the abandons of the claims that were still out.
    history.truncate(count);
    Ok(Items::from_vec(history))
}

/// One event, where it is possible. `out` has the claims that are out.
fn apply<E: Executor>(
    alloc: Global,
    board: &mut Board<E>,
    out: &mut Vec<Claim>,
    event: Event,
) -> Result<(), Memory>
    requires out { AreOut (board_problem E.out board.old) board.old.run.state.claims out.old.items }
    requires lent { AreLent (board_problem E.out board.old) board.old.first board.old.run.history out.old.items }
    ensures job { OnOk result (board.new.job ≡ board.old.job) }
    ensures first { OnOk result (board.new.first ≡ board.old.first) }
    ensures applies { OnOk result (Applies (board_problem E.out board.old) event board.old.run.history board.new.run.history) }
    ensures out { OnOk result (AreOut (board_problem E.out board.old) board.new.run.state.claims out.new.items) }
    ensures lent { OnOk result (AreLent (board_problem E.out board.old) board.new.first board.new.run.history out.new.items) }
    ensures left { OnOk result (GivesBackWhatIsLeft (E.leaves board.old.job.executor) (board_problem E.out board.old) board.old.first board.old.run.history
        → GivesBackWhatIsLeft (E.leaves board.new.job.executor) (board_problem E.out board.new) board.new.first board.new.run.history) }
{
    match event {
        Event::Claim(worker) => claim_next(alloc, board, out, worker),
        Event::Settle(worker) => settle_claim(alloc, board, out, worker),
        Event::Abandon(worker) => {
            abandon_claim(board, out, worker);
            Ok(())
        }
    }
}

/// A claim by a worker, where it is possible.
fn claim_next<E: Executor>(
    alloc: Global,
    board: &mut Board<E>,
    out: &mut Vec<Claim>,
    worker: u32,
) -> Result<(), Memory>
    requires out { AreOut (board_problem E.out board.old) board.old.run.state.claims out.old.items }
    requires lent { AreLent (board_problem E.out board.old) board.old.first board.old.run.history out.old.items }
    ensures job { OnOk result (board.new.job ≡ board.old.job) }
    ensures first { OnOk result (board.new.first ≡ board.old.first) }
    ensures applies { OnOk result (Applies (board_problem E.out board.old) (Claiming worker) board.old.run.history board.new.run.history) }
    ensures out { OnOk result (AreOut (board_problem E.out board.old) board.new.run.state.claims out.new.items) }
    ensures lent { OnOk result (AreLent (board_problem E.out board.old) board.new.first board.new.run.history out.new.items) }
    ensures left { OnOk result (GivesBackWhatIsLeft (E.leaves board.old.job.executor) (board_problem E.out board.old) board.old.first board.old.run.history
        → GivesBackWhatIsLeft (E.leaves board.new.job.executor) (board_problem E.out board.new) board.new.first board.new.run.history) }
{
    growth::room(out, 1)?;
    let _known = board.history();
    let claimed = board.claim(alloc, worker)?;
    let Some(claim) = claimed else {
        return Ok(());
    };
    growth::add(out, claim);
    Ok(())
}

/// A settle by a worker, where it is possible, with what the run of its claim gives.
fn settle_claim<E: Executor>(
    alloc: Global,
    board: &mut Board<E>,
    out: &mut Vec<Claim>,
    worker: u32,
) -> Result<(), Memory>
    requires out { AreOut (board_problem E.out board.old) board.old.run.state.claims out.old.items }
    requires lent { AreLent (board_problem E.out board.old) board.old.first board.old.run.history out.old.items }
    ensures job { OnOk result (board.new.job ≡ board.old.job) }
    ensures first { OnOk result (board.new.first ≡ board.old.first) }
    ensures applies { OnOk result (Applies (board_problem E.out board.old) (Settling worker) board.old.run.history board.new.run.history) }
    ensures out { OnOk result (AreOut (board_problem E.out board.old) board.new.run.state.claims out.new.items) }
    ensures lent { OnOk result (AreLent (board_problem E.out board.old) board.new.first board.new.run.history out.new.items) }
    ensures left { OnOk result (GivesBackWhatIsLeft (E.leaves board.old.job.executor) (board_problem E.out board.old) board.old.first board.old.run.history
        → GivesBackWhatIsLeft (E.leaves board.new.job.executor) (board_problem E.out board.new) board.new.first board.new.run.history) }
{
    let _known = board.history();
    let Some(claim) = take_claim(out, worker) else {
        return Ok(());
    };
    let Ran { value, given } = match run(alloc, board.job(), &claim) {
        Ok(ran) => ran,
        Err(memory) => {
            board.abandon(claim);
            return Err(memory);
        }
    };
    match board.settle(alloc, claim, value, given) {
        Ok(()) => Ok(()),
        Err(refused) => {
            let Refused {
                claim,
                value: _,
                given: _,
            } = refused;
            board.abandon(claim);
            Err(Memory)
        }
    }
}

/// An abandon by a worker, where it is possible.
fn abandon_claim<E: Executor>(board: &mut Board<E>, out: &mut Vec<Claim>, worker: u32)
    requires out { AreOut (board_problem E.out board.old) board.old.run.state.claims out.old.items }
    requires lent { AreLent (board_problem E.out board.old) board.old.first board.old.run.history out.old.items }
    ensures job { board.new.job ≡ board.old.job }
    ensures first { board.new.first ≡ board.old.first }
    ensures applies { Applies (board_problem E.out board.old) (Abandoning worker) board.old.run.history board.new.run.history }
    ensures out { AreOut (board_problem E.out board.old) board.new.run.state.claims out.new.items }
    ensures lent { AreLent (board_problem E.out board.old) board.new.first board.new.run.history out.new.items }
    ensures left { GivesBackWhatIsLeft (E.leaves board.old.job.executor) (board_problem E.out board.old) board.old.first board.old.run.history
        → GivesBackWhatIsLeft (E.leaves board.new.job.executor) (board_problem E.out board.new) board.new.first board.new.run.history }
{
    let _known = board.history();
    let Some(claim) = take_claim(out, worker) else {
        return;
    };
    board.abandon(claim);
}

/// Takes a worker's claim from those that are out.
fn take_claim(out: &mut Vec<Claim>, worker: u32) -> Option<Claim>
    ensures found { IfSome result (IsTaken worker out.old.items out.new.items) }
    ensures none { IfNone result (claim_of worker (map claim_out out.old.items) ≡ None) }
    ensures same { IfNone result (out.new.items ≡ out.old.items) }
{
    let at = position_of(out.as_slice(), worker)?;
    Some(out.remove(at))
}

/// Where a worker's claim is among those that are out.
fn position_of(out: &[Claim], worker: u32) -> Option<usize>
    ensures found { IfSome result (IsAt out.now worker) }
    ensures none { IfNone result (claim_of worker (map claim_out out.now) ≡ None) }
{
    for (at, claim) in out.iter().enumerate() {
        if claim.worker() == worker {
            return Some(at);
        }
    }
    None
}

/// Gives each of these claims up. What has happened before stays the beginning of the history.
fn abandon_each<E: Executor>(board: &mut Board<E>, mut claims: Vec<Claim>)
    ensures { Begins board.old.run.history board.new.run.history }
{
    while let Some(claim) = claims.pop() {
        board.abandon(claim);
    }
    claims.destroy_empty();
}
