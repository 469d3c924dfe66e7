ghost use Rattle.std.specs.Prelude.{◌≡◌, IfOk, IfSome};
ghost use Rattle.std.specs.ControlFlow.{break_value};
ghost use Rattle.board.specs.Claim.{IsClaim, IsResult, IsGivenBack};
ghost use Rattle.board.specs.Job.{job_problem};
ghost use Rattle.board.specs.Leaving.{LeaveTheSame, IsLeftFor};
ghost use Rattle.sites.specs.Seats.{IsMine, IsLentTo};
ghost use Rattle.solver.specs.Recall.{AreOf, MayStay};

use board::{Claim, Job, Refused};
use executor::Executor;
use plain::Memory;
use plain::limits::MOST_WORKERS;
use rolls::Room;
use sites::{Case, Desk, Held, Known, Seat};
use solver::{Gate, Numbering, Recall, run_recalled};
use std::alloc::Global;
use std::ops::ControlFlow;
use std::sync::{Condvar, MutexGuard, Wait};
use std::thread;
use std::thread::Threads;
use trees::Tree;
use vertexrun::Ran;

/// What the workers of a site share beside its desk.
#[derive(Drop)]
pub(crate) struct Tools<'a, 'b, 'r, 'm, 'k, 'g, E: Executor, M: Executor, G, J: Numbering> {
    pub alloc: Global,
    pub job: &'a Job<'b, E>,
    /// What earlier builds gave, if that is anything.
    pub recall: Option<&'r Recall<'m, 'k, M, J>>,
    pub gate: &'g G,
    /// Where a worker sleeps that finds nothing to claim while others have claims out.
    pub bell: Condvar,
}

/// The work of each seat, in a thread of its own.
pub(crate) fn work_all<
    E: Executor,
    M: Executor,
    G: Gate,
    J: Case + Room + Numbering + Send + Sync,
    R: Threads + Wait + Sync,
>(rt: &R, desk: &Desk<E, J>, tools: &Tools<E, M, G, J>, seats: &mut [Seat<J>])
    requires job { job_problem E.out tools.now.job.now ≡ J.problem }
    requires leaves { LeaveTheSame (E.leaves tools.now.job.now.executor) J.leaves }
    requires named { AreOf J.problem J.out J.values }
    requires stays { MayStay J.knows J.leaves }
{
    thread::for_each_mut(
        rt,
        seats,
        MOST_WORKERS as usize,
        &|_, seat: &mut Seat<J>|
            requires job { job_problem E.out tools.now.job.now ≡ J.problem }
            requires leaves { LeaveTheSame (E.leaves tools.now.job.now.executor) J.leaves }
            requires named { AreOf J.problem J.out J.values }
            requires stays { MayStay J.knows J.leaves }
        { work(rt, desk, tools, seat) },
    );
}

/// The work of one seat: claim, run, settle, until nothing is left to claim or memory is wanting. No vertex is run and no memo is asked under the lock. What a run
/// gave stands in the vertex's cell before the lock is taken, and what wasn't settled is let go after the lock, so that no tree is changed or let go under it. The
/// lock is taken once for a vertex: whoever ends a claim looks for the next under the same one.
///
/// A vertex is ready from the start, or gets so by the end of a claim: its last input gets its tree, a cache that it waits for comes back, or its own claim is
/// given up. Each worker looks at the board first of all, and whoever ends a claim looks again, or leaves. A look claims a vertex, and wakes one sleeper if
/// more may be left (`Held::has_more`). Or it finds none ready: then it sleeps while a claim is out, and else leaves. Where memory is wanting, it leaves too.
/// Whoever leaves wakes all.
///
/// Each look is under the lock, and who falls asleep lets go of the lock only as a sleeper, so that no ring gets lost. From this follows, though no clause says
/// it:
///
/// - Nobody sleeps for good while a vertex is ready. If nobody is awake, whoever looked last neither claimed, since it would have a claim to end, nor left
///   others asleep, since it would have woken them. So it sleeps, and found nothing ready; and no claim has ended since.
/// - Nobody sleeps for good when all is over. A sleeper's look found a claim out. Its worker looks again, or leaves; the last one to look finds no claim out,
///   leaves, and wakes all, and none of these finds one.
/// - No ready vertex waits for a sleeper. If one end makes several ready, as that of a cache's holder does, each look that claims one, lets go of the lock and
///   leaves others wakes one sleeper more. Where that one finds nothing, whoever took the vertex has looked since, and has woken another if more was left.
///
/// A chain of vertices wakes nobody. A vertex whose cache is held, or which a failure stops, may wake a sleeper for nothing.
fn work<E: Executor, M: Executor, G: Gate, J: Case + Room + Numbering, R: Wait>(
    rt: &R,
    desk: &Desk<E, J>,
    tools: &Tools<E, M, G, J>,
    seat: &mut Seat<J>,
)
    requires job { job_problem E.out tools.now.job.now ≡ J.problem }
    requires leaves { LeaveTheSame (E.leaves tools.now.job.now.executor) J.leaves }
    requires named { AreOf J.problem J.out J.values }
    requires stays { MayStay J.knows J.leaves }
{
    let mut held = desk.lock(rt);
    for _ in rt.forever() {
        let Some((drawn, lock)) = draw(rt, tools, held, seat) else {
            break;
        };
        let Drawn { claim, is_more } = drawn;
        drop(lock);
        if is_more {
            tools.bell.notify_one();
        }
        let ran = run_recalled(tools.alloc, tools.job, tools.recall, tools.gate, &claim);
        let kept = keep(tools, desk, &claim, ran);
        held = desk.lock(rt);
        let ended = end(tools.alloc, &mut *held, seat, claim, kept);
        if ended.is_err() {
            drop(held);
            break;
        }
    }
    tools.bell.notify_all();
}

/// A claim, and whether there may be more: if not, the claim left no vertex ready.
struct Drawn<'a, J: Case> {
    claim: Claim<Known<'a, J>>,
    is_more: bool,
}

/// A claim for a seat, as soon as there is one: none where no claim is out and none is to be had, or where memory is wanting. It sleeps while others
/// have claims out, until it is woken. The lock that it is given comes back with the claim.
fn draw<'a, 'h, E: Executor, M: Executor, G, J: Case + Room + Numbering, R: Wait>(
    rt: &R,
    tools: &Tools<E, M, G, J>,
    held: MutexGuard<'h, Held<'a, E, J>>,
    seat: &mut Seat<J>,
) -> Option<(Drawn<'a, J>, MutexGuard<'h, Held<'a, E, J>>)>
    ensures mine { IfSome result (λ drawn. IsMine seat.new drawn.0.claim) }
    ensures of { IfSome result (λ drawn. IsClaim J.problem drawn.0.claim) }
    ensures lent { IfSome result (λ drawn. IsLentTo seat.new drawn.0.claim) }
{
    let mut held = held;
    for _ in rt.forever() {
        if let ControlFlow::Break(drawn) = draw_now(tools.alloc, &mut *held, seat) {
            return match drawn {
                Some(drawn) => Some((drawn, held)),
                None => None,
            };
        }
        held = tools.bell.wait(rt, held);
    }
    unreachable!()
}

/// What a seat draws from the board as it is: a claim, or, as `draw` says, that there is none for it. It goes on while one may come from a claim that is out.
fn draw_now<'a, E: Executor, J: Case + Room>(
    alloc: Global,
    held: &mut Held<'a, E, J>,
    seat: &mut Seat<J>,
) -> ControlFlow<Option<Drawn<'a, J>>>
    ensures mine { IfSome (break_value result) (λ found. IfSome found (λ drawn. IsMine seat.new drawn.claim)) }
    ensures of { IfSome (break_value result) (λ found. IfSome found (λ drawn. IsClaim J.problem drawn.claim)) }
    ensures lent { IfSome (break_value result) (λ found. IfSome found (λ drawn. IsLentTo seat.new drawn.claim)) }
{
    match held.claim(alloc, seat) {
        Ok(Some(claim)) => {
            let is_more = held.has_more();
            ControlFlow::Break(Some(Drawn { claim, is_more }))
        }
        Ok(None) => {
            if held.is_idle() {
                return ControlFlow::Break(None);
            }
            ControlFlow::Continue(())
        }
        Err(Memory) => ControlFlow::Break(None),
    }
}

/// What a run gave, its value in the cell of its vertex.
#[derive(Drop)]
struct Kept<'a, J: Case> {
    known: Known<'a, J>,
    given: Vec<Tree>,
}

/// Puts what a run gave into the cell of its vertex, without the lock. None if memory is wanting, or if the value of another vertex stands there.
fn keep<'a, E: Executor, M: Executor, G, J: Case + Room + Numbering>(
    tools: &Tools<E, M, G, J>,
    desk: &Desk<'a, E, J>,
    claim: &Claim<Known<'a, J>>,
    ran: Result<Ran, Memory>,
) -> Option<Kept<'a, J>>
    requires job { job_problem E.out tools.now.job.now ≡ J.problem }
    requires leaves { LeaveTheSame (E.leaves tools.now.job.now.executor) J.leaves }
    requires of { IsClaim J.problem claim.now }
    requires value { IfOk ran (λ ran. IsResult J.problem claim.now ran.value) }
    requires given { IfOk ran (λ ran. IsGivenBack J.problem claim.now ran.given.items) }
    requires left { IfOk ran (λ ran. IsLeftFor (E.leaves tools.now.job.now.executor) J.problem claim.now ran.given.items) }
    ensures value { IfSome result (λ kept. IsResult J.problem claim.now kept.known.value) }
    ensures given { IfSome result (λ kept. IsGivenBack J.problem claim.now kept.given.items) }
    ensures left { IfSome result (λ kept. IsLeftFor J.leaves J.problem claim.now kept.given.items) }
{
    let Ok(Ran { value, given }) = ran else {
        return None;
    };
    match desk.keep(tools.alloc, tools.job, claim, value) {
        Ok(Some(known)) => Some(Kept { known, given }),
        _ => None,
    }
}

/// Settles the claim that a seat has out with what stands in its vertex's cell, or gives it up if nothing does. If it wasn't settled, the trees
/// that its run gave back come back.
fn end<'a, E: Executor, J: Case + Room>(
    alloc: Global,
    held: &mut Held<'a, E, J>,
    seat: &mut Seat<J>,
    claim: Claim<Known<'a, J>>,
    kept: Option<Kept<'a, J>>,
) -> Result<(), Vec<Tree>>
    requires mine { IsMine seat.old claim }
    requires of { IsClaim J.problem claim }
    requires value { IfSome kept (λ kept. IsResult J.problem claim kept.known.value) }
    requires given { IfSome kept (λ kept. IsGivenBack J.problem claim kept.given.items) }
    requires lent { IsLentTo seat.old claim }
    requires left { IfSome kept (λ kept. IsLeftFor J.leaves J.problem claim kept.given.items) }
{
    let Some(Kept { known, given }) = kept else {
        held.abandon(seat, claim);
        return Err(Vec::new(alloc));
    };
    match held.settle(alloc, seat, claim, known, given) {
        Ok(()) => Ok(()),
        Err(refused) => {
            let Refused {
                claim,
                value: _,
                given,
            } = refused;
            held.abandon(seat, claim);
            Err(given)
        }
    }
}
