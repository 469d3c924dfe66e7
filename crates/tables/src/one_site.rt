// `sites`: a name, ` | `, a bundle, ` | `, and how its plan is solved on one site: `tallies` or `apart`, by two threads, each with a seat; `inputs`, by one thread,
// which reads the first input of each claim after the claim was settled; or `given up`, by one thread, which settles one vertex and still has the claim of
// the next when the site is closed.
//
// The answer is the name, and the vertices of both tallies in ascending order; with `apart` also whether a command was claimed while another one was out. With
// `inputs` it is each vertex with what its first input holds, if it has one. With `given up` it is the history of the board that the site gives, once a sweep
// has solved what is left, and what the plan comes to.
//
// The case of these sites promises nothing of what a settle gives back.

ghost use Rattle.std.specs.Prelude.{◌≡◌, [], false};
ghost use Rattle.board.specs.Claim.{IsClaim};
ghost use Rattle.board.specs.Job.{job_problem};
ghost use Rattle.sites.specs.Seats.{IsMine};

use crate::by_hand::plan_of_bundle;
use crate::histories::{is_command, push_history};
use crate::stores::solution_text;
use board::{Board, Claim, Happened, Job, NoBoard, Refused};
use cachemounts::CacheStore;
use executor::{Executor, Fixture};
use llb::Graph;
use plain::Memory;
use plans::Plan;
use rolls::{Opened, Room};
use samples::listing;
use sites::{Case, Desk, Known, Results, Seat, Site};
use solver::{OpenGate, finish, run};
use std::alloc::Global;
use std::hash::RandomState;
use std::marker::Brand;
use std::sync::Wait;
use std::thread;
use std::thread::Threads;
use vertexrun::Ran;

/// How often a worker looks for a vertex before it leaves.
const TURNS: u32 = 1_000;

/// How a site is used.
#[derive(Clone, Copy)]
enum How {
    Tallies,
    Apart,
    Inputs,
    GivenUp,
}

pub fn answer(
    alloc: Global,
    keys: RandomState,
    rt: &(impl Threads + Wait + Sync),
    case: &str,
) -> Result<String, Memory> {
    let (name, rest) = case.split_once(" | ").unwrap_or((case, ""));
    let (bundle, how) = rest.rsplit_once(" | ").unwrap_or((rest, ""));
    let how = match how {
        "inputs" => How::Inputs,
        "given up" => How::GivenUp,
        "apart" => How::Apart,
        _ => How::Tallies,
    };
    let plan = plan_of_bundle(alloc, keys, rt, bundle)?;
    let text = of_plan(alloc, rt, &plan, &Fixture, how);
    drop(plan);
    let text = text?;
    Ok(format!(in alloc; "{name}:{text}")?)
}

/// What the workers share beside the desk.
#[derive(Drop)]
struct Tools<'a, E: Executor> {
    alloc: Global,
    job: &'a Job<'a, E>,
}

fn of_plan<C, E: Executor, R: Threads + Wait + Sync>(
    alloc: Global,
    rt: &R,
    plan: &Plan<C>,
    executor: &E,
    how: How,
) -> Result<String, Memory> {
    let opened = Opened::new(alloc)?;
    let job = Job::new(plan, executor);
    let tools = Tools { alloc, job: &job };
    of_job::<E, Brand, R>(rt, &tools, Job::new(plan, executor), opened, how)
}

/// On a new board of a job.
fn of_job<E: Executor, J: Case + Room + Send + Sync, R: Threads + Wait + Sync>(
    rt: &R,
    tools: &Tools<E>,
    job: Job<E>,
    opened: Opened,
    how: How,
) -> Result<String, Memory>
    requires job { job_problem E.out tools.now.job.now ≡ J.problem }
    requires problem { job_problem E.out job ≡ J.problem }
    requires first { J.first ≡ [] }
    requires before { J.before ≡ [] }
    requires promises { J.promises ≡ false }
    requires room { opened.table.shared.table_id ≡ J.table }
{
    let results = Results::<J>::new(tools.alloc, job.graph().len())?;
    match Board::new(tools.alloc, job, CacheStore::new(tools.alloc)) {
        Ok(board) => {
            let site = Site::<E, J>::new(board, &results, opened);
            match how {
                How::Inputs => inputs_of(rt, tools, site),
                How::GivenUp => given_up(rt, tools, site),
                How::Tallies => shared(rt, tools, site, false),
                How::Apart => shared(rt, tools, site, true),
            }
        }
        Err(NoBoard { caches }) => {
            drop(caches);
            drop(opened);
            Err(Memory)
        }
    }
}

/// Two threads share the site.
fn shared<'a, E: Executor, J: Case + Room + Send + Sync, R: Threads + Wait + Sync>(
    rt: &R,
    tools: &Tools<E>,
    mut site: Site<'a, E, J>,
    is_apart: bool,
) -> Result<String, Memory>
    requires fresh { site ≡ 0 }
    requires job { job_problem E.out tools.now.job.now ≡ J.problem }
    requires promises { J.promises ≡ false }
{
    let mut seats = [site.seat(tools.alloc), site.seat(tools.alloc)];
    work_all(rt, site.desk(), tools, &mut seats);
    let history = site.close(&mut seats).into_history();
    let text = shared_text(tools, &seats, history.as_slice(), is_apart);
    drop(seats);
    drop(history);
    text
}

/// The tallies of seats, and of a history whether commands are apart in it, if that is asked.
fn shared_text<E: Executor, J: Room>(
    tools: &Tools<E>,
    seats: &[Seat<J>],
    history: &[Happened],
    is_apart: bool,
) -> Result<String, Memory> {
    let mut text = String::new(tools.alloc);
    for vertex in tallies_of(tools.alloc, seats)?.as_slice() {
        write!(text, " {vertex}")?;
    }
    if is_apart {
        text.push_str(if are_apart(tools.job.graph(), history) {
            "; one command at a time"
        } else {
            "; two commands at once"
        })?;
    }
    Ok(text)
}

/// Whether no command is claimed in a history while another one is out.
fn are_apart(graph: &Graph, history: &[Happened]) -> bool {
    let mut is_out = false;
    for happened in history {
        match happened {
            Happened::Claimed { worker: _, vertex } if is_command(graph, *vertex) => {
                if is_out {
                    return false;
                }
                is_out = true;
            }
            Happened::Settled { vertex, .. } | Happened::Abandoned { vertex, .. }
                if is_command(graph, *vertex) => {
                is_out = false;
            }
            _ => {}
        }
    }
    true
}

/// The vertices that these seats have settled, in ascending order.
fn tallies_of<J: Room>(alloc: Global, seats: &[Seat<J>]) -> Result<Vec<u32>, Memory> {
    let mut tallies = Vec::new(alloc);
    for seat in seats {
        for vertex in seat.tally() {
            tallies.push(vertex.number())?;
        }
    }
    tallies.sort()?;
    Ok(tallies)
}

/// The work of each seat, in a thread of its own.
fn work_all<E: Executor, J: Case + Room + Send + Sync, R: Threads + Wait + Sync>(
    rt: &R,
    desk: &Desk<E, J>,
    tools: &Tools<E>,
    seats: &mut [Seat<J>],
)
    requires job { job_problem E.out tools.now.job.now ≡ J.problem }
    requires promises { J.promises ≡ false }
{
    thread::for_each_mut(
        rt,
        seats,
        2,
        &|_, seat: &mut Seat<J>|
            requires job { job_problem E.out tools.now.job.now ≡ J.problem }
            requires promises { J.promises ≡ false }
        { work(rt, desk, tools, seat) },
    );
}

/// A worker's turns: a claim under the lock, a run outside of it, a settle under it.
fn work<E: Executor, J: Case + Room, R: Wait>(
    rt: &R,
    desk: &Desk<E, J>,
    tools: &Tools<E>,
    seat: &mut Seat<J>,
)
    requires job { job_problem E.out tools.now.job.now ≡ J.problem }
    requires promises { J.promises ≡ false }
{
    for _ in 0..TURNS {
        let claimed = desk.lock(rt).claim(tools.alloc, seat);
        match claimed {
            Ok(Some(claim)) => settle_run(rt, desk, tools, seat, claim),
            _ => thread::yield_now(),
        }
    }
}

/// Runs the vertex of a claim, and settles it. For want of memory the claim is given up.
fn settle_run<'a, E: Executor, J: Case + Room, R: Wait>(
    rt: &R,
    desk: &Desk<'a, E, J>,
    tools: &Tools<E>,
    seat: &mut Seat<J>,
    claim: Claim<Known<'a, J>>,
)
    requires job { job_problem E.out tools.now.job.now ≡ J.problem }
    requires promises { J.promises ≡ false }
    requires mine { IsMine seat.old claim }
    requires of { IsClaim J.problem claim }
{
    let Ok(ran) = run(tools.alloc, tools.job, &claim) else {
        desk.lock(rt).abandon(seat, claim);
        return;
    };
    let Ran { value, given } = ran;
    let Ok(Some(known)) = desk.keep(tools.alloc, tools.job, &claim, value) else {
        desk.lock(rt).abandon(seat, claim);
        return;
    };
    let mut held = desk.lock(rt);
    if let Err(refused) = held.settle(tools.alloc, seat, claim, known, given) {
        let Refused {
            claim,
            value: _,
            given: _,
        } = refused;
        held.abandon(seat, claim);
    }
}

/// One thread has the site, and reads inputs after it settled.
fn inputs_of<'a, E: Executor, J: Case + Room, R: Wait>(
    rt: &R,
    tools: &Tools<E>,
    mut site: Site<'a, E, J>,
) -> Result<String, Memory>
    requires fresh { site ≡ 0 }
    requires job { job_problem E.out tools.now.job.now ≡ J.problem }
    requires promises { J.promises ≡ false }
{
    let mut seat = site.seat(tools.alloc);
    let mut text = String::new(tools.alloc);
    let done = read_inputs(rt, tools, &site, &mut seat, &mut text);
    drop(site);
    drop(seat);
    match done {
        Ok(()) => Ok(text),
        Err(memory) => Err(memory),
    }
}

fn read_inputs<'a, E: Executor, J: Case + Room, R: Wait>(
    rt: &R,
    tools: &Tools<E>,
    site: &Site<'a, E, J>,
    seat: &mut Seat<J>,
    text: &mut String,
) -> Result<(), Memory>
    requires job { job_problem E.out tools.now.job.now ≡ J.problem }
    requires promises { J.promises ≡ false }
{
    for _ in 0..tools.job.graph().len() {
        read_input(rt, tools, site, seat, text)?;
    }
    Ok(())
}

/// Claims a vertex, settles it, and tells then what its first input holds.
fn read_input<'a, E: Executor, J: Case + Room, R: Wait>(
    rt: &R,
    tools: &Tools<E>,
    site: &Site<'a, E, J>,
    seat: &mut Seat<J>,
    text: &mut String,
) -> Result<(), Memory>
    requires job { job_problem E.out tools.now.job.now ≡ J.problem }
    requires promises { J.promises ≡ false }
{
    let claimed = site.lock(rt).claim(tools.alloc, seat)?;
    let Some(claim) = claimed else {
        return Ok(());
    };
    let vertex = claim.vertex().number();
    let input = if claim.input_count() > 0 {
        Some(site.input(&claim, 0))
    } else {
        None
    };
    settle_run(rt, site.desk(), tools, seat, claim);
    write!(text, " {vertex}")?;
    if let Some(tree) = input {
        let list = listing(tools.alloc, tree)?;
        write!(text, " after{list};")?;
    }
    Ok(())
}

/// One thread settles a vertex, and has the next one claimed when the site is closed. Its claim goes to the board that the site gives, on which a sweep solves the rest.
fn given_up<'a, E: Executor, J: Case + Room, R: Wait>(
    rt: &R,
    tools: &Tools<E>,
    mut site: Site<'a, E, J>,
) -> Result<String, Memory>
    requires fresh { site ≡ 0 }
    requires job { job_problem E.out tools.now.job.now ≡ J.problem }
    requires promises { J.promises ≡ false }
{
    let mut seat = site.seat(tools.alloc);
    let mut text = String::new(tools.alloc);
    let settled = read_input(rt, tools, &site, &mut seat, &mut text);
    drop(text);
    let claimed = site.lock(rt).claim(tools.alloc, &mut seat);
    let mut seats = [seat];
    let mut board = site.close(&mut seats);
    drop(seats);
    if let Ok(Some(claim)) = claimed {
        board.abandon(claim);
    }
    match settled {
        Ok(()) => finished(tools, board),
        Err(memory) => {
            drop(board.into_caches());
            Err(memory)
        }
    }
}

/// The history of a board once a sweep has solved what is left, and what its plan comes to.
fn finished<'a, E: Executor, J: Case>(
    tools: &Tools<E>,
    board: Board<'a, E, Known<'a, J>>,
) -> Result<String, Memory>
    requires { board.run.state.claims ≡ [] }
{
    match board.at_home(tools.alloc) {
        Ok(mut board) => {
            let solution = finish(tools.alloc, &OpenGate, &mut board);
            let mut text = String::new(tools.alloc);
            let told = push_history(&mut text, tools.job.graph(), board.history());
            drop(board);
            let (solution, ()) = (solution?, told?);
            let solution = solution_text(tools.alloc, solution)?;
            Ok(format!(in tools.alloc; "{text}; {solution}")?)
        }
        Err(board) => {
            drop(board.into_caches());
            Err(Memory)
        }
    }
}
