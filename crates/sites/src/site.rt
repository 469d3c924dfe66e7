ghost use Rattle.std.specs.Prelude.{◌≡◌, ◌<◌, ◌+◌, ◌^◌, true, [], None, Some, IfOk, IfSome, length, slice_get};
ghost use Rattle.board.specs.Board.{board_problem};
ghost use Rattle.board.specs.Claim.{IsClaim, IsResult};
ghost use Rattle.board.specs.Job.{job_problem};
ghost use Rattle.board.specs.Leaving.{LeaveTheSame, GivesBackWhatIsLeft};
ghost use Rattle.sites.specs.Seats.{SeatValue, AreAll, AreSettled, AreTallies};

use crate::{Case, Held, Known, Results, Seat};
use board::{Board, Claim, Job};
use executor::Executor;
use plain::Memory;
use rolls::{Giver, Opened, Room};
use std::alloc::Global;
use std::marker::{Model, PhantomData};
use std::sync::{Mutex, MutexGuard, Wait};
use trees::{Tree, TreeOrCause};

/// What the workers of a site share: the lock, and beside it the cells with the results. A `Site` itself can't be lent to several threads, since it gives seats.
#[derive(Drop)]
pub struct Desk<'a, E: Executor, J: Case + Room> {
    held: Mutex<Held<'a, E, J>>,
    results: &'a Results<J>,
    ghost long: { results.now ≡ length J.problem.vertices },
}

impl<'a, E: Executor, J: Case + Room> Desk<'a, E, J> {
    /// Waits for the lock. What is then known of the board is what its type says.
    pub fn lock<R: Wait>(&self, rt: &R) -> MutexGuard<'_, Held<'a, E, J>> {
        self.held.lock(rt)
    }

    /// Puts the result of a claim into the cell of its vertex, unless one stands there already, and answers what stands there then: the vertex's
    /// value, whoever put it there. None if what stands there is another vertex's. It waits for nobody.
    pub fn keep(
        &self,
        alloc: Global,
        job: &Job<E>,
        claim: &Claim<Known<'a, J>>,
        value: TreeOrCause,
    ) -> Result<Option<Known<'a, J>>, Memory>
        requires job { job_problem E.out job.now ≡ J.problem }
        requires of { IsClaim J.problem claim.now }
        requires value { IsResult J.problem claim.now value }
        ensures { IfOk result (λ known. IfSome known (λ k. (k.number ≡ claim.now.vertex) × IsResult J.problem claim.now k.value)) }
    {
        let _known = job.graph();
        self.results.keep(alloc, claim.vertex().number(), value)
    }

    /// The tree of an input of a claim's vertex, by the input's position. It stands in the input's cell, which the claim knows. It waits for nobody,
    /// and the tree outlives the claim.
    pub fn input(&self, claim: &Claim<Known<'a, J>>, at: usize) -> &'a Tree
        requires { at < length claim.now.inputs }
        ensures { slice_get claim.now.inputs at ≡ Some result.now }
    {
        match claim.place(at).value() {
            Ok(tree) => tree,
            Err(_) => unreachable!(),
        }
    }
}

/// A board under a lock, and the right to give seats at it. Contracts see how many seats were given.
#[derive(Drop)]
pub struct Site<'a, E: Executor, J: Case + Room> {
    desk: Desk<'a, E, J>,
    giver: Giver<J>,
}

impl<'a, E: Executor, J: Case + Room> Model for Site<'a, E, J> {
    ghost use Rattle.std.specs.Prelude.{ℕ};
    ghost use Rattle.std.specs.Coded.{coded_ℕ};

    ghost Value = { ℕ };

    ghost coded = { coded_ℕ };

    ghost view = { λ s. s.giver };
}

impl<'a, E: Executor, J: Case + Room> Site<'a, E, J> {
    /// The site of a board, with a roll on which nothing stands, which gave no seat yet. What had happened on the board stands, and every claim that is out on it
    /// is abandoned. Board, its executor and roll have to be those that the site's type names; if its case promises that each settle gives back what a run left,
    /// those on the board have to have done so. It takes no memory.
    pub fn new(
        board: Board<'a, E, Known<'a, J>>,
        results: &'a Results<J>,
        opened: Opened,
    ) -> Site<'a, E, J>
        requires problem { board_problem E.out board ≡ J.problem }
        requires long { results.now ≡ length J.problem.vertices }
        requires first { board.first ≡ J.first }
        requires before { board.run.history ≡ J.before }
        requires leaves { J.promises ≡ true → LeaveTheSame (E.leaves board.job.executor) J.leaves }
        requires given { J.promises ≡ true → GivesBackWhatIsLeft (E.leaves board.job.executor) (board_problem E.out board) board.first board.run.history }
        requires room { opened.table.shared.table_id ≡ J.table }
        ensures { result ≡ 0 }
    {
        let mut cleared = board;
        cleared.abandon_all();
        let (roll, giver) = opened.named::<J>();
        let held = Held {
            board: cleared,
            roll,
            of: PhantomData,
        };
        Site {
            desk: Desk {
                held: Mutex::new(held),
                results,
            },
            giver,
        }
    }

    /// A seat for one worker more, whose number is that of the seats that were given before. Numbers end at 2^32 - 2. It takes no memory.
    pub fn seat(&mut self, alloc: Global) -> Seat<J>
        requires { self.old + 1 < 2 ^ 32 }
        ensures seat { result ≡ record { worker = self.old; out = None; tally = []; lent = [] } }
        ensures given { self.new ≡ self.old + 1 }
    {
        let worker = self.giver.given();
        let desk = &mut self.desk;
        let slip = desk.held.get_mut().slip(&mut self.giver);
        Seat::new(alloc, worker, slip)
    }

    /// What threads share of it.
    pub fn desk(&self) -> &Desk<'a, E, J> {
        &self.desk
    }

    /// Waits for the lock. What is then known of the board is what its type says.
    pub fn lock<R: Wait>(&self, rt: &R) -> MutexGuard<'_, Held<'a, E, J>> {
        self.desk.lock(rt)
    }

    /// The tree of an input of a claim's vertex, by the input's position, as `Desk::input` gives it.
    pub fn input(&self, claim: &Claim<Known<'a, J>>, at: usize) -> &'a Tree
        requires { at < length claim.now.inputs }
        ensures { slice_get claim.now.inputs at ≡ Some result.now }
    {
        self.desk.input(claim, at)
    }

    /// Ends the site and gives its board, on which every claim that was still out is abandoned. What is in these seats' tallies is settled; where they are all
    /// seats that were given, their tallies are the vertices that were settled at the site, each once. If the site's case promises it, each settle on the board
    /// gave back what the run of its vertex left. The seats stay as they are. It takes no memory.
    pub fn close(self, seats: &mut [Seat<J>]) -> Board<'a, E, Known<'a, J>>
        ensures problem { board_problem E.out result ≡ J.problem }
        ensures first { result.first ≡ J.first }
        ensures leaves { J.promises ≡ true → LeaveTheSame (E.leaves result.job.executor) J.leaves }
        ensures given { J.promises ≡ true → GivesBackWhatIsLeft (E.leaves result.job.executor) (board_problem E.out result) result.first result.run.history }
        ensures claims { result.run.state.claims ≡ [] }
        ensures settled { AreSettled result.run.state.settled seats.old }
        ensures tallies { AreAll self.entry seats.old → AreTallies J.before result.run.state.settled seats.old }
        ensures seats { seats.new ≡ seats.old }
    {
        let Site { desk, mut giver } = self;
        let Desk { held, results: _ } = desk;
        let mut held = held.into_inner();
        held.agree_all(seats);
        held.complete(&mut giver);
        let mut board = held.into_board();
        board.abandon_all();
        board
    }
}
