ghost use Rattle.std.specs.Prelude.{◌≡◌, ◌↔◌, ◌≤◌, ◌<◌, ◌+◌, ◌^◌, ◌++◌, ◌∷◌, ℕ, true, [], None, Some, IsSome, Contains, map, slice_get, IsTrue, IsFalse, IfOk, IfErr, IfSome, IfNone, OnOk, OnErr};
ghost use Rattle.std.specs.Option.{option_map};
ghost use Rattle.cachemounts.specs.Holds.{new_holds};
ghost use Rattle.cachemounts.specs.Content.{tree_held};
ghost use Rattle.plans.specs.Plan.{uses_at};
ghost use Rattle.board.specs.Board.{board_problem, IsStep, AreContents};
ghost use Rattle.board.specs.Claim.{ClaimValue, IsClaim, IsOut, IsResult, IsGivenBack, claim_out};
ghost use Rattle.board.specs.Leaving.{LeaveTheSame, lent_to, IsLeftFor, GivesBackWhatIsLeft};
ghost use Rattle.board.specs.Legal.{IsAvailable, IsReady, IsNextClaim};
ghost use Rattle.board.specs.Play.{IsReplay};
ghost use Rattle.board.specs.Play.{Claim as Claiming, Settle as Settling, Abandon as Abandoning};
ghost use Rattle.board.specs.Problem.{IsProblem};
ghost use Rattle.sites.specs.Seats.{SeatValue, IsMine, IsLentTo, IsSeatOf, GoesOnFrom};
ghost use Rattle.sites.specs.PrivateSeats.{AreSeatsOf, SettledBelow};

use crate::{Case, Known, Seat};
use board::{Board, Claim, ClaimOut, Happened, Refused};
use executor::Executor;
use plain::{Memory, growth};
use rolls::{Giver, Note, Roll, Room, Slip};
use std::alloc::Global;
use std::marker::{Model, PhantomData};
use trees::Tree;

/// What lies under a site's lock: the board of the site's problem, with the roll that ties it to the seats. Contracts see the board.
#[derive(Drop)]
pub struct Held<'a, E: Executor, J: Case + Room> {
    pub(crate) board: Board<'a, E, Known<'a, J>>,
    pub(crate) roll: Roll<J>,
    pub(crate) of: PhantomData<J>,
}

impl<'a, E: Executor, J: Case + Room> Model for Held<'a, E, J> {
    ghost use Rattle.std.specs.Prelude.{◌≡◌, true};
    ghost use Rattle.board.specs.Board.{BoardValue, board_code, board_problem};
    ghost use Rattle.board.specs.Leaving.{LeaveTheSame, GivesBackWhatIsLeft};
    ghost use Rattle.sites.specs.Seats.{IsBook, AreLoans};

    ghost Value = { BoardValue E };

    ghost coded = { board_code E.code };

    ghost view = { λ h. h.board };

    ghost invariant = { λ h. (board_problem E.out h.board ≡ J.problem) × IsBook J.before h.roll h.board.run × (h.board.first ≡ J.first)
        × AreLoans J.problem J.first h.roll h.board.run
        × (J.promises ≡ true → LeaveTheSame (E.leaves h.board.job.executor) J.leaves)
        × (J.promises ≡ true → GivesBackWhatIsLeft (E.leaves h.board.job.executor) (board_problem E.out h.board) h.board.first h.board.run.history) };
}

impl<'a, E: Executor, J: Case + Room> Held<'a, E, J> {
    /// Claims the ready vertex of least id for the seat's worker, with the places of its inputs' trees and the lease of its caches. It claims
    /// nothing where no vertex is ready, or where the seat has a claim out. After `Memory` board and seat are as they were.
    pub fn claim(
        &mut self,
        alloc: Global,
        seat: &mut Seat<J>,
    ) -> Result<Option<Claim<Known<'a, J>>>, Memory>
        ensures agrees { IsSeatOf J.before self.old.run seat.old }
        ensures next { IfOk result (λ claim. IsNextClaim J.problem self.old.run.history seat.old.worker
            (option_map (λ c. c.vertex) claim)) }
        ensures of { IfOk result (λ claim. IfSome claim (IsClaim J.problem)) }
        ensures out { IfOk result (λ claim. IfSome claim (IsOut self.new.run.state)) }
        ensures mine { IfOk result (λ claim. IfSome claim (λ c. (c.worker ≡ seat.old.worker) × (seat.new ≡ record seat.old { out = Some (claim_out c); lent = c.caches }))) }
        ensures fresh { IfOk result (λ claim. IfSome claim (λ c. ¬ Contains seat.old.tally c.vertex)) }
        ensures caches { IfOk result (λ claim. IfSome claim (λ c. c.caches
            ≡ map (tree_held self.old.contents) (new_holds seat.old.worker self.old.run.state.holds (uses_at J.problem c.vertex)))) }
        ensures run { OnOk result (IsStep E.out (Claiming seat.old.worker) self.old self.new) }
        ensures none { IfOk result (λ claim. IfNone claim ((self.new ≡ self.old) × (seat.new ≡ seat.old))) }
        ensures err { OnErr result ((self.new ≡ self.old) × (seat.new ≡ seat.old)) }
    {
        self.agree(seat);
        let claimed = self.board.claim(alloc, seat.worker())?;
        let Some(claim) = claimed else {
            return Ok(None);
        };
        let worker = claim.worker();
        let vertex = claim.vertex();
        let at = claim.at();
        let note = Note::Claimed {
            vertex: vertex.number(),
            at,
        };
        self.roll.write(&mut seat.slip, note, claim.caches());
        seat.out = Some(ClaimOut { worker, vertex, at });
        Ok(Some(claim))
    }

    /// Settles the vertex of the claim that the seat has out (`Seat::out` tells which), gives trees back to the caches that the vertex uses, one for each
    /// use, and puts the vertex into the seat's tally. The value has to be the result of the vertex's operation on the claim's inputs. After want of memory
    /// claim, value and trees come back, and board and seat are as they were.
    ///
    /// If the site's case promises it, the trees have to be those that the vertex's run left of what the claim was lent, as a run answers them
    /// (`solver::run`), and the claim has the trees that the seat was lent with it, as `claim` gives it.
    pub fn settle(
        &mut self,
        alloc: Global,
        seat: &mut Seat<J>,
        claim: Claim<Known<'a, J>>,
        value: Known<'a, J>,
        given: Vec<Tree>,
    ) -> Result<(), Refused<Known<'a, J>>>
        requires mine { IsMine seat.old claim }
        requires of { IsClaim J.problem claim }
        requires value { IsResult J.problem claim value.value }
        requires given { IsGivenBack J.problem claim given.items }
        requires left { J.promises ≡ true → IsLentTo seat.old claim × IsLeftFor J.leaves J.problem claim given.items }
        ensures agrees { IsSeatOf J.before self.old.run seat.old }
        ensures run { OnOk result (IsStep E.out (Settling seat.old.worker given.items) self.old self.new) }
        ensures value { OnOk result (slice_get self.new.run.state.settled claim.entry.vertex ≡ Some (Some value.entry.value)) }
        ensures seat { OnOk result (seat.new ≡ record { worker = seat.old.worker; out = None; tally = seat.old.tally ++ claim.entry.vertex ∷ []; lent = seat.old.lent }) }
        ensures err { OnErr result ((self.new ≡ self.old) × (seat.new ≡ seat.old)) }
        ensures back { IfErr result (λ refused. (refused.claim ≡ claim.entry) × (refused.value ≡ value.entry) × (refused.given.items ≡ given.items)) }
    {
        self.agree(seat);
        if growth::room(&mut seat.tally, 1).is_err() {
            return Err(Refused {
                claim,
                value,
                given,
            });
        }
        let vertex = claim.vertex();
        self.board.settle(alloc, claim, value, given)?;
        let note = Note::Settled(vertex.number());
        self.roll.write(&mut seat.slip, note, &[]);
        growth::add(&mut seat.tally, vertex);
        seat.out = None;
        Ok(())
    }

    /// Gives up the claim that the seat has out (`Seat::out` tells which): its vertex may be claimed again, and the contents of its caches
    /// stay as they are. It takes no memory.
    pub fn abandon(&mut self, seat: &mut Seat<J>, claim: Claim<Known<'a, J>>)
        requires mine { IsMine seat.old claim }
        ensures agrees { IsSeatOf J.before self.old.run seat.old }
        ensures run { IsStep E.out (Abandoning seat.old.worker) self.old self.new }
        ensures seat { seat.new ≡ record seat.old { out = None } }
    {
        self.agree(seat);
        self.board.abandon(claim);
        self.roll.write(&mut seat.slip, Note::Abandoned, &[]);
        seat.out = None;
    }

    /// What has happened, in order, of which what had happened when the site was made is the beginning. The board is that of the site's problem, what it
    /// holds is the replay of its history, and the contents of its caches are those that the history left of the contents at the start. If the site's case
    /// promises it, each settle gave back what the run of its vertex left.
    pub fn history(&self) -> &[Happened]
        ensures value { result.now ≡ self.now.run.history }
        ensures since { GoesOnFrom J.before self.now.run.history }
        ensures of { board_problem E.out self.now ≡ J.problem }
        ensures replay { IsReplay J.problem self.now.run }
        ensures problem { IsProblem J.problem }
        ensures first { self.now.first ≡ J.first }
        ensures contents { AreContents J.problem self.now.run.history J.first self.now.contents }
        ensures given { J.promises ≡ true → GivesBackWhatIsLeft J.leaves J.problem J.first self.now.run.history }
    {
        self.board.history()
    }

    /// Whether no claim is out.
    pub fn is_idle(&self) -> bool
        ensures { IsTrue result ↔ (self.now.run.state.claims ≡ []) }
    {
        self.board.is_idle()
    }

    /// Whether a vertex may be left to claim: no vertex is ready if not. If so, a vertex is available, and a cache that is held or a failure may still keep
    /// it from being ready.
    pub fn has_more(&self) -> bool
        ensures more { IsTrue result → (vertex : ℕ) × IsAvailable J.problem self.now.run.history vertex }
        ensures none { IsFalse result → (vertex : ℕ) → ¬ IsReady J.problem self.now.run.history vertex }
    {
        self.board.has_more()
    }

    /// Tells that a seat says what the board has of its worker. It changes nothing.
    pub(crate) fn agree(&mut self, seat: &mut Seat<J>)
        ensures agrees { IsSeatOf J.before self.old.run seat.old }
        ensures out { (claim : ClaimValue) → IsMine seat.old claim → IsOut self.old.run.state claim × (claim.worker ≡ seat.old.worker) }
        ensures lent { IsSome seat.old.out → seat.old.lent ≡ lent_to J.problem J.first self.old.run.history seat.old.worker }
        ensures replay { IsReplay J.problem self.old.run }
        ensures problem { IsProblem J.problem }
        ensures same { (self.new ≡ self.old) × (seat.new ≡ seat.old) }
    {
        self.roll.agree(&mut seat.slip);
        let _known = self.board.history();
    }

    /// Tells that each of these seats says what the board has of its worker. It changes nothing.
    pub(crate) fn agree_all(&mut self, seats: &mut [Seat<J>])
        ensures agrees { AreSeatsOf J.before self.old.run seats.old }
        ensures same { (self.new ≡ self.old) × (seats.new ≡ seats.old) }
    {
        for at in 0..seats.len() {
            self.agree(&mut seats[at]);
        }
    }

    /// Tells that nobody without a seat has settled anything since the site was made. It changes nothing.
    pub(crate) fn complete(&mut self, giver: &mut Giver<J>)
        ensures since { SettledBelow giver.old J.before self.old.run.history }
        ensures replay { IsReplay J.problem self.old.run }
        ensures problem { IsProblem J.problem }
        ensures same { (self.new ≡ self.old) × (giver.new ≡ giver.old) }
    {
        self.roll.complete(giver);
        let _known = self.board.history();
    }

    /// The slip of the next worker's seat.
    pub(crate) fn slip(&mut self, giver: &mut Giver<J>) -> Slip<J>
        requires { giver.old + 1 < 2 ^ 32 }
        ensures giver { giver.new ≡ giver.old + 1 }
        ensures slip { result ≡ record { worker = giver.old; mine = [] } }
        ensures same { self.new ≡ self.old }
    {
        self.roll.slip(giver)
    }

    /// The board, for the site alone.
    pub(crate) fn into_board(self) -> Board<'a, E, Known<'a, J>>
        ensures board { result ≡ self.entry }
        ensures problem { board_problem E.out result ≡ J.problem }
        ensures first { result.first ≡ J.first }
        ensures leaves { J.promises ≡ true → LeaveTheSame (E.leaves result.job.executor) J.leaves }
        ensures given { J.promises ≡ true → GivesBackWhatIsLeft (E.leaves result.job.executor) (board_problem E.out result) result.first result.run.history }
    {
        let Held {
            board,
            roll: _,
            of: _,
        } = self;
        board
    }
}
