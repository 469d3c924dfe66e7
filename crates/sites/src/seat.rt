ghost use Rattle.std.specs.Prelude.{◌≡◌, [], None};

use board::ClaimOut;
use llb::VertexId;
use rolls::{Room, Slip};
use std::alloc::Global;
use std::marker::Model;

/// A worker's place at a site: which claim it has out, if any, which vertices it has settled there, and, in the proofs alone, which trees it was lent with its
/// last claim. It goes with the worker's thread.
#[derive(Drop)]
pub struct Seat<J: Room> {
    pub(crate) worker: u32,
    pub(crate) out: Option<ClaimOut>,
    pub(crate) tally: Vec<VertexId>,
    pub(crate) slip: Slip<J>,
}

impl<J: Room> Model for Seat<J> {
    ghost use Rattle.std.specs.Prelude.{◌≡◌};
    ghost use Rattle.sites.specs.Seats.{SeatValue, seat_code, hand_of, loan_of};

    ghost Value = { SeatValue };

    ghost coded = { seat_code };

    ghost view = { λ s. record { worker = s.worker; out = s.out; tally = s.tally.items; lent = loan_of s.slip.mine } };

    ghost invariant = { λ s. (s.slip.worker ≡ s.worker) × (hand_of s.worker s.slip.mine ≡ record { out = s.out; tally = s.tally.items }) };
}

impl<J: Room> Seat<J> {
    /// The seat of a worker that has done nothing yet.
    pub(crate) fn new(alloc: Global, worker: u32, slip: Slip<J>) -> Seat<J>
        requires { slip ≡ record { worker = worker; mine = [] } }
        ensures { result ≡ record { worker = worker; out = None; tally = []; lent = [] } }
    {
        Seat {
            worker,
            out: None,
            tally: Vec::new(alloc),
            slip,
        }
    }

    /// The worker's number.
    pub fn worker(&self) -> u32
        ensures { result ≡ self.now.worker }
    {
        self.worker
    }

    /// The claim that the worker has out, if any.
    pub fn out(&self) -> Option<ClaimOut>
        ensures { result ≡ self.now.out }
    {
        self.out
    }

    /// The vertices that the worker has settled at the site, in order.
    pub fn tally(&self) -> &[VertexId]
        ensures { result.now ≡ self.now.tally }
    {
        self.tally.as_slice()
    }
}
