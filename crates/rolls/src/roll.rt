ghost use Rattle.std.specs.Prelude.{◌≡◌, ◌≤◌, ◌<◌, ◌^◌, ◌+◌, ◌∷◌, ◌++◌, ℕ, [], Some, IfOk};
ghost use Rattle.rolls.specs.Rolls.{of_worker, knower, sitter};
ghost use Rattle.rolls.specs.Rolls.{giver as giving};

use crate::rule::{Giving, Learns, Lends, Rolled, Seating, Sitting, Spare, View, Writes};
use crate::{Note, Room};
use atomic_table::{Seat, Table};
use plain::Memory;
use std::alloc::Global;
use std::marker::{Brand, Model, PhantomData};
use std::mem::replace;
use trees::Tree;

/// A roll that has no name yet, with nothing written.
#[derive(Drop)]
pub struct Opened {
    pub table: Table<Note, View, (), Rolled, Global>,
    keeper: Seat<Note, View>,
    giver: Seat<Note, View>,
    ghost words: { table.shared.table_id.words ≡ 1 },
    ghost keeper_is: { (keeper.table_id ≡ table.shared.table_id) × (keeper.me ≡ (knower [], [])) },
    ghost giver_is: { (giver.table_id ≡ table.shared.table_id) × (giver.me ≡ (giving 0, [])) },
}

/// All that was written, by whom.
#[derive(Drop)]
pub struct Roll<J: Room> {
    table: Table<Note, View, (), Rolled, Global>,
    keeper: Seat<Note, View>,
    of: PhantomData<J>,
}

/// How many slips were given.
#[derive(Drop)]
pub struct Giver<J: Room> {
    given: u32,
    seat: Seat<Note, View>,
    of: PhantomData<J>,
}

/// What one worker wrote.
#[derive(Drop)]
pub struct Slip<J: Room> {
    seat: Seat<Note, View>,
    of: PhantomData<J>,
}

impl<J: Room> Model for Roll<J> {
    ghost use Rattle.std.specs.Prelude.{◌≡◌, ℕ, [], List};
    ghost use Rattle.std.specs.Coded.{coded×, coded_ℕ, coded_list};
    ghost use Rattle.rolls.specs.Rolls.{knower, told_code};
    ghost use Rattle.rolls.specs.declared.note.Told.{Told};

    ghost Value = { List (ℕ × Told) };

    ghost coded = { coded_list (coded× coded_ℕ told_code) };

    ghost view = { λ r. r.keeper.me.0.all };

    ghost invariant = { λ r. (r.table.shared.table_id ≡ J.table) × (r.table.shared.table_id.words ≡ 1) × (r.keeper.table_id ≡ J.table) × (r.keeper.me ≡ (knower r.keeper.me.0.all, [])) };
}

impl<J: Room> Model for Giver<J> {
    ghost Value = { ℕ };

    ghost view = { λ g. g.given };

    ghost invariant = { λ g. (g.seat.table_id ≡ J.table) × (g.seat.me ≡ (giving g.given, [])) };
}

impl<J: Room> Model for Slip<J> {
    ghost use Rattle.std.specs.Prelude.{◌≡◌, []};
    ghost use Rattle.rolls.specs.Rolls.{SlipValue, slip_code, sitter};

    ghost Value = { SlipValue };

    ghost coded = { slip_code };

    ghost view = { λ s. record { worker = s.seat.me.0.worker; mine = s.seat.me.0.mine } };

    ghost invariant = { λ s. (s.seat.table_id ≡ J.table) × (s.seat.me ≡ (sitter s.seat.me.0.worker s.seat.me.0.mine, [])) };
}

impl Opened {
    /// It takes memory for one word.
    pub fn new(alloc: Global) -> Result<Opened, Memory> {
        let (table, mut keeper) = Table::of_words(alloc, &[0], &())?;
        let giver = table.shared.split_seat::<Giving>(&mut keeper);
        Ok(Opened {
            table,
            keeper,
            giver,
        })
    }

    /// The roll under its name, on which nothing is written, and which has given no slip.
    pub fn named<J: Room>(self) -> (Roll<J>, Giver<J>)
        requires { self.table.shared.table_id ≡ J.table }
        ensures roll { result.0 ≡ [] }
        ensures giver { result.1 ≡ 0 }
    {
        let Opened {
            table,
            keeper,
            giver,
        } = self;
        (
            Roll {
                table,
                keeper,
                of: PhantomData,
            },
            Giver {
                given: 0,
                seat: giver,
                of: PhantomData,
            },
        )
    }
}

impl<J: Room> Giver<J> {
    /// How many slips were given.
    pub fn given(&self) -> u32
        ensures { result ≡ self.now }
    {
        self.given
    }
}

impl<J: Room> Roll<J> {
    /// The next worker's slip. There is one for each number that a worker can have but the greatest (`Giver::given` tells how many were given).
    pub fn slip(&self, giver: &mut Giver<J>) -> Slip<J>
        requires { giver.old + 1 < 2 ^ 32 }
        ensures giver { giver.new ≡ giver.old + 1 }
        ensures slip { result ≡ record { worker = giver.old; mine = [] } }
    {
        let seat = self.table.shared.split_seat::<Seating>(&mut giver.seat);
        giver.given += 1;
        Slip {
            seat,
            of: PhantomData,
        }
    }

    /// Writes a note of a worker, in the roll and on its slip, with the trees that are lent with it. What stood on the slip was what the roll has of the
    /// worker. Nothing is done with the trees when it runs: that they were lent stands in the proofs alone.
    pub fn write(&mut self, slip: &mut Slip<J>, note: Note, lent: &[Tree])
        ensures agrees { slip.old.mine ≡ of_worker slip.old.worker self.old }
        ensures roll { self.new ≡ self.old ++ (slip.old.worker, record { note = note; lent = lent.now }) ∷ [] }
        ensures slip { slip.new ≡ record { worker = slip.old.worker; mine = slip.old.mine ++ record { note = note; lent = lent.now } ∷ [] } }
    {
        self.write_named::<Brand>(slip, note, lent);
    }

    /// The same, the trees being those that a type names.
    fn write_named<L: Lends>(&mut self, slip: &mut Slip<J>, note: Note, lent: &[Tree])
        requires { lent.now ≡ L.lent }
        ensures agrees { slip.old.mine ≡ of_worker slip.old.worker self.old }
        ensures roll { self.new ≡ self.old ++ (slip.old.worker, record { note = note; lent = L.lent }) ∷ [] }
        ensures slip { slip.new ≡ record { worker = slip.old.worker; mine = slip.old.mine ++ record { note = note; lent = L.lent } ∷ [] } }
    {
        let _lent = lent;
        let Roll { table, keeper, .. } = self;
        let shared = &table.shared;
        let spare = shared.split_seat::<Spare>(keeper);
        let mine = replace(&mut slip.seat, spare);
        shared.join_seat::<Sitting>(keeper, mine);
        shared.compare_exchange_with::<Writes<L>>(keeper, 0, 0, 0, &note);
        slip.seat = shared.split_seat::<Sitting>(keeper);
    }

    /// Tells that what stands on a slip is what the roll has of its worker.
    pub fn agree(&mut self, slip: &mut Slip<J>)
        ensures agrees { slip.old.mine ≡ of_worker slip.old.worker self.old }
        ensures same { (self.new ≡ self.old) × (slip.new ≡ slip.old) }
    {
        let Roll { table, keeper, .. } = self;
        let shared = &table.shared;
        let spare = shared.split_seat::<Spare>(keeper);
        let mine = replace(&mut slip.seat, spare);
        shared.join_seat::<Sitting>(keeper, mine);
        shared.load::<Learns>(keeper, 0);
        slip.seat = shared.split_seat::<Sitting>(keeper);
    }

    /// Tells that nobody has written who was given no slip.
    pub fn complete(&mut self, giver: &mut Giver<J>)
        ensures none { (worker : ℕ) → giver.old ≤ worker → of_worker worker self.old ≡ [] }
        ensures same { (self.new ≡ self.old) × (giver.new ≡ giver.old) }
    {
        let Roll { table, keeper, .. } = self;
        let shared = &table.shared;
        let spare = shared.split_seat::<Spare>(keeper);
        let mine = replace(&mut giver.seat, spare);
        shared.join_seat::<Giving>(keeper, mine);
        shared.load::<Learns>(keeper, 0);
        giver.seat = shared.split_seat::<Giving>(keeper);
    }
}
