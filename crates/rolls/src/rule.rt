use crate::{Note, Told};
use atomic_table::{Join, Play, Split, TableRule};
use std::collections::LinkedList;
use std::marker::{Brand, PhantomData};

// What a seat of the table knows. No value of it is made.
pub struct View {
    // The one that knows all that was written.
    pub keeps: bool,
    pub all: LinkedList<(u32, Told)>,
    // The one that knows how many slips were given.
    pub gives: bool,
    pub given: u32,
    // A worker's, with what it wrote.
    pub sits: bool,
    pub worker: u32,
    pub mine: LinkedList<Told>,
}

pub struct Rolled;

impl TableRule<Note, View, ()> for Rolled {
    ghost use Rattle.rolls.specs.Rolls.{Keeps, opener};

    ghost holds = { λ _ s. Keeps s.views };

    ghost first = { λ _. opener };
}

// The giver's part, split off.
pub struct Giving;

impl Split<View> for Giving {
    ghost use Rattle.rolls.specs.Rolls.{knower, giver};

    ghost left = { λ v. knower v.all };

    ghost right = { λ v. giver v.given };
}

impl Join<View> for Giving {
    ghost use Rattle.rolls.specs.Rolls.{with_giver, nobody};

    ghost both = { with_giver };

    ghost spent = { nobody };
}

// A slip more.
pub struct Seating;

impl Split<View> for Seating {
    ghost use Rattle.std.specs.Prelude.{◌+◌, []};
    ghost use Rattle.rolls.specs.Rolls.{giver, sitter};

    ghost left = { λ v. giver (v.given + 1) };

    ghost right = { λ v. sitter v.given [] };
}

// A slip beside the keeper.
pub struct Sitting;

impl Split<View> for Sitting {
    ghost use Rattle.rolls.specs.Rolls.{knower, sitter};

    ghost left = { λ v. knower v.all };

    ghost right = { λ v. sitter v.worker v.mine };
}

impl Join<View> for Sitting {
    ghost use Rattle.rolls.specs.Rolls.{with_sitter, nobody};

    ghost both = { with_sitter };

    ghost spent = { nobody };
}

// A seat that knows nothing.
pub struct Spare;

impl Split<View> for Spare {
    ghost use Rattle.rolls.specs.Rolls.{nobody};

    ghost left = { λ v. v };

    ghost right = { λ v. nobody };
}

// Names the trees that are lent with a note.
pub trait Lends {
    ghost use Rattle.std.specs.Prelude.{List};
    ghost use Rattle.trees.specs.TreeMap.{TreeMap};

    ghost lent: { List TreeMap };
}

impl Lends for Brand {
    ghost use Rattle.std.specs.Prelude.{[]};

    ghost lent = { [] };
}

pub struct Writes<L> {
    of: PhantomData<L>,
}

impl<L: Lends> Play<Note, View> for Writes<L> {
    ghost use Rattle.rolls.specs.Rolls.{Wrote};

    ghost then = { Wrote L.lent };
}

pub struct Learns;

impl Play<Note, View> for Learns {
    ghost use Rattle.rolls.specs.Rolls.{Learnt};

    ghost then = { Learnt };
}
