// A gate that holds commands back as a case says, and counts them.
use crate::reading::{cut, number};
use llb::VertexId;
use plain::Memory;
use solver::Gate;
use std::sync::atomic::{AtomicU64, Ordering};
use std::thread;

/// How many turns a command waits for another one.
const MOST_TURNS: u64 = 1_000_000_000;

/// How many turns more it waits where the other one has to be settled too, or where two are given time to meet.
const MORE_TURNS: u64 = 1_000;

/// What the gate does beside counting.
#[derive(Clone, Copy)]
pub enum Way {
    /// Nothing is told of it.
    Open,
    /// The first command waits until a second one has come.
    Pair,
    /// The command of one vertex waits until that of another one has left.
    Late { held: u32, other: u32 },
    /// Each command takes its time.
    Alone,
    /// The commands of workers from a number on are counted.
    Count(u32),
}

impl Way {
    pub fn read(text: &str) -> Result<Way, Memory> {
        let (word, rest) = cut(text);
        match word {
            "" => Ok(Way::Open),
            "pair" => Ok(Way::Pair),
            "alone" => Ok(Way::Alone),
            "count" => Ok(Way::Count(number(rest)?)),
            _ => {
                let (held, other) = cut(rest);
                Ok(Way::Late {
                    held: number(held)?,
                    other: number(other)?,
                })
            }
        }
    }
}

/// The gate, with the commands that have come and that have left.
#[derive(Drop)]
pub struct Watch {
    way: Way,
    entered: AtomicU64,
    left: AtomicU64,
    /// How many commands are inside.
    inside: AtomicU64,
    /// Whether that came about for which the gate waits.
    met: AtomicU64,
}

impl Watch {
    pub fn new(way: Way) -> Watch {
        Watch {
            way,
            entered: AtomicU64::new(0),
            left: AtomicU64::new(0),
            inside: AtomicU64::new(0),
            met: AtomicU64::new(0),
        }
    }

    /// Tells what it saw, if the case says how it watches.
    pub fn tell(&self, told: &mut String) -> Result<(), Memory> {
        let has_met = self.met.load(Ordering::SeqCst) != 0;
        match self.way {
            Way::Open => Ok(()),
            Way::Pair if has_met => self.tell_counts(told, ", two at once"),
            Way::Pair => self.tell_counts(told, ", one at a time"),
            Way::Late { .. } if has_met => Ok(told.push_str("; the other one left first")?),
            Way::Late { .. } => Ok(told.push_str("; the other one didn't leave")?),
            Way::Alone if has_met => Ok(told.push_str("; two at once")?),
            Way::Alone => Ok(told.push_str("; one at a time")?),
            Way::Count(_) => self.tell_counts(told, ""),
        }
    }

    fn tell_counts(&self, told: &mut String, more: &str) -> Result<(), Memory> {
        let entered = self.entered.load(Ordering::SeqCst);
        let left = self.left.load(Ordering::SeqCst);
        Ok(write!(told, "; {entered} entered, {left} left{more}")?)
    }

    fn note(&self) {
        self.met.store(1, Ordering::SeqCst);
    }

    /// Waits until a second command has come.
    fn wait_for_second(&self) {
        for _ in 0..MOST_TURNS {
            if self.entered.load(Ordering::SeqCst) > 1 {
                return self.note();
            }
            thread::yield_now();
        }
    }

    /// Waits until the other command has left, and is settled.
    fn wait_for_other(&self) {
        for _ in 0..MOST_TURNS {
            if self.met.load(Ordering::SeqCst) != 0 {
                break;
            }
            thread::yield_now();
        }
        take_turns();
    }

    /// Notes if another command is inside, and gives one time to come.
    fn look_round(&self) {
        if self.inside.fetch_add(1, Ordering::SeqCst) != 0 {
            self.note();
        }
        take_turns();
    }
}

fn take_turns() {
    for _ in 0..MORE_TURNS {
        thread::yield_now();
    }
}

impl Gate for Watch {
    fn enter(&self, worker: u32, vertex: VertexId) {
        if matches!(self.way, Way::Count(from) if worker < from) {
            return;
        }
        let before = self.entered.fetch_add(1, Ordering::SeqCst);
        match self.way {
            Way::Pair if before == 0 => self.wait_for_second(),
            Way::Late { held, other: _ } if vertex.number() == held => self.wait_for_other(),
            Way::Alone => self.look_round(),
            _ => {}
        }
    }

    fn leave(&self, worker: u32, vertex: VertexId) {
        if matches!(self.way, Way::Count(from) if worker < from) {
            return;
        }
        self.left.fetch_add(1, Ordering::SeqCst);
        match self.way {
            Way::Late { held: _, other } if vertex.number() == other => self.note(),
            Way::Alone => {
                self.inside.fetch_sub(1, Ordering::SeqCst);
            }
            _ => {}
        }
    }
}
