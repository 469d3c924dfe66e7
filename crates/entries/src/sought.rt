ghost use Rattle.std.specs.Prelude.{◌≡◌, IfOk, IsTrue, nat_eq, IsPermutation};
ghost use Rattle.std.specs.List.{list_any};
ghost use Rattle.entries.specs.PrivateSought.{IsAt};

use plain::Memory;
use std::alloc::Global;
use std::marker::Model;

/// How many numbers are remembered at most of those that were looked for in vain.
const MOST_MISSED: usize = 1 << 15;

/// Numbers among which others are looked for, the same ones again and again: those of folders, each of which many paths lie in.
#[derive(Drop)]
pub(crate) struct Sought {
    /// In ascending order.
    numbers: Vec<u64>,
    /// Numbers that were looked for and aren't among them, each at the one place that is its own: what stands there costs no second search.
    missed: Vec<Option<u64>>,
}

impl Model for Sought {
    ghost use Rattle.std.specs.Prelude.{ℕ, List};
    ghost use Rattle.std.specs.Coded.{coded_list, coded_ℕ};
    ghost use Rattle.std.specs.List.Sorted.{IsNonDecreasing};
    ghost use Rattle.entries.specs.PrivateSought.{AreMissed};

    ghost Value = { List ℕ };

    ghost coded = { coded_list coded_ℕ };

    ghost view = { λ s. s.numbers.items };

    ghost invariant = { λ s. IsNonDecreasing s.numbers.items × AreMissed s.numbers.items s.missed.items };
}

impl Sought {
    /// These numbers.
    pub(crate) fn new(alloc: Global, numbers: Vec<u64>) -> Result<Sought, Memory>
        ensures { IfOk result (λ sought. IsPermutation numbers.items sought) }
    {
        let mut numbers = numbers;
        numbers.sort_unstable();
        let places = numbers.len().min(MOST_MISSED);
        let missed = vec![in alloc; None; places]?;
        Ok(Sought { numbers, missed })
    }

    /// Whether a number is among them.
    pub(crate) fn contains(&mut self, number: u64) -> bool
        ensures found { result ≡ list_any (nat_eq number) self.old }
        ensures same { self.new ≡ self.old }
    {
        let place = number as usize % MOST_MISSED;
        if is_at(self.missed.as_slice(), place, number) {
            return false;
        }
        if self.numbers.binary_search(&number).is_ok() {
            return true;
        }
        if place < self.missed.len() {
            self.missed[place] = Some(number);
        }
        false
    }
}

/// Whether a number stands at a place.
fn is_at(missed: &[Option<u64>], place: usize, number: u64) -> bool
    ensures { IsTrue result → IsAt missed.now place number }
{
    match missed.get(place) {
        Some(Some(known)) => *known == number,
        _ => false,
    }
}
