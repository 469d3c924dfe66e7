// Values by names, in one list.

ghost use Rattle.std.specs.Prelude.{◌≡◌, true, IfOk, IfErr, OnOk, OnErr, option_copied, reverse};
ghost use Rattle.std.specs.FinMap.{empty, entries, get, insert};
ghost use Rattle.std.specs.FinMap.Entries.{is_sorted};
ghost use Rattle.plans.specs.PrivateSorted.{falling, StandsAt, GoesAt};

use plain::{Exact, Memory, Text, with_copy};
use std::alloc::Global;
use std::cmp::Ordering;
use std::marker::Model;
use std::mem;

/// Values by names, in one list with the last name first. Whoever fills it has the names in order and gives the last first, so each goes to
/// the end. A name moves all that come before it.
#[derive(Drop)]
pub(crate) struct Sorted<V> {
    rows: Vec<(Text, V)>,
}

impl<V> Model for Sorted<V> {
    ghost use Rattle.std.specs.Prelude.{◌≡◌, true};
    ghost use Rattle.std.specs.Coded.{coded_list, coded_ℕ};
    ghost use Rattle.std.specs.FinMap as map;
    ghost use Rattle.std.specs.FinMap.Entries.{is_sorted};
    ghost use Rattle.paths.specs.Order.{name_cmp};
    ghost use Rattle.plans.specs.PrivateSorted.{falling};

    ghost Value = { map.FinMap name_cmp V };

    ghost coded = { map.code (coded_list coded_ℕ) V.code };

    ghost view = { λ s. map.from_entries s.rows.items };

    ghost invariant = { λ s. is_sorted falling s.rows.items ≡ true };
}

impl<V> Sorted<V> {
    /// No name. It takes no memory.
    pub(crate) fn new(alloc: Global) -> Sorted<V>
        ensures { result ≡ empty }
    {
        Sorted {
            rows: Vec::new(alloc),
        }
    }

    /// The value of exactly this name; `None` where there is none.
    pub(crate) fn get(&self, name: &str) -> Option<&V>
        ensures { option_copied result ≡ get self.now name.now }
    {
        match place(self.rows.as_slice(), name) {
            Ok(at) => Some(&self.rows[at].1),
            Err(_) => None,
        }
    }

    /// The rows, the last name first. It takes no memory.
    pub(crate) fn into_rows(self) -> Vec<(Text, V)>
        ensures { result.items ≡ reverse (entries self) }
    {
        let Sorted { rows } = self;
        rows
    }
}

impl<V: Drop> Sorted<V> {
    /// Gives a name a value, and gives back the one that it had before. After `Memory` nothing has changed.
    pub(crate) fn insert(&mut self, name: Text, value: V) -> Result<Option<V>, Memory>
        ensures old { IfOk result (λ old. old ≡ get self.old name) }
        ensures ok { OnOk result (self.new ≡ insert self.old name value) }
        ensures err { OnErr result (self.new ≡ self.old) }
    {
        match place(self.rows.as_slice(), name.as_str()) {
            Ok(at) => Ok(Some(mem::replace(&mut self.rows[at].1, value))),
            Err(at) => {
                self.rows.insert(at, (name, value))?;
                Ok(None)
            }
        }
    }
}

impl<V: Exact + Drop> Sorted<V> {
    /// An equal list of its own.
    pub(crate) fn copy(&self, alloc: Global) -> Result<Sorted<V>, Memory>
        ensures { IfOk result (λ copied. copied ≡ self.now) }
    {
        let rows = copied_rows(alloc, self.rows.as_slice())?;
        Ok(Sorted { rows })
    }
}

/// A copy of each row, in order.
fn copied_rows<V: Exact + Drop>(alloc: Global, rows: &[(Text, V)]) -> Result<Vec<(Text, V)>, Memory>
    ensures { IfOk result (λ copied. copied.items ≡ rows.now) }
{
    let mut copied = Vec::with_capacity(alloc, rows.len())?;
    for row in rows {
        copied.push(with_copy(alloc, row.0.copy(alloc)?, &row.1)?)?;
    }
    Ok(copied)
}

/// Where a name stands among names that fall, or where it would stand. The last row is looked at first: mostly a name that is added comes
/// before all that are there, and goes behind it.
fn place<V>(rows: &[(Text, V)], name: &str) -> Result<usize, usize>
    requires { is_sorted falling rows.now ≡ true }
    ensures stands { IfOk result (λ at. StandsAt name.now rows.now at) }
    ensures absent { IfErr result (λ at. GoesAt name.now rows.now at) }
{
    let Some(last) = rows.last() else {
        return Err(0);
    };
    let mut low = 0;
    let mut high = rows.len() - 1;
    match name.cmp(last.0.as_str()) {
        Ordering::Less => return Err(high + 1),
        Ordering::Equal => return Ok(high),
        Ordering::Greater => {}
    }
    'seeking: while low < high {
        let middle = low + (high - low) / 2;
        match name.cmp(rows[middle].0.as_str()) {
            Ordering::Less => low = middle + 1,
            Ordering::Equal => return Ok(middle),
            Ordering::Greater => high = middle,
        }
    }
    Err(low)
}
