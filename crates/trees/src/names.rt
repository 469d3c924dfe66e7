// Names with their nodes, in the order of the names: what a part of a folder holds.
ghost use Rattle.std.specs.Prelude.{◌≡◌, ◌≤◌, true, IfOk, IfErr, OnOk, OnErr, [], ◌∷◌, length, option_copied};
ghost use Rattle.std.specs.Option.{option_copied_mut};
ghost use Rattle.std.specs.Arc.{arc_value};
ghost use Rattle.std.specs.Borrow.{sem};
ghost use Rattle.std.specs.Map.{lookup};
ghost use Rattle.std.specs.BTreeMap.{is_at};
ghost use Rattle.std.specs.FinMap.Entries.{is_sorted};
ghost use Rattle.paths.specs.Order.{name_cmp};
ghost use Rattle.trees.specs.Branch.{from_name};
ghost use Rattle.trees.specs.PrivateNode.{StandsAt, GoesAt, IsPut, IsTaken, IsCutAt};
ghost use Rattle.trees.specs.PrivateLent.{LendsNode};
ghost use Rattle.trees.specs.PrivateSeen.{seen_kids};

use crate::CopyOptions;
use crate::node::Node;
use crate::part::Part;
use plain::{Exact, Memory, Text};
use std::alloc::{AllocError, Global};
use std::cmp::Ordering;
use std::marker::Model;
use std::sync::Arc;

/// Names that rise, each with its node. They lie one after another in one block of memory.
#[derive(Drop)]
#[cycle(nodes)]
pub(crate) struct Names {
    rows: Vec<(Text, Node)>,
}

impl Model for Names {
    ghost use Rattle.std.specs.Prelude.{◌≡◌, ◌+◌, true, ℕ, List};
    ghost use Rattle.std.specs.FinMap.Entries.{is_sorted};
    ghost use Rattle.paths.specs.Order.{name_cmp};
    ghost use Rattle.trees.specs.PrivateNode.{NodeValue, kids_code, height_of};

    ghost Value = { List (List ℕ × NodeValue) };

    ghost coded = { kids_code };

    ghost view = { λ n. n.rows.items };

    ghost invariant = { λ n. is_sorted name_cmp n.rows.items ≡ true };

    ghost size = { λ v. height_of v + height_of v };

    ghost use Rattle.trees.specs.PrivateFall.{names_fall};

    ghost size_decreases = { λ a h. names_fall a };
}

impl Names {
    /// No names. It takes no memory.
    pub(crate) fn none(alloc: Global) -> Names
        ensures { result ≡ [] }
    {
        Names {
            rows: Vec::new(alloc),
        }
    }

    /// One name.
    pub(crate) fn one(alloc: Global, name: Text, kid: Node) -> Result<Names, Memory>
        ensures { IfOk result (λ names. names ≡ (name, kid) ∷ []) }
    {
        let mut rows = Vec::with_capacity(alloc, 1)?;
        rows.push((name, kid))?;
        Ok(Names { rows })
    }

    /// These names, which rise.
    pub(crate) fn of_rows(rows: Vec<(Text, Node)>) -> Names
        requires { is_sorted name_cmp rows.items ≡ true }
        ensures { result ≡ rows.items }
    {
        Names { rows }
    }

    /// The names with their nodes, lent.
    pub(crate) fn rows(&self) -> &[(Text, Node)]
        ensures rows { result.now ≡ self.now }
        ensures rise { is_sorted name_cmp self.now ≡ true }
    {
        self.rows.as_slice()
    }

    /// The names that don't come before a text, with their nodes, lent.
    pub(crate) fn rows_from(&self, front: &Text) -> &[(Text, Node)]
        ensures { result.now ≡ from_name front.now self.now }
    {
        match find(self.rows.as_slice(), front) {
            Ok(at) => &self.rows[at..],
            Err(at) => &self.rows[at..],
        }
    }

    /// How many there are.
    pub(crate) fn len(&self) -> usize
        ensures { result ≡ length self.now }
    {
        self.rows.len()
    }

    /// The node of a name.
    pub(crate) fn get(&self, name: &Text) -> Option<&Node>
        ensures value { option_copied result ≡ lookup (is_at (name_cmp name.now)) self.now }
    {
        match find(self.rows.as_slice(), name) {
            Ok(at) => Some(&self.rows[at].1),
            Err(_) => None,
        }
    }

    /// The node of a name, lent to be changed.
    pub(crate) fn get_mut(&mut self, name: &Text) -> Option<&mut Node>
        ensures* lends { sem 𝓛 (LendsNode self.entry name.now result) }
        ensures value { option_copied_mut result ≡ lookup (is_at (name_cmp name.now)) self.old }
    {
        match find(self.rows.as_slice(), name) {
            Ok(at) => Some(&mut self.rows[at].1),
            Err(_) => None,
        }
    }

    /// Puts a node under a name. Where there is no memory, nothing has changed.
    pub(crate) fn put(&mut self, alloc: Global, name: &Text, kid: Node) -> Result<(), Memory>
        ensures ok { OnOk result (IsPut name.now kid self.old self.new) }
        ensures err { OnErr result (self.new ≡ self.old) }
    {
        match find(self.rows.as_slice(), name) {
            Ok(at) => {
                self.rows[at].1 = kid;
                Ok(())
            }
            Err(at) => {
                grow(&mut self.rows)?;
                self.rows.insert(at, (name.copy(alloc)?, kid))?;
                Ok(())
            }
        }
    }

    /// Takes a name away, if it is there, and answers whether none is left.
    pub(crate) fn remove(&mut self, name: &Text) -> bool
        ensures { IsTaken name.now self.old self.new result }
    {
        match find(self.rows.as_slice(), name) {
            Ok(at) => {
                self.rows.remove(at);
                self.rows.is_empty()
            }
            Err(_) => self.rows.len() == 0,
        }
    }

    /// Takes the names from a place on away, and gives them as a part. Where there is no memory, nothing has changed.
    pub(crate) fn split_off(&mut self, alloc: Global, at: usize) -> Result<Part, Memory>
        requires { at ≤ length self.old }
        ensures ok { IfOk result (λ upper. IsCutAt at self.old self.new (arc_value upper)) }
        ensures err { OnErr result (self.new ≡ self.old) }
    {
        let rows = self.rows.split_off(at)?;
        match Arc::new(alloc, Names { rows }) {
            Ok(upper) => Ok(upper),
            Err(refused) => {
                let mut rows = refused.value.rows;
                self.rows.append(&mut rows).unwrap();
                Err(Memory)
            }
        }
    }

    /// The same names, each of whose nodes shares what is below it, with room for so many more.
    pub(crate) fn copy(&self, alloc: Global, more: usize) -> Result<Names, Memory>
        ensures { IfOk result (λ names. names ≡ self.now) }
    {
        let mut rows = Vec::with_capacity(alloc, self.rows.len().saturating_add(more))?;
        let all = self.rows.as_slice();
        for row in all {
            rows.push((row.0.copy(alloc)?, row.1.copy(alloc)?))?;
        }
        Ok(Names { rows })
    }

    /// The same names, each with its node as a COPY places it. What is below it is shared.
    pub(crate) fn placed(&self, alloc: Global, options: &CopyOptions) -> Result<Names, Memory>
        ensures { IfOk result (λ names. names ≡ seen_kids options.now self.now) }
    {
        let mut rows = Vec::with_capacity(alloc, self.rows.len())?;
        let all = self.rows.as_slice();
        for row in all {
            rows.push((row.0.copy(alloc)?, row.1.placed(alloc, options)?))?;
        }
        Ok(Names { rows })
    }
}

impl Clone for Names {
    ghost use Rattle.std.specs.Prelude.{◌≡◌};

    ghost is_clone = { λ names copied. copied ≡ names };

    fn clone(&self) -> Result<Names, AllocError> {
        match self.copy(*self.rows.allocator(), 0) {
            Ok(names) => Ok(names),
            Err(_) => Err(AllocError),
        }
    }
}

/// Makes room for one row more. A full list grows by a quarter and not to twice its length: many parts are full once, and room that they
/// don't use would take as much as all names.
fn grow(rows: &mut Vec<(Text, Node)>) -> Result<(), Memory>
    ensures { rows.new.items ≡ rows.old.items }
{
    if rows.len() == rows.capacity() {
        rows.reserve_exact(rows.len() / 4 + 1)?;
    }
    Ok(())
}

/// Where a name stands among names that rise, or where it would stand. The first row is looked at first: what places many names mostly
/// places the last first, and then each of them stands or goes there.
fn find(rows: &[(Text, Node)], name: &Text) -> Result<usize, usize>
    requires { is_sorted name_cmp rows.now ≡ true }
    ensures stands { IfOk result (λ at. StandsAt name.now rows.now at) }
    ensures absent { IfErr result (λ at. GoesAt name.now rows.now at) }
{
    let Some(first) = rows.first() else {
        return Err(0);
    };
    match name.cmp(&first.0) {
        Ordering::Less => return Err(0),
        Ordering::Equal => return Ok(0),
        Ordering::Greater => {}
    }
    let mut low = 1;
    let mut high = rows.len();
    'seeking: while low < high {
        let middle = low + (high - low) / 2;
        match name.cmp(&rows[middle].0) {
            Ordering::Less => high = middle,
            Ordering::Equal => return Ok(middle),
            Ordering::Greater => low = middle + 1,
        }
    }
    Err(low)
}
