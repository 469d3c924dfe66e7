ghost use Rattle.std.specs.Prelude.{◌≡◌, ◌<◌, ◌≤◌, ◌*◌, ◌/◌, ◌^◌, true, false, replicate, length, drop, slice_set, IfOk, IfSome, IfNone};
ghost use Rattle.board.specs.PrivateNumbers.{IsLesser, IsHeap, IsFirst, HasNone, IsFirstLeaf};

use plain::Memory;
use std::alloc::Global;
use std::marker::Model;

/// A set of numbers below a bound, with room for all of them. To put one in, to take one out, and to find the first one from some number on
/// takes as many steps as the bound has binary digits, and no memory.
#[derive(Drop)]
pub(crate) struct NumberSet {
    /// The lower half are nodes, of which the one at `i` has the lesser of those at `2 i` and `2 i + 1`, so the least below it; the one at 0 isn't used. The
    /// upper half are leaves, one for each number: the number where it is in the set, else the bound.
    nodes: Vec<usize>,
}

impl Model for NumberSet {
    ghost use Rattle.std.specs.Prelude.{Bool, List};
    ghost use Rattle.board.specs.PrivateNumbers.{members_in, IsNumberTree};

    ghost Value = { List Bool };

    ghost view = { λ s. members_in s.nodes.items };

    ghost invariant = { λ s. IsNumberTree s.nodes.items };
}

impl NumberSet {
    /// The set without a number.
    pub(crate) fn new(alloc: Global, bound: usize) -> Result<NumberSet, Memory>
        requires { bound < 2 ^ 32 }
        ensures { IfOk result (λ set. set ≡ replicate bound false) }
    {
        let nodes = vec![in alloc; bound; 2 * bound]?;
        Ok(NumberSet { nodes })
    }

    /// Puts a number in.
    pub(crate) fn insert(&mut self, number: usize)
        requires { number < length self.old }
        ensures { self.new ≡ slice_set self.old number true }
    {
        let bound = self.nodes.len() / 2;
        write(self.nodes.as_mut_slice(), bound + number, number);
    }

    /// Takes a number out.
    pub(crate) fn remove(&mut self, number: usize)
        requires { number < length self.old }
        ensures { self.new ≡ slice_set self.old number false }
    {
        let bound = self.nodes.len() / 2;
        write(self.nodes.as_mut_slice(), bound + number, bound);
    }

    /// The first number of the set from this one on.
    pub(crate) fn first_from(&self, from: usize) -> Option<usize>
        requires { from ≤ length self.now }
        ensures found { IfSome result (IsFirst self.now from) }
        ensures none { IfNone result (HasNone self.now from) }
    {
        let bound = self.nodes.len() / 2;
        let first = first_leaf(self.nodes.as_slice(), bound + from);
        if first < bound { Some(first) } else { None }
    }
}

/// The lesser of two numbers.
fn lesser(left: usize, right: usize) -> usize
    ensures { IsLesser left right result }
{
    if left < right { left } else { right }
}

/// Writes a leaf, and anew the nodes above it.
fn write(nodes: &mut [usize], leaf: usize, value: usize)
    requires lower { length nodes.old / 2 ≤ leaf }
    requires upper { leaf < 2 * (length nodes.old / 2) }
    requires heap { IsHeap nodes.old }
    ensures heap { IsHeap nodes.new }
    ensures leaves { drop (length nodes.old / 2) nodes.new ≡ drop (length nodes.old / 2) (slice_set nodes.old leaf value) }
{
    nodes[leaf] = value;
    let mut at = leaf / 2;
    while at > 0 {
        nodes[at] = lesser(nodes[2 * at], nodes[2 * at + 1]);
        at /= 2;
    }
}

/// The least that the leaves from this one on have, or half the length where they have nothing less.
fn first_leaf(nodes: &[usize], leaf: usize) -> usize
    requires even { length nodes.now ≡ 2 * (length nodes.now / 2) }
    requires heap { IsHeap nodes.now }
    requires lower { length nodes.now / 2 ≤ leaf }
    ensures { IsFirstLeaf nodes.now leaf result }
{
    let mut low = leaf;
    let mut high = nodes.len();
    let mut first = nodes.len() / 2;
    while low < high {
        if low % 2 == 1 {
            first = lesser(first, nodes[low]);
            low += 1;
        }
        if high % 2 == 1 {
            high -= 1;
            first = lesser(first, nodes[high]);
        }
        low /= 2;
        high /= 2;
    }
    first
}
