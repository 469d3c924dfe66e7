ghost use Rattle.std.specs.Prelude.{◌≡◌, ◌<◌, ◌≤◌, ◌+◌, ◌-◌, ℕ, List, IsTrue, IsUtf8, IfOk, OnOk, length, take, get_or};
ghost use Rattle.ignorefile.specs.PrivateRanks.{IsRaised, IsBest, IsVerdict, IsDecided, AreInOrder};
ghost use Rattle.ignorefile.specs.PrivateIndex.{IsAdded, IsIndex, IsFound, named, lying, under_begin};
ghost use Rattle.ignorefile.specs.PrivateLeft.{IsDeadAt, IsLeft, IsLeafOf, AreLeavesOf, IsLastByte, AreLiving, positions_in, may_take};

use crate::line::Line;
use crate::positions::Positions;
use plain::{Items, Memory, Text};
use std::alloc::Global;
use std::collections::BTreeMap;

/// The rank of a line where it relates to a path, else the rank that there was. The rank of a line is its position and one.
#[inline(never)] // The loops that seldom come to it keep what they need in registers so.
fn raised(lines: &[Line], position: usize, names: &[Text], above: usize) -> usize
    requires within { position < length lines.now }
    requires next { above ≤ position }
    ensures { IsRaised lines.now position names.now above result }
{
    if lines[position].relates(names) {
        position + 1
    } else {
        above
    }
}

/// The greatest of a rank and of those of the lines at these positions that relate to a path. Positions rise and the last ones are
/// tried first: the first line that relates decides, and none below the rank is tried.
pub(crate) fn best(lines: &[Line], positions: &[usize], names: &[Text], above: usize) -> usize
    requires { AreInOrder (length lines.now) positions.now }
    ensures { IsBest lines.now positions.now names.now above result }
{
    for passed in 0..positions.len() {
        let position = positions[positions.len() - 1 - passed];
        if position < above {
            return above;
        }
        let rank = raised(lines, position, names, above);
        if rank > above {
            return rank;
        }
    }
    above
}

/// The positions of the lines whose paths all end in a name.
pub(crate) fn positions_under<'a>(
    by_name: &'a BTreeMap<Text, Items<usize>>,
    name: &Text,
) -> &'a [usize]
    ensures value { result.now ≡ named by_name.now.entries name.now }
    ensures text { IsUtf8 name.now }
{
    let _text = name.as_str();
    match by_name.get(name) {
        Some(positions) => positions.as_slice(),
        None => &[],
    }
}

/// The folder that a path lies right in; the root's own is the root.
pub(crate) fn folder_of(names: &[Text]) -> &[Text]
    ensures { result.now ≡ take (length names.now - 1) names.now }
{
    match names {
        [] => names,
        [folder @ .., _] => folder,
    }
}

/// The positions of the lines whose paths all lie right in folders that have this one's name.
pub(crate) fn positions_lying<'a>(
    by_folder: &'a BTreeMap<Text, Items<usize>>,
    folder: &[Text],
) -> &'a [usize]
    ensures { result.now ≡ lying by_folder.now.entries folder.now }
{
    match folder {
        [] => &[],
        [.., name] => positions_under(by_folder, name),
    }
}

/// The positions of the lines whose paths all end in a name that begins with the byte that this one begins with.
pub(crate) fn positions_beginning<'a>(by_begin: &'a Positions, name: &Text) -> &'a [usize]
    ensures { result.now ≡ under_begin by_begin.now name.now }
{
    match name.as_str().as_bytes() {
        [] => &[],
        [byte, ..] => by_begin.under(*byte as usize),
    }
}

/// The byte that a path's last name ends with; none where there is no name or it is empty.
fn last_byte(names: &[Text]) -> Option<u8>
    ensures { IsLastByte names.now result }
{
    match names {
        [] => None,
        [.., last] => match last.as_str().as_bytes() {
            [] => None,
            [.., byte] => Some(*byte),
        },
    }
}

/// A line that a folder's names leave, by its position. For most names that lie right in the folder, their last byte shows that the line
/// doesn't relate to them, and then nothing else of it is looked at.
#[derive(Clone, Copy, Debug)]
pub(crate) struct Leaf {
    position: usize,
    /// The byte that the last name of each path ends with which the line relates to, where that is known.
    end: Option<u8>,
}

impl Leaf {
    /// Whether the line may relate to paths whose last name ends with this byte.
    fn may_take(self, last: Option<u8>) -> bool
        ensures { result ≡ may_take self.end last }
    {
        match self.end {
            None => true,
            Some(byte) => last == Some(byte),
        }
    }
}

/// The line at a position as a leaf.
fn leaf_at(lines: &[Line], position: usize) -> Leaf
    requires { position < length lines.now }
    ensures position { result.position ≡ position }
    ensures known { IsLeafOf lines.now result }
{
    Leaf {
        position,
        end: lines[position].last_end(),
    }
}

/// The rank of a leaf's line where it relates to a path, else the rank that there was.
fn raised_by(lines: &[Line], leaf: Leaf, names: &[Text], last: Option<u8>, above: usize) -> usize
    requires within { leaf.position < length lines.now }
    requires next { above ≤ leaf.position }
    requires known { IsLeafOf lines.now leaf }
    requires last { IsLastByte names.now last }
    ensures { IsRaised lines.now leaf.position names.now above result }
{
    if leaf.may_take(last) {
        raised(lines, leaf.position, names, above)
    } else {
        above
    }
}

/// What `best` gives for these leaves' positions.
fn best_leaf(
    lines: &[Line],
    leaves: &[Leaf],
    names: &[Text],
    last: Option<u8>,
    before: usize,
) -> usize
    requires order { AreInOrder (length lines.now) (positions_in leaves.now) }
    requires known { AreLeavesOf lines.now leaves.now }
    requires last { IsLastByte names.now last }
    ensures { IsBest lines.now (positions_in leaves.now) names.now before result }
{
    for passed in 0..leaves.len() {
        let leaf = leaves[leaves.len() - 1 - passed];
        if leaf.position < before {
            return before;
        }
        let rank = raised_by(lines, leaf, names, last, before);
        if rank > before {
            return rank;
        }
    }
    before
}

/// Whether a folder's names show that the line at a position relates to no path right in it.
fn is_dead_at(lines: &[Line], position: usize, folder: &[Text]) -> bool
    requires { position < length lines.now }
    ensures { IsTrue result → IsDeadAt lines.now position folder.now }
{
    lines[position].is_dead_in(folder)
}

/// Those of these positions whose lines aren't dead in a folder.
fn living(
    alloc: Global,
    lines: &[Line],
    positions: &[usize],
    folder: &[Text],
) -> Result<Items<Leaf>, Memory>
    requires { AreInOrder (length lines.now) positions.now }
    ensures { IfOk result (λ left. AreLiving lines.now positions.now folder.now left) }
{
    let mut left = Items::new(alloc);
    for position in positions {
        if !is_dead_at(lines, *position, folder) {
            left.push(leaf_at(lines, *position))?;
        }
    }
    Ok(left)
}

/// Adds a position to those of a name.
pub(crate) fn add(
    alloc: Global,
    by_name: &mut BTreeMap<Text, Items<usize>>,
    name: &str,
    position: usize,
) -> Result<(), Memory>
    ensures { OnOk result (IsAdded by_name.old.entries by_name.new.entries name.now position) }
{
    let name = Text::from_str(alloc, name)?;
    match by_name.get_mut(&name) {
        Some(positions) => positions.push(position),
        None => {
            let mut positions = Items::new(alloc);
            positions.push(position)?;
            by_name.insert(name, positions)?;
            Ok(())
        }
    }
}

/// Positions of an ignore file's lines, by what is known of the paths that they relate to.
#[derive(Drop)]
pub(crate) struct Index {
    /// Those whose paths all end in one name, by it.
    pub by_name: BTreeMap<Text, Items<usize>>,
    /// Those whose paths all end in names with one first byte, by it.
    pub by_begin: Positions,
    /// Those whose paths all lie right in folders of one name, by it.
    pub by_folder: BTreeMap<Text, Items<usize>>,
    /// Those whose paths all have one number of names, by it.
    pub by_count: Positions,
    pub others: Items<usize>,
}

/// What a folder leaves of an index: of the positions that aren't found by a name or a byte, those that are tried for the paths right in it.
#[derive(Drop)]
pub(crate) struct Left {
    lying: Items<Leaf>,
    others: Items<Leaf>,
    counted: Items<Leaf>,
}

impl Index {
    /// The greatest of a rank and of those of the lines that relate to just this path and are found by its last name.
    fn verdict_found(&self, lines: &[Line], names: &[Text], above: usize) -> usize
        requires { IsIndex lines.now self.now.by_name.entries self.now.by_folder.entries self.now.by_begin self.now.by_count self.now.others }
        ensures { IsFound lines.now self.now.by_name.entries self.now.by_begin names.now above result }
    {
        match names {
            [] => above,
            [.., last] => {
                let begun = positions_beginning(&self.by_begin, last);
                let high = best(lines, begun, names, above);
                best(lines, positions_under(&self.by_name, last), names, high)
            }
        }
    }

    /// The greatest of a rank and of those of the lines that relate to just this path.
    pub(crate) fn verdict(&self, lines: &[Line], names: &[Text], above: usize) -> usize
        requires { IsIndex lines.now self.now.by_name.entries self.now.by_folder.entries self.now.by_begin self.now.by_count self.now.others }
        ensures { IsVerdict lines.now names.now above result }
    {
        let lying = positions_lying(&self.by_folder, folder_of(names));
        let least = best(lines, lying, names, above);
        let low = best(lines, self.others.as_slice(), names, least);
        let middle = best(lines, self.by_count.under(names.len()), names, low);
        self.verdict_found(lines, names, middle)
    }

    /// The same, of a path that lies right in the folder that left this.
    pub(crate) fn verdict_left(
        &self,
        lines: &[Line],
        left: &Left,
        names: &[Text],
        above: usize,
    ) -> usize
        requires index { IsIndex lines.now self.now.by_name.entries self.now.by_folder.entries self.now.by_begin self.now.by_count self.now.others }
        requires left { IsLeft lines.now self.now (take (length names.now - 1) names.now) left.now }
        requires some { 1 ≤ length names.now }
        ensures { IsVerdict lines.now names.now above result }
    {
        let last = last_byte(names);
        let least = best_leaf(lines, left.lying.as_slice(), names, last, above);
        let low = best_leaf(lines, left.others.as_slice(), names, last, least);
        let middle = best_leaf(lines, left.counted.as_slice(), names, last, low);
        self.verdict_found(lines, names, middle)
    }

    /// The rank of the line that decides of a path.
    pub(crate) fn rank(&self, lines: &[Line], names: &[Text]) -> usize
        requires { IsIndex lines.now self.now.by_name.entries self.now.by_folder.entries self.now.by_begin self.now.by_count self.now.others }
        ensures { IsDecided lines.now names.now result }
    {
        let mut decided = self.verdict(lines, &[], 0);
        for depth in 0..names.len() {
            decided = self.verdict(lines, &names[..depth + 1], decided);
        }
        decided
    }

    /// What a folder leaves.
    pub(crate) fn left_in(
        &self,
        alloc: Global,
        lines: &[Line],
        folder: &[Text],
    ) -> Result<Left, Memory>
        requires { IsIndex lines.now self.now.by_name.entries self.now.by_folder.entries self.now.by_begin self.now.by_count self.now.others }
        ensures { IfOk result (λ left. IsLeft lines.now self.now folder.now left) }
    {
        let lying = positions_lying(&self.by_folder, folder);
        let lying = living(alloc, lines, lying, folder)?;
        let others = living(alloc, lines, self.others.as_slice(), folder)?;
        let counted = living(alloc, lines, self.by_count.under(folder.len() + 1), folder)?;
        Ok(Left {
            lying,
            others,
            counted,
        })
    }

    /// Decides the fronts of a path that are longer than its first `same` names, from what is decided of those and what its folder leaves.
    pub(crate) fn hand_down(
        &self,
        lines: &[Line],
        left: &Left,
        names: &[Text],
        same: usize,
        decided: &mut [usize; 65],
    )
        requires index { IsIndex lines.now self.now.by_name.entries self.now.by_folder.entries self.now.by_begin self.now.by_count self.now.others }
        requires left { IsLeft lines.now self.now (take (length names.now - 1) names.now) left.now }
        requires few { length names.now ≤ 64 }
        requires some { same ≤ length names.now }
        requires before { (i : ℕ) → i ≤ same → IsDecided lines.now (take i names.now) (get_or decided.old i 0) }
        ensures { (i : ℕ) → i ≤ length names.now → IsDecided lines.now (take i names.now) (get_or decided.new i 0) }
    {
        for depth in same..names.len() {
            let above = decided[depth];
            let rank = if depth + 1 < names.len() {
                self.verdict(lines, &names[..depth + 1], above)
            } else {
                self.verdict_left(lines, left, names, above)
            };
            decided[depth + 1] = rank;
        }
    }
}
