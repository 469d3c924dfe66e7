// The parts of a folder's children: which one a name is in, and how one is changed that others may share.
ghost use Rattle.std.specs.Prelude.{◌≡◌, ◌+◌, ◌<◌, ◌≤◌, ◌↔◌, true, false, length, IfOk, IfSome, IfNone, OnOk, OnErr, [], ◌∷◌, ◌++◌, vec_len};
ghost use Rattle.std.specs.Arc.{arc_value};
ghost use Rattle.trees.specs.PrivateNode.{lists_of, flat, are_parts, begins_past, IsPlace, IsPut, IsTaken, IsHalved};
ghost use Rattle.trees.specs.PrivateSeen.{seen_parts};

use crate::CopyOptions;
use crate::names::Names;
use crate::node::Node;
use plain::{Exact, Memory, Text};
use std::alloc::Global;
use std::sync::Arc;

/// Some children of a folder whose names follow each other, behind a pointer that folders share.
pub(crate) type Part = Arc<Names, Global>;

/// So many names every part may have before it is cut in two.
const FEW_NAMES: usize = 10;

/// For each so many parts of a folder, its parts may have one name more: a change copies the pointers to all parts and the names of
/// one, and a name costs so many pointers.
const PARTS_A_NAME: usize = 16;

/// The part in which a name stands or would stand.
pub(crate) fn place(parts: &[Part], name: &Text) -> usize
    requires { are_parts (lists_of parts.now) ≡ true }
    ensures { IsPlace name.now (lists_of parts.now) result }
{
    let mut low = 0;
    let mut high = parts.len();
    // Rows in the order of a walk are placed last first, so mostly a name is in its folder's first part.
    if high > 1 && begins_past(&parts[1], name) {
        return 0;
    }
    while high - low > 1 {
        let middle = low + (high - low) / 2;
        if begins_past(&parts[middle], name) {
            high = middle;
        } else {
            low = middle;
        }
    }
    low
}

/// Whether a part's first name is above a name.
fn begins_past(part: &Part, name: &Text) -> bool
    ensures { result ≡ begins_past name.now (arc_value part.now) }
{
    match part.rows() {
        [] => false,
        [first, ..] => name < &first.0,
    }
}

/// The same parts, shared.
pub(crate) fn share(alloc: Global, parts: &[Part]) -> Result<Vec<Part>, Memory>
    ensures { IfOk result (λ shared. lists_of shared.items ≡ lists_of parts.now) }
{
    let mut shared = Vec::with_capacity(alloc, parts.len())?;
    for part in parts {
        shared.push(Arc::try_clone(part)?)?;
    }
    Ok(shared)
}

/// A part of one child.
pub(crate) fn part_of_one(alloc: Global, name: &Text, kid: Node) -> Result<Part, Memory>
    ensures { IfOk result (λ part. arc_value part ≡ (name.now, kid) ∷ []) }
{
    let names = Names::one(alloc, name.copy(alloc)?, kid)?;
    let part = Arc::new(alloc, names)?;
    Ok(part)
}

/// Parts of the same names, each of whose nodes is as a COPY places it. What is below it is shared.
pub(crate) fn placed_parts(
    alloc: Global,
    options: &CopyOptions,
    parts: &[Part],
) -> Result<Vec<Part>, Memory>
    ensures { IfOk result (λ placed. lists_of placed.items ≡ seen_parts options.now (lists_of parts.now)) }
{
    let mut placed = Vec::with_capacity(alloc, parts.len())?;
    for part in parts {
        let names = part.placed(alloc, options)?;
        placed.push(Arc::new(alloc, names)?)?;
    }
    Ok(placed)
}

/// Puts a child into a part. Where others share the part, a copy with room for it takes its place.
pub(crate) fn put(alloc: Global, part: &mut Part, name: &Text, kid: Node) -> Result<(), Memory>
    ensures ok { OnOk result (IsPut name.now kid (arc_value part.old) (arc_value part.new)) }
    ensures err { OnErr result ((arc_value part.new) ≡ (arc_value part.old)) }
{
    if let Some(names) = Arc::get_mut(part) {
        return names.put(alloc, name, kid);
    }
    let mut names = part.copy(alloc, 1)?;
    names.put(alloc, name, kid)?;
    *part = Arc::new(alloc, names)?;
    Ok(())
}

/// Takes a child out of a part, and answers whether none is left. Where others share the part, a copy takes its place.
pub(crate) fn take_away(alloc: Global, part: &mut Part, name: &Text) -> Result<bool, Memory>
    ensures ok { IfOk result (λ none_left. IsTaken name.now (arc_value part.old) (arc_value part.new) none_left) }
    ensures err { OnErr result ((arc_value part.new) ≡ (arc_value part.old)) }
{
    if let Some(names) = Arc::get_mut(part) {
        return Ok(names.remove(name));
    }
    let mut names = part.copy(alloc, 0)?;
    let none_left = names.remove(name);
    *part = Arc::new(alloc, names)?;
    Ok(none_left)
}

/// How many names each part of a folder may have, if there are so many parts.
pub(crate) fn most_names(parts: usize) -> usize {
    FEW_NAMES + parts / PARTS_A_NAME
}

/// Whether a part, one of so many, may take one name more.
pub(crate) fn has_room(part: &Names, parts: usize) -> bool {
    part.len() < most_names(parts)
}

/// Cuts the part at a place in two, so that a name has room.
pub(crate) fn make_room(
    alloc: Global,
    parts: &mut Vec<Part>,
    at: usize,
    name: &Text,
) -> Result<(), Memory>
    requires inside { at < vec_len parts.old }
    requires parts { are_parts (lists_of parts.old.items) ≡ true }
    ensures kids { flat (lists_of parts.new.items) ≡ flat (lists_of parts.old.items) }
    ensures parts { are_parts (lists_of parts.new.items) ≡ true }
    ensures more { vec_len parts.old ≤ vec_len parts.new }
{
    parts.reserve(1)?;
    if let Some(upper) = halve(alloc, &mut parts[at], name)? {
        parts.insert(at + 1, upper).unwrap();
    }
    Ok(())
}

/// Takes the upper half of a part away and gives it, so that a new name has room. Where there is nothing to take, nothing has changed.
fn halve(alloc: Global, part: &mut Part, new: &Text) -> Result<Option<Part>, Memory>
    ensures done { IfOk result (λ halved. IfSome halved (λ upper. IsHalved (arc_value part.old) (arc_value part.new) (arc_value upper))) }
    ensures kept { IfOk result (λ halved. IfNone halved ((arc_value part.new) ≡ (arc_value part.old))) }
    ensures err { OnErr result ((arc_value part.new) ≡ (arc_value part.old)) }
{
    let half = lower_half(part, new);
    if half >= part.len() {
        return Ok(None);
    }
    if let Some(names) = Arc::get_mut(part) {
        return Ok(Some(names.split_off(alloc, half)?));
    }
    let mut names = part.copy(alloc, 0)?;
    let upper = names.split_off(alloc, half)?;
    *part = Arc::new(alloc, names)?;
    Ok(Some(upper))
}

/// How many names stay where a part is cut: half of them. Rows in the order of a walk are placed last first, so all but one go where a new
/// name comes before them: the parts of a folder are full then.
fn lower_half(part: &Names, new: &Text) -> usize
    ensures { 0 < result }
{
    match part.rows() {
        [first, ..] if new < &first.0 => 1,
        _ => part.len() / 2 + 1,
    }
}
