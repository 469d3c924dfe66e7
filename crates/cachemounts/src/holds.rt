ghost use Rattle.std.specs.Prelude.{◌≡◌, ◌+◌, ◌<◌, length, map, IfOk, true, false};
ghost use Rattle.std.specs.List.{list_any, list_all};
ghost use Rattle.cachemounts.specs.Holds.{is_common, is_alone, is_slot, holds_common, holds_alone, holds_slot, may_begin, can_take, lowest_free, access_for, new_holds, same_id, of_holder, without_holder, is_holder, free_number, nobody, number_for};

use plain::{Exact, Memory, Sharing, Text};
use runs::CacheUse;
use std::alloc::Global;

/// Which content of a cache is held, and how.
#[derive(Clone, Copy, Debug, PartialEq, Eq)]
pub enum Access {
    /// The common content, as a shared use holds it: others may hold it too.
    Together,
    /// The common content, as a locked use holds it: nobody else does.
    Alone,
    /// The content of a private slot, by its number.
    Slot(usize),
}

/// A cache that is held: by whom, the cache's id, and which content of it.
#[derive(Drop)]
pub struct Hold {
    pub holder: usize,
    pub id: Text,
    pub access: Access,
}

fn is_common(access: Access) -> bool
    ensures { result ≡ is_common access }
{
    match access {
        Access::Together => true,
        Access::Alone => true,
        Access::Slot(_) => false,
    }
}

fn is_alone(access: Access) -> bool
    ensures { result ≡ is_alone access }
{
    match access {
        Access::Together => false,
        Access::Alone => true,
        Access::Slot(_) => false,
    }
}

fn is_slot(slot: usize, access: Access) -> bool
    ensures { result ≡ is_slot slot access }
{
    match access {
        Access::Together => false,
        Access::Alone => false,
        Access::Slot(other) => other == slot,
    }
}

fn is_common_held(holds: &[Hold], id: &Text) -> bool
    ensures { result ≡ list_any (holds_common id.now) holds.now }
{
    holds
        .iter()
        .any(|hold| hold.id == *id && is_common(hold.access))
}

fn is_alone_held(holds: &[Hold], id: &Text) -> bool
    ensures { result ≡ list_any (holds_alone id.now) holds.now }
{
    holds
        .iter()
        .any(|hold| hold.id == *id && is_alone(hold.access))
}

fn is_slot_held(holds: &[Hold], id: &Text, slot: usize) -> bool
    ensures { result ≡ list_any (holds_slot id.now slot) holds.now }
{
    holds
        .iter()
        .any(|hold| hold.id == *id && is_slot(slot, hold.access))
}

/// Whether a use of a cache may begin beside these holds.
pub(crate) fn may_begin(holds: &[Hold], id: &Text, sharing: Sharing) -> bool
    ensures { result ≡ may_begin holds.now id.now sharing }
{
    match sharing {
        Sharing::Locked => !is_common_held(holds, id),
        Sharing::Shared => !is_alone_held(holds, id),
        Sharing::Private => true,
    }
}

/// Whether all these uses may begin beside these holds.
pub(crate) fn can_take(holds: &[Hold], uses: &[CacheUse]) -> bool
    ensures { result ≡ can_take holds.now uses.now }
{
    uses.iter()
        .all(|mount| may_begin(holds, &mount.id, mount.sharing))
}

/// The lowest private slot of a cache that nobody holds.
fn lowest_free(holds: &[Hold], id: &Text) -> usize
    ensures { result ≡ lowest_free holds.now id.now }
{
    for slot in 0..holds.len() {
        if !is_slot_held(holds, id, slot) {
            return slot;
        }
    }
    holds.len()
}

/// What a use holds of its cache once it has begun.
fn access_for(holds: &[Hold], id: &Text, sharing: Sharing) -> Access
    ensures { result ≡ access_for holds.now id.now sharing }
{
    match sharing {
        Sharing::Locked => Access::Alone,
        Sharing::Shared => Access::Together,
        Sharing::Private => Access::Slot(lowest_free(holds, id)),
    }
}

/// The holds of uses that begin together, beside these.
pub(crate) fn new_holds(
    alloc: Global,
    holder: usize,
    holds: &[Hold],
    uses: &[CacheUse],
) -> Result<Vec<Hold>, Memory>
    ensures { IfOk result (λ new. new.items ≡ new_holds holder holds.now uses.now) }
{
    let mut new = Vec::with_capacity(alloc, uses.len())?;
    for mount in uses {
        let id = mount.id.copy(alloc)?;
        let access = access_for(holds, &mount.id, mount.sharing);
        new.push(Hold { holder, id, access })?;
    }
    Ok(new)
}

/// Whether a holder holds anything.
pub(crate) fn is_holder(holds: &[Hold], holder: usize) -> bool
    ensures { result ≡ is_holder holder holds.now }
{
    holds.iter().any(|hold| hold.holder == holder)
}

/// The least number of a holder that holds nothing.
fn free_number(holds: &[Hold]) -> usize
    ensures value { result ≡ free_number holds.now }
    ensures below { result < usize.MAX }
{
    for number in 0..holds.len() {
        if !is_holder(holds, number) {
            return number;
        }
    }
    holds.len()
}

/// The number that a lease of these uses gets. Without uses it holds nothing, so it shares its number with no lease that holds a cache.
pub(crate) fn number_for(holds: &[Hold], uses: &[CacheUse]) -> usize
    requires { is_holder nobody holds.now ≡ false }
    ensures value { result ≡ number_for holds.now uses.now }
    ensures free { is_holder result holds.now ≡ false }
    ensures apart { is_holder nobody (new_holds result holds.now uses.now) ≡ false }
{
    if uses.is_empty() {
        return usize::MAX;
    }
    free_number(holds)
}

/// How many of these holds are a holder's.
pub(crate) fn count_of(holds: &[Hold], holder: usize) -> usize
    ensures { result ≡ length (of_holder holder holds.now) }
{
    holds.iter().filter(|hold| hold.holder == holder).count()
}

/// Ends what a holder holds.
pub(crate) fn drop_holder(holds: &mut Vec<Hold>, holder: usize)
    ensures { holds.new.items ≡ without_holder holder holds.old.items }
{
    holds.retain(|hold| hold.holder != holder);
}
