ghost use Rattle.std.specs.Prelude.{◌≡◌, ◌≤◌, ℕ, Some, None, List, length, IfOk, IfErr};
ghost use Rattle.std.specs.FinMap.{get};
ghost use Rattle.trees.specs.declared.meta.Meta.{Meta as MetaValue};
ghost use Rattle.trees.specs.declared.entry.Entry.TheVariants.{File};
ghost use Rattle.trees.specs.Rows.{entry_of};
ghost use Rattle.trees.specs.PrivateNode.{map_of};
ghost use Rattle.trees.specs.Put.{cause_at, clash_of, kept_meta};

use crate::landing::Landing;
use crate::node::Node;
use crate::{Cause, Entry, LentEntry, Meta};
use plain::Text;

/// Why an entry can't stand where this one stands.
fn clash_of(there: &LentEntry<'_>, entry: &Entry) -> Option<Cause>
    ensures { result ≡ clash_of (Some (entry_of there.now)) entry.now }
{
    match (there, entry) {
        (LentEntry::Directory(_), Entry::File(_, _)) => Some(Cause::F4),
        (LentEntry::File(_, _), Entry::Directory(_)) => Some(Cause::F2),
        _ => None,
    }
}

/// Why an entry can't be placed at a path, if it can't. A path of ours is never too deep.
pub(crate) fn cause_at(root: &Node, path: &[Text], entry: &Entry) -> Option<Cause>
    requires { length path.now ≤ 64 }
    ensures { result ≡ cause_at (get (map_of root.now)) path.now entry.now }
{
    match root.lent().landing(path) {
        Landing::Blocked => Some(Cause::F2),
        Landing::Free => None,
        Landing::At(there) => clash_of(&there, entry),
    }
}

/// The mode and owner with which a file is written at a path, or why none can be written there. A path of ours is never too deep.
pub(crate) fn written_meta(root: &Node, path: &[Text]) -> Result<Meta, Cause>
    requires { length path.now ≤ 64 }
    ensures kept { IfOk result (λ meta. meta ≡ kept_meta (get (map_of root.now) path.now)) }
    ensures ok { IfOk result (λ meta. (content : List ℕ) → cause_at (get (map_of root.now)) path.now (File meta content) ≡ None) }
    ensures err { IfErr result (λ cause. (meta : MetaValue) (content : List ℕ) → cause_at (get (map_of root.now)) path.now (File meta content) ≡ Some cause) }
{
    match root.lent().landing(path) {
        Landing::Blocked => Err(Cause::F2),
        Landing::Free => Ok(Meta::file()),
        Landing::At(LentEntry::Directory(_)) => Err(Cause::F4),
        Landing::At(LentEntry::File(meta, _)) => Ok(meta),
    }
}
