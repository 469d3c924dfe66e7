// Merges.

ghost use Rattle.std.specs.Prelude.{◌≡◌, ◌++◌, None, IfOk, OnOk};
ghost use Rattle.llbmessages.specs.declared.op.OpKind.TheVariants.{Merge as MergeKind};
ghost use Rattle.exported.specs.Operations.{op_on};
ghost use Rattle.exported.specs.Merges.{with_tree, trees_at, merge_inputs, merge_of};

use crate::operations::op_for_any;
use crate::places::index;
use llbmessages::{MergeInput, MergeOp, Op, OpKind};
use plain::{Exact, Items, Memory, Text};
use std::alloc::Global;

/// Adds the digest of a place, if it isn't the empty tree's.
fn add_tree(alloc: Global, digests: &mut Items<Text>, place: &Option<Text>) -> Result<(), Memory>
    ensures { OnOk result (digests.new ≡ with_tree digests.old place.now) }
{
    match place {
        None => Ok(()),
        Some(digest) => digests.push(digest.copy(alloc)?),
    }
}

/// The digests of the trees that a merge lays over each other. Where there is one alone, its tree is the merge's, and where there is none, the
/// empty tree is.
pub fn trees_at(alloc: Global, places: &[Option<Text>]) -> Result<Items<Text>, Memory>
    ensures { IfOk result (λ digests. digests ≡ trees_at places.now) }
{
    let mut digests = Items::new(alloc);
    for place in places {
        add_tree(alloc, &mut digests, place)?;
    }
    Ok(digests)
}

/// A merge of all inputs.
#[tactic(auto, unfolding(crate::specs::Merges::merge_of))]
fn merge_of(alloc: Global, digests: &[Text]) -> Result<MergeOp, Memory>
    ensures { IfOk result (λ merge. merge ≡ merge_of digests.now) }
{
    let mut inputs = Items::new(alloc);
    for (number, _) in digests.iter().enumerate() {
        let input = index(number)?;
        inputs.push(MergeInput { input })?;
    }
    Ok(MergeOp { inputs })
}

/// The operation that lays the trees of these digests over each other, the first one at the bottom.
pub fn merge_op(alloc: Global, digests: &[Text]) -> Result<Op, Memory>
    ensures { IfOk result (λ op. op ≡ op_on None digests.now (MergeKind (merge_of digests.now))) }
{
    let merge = merge_of(alloc, digests)?;
    op_for_any(alloc, digests, OpKind::Merge(merge))
}
