// Merges as operations of files.

ghost use Rattle.std.specs.Prelude.{◌≡◌, Some, IfOk};
ghost use Rattle.llbmessages.specs.declared.op.OpKind.TheVariants.{File as FileKind};
ghost use Rattle.exported.specs.Operations.{op_on};
ghost use Rattle.exported.specs.Chains.{whole_copy, chain_input, chain_output, chain_action, chain_actions, chain_of};

use crate::files::after;
use crate::operations::op_for;
use crate::places::index;
use llbmessages::{CopyAction, FileAction, FileActionKind, FileOp, Op, OpKind, Platform};
use plain::{Items, Memory, Text};
use std::alloc::Global;

/// A copy of all of a tree onto another one.
#[tactic(auto, unfolding(crate::specs::Chains::whole_copy))]
fn whole_copy(alloc: Global) -> Result<CopyAction, Memory>
    ensures { IfOk result (λ copy. copy ≡ whole_copy) }
{
    let src = Text::from_str(alloc, "/")?;
    match Text::from_str(alloc, "/") {
        Ok(dest) => Ok(CopyAction {
            src,
            dest,
            owner: None,
            mode: -1,
            follow_symlink: true,
            dir_copy_contents: true,
            create_dest_path: true,
            allow_wildcard: false,
            allow_empty_wildcard: false,
            timestamp: -1,
        }),
        Err(memory) => {
            drop(src);
            Err(memory)
        }
    }
}

/// The number of the tree that a copy is made onto, by the numbers of the trees and of the copy.
#[tactic(auto, unfolding(crate::specs::Chains::chain_input))]
fn chain_input(trees: usize, number: usize) -> Result<i64, Memory>
    ensures { IfOk result (λ input. input ≡ chain_input trees number) }
{
    if number == 0 {
        return Ok(0);
    }
    match trees.checked_add(number - 1) {
        Some(made) => index(made),
        None => Err(Memory),
    }
}

/// The output that a copy is.
#[tactic(auto, unfolding(crate::specs::Chains::chain_output))]
fn chain_output(trees: usize, number: usize) -> i64
    ensures { result ≡ chain_output trees number }
{
    match number.checked_add(2) {
        Some(end) if end == trees => 0,
        _ => -1,
    }
}

/// The copy of this number, in a chain of so many trees.
#[tactic(auto, unfolding(crate::specs::Chains::chain_action))]
fn chain_action(alloc: Global, trees: usize, number: usize) -> Result<FileAction, Memory>
    ensures { IfOk result (λ action. action ≡ chain_action trees number) }
{
    let input = chain_input(trees, number)?;
    let secondary_input = index(after(number)?)?;
    let output = chain_output(trees, number);
    match whole_copy(alloc) {
        Ok(copy) => Ok(FileAction {
            input,
            secondary_input,
            output,
            kind: FileActionKind::Copy(copy),
        }),
        Err(memory) => Err(memory),
    }
}

/// The copies of the trees above the first one, in a chain of so many trees.
fn chain_actions(alloc: Global, trees: usize, digests: &[Text]) -> Result<Items<FileAction>, Memory>
    ensures { IfOk result (λ actions. actions ≡ chain_actions trees 0 digests.now) }
{
    let mut actions = Items::new(alloc);
    for (number, _) in digests.iter().enumerate() {
        actions.push(chain_action(alloc, trees, number)?)?;
    }
    Ok(actions)
}

/// The copies of all trees but the first one.
fn chain_of(alloc: Global, digests: &[Text]) -> Result<Items<FileAction>, Memory>
    ensures { IfOk result (λ actions. actions ≡ chain_of digests.now) }
{
    match digests {
        [] => Ok(Items::new(alloc)),
        [_, uppers @ ..] => chain_actions(alloc, digests.len(), uppers),
    }
}

/// The operation of files that lays the trees of these digests over each other, the first one at the bottom: copies, one after another.
pub fn chain_op(alloc: Global, platform: &Platform, digests: &[Text]) -> Result<Op, Memory>
    ensures { IfOk result (λ op. op ≡ op_on (Some platform.now) digests.now (FileKind (record { actions = chain_of digests.now }))) }
{
    let actions = chain_of(alloc, digests)?;
    op_for(alloc, platform, digests, OpKind::File(FileOp { actions }))
}
