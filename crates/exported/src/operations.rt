// An operation with its inputs, and the end.

ghost use Rattle.std.specs.Prelude.{◌≡◌, [], ◌∷◌, None, Some, map, IfOk, option_copied};
ghost use Rattle.llbmessages.specs.declared.op.OpKind.TheVariants.{End as EndKind};
ghost use Rattle.exported.specs.Operations.{input_at, op_on, end_op};

use llbmessages::{Constraints, Input, Op, OpKind, Platform};
use plain::{Exact, Items, Memory, Text, with_copy};
use std::alloc::Global;

/// A copy of a platform.
fn copied_platform(alloc: Global, platform: &Platform) -> Result<Platform, Memory>
    ensures { IfOk result (λ copied. copied ≡ platform.now) }
{
    let architecture = platform.architecture.copy(alloc)?;
    let (architecture, os) = with_copy(alloc, architecture, &platform.os)?;
    let ((architecture, os), variant) = with_copy(alloc, (architecture, os), &platform.variant)?;
    Ok(Platform {
        architecture,
        os,
        variant,
    })
}

/// The first outputs of the operations of some digests.
fn inputs_at(alloc: Global, digests: &[Text]) -> Result<Items<Input>, Memory>
    ensures { IfOk result (λ inputs. inputs ≡ map input_at digests.now) }
{
    let mut inputs = Items::new(alloc);
    for digest in digests {
        let digest = digest.copy(alloc)?;
        inputs.push(Input { digest, index: 0 })?;
    }
    Ok(inputs)
}

/// The operation that does nothing yet, for a platform.
#[tactic(auto, unfolding(crate::specs::Operations::op_on))]
fn idle_on(alloc: Global, platform: &Platform, digests: &[Text]) -> Result<Op, Memory>
    ensures { IfOk result (λ op. op ≡ op_on (Some platform.now) digests.now EndKind) }
{
    let inputs = inputs_at(alloc, digests)?;
    match copied_platform(alloc, platform) {
        Ok(platform) => Ok(Op {
            inputs,
            kind: OpKind::End,
            platform: Some(platform),
            constraints: Some(Constraints {
                filters: Items::new(alloc),
            }),
        }),
        Err(memory) => {
            drop(inputs);
            Err(memory)
        }
    }
}

/// An operation for a platform: what it does on inputs of these digests.
#[tactic(auto, unfolding(crate::specs::Operations::op_on))]
pub(crate) fn op_for(
    alloc: Global,
    platform: &Platform,
    digests: &[Text],
    kind: OpKind,
) -> Result<Op, Memory>
    ensures { IfOk result (λ op. op ≡ op_on (Some platform.now) digests.now kind) }
{
    match idle_on(alloc, platform, digests) {
        Ok(op) => Ok(Op { kind, ..op }),
        Err(memory) => {
            drop(kind);
            Err(memory)
        }
    }
}

/// An operation for any platform: what it does on inputs of these digests.
#[tactic(auto, unfolding(crate::specs::Operations::op_on))]
pub(crate) fn op_for_any(alloc: Global, digests: &[Text], kind: OpKind) -> Result<Op, Memory>
    ensures { IfOk result (λ op. op ≡ op_on None digests.now kind) }
{
    match inputs_at(alloc, digests) {
        Ok(inputs) => Ok(Op {
            inputs,
            kind,
            platform: None,
            constraints: Some(Constraints {
                filters: Items::new(alloc),
            }),
        }),
        Err(memory) => {
            drop(kind);
            Err(memory)
        }
    }
}

/// The end of a definition, which names the first output of the operation of this digest as its result.
#[tactic(auto, unfolding(crate::specs::Operations::end_op))]
pub fn end_op(alloc: Global, digest: &Text) -> Result<Op, Memory>
    ensures { IfOk result (λ op. op ≡ end_op digest.now) }
{
    let digest = digest.copy(alloc)?;
    let mut inputs = Items::new(alloc);
    inputs.push(Input { digest, index: 0 })?;
    Ok(Op {
        inputs,
        kind: OpKind::End,
        platform: None,
        constraints: None,
    })
}
