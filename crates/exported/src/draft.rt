// A definition that is being made.

ghost use Rattle.std.specs.Prelude.{◌≡◌, ◌++◌, ◌∷◌, [], IfOk, OnOk};
ghost use Rattle.std.specs.BTreeMap.{insert_entry};
ghost use Rattle.paths.specs.Order.{name_cmp};
ghost use Rattle.llbmessages.specs.Op.{op_bytes};
ghost use Rattle.exported.specs.Places.{digest_of};
ghost use Rattle.exported.specs.Operations.{end_op};
ghost use Rattle.exported.specs.Metadata.{end_metadata};
ghost use Rattle.exported.specs.Exporting.{with_op, placed, nothing, ended_at};
ghost use Rattle.exported.specs.PrivateExporting.{Changes, Gives};
ghost use Rattle.exported.specs.declared.making.Made.TheVariants.{By as MadeBy};

use crate::metadata::{end_metadata, metadata_of};
use crate::operations::end_op;
use crate::ops::Ops;
use crate::places::digest_of;
use crate::{ExportFault, Obstacle};
use llbmessages::{Definition, Op, OpMetadata};
use plain::{Bytes, Exact, Fault, Items, Memory, Text};
use std::alloc::Global;
use std::collections::BTreeMap;
use std::marker::Model;
use wire::Map;

/// What is said of operations, by their digests.
type Metadata = BTreeMap<Text, OpMetadata>;

/// A definition that is being made: its operations so far, and what is said of each.
#[derive(Drop)]
pub(crate) struct Draft {
    ops: Ops,
    metadata: Metadata,
}

impl Model for Draft {
    ghost use Rattle.llbmessages.specs.declared.definition.Definition.{Definition};

    ghost Value = { Definition };

    ghost view = { λ d. record { ops = d.ops; metadata = d.metadata.entries } };
}

impl Draft {
    /// No operation yet. It takes no memory.
    pub(crate) fn new(alloc: Global) -> Draft
        ensures { result ≡ nothing }
    {
        Draft {
            ops: Ops::new(alloc),
            metadata: BTreeMap::new(alloc),
        }
    }

    /// Adds an operation by its bytes, if it isn't there; `number` is that of its vertex.
    fn add_bytes(
        &mut self,
        alloc: Global,
        number: usize,
        digest: &Text,
        bytes: Bytes,
        said: OpMetadata,
    ) -> Result<(), ExportFault>
        requires { digest.now ≡ digest_of bytes }
        ensures { Changes (with_op number self.old bytes said) self.new result }
    {
        match self.ops.is_same(digest, &bytes) {
            None => {
                say(alloc, &mut self.metadata, digest, said)?;
                Ok(self.ops.push(alloc, digest, bytes)?)
            }
            Some(true) => {
                drop(said);
                Ok(())
            }
            Some(false) => {
                drop(said);
                Err(Fault::Because(Obstacle::Clash(number)))
            }
        }
    }

    /// Adds an operation of this name, if it isn't there, and answers its place; `number` is that of its vertex.
    pub(crate) fn add(
        &mut self,
        alloc: Global,
        number: usize,
        op: &Op,
        name: &Option<Text>,
    ) -> Result<Option<Text>, ExportFault>
        ensures { Gives (placed number self.old name.now (MadeBy op.now)) self.new result }
    {
        let bytes = op.to_bytes(alloc)?;
        let digest = digest_of(alloc, bytes.as_slice())?;
        let said = metadata_of(alloc, name, op)?;
        self.add_bytes(alloc, number, &digest, bytes, said)?;
        Ok(Some(digest))
    }

    /// The definition with its end, where the operation of this digest has the result.
    #[tactic(auto, unfolding(crate::specs::Exporting::ended_at))]
    pub(crate) fn end(self, alloc: Global, digest: &Text) -> Result<Definition, Memory>
        ensures { IfOk result (λ definition. definition ≡ ended_at self digest.now) }
    {
        let end = end_op(alloc, digest)?.to_bytes(alloc)?;
        let Draft { ops, metadata } = self;
        let metadata = ended_metadata(alloc, metadata, end.as_slice())?;
        match ended_ops(ops, end) {
            Ok(ops) => Ok(Definition { ops, metadata }),
            Err(memory) => {
                drop(metadata);
                Err(memory)
            }
        }
    }
}

/// Adds what is said of the operation of a digest.
fn say(
    alloc: Global,
    metadata: &mut Metadata,
    digest: &Text,
    said: OpMetadata,
) -> Result<(), Memory>
    ensures { OnOk result (metadata.new.entries ≡ insert_entry name_cmp metadata.old.entries digest.now said) }
{
    match digest.copy(alloc) {
        Ok(digest) => {
            metadata.insert(digest, said)?;
            Ok(())
        }
        Err(memory) => {
            drop(said);
            Err(memory)
        }
    }
}

/// The operations with the end.
fn ended_ops(ops: Ops, end: Bytes) -> Result<Items<Bytes>, Memory>
    ensures { IfOk result (λ ended. ended ≡ ops ++ end ∷ []) }
{
    let mut ops = ops.into_items();
    ops.push(end)?;
    Ok(ops)
}

/// What is said of operations and of the end, which has these bytes.
fn ended_metadata(alloc: Global, metadata: Metadata, end: &[u8]) -> Result<Map<OpMetadata>, Memory>
    ensures { IfOk result (λ ended. ended ≡ insert_entry name_cmp metadata.entries (digest_of end.now) (end_metadata metadata.entries)) }
{
    let mut metadata = metadata;
    let digest = digest_of(alloc, end)?;
    let said = end_metadata(alloc, &metadata)?;
    say(alloc, &mut metadata, &digest, said)?;
    Map::from_sorted(alloc, metadata)
}
