ghost use Rattle.std.specs.Prelude.{◌≡◌, [], ◌∷◌, ◌++◌, IfOk};
ghost use Rattle.wire.specs.Kinds.{message_value};
ghost use Rattle.llbmessages.specs.Definition.{metadata_fields, definition_fields};

use plain::{Bytes, Items, Memory, Text};
use std::alloc::Global;
use wire::{Encode, EntryValue, Map, Message};

/// What is said of an operation beside its bytes, which its digest doesn't cover.
#[derive(Drop)]
pub struct OpMetadata {
    /// Whether it runs although its result is known.
    pub ignore_cache: bool,
    /// Descriptions, as `llb.customname`, which is what progress calls the operation.
    pub description: Map<Text>,
    /// What an engine has to know to run the operation, as `file.base`.
    pub caps: Map<bool>,
}

impl Encode for OpMetadata {
    ghost fields = { metadata_fields };

    #[tactic(auto, unfolding(crate::specs::Definition::metadata_fields))]
    fn encode(&self, alloc: Global) -> Result<Message, Memory> {
        Message::new(alloc)
            .with_flag(1, self.ignore_cache)?
            .with_map(alloc, 2, &self.description)?
            .with_map(alloc, 5, &self.caps)
    }
}

impl EntryValue for OpMetadata {
    ghost held = { message_value metadata_fields };

    #[tactic(auto, unfolding(wire::specs::Kinds::message_field))]
    fn add_to(&self, alloc: Global, entry: Message) -> Result<Message, Memory> {
        entry.with_encoded(alloc, 2, self)
    }
}

/// A graph of operations, which BuildKit solves.
#[derive(Drop)]
pub struct Definition {
    /// The bytes of each operation, each after its inputs; the last one is the end.
    pub ops: Items<Bytes>,
    /// What is said of the operations, by their digests.
    pub metadata: Map<OpMetadata>,
}

impl Encode for Definition {
    ghost fields = { definition_fields };

    #[tactic(auto, unfolding(crate::specs::Definition::definition_fields))]
    fn encode(&self, alloc: Global) -> Result<Message, Memory> {
        Message::new(alloc)
            .with_blocks(1, self.ops.as_slice())?
            .with_map(alloc, 2, &self.metadata)
    }
}
