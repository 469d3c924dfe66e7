ghost use Rattle.std.specs.Prelude.{◌≡◌, ◌++◌, [], IfOk};
ghost use Rattle.llbmessages.specs.Source.{source_fields};

use plain::{Memory, Text};
use std::alloc::Global;
use wire::{Encode, Map, Message};

/// A tree that no operation makes: the build's own folder, or an image.
#[derive(Drop)]
pub struct SourceOp {
    /// What it is, as `local://context` or `docker-image://` and an image's name.
    pub identifier: Text,
    /// What else is said of it, as `local.unique`.
    pub attrs: Map<Text>,
}

impl Encode for SourceOp {
    ghost fields = { source_fields };

    #[tactic(auto, unfolding(crate::specs::Source::source_fields))]
    fn encode(&self, alloc: Global) -> Result<Message, Memory> {
        Message::new(alloc)
            .with_text(1, &self.identifier)?
            .with_map(alloc, 2, &self.attrs)
    }
}
