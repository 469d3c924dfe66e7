ghost use Rattle.std.specs.Prelude.{◌≡◌, [], ◌++◌, IfOk};
ghost use Rattle.llbmessages.specs.Op.{input_fields, platform_fields, constraint_fields, merge_input_fields, merge_fields, kind_fields, op_fields};

use crate::{ExecOp, FileOp, SourceOp};
use plain::{Items, Memory, Text};
use std::alloc::Global;
use wire::{Encode, Message};

/// The output of another operation.
#[derive(Drop)]
pub struct Input {
    /// The digest of the operation's bytes, as `sha256:` and 64 digits.
    pub digest: Text,
    /// Which of its outputs it is.
    pub index: i64,
}

impl Encode for Input {
    ghost fields = { input_fields };

    #[tactic(auto, unfolding(crate::specs::Op::input_fields))]
    fn encode(&self, alloc: Global) -> Result<Message, Memory> {
        Message::new(alloc)
            .with_text(1, &self.digest)?
            .with_int(2, self.index)
    }
}

/// The platform that an operation is for.
#[derive(Drop)]
pub struct Platform {
    pub architecture: Text,
    pub os: Text,
    pub variant: Text,
}

impl Encode for Platform {
    ghost fields = { platform_fields };

    #[tactic(auto, unfolding(crate::specs::Op::platform_fields))]
    fn encode(&self, alloc: Global) -> Result<Message, Memory> {
        Message::new(alloc)
            .with_text(1, &self.architecture)?
            .with_text(2, &self.os)?
            .with_text(3, &self.variant)
    }
}

/// What is asked of the machine that runs an operation.
#[derive(Drop)]
pub struct Constraints {
    pub filters: Items<Text>,
}

impl Encode for Constraints {
    ghost fields = { constraint_fields };

    #[tactic(auto, unfolding(crate::specs::Op::constraint_fields))]
    fn encode(&self, alloc: Global) -> Result<Message, Memory> {
        Message::new(alloc).with_texts(1, self.filters.as_slice())
    }
}

/// A tree of a merge.
#[derive(Drop)]
pub struct MergeInput {
    /// The input whose tree it is, by its number.
    pub input: i64,
}

impl Encode for MergeInput {
    ghost fields = { merge_input_fields };

    #[tactic(auto, unfolding(crate::specs::Op::merge_input_fields))]
    fn encode(&self, alloc: Global) -> Result<Message, Memory> {
        Message::new(alloc).with_int(1, self.input)
    }
}

/// Trees over one another, the lowest first.
#[derive(Drop)]
pub struct MergeOp {
    pub inputs: Items<MergeInput>,
}

impl Encode for MergeOp {
    ghost fields = { merge_fields };

    #[tactic(auto, unfolding(crate::specs::Op::merge_fields))]
    fn encode(&self, alloc: Global) -> Result<Message, Memory> {
        Message::new(alloc).with_messages(alloc, 1, self.inputs.as_slice())
    }
}

/// What an operation does.
pub enum OpKind {
    /// Nothing: it names the result of a definition, its only input.
    End,
    Exec(ExecOp),
    Source(SourceOp),
    File(FileOp),
    Merge(MergeOp),
}

/// It ends by a call, so that no proof above goes by what an operation does at each place where one is let go.
impl Drop for OpKind {
    fn drop(self) {
        match self {
            OpKind::End => {}
            OpKind::Exec(exec) => drop(exec),
            OpKind::Source(source) => drop(source),
            OpKind::File(file) => drop(file),
            OpKind::Merge(merge) => drop(merge),
        }
    }
}

/// Adds what an operation does to its message.
#[tactic(auto, using(wire::proofs::KindLemmas::appended_none), unfolding(crate::specs::Op::kind_fields))]
fn with_kind(alloc: Global, message: Message, kind: &OpKind) -> Result<Message, Memory>
    ensures { IfOk result (λ with_kind. with_kind ≡ message ++ kind_fields kind.now) }
{
    match kind {
        OpKind::End => Ok(message),
        OpKind::Exec(exec) => message.with_encoded(alloc, 2, exec),
        OpKind::Source(source) => message.with_encoded(alloc, 3, source),
        OpKind::File(file) => message.with_encoded(alloc, 4, file),
        OpKind::Merge(merge) => message.with_encoded(alloc, 6, merge),
    }
}

/// An operation.
#[derive(Drop)]
pub struct Op {
    pub inputs: Items<Input>,
    pub kind: OpKind,
    pub platform: Option<Platform>,
    pub constraints: Option<Constraints>,
}

impl Encode for Op {
    ghost fields = { op_fields };

    #[tactic(auto, unfolding(crate::specs::Op::op_fields))]
    fn encode(&self, alloc: Global) -> Result<Message, Memory> {
        let message = Message::new(alloc).with_messages(alloc, 1, self.inputs.as_slice())?;
        with_kind(alloc, message, &self.kind)?
            .with_optional(alloc, 10, &self.platform)?
            .with_optional(alloc, 11, &self.constraints)
    }
}
