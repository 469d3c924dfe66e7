ghost use Rattle.std.specs.Prelude.{◌≡◌, ◌++◌, [], IfOk};
ghost use Rattle.llbmessages.specs.Exec.{network_number, meta_fields, sharing_number, cache_fields, mount_kind_fields, mount_fields, exec_fields};

use plain::{Items, Memory, Sharing, Text};
use std::alloc::Global;
use wire::{Encode, Message};

/// The network that a command has.
#[derive(Clone, Copy, Debug, PartialEq, Eq)]
pub enum Network {
    /// The engine's own choice.
    Sandbox,
    /// That of the machine.
    Host,
    /// None at all.
    None,
}

impl Network {
    /// The network's number in LLB.
    pub fn number(self) -> u64
        ensures { result ≡ network_number self }
    {
        match self {
            Network::Sandbox => 0,
            Network::Host => 1,
            Network::None => 2,
        }
    }
}

/// A command, and what it runs with.
#[derive(Drop)]
pub struct Meta {
    /// The command and its arguments.
    pub args: Items<Text>,
    /// The environment, as `NAME=value`.
    pub env: Items<Text>,
    /// The folder that it runs in.
    pub cwd: Text,
    /// The user that it runs as; empty for the image's own.
    pub user: Text,
}

impl Encode for Meta {
    ghost fields = { meta_fields };

    #[tactic(auto, unfolding(crate::specs::Exec::meta_fields))]
    fn encode(&self, alloc: Global) -> Result<Message, Memory> {
        Message::new(alloc)
            .with_texts(1, self.args.as_slice())?
            .with_texts(2, self.env.as_slice())?
            .with_text(3, &self.cwd)?
            .with_text(4, &self.user)
    }
}

/// The number of a way of sharing in LLB.
fn sharing_number(sharing: Sharing) -> u64
    ensures { result ≡ sharing_number sharing }
{
    match sharing {
        Sharing::Shared => 0,
        Sharing::Private => 1,
        Sharing::Locked => 2,
    }
}

/// Which cache a mount has.
#[derive(Drop)]
pub struct CacheOpt {
    pub id: Text,
    pub sharing: Sharing,
}

impl Encode for CacheOpt {
    ghost fields = { cache_fields };

    #[tactic(auto, unfolding(crate::specs::Exec::cache_fields))]
    fn encode(&self, alloc: Global) -> Result<Message, Memory> {
        Message::new(alloc)
            .with_text(1, &self.id)?
            .with_number(2, sharing_number(self.sharing))
    }
}

/// What a mount is.
pub enum MountKind {
    /// A tree, or a part of one.
    Bind,
    /// A cache.
    Cache(CacheOpt),
}

/// It ends by a call, so that no proof above goes by what a mount is at each place where one is let go.
impl Drop for MountKind {
    fn drop(self) {
        match self {
            MountKind::Bind => {}
            MountKind::Cache(cache) => drop(cache),
        }
    }
}

/// Adds what a mount is to its message.
#[tactic(auto, using(wire::proofs::KindLemmas::appended_none), unfolding(crate::specs::Exec::mount_kind_fields))]
fn with_mount_kind(alloc: Global, message: Message, kind: &MountKind) -> Result<Message, Memory>
    ensures { IfOk result (λ with_kind. with_kind ≡ message ++ mount_kind_fields kind.now) }
{
    match kind {
        MountKind::Bind => Ok(message),
        MountKind::Cache(cache) => message
            .with_set_number(6, 3)?
            .with_encoded(alloc, 20, cache),
    }
}

/// A mount of a command.
#[derive(Drop)]
pub struct Mount {
    /// The input whose tree it is, by its number; -1 for the empty tree.
    pub input: i64,
    /// Which part of the tree it is; empty for all.
    pub selector: Text,
    /// Where it stands.
    pub dest: Text,
    /// The number of the command's output that it is afterwards; -1 for none.
    pub output: i64,
    /// Whether the command may not write there.
    pub readonly: bool,
    pub kind: MountKind,
}

impl Encode for Mount {
    ghost fields = { mount_fields };

    #[tactic(auto, unfolding(crate::specs::Exec::mount_fields))]
    fn encode(&self, alloc: Global) -> Result<Message, Memory> {
        let message = Message::new(alloc)
            .with_int(1, self.input)?
            .with_text(2, &self.selector)?
            .with_text(3, &self.dest)?
            .with_int(4, self.output)?
            .with_flag(5, self.readonly)?;
        with_mount_kind(alloc, message, &self.kind)
    }
}

/// A command with its mounts.
#[derive(Drop)]
pub struct ExecOp {
    pub meta: Meta,
    /// The mounts, that at `/` among them.
    pub mounts: Items<Mount>,
    pub network: Network,
}

impl Encode for ExecOp {
    ghost fields = { exec_fields };

    #[tactic(auto, unfolding(crate::specs::Exec::exec_fields))]
    fn encode(&self, alloc: Global) -> Result<Message, Memory> {
        Message::new(alloc)
            .with_encoded(alloc, 1, &self.meta)?
            .with_messages(alloc, 2, self.mounts.as_slice())?
            .with_number(3, self.network.number())
    }
}
