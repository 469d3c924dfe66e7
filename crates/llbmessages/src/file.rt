ghost use Rattle.std.specs.Prelude.{◌≡◌, [], ◌∷◌, ◌++◌, IfOk};
ghost use Rattle.wire.specs.Fields.{number};
ghost use Rattle.llbmessages.specs.File.{chown_fields, copy_fields, make_file_fields, make_dir_fields, action_kind_fields, action_fields, file_fields};

use plain::{Bytes, Items, Memory, Text};
use std::alloc::Global;
use wire::{Encode, Message};

/// An owner, by the numbers of its user and its group.
#[derive(Clone, Copy, Debug, PartialEq, Eq)]
pub struct ChownOpt {
    pub user: u32,
    pub group: u32,
}

/// The message of a user or a group by its number, which is written even where it is 0.
fn numbered(alloc: Global, id: u32) -> Result<Message, Memory>
    ensures { IfOk result (λ message. message ≡ number 2 id ∷ []) }
{
    Message::new(alloc).with_set_number(2, id as u64)
}

impl Encode for ChownOpt {
    ghost fields = { chown_fields };

    #[tactic(auto, unfolding(crate::specs::File::chown_fields))]
    fn encode(&self, alloc: Global) -> Result<Message, Memory> {
        let message = Message::new(alloc).with_message(1, &numbered(alloc, self.user)?)?;
        message.with_message(2, &numbered(alloc, self.group)?)
    }
}

/// A copy of what a path or a pattern names in the second input of its action.
#[derive(Drop)]
pub struct CopyAction {
    pub src: Text,
    pub dest: Text,
    /// The owner of what is copied, if it isn't the one that it had.
    pub owner: Option<ChownOpt>,
    /// The permission bits of what is copied; -1 for those that it had.
    pub mode: i32,
    /// Whether what a symbolic link points to is copied in its place.
    pub follow_symlink: bool,
    /// Whether a folder's entries are copied, and not the folder.
    pub dir_copy_contents: bool,
    /// Whether the folders above the destination are made.
    pub create_dest_path: bool,
    /// Whether the source is a pattern.
    pub allow_wildcard: bool,
    /// Whether a pattern may match nothing.
    pub allow_empty_wildcard: bool,
    /// When what is copied was changed, in nanoseconds since 1970; -1 for the time that it had.
    pub timestamp: i64,
}

impl Encode for CopyAction {
    ghost fields = { copy_fields };

    #[tactic(auto, unfolding(crate::specs::File::copy_fields))]
    fn encode(&self, alloc: Global) -> Result<Message, Memory> {
        Message::new(alloc)
            .with_text(1, &self.src)?
            .with_text(2, &self.dest)?
            .with_optional(alloc, 3, &self.owner)?
            .with_int(4, i64::from(self.mode))?
            .with_flag(5, self.follow_symlink)?
            .with_flag(6, self.dir_copy_contents)?
            .with_flag(8, self.create_dest_path)?
            .with_flag(9, self.allow_wildcard)?
            .with_flag(10, self.allow_empty_wildcard)?
            .with_int(11, self.timestamp)
    }
}

/// A file that is made.
#[derive(Drop)]
pub struct MakeFileAction {
    pub path: Text,
    /// Its permission bits.
    pub mode: i32,
    pub data: Bytes,
    /// Its owner; root where none is said.
    pub owner: Option<ChownOpt>,
    /// When it was changed, in nanoseconds since 1970; -1 for the time at which it is made.
    pub timestamp: i64,
}

impl Encode for MakeFileAction {
    ghost fields = { make_file_fields };

    #[tactic(auto, unfolding(crate::specs::File::make_file_fields))]
    fn encode(&self, alloc: Global) -> Result<Message, Memory> {
        Message::new(alloc)
            .with_text(1, &self.path)?
            .with_int(2, i64::from(self.mode))?
            .with_bytes(3, self.data.as_slice())?
            .with_optional(alloc, 4, &self.owner)?
            .with_int(5, self.timestamp)
    }
}

/// A folder that is made.
#[derive(Drop)]
pub struct MakeDirAction {
    pub path: Text,
    /// Its permission bits.
    pub mode: i32,
    /// Whether the folders above it are made, and it may be there.
    pub make_parents: bool,
    /// Its owner; root where none is said.
    pub owner: Option<ChownOpt>,
    /// When it was changed, in nanoseconds since 1970; -1 for the time at which it is made.
    pub timestamp: i64,
}

impl Encode for MakeDirAction {
    ghost fields = { make_dir_fields };

    #[tactic(auto, unfolding(crate::specs::File::make_dir_fields))]
    fn encode(&self, alloc: Global) -> Result<Message, Memory> {
        Message::new(alloc)
            .with_text(1, &self.path)?
            .with_int(2, i64::from(self.mode))?
            .with_flag(3, self.make_parents)?
            .with_optional(alloc, 4, &self.owner)?
            .with_int(5, self.timestamp)
    }
}

/// What an action does.
pub enum FileActionKind {
    Copy(CopyAction),
    MakeFile(MakeFileAction),
    MakeDir(MakeDirAction),
}

/// It ends by a call, so that no proof above goes by what an action does at each place where one is let go.
impl Drop for FileActionKind {
    fn drop(self) {
        match self {
            FileActionKind::Copy(copy) => drop(copy),
            FileActionKind::MakeFile(file) => drop(file),
            FileActionKind::MakeDir(dir) => drop(dir),
        }
    }
}

/// Adds what an action does to its message.
#[tactic(auto, unfolding(crate::specs::File::action_kind_fields))]
fn with_action_kind(
    alloc: Global,
    message: Message,
    kind: &FileActionKind,
) -> Result<Message, Memory>
    ensures { IfOk result (λ with_kind. with_kind ≡ message ++ action_kind_fields kind.now) }
{
    match kind {
        FileActionKind::Copy(copy) => message.with_encoded(alloc, 4, copy),
        FileActionKind::MakeFile(file) => message.with_encoded(alloc, 5, file),
        FileActionKind::MakeDir(dir) => message.with_encoded(alloc, 6, dir),
    }
}

/// A change of a tree. A number below that of the operation's inputs is an input, each number from there on the result of an action of the
/// operation, and -1 the empty tree.
#[derive(Drop)]
pub struct FileAction {
    /// The tree that is changed.
    pub input: i64,
    /// The tree that is copied from.
    pub secondary_input: i64,
    /// The number of the operation's output that is the result; -1 where it is none.
    pub output: i64,
    pub kind: FileActionKind,
}

impl Encode for FileAction {
    ghost fields = { action_fields };

    #[tactic(auto, unfolding(crate::specs::File::action_fields))]
    fn encode(&self, alloc: Global) -> Result<Message, Memory> {
        let message = Message::new(alloc)
            .with_int(1, self.input)?
            .with_int(2, self.secondary_input)?
            .with_int(3, self.output)?;
        with_action_kind(alloc, message, &self.kind)
    }
}

/// Changes of trees, one after another.
#[derive(Drop)]
pub struct FileOp {
    pub actions: Items<FileAction>,
}

impl Encode for FileOp {
    ghost fields = { file_fields };

    #[tactic(auto, unfolding(crate::specs::File::file_fields))]
    fn encode(&self, alloc: Global) -> Result<Message, Memory> {
        Message::new(alloc).with_messages(alloc, 2, self.actions.as_slice())
    }
}
