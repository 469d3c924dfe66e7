// Changes of files.

use crate::buildkit::text;
use llbmessages::{
    ChownOpt, CopyAction, FileAction, FileActionKind, FileOp, MakeDirAction, MakeFileAction, OpKind,
};
use plain::{Bytes, Items, Memory};
use std::alloc::Global;

/// The changes of some actions.
fn changes(actions: Items<FileAction>) -> OpKind {
    OpKind::File(FileOp { actions })
}

/// The actions with one more: its input, its second input and its output, and what it does.
fn with(
    actions: Items<FileAction>,
    places: (i64, i64, i64),
    kind: FileActionKind,
) -> Result<Items<FileAction>, Memory> {
    let mut actions = actions;
    let (input, secondary_input, output) = places;
    actions.push(FileAction {
        input,
        secondary_input,
        output,
        kind,
    })?;
    Ok(actions)
}

/// A copy as the graph's copies are: what links point to, a folder's entries, and the folders above are made.
fn copied(
    alloc: Global,
    src: &str,
    dest: &str,
    owner: Option<ChownOpt>,
    mode: i32,
    allow_wildcard: bool,
) -> Result<FileActionKind, Memory> {
    let src = text(alloc, src)?;
    let dest = text(alloc, dest)?;
    Ok(FileActionKind::Copy(CopyAction {
        src,
        dest,
        owner,
        mode,
        follow_symlink: true,
        dir_copy_contents: true,
        create_dest_path: true,
        allow_wildcard,
        allow_empty_wildcard: false,
        timestamp: -1,
    }))
}

pub(crate) fn make_dir(alloc: Global) -> Result<OpKind, Memory> {
    let made = MakeDirAction {
        path: text(alloc, "/app")?,
        mode: 0o755,
        make_parents: true,
        owner: None,
        timestamp: -1,
    };
    let actions = with(Items::new(alloc), (0, -1, 0), FileActionKind::MakeDir(made))?;
    Ok(changes(actions))
}

pub(crate) fn copy(alloc: Global) -> Result<OpKind, Memory> {
    let matching = copied(alloc, "/src/*.c", "/app/", None, -1, true)?;
    let actions = with(Items::new(alloc), (0, 1, 0), matching)?;
    Ok(changes(actions))
}

pub(crate) fn copy_twice(alloc: Global) -> Result<OpKind, Memory> {
    let owner = ChownOpt {
        user: 0,
        group: 1000,
    };
    let first = copied(alloc, "/a", "/b", Some(owner), 0o600, false)?;
    let actions = with(Items::new(alloc), (0, 1, -1), first)?;
    let owner = ChownOpt {
        user: u32::MAX,
        group: 0,
    };
    let second = copied(alloc, "/c", "/b", Some(owner), 0o600, false)?;
    let actions = with(actions, (2, 1, 0), second)?;
    Ok(changes(actions))
}

pub(crate) fn heredoc(alloc: Global) -> Result<OpKind, Memory> {
    let made = MakeFileAction {
        path: text(alloc, "/note")?,
        mode: 0o644,
        data: Bytes::from_slice(alloc, b"\0\xffhi\n")?,
        owner: None,
        timestamp: -1,
    };
    let actions = with(
        Items::new(alloc),
        (-1, -1, -1),
        FileActionKind::MakeFile(made),
    )?;
    let kept = copied(alloc, "/note", "/n/", None, -1, false)?;
    let actions = with(actions, (-1, 0, 0), kept)?;
    Ok(changes(actions))
}
