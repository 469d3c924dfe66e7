// Making folders and copying files.

ghost use Rattle.std.specs.Prelude.{◌≡◌, ◌∷◌, [], ◌++◌, ◌+◌, IfOk, OnOk, Some, pos, length};
ghost use Rattle.llbmessages.specs.declared.op.OpKind.TheVariants.{File as FileKind};
ghost use Rattle.llbmessages.specs.declared.file.FileActionKind.TheVariants.{Copy as CopyKind};
ghost use Rattle.llb.specs.declared.op.FileSource.TheVariants.{Pattern, Data};
ghost use Rattle.exported.specs.Places.{inputs_of, index_at};
ghost use Rattle.exported.specs.Operations.{op_on};
ghost use Rattle.exported.specs.Files.{make_dir_actions, mode_number, owner_by_id, dest_of, copy_action, own_file_action, output_before, source_actions, last_number, copy_actions, copied};

use crate::operations::op_for;
use crate::patterns::source_path;
use crate::places::{index, index_at, inputs_of};
use llb::{CopyFiles, FileSource};
use llbmessages::{
    ChownOpt, CopyAction, FileAction, FileActionKind, FileOp, MakeDirAction, MakeFileAction, Op,
    OpKind, Platform,
};
use paths::{Name, Path};
use plain::{Bytes, Items, Memory, Mode, Owner, Text};
use std::alloc::Global;
use trees::Content;

/// The operation that makes a folder in the tree of the first place.
pub fn make_dir_op(
    alloc: Global,
    platform: &Platform,
    places: &[Option<Text>],
    path: &Path,
) -> Result<Op, Memory>
    ensures { IfOk result (λ op. op ≡ op_on (Some platform.now) (inputs_of places.now) (FileKind (record { actions = make_dir_actions places.now path.now }))) }
{
    let digests = inputs_of(alloc, places)?;
    match make_dir_actions(alloc, digests.as_slice(), places, path) {
        Ok(actions) => op_for(
            alloc,
            platform,
            digests.as_slice(),
            OpKind::File(FileOp { actions }),
        ),
        Err(memory) => Err(memory),
    }
}

/// The one action that makes a folder.
#[tactic(auto, unfolding(crate::specs::Files::make_dir_actions))]
fn make_dir_actions(
    alloc: Global,
    digests: &[Text],
    places: &[Option<Text>],
    path: &Path,
) -> Result<Items<FileAction>, Memory>
    requires { digests.now ≡ inputs_of places.now }
    ensures { IfOk result (λ actions. actions ≡ make_dir_actions places.now path.now) }
{
    let input = index_at(digests, places, 0)?;
    let path = path.text(alloc)?;
    let mut actions = Items::new(alloc);
    actions.push(FileAction {
        input,
        secondary_input: -1,
        output: 0,
        kind: FileActionKind::MakeDir(MakeDirAction {
            path,
            mode: 0o755,
            make_parents: true,
            owner: None,
            timestamp: -1,
        }),
    })?;
    Ok(actions)
}

/// The mode of what is copied.
fn mode_number(mode: Option<Mode>) -> i32
    ensures { result ≡ mode_number mode }
{
    match mode {
        None => -1,
        Some(mode) => i32::from(mode.bits()),
    }
}

/// The owner of what is copied, by its numbers.
fn owner_by_id(owner: Option<Owner>) -> Option<ChownOpt>
    ensures { result ≡ owner_by_id owner }
{
    match owner {
        None => None,
        Some(owner) => Some(ChownOpt {
            user: owner.user,
            group: owner.group,
        }),
    }
}

/// Where to.
fn dest_of(alloc: Global, dest: &Path, into: bool) -> Result<Text, Memory>
    ensures { IfOk result (λ text. text ≡ dest_of dest.now into) }
{
    let text = dest.text(alloc)?;
    if dest.is_root() || !into {
        return Ok(text);
    }
    let mut text = text.into_string(alloc)?;
    text.push('/')?;
    Ok(Text::from_string(text))
}

/// A copy as COPY makes it.
#[tactic(auto, unfolding(crate::specs::Files::copy_action))]
fn copy_action(
    alloc: Global,
    files: &CopyFiles,
    src: Text,
    wild: bool,
) -> Result<CopyAction, Memory>
    ensures { IfOk result (λ copy. copy ≡ copy_action files.now src wild) }
{
    match dest_of(alloc, &files.dest, files.options.into) {
        Ok(dest) => Ok(CopyAction {
            src,
            dest,
            owner: owner_by_id(files.options.owner),
            mode: mode_number(files.options.mode),
            follow_symlink: true,
            dir_copy_contents: true,
            create_dest_path: true,
            allow_wildcard: wild,
            allow_empty_wildcard: false,
            timestamp: -1,
        }),
        Err(memory) => {
            drop(src);
            Err(memory)
        }
    }
}

/// The path of a file alone in a tree.
fn own_path(alloc: Global, name: &Name) -> Result<Text, Memory>
    ensures { IfOk result (λ path. path ≡ 47 ∷ name.now) }
{
    let mut path = String::from_str(alloc, "/")?;
    path.push_str(name.as_text().as_str())?;
    Ok(Text::from_string(path))
}

/// The action that makes a file of a COPY's own.
#[tactic(auto, unfolding(crate::specs::Files::own_file_action))]
fn own_file_action(alloc: Global, name: &Name, content: &Content) -> Result<FileAction, Memory>
    ensures { IfOk result (λ action. action ≡ own_file_action name.now content.now) }
{
    let path = own_path(alloc, name)?;
    match Bytes::from_slice(alloc, content.as_slice()) {
        Ok(data) => Ok(FileAction {
            input: -1,
            secondary_input: -1,
            output: -1,
            kind: FileActionKind::MakeFile(MakeFileAction {
                path,
                mode: 0o644,
                data,
                owner: None,
                timestamp: -1,
            }),
        }),
        Err(memory) => {
            drop(path);
            Err(memory)
        }
    }
}

/// An action that copies, by what it works on.
fn copying(
    alloc: Global,
    files: &CopyFiles,
    trees: (i64, i64, i64),
    src: Text,
    wild: bool,
) -> Result<FileAction, Memory>
    ensures { IfOk result (λ action. action ≡ record { input = trees.0; secondary_input = trees.1; output = trees.2; kind = CopyKind (copy_action files.now src wild) }) }
{
    let (input, secondary_input, output) = trees;
    match copy_action(alloc, files, src, wild) {
        Ok(copy) => Ok(FileAction {
            input,
            secondary_input,
            output,
            kind: FileActionKind::Copy(copy),
        }),
        Err(memory) => Err(memory),
    }
}

/// The trees that a source's actions work on, by their numbers.
#[derive(Clone, Copy)]
struct Standing {
    /// The tree in which patterns are looked for.
    from: i64,
    /// The number of the source's first action.
    number: usize,
    /// The tree that is copied onto.
    input: i64,
    /// The output that the result is.
    output: i64,
}

/// Adds the action of a pattern.
#[tactic(auto, unfolding(crate::specs::Files::source_actions))]
fn push_pattern(
    alloc: Global,
    actions: &mut Items<FileAction>,
    files: &CopyFiles,
    at: Standing,
    text: &Text,
) -> Result<(), Memory>
    ensures { OnOk result (actions.new ≡ actions.old ++ source_actions files.now at.from at.number at.input at.output (Pattern text.now)) }
{
    let (src, wild) = source_path(alloc, text.as_str())?;
    let copy = copying(alloc, files, (at.input, at.from, at.output), src, wild)?;
    actions.push(copy)
}

/// Adds the actions of a file of a COPY's own.
#[tactic(auto, unfolding(crate::specs::Files::source_actions))]
fn push_data(
    alloc: Global,
    actions: &mut Items<FileAction>,
    files: &CopyFiles,
    at: Standing,
    name: &Name,
    content: &Content,
) -> Result<(), Memory>
    ensures { OnOk result (actions.new ≡ actions.old ++ source_actions files.now at.from at.number at.input at.output (Data name.now content.now)) }
{
    actions.push(own_file_action(alloc, name, content)?)?;
    let made = index(at.number)?;
    let src = own_path(alloc, name)?;
    let copy = copying(alloc, files, (at.input, made, at.output), src, false)?;
    actions.push(copy)
}

/// Adds the actions of a source.
fn push_source(
    alloc: Global,
    actions: &mut Items<FileAction>,
    files: &CopyFiles,
    at: Standing,
    source: &FileSource,
) -> Result<(), Memory>
    ensures { OnOk result (actions.new ≡ actions.old ++ source_actions files.now at.from at.number at.input at.output source.now) }
{
    match source {
        FileSource::Pattern(text) => push_pattern(alloc, actions, files, at, text),
        FileSource::Data(name, content) => push_data(alloc, actions, files, at, name, content),
    }
}

/// One more; so many actions fit no memory.
pub(crate) fn after(number: usize) -> Result<usize, Memory>
    ensures { IfOk result (λ next. next ≡ number + 1) }
{
    match number.checked_add(1) {
        Some(next) => Ok(next),
        None => Err(Memory),
    }
}

/// The number of a source's last action.
fn last_number(number: usize, source: &FileSource) -> Result<usize, Memory>
    ensures { IfOk result (λ last. last ≡ last_number number source.now) }
{
    match source {
        FileSource::Pattern(_) => Ok(number),
        FileSource::Data(_, _) => after(number),
    }
}

/// The output that an action is, before these sources.
fn output_before(sources: &[FileSource]) -> i64
    ensures { result ≡ output_before sources.now }
{
    match sources {
        [] => 0,
        [..] => -1,
    }
}

/// The actions of a COPY's sources, the first one's onto the tree of number `base`.
fn copy_actions(
    alloc: Global,
    files: &CopyFiles,
    inputs: usize,
    from: i64,
    base: i64,
) -> Result<Items<FileAction>, Memory>
    ensures { IfOk result (λ actions. actions ≡ copy_actions files.now from inputs base files.now.sources) }
{
    let mut actions = Items::new(alloc);
    let mut number = inputs;
    let mut input = base;
    let mut left = files.sources.as_slice();
    'sources: while let [source, rest @ ..] = left {
        let at = Standing {
            from,
            number,
            input,
            output: output_before(rest),
        };
        push_source(alloc, &mut actions, files, at, source)?;
        let last = last_number(number, source)?;
        input = index(last)?;
        number = after(last)?;
        left = rest;
    }
    Ok(actions)
}

/// The actions of a COPY.
#[tactic(auto, unfolding(crate::specs::Files::copied))]
fn copied(
    alloc: Global,
    digests: &[Text],
    places: &[Option<Text>],
    files: &CopyFiles,
) -> Result<Items<FileAction>, Memory>
    requires { digests.now ≡ inputs_of places.now }
    ensures { IfOk result (λ actions. actions ≡ copied files.now places.now) }
{
    let from = index_at(digests, places, 1)?;
    let base = index_at(digests, places, 0)?;
    copy_actions(alloc, files, digests.len(), from, base)
}

/// The operation that copies into the tree of the first place, from that of the second.
pub fn copy_op(
    alloc: Global,
    platform: &Platform,
    places: &[Option<Text>],
    files: &CopyFiles,
) -> Result<Op, Memory>
    ensures { IfOk result (λ op. op ≡ op_on (Some platform.now) (inputs_of places.now) (FileKind (record { actions = copied files.now places.now }))) }
{
    let digests = inputs_of(alloc, places)?;
    match copied(alloc, digests.as_slice(), places, files) {
        Ok(actions) => op_for(
            alloc,
            platform,
            digests.as_slice(),
            OpKind::File(FileOp { actions }),
        ),
        Err(memory) => Err(memory),
    }
}
