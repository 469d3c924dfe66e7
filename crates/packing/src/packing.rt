ghost use Rattle.std.specs.Prelude.{◌≡◌, ◌<◌, [], ◌∷◌, ◌++◌, IfErr, IfOk};
ghost use Rattle.packing.specs.Ends.{IsBefore, IsBundle, IsPacking, PacksFolder, PacksText, Writes};
ghost use Rattle.packing.specs.Packed.{nothing_asked};
ghost use Rattle.packing.specs.Asked.{asked_of};
ghost use Rattle.packing.specs.PrivateFound.{IsFound};

use crate::finding::{Found, FoundFiles, find_bundle};
use crate::refusing::{GONE, UNWRITTEN, note_output, refuse, refuse_output};
use crate::{PackFault, PackOptions};
use answering::Status;
use counted::{Counted, CountedWrite, write_all};
use plain::{Items, Memory, Text};
use std::alloc::Global;
use std::fs;
use std::fs::{File, OpenOptions};
use std::hash::RandomState;
use std::rt::Files;

/// Writes the bundle of a folder, with an LF: its file `Dockerfile`, and all files and directories in it, that one too, in path order,
/// 0644 and 0755.
///
/// It is `Built` where that was written, and `Refused` where the folder has no file `Dockerfile`, which is asked first; a link is none. The folder may be given by a link, and no
/// link in it is followed: what is neither a file nor a directory ends it, and so does what can't be read, lies deeper than 64 components, or
/// has a name that isn't UTF-8 or longer than 255 bytes. After `Ended` and `Memory` nothing was written; after `Device` a beginning of the
/// bundle was.
///
/// The count of failed calls is a machine number, so a caller has to know that there is room for one more in it.
pub fn run_pack<R: Files + AllocGlobal + Clone + Drop, W: CountedWrite>(
    alloc: Global,
    keys: RandomState,
    rt: &R,
    folder: &str,
    output: &mut W,
) -> Result<Status, PackFault>
    requires writes { W.failures output.old < u64.MAX }
    ensures { PacksFolder nothing_asked (W.contents output.old) (W.failures output.old) (W.contents output.new) (W.failures output.new) result }
{
    let args = Items::new(alloc);
    let images = Items::new(alloc);
    let options = PackOptions {
        file: None,
        images: images.as_slice(),
        target: None,
        args: args.as_slice(),
        apply_ignore: false,
        names: false,
        pass: false,
    };
    let mut notes = Text::from_string(String::new(alloc));
    run_pack_with(alloc, keys, rt, folder, options, output, &mut notes)
}

/// Writes the bundle of a folder as `run_pack` does, with an LF, as `packed_text` gives its text for these options.
///
/// After `Ended` it is noted what can't be packed, after `Refused` why there is no Dockerfile, and after `Built` what was passed over, all as
/// `packed_text` notes it.
pub fn run_pack_with<R: Files + AllocGlobal + Clone + Drop, W: CountedWrite>(
    alloc: Global,
    keys: RandomState,
    rt: &R,
    folder: &str,
    options: PackOptions<'_>,
    output: &mut W,
    notes: &mut Text,
) -> Result<Status, PackFault>
    requires writes { W.failures output.old < u64.MAX }
    ensures { PacksFolder (asked_of options.entry) (W.contents output.old) (W.failures output.old) (W.contents output.new) (W.failures output.new) result }
{
    match packed_text(alloc, keys, rt, folder, options, notes) {
        Ok(Some(text)) => write_text(alloc, text, output),
        Ok(None) => Ok(Status::Refused),
        Err(fault) => Err(fault),
    }
}

/// The text of the bundle of a folder, without the LF that ends it, as `run_pack` writes it, with what is given beside the folder: a target and build
/// arguments stand in the bundle, and the Dockerfile may be a file that is named, in the folder or elsewhere. `None` where there is no Dockerfile; it
/// is then noted what there is in its place, and what helps.
///
/// A file that is named may be given by a link. Where there is none, the folder isn't looked at. If it has an ignore file
/// of its own, with `.dockerignore` after its name, that stands in the context as `/.dockerignore`, in place of the folder's.
///
/// If the ignore file is to be applied, what it leaves out isn't packed, and is looked at no further than for its name, or, below a folder that is
/// left out, where a line may be an exception, for whether it is a folder. The ignore file itself is packed, and so is the folder's `Dockerfile` where
/// that is the bundle's. A build sees the same context (`laws`). An ignore file with a bad line ends packing.
///
/// If names alone are to be packed, files aren't read and have no bytes in the bundle, but those two of which a bundle needs the bytes: the ignore file, and
/// the folder's `Dockerfile` where that is the bundle's.
///
/// If what is neither a file nor a folder is passed over, as a link, a warning names all of it, in one line with its LF.
///
/// Images stand in the bundle, each of a file that is read first of all, and may be given by a link. A file has an image as a bundle has it, an object
/// with `config` and `tree`, which may have the key `result` of a build's answer; or, without the key `tree`, an image's configuration, and then the
/// tree is empty (`image_of` in specs/Images.antt). What ends packing: a name that is empty or `scratch`, or is given twice; a file that isn't there,
/// has more bytes than a bundle may have, isn't JSON or isn't an image, or has a number that isn't whole or nests too deep for a bundle.
///
/// After `Ended` it is noted what can't be packed: its place on the machine, what it is, and the remedy. It isn't `Device`.
pub fn packed_text<R: Files + AllocGlobal + Clone + Drop>(
    alloc: Global,
    keys: RandomState,
    rt: &R,
    folder: &str,
    options: PackOptions<'_>,
    notes: &mut Text,
) -> Result<Option<Text>, PackFault>
    ensures { PacksText (asked_of options.entry) result }
{
    match find_bundle(rt, alloc, keys, folder, options, notes) {
        Ok(Some(found)) => match text_of(alloc, found, options, notes) {
            Ok(text) => Ok(Some(text)),
            Err(fault) => Err(fault),
        },
        Ok(None) => Ok(None),
        Err(fault) => Err(fault),
    }
}

/// The text of the bundle of what was found.
fn text_of(
    alloc: Global,
    found: Found,
    options: PackOptions<'_>,
    notes: &mut Text,
) -> Result<Text, PackFault>
    requires { IsFound (asked_of options) found }
    ensures before { IfErr result IsBefore }
    ensures text { IfOk result (IsBundle (asked_of options.entry)) }
{
    let Found { files, images } = found;
    let FoundFiles { folder, file } = files;
    match folder.bundle(alloc, file, images, options) {
        Ok(Some(text)) => Ok(text),
        // The Dockerfile may be gone since it was asked for.
        Ok(None) => Err(refuse(alloc, notes, "the Dockerfile", GONE)),
        Err(_) => Err(PackFault::Memory),
    }
}

/// Writes the text of a bundle, with an LF.
fn write_text<W: CountedWrite>(
    alloc: Global,
    text: Text,
    output: &mut W,
) -> Result<Status, PackFault>
    requires { W.failures output.old < u64.MAX }
    ensures { Writes text (W.contents output.old) (W.failures output.old) (W.contents output.new) (W.failures output.new) result }
{
    let line = line_of(alloc, text)?;
    write_all(output, line.as_str().as_bytes())?;
    Ok(Status::Built)
}

/// Writes the bundle of a folder, as `run_pack_with` does, to the file of this name: whole, in place of a plain file that is there, or not at
/// all. It is written under the name with `.part` after it and then renamed; what fails there is `Device`, also if there is such a file
/// already, which is left as it is. If the name is that of a link, a device or a pipe, it is written to straight away, and after `Device`
/// there may be a beginning of the bundle. After `Device` too it is noted which file it was and what was wrong with it.
///
/// What the machine does with a file is in no contract.
pub fn run_pack_to_file<R: Files + AllocGlobal + Clone + Drop>(
    alloc: Global,
    keys: RandomState,
    rt: &R,
    folder: &str,
    options: PackOptions<'_>,
    name: &str,
    notes: &mut Text,
) -> Result<Status, PackFault>
    ensures { IsPacking result }
{
    match packed_text(alloc, keys, rt, folder, options, notes) {
        Ok(Some(text)) if may_be_replaced(rt, name) => write_file(alloc, rt, text, name, notes),
        Ok(Some(text)) => write_into(alloc, rt, text, name, notes),
        Ok(None) => Ok(Status::Refused),
        Err(fault) => Err(fault),
    }
}

/// Whether a file may be put in place of what has this name: that is a plain file, or nothing is there.
fn may_be_replaced<R: Files>(rt: &R, name: &str) -> bool {
    match fs::symlink_metadata(rt, name) {
        Ok(found) => found.is_file(),
        Err(_) => true,
    }
}

/// Writes the text of a bundle into what has this name.
#[tactic(auto, using(crate::proofs::EndFacts::writes_only))]
fn write_into<R: Files + AllocGlobal>(
    alloc: Global,
    rt: &R,
    text: Text,
    name: &str,
    notes: &mut Text,
) -> Result<Status, PackFault>
    ensures { IsPacking result }
{
    match File::create(rt, name) {
        Ok(file) => {
            let mut output = Counted::new(file);
            let ended = write_text(alloc, text, &mut output);
            note_device(alloc, notes, name, &ended);
            ended
        }
        Err(error) => Err(refuse_output(alloc, notes, name, &error)),
    }
}

/// Writes the text of a bundle to a file that is put in place whole.
#[tactic(auto, using(crate::proofs::EndFacts::writes_only))]
fn write_file<R: Files + AllocGlobal>(
    alloc: Global,
    rt: &R,
    text: Text,
    name: &str,
    notes: &mut Text,
) -> Result<Status, PackFault>
    ensures { IsPacking result }
{
    let mut part = String::from_str(alloc, name)?;
    part.push_str(".part")?;
    let mut opening = OpenOptions::new();
    opening.write(true).create_new(true);
    match opening.open(rt, part.as_str()) {
        Ok(file) => {
            let mut output = Counted::new(file);
            let ended = write_text(alloc, text, &mut output);
            drop(output);
            note_device(alloc, notes, part.as_str(), &ended);
            put_in_place(alloc, rt, part.as_str(), name, ended, notes)
        }
        Err(error) => Err(refuse_output(alloc, notes, part.as_str(), &error)),
    }
}

/// Notes that a file wasn't written whole, where that is how writing ended.
fn note_device(alloc: Global, notes: &mut Text, name: &str, ended: &Result<Status, PackFault>) {
    if let Err(PackFault::Device) = ended {
        note_output(alloc, notes, name, UNWRITTEN);
    }
}

/// Gives the file of a bundle that was written its name, or removes it.
fn put_in_place<R: Files>(
    alloc: Global,
    rt: &R,
    part: &str,
    name: &str,
    ended: Result<Status, PackFault>,
    notes: &mut Text,
) -> Result<Status, PackFault>
    requires { IsPacking ended }
    ensures { IsPacking result }
{
    let ended = match ended {
        Ok(status) => match fs::rename(rt, part, name) {
            Ok(()) => return Ok(status),
            Err(error) => refuse_output(alloc, notes, name, &error),
        },
        Err(fault) => fault,
    };
    let _ = fs::remove_file(rt, part);
    Err(ended)
}

/// A text with an LF after it.
fn line_of(alloc: Global, text: Text) -> Result<Text, Memory>
    ensures { IfOk result (λ line. line ≡ text ++ 10 ∷ []) }
{
    let mut line = text.into_string(alloc)?;
    line.push('\n')?;
    Ok(Text::from_string(line))
}
