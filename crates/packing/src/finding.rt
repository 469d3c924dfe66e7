// What is found for a bundle: its images, its Dockerfile, the ignore file that counts, and what that keeps of the folder. No contract says what the
// machine gives.
ghost use Rattle.std.specs.Prelude.{◌≡◌, true, Some, None, Ok, is_some, option_map, IfErr, IfOk, IfSome};
ghost use Rattle.trees.specs.Put.{put_into};
ghost use Rattle.trees.specs.TreeMap.{file_meta};
ghost use Rattle.trees.specs.declared.entry.Entry.TheVariants.{File};
ghost use Rattle.packing.specs.Asked.{asked_of};
ghost use Rattle.packing.specs.Ends.{IsBefore};
ghost use Rattle.packing.specs.Leaving.{AreApplied, ignore_path, keeping_of};
ghost use Rattle.packing.specs.Packed.{IsPlain};
ghost use Rattle.packing.specs.PrivateFound.{IsContext, IsFound, IsFoundContext};

use crate::folder::{DOCKERFILE, Folder};
use crate::imaging::read_images;
use crate::leaving::{IGNORE_FILE, Leaving};
use crate::refusing::{
    IN_THE_WAY, MISSING, NO_DOCKERFILE, NO_FOLDER, NO_PLAIN_DOCKERFILE, NO_PLAIN_FILE,
    NO_SUCH_FOLDER, note, refuse, refuse_error, refuse_fault, refuse_line,
};
use crate::walking::read_folder;
use crate::{PackFault, PackOptions};
use plain::{Bytes, Fault, Items, Text};
use serde_json::Value;
use std::alloc::Global;
use std::fs;
use std::hash::RandomState;
use std::io::ErrorKind;
use std::rt::Files;

/// The name of a Dockerfile that other programs look for, and this one doesn't.
const CONTAINERFILE: &str = "Containerfile";

/// What was found of a bundle's files: its folder, and the bytes of its Dockerfile where that is named.
#[derive(Drop)]
pub(crate) struct FoundFiles {
    pub(crate) folder: Folder,
    pub(crate) file: Option<Bytes>,
}

/// What was found of a bundle: its files, and its images, each a name and its JSON.
#[derive(Drop)]
pub(crate) struct Found {
    pub(crate) files: FoundFiles,
    pub(crate) images: Items<(Text, Value)>,
}

/// An ignore file: its name on the machine, and its bytes.
#[derive(Drop)]
struct IgnoreFile {
    name: String,
    bytes: Bytes,
}

/// The images that are asked for, and all files and directories of a folder that are packed, with the Dockerfile that is named; `None` where there is
/// no such file, or no file `Dockerfile` in the folder, if none is named. Images are read first, and then that is asked. It is noted what can't be
/// packed, after `None` why there is no Dockerfile, and else what was passed over.
pub(crate) fn find_bundle<R: Files + AllocGlobal + Clone + Drop>(
    rt: &R,
    alloc: Global,
    keys: RandomState,
    folder: &str,
    options: PackOptions<'_>,
    notes: &mut Text,
) -> Result<Option<Found>, PackFault>
    ensures before { IfErr result IsBefore }
    ensures found { IfOk result (λ found. IfSome found (IsFound (asked_of options.entry))) }
{
    let images = read_images(rt, alloc, keys, options.images, notes)?;
    match find_files(rt, alloc, folder, options, notes) {
        Ok(Some(files)) => Ok(Some(Found { files, images })),
        Ok(None) => {
            drop(images);
            Ok(None)
        }
        Err(fault) => {
            drop(images);
            Err(fault)
        }
    }
}

/// All files and directories of a folder that are packed, with the Dockerfile that is named.
fn find_files<R: Files + AllocGlobal + Clone + Drop>(
    rt: &R,
    alloc: Global,
    folder: &str,
    options: PackOptions<'_>,
    notes: &mut Text,
) -> Result<Option<FoundFiles>, PackFault>
    ensures before { IfErr result IsBefore }
    ensures plain { IfOk result (λ found. IfSome found (λ one. IsPlain one.folder)) }
    ensures context { IfOk result (λ found. IfSome found (λ one. IsFoundContext (asked_of options.entry) one.folder)) }
    ensures file { IfOk result (λ found. IfSome found (λ one. is_some one.file ≡ is_some options.entry.file)) }
{
    match options.file {
        Some(file) => find_with_file(rt, alloc, folder, file, options, notes),
        None => find_folder(rt, alloc, folder, options, notes),
    }
}

/// What is packed of a folder, if it has a file `Dockerfile`, which is asked first.
fn find_folder<R: Files + AllocGlobal + Clone + Drop>(
    rt: &R,
    alloc: Global,
    folder: &str,
    options: PackOptions<'_>,
    notes: &mut Text,
) -> Result<Option<FoundFiles>, PackFault>
    ensures before { IfErr result IsBefore }
    ensures plain { IfOk result (λ found. IfSome found (λ one. IsPlain one.folder)) }
    ensures context { IfOk result (λ found. IfSome found (λ one. IsFoundContext (asked_of options.entry) one.folder)) }
    ensures file { IfOk result (λ found. IfSome found (λ one. one.file ≡ None)) }
{
    if !has_dockerfile(rt, alloc, folder, notes)? {
        return Ok(None);
    }
    match find_context(rt, alloc, folder, options, notes) {
        Ok(folder) => Ok(Some(FoundFiles { folder, file: None })),
        Err(fault) => Err(fault),
    }
}

/// What is packed of a folder, with the Dockerfile of this name, if there is one, which is asked first.
fn find_with_file<R: Files + AllocGlobal + Clone + Drop>(
    rt: &R,
    alloc: Global,
    folder: &str,
    file: &str,
    options: PackOptions<'_>,
    notes: &mut Text,
) -> Result<Option<FoundFiles>, PackFault>
    ensures before { IfErr result IsBefore }
    ensures plain { IfOk result (λ found. IfSome found (λ one. IsPlain one.folder)) }
    ensures context { IfOk result (λ found. IfSome found (λ one. IsFoundContext (asked_of options.entry) one.folder)) }
    ensures file { IfOk result (λ found. IfSome found (λ one. is_some one.file ≡ true)) }
{
    let Some(dockerfile) = read_file(rt, alloc, file, notes)? else {
        let what = if has_name(rt, file) {
            NO_PLAIN_DOCKERFILE
        } else {
            MISSING
        };
        note(alloc, notes, file, what)?;
        return Ok(None);
    };
    match find_context(rt, alloc, folder, options, notes) {
        Ok(folder) => Ok(Some(FoundFiles {
            folder,
            file: Some(dockerfile),
        })),
        Err(fault) => {
            drop(dockerfile);
            Err(fault)
        }
    }
}

/// What is packed of a folder, by the ignore file that counts.
fn find_context<R: Files + AllocGlobal + Clone + Drop>(
    rt: &R,
    alloc: Global,
    folder: &str,
    options: PackOptions<'_>,
    notes: &mut Text,
) -> Result<Folder, PackFault>
    ensures before { IfErr result IsBefore }
    ensures context { IfOk result (IsFoundContext (asked_of options.entry)) }
{
    // The empty text names no folder, and `/` is another one.
    if folder.is_empty() {
        return Err(refuse(alloc, notes, folder, NO_FOLDER));
    }
    let ignore = ignore_file(rt, alloc, folder, options, notes)?;
    read_context(rt, alloc, folder, ignore, options, notes)
}

/// What is packed of a folder where this ignore file counts, or none.
fn read_context<R: Files + AllocGlobal + Clone + Drop>(
    rt: &R,
    alloc: Global,
    folder: &str,
    ignore: Option<IgnoreFile>,
    options: PackOptions<'_>,
    notes: &mut Text,
) -> Result<Folder, PackFault>
    ensures before { IfErr result IsBefore }
    ensures context { IfOk result (IsContext (asked_of options.entry) (option_map (λ file. file.bytes) ignore)) }
{
    match ignore {
        Some(ignore) => read_by(rt, alloc, folder, ignore, options, notes),
        None => read_whole(rt, alloc, folder, options, notes),
    }
}

/// What is packed of a folder where no ignore file counts.
fn read_whole<R: Files + AllocGlobal + Clone + Drop>(
    rt: &R,
    alloc: Global,
    folder: &str,
    options: PackOptions<'_>,
    notes: &mut Text,
) -> Result<Folder, PackFault>
    ensures before { IfErr result IsBefore }
    ensures context { IfOk result (IsContext (asked_of options.entry) None) }
{
    let leaving = Leaving::nothing(alloc, options);
    let found = read_folder(rt, alloc, folder, &leaving, notes);
    drop(leaving);
    found
}

/// What is packed of a folder by an ignore file, which stands in it, also where it is no file of that folder.
fn read_by<R: Files + AllocGlobal + Clone + Drop>(
    rt: &R,
    alloc: Global,
    folder: &str,
    ignore: IgnoreFile,
    options: PackOptions<'_>,
    notes: &mut Text,
) -> Result<Folder, PackFault>
    ensures before { IfErr result IsBefore }
    ensures context { IfOk result (IsContext (asked_of options.entry) (Some ignore.bytes)) }
{
    let leaving = match leaving_by(alloc, &ignore, options, notes) {
        Ok(leaving) => leaving,
        Err(fault) => {
            drop(ignore);
            return Err(fault);
        }
    };
    let found = read_folder(rt, alloc, folder, &leaving, notes);
    drop(leaving);
    match found {
        Ok(folder) => put_ignore_file(alloc, ignore, folder, notes),
        Err(fault) => {
            drop(ignore);
            Err(fault)
        }
    }
}

/// What an ignore file leaves out, if it is to be applied.
fn leaving_by(
    alloc: Global,
    ignore: &IgnoreFile,
    options: PackOptions<'_>,
    notes: &mut Text,
) -> Result<Leaving, PackFault>
    ensures before { IfErr result IsBefore }
    ensures lines { IfOk result (λ leaving. AreApplied options.entry.apply_ignore (Some ignore.now.bytes) leaving.lines) }
    ensures asked { IfOk result (λ leaving. leaving ≡ keeping_of (asked_of options.entry) leaving.lines) }
{
    if !options.apply_ignore {
        return Ok(Leaving::nothing(alloc, options));
    }
    match Leaving::read(alloc, ignore.bytes.as_slice(), options) {
        Ok(leaving) => Ok(leaving),
        Err(Fault::Memory) => Err(PackFault::Memory),
        Err(Fault::Because(bad)) => {
            let name = ignore.name.as_str();
            Err(refuse_line(alloc, notes, name, bad.number))
        }
    }
}

/// Puts an ignore file into a folder, at `/.dockerignore`.
fn put_ignore_file(
    alloc: Global,
    ignore: IgnoreFile,
    folder: Folder,
    notes: &mut Text,
) -> Result<Folder, PackFault>
    ensures before { IfErr result IsBefore }
    ensures put { IfOk result (λ new. put_into folder ignore_path (File file_meta ignore.bytes) ≡ Ok new) }
{
    let IgnoreFile { name, bytes } = ignore;
    let mut found = folder;
    match found.add_ignore_file(alloc, bytes) {
        Ok(()) => Ok(found),
        Err(fault) => {
            drop(found);
            Err(refuse_fault(alloc, notes, name.as_str(), IN_THE_WAY, fault))
        }
    }
}

/// The ignore file that counts, if there is one: the Dockerfile's own, if that is named, or else the folder's, if it is to be applied.
fn ignore_file<R: Files + AllocGlobal>(
    rt: &R,
    alloc: Global,
    folder: &str,
    options: PackOptions<'_>,
    notes: &mut Text,
) -> Result<Option<IgnoreFile>, PackFault>
    ensures { IfErr result IsBefore }
{
    if let Some(file) = options.file {
        let mut name = String::from_str(alloc, file)?;
        name.push_str(IGNORE_FILE)?;
        match read_ignore_file(rt, alloc, name, true, notes) {
            Ok(None) => {}
            found => return found,
        }
    }
    if !options.apply_ignore {
        return Ok(None);
    }
    let name = place_in(alloc, folder, IGNORE_FILE)?;
    read_ignore_file(rt, alloc, name, false, notes)
}

/// The ignore file of this name, if there is one: a Dockerfile's own, or a folder's.
fn read_ignore_file<R: Files + AllocGlobal>(
    rt: &R,
    alloc: Global,
    name: String,
    is_own: bool,
    notes: &mut Text,
) -> Result<Option<IgnoreFile>, PackFault>
    ensures { IfErr result IsBefore }
{
    // The words name the Dockerfile, and not what a link beside it leads to.
    if is_own && is_link(rt, name.as_str()) {
        return Err(refuse(alloc, notes, name.as_str(), NO_PLAIN_FILE));
    }
    match read_file(rt, alloc, name.as_str(), notes) {
        Ok(Some(bytes)) => Ok(Some(IgnoreFile { name, bytes })),
        // If what has the name were passed over, files that it is meant to leave out would be packed.
        Ok(None) if is_own && has_name(rt, name.as_str()) => {
            Err(refuse(alloc, notes, name.as_str(), NO_PLAIN_FILE))
        }
        Ok(None) => Ok(None),
        Err(fault) => Err(fault),
    }
}

/// The bytes of a file, which may be given by a link; `None` if no file has that name. A file that can't be read ends packing.
fn read_file<R: Files + AllocGlobal>(
    rt: &R,
    alloc: Global,
    name: &str,
    notes: &mut Text,
) -> Result<Option<Bytes>, PackFault>
    ensures { IfErr result IsBefore }
{
    match fs::metadata(rt, name) {
        Ok(found) if found.is_file() => Ok(Some(bytes_of(rt, alloc, name, notes)?)),
        Ok(_) => Ok(None),
        Err(error) if error.kind() == ErrorKind::NotFound => Ok(None),
        Err(error) => Err(refuse_error(alloc, notes, name, &error)),
    }
}

/// The bytes that the machine has in a file.
pub(crate) fn bytes_of<R: Files + AllocGlobal>(
    rt: &R,
    alloc: Global,
    name: &str,
    notes: &mut Text,
) -> Result<Bytes, PackFault>
    ensures { IfErr result IsBefore }
{
    match fs::read(rt, name) {
        Ok(bytes) => Ok(Bytes::from_vec(bytes)),
        Err(error) => Err(refuse_error(alloc, notes, name, &error)),
    }
}

/// Whether a link has a name.
fn is_link<R: Files>(rt: &R, name: &str) -> bool {
    match fs::symlink_metadata(rt, name) {
        Ok(found) => found.is_symlink(),
        Err(_) => false,
    }
}

/// Whether something has a name, as a link that leads to nothing has.
fn has_name<R: Files>(rt: &R, name: &str) -> bool {
    fs::symlink_metadata(rt, name).is_ok()
}

/// The machine's name of what has this name in a folder.
pub(crate) fn place_in(alloc: Global, folder: &str, name: &str) -> Result<String, PackFault>
    ensures { IfErr result IsBefore }
{
    let mut place = String::from_str(alloc, folder)?;
    if !folder.ends_with('/') {
        place.push('/')?;
    }
    place.push_str(name)?;
    Ok(place)
}

/// Whether there is a file `Dockerfile` in a folder; a link is none. If there is none, it is noted why. If the machine can't tell, that ends packing.
fn has_dockerfile<R: Files>(
    rt: &R,
    alloc: Global,
    folder: &str,
    notes: &mut Text,
) -> Result<bool, PackFault>
    ensures { IfErr result IsBefore }
{
    // The empty text names no folder, and `/Dockerfile` is another one's.
    if folder.is_empty() {
        note(alloc, notes, folder, NO_FOLDER)?;
        return Ok(false);
    }
    let place = place_in(alloc, folder, DOCKERFILE)?;
    let place = place.as_str();
    match fs::symlink_metadata(rt, place) {
        Ok(found) if found.is_file() => Ok(true),
        Ok(_) => {
            note(alloc, notes, place, NO_PLAIN_DOCKERFILE)?;
            Ok(false)
        }
        Err(error) => match error.kind() {
            // In what is no folder there is no file either.
            ErrorKind::NotFound | ErrorKind::NotADirectory => {
                note_absence(rt, alloc, folder, notes)?;
                Ok(false)
            }
            _ => Err(refuse_error(alloc, notes, place, &error)),
        },
    }
}

/// Notes why there is no file `Dockerfile` in a folder, and what helps.
fn note_absence<R: Files>(
    rt: &R,
    alloc: Global,
    folder: &str,
    notes: &mut Text,
) -> Result<(), PackFault>
    ensures { IfErr result IsBefore }
{
    match fs::metadata(rt, folder) {
        Ok(found) if found.is_dir() => note_other(rt, alloc, folder, notes),
        Ok(_) => Ok(note(alloc, notes, folder, NO_FOLDER)?),
        Err(_) => Ok(note(alloc, notes, folder, NO_SUCH_FOLDER)?),
    }
}

/// Notes that a folder has no file `Dockerfile`, and which file may be taken in its place.
fn note_other<R: Files>(
    rt: &R,
    alloc: Global,
    folder: &str,
    notes: &mut Text,
) -> Result<(), PackFault>
    ensures { IfErr result IsBefore }
{
    let place = place_in(alloc, folder, CONTAINERFILE)?;
    let place = place.as_str();
    if is_file(rt, place) {
        let what = format!(in alloc; " has a {CONTAINERFILE}; --file {place} takes it")?;
        return Ok(note(alloc, notes, folder, what.as_str())?);
    }
    Ok(note(alloc, notes, folder, NO_DOCKERFILE)?)
}

/// Whether a name leads to a file.
pub(crate) fn is_file<R: Files>(rt: &R, name: &str) -> bool {
    match fs::metadata(rt, name) {
        Ok(found) => found.is_file(),
        Err(_) => false,
    }
}
