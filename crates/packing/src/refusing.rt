// What can't be packed, in words: where it is, what it is, and the remedy.
ghost use Rattle.std.specs.Prelude.{◌≡◌, ◌++◌, IfOk, IsTrue, None, OnOk};
ghost use Rattle.std.specs.IoError.{raw_os_error};
ghost use Rattle.packing.specs.Ends.{IsBefore};
ghost use Rattle.packing.specs.PrivateWords.{Notes, shown};

use crate::PackFault;
use crate::shown::shown_bytes;
use plain::{Fault, Memory, Text};
use std::alloc::Global;
use std::io;
use std::io::ErrorKind;
use trees::TreeFault;

pub(crate) const LINK: &str =
    " is a link: leave it out by a line of .dockerignore and --apply-ignore, or put what it leads to in its place";

pub(crate) const LINK_KEPT: &str =
    " is a link: leave it out by a line of the ignore file, or put what it leads to in its place";

pub(crate) const OWN_LINK: &str = " is a link: put the file that it leads to in its place";

pub(crate) const NO_FILE: &str =
    " is neither a file nor a folder: leave it out by a line of .dockerignore and --apply-ignore, or remove it";

pub(crate) const NO_FILE_KEPT: &str =
    " is neither a file nor a folder: leave it out by a line of the ignore file, or remove it";

pub(crate) const NO_PLAIN_FILE: &str = " is no file: put a file in its place, or rename it";

pub(crate) const NO_FOLDER: &str = " is no folder: name one";

pub(crate) const NO_SUCH_FOLDER: &str = " does not exist: name another folder";

pub(crate) const NO_PLAIN_DOCKERFILE: &str = " is no plain file; --file names another";

pub(crate) const NO_DOCKERFILE: &str = "; --file names another";

pub(crate) const TOO_DEEP: &str =
    " lies deeper than 64 components, or has too long a name: move or rename it";

pub(crate) const IN_THE_WAY: &str =
    " has to stand in the context as .dockerignore, where a folder is: rename that folder";

pub(crate) const BAD_NAME: &str =
    " holds an entry whose name is not UTF-8 or is too long: rename that entry";

pub(crate) const NO_UTF8: &str = " has a name that is not UTF-8 or is too long: rename it";

pub(crate) const MISSING: &str =
    " does not exist, or is a link that leads to nothing: name what exists";

const BELOW_FILE: &str = " has a file where a folder has to be: name another path";

pub(crate) const CHANGED: &str = " changed while it was read: pack again";

pub(crate) const GONE: &str = " is gone since it was asked for: pack again";

pub(crate) const TOO_MANY: &str = " has too many folders: leave some out";

pub(crate) const NO_IMAGE_NAME: &str =
    " is given for an image without a name, or for scratch: write another name before its =";

pub(crate) const NAMED_TWICE: &str =
    " is given for an image that is given again: give each image one file";

pub(crate) const NO_FILE_OF_IMAGE: &str =
    " is neither a file nor a folder: name the file of an image, or the folder of its layout";

pub(crate) const TOO_LARGE: &str =
    " has more than 67,108,864 bytes, which no bundle may have: leave some of its files out";

pub(crate) const NO_JSON: &str =
    " is no JSON: put the JSON of an image or of its configuration in it";

pub(crate) const NO_IMAGE: &str =
    " is no image: it needs architecture, os and rootfs, or config and tree";

pub(crate) const NOT_INSPECTED: &str =
    " is a list, but none of one image that was inspected: it needs Architecture, Os, Config and RootFS.Layers";

pub(crate) const AN_INDEX: &str = " is an index of images: name the folder of its layout";

pub(crate) const A_MANIFEST: &str = " is a manifest of an image: name the folder of its layout";

pub(crate) const NO_LAYOUT: &str =
    " is a folder without index.json: name the folder of an image's layout, or a file";

pub(crate) const NO_LAYOUT_JSON: &str = " is no JSON: copy the image into its layout again";

pub(crate) const NO_INDEX: &str =
    " is no index, which lists manifests: copy the image into its layout again";

pub(crate) const NO_MANIFEST: &str =
    " is neither an index nor a manifest: copy the image into its layout again";

pub(crate) const NO_PLATFORM: &str =
    " lists no image of linux/amd64, and not one alone: copy that of one platform into a layout";

pub(crate) const INNER_INDEX: &str =
    " is an index in an index that index.json names: copy the image of one platform into a layout";

pub(crate) const NO_DIGEST: &str =
    " names a file without a digest: copy the image into its layout again";

pub(crate) const NO_CONFIG: &str =
    " is no configuration of an image: it needs architecture, os and rootfs";

const UNREADABLE: &str = " cannot be read: make it readable, or leave it out";

const NO_SYSTEM_MEMORY: &str = " cannot be used while the system has no memory for it: pack again";

pub(crate) const UNWRITTEN: &str = " cannot be written: see whether there is room for it";

/// What a place is called.
fn shown(place: &str) -> &str
    ensures { result.now ≡ shown place.now }
{
    if place.is_empty() {
        return "the empty text";
    }
    place
}

/// Notes what there is to say of this place.
pub(crate) fn note(alloc: Global, notes: &mut Text, place: &str, what: &str) -> Result<(), Memory>
    ensures { OnOk result (notes.new ≡ shown place.now ++ what.now) }
{
    let mut text = String::from_str(alloc, shown(place))?;
    text.push_str(what)?;
    *notes = Text::from_string(text);
    Ok(())
}

/// Notes that what is at this place can't be packed, and what it is.
pub(crate) fn refuse(alloc: Global, notes: &mut Text, place: &str, what: &str) -> PackFault
    ensures before { IsBefore result }
    ensures noted { Notes result notes.new (shown place.now ++ what.now) }
{
    match note(alloc, notes, place, what) {
        Ok(()) => PackFault::Ended,
        Err(_) => PackFault::Memory,
    }
}

/// Whether a call of the machine failed since the allocator refused a growth. Then the error is the library's own, without a number of the system:
/// where it is the system that has no memory for a call, that is a failure of what was called.
fn is_want(error: &io::Error) -> bool
    ensures { IsTrue result → raw_os_error error.now ≡ None }
{
    match error.raw_os_error() {
        Some(_) => false,
        None => error.kind() == ErrorKind::OutOfMemory,
    }
}

/// The same, where a call of the machine failed.
pub(crate) fn refuse_error(
    alloc: Global,
    notes: &mut Text,
    place: &str,
    error: &io::Error,
) -> PackFault
    ensures { IsBefore result }
{
    if is_want(error) {
        return PackFault::Memory;
    }
    match error.kind() {
        ErrorKind::OutOfMemory => refuse(alloc, notes, place, NO_SYSTEM_MEMORY),
        ErrorKind::NotFound => refuse(alloc, notes, place, MISSING),
        ErrorKind::NotADirectory => refuse(alloc, notes, place, BELOW_FILE),
        ErrorKind::InvalidFilename => refuse(alloc, notes, place, NO_UTF8),
        _ => refuse(alloc, notes, place, UNREADABLE),
    }
}

/// The same, where an ignore file at this place has a bad line of this number.
pub(crate) fn refuse_line(alloc: Global, notes: &mut Text, place: &str, number: usize) -> PackFault
    ensures { IsBefore result }
{
    match format!(in alloc; " has a malformed line, {number}: mend it") {
        Ok(what) => refuse(alloc, notes, place, what.as_str()),
        Err(_) => PackFault::Memory,
    }
}

/// The same, where a file of an image's layout at this place names another one by what is no digest.
pub(crate) fn refuse_digest(alloc: Global, notes: &mut Text, place: &str, digest: &str) -> PackFault
    ensures { IsBefore result }
{
    match shown_bytes(alloc, digest.as_bytes()) {
        Ok(digest) => match format!(in alloc;
            " names the file {digest}, which is not sha256: with 64 hexadecimal digits: copy the image into its layout again"
        ) {
            Ok(what) => refuse(alloc, notes, place, what.as_str()),
            Err(_) => PackFault::Memory,
        },
        Err(_) => PackFault::Memory,
    }
}

/// The same, where what was found at a place doesn't fit into the folder that was found so far.
pub(crate) fn refuse_fault(
    alloc: Global,
    notes: &mut Text,
    place: &str,
    what: &str,
    fault: TreeFault,
) -> PackFault
    ensures { IsBefore result }
{
    match fault {
        Fault::Memory => PackFault::Memory,
        Fault::Because(_) => refuse(alloc, notes, place, what),
    }
}

/// The fault of a call of the machine that failed, for the file that the bundle is written to; the file and the reason are noted, if there is
/// memory for that.
pub(crate) fn refuse_output(
    alloc: Global,
    notes: &mut Text,
    name: &str,
    error: &io::Error,
) -> PackFault {
    if is_want(error) {
        return PackFault::Memory;
    }
    note_output(alloc, notes, name, unwritable(error.kind()));
    PackFault::Device
}

/// Notes why the file that the bundle is written to wasn't written, if there is memory for that.
pub(crate) fn note_output(alloc: Global, notes: &mut Text, name: &str, what: &str) {
    let _ = note(alloc, notes, name, what);
}

/// Why a file can't be written.
fn unwritable(kind: ErrorKind) -> &'static str {
    match kind {
        ErrorKind::AlreadyExists => " is there already: remove it",
        ErrorKind::NotFound => " lies in a folder that does not exist: make that folder",
        ErrorKind::PermissionDenied => " may not be written: name another file",
        ErrorKind::IsADirectory => " is a folder: name a file",
        ErrorKind::NotADirectory => BELOW_FILE,
        ErrorKind::OutOfMemory => NO_SYSTEM_MEMORY,
        _ => UNWRITTEN,
    }
}
