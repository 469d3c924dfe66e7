// What lies in a folder of the machine. No contract says what the machine gives: each call is safe and returns, and ends the walk where
// something can't be packed.
ghost use Rattle.std.specs.Prelude.{◌≡◌, false, [], All, IfErr, IfOk, OnOk};
ghost use Rattle.packing.specs.Ends.{IsBefore};
ghost use Rattle.packing.specs.Leaving.{FileKind, FolderKind, Gathers, IsPacked, OtherKind, has_bytes};
ghost use Rattle.packing.specs.PrivateLeaving.{Takes, TakesAs};

use crate::PackFault;
use crate::finding::bytes_of;
use crate::folder::Folder;
use crate::leaving::Leaving;
use crate::naming::refuse_entry;
use crate::refusing::{
    CHANGED, NO_PLAIN_FILE, OWN_LINK, TOO_DEEP, TOO_MANY, refuse, refuse_error, refuse_fault,
};
use ignorefile::{Decided, FolderLines};
use paths::Path;
use plain::{Bytes, Fault, Text};
use std::alloc::Global;
use std::fs;
use std::fs::DirEntry;
use std::rt::Files;

/// What is packed of a folder; what was passed over is noted. The folder itself may be a link; none is followed in it.
pub(crate) fn read_folder<R: Files + AllocGlobal + Clone + Drop>(
    rt: &R,
    alloc: Global,
    folder: &str,
    leaving: &Leaving,
    notes: &mut Text,
) -> Result<Folder, PackFault>
    ensures before { IfErr result IsBefore }
    ensures gathers { IfOk result (Gathers leaving.now) }
{
    let mut found = Folder::new(alloc);
    match read_all(rt, alloc, folder, leaving, &mut found, notes) {
        Ok(()) => Ok(found),
        Err(fault) => {
            drop(found);
            Err(fault)
        }
    }
}

/// Adds all that is packed of a folder.
fn read_all<R: Files + AllocGlobal + Clone + Drop>(
    rt: &R,
    alloc: Global,
    folder: &str,
    leaving: &Leaving,
    found: &mut Folder,
    notes: &mut Text,
) -> Result<(), PackFault>
    requires { Gathers leaving.now found.old }
    ensures before { IfErr result IsBefore }
    ensures gathers { OnOk result (Gathers leaving.now found.new) }
{
    let mut left = Vec::new(alloc);
    left.push(leaving.root(alloc))?;
    // There are fewer directories than that; what isn't read by then is no folder.
    'folders: for _ in 0..u64::MAX {
        let Some(at) = left.pop() else {
            *notes = found.warning(alloc)?;
            return Ok(());
        };
        read_names(rt, alloc, folder, at, leaving, found, &mut left, notes)?;
    }
    Err(refuse(alloc, notes, folder, TOO_MANY))
}

/// Adds what is packed of one directory of a folder, and lists the directories among it that are to be read.
fn read_names<'a, R: Files + AllocGlobal + Clone + Drop>(
    rt: &R,
    alloc: Global,
    folder: &str,
    at: Decided<'a>,
    leaving: &Leaving,
    found: &mut Folder,
    left: &mut Vec<Decided<'a>>,
    notes: &mut Text,
) -> Result<(), PackFault>
    requires lines { at.lines ≡ leaving.now.lines }
    requires gathers { Gathers leaving.now found.old }
    requires left { All (λ one. one.lines ≡ leaving.now.lines) left.old.items }
    ensures before { IfErr result IsBefore }
    ensures gathers { OnOk result (Gathers leaving.now found.new) }
    ensures left { OnOk result (All (λ one. one.lines ≡ leaving.now.lines) left.new.items) }
{
    let place = place_of(alloc, folder, at.path())?;
    match at.folder(alloc) {
        Ok(lines) => {
            let path = at.path();
            let place = place.as_str();
            read_rows(rt, alloc, place, path, &lines, leaving, found, left, notes)
        }
        Err(_) => Err(PackFault::Memory),
    }
}

/// Adds what is packed of the directory at this place, whose path and lines are lent.
fn read_rows<'a, R: Files + AllocGlobal + Clone + Drop>(
    rt: &R,
    alloc: Global,
    place: &str,
    path: &Path,
    lines: &FolderLines<'_, 'a>,
    leaving: &Leaving,
    found: &mut Folder,
    left: &mut Vec<Decided<'a>>,
    notes: &mut Text,
) -> Result<(), PackFault>
    requires lines { lines.now ≡ leaving.now.lines }
    requires gathers { Gathers leaving.now found.old }
    requires left { All (λ one. one.lines ≡ leaving.now.lines) left.old.items }
    ensures before { IfErr result IsBefore }
    ensures gathers { OnOk result (Gathers leaving.now found.new) }
    ensures left { OnOk result (All (λ one. one.lines ≡ leaving.now.lines) left.new.items) }
{
    match fs::read_dir(rt, place) {
        Ok(rows) => {
            'names: for row in rows {
                match row {
                    Ok(row) => {
                        read_row(rt, alloc, &row, path, lines, leaving, found, left, notes)?
                    }
                    Err(error) => return Err(refuse_entry(rt, alloc, notes, place, &error)),
                }
            }
            Ok(())
        }
        Err(error) => Err(refuse_error(alloc, notes, place, &error)),
    }
}

/// The machine's name of a path in a folder.
fn place_of(alloc: Global, folder: &str, path: &Path) -> Result<String, PackFault>
    ensures { IfErr result IsBefore }
{
    let mut place = String::from_str(alloc, folder)?;
    place.push_str(path.text(alloc)?.as_str())?;
    Ok(place)
}

/// Adds one file or directory that lies in the directory of this path, if it is packed.
fn read_row<'a, R: Files + AllocGlobal>(
    rt: &R,
    alloc: Global,
    row: &DirEntry<R>,
    folder: &Path,
    lines: &FolderLines<'_, 'a>,
    leaving: &Leaving,
    found: &mut Folder,
    left: &mut Vec<Decided<'a>>,
    notes: &mut Text,
) -> Result<(), PackFault>
    requires lines { lines.now ≡ leaving.now.lines }
    requires gathers { Gathers leaving.now found.old }
    requires left { All (λ one. one.lines ≡ leaving.now.lines) left.old.items }
    ensures before { IfErr result IsBefore }
    ensures gathers { OnOk result (Gathers leaving.now found.new) }
    ensures left { OnOk result (All (λ one. one.lines ≡ leaving.now.lines) left.new.items) }
{
    match folder.join(alloc, row.file_name()) {
        Ok(path) => {
            let at = lines.decide(path);
            match add_row(rt, alloc, row, &at, leaving, found, notes) {
                Ok(true) => {
                    left.push(at)?;
                    Ok(())
                }
                Ok(false) => {
                    drop(at);
                    Ok(())
                }
                Err(fault) => {
                    drop(at);
                    Err(fault)
                }
            }
        }
        Err(Fault::Memory) => Err(PackFault::Memory),
        Err(Fault::Because(_)) => {
            let place = row.path();
            Err(refuse(alloc, notes, place.as_str(), TOO_DEEP))
        }
    }
}

/// Adds what a row names, if it is packed, and says whether that is a directory to be read. What is left out is looked at no further than for its
/// name, or, where a line may be an exception, than for whether it is a folder.
fn add_row<R: Files + AllocGlobal>(
    rt: &R,
    alloc: Global,
    row: &DirEntry<R>,
    at: &Decided<'_>,
    leaving: &Leaving,
    found: &mut Folder,
    notes: &mut Text,
) -> Result<bool, PackFault>
    requires { at.now.lines ≡ leaving.now.lines }
    ensures { Takes leaving.now at.now.path result found.old found.new }
{
    if leaving.leaves_whole(at) {
        return Ok(false);
    }
    let place = row.path();
    let place = place.as_str();
    match row.file_type() {
        Ok(kind) if kind.is_dir() => add_directory(alloc, place, at, leaving, found, notes),
        Ok(_) if !leaving.packs(at) => Ok(false),
        Ok(kind) if kind.is_file() => add_file(rt, alloc, place, at.path(), leaving, found, notes),
        Ok(kind) => pass_over(
            alloc,
            place,
            kind.is_symlink(),
            at.path(),
            leaving,
            found,
            notes,
        ),
        Err(error) => Err(refuse_error(alloc, notes, place, &error)),
    }
}

/// Passes over what is neither a file nor a directory, or refuses it. A link in place of the ignore file or of the bundle's Dockerfile is always
/// refused, since what it leads to isn't in the folder.
fn pass_over(
    alloc: Global,
    place: &str,
    is_link: bool,
    path: &Path,
    leaving: &Leaving,
    found: &mut Folder,
    notes: &mut Text,
) -> Result<bool, PackFault>
    requires { IsPacked leaving.now path.now }
    ensures { TakesAs leaving.now path.now OtherKind result found.old found.new }
{
    if leaving.is_own(path) {
        let what = if is_link { OWN_LINK } else { NO_PLAIN_FILE };
        return Err(refuse(alloc, notes, place, what));
    }
    if !leaving.passes() {
        return Err(refuse(alloc, notes, place, leaving.words(is_link)));
    }
    found.pass_over(place)?;
    Ok(false)
}

/// Adds a file that is packed, with its bytes where these are.
fn add_file<R: Files + AllocGlobal>(
    rt: &R,
    alloc: Global,
    place: &str,
    path: &Path,
    leaving: &Leaving,
    found: &mut Folder,
    notes: &mut Text,
) -> Result<bool, PackFault>
    requires { IsPacked leaving.now path.now }
    ensures { TakesAs leaving.now path.now FileKind result found.old found.new }
{
    if leaving.has_bytes(path) {
        let bytes = bytes_of(rt, alloc, place, notes)?;
        put_file(alloc, place, path, bytes, leaving, found, notes)
    } else {
        let bytes = Bytes::from_vec(Vec::new(alloc));
        put_file(alloc, place, path, bytes, leaving, found, notes)
    }
}

/// Adds a file of these bytes.
fn put_file(
    alloc: Global,
    place: &str,
    path: &Path,
    bytes: Bytes,
    leaving: &Leaving,
    found: &mut Folder,
    notes: &mut Text,
) -> Result<bool, PackFault>
    requires packed { IsPacked leaving.now path.now }
    requires bytes { has_bytes leaving.now path.now ≡ false → bytes ≡ [] }
    ensures { TakesAs leaving.now path.now FileKind result found.old found.new }
{
    match found.add_file(alloc, path, bytes) {
        Ok(()) => Ok(false),
        Err(fault) => Err(refuse_fault(alloc, notes, place, CHANGED, fault)),
    }
}

/// Adds a directory, if it is packed; it is read in either case, since what is left out may hold what is kept.
fn add_directory(
    alloc: Global,
    place: &str,
    at: &Decided<'_>,
    leaving: &Leaving,
    found: &mut Folder,
    notes: &mut Text,
) -> Result<bool, PackFault>
    requires { at.now.lines ≡ leaving.now.lines }
    ensures { TakesAs leaving.now at.now.path FolderKind result found.old found.new }
{
    if !leaving.packs(at) {
        return Ok(true);
    }
    match found.add_directory(alloc, at.path()) {
        Ok(()) => Ok(true),
        Err(fault) => Err(refuse_fault(alloc, notes, place, CHANGED, fault)),
    }
}
