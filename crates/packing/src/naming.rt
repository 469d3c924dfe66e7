// The name of an entry of a folder that isn't UTF-8. The machine's folders are read by names that are text, so such a name is looked for once more in what the machine
// has of the folder. No contract says what that is.
ghost use Rattle.packing.specs.Ends.{IsBefore};

use crate::PackFault;
use crate::finding::place_in;
use crate::refusing::{BAD_NAME, NO_UTF8, refuse, refuse_error};
use crate::shown::shown_bytes;
use plain::{Memory, Text};
use std::alloc::Global;
use std::io;
use std::io::{ErrorKind, Read};
use std::rt::Files;

/// The fault where the machine didn't give the next entry of the folder at this place, with what that is noted.
pub(crate) fn refuse_entry<R: Files + AllocGlobal>(
    rt: &R,
    alloc: Global,
    notes: &mut Text,
    place: &str,
    error: &io::Error,
) -> PackFault
    ensures { IsBefore result }
{
    match error.kind() {
        ErrorKind::InvalidFilename => refuse_name(rt, alloc, notes, place),
        _ => refuse_error(alloc, notes, place, error),
    }
}

/// The same for an entry whose name isn't UTF-8: its own path, or the folder's if the machine doesn't give the name again.
fn refuse_name<R: Files + AllocGlobal>(
    rt: &R,
    alloc: Global,
    notes: &mut Text,
    place: &str,
) -> PackFault
    ensures { IsBefore result }
{
    let folder = match place_in(alloc, place, "") {
        Ok(folder) => folder,
        Err(fault) => return fault,
    };
    let Ok(names) = names_in(rt, alloc, folder.as_str()) else {
        return refuse(alloc, notes, place, BAD_NAME);
    };
    match path_of_first(alloc, folder, names.as_slice()) {
        Ok(Some(path)) => refuse(alloc, notes, path.as_str(), NO_UTF8),
        Ok(None) => refuse(alloc, notes, place, BAD_NAME),
        Err(Memory) => PackFault::Memory,
    }
}

/// The names of all entries of the folder at this place, each with a NUL after it.
fn names_in<R: Files + AllocGlobal>(rt: &R, alloc: Global, place: &str) -> io::Result<Vec<u8>> {
    let mut folder = rt.open_dir(place)?;
    let mut names = Vec::new(alloc);
    folder.read_to_end(&mut names)?;
    Ok(names)
}

/// The path of the first of these names that isn't UTF-8, as it is shown, in a folder whose place ends with a slash.
fn path_of_first(alloc: Global, folder: String, names: &[u8]) -> Result<Option<String>, Memory> {
    for name in names.split(|byte| *byte == 0) {
        if str::from_utf8(name).is_err() {
            let mut path = folder;
            path.push_str(shown_bytes(alloc, name)?.as_str())?;
            return Ok(Some(path));
        }
    }
    Ok(None)
}
