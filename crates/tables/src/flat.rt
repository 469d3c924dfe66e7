// The second body of a tree: one list of rows in path order, one for each path at which something stands, which shares nothing with another list.
//
// The lists of changes that `tools/check lists` makes, those of the table `trees` whose names begin with `list_`, are answered by this body too, and
// both have to tell the same: which changes fail, with which cause, and a sum of all trees. Its rules are those of `put`, `remove`, `copied` and
// `over`, each read on whole lists. A name in these lists is of letters and digits, which come after `/`, so texts have the order of paths.

use crate::reading::{cut, number};
use crate::telling::{begin, sum_of};
use plain::{Fault, Memory};
use std::alloc::Global;
use trees::{Cause, TreeFault};

/// Mode and owner of a directory that is made on the way.
const MADE: &str = "755:0:0";

/// What the steps of a case tell.
pub fn told_by(alloc: Global, steps: &str) -> Result<String, Memory> {
    let mut case = Case::new(alloc)?;
    let mut told = String::new(alloc);
    let done = case.take_steps(alloc, &mut told, steps);
    drop(case);
    match done {
        Ok(()) => Ok(told),
        Err(memory) => {
            drop(told);
            Err(memory)
        }
    }
}

/// The maps of a case, by their numbers.
#[derive(Drop)]
struct Case<'a> {
    maps: Vec<Map<'a>>,
}

impl<'a> Case<'a> {
    /// The map of the root alone.
    fn new(alloc: Global) -> Result<Case<'a>, Memory> {
        let mut map = Map {
            rows: Vec::new(alloc),
        };
        map.place(alloc, "/", MADE, None)?;
        let mut maps = Vec::new(alloc);
        maps.push(map)?;
        Ok(Case { maps })
    }

    fn take_steps(
        &mut self,
        alloc: Global,
        told: &mut String,
        steps: &'a str,
    ) -> Result<(), Memory> {
        for step in steps.split(" | ") {
            let (place, rest) = cut(step);
            let (verb, rest) = cut(rest);
            if verb == "sums" {
                push_sum(alloc, told, self.maps.as_slice())?;
            } else {
                self.change(alloc, told, number(place)?, verb, rest)?;
            }
        }
        Ok(())
    }

    /// Makes the next map.
    fn change(
        &mut self,
        alloc: Global,
        told: &mut String,
        place: u32,
        verb: &str,
        rest: &'a str,
    ) -> Result<(), Memory> {
        let before = map_at(self.maps.as_slice(), place)?;
        let mut map = before.copy(alloc)?;
        match change(alloc, self.maps.as_slice(), &mut map, verb, rest) {
            Ok(()) => Ok(self.maps.push(map)?),
            Err(Fault::Because(cause)) => {
                drop(map);
                begin(told)?;
                write!(told, "{cause}")?;
                let before = map_at(self.maps.as_slice(), place)?.copy(alloc)?;
                Ok(self.maps.push(before)?)
            }
            Err(Fault::Memory) => {
                drop(map);
                Err(Memory)
            }
        }
    }
}

/// The map of a number.
fn map_at<'m, 'a>(maps: &'m [Map<'a>], place: u32) -> Result<&'m Map<'a>, Memory> {
    maps.get(place as usize).ok_or(Memory)
}

/// Changes a map as a step says.
fn change<'a>(
    alloc: Global,
    maps: &[Map<'a>],
    map: &mut Map<'a>,
    verb: &str,
    rest: &'a str,
) -> Result<(), TreeFault> {
    let (first, after) = cut(rest);
    match verb {
        "remove" => map.remove(first),
        "over" => map.lie_under(alloc, map_at(maps, number(first)?)?),
        "folder" => map.put(alloc, after, first, None),
        "file" => {
            let (path, text) = cut(after);
            map.put(alloc, path, first, Some(text))
        }
        "copy" => {
            let (_, after) = cut(after);
            let (dest, source) = cut(after);
            map.copy_into(alloc, map_at(maps, number(first)?)?, source, dest)
        }
        _ => Err(Fault::Memory),
    }
}

/// What stands at a path: mode and owner, and a text if it is a file.
#[derive(Drop)]
struct Row<'a> {
    path: String,
    meta: &'a str,
    text: Option<&'a str>,
}

#[derive(Drop)]
struct Map<'a> {
    rows: Vec<Row<'a>>,
}

impl<'a> Map<'a> {
    fn copy(&self, alloc: Global) -> Result<Map<'a>, Memory> {
        let mut rows = Vec::new(alloc);
        for row in self.rows.iter() {
            rows.push(Row {
                path: String::from_str(alloc, row.path.as_str())?,
                meta: row.meta,
                text: row.text,
            })?;
        }
        Ok(Map { rows })
    }

    fn get(&self, path: &str) -> Option<&Row<'a>> {
        self.rows.iter().find(|row| row.path.as_str() == path)
    }

    fn has_folder(&self, path: &str) -> bool {
        self.get(path).is_some_and(|row| row.text.is_none())
    }

    /// Whether a file stands on the way to a path.
    fn is_blocked(&self, path: &str) -> bool {
        self.rows.iter().any(|row| row.text.is_some() && is_below(path, row.path.as_str()))
    }

    /// Lets this stand at a path, whatever stood there.
    fn place(
        &mut self,
        alloc: Global,
        path: &str,
        meta: &'a str,
        text: Option<&'a str>,
    ) -> Result<(), Memory> {
        let path = String::from_str(alloc, path)?;
        self.rows.retain(|row| row.path.as_str() != path.as_str());
        let at = self
            .rows
            .iter()
            .take_while(|row| row.path.as_str() < path.as_str())
            .count();
        if at <= self.rows.len() {
            self.rows.insert(at, Row { path, meta, text })?;
        }
        Ok(())
    }

    /// Makes the directories on the way to a path that aren't there.
    fn make_way(&mut self, alloc: Global, path: &str) -> Result<(), Memory> {
        let mut folder = String::from_str(alloc, "/")?;
        for name in path.split('/') {
            if !name.is_empty() {
                if self.get(folder.as_str()).is_none() {
                    self.place(alloc, folder.as_str(), MADE, None)?;
                }
                folder = joined(alloc, folder.as_str(), name)?;
            }
        }
        Ok(())
    }

    fn put(
        &mut self,
        alloc: Global,
        path: &str,
        meta: &'a str,
        text: Option<&'a str>,
    ) -> Result<(), TreeFault> {
        let is_file = self.get(path).is_some() && !self.has_folder(path);
        if self.is_blocked(path) || (is_file && text.is_none()) {
            return Err(Fault::Because(Cause::F2));
        }
        if self.has_folder(path) && text.is_some() {
            return Err(Fault::Because(Cause::F4));
        }
        self.make_way(alloc, path)?;
        self.place(alloc, path, meta, text)?;
        Ok(())
    }

    fn remove(&mut self, path: &str) -> Result<(), TreeFault> {
        if path == "/" || self.get(path).is_none() {
            return Err(Fault::Because(Cause::F1));
        }
        self.rows.retain(|row| row.path.as_str() != path && !is_below(row.path.as_str(), path));
        Ok(())
    }

    /// Lays another map over this one.
    fn lie_under(&mut self, alloc: Global, upper: &Map<'a>) -> Result<(), TreeFault> {
        self.rows.retain(|row| !upper.is_blocked(row.path.as_str()));
        for row in upper.rows.iter() {
            self.place(alloc, row.path.as_str(), row.meta, row.text)?;
        }
        Ok(())
    }

    fn copy_into(
        &mut self,
        alloc: Global,
        from: &Map<'a>,
        source: &str,
        dest: &str,
    ) -> Result<(), TreeFault> {
        let found = from.get(source).ok_or(Fault::Because(Cause::F1))?;
        let (dest, has_slash) = match dest.strip_suffix('/') {
            Some("") => ("/", true),
            Some(dest) => (dest, true),
            None => (dest, false),
        };
        match found.text {
            None => self.copy_below(alloc, from, source, dest),
            Some(_) if has_slash || self.has_folder(dest) => {
                let (_, name) = source.rsplit_once('/').unwrap_or(("", source));
                let path = joined(alloc, dest, name)?;
                self.put(alloc, path.as_str(), found.meta, found.text)
            }
            Some(_) => self.put(alloc, dest, found.meta, found.text),
        }
    }

    /// Makes the destination, and copies what lies below the source to it.
    fn copy_below(
        &mut self,
        alloc: Global,
        from: &Map<'a>,
        source: &str,
        dest: &str,
    ) -> Result<(), TreeFault> {
        if !self.has_folder(dest) {
            self.put(alloc, dest, MADE, None)?;
        }
        for row in from.rows.iter() {
            if is_below(row.path.as_str(), source) {
                let after = row.path.strip_prefix(source).unwrap_or("");
                let path = joined(alloc, dest, after.strip_prefix('/').unwrap_or(after))?;
                self.put(alloc, path.as_str(), row.meta, row.text)?;
            }
        }
        Ok(())
    }
}

/// Whether a path lies below another one.
fn is_below(path: &str, folder: &str) -> bool {
    match path.strip_prefix(folder) {
        Some(after) => after.starts_with('/') || (folder == "/" && !after.is_empty()),
        None => false,
    }
}

/// The path of a name, or of several, in a folder.
fn joined(alloc: Global, folder: &str, names: &str) -> Result<String, Memory> {
    let folder = if folder == "/" { "" } else { folder };
    Ok(format!(in alloc; "{folder}/{names}")?)
}

/// Tells a number for all these maps, as that of trees is made.
fn push_sum(alloc: Global, told: &mut String, maps: &[Map<'_>]) -> Result<(), Memory> {
    let mut all = String::new(alloc);
    for map in maps {
        for row in map.rows.iter() {
            let path = row.path.as_str();
            let (mode, owner) = row.meta.split_once(':').unwrap_or((row.meta, ""));
            let text = row.text.unwrap_or("");
            begin(&mut all)?;
            write!(&mut all, "{path} {mode} {owner}{text}")?;
        }
    }
    let sum = sum_of(all.as_bytes());
    begin(told)?;
    Ok(write!(told, "{sum}")?)
}
