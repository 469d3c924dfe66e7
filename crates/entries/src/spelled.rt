// What the text of an entry says at its keys, each lent from the text as what it has to be, and the row that it makes.

ghost use Rattle.std.specs.Prelude.{◌≡◌, ◌++◌, ℕ, List, Some, IfOk, IfSome, OnOk, codes, true};
ghost use Rattle.std.specs.Option.{option_and_then};
ghost use Rattle.serde_json.specs.Data.{Members, no_members, object};
ghost use Rattle.serde_json.specs.Find.{get_member};
ghost use Rattle.strict.specs.Strict.{at_most_one, path_in};
ghost use Rattle.trees.specs.TreeMap.{file_meta};
ghost use Rattle.entries.specs.Reading.{content_of, file_at, meta_at, mode_in, row_in};
ghost use Rattle.entries.specs.PrivateKeys.{Spells, lent_text};
ghost use Rattle.entries.specs.PrivateSlab.{short_len, IsContentOf, IsOwn, AddsOwn};

use crate::digits::{add_digits, read_digits};
use crate::reading::mode_of;
use paths::Path;
use plain::{Bytes, Fault, Memory, Mode};
use std::alloc::Global;
use strict::{NotRead, ReadFault, read_path};
use trees::{Content, Entry, Meta, Slab};

/// So many bytes of a file share a slab with those of others, at most. A larger file costs little more by itself, and a slab stays as long as
/// one of its files does.
const MOST_SHORT: usize = 512;

/// What stands at each key that an entry may have; of a key that stands twice the last value counts.
#[derive(Clone, Copy)]
pub(crate) struct Spelled<'a> {
    pub(crate) dir: Option<bool>,
    pub(crate) gid: Option<u32>,
    pub(crate) hex: Option<&'a str>,
    pub(crate) mode: Option<&'a str>,
    pub(crate) path: Option<&'a str>,
    pub(crate) text: Option<&'a str>,
    pub(crate) uid: Option<u32>,
}

impl<'a> Spelled<'a> {
    /// Nothing was found yet.
    pub(crate) fn none() -> Spelled<'a>
        ensures { Spells result no_members }
    {
        Spelled {
            dir: None,
            gid: None,
            hex: None,
            mode: None,
            path: None,
            text: None,
            uid: None,
        }
    }

    /// The path, which has to be there.
    fn path(self, alloc: Global) -> Result<Path, ReadFault>
        ensures { IfOk result (λ path. (found : Members) → Spells self.entry found → option_and_then path_in (get_member (codes "path") found) ≡ Some path) }
    {
        match self.path {
            Some(text) => read_path(alloc, text),
            None => Err(Fault::Because(NotRead)),
        }
    }

    /// The mode, if it is told.
    fn mode(self) -> Result<Option<Mode>, ReadFault>
        ensures { IfOk result (λ mode. (found : Members) → Spells self.entry found → at_most_one mode_in (get_member (codes "mode") found) ≡ Some mode) }
    {
        let Some(text) = self.mode else {
            return Ok(None);
        };
        match mode_of(text) {
            Some(mode) => Ok(Some(mode)),
            None => Err(Fault::Because(NotRead)),
        }
    }

    /// The mode and the owner; what isn't told is as in `default`.
    fn meta(self, default: Meta) -> Result<Meta, ReadFault>
        ensures { IfOk result (λ meta. (found : Members) → Spells self.entry found → meta_at default (get_member (codes "mode") found) (get_member (codes "uid") found) (get_member (codes "gid") found) ≡ Some meta) }
    {
        let mode = self.mode()?;
        Ok(Meta {
            mode: mode.unwrap_or(default.mode),
            uid: self.uid.unwrap_or(default.uid),
            gid: self.gid.unwrap_or(default.gid),
        })
    }

    /// How many bytes the file has, if they are so few that they share a slab with those of others.
    pub(crate) fn short_len(self) -> Option<usize>
        ensures { result ≡ short_len (lent_text self.entry.text) (lent_text self.entry.hex) }
    {
        let len = match (self.text, self.hex) {
            (Some(text), None) => text.len(),
            (None, Some(hex)) => hex.len() / 2,
            _ => return None,
        };
        if len > MOST_SHORT {
            return None;
        }
        Some(len)
    }

    /// Adds the bytes of the file, if they share a slab.
    pub(crate) fn add_short(self, bytes: &mut Vec<u8>) -> Result<(), ReadFault>
        ensures { OnOk result (AddsOwn self.entry bytes.old.items bytes.new.items) }
    {
        if self.short_len().is_none() {
            return Ok(());
        }
        match (self.text, self.hex) {
            (Some(text), None) => bytes.extend_from_slice(text.as_bytes())?,
            (None, Some(hex)) => add_digits(hex, bytes)?,
            _ => {}
        }
        Ok(())
    }

    /// Cuts the content of the file from a slab, if it lies there.
    pub(crate) fn cut_short(self, alloc: Global, slab: &mut Slab) -> Result<Option<Content>, Memory>
        ensures { IfOk result (λ short. (own left : List ℕ) → slab.old ≡ own ++ left → IsOwn self.entry own → (slab.new ≡ left) × IfSome short (IsContentOf self.entry)) }
    {
        match self.short_len() {
            Some(len) => Ok(Some(slab.cut(alloc, len)?)),
            None => Ok(None),
        }
    }

    /// The bytes, which stand as a text or in hexadecimal, but not both; those that were cut from a slab, if they were.
    fn content(self, alloc: Global, short: Option<Content>) -> Result<Content, ReadFault>
        requires { IfSome short (IsContentOf self) }
        ensures { IfOk result (λ content. (found : Members) → Spells self.entry found → content_of (get_member (codes "text") found) (get_member (codes "hex") found) ≡ Some content) }
    {
        if let Some(content) = short {
            return Ok(content);
        }
        let bytes = match (self.text, self.hex) {
            (Some(text), None) => Bytes::from_slice(alloc, text.as_bytes())?,
            (None, Some(hex)) => read_digits(alloc, hex)?,
            _ => return Err(Fault::Because(NotRead)),
        };
        Ok(Content::new(alloc, bytes)?)
    }

    /// The file.
    fn file(self, alloc: Global, short: Option<Content>) -> Result<(Path, Entry), ReadFault>
        requires { IfSome short (IsContentOf self) }
        ensures { IfOk result (λ row. (found : Members) → Spells self.entry found → file_at (get_member (codes "path") found) (meta_at file_meta (get_member (codes "mode") found) (get_member (codes "uid") found) (get_member (codes "gid") found)) (content_of (get_member (codes "text") found) (get_member (codes "hex") found)) ≡ Some row) }
    {
        let meta = self.meta(Meta::file())?;
        let path = self.path(alloc)?;
        let content = self.content(alloc, short)?;
        Ok((path, Entry::File(meta, content)))
    }

    /// The directory. A directory has no bytes.
    fn directory(self, alloc: Global) -> Result<(Path, Entry), ReadFault>
        ensures { IfOk result (λ row. (found : Members) → Spells self.entry found → self.entry.dir ≡ Some true → row_in (object found) ≡ Some row) }
    {
        if self.text.is_some() || self.hex.is_some() {
            return Err(Fault::Because(NotRead));
        }
        let meta = self.meta(Meta::directory())?;
        let path = self.path(alloc)?;
        Ok((path, Entry::Directory(meta)))
    }

    /// The entry: a directory where `dir` is there, else a file, with the content that was cut for it, if one was.
    pub(crate) fn row(
        self,
        alloc: Global,
        short: Option<Content>,
    ) -> Result<(Path, Entry), ReadFault>
        requires { IfSome short (IsContentOf self) }
        ensures { IfOk result (λ row. (found : Members) → Spells self.entry found → row_in (object found) ≡ Some row) }
    {
        match self.dir {
            None => self.file(alloc, short),
            Some(true) => self.directory(alloc),
            Some(false) => Err(Fault::Because(NotRead)),
        }
    }
}
