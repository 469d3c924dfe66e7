// What a folder's bundle leaves out: what its ignore file does, and bytes of files where names alone are packed.
ghost use Rattle.std.specs.Prelude.{◌≡◌, ◌↔◌, [], false, IsTrue};
ghost use Rattle.ignorefile.specs.File.{ignore_of};
ghost use Rattle.packing.specs.Asked.{asked_of};
ghost use Rattle.packing.specs.Leaving.{IsPacked, LeavesWhole, has_bytes, is_own, keeping_of};
ghost use Rattle.packing.specs.PrivateLeaving.{ExceptNothing, IsLeavingRead};

use crate::PackOptions;
use crate::folder::DOCKERFILE;
use crate::refusing::{LINK, LINK_KEPT, NO_FILE, NO_FILE_KEPT};
use ignorefile::{Decided, Ignore, IgnoreFault};
use paths::Path;
use std::alloc::Global;
use std::marker::Model;

/// The name of a context's ignore file, which also ends the name of a Dockerfile's own.
pub(crate) const IGNORE_FILE: &str = ".dockerignore";

/// What of a folder is packed, and how: by the lines of an ignore file, and by what is asked. Contracts see both.
#[derive(Drop)]
pub(crate) struct Leaving {
    /// The ignore file by whose lines entries are left out; one without lines, and then all are packed.
    ignore: Ignore,
    /// Whether the folder's file `Dockerfile` is the bundle's, and so is packed whatever the lines say.
    dockerfile: bool,
    /// Whether a line may be an exception, by which something is kept in a folder that is left out.
    may_except: bool,
    /// Whether files are packed without their bytes.
    names: bool,
    /// Whether what is neither a file nor a folder is passed over.
    pass: bool,
    /// Whether an ignore file is applied, if there is one.
    applies: bool,
}

impl Model for Leaving {
    ghost use Rattle.std.specs.Prelude.{◌≡◌, false};
    ghost use Rattle.packing.specs.Leaving.{Keeping};
    ghost use Rattle.packing.specs.PrivateLeaving.{ExceptNothing};

    ghost Value = { Keeping };

    ghost view = { λ l. record { lines = l.ignore; dockerfile = l.dockerfile; names = l.names; pass = l.pass } };

    ghost invariant = { λ l. l.may_except ≡ false → ExceptNothing l.ignore };
}

impl Leaving {
    /// No entry is left out. It takes no memory.
    pub(crate) fn nothing(alloc: Global, options: PackOptions<'_>) -> Leaving
        ensures { result ≡ keeping_of (asked_of options.entry) [] }
    {
        Leaving::by(Ignore::none(alloc), false, options)
    }

    /// The entries are left out that an ignore file of these bytes leaves out, but for itself, and for the folder's file `Dockerfile` where
    /// that is the bundle's.
    pub(crate) fn read(
        alloc: Global,
        bytes: &[u8],
        options: PackOptions<'_>,
    ) -> Result<Leaving, IgnoreFault>
        ensures { IsLeavingRead (asked_of options.entry) (ignore_of bytes.now) result }
    {
        let ignore = Ignore::read(alloc, bytes)?;
        Ok(Leaving::by(ignore, bytes.contains(&b'!'), options))
    }

    /// The entries are left out that an ignore file leaves out, in which a line may be an exception or none is.
    fn by(ignore: Ignore, may_except: bool, options: PackOptions<'_>) -> Leaving
        requires { may_except ≡ false → ExceptNothing ignore }
        ensures { result ≡ keeping_of (asked_of options.entry) ignore }
    {
        Leaving {
            ignore,
            dockerfile: !options.file.is_some(),
            may_except,
            names: options.names,
            pass: options.pass,
            applies: options.apply_ignore,
        }
    }

    /// The root of the folder, from which it is walked.
    pub(crate) fn root(&self, alloc: Global) -> Decided<'_>
        ensures lines { result.lines ≡ self.now.lines }
        ensures path { result.path ≡ [] }
    {
        self.ignore.at_root(alloc)
    }

    /// Whether what has this path is packed: the lines keep it, or it is that of the ignore file itself or of the bundle's Dockerfile.
    pub(crate) fn packs(&self, at: &Decided<'_>) -> bool
        requires { at.now.lines ≡ self.now.lines }
        ensures { IsTrue result ↔ IsPacked self.now at.now.path }
    {
        self.is_own(at.path()) || at.is_kept()
    }

    /// Whether a path is that of the ignore file, or of the bundle's Dockerfile.
    pub(crate) fn is_own(&self, path: &Path) -> bool
        ensures { result ≡ is_own self.now.dockerfile path.now }
    {
        match path.components() {
            [name] => {
                name.as_str() == IGNORE_FILE || (self.dockerfile && name.as_str() == DOCKERFILE)
            }
            _ => false,
        }
    }

    /// Whether the file of this path is packed with its bytes: each is, or of names alone the ignore file and the bundle's Dockerfile.
    pub(crate) fn has_bytes(&self, path: &Path) -> bool
        ensures { result ≡ has_bytes self.now path.now }
    {
        !self.names || self.is_own(path)
    }

    /// Whether nothing in the folder at this path can be packed, nor the folder itself.
    pub(crate) fn leaves_whole(&self, at: &Decided<'_>) -> bool
        requires { at.now.lines ≡ self.now.lines }
        ensures { IsTrue result → LeavesWhole self.now at.now.path }
    {
        // Where no line is an exception there is no need to try them.
        if self.may_except {
            return !self.is_own(at.path()) && !at.may_keep();
        }
        !self.packs(at)
    }

    /// Whether what is kept and is neither a file nor a folder is passed over.
    pub(crate) fn passes(&self) -> bool
        ensures { result ≡ self.now.pass }
    {
        self.pass
    }

    /// Why such a thing isn't packed, and what helps.
    pub(crate) fn words(&self, is_link: bool) -> &'static str {
        match (is_link, self.applies) {
            (true, true) => LINK_KEPT,
            (true, false) => LINK,
            (false, true) => NO_FILE_KEPT,
            (false, false) => NO_FILE,
        }
    }
}
