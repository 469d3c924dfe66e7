ghost use Rattle.std.specs.Prelude.{◌≡◌, ◌+◌, ◌-◌, ◌<◌, ◌≤◌, ◌++◌, ℕ, List, [], true, IsTrue, min, length, take, get_or};
ghost use Rattle.std.specs.List.{list_all};
ghost use Rattle.trees.specs.Rows.{lent_names};
ghost use Rattle.entries.specs.PrivateFront.{HoldsNames};
ghost use Rattle.quoted.specs.Plain.{is_plain};

use crate::pieces::{ModeAndFront, write_at};
use plain::{Mode, Text};
use quoted::is_plain;

/// How many bytes of a path's text are held. Few paths are longer.
const ROOM: usize = 4096;

/// One more than the names whose text is held at most.
const ENDS: usize = 65;

/// The text of the first names of a path, each behind its `/`, as far as they have room and stand for themselves in a JSON string.
///
/// As a walk goes on, the text of the folder's path is cut off where that folder's names end, and a name is added: so no name on the way is
/// said anew for each entry. What isn't held is said name by name.
#[derive(Drop)]
pub(crate) struct PathFront {
    text: [u8; ROOM],
    /// Where the text of no name ends, and that of the first, of the first two and so on.
    ends: [usize; ENDS],
    /// How many names are held.
    names: usize,
}

impl PathFront {
    /// The front of the root's path.
    pub(crate) fn none() -> PathFront
        ensures none { result.names ≡ 0 }
        ensures holds { HoldsNames [] 0 result }
    {
        PathFront {
            text: [0; ROOM],
            ends: [0; ENDS],
            names: 0,
        }
    }

    /// Holds what has room of a path, given that it holds names of it.
    pub(crate) fn hold(&mut self, names: &[&Text])
        requires { HoldsNames (lent_names names.now) self.old.names self.old }
        ensures { HoldsNames (lent_names names.now) self.new.names self.new }
    {
        for tried in 0..names.len() {
            if self.names < names.len() {
                self.add(names);
            }
        }
    }

    /// Goes on to a path, given that names are held of that of its folder.
    pub(crate) fn go_to(&mut self, names: &[&Text])
        requires { HoldsNames (lent_names names.now) (min self.old.names (length names.now - 1)) self.old }
        ensures { HoldsNames (lent_names names.now) self.new.names self.new }
    {
        self.names = self.names.min(names.len().saturating_sub(1));
        if self.names + 1 == names.len() {
            self.add(names);
        }
    }

    /// How many names are held.
    pub(crate) fn names(&self) -> usize
        ensures { result ≡ self.now.names }
    {
        self.names
    }

    /// What is held of a path of these names, behind an entry's mode.
    pub(crate) fn behind_mode(&self, mode: Mode) -> ModeAndFront<'_>
        requires { (names : List (List ℕ)) × HoldsNames names self.now.names self.now }
        ensures mode { result.mode ≡ mode }
        ensures text { result.text.now ≡ self.now.text }
        ensures size { result.size ≡ get_or self.now.ends self.now.names 0 }
    {
        ModeAndFront {
            mode,
            text: &self.text,
            size: self.ends[self.names],
        }
    }

    /// Adds the next name of a path, if it has room and stands for itself.
    fn add(&mut self, names: &[&Text])
        requires more { self.old.names < length names.now }
        requires holds { HoldsNames (lent_names names.now) self.old.names self.old }
        ensures { HoldsNames (lent_names names.now) self.new.names self.new }
    {
        let name = names[self.names].as_str().as_bytes();
        let begin = self.ends[self.names];
        if self.names + 1 == ENDS || name.len() >= ROOM - begin {
            return;
        }
        write_at(&mut self.text, begin, b"/");
        if write_plain(&mut self.text, begin + 1, name) {
            self.names += 1;
            self.ends[self.names] = begin + 1 + name.len();
        }
    }
}

/// Writes bytes over those at a place of a text, as long as they stand for themselves in a JSON string, and tells whether all do.
fn write_plain(text: &mut [u8], at: usize, bytes: &[u8]) -> bool
    requires { at + length bytes.now ≤ length text.old }
    ensures plain { IsTrue result → list_all is_plain bytes.now ≡ true }
    ensures whole { IsTrue result → take (at + length bytes.now) text.new ≡ take at text.old ++ bytes.now }
    ensures before { take at text.new ≡ take at text.old }
    ensures long { length text.new ≡ length text.old }
{
    for i in 0..bytes.len() {
        let byte = bytes[i];
        if !is_plain(byte) {
            return false;
        }
        text[at + i] = byte;
    }
    true
}
