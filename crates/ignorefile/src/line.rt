ghost use Rattle.std.specs.Prelude.{◌≡◌, ◌↔◌, IsTrue, IfSome};
ghost use Rattle.std.specs.List.{list_any};
ghost use Rattle.ignorefile.specs.Line.{Relates, is_deep};
ghost use Rattle.ignorefile.specs.PrivateLeft.{IsDeadIn};
ghost use Rattle.ignorefile.specs.PrivateWalk.{may_except_below, may_reach};
ghost use Rattle.ignorefile.specs.PrivateRanks.{EndsIn, LastBegins, LastEnds, LiesIn, HasCount, TakesOnly, TakesBeginning, TakesEnding};

use globs::{Component, Fits, can_be_cut};
use plain::{Items, Text};

/// A segment of a line's pattern.
#[derive(Debug, Drop)]
pub enum Segment {
    /// `**`: any names, also none.
    Deep,
    /// One name that this pattern relates to.
    Named(Component),
}

impl Fits<Text> for Segment {
    ghost use Rattle.ignorefile.specs.Line.{is_deep, holds};

    ghost takes_any = { is_deep };

    ghost holds = { holds };

    fn takes_any(&self) -> bool {
        matches!(self, Segment::Deep)
    }

    fn holds(&self, item: &Text) -> bool {
        match self {
            Segment::Deep => false,
            Segment::Named(component) => component.matches(item),
        }
    }
}

impl Segment {
    /// The name that the segment takes alone, where it is a plain one.
    fn only_name(&self) -> Option<&str>
        ensures { IfSome result (λ name. TakesOnly self.now name.now) }
    {
        match self {
            Segment::Deep => None,
            Segment::Named(component) => component.plain_name(),
        }
    }

    /// The byte that each name begins with which the segment takes, where its pattern begins with a plain text and has nothing or a `*`
    /// behind it.
    fn first_byte(&self) -> Option<u8>
        ensures { IfSome result (λ byte. TakesBeginning self.now byte) }
    {
        match self {
            Segment::Deep => None,
            Segment::Named(component) => component.first_byte(),
        }
    }

    /// The byte that each name ends with which the segment takes, where its pattern ends in a plain text.
    fn last_byte(&self) -> Option<u8>
        ensures { IfSome result (λ byte. TakesEnding self.now byte) }
    {
        match self {
            Segment::Deep => None,
            Segment::Named(component) => component.last_byte(),
        }
    }
}

/// Whether segments may relate to paths that lie below this one: those that take its names leave some, or there is a `**` among them.
fn may_reach(segments: &[Segment], names: &[Text]) -> bool
    ensures { result ≡ may_reach segments.now names.now }
{
    match segments {
        [] => false,
        [segment, later @ ..] => match names {
            [] => true,
            [name, below @ ..] => {
                segment.takes_any() || (segment.holds(name) && may_reach(later, below))
            }
        },
    }
}

/// Whether a segment is `**`.
fn has_deep(segments: &[Segment]) -> bool
    ensures { result ≡ list_any (λ segment. is_deep segment) segments.now }
{
    segments.iter().any(|segment| segment.takes_any())
}

/// A line of an ignore file that has a pattern.
#[derive(Debug, Drop)]
pub struct Line {
    /// Whether it keeps what it relates to, as it begins with `!`.
    pub exception: bool,
    /// Its pattern.
    pub segments: Items<Segment>,
}

impl Line {
    /// Whether the line's pattern relates to just this path, given by its names.
    pub(crate) fn relates(&self, names: &[Text]) -> bool
        ensures { IsTrue result ↔ Relates self.now names.now }
    {
        can_be_cut(self.segments.as_slice(), names)
    }

    /// Whether a folder's names show that the line relates to no path right in it: its last segment takes one name, and those before it
    /// don't relate to the folder.
    pub(crate) fn is_dead_in(&self, folder: &[Text]) -> bool
        ensures { IsTrue result → IsDeadIn self.now folder.now }
    {
        match self.segments.as_slice() {
            [] => false,
            [front @ .., last] => !last.takes_any() && !can_be_cut(front, folder),
        }
    }

    /// Whether the line is an exception that may relate to paths below this one.
    pub(crate) fn may_except_below(&self, names: &[Text]) -> bool
        ensures { result ≡ may_except_below names.now self.now }
    {
        self.exception && may_reach(self.segments.as_slice(), names)
    }

    /// The name that each path which the line relates to ends in, where its pattern ends in a plain name.
    pub(crate) fn last_name(&self) -> Option<&str>
        ensures { IfSome result (λ name. EndsIn self.now name.now) }
    {
        match self.segments.as_slice() {
            [] => None,
            [.., last] => last.only_name(),
        }
    }

    /// The byte that the last name begins with of each path which the line relates to, where the line's pattern ends in a plain text, or
    /// in one and a `*`.
    pub(crate) fn last_begin(&self) -> Option<u8>
        ensures { IfSome result (λ byte. LastBegins self.now byte) }
    {
        match self.segments.as_slice() {
            [] => None,
            [.., last] => last.first_byte(),
        }
    }

    /// The byte that the last name ends with of each path which the line relates to, where the line's pattern ends in a plain text.
    pub(crate) fn last_end(&self) -> Option<u8>
        ensures { IfSome result (λ byte. LastEnds self.now byte) }
    {
        match self.segments.as_slice() {
            [] => None,
            [.., last] => last.last_byte(),
        }
    }

    /// The name of the folder that each path lies right in which the line relates to, where that is a plain one.
    pub(crate) fn folder_name(&self) -> Option<&str>
        ensures { IfSome result (λ name. LiesIn self.now name.now) }
    {
        match self.segments.as_slice() {
            [.., folder, last] => {
                if last.takes_any() {
                    return None;
                }
                folder.only_name()
            }
            _ => None,
        }
    }

    /// How many names each path has that the line relates to, where no segment is `**`.
    pub(crate) fn count(&self) -> Option<usize>
        ensures { IfSome result (λ count. HasCount self.now count) }
    {
        let segments = self.segments.as_slice();
        if has_deep(segments) {
            return None;
        }
        Some(segments.len())
    }
}
