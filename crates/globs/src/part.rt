ghost use Rattle.std.specs.Prelude.{◌≡◌, ◌↔◌, IsTrue, true, IfOk};
ghost use Rattle.std.specs.Str.{chars};
ghost use Rattle.globs.specs.Cut.{CanBeCut};
ghost use Rattle.globs.specs.Component.{takes_any, holds, is_in, HasFront, HasEnd};
ghost use Rattle.globs.specs.PrivateSearch.{IsFound};

use crate::cut::{Fits, Found, from_last_run};
use crate::text::{first_and_rest, last_and_front};
use plain::{Items, Memory, Text};
use std::alloc::Global;

/// The characters from one to another, both included; none where the ends are reversed.
#[derive(Clone, Copy, Debug)]
pub struct Range {
    pub low: char,
    pub high: char,
}

/// A part of a component's pattern.
#[derive(Debug, Drop)]
pub enum Part {
    /// `*`: any run of characters, also an empty one.
    AnyRun,
    /// `?`: one character.
    AnyOne,
    /// This character.
    Exactly(char),
    /// A character in one of the ranges, or, where it is negated, in none of them.
    Class(bool, Items<Range>),
}

impl Fits<char> for Part {
    ghost use Rattle.globs.specs.Component.{takes_any, holds};

    ghost takes_any = { takes_any };

    ghost holds = { holds };

    fn takes_any(&self) -> bool {
        matches!(self, Part::AnyRun)
    }

    fn holds(&self, item: &char) -> bool {
        match self {
            Part::AnyRun => false,
            Part::AnyOne => true,
            Part::Exactly(own) => *own == *item,
            Part::Class(negated, ranges) => is_in(ranges.as_slice(), *item) != *negated,
        }
    }
}

/// Whether a character lies in one of the ranges.
fn is_in(ranges: &[Range], character: char) -> bool
    ensures { result ≡ is_in ranges.now character }
{
    ranges
        .iter()
        .any(|range| range.low <= character && character <= range.high)
}

/// Looks for a cut of a name's characters from the front, as `cut::search` does of a slice: a name isn't copied into one.
fn search(parts: &[Part], name: &str) -> Found
    ensures { IsFound takes_any (λ part c. holds part c ≡ true) result parts.now (chars name.now) }
{
    match parts {
        [] => match first_and_rest(name) {
            None => Found::Yes,
            Some(_) => Found::No,
        },
        [part, rest @ ..] => {
            if !part.takes_any() {
                return match first_and_rest(name) {
                    None => Found::Never,
                    Some((character, tail)) => {
                        if part.holds(&character) {
                            search(rest, tail)
                        } else {
                            Found::No
                        }
                    }
                };
            }
            match rest {
                [] => return Found::Yes,
                [next, ..] => {
                    if next.takes_any() {
                        return search(from_last_run::<char, Part>(rest), name);
                    }
                }
            }
            match search(rest, name) {
                Found::Yes => Found::Yes,
                Found::Never => Found::Never,
                Found::No => match first_and_rest(name) {
                    None => Found::Never,
                    Some((_, tail)) => search(parts, tail),
                },
            }
        }
    }
}

/// Whether a name's characters can be cut so that each part relates to its piece. It compares last characters first, as long as no
/// run stands at the end.
pub(crate) fn name_can_be_cut(parts: &[Part], name: &str) -> bool
    ensures { IsTrue result ↔ CanBeCut takes_any (λ part c. holds part c ≡ true) parts.now (chars name.now) }
{
    match parts {
        [] => first_and_rest(name).is_none(),
        [front @ .., last] => {
            if last.takes_any() {
                matches!(search(parts, name), Found::Yes)
            } else {
                match last_and_front(name) {
                    None => false,
                    Some((character, others)) => last.holds(&character)
                        && name_can_be_cut(front, others),
                }
            }
        }
    }
}

/// The text that parts begin with: their characters before the first sign.
pub(crate) fn plain_front(alloc: Global, parts: &[Part]) -> Result<Text, Memory>
    ensures { IfOk result (λ front. HasFront parts.now front) }
{
    let mut front = String::new(alloc);
    for part in parts {
        match part {
            Part::Exactly(character) => front.push(*character)?,
            Part::AnyRun | Part::AnyOne | Part::Class(_, _) => break,
        }
    }
    Text::from_str(alloc, front.as_str())
}

/// The text that parts end with: their characters behind the last sign.
pub(crate) fn plain_end(alloc: Global, parts: &[Part]) -> Result<Text, Memory>
    ensures { IfOk result (λ end. HasEnd parts.now end) }
{
    let mut end = String::new(alloc);
    for part in parts {
        match part {
            Part::Exactly(character) => end.push(*character)?,
            Part::AnyRun | Part::AnyOne | Part::Class(_, _) => end.clear(),
        }
    }
    Text::from_str(alloc, end.as_str())
}
