ghost use Rattle.std.specs.Prelude.{◌≡◌, ◌↔◌, ℕ, IsTrue, List, [], ◌∷◌, ◌++◌, Some, IfOk, IfSome};
ghost use Rattle.std.specs.Str.{chars};
ghost use Rattle.globs.specs.Component.{RelatesToName, relates_to_name, plain_parts, RelatesOnlyTo, IsOnlyName, HasFront, BeginsWith, HasEnd, EndsWith};
ghost use Rattle.globs.specs.Grammar.{is_spelled_out};
ghost use Rattle.globs.specs.PrivateShape.{ending_parts, beginning_parts};
ghost use Rattle.globs.specs.Reading.{parts_of};

use crate::part::{Part, name_can_be_cut, plain_end, plain_front};
use crate::reading::read_parts;
use crate::text::{first_and_rest, last_and_front};
use plain::{Items, Memory, Text};
use std::alloc::Global;
use std::marker::Model;

/// The pattern of one component of a path: contracts see the list of its parts.
#[derive(Debug, Drop)]
pub struct Component {
    /// What each name that it relates to begins with.
    front: Text,
    shape: Shape,
}

/// How a component's pattern is kept. Most are plain names, or have a `*` before or behind a plain text alone: these are compared by their
/// bytes.
#[derive(Debug, Drop)]
pub(crate) enum Shape {
    /// Just the name that stands in front.
    Plain,
    /// A `*`, and this text behind it.
    Ending(Text),
    /// The text that stands in front, and a `*` behind it.
    Beginning,
    /// These parts, and what each name ends with that they relate to.
    Parts(Items<Part>, Text),
}

impl Model for Component {
    ghost use Rattle.std.specs.Prelude.{List};
    ghost use Rattle.globs.specs.declared.part.Part.{Part};
    ghost use Rattle.globs.specs.Component.{HasFront, HasEnd};
    ghost use Rattle.globs.specs.PrivateShape.{parts_in, ending_in};

    ghost Value = { List Part };

    ghost view = { λ c. parts_in c.front c.shape };

    ghost invariant = { λ c. HasFront (parts_in c.front c.shape) c.front × HasEnd (parts_in c.front c.shape) (ending_in c.front c.shape) };
}

/// Whether a pattern's text is spelled out: it has none of the signs `*`, `?`, `[` and `\`. Then it relates to the one path that it reads
/// as, and whoever looks for that need not go through all paths that there are.
pub fn is_spelled_out(text: &str) -> bool
    ensures { result ≡ is_spelled_out (chars text.now) }
{
    let mut left = text;
    while let Some((character, rest)) = first_and_rest(left) {
        if matches!(character, '*' | '?' | '[' | '\\') {
            return false;
        }
        left = rest;
    }
    true
}

/// Whether a name is the one that a plain pattern stands for.
fn is_name(own: &str, name: &str) -> bool
    ensures { IsTrue result ↔ RelatesToName (plain_parts own.now) name.now }
{
    own == name
}

/// Whether a name is one that a `*` and this text behind it stand for.
fn is_ending(own: &str, name: &str) -> bool
    ensures { IsTrue result ↔ RelatesToName (ending_parts own.now) name.now }
{
    name.ends_with(own)
}

/// Whether a name is one that this text and a `*` behind it stand for.
fn is_beginning(own: &str, name: &str) -> bool
    ensures { IsTrue result ↔ RelatesToName (beginning_parts own.now) name.now }
{
    name.starts_with(own)
}

/// Whether a name ends with a text.
fn has_end(end: &str, name: &str) -> bool
    ensures { IsTrue result ↔ ((front : List ℕ) × (name.now ≡ front ++ end.now)) }
{
    name.ends_with(end)
}

/// What stands behind the `*` that a pattern's text begins with, where that is spelled out; none for others.
fn plain_ending(text: &str) -> Option<&str>
    ensures { IfSome result (λ rest. parts_of (chars text.now) ≡ Some (ending_parts rest.now)) }
{
    match first_and_rest(text) {
        Some((character, rest)) => {
            if character == '*' && is_spelled_out(rest) {
                return Some(rest);
            }
            None
        }
        None => None,
    }
}

/// What stands before the `*` that a pattern's text ends in, where that is spelled out; none for others.
fn plain_beginning(text: &str) -> Option<&str>
    ensures { IfSome result (λ front. parts_of (chars text.now) ≡ Some (beginning_parts front.now)) }
{
    match last_and_front(text) {
        Some((character, front)) => {
            if character == '*' && is_spelled_out(front) {
                return Some(front);
            }
            None
        }
        None => None,
    }
}

/// The byte that a text begins with; none where it is empty.
fn first_byte(text: &str) -> Option<u8>
    ensures { IfSome result (λ byte. (rest : List ℕ) × (text.now ≡ byte ∷ rest)) }
{
    match text.as_bytes() {
        [] => None,
        [byte, ..] => Some(*byte),
    }
}

/// The byte that a text ends with; none where it is empty.
fn last_byte(text: &str) -> Option<u8>
    ensures { IfSome result (λ byte. (front : List ℕ) × (text.now ≡ front ++ byte ∷ [])) }
{
    match text.as_bytes() {
        [] => None,
        [.., byte] => Some(*byte),
    }
}

impl Component {
    /// The pattern that a component's text spells; none where it is malformed. The text has no `/`, else it relates to no name.
    pub fn read(alloc: Global, text: &str) -> Result<Option<Component>, Memory>
        ensures { IfOk result (λ found. found ≡ parts_of (chars text.now)) }
    {
        if is_spelled_out(text) {
            let front = Text::from_str(alloc, text)?;
            return Ok(Some(Component {
                front,
                shape: Shape::Plain,
            }));
        }
        if let Some(ending) = plain_ending(text) {
            let front = Text::from_str(alloc, "")?;
            let own = Text::from_str(alloc, ending)?;
            // What `as_str` says of it: the ending is text.
            let _ending = own.as_str();
            return Ok(Some(Component {
                front,
                shape: Shape::Ending(own),
            }));
        }
        if let Some(beginning) = plain_beginning(text) {
            let front = Text::from_str(alloc, beginning)?;
            // What `as_str` says of it: the front is text.
            let _text = front.as_str();
            return Ok(Some(Component {
                front,
                shape: Shape::Beginning,
            }));
        }
        match read_parts(alloc, text)? {
            Some(parts) => {
                let front = plain_front(alloc, parts.as_slice())?;
                let end = plain_end(alloc, parts.as_slice())?;
                Ok(Some(Component {
                    front,
                    shape: Shape::Parts(parts, end),
                }))
            }
            None => Ok(None),
        }
    }

    /// Whether the pattern relates to a name. It takes no memory.
    pub fn matches(&self, name: &Text) -> bool
        ensures { result ≡ relates_to_name self.now name.now }
    {
        match &self.shape {
            Shape::Plain => is_name(self.front.as_str(), name.as_str()),
            Shape::Ending(own) => is_ending(own.as_str(), name.as_str()),
            Shape::Beginning => is_beginning(self.front.as_str(), name.as_str()),
            // Most names have another end, which is seen at once.
            Shape::Parts(parts, end) => {
                has_end(end.as_str(), name.as_str())
                    && name_can_be_cut(parts.as_slice(), name.as_str())
            }
        }
    }

    /// The name that the pattern stands for, where it has no sign of patterns; none for others, also where they relate to one name alone.
    /// Whoever has a folder's names in order looks for it, and need not go through them.
    pub fn spelled_name(&self) -> Option<&Text>
        ensures { IfSome result (λ name. RelatesOnlyTo self.now name.now) }
    {
        match &self.shape {
            Shape::Plain => {
                // What `as_str` says of it: the name is text.
                let _text = self.front.as_str();
                Some(&self.front)
            }
            Shape::Ending(_) | Shape::Beginning | Shape::Parts(_, _) => None,
        }
    }

    /// The one name that the pattern relates to, where it has no sign of patterns; none for others, also where they relate to one name.
    pub fn plain_name(&self) -> Option<&str>
        ensures { IfSome result (λ name. IsOnlyName self.now name.now) }
    {
        match self.spelled_name() {
            Some(name) => Some(name.as_str()),
            None => None,
        }
    }

    /// What each name begins with that the pattern relates to: the characters before its first sign, and those that are escaped among
    /// them. It is empty where nothing is known, as behind a `*`. Whoever has a folder's names in order begins at the first that isn't
    /// before it, and ends where one doesn't begin with it. The contract doesn't say how much is known.
    pub fn front(&self) -> &Text
        ensures { HasFront self.now result.now }
    {
        &self.front
    }

    /// The byte that each name begins with which the pattern relates to, where the pattern begins with a plain text and has nothing or a
    /// `*` behind it; none for others, also where their names begin alike. The contract says what the byte is, and not when there is one.
    pub fn first_byte(&self) -> Option<u8>
        ensures { IfSome result (λ byte. BeginsWith self.now byte) }
    {
        match &self.shape {
            Shape::Plain | Shape::Beginning => first_byte(self.front().as_str()),
            Shape::Ending(_) | Shape::Parts(_, _) => None,
        }
    }

    /// What each name ends with that the pattern relates to, as far as it is known.
    fn ending(&self) -> &str
        ensures { HasEnd self.now result.now }
    {
        match &self.shape {
            Shape::Plain => self.front.as_str(),
            Shape::Ending(own) => own.as_str(),
            Shape::Beginning => "",
            Shape::Parts(_, end) => end.as_str(),
        }
    }

    /// The byte that each name ends with which the pattern relates to, where the pattern ends in a plain text; none for others. Whoever
    /// compares many patterns with a name passes by most of them so. The contract says what the byte is, and not when there is one.
    pub fn last_byte(&self) -> Option<u8>
        ensures { IfSome result (λ byte. EndsWith self.now byte) }
    {
        last_byte(self.ending())
    }
}
