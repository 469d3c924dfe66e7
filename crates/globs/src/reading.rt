ghost use Rattle.std.specs.Prelude.{◌≡◌, IfOk, OnOk};
ghost use Rattle.std.specs.Str.{chars};
ghost use Rattle.globs.specs.Reading.{parts_of, start, finished, outside, opened, low, dashed, with_range};
ghost use Rattle.globs.specs.PrivateReading.{Goes, Steps, StepsBetween};
ghost use Rattle.globs.specs.declared.reading.State.TheVariants.{Between};

use crate::part::{Part, Range};
use crate::sign::{Sign, sign_of};
use crate::text::first_and_rest;
use plain::{Items, Memory};
use std::alloc::Global;

/// Where a reading is.
#[derive(Clone, Copy, Debug)]
pub(crate) enum State {
    /// Outside of classes, where a part may begin.
    Outside,
    /// Behind a `\` outside of classes.
    Escaped,
    /// Right behind the `[` of a class.
    Opened,
    /// In a class, where an item may begin.
    Between,
    /// Behind a `\` where an item of a class begins.
    EscapedLow,
    /// Behind a first character of an item.
    Low(char),
    /// Behind the `-` of a range that begins with this character.
    Dash(char),
    /// Behind a `\` at the high end of such a range.
    EscapedHigh(char),
}

/// What was read of a component so far: its whole parts, and of a class that isn't closed yet whether it is negated and its items.
#[derive(Drop)]
pub(crate) struct Reading {
    pub(crate) parts: Items<Part>,
    pub(crate) negated: bool,
    pub(crate) ranges: Items<Range>,
    pub(crate) state: State,
}

impl Reading {
    fn start(alloc: Global) -> Reading
        ensures { result ≡ start }
    {
        Reading {
            parts: Items::new(alloc),
            negated: false,
            ranges: Items::new(alloc),
            state: State::Outside,
        }
    }

    /// Goes on by one character; answers false where none of its kind may stand.
    fn step(&mut self, alloc: Global, character: char) -> Result<bool, Memory>
        ensures { IfOk result (λ fine. Steps self.old self.new character fine) }
    {
        let sign = sign_of(character);
        match self.state {
            State::Outside => {
                self.step_outside(sign, character)?;
                Ok(true)
            }
            State::Escaped => {
                self.parts.push(Part::Exactly(character))?;
                self.state = State::Outside;
                Ok(true)
            }
            State::Opened => self.step_opened(alloc, sign, character),
            State::Between => self.step_between(alloc, sign, character),
            State::EscapedLow => {
                self.state = State::Low(character);
                Ok(true)
            }
            State::Low(first) => self.step_low(alloc, first, sign, character),
            State::Dash(first) => self.step_dashed(first, sign, character),
            State::EscapedHigh(first) => {
                self.end_range(first, character)?;
                Ok(true)
            }
        }
    }

    /// Goes on by one character right behind the `[` of a class; answers false where none of its kind may stand.
    fn step_opened(&mut self, alloc: Global, sign: Sign, character: char) -> Result<bool, Memory>
        ensures { IfOk result (λ fine. Goes (opened self.old sign character) self.new fine) }
    {
        match sign {
            Sign::Caret => {
                self.negated = true;
                self.state = State::Between;
                Ok(true)
            }
            _ => self.step_between(alloc, sign, character),
        }
    }

    /// Goes on by one character behind the first of an item; answers false where none of its kind may stand.
    fn step_low(
        &mut self,
        alloc: Global,
        first: char,
        sign: Sign,
        character: char,
    ) -> Result<bool, Memory>
        ensures { IfOk result (λ fine. Goes (low self.old first sign character) self.new fine) }
    {
        match sign {
            Sign::Hyphen => {
                self.state = State::Dash(first);
                Ok(true)
            }
            _ => {
                self.ranges.push(Range {
                    low: first,
                    high: first,
                })?;
                self.step_between(alloc, sign, character)
            }
        }
    }

    /// Goes on by one character behind the `-` of a range; answers false where none of its kind may stand.
    fn step_dashed(&mut self, first: char, sign: Sign, character: char) -> Result<bool, Memory>
        ensures { IfOk result (λ fine. Goes (dashed self.old first sign character) self.new fine) }
    {
        match sign {
            Sign::Backslash => {
                self.state = State::EscapedHigh(first);
                Ok(true)
            }
            Sign::Hyphen | Sign::Close => Ok(false),
            _ => {
                self.end_range(first, character)?;
                Ok(true)
            }
        }
    }

    /// Ends a range: behind it another item may begin.
    fn end_range(&mut self, low: char, high: char) -> Result<(), Memory>
        ensures { OnOk result (self.new ≡ with_range self.old low high Between) }
    {
        self.ranges.push(Range { low, high })?;
        self.state = State::Between;
        Ok(())
    }

    /// Goes on by one character outside of classes.
    fn step_outside(&mut self, sign: Sign, character: char) -> Result<(), Memory>
        ensures { OnOk result (self.new ≡ outside self.old sign character) }
    {
        match sign {
            Sign::Star => {
                self.parts.push(Part::AnyRun)?;
                self.state = State::Outside;
            }
            Sign::Question => {
                self.parts.push(Part::AnyOne)?;
                self.state = State::Outside;
            }
            Sign::Backslash => self.state = State::Escaped,
            Sign::Open => self.state = State::Opened,
            _ => {
                self.parts.push(Part::Exactly(character))?;
                self.state = State::Outside;
            }
        }
        Ok(())
    }

    /// Goes on by one character in a class, where an item may begin; answers false where none of its kind may stand.
    fn step_between(&mut self, alloc: Global, sign: Sign, character: char) -> Result<bool, Memory>
        ensures { IfOk result (λ fine. StepsBetween self.old self.new sign character fine) }
    {
        match sign {
            Sign::Backslash => {
                self.state = State::EscapedLow;
                Ok(true)
            }
            Sign::Hyphen => Ok(false),
            Sign::Close => {
                if self.ranges.is_empty() {
                    return Ok(false);
                }
                let ranges = std::mem::replace(&mut self.ranges, Items::new(alloc));
                self.parts.push(Part::Class(self.negated, ranges))?;
                self.negated = false;
                self.state = State::Outside;
                Ok(true)
            }
            _ => {
                self.state = State::Low(character);
                Ok(true)
            }
        }
    }

    /// The parts that were read, if the text may end here.
    fn finish(self) -> Option<Items<Part>>
        ensures { result ≡ finished self }
    {
        match self.state {
            State::Outside => Some(self.parts),
            _ => None,
        }
    }
}

/// The parts that a component's text spells; none where it is malformed.
pub(crate) fn read_parts(alloc: Global, text: &str) -> Result<Option<Items<Part>>, Memory>
    ensures { IfOk result (λ found. found ≡ parts_of (chars text.now)) }
{
    let mut reading = Reading::start(alloc);
    let mut left = text;
    while let Some((character, rest)) = first_and_rest(left) {
        if !reading.step(alloc, character)? {
            return Ok(None);
        }
        left = rest;
    }
    Ok(reading.finish())
}
