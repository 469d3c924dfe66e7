use plain::{Items, Text};

/// A step on the way into a JSON value.
#[derive(Drop)]
pub enum Step {
    /// The key of an object.
    Key(Text),
    /// A place in a list, counted from 0.
    Item(usize),
}

/// Where bytes are wrong that are no bundle.
#[derive(Drop)]
pub enum Flaw {
    /// There are more than a bundle may have.
    TooLong,
    /// They aren't UTF-8: so many bytes at the beginning are.
    NoText(usize),
    /// They aren't JSON, or nested too deep, or a number in them is out of range.
    NoJson,
    /// The way to the innermost value that isn't what has to stand there. If it is a key that is missing or isn't known, the way ends in it.
    At(Items<Step>),
}
