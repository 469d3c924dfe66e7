use crate::operator::{Operator, Test};
use plain::Text;

/// A piece of a word as it is kept: words within a word aren't nested, but stand between an opening and its close. So a
/// word is read, kept, expanded and dropped by going along a list, however deep its words nest.
#[derive(Debug, Drop)]
pub enum Token {
    /// Plain text.
    Plain(Text),
    /// A variable, `$v` or `${v}`.
    Variable(Text),
    /// A variable whose word follows, up to the close that belongs to it.
    Open(Operator, Test, Text),
    /// The end of the word that was opened last.
    Close,
}
