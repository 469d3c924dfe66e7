// How the arguments of an instruction are cut: into flags, into words, into a name and a value, or as a list in JSON.
//
// It knows no instruction and gives a text no value: words are kept as they are written, with their quotes and escape characters, and the
// crates above say which of them are expanded and what a flag means.
//
// The central definition is `IsMadeOf` in specs/Parts.antt: a text is a list of parts, each a blank, a character that stands for itself,
// an escaped character or a quoted run, so that the parts obey the rules and are written as the text. There is just one such list, and the
// words (specs/Cutting.antt) are its runs between blanks. Of the characters before one the code keeps no more than whether they left a
// quote open or an escape character that acts: `QuoteState`, which the crates above use too.
//
// ```
// split(alloc, Escape::Backslash, "a 'b c' \\ d")?        // "a", "'b c'", "\\ d"
// flags(alloc, "--from=x --link a b")?                    // from=x and link, and "a b" is left
// json_form(alloc, "[\"a\", \"b c\"]")?                   // "a", "b c"
// ```
#![tactic(auto)]

mod class;
mod cutting;
mod fault;
mod flag;
mod form;
pub mod laws;
mod pairs;
mod quote;

pub use class::Class;
pub use cutting::{closed, split};
pub use fault::TextFault;
pub use flag::{Flag, flags};
pub use form::json_form;
pub use pairs::{label_pair, pair};
pub use quote::QuoteState;
