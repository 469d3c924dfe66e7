// Words of a Dockerfile that are expanded: how a text is read as one, and its value under a scope.
//
// It knows no instruction and no scope: what gives a name its value is a trait, `Lookup`, and the crates above say which
// texts are expanded, and with which scope.
//
// The central definitions are `IsWord` in specs/Word.antt, by which a text is scanned (which characters are active) and
// what is left is read by the syntax in specs/Syntax.antt, and `value` in specs/Value.antt, which joins the values of a
// word's parts; `refusal` beside it says with which text a word is refused since a variable is required. `unexpanded` in
// specs/Expanding.antt puts both under the limit of a text.
//
// Why a line is refused whose texts are expanded is a `Reason`: a code, or R21 with such a text.
//
// ```
// let word = Word::read(alloc, Kind::Quoted, Escape::Backslash, "${name:-'a b'}/c")?;
// expand(alloc, &word, &scope)?                  // "a b/c" where name is unset or empty
// ```
#![tactic(auto)]

mod character;
mod copied;
mod expanding;
mod fault;
mod form;
mod kind;
pub mod laws;
mod lookup;
mod operator;
mod output;
mod reading;
mod reason;
mod scan;
mod state;
mod token;
mod word;

pub use copied::Copied;
pub use expanding::{expand, expand_next};
pub use fault::{ExpandFault, Unexpanded};
pub use kind::Kind;
pub use lookup::Lookup;
pub use reason::{Reason, ReasonFault, Rejection, RejectionFault};
pub use word::Word;
