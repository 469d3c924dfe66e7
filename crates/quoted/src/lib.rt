// Texts as they stand in a JSON string, said piece by piece.
//
// A text that is written as JSON may be long, and be in memory already. `put_text` says it between quotes that its caller says, so that a
// string can be said of several texts that are never joined; `put_quoted` says a whole string. Neither takes memory. What is said goes to where
// `counted` gathers it.
//
// The crate knows no values, lists and objects: what stands around a string is said by the crates above. The central definition is `escape` of
// the kit's `json`.
//
// ```
// gather(output, gathered, b"\"");
// put_text(output, gathered, name);
// gather(output, gathered, b"=");
// put_text(output, gathered, value);
// gather(output, gathered, b"\"");          // "NAME=VALUE", with what has to be escaped
// ```
#![tactic(auto)]

mod quoting;

pub use quoting::{is_plain, put_quoted, put_text};
