// Strict reading of JSON that is lent, not owned: for texts so large that a `serde_json::Value` of them would be the most that a program
// holds.
//
// A text is read token by token (`next_key`, `next_text` and their like), which keeps no JSON in memory but gives up where it would have
// to look back; or it is read as a `json::Value`, whose strings are parts of the text, and each reader takes that. What a reader answers
// is said of the data that the value stands for (`data_of` in specs/Seen.antt), and that is the data which `serde_json` reads of the same
// text. So `strict`'s definitions serve here unchanged, and a format has one meaning, whichever way its text is read.
//
// The central definition is `seen`. `FromLent` are the kinds of values that are read, `FromLentKeyed` those in which names are found by a hash, and `Pulls` says what is read of tokens.
//
// ```
// let mut scratch = Scratch::new(alloc);
// let value = read(alloc, text, &mut scratch)?;
// if !is_strict(&value, &["text"]) { return Err(Fault::Because(NotRead)); }
// let text: Text = one_at(alloc, &value, "text")?;
// ```
#![tactic(auto)]

mod lists;
mod looking;
mod numbers;
mod owning;
mod pulling;
mod reading;
mod whole;

pub use lists::{keyed_rows, read_rows};
pub use looking::{at, is_null, is_strict, list_of, text_of};
pub use owning::owned;
pub use pulling::{
    inner_depth, next_flag, next_key, next_number, next_text, open_list, open_object, owned_rows,
    pull_value,
};
pub use reading::{FromLent, FromLentKeyed, keyed_of, one_at, one_of, optional_at, optional_of};
pub use whole::{MAX_DEPTH, read};
