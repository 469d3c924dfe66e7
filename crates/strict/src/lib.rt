// Strict reading of JSON, and writing of it, for the crates whose formats are JSON.
//
// What is read is a `Value` of `serde_json`: an object has no other keys than those that its format names, a key may be missing only where
// the format says so, and a list or an object of any keys holds values of one kind. What a format's keys are and what they mean is said by
// the crate that has the format.
//
// The central definitions are in specs/Strict.antt: `strict`, `list_in` and `rows_in`. A reader answers just what the definition gives, and
// `NotRead` just where it gives nothing (`Gives`). `FromJson` and `ToJson` are the kinds of values that are read and written.
//
// ```
// if !is_strict(&value, &["text"]) { return Err(Fault::Because(NotRead)); }
// let text: Text = one_at(alloc, &value, "text")?;
// ```
#![tactic(auto)]

mod fault;
mod reading;
mod writing;

pub use fault::{NotRead, ReadFault};
pub use reading::{
    FromJson, is_among, is_strict, list_at, one_at, read_list, read_path, read_rows,
};
pub use writing::{ToJson, list_to_json, put};
