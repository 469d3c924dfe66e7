// Where bytes that are no bundle are wrong.
//
// A build refuses such bytes with one code, R20. `find` says in what they are wrong: in how many there are, in the text, in the JSON, or at a place in
// it, by the way of keys and of places in lists to the innermost value that isn't what has to stand there. `place_text` writes that for a person.
// The crate makes nothing of a bundle, and each value is looked through once on the way down.
//
// The central definition is `flaw_in` in specs/Flaws.antt, and the law `a_bundle_has_no_flaw` ties it to the bundles that are read.
//
// ```
// let flaw = find::<Config>(alloc, keys, bytes)?;  // of {"dockerfile":{"text":""},"context":[{"path":"/a","text":"","mode":"rw"}]}
// place_text(alloc, &flaw)?                        // .context[0].mode
// ```
#![tactic(auto)]

mod entry;
mod flaw;
mod keys;
mod kinds;
pub mod laws;
mod looking;
mod placing;
mod whole;

pub use flaw::{Flaw, Step};
pub use placing::place_text;
pub use whole::find;
