// The images that a Dockerfile names and its bundle lacks, and what may stand for each of them: an empty tree and the plain configuration.
//
// A name is one that the Dockerfile asks for with the values of its variables, so no stage above has it. The crate says what a bundle is with
// its stubs, and not who may ask for them: a build with a stub for its base builds something else. It reads no bundle and shows nothing.
//
// The central definition is `HoldsBy` in specs/Stubbing.antt: what holds of a bundle, or of it with its stubs. specs/Naming.antt has the names.
//
// ```
// let lacked = missing_images(alloc, keys, &bundle)?;      // of FROM golang:$V AS a, and of COPY --from=a /x /x: golang:1.22 on line 2
// let names = each_once(alloc, keys, lacked.as_slice())?;
// let bundle = stub_for(alloc, keys, bundle, true)?;       // it has a golang:1.22 without files
// ```
#![tactic(auto)]

pub mod laws;
mod naming;
mod stubbing;

pub use naming::{each_once, missing_images, named_images};
pub use stubbing::stub_for;
