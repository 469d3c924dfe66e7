// The images that the stages of a bundle's Dockerfile name: on which lines, and which of them the target needs.
//
// A front end fetches images before it builds, so a bundle need not bring them here: stubs stand for those that it lacks (`stubs`). The crate
// fetches no image, evaluates no stage and knows no graph; to which platform a name belongs is the caller's.
//
// The central definitions are `images_of` in specs/Images.antt, the images of a table's stages, and `TellsImages` in specs/Telling.antt, what is
// told of a bundle's bytes. `laws` says of the first that these are just the images of the stages.
//
// ```
// let text = list_images(alloc, keys, rt, bundle, "linux/amd64")?;     // FROM golang:1.22 AS a; FROM alpine; COPY --from=golang:1.22 /x /x
// // {"lines":[1,3],"name":"golang:1.22","needed":true,"platform":"linux/amd64"}
// // {"lines":[2],"name":"alpine","needed":true,"platform":"linux/amd64"}
// ```
#![tactic(auto)]

mod collecting;
mod image_rows;
pub mod laws;
mod listing;
mod writing;

pub use listing::list_images;
