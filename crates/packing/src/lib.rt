// A folder of the machine as a bundle: its Dockerfile and all that lies in it, and images from files.
//
// It is the one crate that reads folders. What the machine gives is in no contract: the walk is thin, and all that it finds goes into a
// `Folder`, of which contracts say what bundle it is. An image is taken as its file has it, once it is known that a bundle takes it. Nothing is
// built here.
//
// Its central definitions are `packed_of` (specs/Packed.antt), the text of the bundle of a folder's tree, `Gathers` (specs/Leaving.antt), what
// stands in that tree by the ignore file, `Finding` and `PacksFolder` (specs/Ends.antt), what was found and how packing it ends, and `image_of`
// (specs/Images.antt), the image that the text of a file gives.
//
// ```
// let status = run_pack(alloc, keys, &rt, "examples/folder", &mut output)?;   // Built, and the bundle with an LF is written
// ```
#![tactic(auto)]

mod asked;
mod even;
mod fault;
mod finding;
mod folder;
mod images;
mod imaging;
mod inspected;
pub mod laws;
mod layout;
mod leaving;
mod members;
mod naming;
mod packing;
mod refusing;
mod shown;
mod walking;

pub use asked::PackOptions;
pub use fault::PackFault;
pub use packing::{packed_text, run_pack, run_pack_to_file, run_pack_with};
