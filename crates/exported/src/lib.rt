// A plan as BuildKit has it: a definition of LLB.
//
// Each vertex of a graph is an operation here, or the tree of another vertex: a source, a folder that is made, a COPY, a command with its mounts,
// a merge; and there is the end, which names the result. A call for one operation is given what the vertex holds and where the trees of its
// inputs are: the digest of an operation, or none for the empty tree, which no operation makes. `export` goes over a whole plan: it gives each
// operation once, and the end, and says of each what an engine has to be capable of, and what progress is to call it. Where in a file it stands
// isn't said.
//
// The central definition is `exported` in specs/Exporting.antt, over `vertex_made` in specs/Making.antt and those of each kind: `copied` in
// specs/Files.antt, `exec_of` in specs/Commands.antt. They speak of inputs by the numbers of specs/Places.antt. What is said of an operation is
// `metadata_of` in specs/Metadata.antt, over `kind_caps` in specs/Capabilities.antt. What BuildKit is told of a pattern is `source_path` in
// specs/Patterns.antt, of an image `pinned_name` in specs/Names.antt, and of files that are left out `exclude_list` in specs/Excluding.antt.
// Bytes are the matter of `llbmessages`.
//
// ```
// let op = make_dir_op(alloc, &platform, &places, &path)?;      // FROM a, WORKDIR /app: mkdir on the one input
// let names = [None, None, Some("[build 2/2] RUN make")];       // of lines 0, 1 and 2
// let bytes = export(alloc, &plan, &options, &names)?;          // or Clash(7): vertex 7 has the digest of another operation
// ```
#![tactic(auto)]

mod capabilities;
mod chains;
mod commands;
mod draft;
mod excluding;
mod exporting;
mod fault;
mod files;
mod following;
pub mod laws;
mod making;
mod merges;
mod metadata;
mod names;
mod operations;
mod ops;
mod patterns;
mod places;
mod sources;

pub use chains::chain_op;
pub use commands::exec_op;
pub use excluding::exclude_list;
pub use exporting::export;
pub use fault::{ExportFault, Obstacle};
pub use files::{copy_op, make_dir_op};
pub use following::follow_list;
pub use making::{Made, Merging, Options, vertex_made};
pub use merges::{merge_op, trees_at};
pub use operations::end_op;
pub use places::digest_of;
pub use sources::{context_op, image_op};
