// The messages of BuildKit's LLB, as far as a graph of builds needs them, and their bytes.
//
// BuildKit's package `pb` has them as messages of Protocol Buffers, of which the crate `wire` has the format. Here are an operation with its
// inputs (a source, a command with its mounts, changes of files, a merge, or the end that names a result) and the definition, which holds
// the bytes of all operations and what is said of each. What isn't used is left out: secrets, ssh, security modes, removals, builds within
// builds. It knows no graph: which operations stand for one, and what they do, is said above.
//
// The central definitions are `op_fields` in specs/Op.antt and `definition_fields` in specs/Definition.antt, the fields of an operation and of
// a definition, and beside each what bytes are read as. `laws` says that what is written is read as it was, so two operations never have
// one text. Fields stand in the order of their numbers, as BuildKit's own writer has them, so that digests may be BuildKit's. No proof
// knows BuildKit: the table `llb` of `tables` compares bytes with those of another program.
//
// ```
// let end = Op { inputs: one(Input { digest, index: 0 }), kind: OpKind::End, platform: None, constraints: None };
// end.to_bytes(alloc)?      // 0a 49 0a 47, and the 71 bytes of the digest
// ```
#![tactic(auto)]

mod bytes;
mod definition;
mod exec;
mod file;
mod fits;
pub mod laws;
mod op;
mod source;

pub use definition::{Definition, OpMetadata};
pub use exec::{CacheOpt, ExecOp, Meta, Mount, MountKind, Network};
pub use file::{
    ChownOpt, CopyAction, FileAction, FileActionKind, FileOp, MakeDirAction, MakeFileAction,
};
pub use op::{Constraints, Input, MergeInput, MergeOp, Op, OpKind, Platform};
pub use source::SourceOp;
