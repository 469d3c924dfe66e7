// What each name in a Dockerfile means: the stages, what each begins with, and the trees that its instructions name.
//
// It is given a file's instructions and judges each by what stands before it. It evaluates no text but those of FROM and of the ARGs before
// the first FROM, and looks into no image. What an instruction does to its stage is for the crates above.
//
// The central definition is `resolved` in specs/Resolved.antt: the table of a file's stages as a function of its instructions, or its
// refusal, the least of all that are due (specs/Refusals.antt, `laws`). `IsNeeded` in specs/Needed.antt says which stages a target needs.
//
// ```
// let table = StageTable::resolve(alloc, keys, file, &images, &args)?;     // FROM scratch AS a; FROM scratch; COPY --from=a /x /x
// table.target(None)                                                       // Some(1)
// table.needed(alloc, 1)?                                                  // both stages
// ```
#![tactic(auto)]

mod faults;
mod image_name;
pub mod laws;
mod marks;
mod names;
mod naming;
mod resolving;
mod stage;
mod table;
mod target;
mod target_table;

pub use faults::list_refusals;
pub use image_name::{ImageName, image_names};
pub use names::stage_names;
pub use stage::{ResolvedInstruction, ResolvedStage};
pub use table::StageTable;
pub use target_table::TargetTable;
