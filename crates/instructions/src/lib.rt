// The instructions of a Dockerfile: what a logical line spells.
//
// It knows the table of instructions and which flags each takes; what a flag says is read by `options`. A text that is
// expanded is read as a `Word`, and gets no value here: the crates above expand it, and look for the stage, the image or the
// path that an instruction names. ADD, ONBUILD, HEALTHCHECK and MAINTAINER are unknown.
//
// The central definition is `Spells` in specs/Parsing.antt: by cases of the line's name, what the rest of the line is read
// as, and which codes are due for it. A line for which no code is due spells just one instruction, and any other is refused
// with the least code that is due, so it doesn't matter in which order the tests are made. Only `parse` makes an
// `Instruction`, and its type keeps what each that a line spells keeps: `IsInstruction` in specs/Instruction.antt.
//
// A file for each instruction: src/env.rt has what the code reads of ENV, and specs/Env.antt what that is.
// specs/Reason.antt says why a line is refused whose texts are expanded, for the crates above, which expand them.
//
// ```
// parse(alloc, &line)?        // of `COPY --link a /b`: COPY with the source `a`, the destination `/b`, linked
// ```
#![tactic(auto)]

mod arg;
mod command;
mod copied;
mod copy;
mod env;
mod expanded;
mod expose;
mod from;
mod instruction;
mod keyword;
mod label;
pub mod laws;
mod names;
mod one_word;
mod parsing;
mod run;
mod shell;
mod volume;

pub use instruction::{
    Argument, Assignment, Body, Command, Instruction, InstructionKind, Label, Source,
};
pub use keyword::keywords;
pub use options::{CopyFlags, Mount, MountKind};
pub use parsing::parse;
