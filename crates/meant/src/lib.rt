// What is said of a refusal, by the lines of its file as they stand: which of a code's causes it is, which name was asked for and which one may have been
// meant, and what helps.
//
// It is asked by the reason of the refusal and the lines. Of an instruction that isn't known the names of instructions are looked at, of a stage or an image
// that isn't there the stages above and the images of the bundle, and of a target the stages. Which of these names is near to the one that stands there,
// `nearest` says. Of a flag it tells why the instruction doesn't take it, of a mount which item of it is wrong, and of a word what is wrong with it.
//
// It reads no instruction, so it tells a line by its words alone. It shows no name that may go on in the next line, and looks for no stage and no image below
// a FROM that may.
//
// The central definition is `message_by` in specs/Told.antt: specs/FirstWord.antt is of instructions that aren't known, specs/Named.antt of stages and images,
// specs/Flags.antt of flags, specs/Mounts.antt and specs/MountTexts.antt of mounts, specs/WordFaults.antt of words, and specs/HeredocFaults.antt of heredocs.
// specs/Own.antt says which lines an instruction has and what its text is, specs/Begun.antt which stages lines begin, specs/Sources.antt by which names a line
// takes stages and images, and specs/Escapes.antt what may go on in the next line.
//
// ```
// let lines = ["FROM scratch AS build", "FROM scratch", "COPY --from=biuld a b"];
// message_by(alloc, None, &[], None, &lines, &lines[2..], &Reason::Coded(Code::R12), 3, Some("--from=biuld"))?
// // wrong: there is no image biuld, and no stage of this name above; did you mean build?
// // helps: write build, or pack the image by --image biuld=FILE
// ```
#![tactic(auto)]

mod begun;
mod escapes;
mod first_word;
mod flags;
mod heredoc_faults;
mod mount_texts;
mod mounts;
mod named;
mod own;
mod said;
mod sources;
mod told;
mod word_faults;

pub use mounts::{FaultyItem, ItemFault, faulty_item, has_bind};
pub use own::own_of;
pub use told::message_by;
pub use word_faults::{FaultyWord, word_fault};
