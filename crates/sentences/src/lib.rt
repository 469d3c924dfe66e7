// What a person or a program reads of a refusal, or a person of an instruction that failed: a sentence that says what is wrong, one that says what
// helps, and the forms in which both are shown.
//
// It knows the codes, and of a line the name of its instruction, since some codes have several causes. It reads no instruction: a line
// that is refused may spell none.
//
// The central definitions are the table in specs/Table.antt, which has one sentence and one remedy for each code and instruction, `message_of` in
// specs/Message.antt, `word_message` in specs/WordCause.antt, which has a sentence and a remedy for each way in which a word of a line is wrong,
// `cause_message` in specs/Failing.antt, with a table of causes, the forms in specs/Showing.antt, and `json_line` in specs/Json.antt.
// Of a COPY that misses a source `missing_message` names it, and `left_out_message` the line of the ignore file that leaves it out.
//
// ```
// message_of(alloc, &Reason::Coded(Code::R16), Subject::Copy)?
// // wrong: the owner and the mode have to be numbers
// // helps: write --chown=1000:1000 and --chmod=644 (names would need the image's /etc/passwd)
// noted(alloc, "9", "     ^^^^^^^^^^^^^^^^^")?
// //       |      ^^^^^^^^^^^^^^^^^
// ```
#![tactic(auto)]

mod failing;
mod json;
mod message;
mod showing;
mod subject;
mod table;
mod unseen;
mod word_cause;

pub use failing::{cause_message, left_out_message, missing_message};
pub use json::{json_line, place_line};
pub use message::{Message, code_of, message_of};
pub use showing::{headed, noted, numbered, placed};
pub use subject::Subject;
pub use table::{remedy, sentence, wrong_with};
pub use unseen::{has_unseen, is_unseen};
pub use word_cause::{WordCause, word_message};
