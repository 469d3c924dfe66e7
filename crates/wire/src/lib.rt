// Protocol Buffers' wire format, as far as BuildKit's graphs need it.
//
// It writes messages field by field: numbers with and without a sign, truth values, bytes and texts, lists, maps in the order of their
// keys' bytes, and messages within messages. Which fields a message has, and in which order they stand, is said by the crates above.
// It has no fixed width numbers, no packed lists, no groups and no floats, and no code that reads: reading is a definition here, by which
// laws say that bytes mean one message.
//
// The central definitions are `message_bytes` in specs/Messages.antt, the bytes of a list of fields, and specs/Kinds.antt, what a field of
// each type is written as and read as. A `Message` is seen as the list of the fields that were written. `laws` says that what is written
// is read as the same fields, so two messages never have one text.
//
// ```
// let message = Message::new(alloc).with_text(1, &name)?.with_int(2, -1)?;
// message.as_slice()      // of the name "a": 0a 01 61 10 ff ff ff ff ff ff ff ff ff 01
// ```
#![tactic(auto)]

mod encode;
mod fields;
pub mod laws;
mod map;
mod message;
mod varint;

pub use encode::{Encode, EntryValue};
pub use map::{Map, Unordered};
pub use message::Message;
