ghost use Rattle.std.specs.Prelude.{◌≡◌, [], ◌∷◌, ◌++◌, IfOk, length};
ghost use Rattle.wire.specs.Fields.{number, block};
ghost use Rattle.wire.specs.Messages.{message_bytes};
ghost use Rattle.wire.specs.Kinds.{number_field, int_field, flag_field, bytes_field, texts_field, message_field};

use crate::fields::{push_block, push_number};
use plain::{Bytes, Memory, Text};
use std::alloc::Global;
use std::marker::Model;

/// A message that is being written: contracts see the fields that it has so far.
///
/// Each call takes the message and hands it on with one field more, so that a message is written as one chain of calls.
#[derive(Drop)]
pub struct Message {
    bytes: Vec<u8>,
}

impl Model for Message {
    ghost use Rattle.std.specs.Prelude.{◌≡◌, List};
    ghost use Rattle.wire.specs.Fields.{Field};
    ghost use Rattle.wire.specs.Messages.{message_bytes};
    ghost use Rattle.wire.specs.PrivateMessage.{fields_in};

    ghost Value = { List Field };

    ghost view = { λ m. fields_in m.bytes.items };

    ghost invariant = { λ m. message_bytes (fields_in m.bytes.items) ≡ m.bytes.items };
}

impl Message {
    /// The message without a field. It takes no memory.
    pub fn new(alloc: Global) -> Message
        ensures { result ≡ [] }
    {
        Message {
            bytes: Vec::new(alloc),
        }
    }

    /// The message's bytes, lent.
    pub fn as_slice(&self) -> &[u8]
        ensures { result.now ≡ message_bytes self.now }
    {
        self.bytes.as_slice()
    }

    /// The message's bytes. It takes no memory.
    pub fn into_bytes(self) -> Bytes
        ensures { result ≡ message_bytes self }
    {
        let Message { bytes } = self;
        Bytes::from_vec(bytes)
    }

    /// With a number, which is written even if it is 0.
    pub fn with_set_number(self, field: u32, value: u64) -> Result<Message, Memory>
        ensures { IfOk result (λ message. message ≡ self ++ number field value ∷ []) }
    {
        let Message { bytes } = self;
        let mut bytes = bytes;
        push_number(&mut bytes, field, value)?;
        Ok(Message { bytes })
    }

    /// With bytes, which are written even if there are none.
    pub fn with_set_bytes(self, field: u32, value: &[u8]) -> Result<Message, Memory>
        ensures { IfOk result (λ message. message ≡ self ++ block field value.now ∷ []) }
    {
        let Message { bytes } = self;
        let mut bytes = bytes;
        push_block(&mut bytes, field, value)?;
        Ok(Message { bytes })
    }

    /// With a number; 0 isn't written.
    pub fn with_number(self, field: u32, value: u64) -> Result<Message, Memory>
        ensures { IfOk result (λ message. message ≡ self ++ number_field field value) }
    {
        if value == 0 {
            return Ok(self);
        }
        self.with_set_number(field, value)
    }

    /// With a number that has a sign; 0 isn't written, and a negative one takes ten bytes.
    pub fn with_int(self, field: u32, value: i64) -> Result<Message, Memory>
        ensures { IfOk result (λ message. message ≡ self ++ int_field field value) }
    {
        self.with_number(field, value.cast_unsigned())
    }

    /// With a truth value; `false` isn't written.
    pub fn with_flag(self, field: u32, value: bool) -> Result<Message, Memory>
        ensures { IfOk result (λ message. message ≡ self ++ flag_field field value) }
    {
        self.with_number(field, value as u64)
    }

    /// With bytes; where there are none, nothing is written.
    pub fn with_bytes(self, field: u32, value: &[u8]) -> Result<Message, Memory>
        ensures { IfOk result (λ message. message ≡ self ++ bytes_field field value.now) }
    {
        if value.is_empty() {
            return Ok(self);
        }
        self.with_set_bytes(field, value)
    }

    /// With a text; the empty one isn't written.
    pub fn with_text(self, field: u32, value: &Text) -> Result<Message, Memory>
        ensures { IfOk result (λ message. message ≡ self ++ bytes_field field value.now) }
    {
        self.with_bytes(field, value.as_str().as_bytes())
    }

    /// With a list of texts, empty ones too.
    pub fn with_texts(self, field: u32, values: &[Text]) -> Result<Message, Memory>
        ensures { IfOk result (λ message. message ≡ self ++ texts_field field values.now) }
    {
        let mut message = self;
        for value in values {
            message = message.with_set_bytes(field, value.as_str().as_bytes())?;
        }
        Ok(message)
    }

    /// With a list of bytes, empty ones too.
    pub fn with_blocks(self, field: u32, values: &[Bytes]) -> Result<Message, Memory>
        ensures { IfOk result (λ message. message ≡ self ++ texts_field field values.now) }
    {
        let mut message = self;
        for value in values {
            message = message.with_set_bytes(field, value.as_slice())?;
        }
        Ok(message)
    }

    /// With a message, which is written even where it has no field.
    #[tactic(auto, unfolding(crate::specs::Kinds::message_field))]
    pub fn with_message(self, field: u32, value: &Message) -> Result<Message, Memory>
        ensures { IfOk result (λ message. message ≡ self ++ message_field field value.now) }
    {
        self.with_set_bytes(field, value.as_slice())
    }
}
