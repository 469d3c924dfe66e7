ghost use Rattle.std.specs.Prelude.{◌≡◌, [], ◌∷◌, ◌++◌, IfOk, option_copied};
ghost use Rattle.wire.specs.Fields.{Field};
ghost use Rattle.wire.specs.Kinds.{text_value, flag_value, optional_field, message_field, messages_field};

use crate::Message;
use plain::{Memory, Text};
use std::alloc::Global;

/// Values that are written as messages.
pub trait Encode {
    ghost use Rattle.std.specs.Prelude.{List};

    // the fields of a value
    ghost fields: { Self → List Field };

    /// The message of a value.
    fn encode(&self, alloc: Global) -> Result<Message, Memory>
        ensures { IfOk result (λ message. message ≡ fields self.now) };
}

/// Values of a map's entries.
pub trait EntryValue {
    // the field of an entry that holds a value, whose number is 2
    ghost held: { Self → Field };

    /// The entry with a value, which is written even where it is its type's default.
    fn add_to(&self, alloc: Global, entry: Message) -> Result<Message, Memory>
        ensures { IfOk result (λ message. message ≡ entry ++ held self.now ∷ []) };
}

impl EntryValue for Text {
    ghost held = { text_value };

    fn add_to(&self, _alloc: Global, entry: Message) -> Result<Message, Memory> {
        entry.with_set_bytes(2, self.as_str().as_bytes())
    }
}

impl EntryValue for bool {
    ghost held = { flag_value };

    fn add_to(&self, _alloc: Global, entry: Message) -> Result<Message, Memory> {
        entry.with_set_number(2, *self as u64)
    }
}

impl Message {
    /// With a value's message, if there is a value.
    #[tactic(auto, using(crate::proofs::KindLemmas::appended_none), unfolding(crate::specs::Kinds::optional_field))]
    pub fn with_optional<T: Encode>(
        self,
        alloc: Global,
        field: u32,
        value: &Option<T>,
    ) -> Result<Message, Memory>
        ensures { IfOk result (λ message. message ≡ self ++ optional_field T.fields field value.now) }
    {
        match value {
            None => Ok(self),
            Some(value) => self.with_encoded(alloc, field, value),
        }
    }

    /// With a value's message.
    pub fn with_encoded<T: Encode>(
        self,
        alloc: Global,
        field: u32,
        value: &T,
    ) -> Result<Message, Memory>
        ensures { IfOk result (λ message. message ≡ self ++ message_field field (T.fields value.now)) }
    {
        match value.encode(alloc) {
            Ok(value) => self.with_message(field, &value),
            Err(memory) => Err(memory),
        }
    }

    /// With a list of values, a message each.
    pub fn with_messages<T: Encode>(
        self,
        alloc: Global,
        field: u32,
        values: &[T],
    ) -> Result<Message, Memory>
        ensures { IfOk result (λ message. message ≡ self ++ messages_field T.fields field values.now) }
    {
        let mut message = self;
        for value in values {
            message = message.with_encoded(alloc, field, value)?;
        }
        Ok(message)
    }
}
