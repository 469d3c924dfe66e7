// The laws of the wire format, claimed: each function's contract is one law, and its body is empty.
ghost use Rattle.std.specs.Prelude.{◌≡◌, ◌++◌, ◌<◌, ◌^◌, ℕ, ℤ, negsuc, Bool, List, [], Some, length};
ghost use Rattle.std.specs.Int.{cast_unsigned, cast_signed, w64};
ghost use Rattle.std.specs.Int.RustNames.{FitsSigned};
ghost use Rattle.wire.specs.Varint.{varint, read_varint};
ghost use Rattle.wire.specs.Fields.{Field, field_bytes, read_field};
ghost use Rattle.wire.specs.Messages.{message_bytes, read_message};
ghost use Rattle.wire.specs.Kinds.{number_field, int_field, flag_field, bytes_field, texts_field, numbers_of, blocks_of, number_at, int_at, flag_at, bytes_at};

/// A number that was written is read, whatever follows it.
pub fn numbers_read_back()
    ensures { (value : ℕ) (rest : List ℕ) → read_varint (varint value ++ rest) ≡ Some (value, rest) }
{}

/// A number with a sign is read as it was, and a negative one takes ten bytes.
pub fn signed_numbers_read_back()
    ensures read { (value : ℤ) → FitsSigned w64 value → cast_signed w64 (cast_unsigned w64 value) ≡ value }
    ensures ten_bytes { (n : ℕ) → n < 2 ^ 63 → length (varint (cast_unsigned w64 (negsuc n))) ≡ 10 }
{}

/// A field that was written is read, whatever follows it.
pub fn fields_read_back()
    ensures { (field : Field) (rest : List ℕ) → read_field (field_bytes field ++ rest) ≡ Some (field, rest) }
{}

/// A message that was written is read as the same fields.
pub fn messages_read_back()
    ensures { (fields : List Field) → read_message (message_bytes fields) ≡ Some fields }
{}

/// Two different lists of fields have different bytes.
pub fn texts_differ()
    ensures { (these those : List Field) → message_bytes these ≡ message_bytes those → these ≡ those }
{}

/// A field is read as what was written, wherever it stands among fields of other numbers.
pub fn types_read_back()
    ensures number { (key value : ℕ) (before after : List Field) → numbers_of key before ≡ [] → numbers_of key after ≡ []
        → number_at key ((before ++ number_field key value) ++ after) ≡ value }
    ensures int { (key : ℕ) (value : ℤ) (before after : List Field) → FitsSigned w64 value → numbers_of key before ≡ [] → numbers_of key after ≡ []
        → int_at key ((before ++ int_field key value) ++ after) ≡ value }
    ensures flag { (key : ℕ) (value : Bool) (before after : List Field) → numbers_of key before ≡ [] → numbers_of key after ≡ []
        → flag_at key ((before ++ flag_field key value) ++ after) ≡ value }
    ensures bytes { (key : ℕ) (value : List ℕ) (before after : List Field) → blocks_of key before ≡ [] → blocks_of key after ≡ []
        → bytes_at key ((before ++ bytes_field key value) ++ after) ≡ value }
    ensures texts { (key : ℕ) (values : List (List ℕ)) (before after : List Field) → blocks_of key before ≡ [] → blocks_of key after ≡ []
        → blocks_of key ((before ++ texts_field key values) ++ after) ≡ values }
{}
