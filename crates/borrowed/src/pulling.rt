// Reading token by token: what is read of a text is made while its tokens come, and no value of the text stands in memory in between. So a
// list of a million entries costs what the entries cost.
//
// Here is what such a reader takes at a time. Who pulls an object opens it, and takes a key and a value until there is no next key.
//
// Of a key that stands twice only the last value counts, and when the first comes nobody knows that another will. So a first value that
// can't be read makes such a reader give up. Here `NotRead` says nothing of the text, and the reader of tokens is of no more use after it:
// whoever pulls a text reads it as a value where that fails.

ghost use Rattle.std.specs.Prelude.{◌≡◌, ◌∷◌, ◌+◌, ℕ, Some, IfOk, OnOk, option_map};
ghost use Rattle.json.specs.Json.{read_key};
ghost use Rattle.json.specs.Token.{begin_object, begin_array};
ghost use Rattle.serde_json.specs.Find.{as_bool, as_str};
ghost use Rattle.strict.specs.Strict.{short_number_in};
ghost use Rattle.borrowed.specs.Seen.{data_of};
ghost use Rattle.borrowed.specs.Pulled.{IsNext, Pulls};
ghost use Rattle.borrowed.specs.Rows.{owned_rows};

use crate::numbers::read_few_digits;
use crate::whole::is_in_range;
use json::{Error, Reader, Token, Value};
use plain::{Fault, Items, Memory, Text};
use std::alloc::Global;
use std::collections::BTreeMap;
use strict::{NotRead, ReadFault};

/// The value that comes next, as it is lent. `NotRead` where there is none, it nests deeper than so, or it has a number that is out of
/// range.
pub fn pull_value<'a>(
    alloc: Global,
    reader: &mut Reader<'a>,
    depth: usize,
) -> Result<Value<'a>, ReadFault>
    ensures { IfOk result (λ value. IsNext depth reader.old reader.new (data_of value)) }
{
    match Value::read(alloc, reader, depth) {
        Ok(value) => {
            if is_in_range(&value) {
                return Ok(value);
            }
            drop(value);
            Err(Fault::Because(NotRead))
        }
        Err(Error::OutOfMemory) => Err(Fault::Memory),
        Err(_) => Err(Fault::Because(NotRead)),
    }
}

/// The text that comes next. `NotRead` where another value comes, or none.
pub fn next_text<'a>(reader: &mut Reader<'a>) -> Result<&'a str, ReadFault>
    ensures { IfOk result (λ text. (depth : ℕ) → Pulls depth as_str reader.old reader.new text.now) }
{
    match reader.next() {
        Some(Token::String(text)) => Ok(text),
        _ => Err(Fault::Because(NotRead)),
    }
}

/// The whole number of 32 bits that comes next. `NotRead` where another value comes, or none.
pub fn next_number(reader: &mut Reader<'_>) -> Result<u32, ReadFault>
    ensures { IfOk result (λ number. (depth : ℕ) → Pulls depth short_number_in reader.old reader.new number) }
{
    let Some(Token::Number(text)) = reader.next() else {
        return Err(Fault::Because(NotRead));
    };
    let Some(number) = read_few_digits(text.as_bytes()) else {
        return Err(Fault::Because(NotRead));
    };
    if number >= 1 << 32 {
        return Err(Fault::Because(NotRead));
    }
    Ok(number as u32)
}

/// Whether `true` comes next, or `false`. `NotRead` where another value comes, or none.
pub fn next_flag(reader: &mut Reader<'_>) -> Result<bool, ReadFault>
    ensures { IfOk result (λ flag. (depth : ℕ) → Pulls depth as_bool reader.old reader.new flag) }
{
    match reader.next() {
        Some(Token::Bool(flag)) => Ok(flag),
        _ => Err(Fault::Because(NotRead)),
    }
}

/// Passes the brace that opens an object. `NotRead` where another token comes next.
pub fn open_object(reader: &mut Reader<'_>) -> Result<(), ReadFault>
    ensures { OnOk result (reader.old ≡ begin_object ∷ reader.new) }
{
    match reader.next() {
        Some(Token::BeginObject) => Ok(()),
        _ => Err(Fault::Because(NotRead)),
    }
}

/// Passes the bracket that opens a list. `NotRead` where another token comes next.
pub fn open_list(reader: &mut Reader<'_>) -> Result<(), ReadFault>
    ensures { OnOk result (reader.old ≡ begin_array ∷ reader.new) }
{
    match reader.next() {
        Some(Token::BeginArray) => Ok(()),
        _ => Err(Fault::Because(NotRead)),
    }
}

/// The key that comes next; none at the brace that closes the object. `NotRead` where another token comes next.
pub fn next_key<'a>(reader: &mut Reader<'a>) -> Result<Option<&'a str>, ReadFault>
    ensures { IfOk result (λ key. read_key reader.old ≡ Some (option_map (λ k. k.now) key, reader.new)) }
{
    match reader.next_key() {
        Ok(key) => Ok(key),
        Err(_) => Err(Fault::Because(NotRead)),
    }
}

/// How deep the values in a list or an object may nest. `NotRead` where there may be none.
pub fn inner_depth(depth: usize) -> Result<usize, ReadFault>
    ensures { IfOk result (λ inner. depth ≡ inner + 1) }
{
    match depth.checked_sub(1) {
        Some(inner) => Ok(inner),
        None => Err(Fault::Because(NotRead)),
    }
}

/// The rows of an object that was read key by key: its keys with their values, in order.
pub fn owned_rows<T: Drop>(
    alloc: Global,
    found: BTreeMap<&str, T>,
) -> Result<Items<(Text, T)>, Memory>
    ensures { IfOk result (λ rows. rows ≡ owned_rows found.entry.entries) }
{
    let mut rows = Items::new(alloc);
    for (key, value) in found {
        rows.push((Text::from_str(alloc, key)?, value))?;
    }
    Ok(rows)
}
