ghost use Rattle.std.specs.Prelude.{◌≡◌, ◌<◌, IfOk, Some, None, length, true};
ghost use Rattle.std.specs.List.{list_all};
ghost use Rattle.std.specs.Option.{option_and_then};
ghost use Rattle.serde_json.specs.Find.{get, as_str};
ghost use Rattle.strict.specs.Gives.{Gives};
ghost use Rattle.strict.specs.Strict.{at_most_one, all_in};
ghost use Rattle.borrowed.specs.Seen.{data_of};
ghost use Rattle.borrowed.specs.Lent.{lent_data, items_data};
ghost use Rattle.entries.specs.Reading.{is_octal, digit_at, mode_of, mode_in, meta_at, bytes_of, content_of, content_in, directory_at, directory_in, file_at, file_in, row_in, rows_of};
ghost use Rattle.trees.specs.TreeMap.{directory_meta, file_meta};
ghost use Rattle.entries.specs.PrivateKeys.{AreKeys};

use crate::digits::read_digits;
use borrowed::{at, is_strict, list_of, one_of, optional_of, text_of};
use json::Value;
use paths::Path;
use plain::{Bytes, Fault, Items, Mode};
use std::alloc::Global;
use strict::{NotRead, ReadFault};
use trees::{Content, Entry, Meta};

/// Whether a character is a digit from 0 to 7.
fn is_octal(digit: u8) -> bool
    ensures { result ≡ is_octal digit }
{
    b'0' <= digit && digit <= b'7'
}

/// Whether all characters are digits from 0 to 7.
fn are_octal(digits: &[u8]) -> bool
    ensures { result ≡ list_all is_octal digits.now }
{
    digits.iter().all(|digit| is_octal(*digit))
}

/// The mode that a text spells: it is four octal digits.
pub(crate) fn mode_of(text: &str) -> Option<Mode>
    ensures { result ≡ mode_of text.now }
{
    let digits = text.as_bytes();
    if digits.len() != 4 || !are_octal(digits) {
        return None;
    }
    let high = 512 * digit_at(digits, 0) + 64 * digit_at(digits, 1);
    let low = 8 * digit_at(digits, 2) + digit_at(digits, 3);
    Mode::new(high + low)
}

/// The value of the digit at a position.
fn digit_at(digits: &[u8], at: usize) -> u16
    requires within { at < length digits.now }
    requires octal { list_all is_octal digits.now ≡ true }
    ensures value { result ≡ digit_at digits.now at }
    ensures small { result < 8 }
{
    u16::from(digits[at] - b'0')
}

/// The mode that a value is.
#[tactic(auto, unfolding(crate::specs::Reading::mode_in))]
fn read_mode(value: &Value<'_>) -> Result<Mode, ReadFault>
    ensures { Gives result (mode_in (data_of value.now)) }
{
    let Some(text) = text_of(value) else {
        return Err(Fault::Because(NotRead));
    };
    match mode_of(text) {
        Some(mode) => Ok(mode),
        None => Err(Fault::Because(NotRead)),
    }
}

/// A mode that may be missing.
fn optional_mode(value: Option<&Value<'_>>) -> Result<Option<Mode>, ReadFault>
    ensures { Gives result (at_most_one mode_in (lent_data value.entry)) }
{
    match value {
        Some(value) => Ok(Some(read_mode(value)?)),
        None => Ok(None),
    }
}

/// A mode and an owner, each of which may be missing; what is missing is as in `default`.
fn meta_of(
    alloc: Global,
    mode: Option<&Value<'_>>,
    uid: Option<&Value<'_>>,
    gid: Option<&Value<'_>>,
    default: Meta,
) -> Result<Meta, ReadFault>
    ensures { Gives result (meta_at default (lent_data mode.entry) (lent_data uid.entry) (lent_data gid.entry)) }
{
    let mode = optional_mode(mode)?;
    let uid: Option<u32> = optional_of(alloc, uid)?;
    let gid: Option<u32> = optional_of(alloc, gid)?;
    Ok(Meta {
        mode: mode.unwrap_or(default.mode),
        uid: uid.unwrap_or(default.uid),
        gid: gid.unwrap_or(default.gid),
    })
}

/// The bytes that a value spells in hexadecimal.
fn read_hex(alloc: Global, value: &Value<'_>) -> Result<Bytes, ReadFault>
    ensures { Gives result (option_and_then bytes_of (as_str (data_of value.now))) }
{
    let Some(text) = text_of(value) else {
        return Err(Fault::Because(NotRead));
    };
    read_digits(alloc, text)
}

/// The bytes of a text that a value is.
fn read_text(alloc: Global, value: &Value<'_>) -> Result<Bytes, ReadFault>
    ensures { Gives result (as_str (data_of value.now)) }
{
    let Some(text) = text_of(value) else {
        return Err(Fault::Because(NotRead));
    };
    Ok(Bytes::from_slice(alloc, text.as_bytes())?)
}

/// The bytes that stand in an object, at `text` as a text or at `hex` in hexadecimal. `NotRead` where there are none, or both, or they
/// can't be read.
#[tactic(auto, unfolding(crate::specs::Reading::content_in))]
pub fn read_content(alloc: Global, value: &Value<'_>) -> Result<Bytes, ReadFault>
    ensures { Gives result (content_in (data_of value.now)) }
{
    content_of(alloc, at(value, "text"), at(value, "hex"))
}

/// Bytes that a text spells, or hexadecimal digits. `NotRead` where there are neither, or both, or they can't be read.
fn content_of(
    alloc: Global,
    text: Option<&Value<'_>>,
    hex: Option<&Value<'_>>,
) -> Result<Bytes, ReadFault>
    ensures { Gives result (content_of (lent_data text.entry) (lent_data hex.entry)) }
{
    match (text, hex) {
        (Some(text), None) => read_text(alloc, text),
        (None, Some(hex)) => read_hex(alloc, hex),
        (None, None) => Err(Fault::Because(NotRead)),
        (Some(_), Some(_)) => Err(Fault::Because(NotRead)),
    }
}

/// What stands at the keys that an entry may have, lent.
#[derive(Clone, Copy)]
struct Keys<'v, 'a> {
    dir: Option<&'v Value<'a>>,
    gid: Option<&'v Value<'a>>,
    hex: Option<&'v Value<'a>>,
    mode: Option<&'v Value<'a>>,
    path: Option<&'v Value<'a>>,
    text: Option<&'v Value<'a>>,
    uid: Option<&'v Value<'a>>,
}

/// What stands at these keys in an object.
fn keys_of<'v, 'a>(value: &'v Value<'a>) -> Keys<'v, 'a>
    ensures { AreKeys result (λ key. get key (data_of value.now)) }
{
    Keys {
        dir: at(value, "dir"),
        gid: at(value, "gid"),
        hex: at(value, "hex"),
        mode: at(value, "mode"),
        path: at(value, "path"),
        text: at(value, "text"),
        uid: at(value, "uid"),
    }
}

/// The directory of what stands at these keys, with its path.
fn directory_of(alloc: Global, keys: Keys<'_, '_>) -> Result<(Path, Entry), ReadFault>
    ensures { Gives result (directory_at (lent_data keys.entry.dir) (lent_data keys.entry.path) (meta_at directory_meta (lent_data keys.entry.mode) (lent_data keys.entry.uid) (lent_data keys.entry.gid))) }
{
    let flag: bool = one_of(alloc, keys.dir)?;
    if !flag {
        return Err(Fault::Because(NotRead));
    }
    let path: Path = one_of(alloc, keys.path)?;
    let meta = meta_of(alloc, keys.mode, keys.uid, keys.gid, Meta::directory())?;
    Ok((path, Entry::Directory(meta)))
}

/// The file of what stands at these keys, with its path.
fn file_of(alloc: Global, keys: Keys<'_, '_>) -> Result<(Path, Entry), ReadFault>
    ensures { Gives result (file_at (lent_data keys.entry.path) (meta_at file_meta (lent_data keys.entry.mode) (lent_data keys.entry.uid) (lent_data keys.entry.gid)) (content_of (lent_data keys.entry.text) (lent_data keys.entry.hex))) }
{
    let path: Path = one_of(alloc, keys.path)?;
    let meta = meta_of(alloc, keys.mode, keys.uid, keys.gid, Meta::file())?;
    let content = content_of(alloc, keys.text, keys.hex)?;
    Ok((path, Entry::File(meta, Content::new(alloc, content)?)))
}

/// A directory with its path.
#[tactic(auto, unfolding(crate::specs::Reading::directory_in, crate::specs::Reading::meta_in))]
fn read_directory(alloc: Global, value: &Value<'_>) -> Result<(Path, Entry), ReadFault>
    ensures { Gives result (directory_in (data_of value.now)) }
{
    if !is_strict(value, &["dir", "gid", "mode", "path", "uid"]) {
        return Err(Fault::Because(NotRead));
    }
    directory_of(alloc, keys_of(value))
}

/// A file with its path.
#[tactic(auto, unfolding(crate::specs::Reading::file_in, crate::specs::Reading::meta_in, crate::specs::Reading::content_in))]
fn read_file(alloc: Global, value: &Value<'_>) -> Result<(Path, Entry), ReadFault>
    ensures { Gives result (file_in (data_of value.now)) }
{
    if !is_strict(value, &["gid", "hex", "mode", "path", "text", "uid"]) {
        return Err(Fault::Because(NotRead));
    }
    file_of(alloc, keys_of(value))
}

/// An entry with its path: a directory where `dir` is there, else a file.
fn read_row(alloc: Global, value: &Value<'_>) -> Result<(Path, Entry), ReadFault>
    ensures { Gives result (row_in (data_of value.now)) }
{
    match at(value, "dir") {
        Some(_) => read_directory(alloc, value),
        None => read_file(alloc, value),
    }
}

/// What each of some values is.
fn read_each(alloc: Global, values: &[Value<'_>]) -> Result<Items<(Path, Entry)>, ReadFault>
    ensures { Gives result (all_in row_in (items_data values.now)) }
{
    let mut rows = Items::from_vec(Vec::with_capacity(alloc, values.len())?);
    for value in values {
        rows.push(read_row(alloc, value)?)?;
    }
    Ok(rows)
}

/// A list of entries with their paths, as it is written.
#[tactic(auto, unfolding(strict::specs::Strict::list_in))]
pub(crate) fn read_rows(alloc: Global, value: &Value<'_>) -> Result<Items<(Path, Entry)>, ReadFault>
    ensures { Gives result (rows_of (data_of value.now)) }
{
    match list_of(value) {
        Some(values) => read_each(alloc, values),
        None => Err(Fault::Because(NotRead)),
    }
}
