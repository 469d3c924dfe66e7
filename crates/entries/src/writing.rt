ghost use Rattle.std.specs.Prelude.{◌≡◌, ◌<◌, ◌+◌, ◌++◌, IfOk, OnOk, false};
ghost use Rattle.std.specs.String.{string_bytes};
ghost use Rattle.serde_json.specs.View.{view};
ghost use Rattle.serde_json.specs.Written.{has_float};
ghost use Rattle.trees.specs.declared.entry.Entry.TheVariants.{Directory, File};
ghost use Rattle.trees.specs.Rows.{entry_of, lent_rows};
ghost use Rattle.entries.specs.Written.{mode_text, directory_data, file_data, entry_data, tree_data};

use paths::Path;
use plain::{Memory, Mode};
use serde_json::{Value, json};
use std::alloc::{AllocError, Global};
use trees::{LentEntry, Meta};

/// The entries of a tree as JSON, in the order that they are given in. No number in it is a float.
pub fn tree_to_json(alloc: Global, entries: &[(Path, LentEntry<'_>)]) -> Result<Value, Memory>
    ensures data { IfOk result (λ v. view v ≡ tree_data (lent_rows entries.now)) }
    ensures plain { IfOk result (λ v. has_float (view v) ≡ false) }
{
    let tree = entries_value(alloc, entries)?;
    Ok(tree)
}

/// The list of some entries.
fn entries_value(alloc: Global, entries: &[(Path, LentEntry<'_>)]) -> Result<Value, Memory>
    ensures { IfOk result (λ v. view v ≡ tree_data (lent_rows entries.now)) }
{
    let mut values = Vec::with_capacity(alloc, entries.len())?;
    for row in entries {
        values.push(entry_value(alloc, &row.0, &row.1)?)?;
    }
    Ok(Value::Array(values))
}

/// An entry with its path.
#[tactic(auto, unfolding(crate::specs::Written::entry_data))]
fn entry_value(alloc: Global, path: &Path, entry: &LentEntry<'_>) -> Result<Value, Memory>
    ensures { IfOk result (λ v. view v ≡ entry_data path.now (entry_of entry.now)) }
{
    match entry {
        LentEntry::Directory(meta) => directory_value(alloc, path, *meta),
        LentEntry::File(meta, content) => file_value(alloc, path, *meta, content.as_slice()),
    }
}

/// A directory with its path.
fn directory_value(alloc: Global, path: &Path, meta: Meta) -> Result<Value, Memory>
    ensures { IfOk result (λ v. view v ≡ entry_data path.now (Directory meta)) }
{
    let path = path.text(alloc)?.into_string(alloc)?;
    let mode = mode_text(alloc, meta.mode)?;
    let value = directory_object(alloc, meta, mode, path)?;
    Ok(value)
}

/// The object of a directory, whose mode and path are given as texts.
fn directory_object(
    alloc: Global,
    meta: Meta,
    mode: String,
    path: String,
) -> Result<Value, AllocError>
    ensures { IfOk result (λ v. view v ≡ directory_data meta (string_bytes mode) (string_bytes path)) }
{
    let gid = u64::from(meta.gid);
    let uid = u64::from(meta.uid);
    json!(in alloc; {"dir": true, "gid": gid, "mode": mode, "path": path, "uid": uid})
}

/// A file with its path.
fn file_value(alloc: Global, path: &Path, meta: Meta, bytes: &[u8]) -> Result<Value, Memory>
    ensures { IfOk result (λ v. view v ≡ entry_data path.now (File meta bytes.now)) }
{
    let path = path.text(alloc)?.into_string(alloc)?;
    let mode = mode_text(alloc, meta.mode)?;
    let hex = hex::encode(alloc, bytes)?;
    let value = file_object(alloc, meta, hex, mode, path)?;
    Ok(value)
}

/// The object of a file, whose bytes are given in hexadecimal, and its mode and path as texts.
fn file_object(
    alloc: Global,
    meta: Meta,
    hex: String,
    mode: String,
    path: String,
) -> Result<Value, AllocError>
    ensures { IfOk result (λ v. view v ≡ file_data meta (string_bytes hex) (string_bytes mode) (string_bytes path)) }
{
    let gid = u64::from(meta.gid);
    let uid = u64::from(meta.uid);
    json!(in alloc; {"gid": gid, "hex": hex, "mode": mode, "path": path, "uid": uid})
}

/// A mode as four octal digits.
fn mode_text(alloc: Global, mode: Mode) -> Result<String, Memory>
    ensures { IfOk result (λ text. string_bytes text ≡ mode_text mode) }
{
    let mut text = String::new(alloc);
    push_mode(&mut text, mode)?;
    Ok(text)
}

/// Writes a mode as four octal digits behind a text.
fn push_mode(text: &mut String, mode: Mode) -> Result<(), Memory>
    ensures { OnOk result (string_bytes text.new ≡ string_bytes text.old ++ mode_text mode) }
{
    let bits = mode.bits();
    text.push(char::from(octal_digit(bits / 512)))?;
    text.push(char::from(octal_digit(bits / 64 % 8)))?;
    text.push(char::from(octal_digit(bits / 8 % 8)))?;
    text.push(char::from(octal_digit(bits % 8)))?;
    Ok(())
}

/// The character of an octal digit.
pub(crate) fn octal_digit(digit: u16) -> u8
    requires { digit < 8 }
    ensures value { result ≡ 48 + digit }
    ensures ascii { result < 128 }
{
    b'0' + digit as u8
}
