// What BuildKit is told of the files that a build isn't given.

ghost use Rattle.std.specs.Prelude.{◌≡◌, ◌++◌, ◌==◌, length, true, false, IfOk, OnOk};
ghost use Rattle.std.specs.Str.{chars, encode_utf8_all};
ghost use Rattle.std.specs.String.{string_bytes};
ghost use Rattle.serde_json.specs.Data.{string};
ghost use Rattle.serde_json.specs.View.{view};
ghost use Rattle.serde_json.specs.Written.{has_float};
ghost use Rattle.strict.specs.Written.{list_data};
ghost use Rattle.paths.specs.Path.{text_of};
ghost use Rattle.exported.specs.Excluding.{is_meant, as_plain, plain_from, pattern_of, patterns_text, exclude_list};

use crate::patterns::{first_and_rest, is_sign, or_root};
use paths::Path;
use plain::{Items, Memory, Text};
use serde_json::Value;
use std::alloc::{AllocError, Global};
use strict::list_to_json;

/// Whether a character means more in a pattern than itself.
#[tactic(auto, unfolding(crate::specs::Excluding::is_meant))]
fn is_meant(code: u32) -> bool
    ensures { result ≡ is_meant code }
{
    is_sign(code) || matches!(code, 40 | 41 | 43 | 92 | 93 | 94 | 123 | 124 | 125)
}

/// Whether a text has no character.
fn is_over(text: &str) -> bool
    ensures { result ≡ (length (chars text.now) == 0) }
{
    match first_and_rest(text) {
        Some(_) => false,
        None => true,
    }
}

/// Adds a character of a path, in a pattern that relates to it alone.
#[tactic(auto, unfolding(crate::specs::Excluding::as_plain))]
fn push_plain(pattern: &mut String, begins: bool, ends: bool, c: char) -> Result<(), AllocError>
    ensures { OnOk result (string_bytes pattern.new ≡ string_bytes pattern.old ++ encode_utf8_all (as_plain begins ends c)) }
{
    if c == ' ' && (begins || ends) {
        return pattern.push_str("[ ]");
    }
    if is_meant(c as u32) || (c == '!' && begins) {
        pattern.push('\\')?;
    }
    pattern.push(c)
}

/// Adds a path without the `/` that it begins with, in a pattern that relates to it alone.
fn push_plain_path(pattern: &mut String, path: &str) -> Result<(), AllocError>
    ensures { OnOk result (string_bytes pattern.new ≡ string_bytes pattern.old ++ encode_utf8_all (plain_from true (chars path.now))) }
{
    let mut begins = true;
    let mut left = path;
    while let Some((c, rest)) = first_and_rest(left) {
        push_plain(pattern, begins, is_over(rest), c)?;
        begins = false;
        left = rest;
    }
    Ok(())
}

/// The text of the path of these names.
fn text_of(alloc: Global, names: &[Text]) -> Result<String, Memory>
    ensures { IfOk result (λ text. string_bytes text ≡ text_of names.now) }
{
    let mut text = String::new(alloc);
    for name in names {
        text.push('/')?;
        text.push_str(name.as_str())?;
    }
    or_root(text)
}

/// The pattern that relates to the path of these names alone.
#[tactic(auto, unfolding(crate::specs::Excluding::pattern_of))]
pub(crate) fn pattern_of(alloc: Global, names: &[Text]) -> Result<Text, Memory>
    ensures { IfOk result (λ pattern. pattern ≡ pattern_of names.now) }
{
    let text = text_of(alloc, names)?;
    let mut pattern = String::new(alloc);
    if let Some((_, rest)) = first_and_rest(text.as_str()) {
        push_plain_path(&mut pattern, rest)?;
    }
    Ok(Text::from_string(pattern))
}

/// A list of patterns as JSON.
fn list_of(alloc: Global, patterns: &[Text]) -> Result<Value, Memory>
    ensures list { IfOk result (λ list. view list ≡ list_data string patterns.now) }
    ensures texts { IfOk result (λ list. has_float (view list) ≡ false) }
{
    let list = list_to_json(alloc, patterns)?;
    Ok(list)
}

/// The text of such a list, or nothing if there are no patterns.
pub(crate) fn patterns_text(alloc: Global, patterns: &[Text]) -> Result<Option<Text>, Memory>
    ensures { IfOk result (λ text. text ≡ patterns_text patterns.now) }
{
    if patterns.is_empty() {
        return Ok(None);
    }
    let list = list_of(alloc, patterns)?;
    Ok(Some(Text::from_string(list.to_string(alloc)?)))
}

/// The patterns of these paths, each of which leaves out one path with all below it: a JSON list, or nothing if there are no paths.
pub fn exclude_list(alloc: Global, paths: &[Path]) -> Result<Option<Text>, Memory>
    ensures { IfOk result (λ list. list ≡ exclude_list paths.now) }
{
    let mut patterns = Items::new(alloc);
    for path in paths {
        patterns.push(pattern_of(alloc, path.components())?)?;
    }
    patterns_text(alloc, patterns.as_slice())
}
