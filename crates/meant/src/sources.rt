// The names by which a line takes stages and images, as they are written on it.
ghost use Rattle.std.specs.Prelude.{◌≡◌, ◌==◌, ◌∷◌, [], map, option_map, IfOk};
ghost use Rattle.std.specs.List.{filter_map, find, list_any, slice_split};
ghost use Rattle.ascii.specs.Pieces.{first_piece, behind_piece};
ghost use Rattle.meant.specs.Sources.{value_of, first_source, mount_source, source_in, sources_in, is_sign, is_spelled_out, is_called, is_stage, is_image, is_astray};

use crate::begun::begins_stage;
use crate::escapes::may_escape;
use ascii::{are_digits, first_piece, split_at_blanks};
use plain::{Memory, Text};
use std::alloc::{AllocError, Global};
use words::pair;

/// The value that a text gives to a name: `x` of `name=x`.
#[tactic(auto, unfolding(crate::specs::Sources::value_of))]
pub(crate) fn value_of<'a>(name: &str, text: &'a str) -> Option<&'a str>
    ensures { option_map (λ value. value.now) result ≡ value_of name.now text.now }
{
    match pair(text) {
        Some((key, value)) => { if key == name { Some(value) } else { None } }
        None => None,
    }
}

/// The first value of `from` among the parts of a mount.
fn first_source<'a>(parts: &[&'a str]) -> Option<&'a str>
    ensures { option_map (λ name. name.now) result ≡ first_source (map (λ part. part.now) parts.now) }
{
    for part in parts {
        if let Some(name) = value_of("from", *part) {
            return Some(name);
        }
    }
    None
}

/// The parts of a mount, between its commas.
pub(crate) fn parts(alloc: Global, mount: &str) -> Result<Vec<&str>, AllocError>
    ensures { IfOk result (λ found. map (λ part. part.now) found.items ≡ slice_split (λ c. c == 44) mount.now) }
{
    mount.split(',').collect(alloc)
}

/// The first value of `from` in a mount, as it is written.
fn mount_source<'a>(alloc: Global, mount: &'a str) -> Result<Option<&'a str>, Memory>
    ensures { IfOk result (λ source. option_map (λ name. name.now) source ≡ mount_source mount.now) }
{
    let parts = parts(alloc, mount)?;
    Ok(first_source(parts.as_slice()))
}

/// The name by which a word of a line takes a stage or an image.
#[tactic(auto, unfolding(crate::specs::Sources::source_in))]
fn source_in<'a>(alloc: Global, word: &'a str) -> Result<Option<&'a str>, Memory>
    ensures { IfOk result (λ source. option_map (λ name. name.now) source ≡ source_in word.now) }
{
    if let Some(name) = value_of("--from", word) {
        return Ok(Some(name));
    }
    match value_of("--mount", word) {
        Some(mount) => mount_source(alloc, mount),
        None => Ok(None),
    }
}

/// The names by which words of a line take stages and images.
fn sources_of<'a>(alloc: Global, words: &[&'a str]) -> Result<Vec<&'a str>, Memory>
    ensures { IfOk result (λ names. map (λ name. name.now) names.items ≡ filter_map source_in (map (λ word. word.now) words.now)) }
{
    let mut names = Vec::new(alloc);
    for word in words {
        if let Some(name) = source_in(alloc, *word)? {
            names.push(name)?;
        }
    }
    Ok(names)
}

/// The word after FROM.
fn base_in<'a>(alloc: Global, line: &'a str) -> Result<Vec<&'a str>, Memory>
    ensures { IfOk result (λ names. map (λ name. name.now) names.items ≡ first_piece (behind_piece line.now) ∷ []) }
{
    let (_, behind) = first_piece(line);
    let (image, _) = first_piece(behind);
    let mut names = Vec::new(alloc);
    names.push(image)?;
    Ok(names)
}

/// The names by which a line takes stages and images.
#[tactic(auto, unfolding(crate::specs::Sources::sources_in))]
pub(crate) fn sources_in<'a>(alloc: Global, line: &'a str) -> Result<Vec<&'a str>, Memory>
    ensures { IfOk result (λ names. map (λ name. name.now) names.items ≡ sources_in line.now) }
{
    if begins_stage(line) {
        return base_in(alloc, line);
    }
    let words = split_at_blanks(alloc, line)?;
    sources_of(alloc, words.as_slice())
}

/// Whether a text may say another with a byte.
fn is_sign(byte: u8) -> bool
    ensures { result ≡ is_sign byte }
{
    byte == b'$' || byte == b'"' || byte == b'\'' || may_escape(byte)
}

/// Whether a text has such a byte.
fn has_sign(bytes: &[u8]) -> bool
    ensures { result ≡ list_any is_sign bytes.now }
{
    bytes.iter().any(|byte| is_sign(*byte))
}

/// Whether a name stands on a line as it is, and is no number.
fn is_spelled_out(name: &str) -> bool
    ensures { result ≡ is_spelled_out name.now }
{
    !are_digits(name.as_bytes()) && !has_sign(name.as_bytes())
}

/// Whether a stage is called by a name, whatever the case of its letters.
#[tactic(auto, unfolding(crate::specs::Sources::is_called))]
fn is_called(name: &str, stage: &str) -> bool
    ensures { result ≡ is_called name.now stage.now }
{
    stage.eq_ignore_ascii_case(name)
}

/// Whether one of these stages is called so.
fn is_stage(stages: &[&str], name: &str) -> bool
    ensures { result ≡ is_stage (map (λ stage. stage.now) stages.now) name.now }
{
    for stage in stages {
        if is_called(name, *stage) {
            return true;
        }
    }
    false
}

/// Whether a name is exactly that of an image.
fn is_image(images: &[Text], name: &str) -> bool
    ensures { result ≡ is_image images.now name.now }
{
    for image in images {
        if image.as_str() == name {
            return true;
        }
    }
    false
}

/// Whether a name is spelled out, and leads to none of these stages and images.
#[tactic(auto, unfolding(crate::specs::Sources::is_astray))]
fn is_astray(stages: &[&str], images: &[Text], name: &str) -> bool
    ensures { result ≡ is_astray (map (λ stage. stage.now) stages.now) images.now name.now }
{
    is_spelled_out(name) && !is_stage(stages, name) && !is_image(images, name)
}

/// The first of some names that leads nowhere: it is spelled out, and leads to none of these stages and images.
pub(crate) fn first_astray<'a>(
    stages: &[&str],
    images: &[Text],
    names: &[&'a str],
) -> Option<&'a str>
    ensures { option_map (λ name. name.now) result ≡ find (is_astray (map (λ stage. stage.now) stages.now) images.now) (map (λ name. name.now) names.now) }
{
    for name in names {
        if is_astray(stages, images, *name) {
            return Some(*name);
        }
    }
    None
}
