// The whole name of an image, and the same with the digest that pins it.

ghost use Rattle.std.specs.Prelude.{◌≡◌, ◌++◌, IfOk, MatchOption, None, Some, codes, option_map};
ghost use Rattle.std.specs.String.{string_bytes};
ghost use Rattle.exported.specs.Names.{has_byte, is_host_byte, has_host_byte, names_host, after_docker, after_index, without_host, hub_rest, in_hub, from_slash, with_tag, whole_name, digest_for, pinned_name};

use named::NamedRows;
use plain::{Memory, Text};
use std::alloc::Global;

/// Whether a byte is among some.
fn has_byte(wanted: u8, bytes: &[u8]) -> bool
    ensures { result ≡ has_byte wanted bytes.now }
{
    for byte in bytes {
        if *byte == wanted {
            return true;
        }
    }
    false
}

/// Whether only a host has this byte in a name's first part.
#[tactic(auto, unfolding(crate::specs::Names::is_host_byte))]
fn is_host_byte(byte: u8) -> bool
    ensures { result ≡ is_host_byte byte }
{
    byte == 46 || byte == 58 || (65 <= byte && byte <= 90)
}

/// Whether such a byte stands before the first slash.
fn has_host_byte(name: &[u8]) -> bool
    ensures { result ≡ has_host_byte name.now }
{
    for byte in name {
        if *byte == 47 {
            return false;
        }
        if is_host_byte(*byte) {
            return true;
        }
    }
    false
}

/// Whether a name's first part is a host.
#[tactic(auto, unfolding(crate::specs::Names::names_host))]
fn names_host(name: &str) -> bool
    ensures { result ≡ names_host name.now }
{
    if !has_byte(b'/', name.as_bytes()) {
        return false;
    }
    if name.starts_with("localhost/") {
        return true;
    }
    has_host_byte(name.as_bytes())
}

/// What follows `docker.io/` in a name that begins with it.
#[tactic(auto, unfolding(crate::specs::Names::after_docker))]
fn after_docker(name: &str) -> Option<&str>
    ensures { MatchOption result (after_docker name.now ≡ None) (λ rest. after_docker name.now ≡ Some rest.now) }
{
    name.strip_prefix("docker.io/")
}

/// What follows the same host's other name, `index.docker.io/`.
#[tactic(auto, unfolding(crate::specs::Names::after_index))]
fn after_index(name: &str) -> Option<&str>
    ensures { MatchOption result (after_index name.now ≡ None) (λ rest. after_index name.now ≡ Some rest.now) }
{
    match name.strip_prefix("index.") {
        Some(rest) => after_docker(rest),
        None => None,
    }
}

/// A name that names no host.
#[tactic(auto, unfolding(crate::specs::Names::without_host))]
fn without_host(name: &str) -> Option<&str>
    ensures { MatchOption result (without_host name.now ≡ None) (λ rest. without_host name.now ≡ Some rest.now) }
{
    match names_host(name) {
        true => None,
        false => Some(name),
    }
}

/// What follows the host of a name on Docker's own host, where no host is named too.
fn hub_rest(name: &str) -> Option<&str>
    ensures { MatchOption result (hub_rest name.now ≡ None) (λ rest. hub_rest name.now ≡ Some rest.now) }
{
    if let Some(rest) = after_docker(name) {
        return Some(rest);
    }
    if let Some(rest) = after_index(name) {
        return Some(rest);
    }
    without_host(name)
}

/// A name on Docker's own host.
#[tactic(auto, unfolding(crate::specs::Names::in_hub))]
fn in_hub(alloc: Global, rest: &str) -> Result<String, Memory>
    ensures { IfOk result (λ name. string_bytes name ≡ in_hub rest.now) }
{
    let front = if has_byte(b'/', rest.as_bytes()) {
        "docker.io/"
    } else {
        "docker.io/library/"
    };
    let mut name = String::from_str(alloc, front)?;
    name.push_str(rest)?;
    Ok(name)
}

/// What follows a name's first part.
fn from_slash(name: &[u8]) -> &[u8]
    ensures { result.now ≡ from_slash name.now }
{
    let mut left = name;
    'bytes: while let [byte, rest @ ..] = left {
        if *byte == 47 {
            return left;
        }
        left = rest;
    }
    left
}

/// A name with the tag `latest`, where what follows its host has neither a digest nor a tag.
#[tactic(auto, unfolding(crate::specs::Names::with_tag))]
fn with_tag(whole: String, rest: &[u8]) -> Result<String, Memory>
    ensures { IfOk result (λ name. string_bytes name ≡ with_tag rest.now (string_bytes whole)) }
{
    if has_byte(b'@', rest) || has_byte(b':', rest) {
        return Ok(whole);
    }
    let mut whole = whole;
    whole.push_str(":latest")?;
    Ok(whole)
}

/// The whole name of an image.
#[tactic(auto, unfolding(crate::specs::Names::whole_name))]
pub(crate) fn whole_name(alloc: Global, name: &str) -> Result<String, Memory>
    ensures { IfOk result (λ whole. string_bytes whole ≡ whole_name name.now) }
{
    match hub_rest(name) {
        Some(rest) => with_tag(in_hub(alloc, rest)?, rest.as_bytes()),
        None => with_tag(String::from_str(alloc, name)?, from_slash(name.as_bytes())),
    }
}

/// The digest that a name is given, unless it has one itself.
#[tactic(auto, unfolding(crate::specs::Names::digest_for))]
fn digest_for<'a>(digests: &'a NamedRows<Text>, name: &Text) -> Option<&'a Text>
    ensures { option_map (λ digest. digest.now) result ≡ digest_for digests.now name.now }
{
    if has_byte(b'@', name.as_str().as_bytes()) {
        return None;
    }
    digests.get(name)
}

/// A name with a digest.
fn with_digest(whole: String, digest: &str) -> Result<String, Memory>
    ensures { IfOk result (λ name. string_bytes name ≡ (string_bytes whole ++ codes "@") ++ digest.now) }
{
    let mut name = whole;
    name.push_str("@")?;
    name.push_str(digest)?;
    Ok(name)
}

/// The whole name of an image, with the digest that pins it, if there is one.
#[tactic(auto, unfolding(crate::specs::Names::pinned_name))]
pub(crate) fn pinned_name(
    alloc: Global,
    digests: &NamedRows<Text>,
    name: &Text,
) -> Result<String, Memory>
    ensures { IfOk result (λ pinned. string_bytes pinned ≡ pinned_name digests.now name.now) }
{
    let whole = whole_name(alloc, name.as_str())?;
    match digest_for(digests, name) {
        Some(digest) => with_digest(whole, digest.as_str()),
        None => Ok(whole),
    }
}
