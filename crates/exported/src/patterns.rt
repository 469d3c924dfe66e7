// What BuildKit is told of a source of a COPY.

ghost use Rattle.std.specs.Prelude.{◌≡◌, ◌++◌, ◌∷◌, [], IfOk, OnOk, map, MatchOption};
ghost use Rattle.std.specs.List.{list_any};
ghost use Rattle.std.specs.Str.{chars, encode_utf8_all};
ghost use Rattle.std.specs.String.{string_bytes};
ghost use Rattle.paths.specs.Path.{rooted, is_normal};
ghost use Rattle.exported.specs.Patterns.{is_sign, escapes, name_of, as_class, as_classes, is_active, begins, opening, source_after, or_root, source_path, allows_wildcard};

use globs::cut_components;
use plain::{Memory, Text};
use std::alloc::{AllocError, Global};

/// Whether a character relates to more than itself.
#[tactic(auto, unfolding(crate::specs::Patterns::is_sign))]
pub(crate) fn is_sign(code: u32) -> bool
    ensures { result ≡ is_sign code }
{
    code == 42 || code == 63 || code == 91
}

/// Whether a character is a `\` that makes the next one plain.
fn escapes(is_escaped: bool, c: char) -> bool
    ensures { result ≡ escapes is_escaped c }
{
    !is_escaped && c == '\\'
}

/// The first character of a text, and the text after it.
pub(crate) fn first_and_rest(text: &str) -> Option<(char, &str)>
    ensures { MatchOption result (chars text.now ≡ []) (λ p. chars text.now ≡ p.0 ∷ chars p.1.now) }
{
    let mut characters = text.chars();
    match characters.next() {
        Some(character) => Some((character, characters.as_str())),
        None => None,
    }
}

/// Whether a component has a sign.
fn is_active(component: &str) -> bool
    ensures { result ≡ is_active component.now }
{
    let mut is_escaped = false;
    let mut left = component;
    while let Some((c, rest)) = first_and_rest(left) {
        if !is_escaped && is_sign(c as u32) {
            return true;
        }
        is_escaped = escapes(is_escaped, c);
        left = rest;
    }
    false
}

/// Whether some component has a sign.
fn any_active(components: &[&str]) -> bool
    ensures { result ≡ list_any is_active (map (λ text. text.now) components.now) }
{
    for component in components {
        if is_active(component) {
            return true;
        }
    }
    false
}

/// The name that a component without a sign spells.
pub(crate) fn name_of(alloc: Global, component: &str) -> Result<String, Memory>
    ensures { IfOk result (λ name. string_bytes name ≡ name_of component.now) }
{
    let mut name = String::new(alloc);
    let mut is_escaped = false;
    let mut left = component;
    while let Some((c, rest)) = first_and_rest(left) {
        let is_sign = escapes(is_escaped, c);
        if !is_sign {
            name.push(c)?;
        }
        is_escaped = is_sign;
        left = rest;
    }
    Ok(name)
}

/// Adds a character of a name, in a pattern that relates to it alone.
fn push_class(pattern: &mut String, c: char) -> Result<(), AllocError>
    ensures { OnOk result (string_bytes pattern.new ≡ string_bytes pattern.old ++ encode_utf8_all (as_class c)) }
{
    if is_sign(c as u32) || c == '.' {
        pattern.push('[')?;
        pattern.push(c)?;
        return pattern.push(']');
    }
    if c == '\\' {
        return pattern.push_str("\\\\");
    }
    pattern.push(c)
}

/// Adds a name, in a pattern that relates to it alone.
fn push_classes(pattern: &mut String, name: &str) -> Result<(), AllocError>
    ensures { OnOk result (string_bytes pattern.new ≡ string_bytes pattern.old ++ encode_utf8_all (as_classes (chars name.now))) }
{
    let mut left = name;
    while let Some((c, rest)) = first_and_rest(left) {
        push_class(pattern, c)?;
        left = rest;
    }
    Ok(())
}

/// Whether some byte is a sign.
fn any_sign(bytes: &[u8]) -> bool
    ensures { result ≡ list_any is_sign bytes.now }
{
    for byte in bytes {
        if is_sign(u32::from(*byte)) {
            return true;
        }
    }
    false
}

/// Whether a name is no word of a path's text.
fn is_normal(name: &str) -> bool
    ensures { result ≡ is_normal name.now }
{
    !matches!(name.as_bytes(), [] | [b'.'] | [b'.', b'.'])
}

/// Whether a component, of which this is the name, begins the pattern.
#[tactic(auto, unfolding(crate::specs::Patterns::begins))]
pub(crate) fn begins(globs: bool, component: &str, name: &str) -> bool
    requires { name.now ≡ name_of component.now }
    ensures { result ≡ begins globs component.now }
{
    if is_active(component) || !is_normal(name) {
        return true;
    }
    globs && any_sign(name.as_bytes())
}

/// Adds a component that begins the pattern, of which this is the name.
#[tactic(auto, unfolding(crate::specs::Patterns::opening))]
fn push_opening(path: &mut String, component: &str, name: &str) -> Result<(), AllocError>
    requires { name.now ≡ name_of component.now }
    ensures { OnOk result (string_bytes path.new ≡ string_bytes path.old ++ opening component.now) }
{
    if is_active(component) {
        return path.push_str(component);
    }
    push_classes(path, name)
}

/// Adds a `/` before each component, and it.
fn push_rooted(path: &mut String, components: &[&str]) -> Result<(), AllocError>
    ensures { OnOk result (string_bytes path.new ≡ string_bytes path.old ++ rooted (map (λ text. text.now) components.now)) }
{
    for component in components {
        path.push('/')?;
        path.push_str(component)?;
    }
    Ok(())
}

/// Adds a `/` before each component, and it, as BuildKit is told them. It answers whether one begins the pattern.
fn push_source(
    alloc: Global,
    path: &mut String,
    globs: bool,
    components: &[&str],
) -> Result<bool, Memory>
    ensures wild { IfOk result (λ wild. wild ≡ list_any (begins globs) (map (λ text. text.now) components.now)) }
    ensures path { OnOk result (string_bytes path.new ≡ string_bytes path.old ++ source_after globs (map (λ text. text.now) components.now)) }
{
    let mut left = components;
    'components: while let [component, rest @ ..] = left {
        let name = name_of(alloc, component)?;
        path.push('/')?;
        if begins(globs, component, name.as_str()) {
            push_opening(path, component, name.as_str())?;
            push_rooted(path, rest)?;
            return Ok(true);
        }
        path.push_str(name.as_str())?;
        left = rest;
    }
    Ok(false)
}

/// The path that BuildKit is told of a pattern, and whether it is to take it for one.
#[tactic(auto, unfolding(crate::specs::Patterns::source_path, crate::specs::Patterns::allows_wildcard))]
pub(crate) fn source_path(alloc: Global, text: &str) -> Result<(Text, bool), Memory>
    ensures { IfOk result (λ told. told ≡ (source_path text.now, allows_wildcard text.now)) }
{
    let components = cut_components(alloc, text)?;
    let globs = any_active(components.as_slice());
    let mut path = String::new(alloc);
    let wild = push_source(alloc, &mut path, globs, components.as_slice())?;
    Ok((Text::from_string(or_root(path)?), wild))
}

/// A path; `/` where it has no component.
pub(crate) fn or_root(path: String) -> Result<String, Memory>
    ensures { IfOk result (λ whole. string_bytes whole ≡ or_root (string_bytes path)) }
{
    let mut path = path;
    if path.is_empty() {
        path.push('/')?;
    }
    Ok(path)
}
