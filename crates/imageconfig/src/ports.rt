ghost use Rattle.std.specs.Prelude.{◌≡◌, ◌++◌, ◌∷◌, is_some, option_map, IfOk};
ghost use Rattle.std.specs.List.{list_any, filter_map};
ghost use Rattle.imageconfig.specs.Lines.{is_bad_port};
ghost use Rattle.imageconfig.specs.Ports.{has_zero, is_port, protocol_of, port_key};

use ascii::parse_number;
use plain::{Items, Memory, Text};
use std::alloc::Global;

/// Whether a number begins with a zero.
fn has_zero(bytes: &[u8]) -> bool
    ensures { result ≡ has_zero bytes.now }
{
    match bytes {
        [first, ..] => *first == b'0',
        [] => false,
    }
}

/// Whether a text is a port's number: 1 to 65535 in decimal digits, without leading zeros.
fn is_port(text: &str) -> bool
    ensures { result ≡ is_port text.now }
{
    if has_zero(text.as_bytes()) {
        return false;
    }
    match parse_number(text) {
        Some(number) => number < 1 << 16,
        None => false,
    }
}

/// The protocol that a text names, in lower case.
fn protocol_of(text: &str) -> Option<&'static str>
    ensures { option_map (λ p. p.now) result ≡ protocol_of text.now }
{
    if text.eq_ignore_ascii_case("tcp") {
        return Some("tcp");
    }
    if text.eq_ignore_ascii_case("udp") {
        return Some("udp");
    }
    None
}

/// A port's number and its protocol, where both are right.
#[tactic(auto, unfolding(crate::specs::Ports::port_key))]
fn cut<'a>(text: &'a str) -> Option<(&'a str, &'static str)>
    ensures { option_map (λ c. c.0.now ++ 47 ∷ c.1.now) result ≡ port_key text.now }
{
    match text.split_once('/') {
        Some((port, protocol)) => {
            let protocol = protocol_of(protocol)?;
            if is_port(port) {
                Some((port, protocol))
            } else {
                None
            }
        }
        None => {
            if is_port(text) {
                Some((text, "tcp"))
            } else {
                None
            }
        }
    }
}

/// Whether a text is a port, as EXPOSE takes it: `port` or `port/protocol`.
pub fn names_port(text: &str) -> bool
    ensures { result ≡ is_some (port_key text.now) }
{
    cut(text).is_some()
}

/// The key that a port has, where the text is one.
fn key_of(alloc: Global, text: &str) -> Result<Option<Text>, Memory>
    ensures { IfOk result (λ key. key ≡ port_key text.now) }
{
    let Some((port, protocol)) = cut(text) else {
        return Ok(None);
    };
    let mut key = String::from_str(alloc, port)?;
    key.push('/')?;
    key.push_str(protocol)?;
    Ok(Some(Text::from_string(key)))
}

/// The keys of those texts that are ports.
pub(crate) fn keys_of(alloc: Global, texts: &[Text]) -> Result<Items<Text>, Memory>
    ensures { IfOk result (λ keys. keys ≡ filter_map port_key texts.now) }
{
    let mut keys = Items::new(alloc);
    for text in texts {
        if let Some(key) = key_of(alloc, text.as_str())? {
            keys.push(key)?;
        }
    }
    Ok(keys)
}

/// Whether a text is no port.
fn is_bad_port(text: &Text) -> bool
    ensures { result ≡ is_bad_port text.now }
{
    cut(text.as_str()).is_none()
}

/// Whether one of the texts is no port.
pub(crate) fn have_bad_port(texts: &[Text]) -> bool
    ensures { result ≡ list_any is_bad_port texts.now }
{
    texts.iter().any(|text| is_bad_port(text))
}
