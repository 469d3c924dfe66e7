ghost use Rattle.std.specs.Prelude.{◌≡◌, map, option_map, IfOk};
ghost use Rattle.std.specs.List.{list_any};
ghost use Rattle.options.specs.Item.{shown, number_of, has_key, value_at, has_twice};

use plain::{Memory, Text};
use std::alloc::Global;

/// What an item of a mount is about.
#[derive(Clone, Copy)]
pub enum Key {
    /// `type`.
    Kind,
    /// `target`, `dst` or `destination`.
    Target,
    /// `source`.
    Source,
    /// `from`.
    From,
    /// `rw` or `readwrite`.
    Writable,
    /// `id`.
    Id,
    /// `sharing`.
    Sharing,
}

impl Key {
    /// The number of the key, which no other key has.
    fn number(self) -> u8
        ensures { result ≡ number_of self }
    {
        match self {
            Key::Kind => 0,
            Key::Target => 1,
            Key::Source => 2,
            Key::From => 3,
            Key::Writable => 4,
            Key::Id => 5,
            Key::Sharing => 6,
        }
    }
}

/// An item of a mount: a key with its value.
#[derive(Clone, Copy)]
pub struct Item<'a> {
    pub key: Key,
    /// The value as it is written; `true` where there is the key alone.
    pub value: &'a str,
}

/// Whether an item has a key.
fn has_key(key: Key, item: &Item) -> bool
    ensures { result ≡ has_key key (shown item.now) }
{
    item.key.number() == key.number()
}

/// The value of a key: that of the first item that has it.
pub fn value_at<'a>(key: Key, items: &[Item<'a>]) -> Option<&'a str>
    ensures { option_map (λ value. value.now) result ≡ value_at key (map shown items.now) }
{
    for item in items {
        if has_key(key, item) {
            return Some(item.value);
        }
    }
    None
}

/// A copy of the value of a key.
pub fn copy_value(alloc: Global, key: Key, items: &[Item]) -> Result<Option<Text>, Memory>
    ensures { IfOk result (λ value. value ≡ value_at key (map shown items.now)) }
{
    match value_at(key, items) {
        Some(value) => Ok(Some(Text::from_str(alloc, value)?)),
        None => Ok(None),
    }
}

/// Whether one of the items has a key.
fn have_key(key: Key, items: &[Item]) -> bool
    ensures { result ≡ list_any (has_key key) (map shown items.now) }
{
    for item in items {
        if has_key(key, item) {
            return true;
        }
    }
    false
}

/// Whether two items have the same key.
pub fn has_twice(items: &[Item]) -> bool
    ensures { result ≡ has_twice (map shown items.now) }
{
    // There are seven keys, so no more than seven of them are looked for among the others.
    let mut rest = items;
    while let [first, others @ ..] = rest {
        if have_key(first.key, others) {
            return true;
        }
        rest = others;
    }
    false
}
