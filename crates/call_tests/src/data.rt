use plain::*;
use std::alloc::Global;

/// Whether a list of two bytes is one of what is copied from it, until another one is pushed.
fn is_list(alloc: Global, items: &mut Items<u8>) -> bool {
    match copied_items(alloc, items.as_slice()) {
        Ok(copied) => {
            let again = Items::from_vec(copied);
            let was_same = items.len() == 2 && items.same(&again);
            was_same && items.push(5).is_ok() && !items.same(&again)
        }
        Err(Memory) => false,
    }
}

#[test]
fn items_are_a_list(rt: HostRuntime) {
    let mut items = Items::new(rt.alloc());
    let was_empty = items.is_empty();
    let are_pushed = items.push(3u8).is_ok() && items.push(5).is_ok();
    assert!(rt; was_empty && are_pushed && is_list(rt.alloc(), &mut items));
    assert!(rt; items.into_vec().as_slice() == [3u8, 5, 5].as_slice());
}

/// Whether a text comes before another one.
fn is_before(alloc: Global, low: &str, high: &str) -> Result<bool, Memory> {
    let low = Text::from_str(alloc, low)?;
    let high = Text::from_str(alloc, high)?;
    Ok(low < high && low != high && !low.same(&high))
}

#[test]
fn texts_are_ordered_by_their_bytes(rt: HostRuntime) {
    // In UTF-16 `𝒜` (1D49C) would be below `ﬀ` (FB00).
    for (low, high) in [("", "a"), ("ab", "b"), ("B", "a"), ("z", "é"), ("ﬀ", "𝒜")] {
        assert!(rt;
            is_before(rt.alloc(), low, high) == Ok(true),
            "{low} {high}"
        );
    }
}

/// Whether a text can be had as this string.
fn is_string_of(alloc: Global, text: Text, string: &str) -> bool {
    match text.into_string(alloc) {
        Ok(had) => had.as_str() == string,
        Err(Memory) => false,
    }
}

/// Whether a text that is a string can be had as one.
fn is_string(alloc: Global, text: &str) -> Result<bool, Memory> {
    let word = Text::from_string(String::from_str(alloc, text)?);
    let is_word = word.len() == text.len() && word.as_str() == text;
    let is_had = is_string_of(alloc, word, text);
    Ok(is_word && is_had)
}

/// Whether a text whose copies share its bytes can be had as a string of its own, and so can a copy.
fn is_shared(alloc: Global, text: &str) -> Result<bool, Memory> {
    let shared = Text::from_str(alloc, text)?.shared(alloc)?;
    let copy = shared.copy(alloc)?;
    let is_same = shared.same(&copy) && shared.as_str() == text;
    let is_had = is_string_of(alloc, shared, text);
    let is_copy_had = is_string_of(alloc, copy, text);
    Ok(is_same && is_had && is_copy_had)
}

#[test]
fn texts_are_strings(rt: HostRuntime) {
    assert!(rt; is_string(rt.alloc(), "né") == Ok(true));
    for text in ["short", "a text of more than sixteen bytes"] {
        assert!(rt; is_shared(rt.alloc(), text) == Ok(true), "{text}");
    }
}

/// Whether bytes that are no text can be had again as they were.
fn are_bytes(alloc: Global, bytes: &[u8]) -> Result<bool, Memory> {
    let held = Bytes::from_vec(bytes.to_vec(alloc)?);
    let are_held = held.len() == bytes.len() && held.as_slice() == bytes;
    Ok(are_held && held.into_vec().as_slice() == bytes)
}

#[test]
fn bytes_need_not_be_text(rt: HostRuntime) {
    assert!(rt; are_bytes(rt.alloc(), &[255, 0]) == Ok(true));
}

fn is_none_marked(alloc: Global) -> Result<bool, Memory> {
    Ok(no_marks(alloc, 2)?.as_slice() == [false, false].as_slice())
}

#[test]
fn no_number_is_marked_at_first(rt: HostRuntime) {
    assert!(rt; is_none_marked(rt.alloc()) == Ok(true));
}

#[test]
fn modes_end_at_07777(rt: HostRuntime) {
    assert!(rt; Mode::new(0o7777).map_or(0, |mode| mode.bits()) == 4095);
    assert!(rt; Mode::new(0o10000).is_none() && Mode::new(0o7777) != Some(Mode::file()));
    assert!(rt; Mode::directory().bits() == 0o755);
}

/// Adds to two lists at once, or to neither.
fn add_to_both(these: &mut Vec<u8>, those: &mut Vec<u8>) -> Result<(), Memory> {
    growth::room(these, 1)?;
    growth::room(those, 1)?;
    growth::add(these, 1);
    growth::add(those, 2);
    Ok(())
}

#[test]
fn lists_grow_together(rt: HostRuntime) {
    let mut these = Vec::new(rt.alloc());
    let mut those = Vec::new(rt.alloc());
    assert!(rt; add_to_both(&mut these, &mut those).is_ok());
    assert!(rt; these.len() == 1 && those.len() == 1);
}

/// A fault of a call that finds no memory.
fn refused(memory: Memory) -> Result<u8, Fault<Sharing>> {
    Err(memory)?;
    Ok(0)
}

fn is_printed(alloc: Global, code: Code, name: &str) -> Result<bool, Memory> {
    Ok(code.to_string(alloc)?.as_str() == name)
}

fn is_want_printed(alloc: Global) -> Result<bool, Memory> {
    Ok(Memory.to_string(alloc)?.as_str() == "out of memory")
}

#[test]
fn faults_are_compared_and_printed(rt: HostRuntime) {
    let refusal = Refusal {
        code: Code::R05,
        line: 1,
    };
    assert!(rt; refusal == refusal && refused(Memory) == Err(Fault::Memory));
    assert!(rt; Fault::Because(Sharing::Shared) != Fault::Memory);
    assert!(rt; is_printed(rt.alloc(), Code::R20, "R20") == Ok(true));
    assert!(rt; is_want_printed(rt.alloc()) == Ok(true));
}
