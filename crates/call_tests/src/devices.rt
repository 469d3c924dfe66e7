use counted::*;
use std::alloc::Global;
use std::io::Cursor;

/// Whether bytes and an end that are written in memory are a text with an end.
fn is_written(alloc: Global, bytes: &[u8], text: &str) -> bool {
    let mut output = Counted::new(Vec::new(alloc));
    let is_whole = match write_all(&mut output, bytes) {
        Ok(()) => write_all(&mut output, b"!").is_ok(),
        Err(_) => false,
    };
    let is_counted = output.failures() == 0;
    let written = output.into_inner();
    is_whole && is_counted && written.as_slice().strip_suffix(b"!") == Some(text.as_bytes())
}

/// Whether a text in memory is read whole, and written with an end behind it.
fn is_copied(alloc: Global, text: &str) -> bool {
    let mut input = Counted::new(Cursor::new(text.as_bytes()));
    match read_all(alloc, &mut input, 1000) {
        Ok(bytes) => is_written(alloc, bytes.as_slice(), text),
        Err(_) => false,
    }
}

#[test]
fn copies_from_edge_to_edge(rt: HostRuntime) {
    for text in ["", "a", "a longer text\n"] {
        assert!(rt; is_copied(rt.alloc(), text), "{text}");
    }
}
