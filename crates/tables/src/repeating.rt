// Texts that are too long for a line of a table. What stands between `«` and `»` is a number, `×` and a text that is there so often; in it `№` is the
// number of the time, from 0 on. Outside of these, `ÿ` is the byte FF, which is no character.

use plain::Memory;
use std::alloc::Global;

/// The bytes that a text of a table stands for.
pub fn spread(alloc: Global, text: &str) -> Result<Vec<u8>, Memory> {
    let mut bytes = Vec::new(alloc);
    for (number, piece) in text.split('«').enumerate() {
        if number == 0 {
            push_plain(&mut bytes, piece)?;
        } else {
            push_repeated(alloc, &mut bytes, piece)?;
        }
    }
    Ok(bytes)
}

/// Adds a text in which nothing is repeated.
fn push_plain(bytes: &mut Vec<u8>, text: &str) -> Result<(), Memory> {
    for (number, piece) in text.split('ÿ').enumerate() {
        if number > 0 {
            bytes.push(0xff)?;
        }
        bytes.extend_from_slice(piece.as_bytes())?;
    }
    Ok(())
}

/// Adds what is repeated up to `»`, and what stands after it.
fn push_repeated(alloc: Global, bytes: &mut Vec<u8>, piece: &str) -> Result<(), Memory> {
    let (repeated, rest) = piece.split_once('»').unwrap_or((piece, ""));
    let (times, text) = repeated.split_once('×').unwrap_or(("", repeated));
    let times = times.parse::<usize>().unwrap_or(0);
    match text.as_bytes() {
        [byte] => bytes.resize(bytes.len().saturating_add(times), *byte)?,
        _ => push_times(alloc, bytes, times, text)?,
    }
    push_plain(bytes, rest)
}

fn push_times(alloc: Global, bytes: &mut Vec<u8>, times: usize, text: &str) -> Result<(), Memory> {
    for number in 0..times {
        push_numbered(alloc, bytes, number, text)?;
    }
    Ok(())
}

/// Adds a text with this number.
fn push_numbered(
    alloc: Global,
    bytes: &mut Vec<u8>,
    number: usize,
    text: &str,
) -> Result<(), Memory> {
    let number = format!(in alloc; "{number}")?;
    for (place, piece) in text.split('№').enumerate() {
        if place > 0 {
            bytes.extend_from_slice(number.as_bytes())?;
        }
        bytes.extend_from_slice(piece.as_bytes())?;
    }
    Ok(())
}
