// The lines of an ignore file as they stand in it. They are cut as `ignorefile` cuts them.
ghost use Rattle.std.specs.Prelude.{◌≡◌, ◌<◌, [], ◌∷◌, IfOk, MatchOption, length, map};
ghost use Rattle.std.specs.Str.Lines.{lines, strip_carriage_return};
ghost use Rattle.ignorefile.specs.File.{without_byte_order_mark};

use plain::Memory;
use std::alloc::Global;

/// Bytes without a leading byte order mark.
fn without_byte_order_mark(bytes: &[u8]) -> &[u8]
    ensures { result.now ≡ without_byte_order_mark bytes.now }
{
    match bytes {
        [0xEF, 0xBB, 0xBF, rest @ ..] => rest,
        _ => bytes,
    }
}

/// A line that ended by LF, without the CR right before that.
fn without_carriage_return(line: &[u8]) -> &[u8]
    ensures { result.now ≡ strip_carriage_return line.now }
{
    match line {
        [front @ .., b'\r'] => front,
        _ => line,
    }
}

/// The first line of these bytes, and what stands behind its LF; none where there is no line.
fn first_line(bytes: &[u8]) -> Option<(&[u8], &[u8])>
    ensures { MatchOption result (lines bytes.now ≡ []) (λ found. (lines bytes.now ≡ found.0.now ∷ lines found.1.now) × (length found.1.now < length bytes.now)) }
{
    for (at, byte) in bytes.iter().enumerate() {
        if *byte == b'\n' {
            return Some((without_carriage_return(&bytes[..at]), &bytes[at + 1..]));
        }
    }
    match bytes {
        [] => None,
        [_, ..] => Some((bytes, &[])),
    }
}

/// The lines of an ignore file's bytes, without what ends them.
pub(crate) fn cut_lines(alloc: Global, bytes: &[u8]) -> Result<Vec<&[u8]>, Memory>
    ensures { IfOk result (λ texts. map (λ text. text.now) texts.items ≡ lines (without_byte_order_mark bytes.now)) }
{
    let mut texts = Vec::new(alloc);
    let mut left = without_byte_order_mark(bytes);
    while let Some((line, rest)) = first_line(left) {
        texts.push(line)?;
        left = rest;
    }
    Ok(texts)
}
