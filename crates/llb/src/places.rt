ghost use Rattle.std.specs.Prelude.{◌≡◌, ◌<◌, ◌++◌, ◌∷◌, [], IsTrue, IfOk, OnOk, OnErr, vec_len, filter, nat_lt, slice_index_or};
ghost use Rattle.llb.specs.Places.{AreLines, with_line, with_lines, places_with, least_line};

use plain::{Exact, Items, Memory};
use std::alloc::{AllocError, Global};

/// The lines with one more among them, which may be there already.
fn with_line(alloc: Global, lines: &[u32], line: u32) -> Result<Items<u32>, Memory>
    ensures { IfOk result (λ lines_with. lines_with ≡ with_line line lines.now) }
{
    let mut lines_with = lines_before(alloc, lines, line)?;
    let after = lines_after(alloc, lines, line)?;
    lines_with.push(line)?;
    lines_with.extend_from_slice(after.as_slice())?;
    Ok(Items::from_vec(lines_with))
}

/// Those of the lines that are before this one.
fn lines_before(alloc: Global, lines: &[u32], line: u32) -> Result<Vec<u32>, AllocError>
    ensures { IfOk result (λ found. found.items ≡ filter (λ other. nat_lt other line) lines.now) }
{
    lines
        .iter()
        .copied()
        .filter(|other| *other < line)
        .collect(alloc)
}

/// Those of the lines that are after this one.
fn lines_after(alloc: Global, lines: &[u32], line: u32) -> Result<Vec<u32>, AllocError>
    ensures { IfOk result (λ found. found.items ≡ filter (λ other. nat_lt line other) lines.now) }
{
    lines
        .iter()
        .copied()
        .filter(|other| *other > line)
        .collect(alloc)
}

/// The lines with all of these among them, which may be there already.
fn with_lines(alloc: Global, lines: &Items<u32>, more: &[u32]) -> Result<Items<u32>, Memory>
    ensures { IfOk result (λ lines_with. lines_with ≡ with_lines more.now lines.now) }
{
    let mut lines = lines.copy(alloc)?;
    for line in more {
        lines = with_line(alloc, lines.as_slice(), *line)?;
    }
    Ok(lines)
}

/// Whether a line comes after all of some ascending lines.
fn is_after(line: u32, lines: &[u32]) -> bool
    requires { AreLines lines.now }
    ensures { IsTrue result → with_line line lines.now ≡ lines.now ++ line ∷ [] }
{
    match lines {
        [] => true,
        [.., last] => *last < line,
    }
}

/// Adds lines to those of the vertex at `at`. After `Memory` nothing has changed.
///
/// Instructions mostly come in the order of their lines: then the line is put after the others, which aren't gone through.
pub(crate) fn add_lines(
    alloc: Global,
    places: &mut Vec<Items<u32>>,
    at: usize,
    lines: &[u32],
) -> Result<(), Memory>
    requires inside { at < vec_len places.old }
    requires lines { AreLines (slice_index_or places.old.items at []) }
    ensures ok { OnOk result (places.new.items ≡ places_with lines.now at places.old.items) }
    ensures err { OnErr result (places.new.items ≡ places.old.items) }
{
    if lines.is_empty() {
        return Ok(());
    }
    if let [line] = lines {
        if is_after(*line, places[at].as_slice()) {
            return places[at].push(*line);
        }
    }
    let lines = with_lines(alloc, &places[at], lines)?;
    places[at] = lines;
    Ok(())
}

/// The least of some ascending lines; 0 where there is none.
pub(crate) fn least_line(lines: &[u32]) -> u32
    requires { AreLines lines.now }
    ensures { result ≡ least_line lines.now }
{
    match lines {
        [] => 0,
        [line, ..] => *line,
    }
}
