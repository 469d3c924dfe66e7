// Where the text of an instruction ends.
ghost use Rattle.std.specs.Prelude.{◌≡◌, map, drop, take, IfOk};
ghost use Rattle.std.specs.Str.Lines.{lines};
ghost use Rattle.titles.specs.Ends.{last_kept, own_lines, next_number, with_end, ends_of};

use lines::{Escape, Line, part_of};
use plain::{Items, Memory};
use std::alloc::{AllocError, Global};

/// The lines of a text.
fn lines_of(alloc: Global, text: &str) -> Result<Vec<&str>, AllocError>
    ensures { IfOk result (λ found. map (λ line. line.now) found.items ≡ lines text.now) }
{
    text.lines().collect(alloc)
}

/// The lines after so many.
#[tactic(auto, using(crate::proofs::EndFacts::no_lines))]
fn lines_after<'a, 'b>(lines: &'b [&'a str], count: usize) -> &'b [&'a str]
    ensures { map (λ line. line.now) result.now ≡ drop count (map (λ line. line.now) lines.now) }
{
    if count < lines.len() {
        return &lines[count..];
    }
    &[]
}

/// So many of the lines, as far as there are so many.
#[tactic(auto, using(crate::proofs::EndFacts::all_lines))]
fn first_lines<'a, 'b>(lines: &'b [&'a str], count: usize) -> &'b [&'a str]
    ensures { map (λ line. line.now) result.now ≡ take count (map (λ line. line.now) lines.now) }
{
    if count < lines.len() {
        return &lines[..count];
    }
    lines
}

/// The lines from this one on that stand before the next instruction, if there is one.
fn own_lines<'a, 'b>(lines: &'b [&'a str], first: u32, next: Option<u32>) -> &'b [&'a str]
    ensures { map (λ line. line.now) result.now ≡ own_lines (map (λ line. line.now) lines.now) first next }
{
    let own = lines_after(lines, (first as usize).saturating_sub(1));
    match next {
        Some(next) => first_lines(own, (next as usize).saturating_sub(first as usize)),
        None => own,
    }
}

/// The number of the last of some lines that adds something, of which the first one has this number; that of the first one, if none does.
fn last_kept(escape: Escape, lines: &[&str], first: u32) -> usize
    ensures { result ≡ last_kept escape first first (map (λ line. line.now) lines.now) }
{
    let first = first as usize;
    let mut last = first;
    for (index, line) in lines.iter().enumerate() {
        if !part_of(escape, *line).is_empty() {
            last = first + index;
        }
    }
    last
}

/// The number of the first of some instructions' lines, if there is an instruction.
fn next_number(lines: &[Line]) -> Option<u32>
    ensures { result ≡ next_number lines.now }
{
    match lines {
        [] => None,
        [line, ..] => Some(line.number),
    }
}

/// Ends by the numbers of lines, with that of the instruction of a line.
fn with_end(ends: Items<usize>, line: u32, end: usize) -> Result<Items<usize>, Memory>
    ensures { IfOk result (λ more. more ≡ with_end ends line end) }
{
    let mut ends = ends;
    while ends.len() < line as usize {
        ends.push(0)?;
    }
    ends.push(end)?;
    Ok(ends)
}

/// The last line of each instruction of a text, by the line on which it begins: all its text stands from there to that line, its heredocs too. The
/// lines are the logical ones of the text, and 0 stands at the number of a line on which none begins.
pub fn ends_of(alloc: Global, text: &str, lines: &[Line]) -> Result<Items<usize>, Memory>
    ensures { IfOk result (λ ends. ends ≡ ends_of text.now lines.now) }
{
    let all = lines_of(alloc, text)?;
    let mut ends = Items::new(alloc);
    let mut left = lines;
    'instructions: while let [line, rest @ ..] = left {
        let own = own_lines(all.as_slice(), line.number, next_number(rest));
        ends = with_end(ends, line.number, last_kept(line.escape, own, line.number))?;
        left = rest;
    }
    Ok(ends)
}
