// The word that a fault is about, as it is shown.
ghost use Rattle.std.specs.Prelude.{◌≡◌, ◌++◌, chars, map, option_map, IfOk, OnOk};
ghost use Rattle.std.specs.List.{flat_map};
ghost use Rattle.std.specs.String.{string_bytes};
ghost use Rattle.meant.specs.WordFaults.{word_fault};
ghost use Rattle.pointed.specs.Spot.{spot as spot_of};
ghost use Rattle.checks.specs.Mark.{blank_under, caret_under, mark_under, placed_spot, later_spot, later_by, spot_in, spotted_in, faulty_spot, told_spot, spot_by, marked_whole, marked_item, marked_by};

use crate::visible::visible;
use ascii::first_piece;
use expand::Reason;
use meant::{faulty_item, word_fault};
use plain::{Code, Memory, Text};
use pointed::{Pointed, are_flags_alone, pointed, pointed_later, spotted};
use sentences::Subject;
use std::alloc::{AllocError, Global};

/// Adds what stands under a character before a word.
fn push_blank(mark: &mut String, character: char) -> Result<(), AllocError>
    ensures { OnOk result (string_bytes mark.new ≡ string_bytes mark.old ++ blank_under character) }
{
    if character == '\t' {
        mark.push_str("\t")
    } else {
        mark.push_str(" ")
    }
}

/// What stands under a text before a word.
fn blanks_under(alloc: Global, text: &str) -> Result<String, Memory>
    ensures { IfOk result (λ mark. string_bytes mark ≡ flat_map blank_under (chars text.now)) }
{
    let mut mark = String::new(alloc);
    for character in text.chars() {
        push_blank(&mut mark, character)?;
    }
    Ok(mark)
}

/// What stands under a word.
fn carets_under(alloc: Global, text: &str) -> Result<String, Memory>
    ensures { IfOk result (λ mark. string_bytes mark ≡ flat_map caret_under (chars text.now)) }
{
    let mut mark = String::new(alloc);
    for _character in text.chars() {
        mark.push_str("^")?;
    }
    Ok(mark)
}

/// The mark under a word, as wide as what is shown of it, after what is shown of the line before it.
#[tactic(auto, unfolding(crate::specs::Mark::mark_under))]
pub(crate) fn mark_under(alloc: Global, before: &str, word: &str) -> Result<String, Memory>
    ensures { IfOk result (λ mark. string_bytes mark ≡ mark_under before.now word.now) }
{
    let before = visible(alloc, before)?;
    let word = visible(alloc, word)?;
    let mut mark = blanks_under(alloc, before.as_str())?;
    let carets = carets_under(alloc, word.as_str())?;
    mark.push_str(carets.as_str())?;
    Ok(mark)
}

/// A word that a fault is about, and where it stands.
#[derive(Drop)]
pub(crate) struct Marked {
    /// How many lines of its instruction stand above its own.
    pub above: usize,
    /// What stands before it in its line.
    pub before: Text,
    /// The word.
    pub word: Text,
}

/// The word of the later lines of an instruction that a refusal by this code is about, with how many lines stand above its own: there is one only where the
/// lines above have flags alone. `front` is what the first of them has.
fn later_spot<'a>(
    alloc: Global,
    code: Code,
    subject: Subject,
    front: &'a str,
    later: &[&'a str],
) -> Result<Option<(usize, Pointed<'a>)>, Memory>
    ensures { IfOk result (λ found. option_map placed_spot found ≡ later_spot code subject 1 front.now (map (λ line. line.now) later.now)) }
{
    let mut front = front;
    let mut above = 1;
    for line in later {
        if !are_flags_alone(alloc, front)? {
            return Ok(None);
        }
        if let Some(found) = pointed_later(alloc, code, subject, *line)? {
            return Ok(Some((above, found)));
        }
        front = *line;
        above += 1;
    }
    Ok(None)
}

/// The same of an instruction that takes flags in several lines, by all lines of it.
fn later_by<'a>(
    alloc: Global,
    code: Code,
    line: &'a str,
    later: &[&'a str],
) -> Result<Option<(usize, Pointed<'a>)>, Memory>
    ensures { IfOk result (λ found. option_map placed_spot found ≡ later_by code line.now (map (λ line. line.now) later.now)) }
{
    match Subject::of_line(line) {
        Subject::Run => {
            let (_, front) = first_piece(line);
            later_spot(alloc, code, Subject::Run, front, later)
        }
        _ => Ok(None),
    }
}

/// The word that a refusal by this code is about, of the lines of an instruction, with how many of them stand above its own.
fn spot_in<'a>(
    alloc: Global,
    code: Code,
    own: &[&'a str],
) -> Result<Option<(usize, Pointed<'a>)>, Memory>
    ensures { IfOk result (λ found. option_map placed_spot found ≡ spot_in code (map (λ line. line.now) own.now)) }
{
    let [line, later @ ..] = own else {
        return Ok(None);
    };
    match pointed(alloc, code, *line)? {
        Some(found) => Ok(Some((0, found))),
        None => later_by(alloc, code, *line, later),
    }
}

/// The first line of an instruction that has this word, by how many stand above it, with where the word stands in it.
fn spotted_in<'a>(
    alloc: Global,
    own: &[&'a str],
    word: &str,
) -> Result<Option<(usize, Pointed<'a>)>, Memory>
    ensures { IfOk result (λ found. option_map placed_spot found ≡ spotted_in 0 word.now (map (λ line. line.now) own.now)) }
{
    let mut above = 0;
    for line in own {
        if let Some(found) = spotted(alloc, *line, word)? {
            return Ok(Some((above, found)));
        }
        above += 1;
    }
    Ok(None)
}

/// The word of an instruction that is wrong for this reason, by all lines of its file.
fn faulty_spot<'a>(
    alloc: Global,
    reason: &Reason,
    lines: &[&str],
    own: &[&'a str],
    number: u32,
) -> Result<Option<(usize, Pointed<'a>)>, Memory>
    ensures { IfOk result (λ found. option_map placed_spot found ≡ faulty_spot (word_fault (map (λ line. line.now) lines.now) (map (λ line. line.now) own.now) reason.now number) (map (λ line. line.now) own.now)) }
{
    match word_fault(alloc, lines, own, reason, number)? {
        Some(found) => spotted_in(alloc, own, found.word.as_str()),
        None => Ok(None),
    }
}

/// The word that its first lines tell.
fn told_spot<'a>(
    alloc: Global,
    reason: &Reason,
    own: &[&'a str],
) -> Result<Option<(usize, Pointed<'a>)>, Memory>
    ensures { IfOk result (λ found. option_map placed_spot found ≡ told_spot reason.now (map (λ line. line.now) own.now)) }
{
    match reason {
        Reason::Coded(code) => spot_in(alloc, *code, own),
        Reason::Required(_) => Ok(None),
    }
}

/// The word of an instruction that a refusal for this reason is about, if its lines tell it. They are `own`, among these lines of its file, and the first of
/// them has this number.
pub(crate) fn spot_by<'a>(
    alloc: Global,
    reason: &Reason,
    lines: &[&str],
    own: &[&'a str],
    number: u32,
) -> Result<Option<(usize, Pointed<'a>)>, Memory>
    ensures { IfOk result (λ found. option_map placed_spot found ≡ spot_by reason.now (map (λ line. line.now) lines.now) (map (λ line. line.now) own.now) number) }
{
    match told_spot(alloc, reason, own)? {
        Some(found) => Ok(Some(found)),
        None => faulty_spot(alloc, reason, lines, own, number),
    }
}

/// A word with where it stands.
fn marked_whole(alloc: Global, above: usize, spot: Pointed<'_>) -> Result<Marked, Memory>
    ensures { IfOk result (λ marked. marked ≡ marked_whole (above, spot_of spot.entry)) }
{
    let before = Text::from_str(alloc, spot.before)?;
    let word = Text::from_str(alloc, spot.word)?;
    Ok(Marked {
        above,
        before,
        word,
    })
}

/// The item of a mount that is marked in place of its flag: the first one with which something is wrong.
fn marked_item(alloc: Global, above: usize, spot: Pointed<'_>) -> Result<Marked, Memory>
    ensures { IfOk result (λ marked. marked ≡ marked_item (above, spot_of spot.entry)) }
{
    match faulty_item(alloc, spot.word)? {
        Some(found) => {
            let mut before = String::from_str(alloc, spot.before)?;
            before.push_str(found.front.as_str())?;
            Ok(Marked {
                above,
                before: Text::from_string(before),
                word: found.item,
            })
        }
        None => marked_whole(alloc, above, spot),
    }
}

/// What is marked of the word that a refusal for this reason is about.
pub(crate) fn marked_by(
    alloc: Global,
    reason: &Reason,
    found: Option<(usize, Pointed<'_>)>,
) -> Result<Option<Marked>, Memory>
    ensures { IfOk result (λ marked. marked ≡ marked_by reason.now (option_map placed_spot found.entry)) }
{
    let Some((above, spot)) = found else {
        return Ok(None);
    };
    match reason {
        Reason::Coded(Code::R17) => Ok(Some(marked_item(alloc, above, spot)?)),
        _ => Ok(Some(marked_whole(alloc, above, spot)?)),
    }
}
