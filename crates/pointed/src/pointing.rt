ghost use Rattle.std.specs.Prelude.{◌≡◌, bytes_eq, map, option_map, option_and_then, IfOk};
ghost use Rattle.ascii.specs.Blanks.{after_blanks};
ghost use Rattle.words.specs.Flag.{behind_pieces};
ghost use Rattle.pointed.specs.Pointing.{is_of_flag, has_flags, number_of, spot_after, pointed, are_flags_alone, tells_alone, pointed_later, number_of_word, spotted};
ghost use Rattle.pointed.specs.Spot.{spot, spot_at};

use crate::flag::flag_number;
use crate::spot::{Pointed, after_pieces, spot_at};
use crate::word::word_number;
use ascii::{after_blanks, first_piece, split_at_blanks};
use plain::{Code, Memory};
use sentences::Subject;
use std::alloc::Global;
use words::flags;

/// Whether a code is about a flag.
fn is_of_flag(code: Code) -> bool
    ensures { result ≡ is_of_flag code }
{
    match code {
        Code::R07 => true,
        _ => false,
    }
}

/// Whether the codes that are about words of an instruction are about flags.
fn has_flags(subject: Subject) -> bool
    ensures { result ≡ has_flags subject }
{
    match subject {
        Subject::Copy => true,
        Subject::Run => true,
        _ => false,
    }
}

/// The number of the word that a code is about, among those of the text after an instruction's name.
fn number_of(
    alloc: Global,
    code: Code,
    subject: Subject,
    text: &str,
) -> Result<Option<usize>, Memory>
    ensures { IfOk result (λ number. number ≡ number_of code subject text.now) }
{
    if is_of_flag(code) || has_flags(subject) {
        return flag_number(alloc, code, subject, text);
    }
    let pieces = split_at_blanks(alloc, text)?;
    Ok(word_number(code, subject, pieces.as_slice()))
}

/// The word of this number among those after the name of a line's instruction.
fn spot_after(line: &str, number: usize) -> Option<Pointed<'_>>
    ensures { option_map spot result ≡ spot_after line.now number }
{
    let (_, text) = first_piece(line);
    spot_at(line, after_pieces(text, number))
}

/// The same, if there is such a number.
fn spot_if(line: &str, number: Option<usize>) -> Option<Pointed<'_>>
    ensures { option_map spot result ≡ option_and_then (spot_after line.now) number }
{
    match number {
        Some(number) => spot_after(line, number),
        None => None,
    }
}

/// The name of a line's instruction.
fn name_of(line: &str) -> Option<Pointed<'_>>
    ensures { option_map spot result ≡ spot_at line.now (after_blanks line.now) }
{
    spot_at(line, after_blanks(line))
}

/// The word of a line that a refusal by this code is about, where the line is the first one of its instruction.
///
/// By R04 it is the first word. By R07 it is the first flag that the instruction doesn't take, or that stands there for the second time. By R10 and R11 it
/// is the name after AS of a FROM, and the first bad name of an ARG or an ENV. By R12 it is the image of a FROM, the flag `--from` of a COPY, and the flag
/// of a RUN that has one alone. By R16 it is the first flag of a COPY whose owner or mode is none, and the first word of an EXPOSE without a `$` that is no
/// port, or the only one. By R17 it is the first flag of a RUN that is no mount.
///
/// There is none if the line has no such word, if the word may go on in the next line, or if it stands after a quote or an escape character and is no flag.
#[tactic(auto, unfolding(crate::specs::Pointing::pointed))]
pub fn pointed<'a>(alloc: Global, code: Code, line: &'a str) -> Result<Option<Pointed<'a>>, Memory>
    ensures { IfOk result (λ found. option_map spot found ≡ pointed code line.now) }
{
    match code {
        Code::R04 => Ok(name_of(line)),
        _ => {
            let (_, text) = first_piece(line);
            let number = number_of(alloc, code, Subject::of_line(line), text)?;
            Ok(spot_if(line, number))
        }
    }
}

/// Whether a text is flags alone, after which its instruction goes on in the next line.
pub fn are_flags_alone(alloc: Global, text: &str) -> Result<bool, Memory>
    ensures { IfOk result (λ are. are ≡ are_flags_alone text.now) }
{
    let (flags, rest) = flags(alloc, text)?;
    drop(flags);
    let (word, _) = first_piece(rest);
    Ok(word == "\\" || word == "`")
}

/// The word of this number among those of a line.
fn later_spot(line: &str, number: usize) -> Option<Pointed<'_>>
    ensures { option_map spot result ≡ spot_at line.now (behind_pieces number line.now) }
{
    spot_at(line, after_pieces(line, number))
}

/// Whether a flag tells by itself that a code is about it, whatever stands on other lines.
fn tells_alone(code: Code) -> bool
    ensures { result ≡ tells_alone code }
{
    match code {
        Code::R07 | Code::R17 => true,
        _ => false,
    }
}

/// The flag of a later line of an instruction that a refusal by this code is about, where all lines before it have the instruction's name and flags alone.
pub fn pointed_later<'a>(
    alloc: Global,
    code: Code,
    subject: Subject,
    line: &'a str,
) -> Result<Option<Pointed<'a>>, Memory>
    ensures { IfOk result (λ found. option_map spot found ≡ pointed_later code subject line.now) }
{
    if !tells_alone(code) {
        return Ok(None);
    }
    match flag_number(alloc, code, subject, line)? {
        Some(number) => Ok(later_spot(line, number)),
        None => Ok(None),
    }
}

/// Whether a piece is this word.
fn is_word(word: &str, piece: &str) -> bool
    ensures { result ≡ bytes_eq piece.now word.now }
{
    piece == word
}

/// The number of the first of some pieces that is this word.
fn number_of_word(word: &str, pieces: &[&str]) -> Option<usize>
    ensures { result ≡ number_of_word word.now (map (λ piece. piece.now) pieces.now) }
{
    for (index, piece) in pieces.iter().enumerate() {
        if is_word(word, piece) {
            return Some(index);
        }
    }
    None
}

/// The first piece of a line that is this word; none if none is, or if it may go on in the next line.
pub fn spotted<'a>(alloc: Global, line: &'a str, word: &str) -> Result<Option<Pointed<'a>>, Memory>
    ensures { IfOk result (λ found. option_map spot found ≡ spotted word.now line.now) }
{
    let pieces = split_at_blanks(alloc, line)?;
    match number_of_word(word, pieces.as_slice()) {
        Some(number) => Ok(later_spot(line, number)),
        None => Ok(None),
    }
}
