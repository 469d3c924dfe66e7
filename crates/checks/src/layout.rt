// How a fault or a failure is shown, with the lines that it is about.
ghost use Rattle.std.specs.Prelude.{◌≡◌, ◌++◌, ◌+◌, map, take, IfOk, OnOk};
ghost use Rattle.std.specs.Option.{option_copied};
ghost use Rattle.std.specs.String.{string_bytes};
ghost use Rattle.checks.specs.Layout.{number_below, last_number, widest_number, line_below, cited_line, cited, marked_excerpt, excerpt, column_of, shown_plain, ended, begun, text_of, text_column, shown_json};

use crate::mark::{Marked, mark_under};
use crate::visible::visible;
use plain::Memory;
use sentences::{Message, headed, json_line, noted, numbered, placed};
use std::alloc::Global;

/// The number of the line below so many lines of an instruction; that of the first one if it hasn't so many.
fn number_below(number: u32, above: usize, own: &[&str]) -> usize
    ensures { result ≡ number_below number above (map (λ line. line.now) own.now) }
{
    if above < own.len() {
        number as usize + above
    } else {
        number as usize
    }
}

/// The number of the last line that is shown: that of the word which is marked, and else of the last one of all.
fn last_number(number: u32, own: &[&str], marked: Option<&Marked>) -> usize
    ensures { result ≡ last_number number (map (λ line. line.now) own.now) (option_copied marked.entry) }
{
    match marked {
        Some(marked) => number_below(number, marked.above, own),
        None => number_below(number, own.len().saturating_sub(1), own),
    }
}

/// The widest number that is shown, that of the last line; the empty text if none is.
fn widest_number(
    alloc: Global,
    number: u32,
    own: &[&str],
    marked: Option<&Marked>,
) -> Result<String, Memory>
    ensures { IfOk result (λ text. string_bytes text ≡ widest_number number (map (λ line. line.now) own.now) (option_copied marked.entry)) }
{
    if number == 0 {
        return Ok(String::new(alloc));
    }
    let last = last_number(number, own, marked);
    Ok(format!(in alloc; "{last}")?)
}

/// The line below so many lines of an instruction; the empty one if it hasn't so many.
fn line_below<'a>(above: usize, own: &[&'a str]) -> &'a str
    ensures { result.now ≡ line_below above (map (λ line. line.now) own.now) }
{
    match own.get(above) {
        Some(line) => line,
        None => "",
    }
}

/// A line after its number, as a terminal may have it.
fn cited_line(alloc: Global, widest: &str, number: usize, line: &str) -> Result<String, Memory>
    ensures { IfOk result (λ text. string_bytes text ≡ cited_line widest.now number line.now) }
{
    let number = format!(in alloc; "{number}")?;
    let line = visible(alloc, line)?;
    numbered(alloc, widest, number.as_str(), line.as_str())
}

/// Lines after their numbers, of which the first has this one.
fn cited(alloc: Global, widest: &str, number: u32, own: &[&str]) -> Result<String, Memory>
    ensures { IfOk result (λ text. string_bytes text ≡ cited widest.now number (map (λ line. line.now) own.now)) }
{
    let mut text = String::new(alloc);
    for index in 0..own.len() {
        let line = cited_line(alloc, widest, number as usize + index, own[index])?;
        text.push_str(line.as_str())?;
    }
    Ok(text)
}

/// The line of the word that is marked, and the mark under it.
fn marked_excerpt(
    alloc: Global,
    widest: &str,
    number: u32,
    own: &[&str],
    marked: &Marked,
) -> Result<String, Memory>
    ensures { IfOk result (λ text. string_bytes text ≡ marked_excerpt widest.now number (map (λ line. line.now) own.now) marked.now) }
{
    let mut text = cited_line(
        alloc,
        widest,
        number_below(number, marked.above, own),
        line_below(marked.above, own),
    )?;
    let mark = mark_under(alloc, marked.before.as_str(), marked.word.as_str())?;
    let below = noted(alloc, widest, mark.as_str())?;
    text.push_str(below.as_str())?;
    Ok(text)
}

/// The lines that are shown: that of the word which is marked, with the mark, and else all of the instruction.
fn excerpt(
    alloc: Global,
    widest: &str,
    number: u32,
    own: &[&str],
    marked: Option<&Marked>,
) -> Result<String, Memory>
    ensures { IfOk result (λ text. string_bytes text ≡ excerpt widest.now number (map (λ line. line.now) own.now) (option_copied marked.entry)) }
{
    match marked {
        Some(marked) => marked_excerpt(alloc, widest, number, own, marked),
        None => cited(alloc, widest, number, own),
    }
}

/// The column of the word that is marked, if it stands on the first line.
fn column_of(marked: Option<&Marked>) -> Option<usize>
    ensures { result ≡ column_of (option_copied marked.entry) }
{
    match marked {
        Some(marked) if marked.above == 0 => Some(marked.before.as_str().len() + 1),
        _ => None,
    }
}

/// What is shown to a person of a fault or a failure of the file of this name and of the lines of an instruction, of which the first has this number, with
/// its code or its cause and what is said of it: where it is and what is wrong; the lines; and what helps.
#[tactic(auto, unfolding(crate::specs::Layout::shown_plain))]
pub(crate) fn shown_plain(
    alloc: Global,
    file: &str,
    name: &str,
    number: u32,
    own: &[&str],
    message: &Message,
    marked: Option<&Marked>,
) -> Result<String, Memory>
    ensures { IfOk result (λ text. string_bytes text ≡ shown_plain file.now name.now number (map (λ line. line.now) own.now) message.now (option_copied marked.entry)) }
{
    let widest = widest_number(alloc, number, own, marked)?;
    let file = visible(alloc, file)?;
    let place = placed(alloc, file.as_str(), number, column_of(marked))?;
    let wrong = visible(alloc, message.wrong.as_str())?;
    let helps = visible(alloc, message.helps.as_str())?;
    let mut text = headed(alloc, place.as_str(), name, wrong.as_str())?;
    let lines = excerpt(alloc, widest.as_str(), number, own, marked)?;
    let below = noted(alloc, widest.as_str(), helps.as_str())?;
    text.push_str(lines.as_str())?;
    text.push_str(below.as_str())?;
    Ok(text)
}

/// Lines, each with a LF at its end.
fn ended(alloc: Global, lines: &[&str]) -> Result<String, Memory>
    ensures { IfOk result (λ text. string_bytes text ≡ ended (map (λ line. line.now) lines.now)) }
{
    let mut text = String::new(alloc);
    for line in lines {
        text.push_str(*line)?;
        text.push_str("\n")?;
    }
    Ok(text)
}

/// Adds lines to a text, each after a LF.
fn push_lines(text: &mut String, lines: &[&str]) -> Result<(), Memory>
    ensures { OnOk result (string_bytes text.new ≡ string_bytes text.old ++ begun (map (λ line. line.now) lines.now)) }
{
    for line in lines {
        text.push_str("\n")?;
        text.push_str(*line)?;
    }
    Ok(())
}

/// Lines as a text, with a LF between two of them.
fn text_of(alloc: Global, own: &[&str]) -> Result<String, Memory>
    ensures { IfOk result (λ text. string_bytes text ≡ text_of (map (λ line. line.now) own.now)) }
{
    match own {
        [] => Ok(String::new(alloc)),
        [first, rest @ ..] => {
            let mut text = String::from_str(alloc, *first)?;
            push_lines(&mut text, rest)?;
            Ok(text)
        }
    }
}

/// The lines above the one below so many.
#[tactic(auto, using(meant::proofs::LineFacts::first_lines, meant::proofs::LineFacts::all_lines))]
fn lines_above<'a, 'b>(above: usize, own: &'b [&'a str]) -> &'b [&'a str]
    ensures { map (λ line. line.now) result.now ≡ take above (map (λ line. line.now) own.now) }
{
    if above < own.len() {
        return &own[..above];
    }
    own
}

/// The number of the first byte of the word that is marked, in the text of the lines, counted from 1.
fn text_column(alloc: Global, own: &[&str], marked: &Marked) -> Result<usize, Memory>
    ensures { IfOk result (λ column. column ≡ text_column (map (λ line. line.now) own.now) marked.now) }
{
    let front = ended(alloc, lines_above(marked.above, own))?;
    Ok(front.len() + marked.before.as_str().len() + 1)
}

/// What a program gets of a fault, by its parts as `shown_plain` has them.
#[tactic(auto, unfolding(crate::specs::Layout::shown_json))]
pub(crate) fn shown_json(
    alloc: Global,
    file: &str,
    code: &str,
    number: u32,
    own: &[&str],
    message: &Message,
    marked: Option<&Marked>,
) -> Result<String, Memory>
    ensures { IfOk result (λ text. string_bytes text ≡ shown_json file.now code.now number (map (λ line. line.now) own.now) message.now (option_copied marked.entry)) }
{
    let text = text_of(alloc, own)?;
    match marked {
        Some(marked) => {
            let column = text_column(alloc, own, marked)?;
            json_line(
                alloc,
                file,
                code,
                number,
                message,
                text.as_str(),
                Some((column, marked.word.as_str())),
            )
        }
        None => json_line(alloc, file, code, number, message, text.as_str(), None),
    }
}
