// The lines of an instruction, and its text, by the lines of its file as they stand.
ghost use Rattle.std.specs.Prelude.{◌≡◌, ◌-◌, Some, None, drop, length, map, option_map, IfOk, MatchOption};
ghost use Rattle.std.specs.String.{string_bytes};
ghost use Rattle.meant.specs.Own.{says_backtick, is_directive_key, after_sharp, directive_cut, directive, escape_in, own_lines, own_of, lines_below, joined};

use ascii::trimmed;
use lines::{Escape, goes_on, part_of};
use plain::Memory;
use std::alloc::Global;
use words::pair;

/// Whether a key is that of a directive.
fn is_directive_key(key: &str) -> bool
    ensures { result ≡ is_directive_key key.now }
{
    key.eq_ignore_ascii_case("escape")
        || key.eq_ignore_ascii_case("syntax")
        || key.eq_ignore_ascii_case("check")
}

/// Whether a directive of this key and this value makes a backtick the file's escape character.
fn says_backtick(key: &str, value: &str) -> bool
    ensures { result ≡ says_backtick key.now value.now }
{
    key.eq_ignore_ascii_case("escape") && value == "`"
}

/// What follows the `#` with which a line begins.
#[tactic(auto, unfolding(crate::specs::Own::after_sharp))]
fn after_sharp(line: &str) -> Option<&str>
    ensures { MatchOption result (after_sharp line.now ≡ None) (λ rest. after_sharp line.now ≡ Some rest.now) }
{
    line.strip_prefix("#")
}

/// Whether a directive of what is cut at its `=` makes a backtick the escape character; none if it is no directive.
fn directive_cut(cut: Option<(&str, &str)>) -> Option<bool>
    ensures { result ≡ directive_cut (option_map (λ it. (it.0.now, it.1.now)) cut.entry) }
{
    let (key, value) = cut?;
    let key = trimmed(key);
    if is_directive_key(key) {
        Some(says_backtick(key, trimmed(value)))
    } else {
        None
    }
}

/// The same of a line.
#[tactic(auto, unfolding(crate::specs::Own::directive))]
fn directive(line: &str) -> Option<bool>
    ensures { result ≡ directive line.now }
{
    match after_sharp(line) {
        Some(rest) => directive_cut(pair(rest)),
        None => None,
    }
}

/// The file's escape character, by the directives at its top.
pub(crate) fn escape_in(lines: &[&str]) -> Escape
    ensures { result ≡ escape_in (map (λ line. line.now) lines.now) }
{
    for line in lines {
        match directive(*line) {
            Some(true) => return Escape::Backtick,
            Some(false) => {}
            None => return Escape::Backslash,
        }
    }
    Escape::Backslash
}

/// The lines of the logical line that begins here.
fn own_lines<'a>(alloc: Global, escape: Escape, lines: &[&'a str]) -> Result<Vec<&'a str>, Memory>
    ensures { IfOk result (λ own. map (λ line. line.now) own.items ≡ own_lines escape (map (λ line. line.now) lines.now)) }
{
    let mut own = Vec::new(alloc);
    for line in lines {
        own.push(*line)?;
        if !goes_on(escape, *line) {
            return Ok(own);
        }
    }
    Ok(own)
}

/// The lines after so many.
#[tactic(auto, using(crate::proofs::LineFacts::no_lines))]
fn lines_after<'a, 'b>(lines: &'b [&'a str], count: usize) -> &'b [&'a str]
    ensures { map (λ line. line.now) result.now ≡ drop count (map (λ line. line.now) lines.now) }
{
    if count < lines.len() {
        return &lines[count..];
    }
    &[]
}

/// The lines from the one of this number on, which counts from 1.
fn lines_from<'a, 'b>(lines: &'b [&'a str], number: u32) -> &'b [&'a str]
    ensures { map (λ line. line.now) result.now ≡ drop (number - 1) (map (λ line. line.now) lines.now) }
{
    lines_after(lines, (number as usize).saturating_sub(1))
}

/// The lines below those of an instruction, of which the first has this number.
pub(crate) fn lines_below<'a, 'b>(lines: &'b [&'a str], own: &[&str], number: u32) -> &'b [&'a str]
    ensures { map (λ line. line.now) result.now ≡ lines_below (map (λ line. line.now) lines.now) (map (λ line. line.now) own.now) number }
{
    lines_after(lines_from(lines, number), own.len())
}

/// The lines of the instruction that begins on the line of this number, in a file of these lines; none if it has no such line. Those of its heredocs
/// aren't among them.
pub fn own_of<'a>(alloc: Global, lines: &[&'a str], number: u32) -> Result<Vec<&'a str>, Memory>
    ensures { IfOk result (λ own. map (λ line. line.now) own.items ≡ own_of (map (λ line. line.now) lines.now) number) }
{
    own_lines(alloc, escape_in(lines), lines_from(lines, number))
}

/// The text of the instruction of these lines.
pub(crate) fn joined(alloc: Global, escape: Escape, own: &[&str]) -> Result<String, Memory>
    ensures { IfOk result (λ text. string_bytes text ≡ joined escape (map (λ line. line.now) own.now)) }
{
    let mut text = String::new(alloc);
    for line in own {
        text.push_str(part_of(escape, *line))?;
    }
    Ok(text)
}
