// The stages that the lines of a file begin, by the lines as they stand.
ghost use Rattle.std.specs.Prelude.{◌≡◌, ◌≤◌, length, map, option_map, take, IfOk};
ghost use Rattle.std.specs.List.{list_any};
ghost use Rattle.meant.specs.Begun.{begins_stage, before_last, stage_in, stages_in, ended_stages, is_unfinished};

use crate::escapes::{before_escape, may_go_on};
use ascii::first_piece;
use plain::Memory;
use std::alloc::Global;

/// Whether a line begins a stage.
pub(crate) fn begins_stage(line: &str) -> bool
    ensures { result ≡ begins_stage line.now }
{
    let (instruction, _) = first_piece(line);
    instruction.eq_ignore_ascii_case("from")
}

/// The name that a line gives to a stage, if it is `FROM image AS name`.
fn stage_in(line: &str) -> Option<&str>
    ensures { option_map (λ name. name.now) result ≡ stage_in line.now }
{
    let (from, rest) = first_piece(line);
    let (_, rest) = first_piece(rest);
    let (word, rest) = first_piece(rest);
    let (name, _) = first_piece(rest);
    if from.eq_ignore_ascii_case("from") && word.eq_ignore_ascii_case("as") {
        Some(name)
    } else {
        None
    }
}

/// The names that lines give to stages.
pub(crate) fn stages_in<'a>(alloc: Global, lines: &[&'a str]) -> Result<Vec<&'a str>, Memory>
    ensures { IfOk result (λ names. map (λ name. name.now) names.items ≡ stages_in (map (λ line. line.now) lines.now)) }
{
    let mut names = Vec::new(alloc);
    for line in lines {
        if let Some(name) = stage_in(*line) {
            names.push(name)?;
        }
    }
    Ok(names)
}

/// How many lines stand before the last one that begins a stage; none if none does.
fn count_before_last(lines: &[&str]) -> usize
    ensures within { result ≤ length lines.now }
    ensures before { take result (map (λ line. line.now) lines.now) ≡ before_last (map (λ line. line.now) lines.now) }
{
    let mut place = lines.len();
    'lines: while place > 0 {
        place -= 1;
        if begins_stage(lines[place]) {
            return place;
        }
    }
    0
}

/// The names of those stages that end on these lines: another one begins on a later of them.
pub(crate) fn ended_stages<'a>(alloc: Global, lines: &[&'a str]) -> Result<Vec<&'a str>, Memory>
    ensures { IfOk result (λ names. map (λ name. name.now) names.items ≡ ended_stages (map (λ line. line.now) lines.now)) }
{
    stages_in(alloc, &lines[..count_before_last(lines)])
}

/// The lines up to the one of this number, which counts from 1.
#[tactic(auto, using(crate::proofs::LineFacts::first_lines, crate::proofs::LineFacts::all_lines))]
pub(crate) fn lines_until<'a, 'b>(lines: &'b [&'a str], number: u32) -> &'b [&'a str]
    ensures { map (λ line. line.now) result.now ≡ take number (map (λ line. line.now) lines.now) }
{
    let count = number as usize;
    if count < lines.len() {
        return &lines[..count];
    }
    lines
}

/// Whether a line begins a FROM that may go on in the next line.
fn is_unfinished(line: &str) -> bool
    ensures { result ≡ is_unfinished line.now }
{
    let (word, _) = first_piece(line);
    before_escape(word).eq_ignore_ascii_case("from") && may_go_on(line)
}

/// Whether one of these lines does.
pub(crate) fn has_unfinished(lines: &[&str]) -> bool
    ensures { result ≡ list_any is_unfinished (map (λ line. line.now) lines.now) }
{
    for line in lines {
        if is_unfinished(*line) {
            return true;
        }
    }
    false
}
