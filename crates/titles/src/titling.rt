ghost use Rattle.std.specs.Prelude.{◌≡◌, IfOk};
ghost use Rattle.std.specs.String.{string_bytes};
ghost use Rattle.titles.specs.Titles.{with_title, called_at, stage_titled, titles_of};

use crate::steps::{base_count, step_count, step_word};
use crate::title::{rest_at, stage_title, step_title};
use lines::Line;
use plain::{Items, Memory, Text};
use stages::ResolvedStage;
use std::alloc::Global;

/// Titles by the numbers of their lines.
type Titles = Items<Option<Text>>;

/// The titles so far, with that of a line.
pub(crate) fn with_title(
    alloc: Global,
    titles: Titles,
    line: u32,
    title: Text,
) -> Result<Titles, Memory>
    ensures { IfOk result (λ more. more ≡ with_title titles line title) }
{
    let mut titles = titles;
    while titles.len() < line as usize {
        titles.push(None)?;
    }
    titles.push(Some(title))?;
    Ok(titles)
}

/// The titles so far, with those of a stage's steps. This is what the stage is called.
fn stage_titled(
    alloc: Global,
    titles: Titles,
    lines: &[Line],
    called: &str,
    stage: &ResolvedStage,
) -> Result<Titles, Memory>
    ensures { IfOk result (λ more. more ≡ stage_titled lines.now called.now stage.now titles) }
{
    let mut titles = titles;
    let mut number = base_count(&stage.base);
    let instructions = stage.instructions.as_slice();
    let total = number + step_count(instructions);
    for resolved in instructions {
        let line = resolved.instruction.line();
        if let Some(word) = step_word(resolved.instruction.kind()) {
            number += 1;
            let title = step_title(alloc, called, number, total, word, rest_at(lines, line))?;
            titles = with_title(alloc, titles, line, Text::from_string(title))?;
        }
    }
    Ok(titles)
}

/// What the stage of this number is called.
fn called_at(
    alloc: Global,
    names: &[Option<Text>],
    count: usize,
    number: usize,
) -> Result<String, Memory>
    ensures { IfOk result (λ text. string_bytes text ≡ called_at names.now count number) }
{
    match names.get(number) {
        Some(name) => stage_title(alloc, count, number, name),
        None => stage_title(alloc, count, number, &None),
    }
}

/// What an engine's progress calls each step of these stages, which have these names, by the line of its instruction; `None` for another line.
/// The lines are those of the file that the stages are of.
///
/// A step is a RUN, a COPY or a WORKDIR. Its title is `[STAGE N/M] ` and then its instruction as it is written, with its word in capitals
/// and one blank after it. M counts the stage's steps, of which an image that it begins with is the first, and N is the number of this one.
/// STAGE is the stage's name, or `stage-` and its number; it is left out where the file has one stage.
pub fn titles_of(
    alloc: Global,
    lines: &[Line],
    names: &[Option<Text>],
    stages: &[ResolvedStage],
) -> Result<Items<Option<Text>>, Memory>
    ensures { IfOk result (λ titles. titles ≡ titles_of lines.now names.now stages.now) }
{
    let mut titles = Items::new(alloc);
    for (number, stage) in stages.iter().enumerate() {
        let called = called_at(alloc, names, stages.len(), number)?;
        titles = stage_titled(alloc, titles, lines, called.as_str(), stage)?;
    }
    Ok(titles)
}
