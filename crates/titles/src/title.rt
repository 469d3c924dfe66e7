// The text of one title.
ghost use Rattle.std.specs.Prelude.{◌≡◌, IfOk};
ghost use Rattle.std.specs.String.{string_bytes};
ghost use Rattle.titles.specs.Titles.{stage_title, step_title, rest_at};

use ascii::first_piece;
use lines::Line;
use plain::{Memory, Text};
use std::alloc::Global;

/// What a stage is called, of as many as there are, by its number.
pub(crate) fn stage_title(
    alloc: Global,
    count: usize,
    number: usize,
    name: &Option<Text>,
) -> Result<String, Memory>
    ensures { IfOk result (λ text. string_bytes text ≡ stage_title count number name.now) }
{
    if count == 1 {
        return Ok(String::new(alloc));
    }
    match name {
        Some(name) => Ok(format!(in alloc; "{} ", name.as_str())?),
        None => Ok(format!(in alloc; "stage-{number} ")?),
    }
}

/// What follows the first word of the line of this number.
pub(crate) fn rest_at(lines: &[Line], number: u32) -> &str
    ensures { result.now ≡ rest_at lines.now number }
{
    for line in lines {
        if line.number == number {
            return first_piece(line.text.as_str()).1;
        }
    }
    ""
}

/// The title of a step of this number in its stage, which has so many.
pub(crate) fn step_title(
    alloc: Global,
    stage: &str,
    number: usize,
    total: usize,
    word: &str,
    rest: &str,
) -> Result<String, Memory>
    ensures { IfOk result (λ text. string_bytes text ≡ step_title stage.now number total word.now rest.now) }
{
    let most = format!(in alloc; "{total}")?;
    let own = format!(in alloc; "{number}")?;
    let margin = " ".repeat(alloc, most.len().saturating_sub(own.len()))?;
    Ok(format!(in alloc; "[{stage}{margin}{own}/{most}] {word} {rest}")?)
}
