// How a fault or a failure is laid out.
ghost use Rattle.std.specs.Prelude.{◌≡◌, IfOk};
ghost use Rattle.std.specs.String.{string_bytes};
ghost use Rattle.sentences.specs.Showing.{margin, numbered, noted, headed, placed};

use plain::Memory;
use std::alloc::Global;

/// A margin that is as wide as a number.
fn margin(alloc: Global, number: &str) -> Result<String, Memory>
    ensures { IfOk result (λ text. string_bytes text ≡ margin number.now) }
{
    Ok(" ".repeat(alloc, number.len())?)
}

/// A line after its number, which gets as much room as the widest number beside it.
pub fn numbered(alloc: Global, widest: &str, number: &str, line: &str) -> Result<String, Memory>
    ensures { IfOk result (λ text. string_bytes text ≡ numbered widest.now number.now line.now) }
{
    let before = " ".repeat(alloc, widest.len().saturating_sub(number.len()))?;
    Ok(format!(in alloc; "    {before}{number} | {line}\n")?)
}

/// A text after a margin that is as wide as the widest number above it.
pub fn noted(alloc: Global, widest: &str, text: &str) -> Result<String, Memory>
    ensures { IfOk result (λ line. string_bytes line ≡ noted widest.now text.now) }
{
    let margin = margin(alloc, widest)?;
    Ok(format!(in alloc; "    {margin} | {text}\n")?)
}

/// Where a fault or a failure is, its code or its cause, and what is wrong.
pub fn headed(alloc: Global, place: &str, name: &str, wrong: &str) -> Result<String, Memory>
    ensures { IfOk result (λ text. string_bytes text ≡ headed place.now name.now wrong.now) }
{
    Ok(format!(in alloc; "{place}: {name}: {wrong}\n")?)
}

/// The file and the line that a fault is in, and the column of the word that it is about, if that is known. A fault of line 0 is about no line.
pub fn placed(
    alloc: Global,
    file: &str,
    number: u32,
    column: Option<usize>,
) -> Result<String, Memory>
    ensures { IfOk result (λ text. string_bytes text ≡ placed file.now number column) }
{
    if number == 0 {
        return Ok(String::from_str(alloc, file)?);
    }
    match column {
        None => Ok(format!(in alloc; "{file}:{number}")?),
        Some(column) => Ok(format!(in alloc; "{file}:{number}:{column}")?),
    }
}
