// What stands on vertices and at edges.
ghost use Rattle.std.specs.Prelude.{◌≡◌, ◌<◌, ◌++◌, Some as SomeOf, option_map, slice_get, IfOk, OnOk};
ghost use Rattle.std.specs.String.{string_bytes};
ghost use Rattle.dot.specs.Labels.{source_text, title_at, title_or, vertex_text, after_commas, lines_text, label, shape_of, bind_attributes, input_attributes};
ghost use Rattle.llb.specs.Places.{least_line};

use crate::quoted::{push_quoted, push_rows};
use llb::{Bind, Op, Source};
use plain::{Memory, Text};
use std::alloc::Global;

/// The least of some lines, 0 if there is none.
fn least_line(lines: &[u32]) -> u32
    ensures { result ≡ least_line lines.now }
{
    match lines {
        [] => 0,
        [line] => *line,
        [line, rest @ ..] => (*line).min(least_line(rest)),
    }
}

/// The title of the least of some lines.
pub(crate) fn title_at<'a>(titles: &'a [Option<Text>], lines: &[u32]) -> Option<&'a str>
    ensures { option_map (λ title. title.now) result ≡ title_at titles.now lines.now }
{
    match titles.get(least_line(lines) as usize) {
        Some(Some(title)) => Some(title.as_str()),
        Some(None) | None => None,
    }
}

/// A copy of a title, or of this word if there is none.
fn title_or(alloc: Global, title: Option<&str>, word: &str) -> Result<String, Memory>
    ensures { IfOk result (λ text. string_bytes text ≡ title_or (option_map (λ title. title.now) title.entry) word.now) }
{
    match title {
        None => Ok(String::from_str(alloc, word)?),
        Some(title) => Ok(String::from_str(alloc, title)?),
    }
}

/// The tree that a source is.
fn source_text(alloc: Global, source: &Source) -> Result<String, Memory>
    ensures { IfOk result (λ text. string_bytes text ≡ source_text source.now) }
{
    match source {
        Source::Scratch => Ok(String::from_str(alloc, "scratch")?),
        Source::Context => Ok(String::from_str(alloc, "context")?),
        Source::Image(name) => Ok(format!(in alloc; "image {}", name.as_str())?),
    }
}

/// What a vertex with these lines is called.
fn vertex_text(
    alloc: Global,
    titles: &[Option<Text>],
    lines: &[u32],
    op: &Op,
) -> Result<String, Memory>
    ensures { IfOk result (λ text. string_bytes text ≡ vertex_text titles.now lines.now op.now) }
{
    match op {
        Op::Source(source) => source_text(alloc, source),
        Op::Exec(_) => title_or(alloc, title_at(titles, lines), "RUN"),
        Op::Copy(_) => title_or(alloc, title_at(titles, lines), "COPY"),
        Op::MakeDirs(_) => title_or(alloc, title_at(titles, lines), "WORKDIR"),
        Op::Merge => Ok(String::from_str(alloc, "merge")?),
    }
}

/// Adds numbers, each after a comma.
fn push_after_commas(alloc: Global, out: &mut String, lines: &[u32]) -> Result<(), Memory>
    ensures { OnOk result (string_bytes out.new ≡ string_bytes out.old ++ after_commas lines.now) }
{
    for line in lines {
        out.push_str(format!(in alloc; ", {line}")?.as_str())?;
    }
    Ok(())
}

/// The lines of a vertex.
fn lines_text(alloc: Global, lines: &[u32]) -> Result<String, Memory>
    ensures { IfOk result (λ text. string_bytes text ≡ lines_text lines.now) }
{
    match lines {
        [] => Ok(String::new(alloc)),
        [line] => Ok(format!(in alloc; "line {line}")?),
        [line, rest @ ..] => {
            let mut text = format!(in alloc; "lines {line}")?;
            push_after_commas(alloc, &mut text, rest)?;
            Ok(text)
        }
    }
}

/// The label of a vertex.
pub(crate) fn label(
    alloc: Global,
    titles: &[Option<Text>],
    lines: &[u32],
    op: &Op,
) -> Result<String, Memory>
    ensures { IfOk result (λ text. string_bytes text ≡ label titles.now lines.now op.now) }
{
    let mut text = String::new(alloc);
    push_rows(&mut text, vertex_text(alloc, titles, lines, op)?.as_str())?;
    push_rows(&mut text, lines_text(alloc, lines)?.as_str())?;
    Ok(text)
}

/// The shape of a vertex.
pub(crate) fn shape_of(op: &Op) -> &'static str
    ensures { result.now ≡ shape_of op.now }
{
    match op {
        Op::Source(_) => "ellipse",
        Op::Exec(_) => "box",
        Op::Copy(_) | Op::MakeDirs(_) => "note",
        Op::Merge => "invtrapezium",
    }
}

/// Adds what stands at the edge of a bind mount.
fn push_bind(alloc: Global, out: &mut String, bind: &Bind) -> Result<(), Memory>
    ensures { OnOk result (string_bytes out.new ≡ string_bytes out.old ++ bind_attributes (SomeOf bind.now)) }
{
    let target = bind.target.text(alloc)?;
    push_quoted(out, " [label=\"bind ", target.as_str(), "\" style=dotted]")?;
    Ok(())
}

/// Adds what stands at the edge of a command's input of this number.
fn push_bind_at(
    alloc: Global,
    out: &mut String,
    binds: &[Bind],
    number: usize,
) -> Result<(), Memory>
    ensures { OnOk result (string_bytes out.new ≡ string_bytes out.old ++ bind_attributes (slice_get binds.now number)) }
{
    match binds.get(number) {
        Some(bind) => push_bind(alloc, out, bind),
        None => Ok(()),
    }
}

/// Adds what stands at the edge of an operation's input of this number.
pub(crate) fn push_input_attributes(
    alloc: Global,
    out: &mut String,
    op: &Op,
    number: usize,
) -> Result<(), Memory>
    requires { number < usize.MAX }
    ensures { OnOk result (string_bytes out.new ≡ string_bytes out.old ++ input_attributes op.now number) }
{
    match op {
        Op::Source(_) | Op::MakeDirs(_) => Ok(()),
        Op::Exec(exec) => {
            if number == 0 {
                return Ok(());
            }
            push_bind_at(alloc, out, exec.binds.as_slice(), number - 1)
        }
        Op::Copy(_) => {
            if number == 0 {
                return Ok(());
            }
            Ok(out.push_str(" [style=dashed]")?)
        }
        Op::Merge => {
            let text = format!(in alloc; " [label=\"{}\" style=bold]", number + 1)?;
            Ok(out.push_str(text.as_str())?)
        }
    }
}
