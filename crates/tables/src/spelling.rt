use crate::lookup::{Names, value_under};
use crate::showing::{Page, add, add_instruction, empty_page};
use expand::{Kind, Word};
use instructions::parse;
use lines::{Escape, Line, LineFault, Reader};
use plain::{Fault, Memory, Text};
use std::alloc::Global;
use words::TextFault;

/// The logical lines of a text.
pub fn lines_of(alloc: Global, text: &str) -> Result<Vec<Line>, LineFault> {
    let mut reader = Reader::new(alloc);
    reader.feed(alloc, text.as_bytes())?;
    reader.finish(alloc)
}

/// A refusal, as `R06 at line 1`.
fn refusal_text(alloc: Global, fault: &LineFault) -> Result<String, Memory> {
    match fault {
        Fault::Because(refusal) => {
            Ok(format!(in alloc; "{} at line {}", refusal.code, refusal.line)?)
        }
        Fault::Memory => Err(Memory),
    }
}

/// What a text's lines spell: the instructions, or `R06 at line 1`, with `;` between them.
pub fn spelling_of(alloc: Global, text: &str) -> Result<String, TextFault> {
    match lines_of(alloc, text) {
        Ok(lines) => {
            let spelling = spelling_of_lines(alloc, &lines);
            drop(lines);
            spelling
        }
        Err(fault) => Ok(refusal_text(alloc, &fault)?),
    }
}

fn spelling_of_lines(alloc: Global, lines: &[Line]) -> Result<String, TextFault> {
    let mut page = empty_page(alloc)?;
    match add_lines(alloc, &mut page, lines) {
        Ok(()) => Ok(page.text),
        Err(fault) => {
            drop(page);
            Err(fault)
        }
    }
}

fn add_lines(alloc: Global, page: &mut Page, lines: &[Line]) -> Result<(), TextFault> {
    for line in lines {
        if !page.text.is_empty() {
            add(page, &[";"])?;
        }
        add_line(alloc, page, line)?;
    }
    Ok(())
}

fn add_line(alloc: Global, page: &mut Page, line: &Line) -> Result<(), TextFault> {
    match parse(alloc, line) {
        Ok(instruction) => {
            let done = add_instruction(alloc, page, instruction.kind());
            drop(instruction);
            done
        }
        Err(fault) => {
            let refusal = refusal_text(alloc, &fault)?;
            add(page, &[refusal.as_str()])
        }
    }
}

/// The values of a text if `v` is `x y`, if it is empty and if it is unset, with `|` between them, as `value_under` gives them.
pub fn values_of(alloc: Global, kind: Kind, text: &str) -> Result<String, TextFault> {
    match Word::read(alloc, kind, Escape::Backslash, text) {
        Ok(word) => {
            let values = values_of_word(alloc, &word);
            drop(word);
            values
        }
        Err(fault) => Err(fault),
    }
}

fn values_of_word(alloc: Global, word: &Word) -> Result<String, TextFault> {
    let mut values = String::new(alloc);
    for v in [Some("x y"), Some(""), None] {
        let value = value_of(alloc, word, v)?;
        values.push_str(value.as_str())?;
        values.push_str("|")?;
    }
    Ok(values)
}

/// The value of a word if `v` has this one.
fn value_of(alloc: Global, word: &Word, v: Option<&str>) -> Result<Text, TextFault> {
    let names = Names::new(alloc, v)?;
    let value = value_under(alloc, word, &names);
    drop(names);
    value
}
