// `files`: texts of files, and behind `»` the logical lines that they have or the refusal that they get, by the Dockerfile reference and the
// rules of docs/FORMATS.md. `⏎` is a line feed, `␍` a carriage return, `⇥` a tab and `⊙` a byte order mark; a line is shown as
// `NUMBER:TEXT`, each heredoc as `<NAME|BODY>`, with `-` where its tabs are dropped and `'` where its name is in quotes. A text is fed in
// pieces of three bytes.
//
// `pieces`: texts that are fed in the pieces between `¦`, in which `⟨FF⟩` is a byte, some after a name and ` | `. Behind `»` stand the lines that are ready after each
// piece, each time with `¦` behind them, and then what the text gives.

use lines::{Heredoc, Line, LineFault, Reader};
use plain::{Fault, Memory};
use std::alloc::Global;

pub fn answer(alloc: Global, case: &str) -> Result<String, Memory> {
    let text = case.strip_suffix('»').unwrap_or(case);
    let shown = shown(alloc, unmasked(alloc, text)?.as_str())?;
    let shown = masked(alloc, shown.as_str())?;
    Ok(format!(in alloc; "{text}»{shown}")?)
}

pub fn answer_in_pieces(alloc: Global, case: &str) -> Result<String, Memory> {
    let text = case.strip_suffix('»').unwrap_or(case);
    let (_, fed) = text.split_once(" | ").unwrap_or(("", text));
    let mut reader = Reader::new(alloc);
    match shown_in_pieces(alloc, &mut reader, fed) {
        Ok(ready) => {
            let shown = shown_answer(alloc, reader.finish(alloc))?;
            let shown = masked(alloc, shown.as_str())?;
            Ok(format!(in alloc; "{text}»{ready}{shown}")?)
        }
        Err(memory) => {
            drop(reader);
            Err(memory)
        }
    }
}

/// What is ready after each of the pieces that a case shows.
fn shown_in_pieces(alloc: Global, reader: &mut Reader, text: &str) -> Result<String, Memory> {
    let mut shown = String::new(alloc);
    for piece in text.split('¦') {
        let bytes = piece_bytes(alloc, piece)?;
        reader.feed(alloc, bytes.as_slice())?;
        let ready = shown_lines(alloc, reader.ready())?;
        shown.push_str(masked(alloc, ready.as_str())?.as_str())?;
        shown.push_str("¦")?;
    }
    Ok(shown)
}

/// The bytes of a piece that a case shows.
pub fn piece_bytes(alloc: Global, piece: &str) -> Result<Vec<u8>, Memory> {
    let mut bytes = Vec::new(alloc);
    for part in piece.split('⟩') {
        let (text, byte) = part.split_once('⟨').unwrap_or((part, ""));
        bytes.extend_from_slice(unmasked(alloc, text)?.as_bytes())?;
        if let Ok(byte) = u8::from_str_radix(byte, 16) {
            bytes.push(byte)?;
        }
    }
    Ok(bytes)
}

/// The text that a case shows.
fn unmasked(alloc: Global, shown: &str) -> Result<String, Memory> {
    let text = shown.replace(alloc, "⏎", "\n")?;
    let text = text.replace(alloc, "␍", "\r")?;
    let text = text.replace(alloc, "⇥", "\t")?;
    Ok(text.replace(alloc, "⊙", "\u{feff}")?)
}

/// A text as a case shows it.
fn masked(alloc: Global, text: &str) -> Result<String, Memory> {
    let shown = text.replace(alloc, "\n", "⏎")?;
    let shown = shown.replace(alloc, "\r", "␍")?;
    let shown = shown.replace(alloc, "\t", "⇥")?;
    Ok(shown.replace(alloc, "\u{feff}", "⊙")?)
}

/// What a text gives, as the cases show it.
fn shown(alloc: Global, text: &str) -> Result<String, Memory> {
    shown_answer(alloc, lines_in_pieces(alloc, text.as_bytes()))
}

fn shown_answer(alloc: Global, answer: Result<Vec<Line>, LineFault>) -> Result<String, Memory> {
    match answer {
        Ok(lines) => {
            let shown = shown_lines(alloc, &lines);
            drop(lines);
            shown
        }
        Err(Fault::Because(refusal)) => {
            Ok(format!(in alloc; "{} at line {}", refusal.code, refusal.line)?)
        }
        Err(Fault::Memory) => Err(Memory),
    }
}

/// What a text gives that is fed in pieces of three bytes.
fn lines_in_pieces(alloc: Global, text: &[u8]) -> Result<Vec<Line>, LineFault> {
    let mut reader = Reader::new(alloc);
    match feed_pieces(alloc, &mut reader, text) {
        Ok(()) => reader.finish(alloc),
        Err(fault) => {
            drop(reader);
            Err(fault)
        }
    }
}

fn feed_pieces(alloc: Global, reader: &mut Reader, text: &[u8]) -> Result<(), LineFault> {
    for piece in text.chunks(3) {
        reader.feed(alloc, piece)?;
    }
    Ok(())
}

fn shown_lines(alloc: Global, lines: &[Line]) -> Result<String, Memory> {
    let mut shown = String::new(alloc);
    for line in lines {
        if !shown.is_empty() {
            shown.push_str(";")?;
        }
        write!(shown, "{}:{}", line.number, line.text.as_str())?;
        push_heredocs(&mut shown, line.heredocs.as_slice())?;
    }
    Ok(shown)
}

fn push_heredocs(shown: &mut String, heredocs: &[Heredoc]) -> Result<(), Memory> {
    for heredoc in heredocs {
        push_heredoc(shown, heredoc)?;
    }
    Ok(())
}

fn push_heredoc(shown: &mut String, heredoc: &Heredoc) -> Result<(), Memory> {
    let dash = if heredoc.mark.strips { "-" } else { "" };
    let quote = if heredoc.mark.quoted { "'" } else { "" };
    let name = heredoc.mark.name.as_str();
    let body = heredoc.body.as_str();
    Ok(write!(shown, "<{dash}{quote}{name}|{body}>")?)
}
