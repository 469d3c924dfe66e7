// `programs`: a name, ` | `, the words of a command line, ` | `, and what stands on standard input. The
// answer is the name, and on a line of its own each the exit status, what the program wrote on standard output and what on standard error; a LF
// in them is written `¶`, and what is no text as hexadecimal digits.
//
// Names that begin with `example_` are the bundles and the packed folder of `examples/`, those that begin with `bundle_` are about the bundle
// itself, those with `pack_` pack the folders of `data/`, those with `why_` tell of paths, those with `llb_` BuildKit, those with `config_` of
// configurations, and those with `check_` of faults. What BuildKit is told of the empty tree was made by protoc, as the row `empty-plan` of the
// table `llb`, and the other definitions by a program in another language. Those that begin with `several_failures_` are random bundles in which
// several instructions fail; their answers are those of another program, which goes line by line.

use crate::devices::{Devices, Ended, run};
use plain::Memory;
use sha2::{Digest, Sha256};
use std::alloc::Global;
use std::hash::RandomState;
use std::rt::Files;
use std::sync::Wait;
use std::thread::Threads;

/// The longest output that other tables show as it is.
pub const LONGEST: usize = 1_000;

pub fn answer<F: Files + AllocGlobal + Clone + Drop>(
    alloc: Global,
    keys: RandomState,
    rt: &(impl Threads + Wait + Sync),
    files: &F,
    case: &str,
) -> Result<String, Memory> {
    let (name, rest) = case.split_once(" | ").unwrap_or((case, ""));
    let (line, bundle) = rest.split_once(" | ").unwrap_or((rest, ""));
    let devices = Devices::whole(usize::MAX);
    let ended = run(alloc, keys, rt, files, line, bundle.as_bytes(), devices);
    let text = shown(alloc, &ended, usize::MAX);
    drop(ended);
    let text = text?;
    Ok(format!(in alloc; "{name}\n{text}")?)
}

/// What the program did, in three lines. An output of more bytes than these is shown by its length and its digest.
pub fn shown(alloc: Global, ended: &Ended, most: usize) -> Result<String, Memory> {
    let status = ended.status;
    let output = one_line(alloc, &ended.output, most)?;
    let errors = one_line(alloc, &ended.errors, most)?;
    Ok(format!(in alloc; "    {status}\n    out {output}\n    err {errors}")?)
}

/// Bytes as one line: of a text, in which a LF is `¶`, or else of hexadecimal digits; or how many they are and their digest, if they are more than these.
fn one_line(alloc: Global, bytes: &[u8], most: usize) -> Result<String, Memory> {
    if bytes.len() > most {
        let digest = Sha256::digest(bytes);
        let digest = hex::encode(alloc, digest.as_slice())?;
        return Ok(format!(in alloc; "{} bytes, sha256 {digest}", bytes.len())?);
    }
    match str::from_utf8(bytes) {
        Ok(text) if !has_controls(bytes) => text_line(alloc, text),
        _ => Ok(hex::encode(alloc, bytes)?),
    }
}

/// A text as one line.
fn text_line(alloc: Global, text: &str) -> Result<String, Memory> {
    let mut line = String::new(alloc);
    for character in text.chars() {
        if character == '\n' {
            line.push('¶')?;
        } else {
            line.push(character)?;
        }
    }
    Ok(line)
}

/// Whether bytes have control characters that no text of the program has.
fn has_controls(bytes: &[u8]) -> bool {
    for byte in bytes {
        if *byte < b'\t' {
            return true;
        }
    }
    false
}
