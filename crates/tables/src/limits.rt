// `limits`: a name, ` | `, the words of a command line, ` | `, and what stands on standard input, as `repeating` has it. The answer is the name, and
// on a line of its own each the exit status, what the program wrote on standard output and what on standard error, and how many bytes it
// read. What is longer than a line of a table should be is shown by its length and its SHA-256, which another program made of the text that is due.

use crate::devices::{Devices, Ended, run};
use crate::programs::{LONGEST, shown};
use crate::repeating::spread;
use plain::Memory;
use std::alloc::Global;
use std::hash::RandomState;
use std::rt::Files;
use std::sync::Wait;
use std::thread::Threads;

pub fn answer<F: Files + AllocGlobal + Clone + Drop>(
    alloc: Global,
    keys: RandomState,
    rt: &(impl Threads + Wait + Sync),
    files: &F,
    case: &str,
) -> Result<String, Memory> {
    let (name, rest) = case.split_once(" | ").unwrap_or((case, ""));
    let (line, bundle) = rest.split_once(" | ").unwrap_or((rest, ""));
    let bytes = spread(alloc, bundle)?;
    let devices = Devices::whole(usize::MAX);
    let ended = run(alloc, keys, rt, files, line, &bytes, devices);
    let text = ended_text(alloc, &ended);
    drop(ended);
    let text = text?;
    Ok(format!(in alloc; "{name}\n{text}")?)
}

fn ended_text(alloc: Global, ended: &Ended) -> Result<String, Memory> {
    let text = shown(alloc, ended, LONGEST)?;
    let read = ended.read;
    Ok(format!(in alloc; "{text}\n    read {read} bytes")?)
}
