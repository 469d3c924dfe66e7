// `failing devices`: a name, ` | `, how many bytes a call moves at most, ` | `, the words of a command line, ` | `, and what stands on standard input, as
// `repeating` has it. Words with `ÿ` in them are no text, and where none stand, there was no memory for them. The answer is the name, and on a line of
// its own each the exit status, what the program writes on standard output and what on standard error if no device fails, and of how many failures
// each ended as it has to. In each run one call fails, after none, one, two of these pieces and so on:
//
// - a read, also the one that finds the end: then the status is 3, standard output is empty, standard error has `device failed`, and no more is read;
// - a write on standard output: then the same is said, and a beginning of the output was written;
// - a write on standard error: then a beginning of what is said was written, and all else is as it was.

use crate::devices::{Device, Devices, Ended, run};
use crate::programs::{LONGEST, shown};
use crate::repeating::spread;
use plain::Memory;
use std::alloc::Global;
use std::hash::RandomState;
use std::rt::Files;
use std::sync::Wait;
use std::thread::Threads;

/// What is run again and again.
#[derive(Clone, Copy)]
struct Run<'a> {
    most: usize,
    line: &'a str,
    bytes: &'a [u8],
}

/// Which device fails.
#[derive(Clone, Copy)]
enum Failing {
    Input,
    Output,
    Errors,
}

impl Failing {
    /// How many bytes the device moves if none fails.
    fn moved(self, whole: &Ended) -> usize {
        match self {
            Failing::Input => whole.read,
            Failing::Output => whole.output.len(),
            Failing::Errors => whole.errors.len(),
        }
    }

    /// How many failures there are to try: one before each piece, and one of the read that finds the end.
    fn count(self, whole: &Ended, most: usize) -> usize {
        let pieces = if most == 0 {
            0
        } else {
            self.moved(whole).div_ceil(most)
        };
        match self {
            Failing::Input if whole.is_read => pieces.saturating_add(1),
            _ => pieces,
        }
    }

    /// Devices of which this one fails after so many bytes.
    fn devices(self, most: usize, place: usize) -> Devices {
        let device = Device::failing(most, place);
        let mut devices = Devices::whole(most);
        match self {
            Failing::Input => devices.input = device,
            Failing::Output => devices.output = device,
            Failing::Errors => devices.errors = device,
        }
        devices
    }

    /// Whether a run ended as it has to if this device failed after so many bytes.
    fn is_right(self, ended: &Ended, whole: &Ended, place: usize) -> bool {
        match self {
            Failing::Input => has_failed(ended, &[]) && ended.read == place,
            Failing::Output => has_failed(ended, beginning(&whole.output, place)),
            Failing::Errors => has_said(ended, whole, place),
        }
    }
}

pub fn answer<F: Files + AllocGlobal + Clone + Drop>(
    alloc: Global,
    keys: RandomState,
    rt: &(impl Threads + Wait + Sync),
    files: &F,
    case: &str,
) -> Result<String, Memory> {
    let (name, rest) = case.split_once(" | ").unwrap_or((case, ""));
    let (most, rest) = rest.split_once(" | ").unwrap_or((rest, ""));
    let (line, bundle) = rest.split_once(" | ").unwrap_or((rest, ""));
    let bytes = spread(alloc, bundle)?;
    let most = most.parse::<usize>().unwrap_or(1);
    let bytes = bytes.as_slice();
    let ended = ended_text(alloc, keys, rt, files, Run { most, line, bytes })?;
    Ok(format!(in alloc; "{name}\n{ended}")?)
}

/// How a run ends, and of how many failures each ended as it has to.
fn ended_text<F: Files + AllocGlobal + Clone + Drop>(
    alloc: Global,
    keys: RandomState,
    rt: &(impl Threads + Wait + Sync),
    files: &F,
    case: Run,
) -> Result<String, Memory> {
    let devices = Devices::whole(case.most);
    let whole = run(alloc, keys, rt, files, case.line, case.bytes, devices);
    let text = shown(alloc, &whole, LONGEST);
    let reads = tried_text(alloc, keys, rt, files, case, Failing::Input, &whole);
    let writes = tried_text(alloc, keys, rt, files, case, Failing::Output, &whole);
    let errors = tried_text(alloc, keys, rt, files, case, Failing::Errors, &whole);
    drop(whole);
    let (text, reads, writes, errors) = (text?, reads?, writes?, errors?);
    Ok(format!(in alloc; "{text}\n    {reads} reads, {writes} writes, {errors} of errors")?)
}

/// Of how many failures of a device how many ended as they have to.
fn tried_text<F: Files + AllocGlobal + Clone + Drop>(
    alloc: Global,
    keys: RandomState,
    rt: &(impl Threads + Wait + Sync),
    files: &F,
    case: Run,
    failing: Failing,
    whole: &Ended,
) -> Result<String, Memory> {
    let count = failing.count(whole, case.most);
    let mut right = 0usize;
    for number in 0..count {
        let place = number.saturating_mul(case.most).min(failing.moved(whole));
        let devices = failing.devices(case.most, place);
        let ended = run(alloc, keys, rt, files, case.line, case.bytes, devices);
        if failing.is_right(&ended, whole, place) {
            right = right.saturating_add(1);
        }
        drop(ended);
    }
    Ok(format!(in alloc; "{right} of {count}")?)
}

/// Whether a run ended as one has to of which a device failed, with no more than this on standard output.
fn has_failed(ended: &Ended, written: &[u8]) -> bool {
    ended.status == 3
        && ended.failures == 1
        && ended.output.as_slice() == written
        && ended.errors.as_slice() == b"device failed\n".as_slice()
}

/// Whether a run ended as the one without a failure, but said so much of its errors alone.
fn has_said(ended: &Ended, whole: &Ended, place: usize) -> bool {
    ended.status == whole.status
        && ended.failures == 1
        && ended.output.as_slice() == whole.output.as_slice()
        && ended.errors.as_slice() == beginning(&whole.errors, place)
}

fn beginning(bytes: &[u8], length: usize) -> &[u8] {
    bytes.get(..length).unwrap_or(bytes)
}
