// A reader and writers that move few bytes a call and fail once, and the program run on them.

use crate::reading::after_name;
use counted::Counted;
use executor::Fixture;
use plain::Fault;
use program::{NotText, WordsFault, run_program};
use std::alloc::Global;
use std::hash::RandomState;
use std::io;
use std::io::{ErrorKind, Read, Write};
use std::rt::Files;
use std::sync::Wait;
use std::thread::Threads;

/// How a device behaves.
#[derive(Clone, Copy)]
pub struct Device {
    /// How many bytes a call moves, at most.
    pub most: usize,
    /// After how many bytes a call fails, if one does. Those after it don't fail.
    pub fails_at: Option<usize>,
}

impl Device {
    /// One that fails after so many bytes.
    pub fn failing(most: usize, after: usize) -> Device {
        Device {
            most,
            fails_at: Some(after),
        }
    }

    /// How many bytes a call may move after so many; none if it fails.
    fn room(&self, moved: usize) -> usize {
        match self.fails_at {
            Some(after) => self.most.min(after.saturating_sub(moved)),
            None => self.most,
        }
    }
}

/// What the program reads from, what it writes to, and what it says errors on.
#[derive(Clone, Copy)]
pub struct Devices {
    pub input: Device,
    pub output: Device,
    pub errors: Device,
}

impl Devices {
    /// Devices that don't fail, each of which moves so many bytes a call at most.
    pub fn whole(most: usize) -> Devices {
        let device = Device {
            most,
            fails_at: None,
        };
        Devices {
            input: device,
            output: device,
            errors: device,
        }
    }
}

/// What the program did.
#[derive(Drop)]
pub struct Ended {
    pub status: u8,
    pub output: Vec<u8>,
    pub errors: Vec<u8>,
    /// How many bytes were read.
    pub read: usize,
    /// Whether a read was asked for.
    pub is_read: bool,
    /// How many calls failed, of all three devices.
    pub failures: u64,
}

#[derive(Drop)]
struct Giver<'a> {
    rest: &'a [u8],
    given: usize,
    is_asked: bool,
    device: Device,
}

impl Read for Giver<'_> {
    fn read(&mut self, buf: &mut [u8]) -> io::Result<usize> {
        self.is_asked = true;
        let room = self.device.room(self.given);
        if room == 0 {
            self.device.fails_at = None;
            return Err(ErrorKind::Other.into());
        }
        let count = buf.len().min(room).min(self.rest.len());
        buf[..count].copy_from_slice(&self.rest[..count]);
        self.rest = &self.rest[count..];
        self.given = self.given.saturating_add(count);
        Ok(count)
    }
}

#[derive(Drop)]
struct Taker {
    taken: Vec<u8>,
    device: Device,
}

impl Write for Taker {
    /// After an odd number of bytes it fails by taking none.
    fn write(&mut self, buf: &[u8]) -> io::Result<usize> {
        let room = self.device.room(self.taken.len());
        if room == 0 {
            self.device.fails_at = None;
            return if self.taken.len() % 2 == 0 {
                Err(ErrorKind::StorageFull.into())
            } else {
                Ok(0)
            };
        }
        let count = buf.len().min(room);
        self.taken.extend_from_slice(&buf[..count])?;
        Ok(count)
    }

    fn flush(&mut self) -> io::Result<()> {
        Ok(())
    }
}

/// The words of a command line, with a blank between each two. If `ÿ` is in it, a word is no text; if it is empty, there was no memory for them.
fn words_of<'a>(alloc: Global, line: &'a str) -> Result<Vec<&'a str>, WordsFault> {
    if line.is_empty() {
        return Err(Fault::Memory);
    }
    if line.contains('ÿ') {
        return Err(Fault::Because(NotText));
    }
    Ok(line.split(' ').collect(alloc)?)
}

/// Runs the program of this command line with such devices, the first of which gives these bytes.
pub fn run<F: Files + AllocGlobal + Clone + Drop>(
    alloc: Global,
    keys: RandomState,
    rt: &(impl Threads + Wait + Sync),
    files: &F,
    line: &str,
    bytes: &[u8],
    devices: Devices,
) -> Ended {
    match words_of(alloc, line) {
        Ok(words) => run_words(
            alloc,
            keys,
            rt,
            files,
            Ok(after_name(words.as_slice())),
            bytes,
            devices,
        ),
        Err(fault) => run_words(alloc, keys, rt, files, Err(fault), bytes, devices),
    }
}

fn run_words<'a, F: Files + AllocGlobal + Clone + Drop>(
    alloc: Global,
    keys: RandomState,
    rt: &(impl Threads + Wait + Sync),
    files: &F,
    words: Result<&'a [&'a str], WordsFault>,
    bytes: &[u8],
    devices: Devices,
) -> Ended {
    let mut input = Counted::new(Giver {
        rest: bytes,
        given: 0,
        is_asked: false,
        device: devices.input,
    });
    let mut output = Counted::new(Taker {
        taken: Vec::new(alloc),
        device: devices.output,
    });
    let mut errors = Counted::new(Taker {
        taken: Vec::new(alloc),
        device: devices.errors,
    });
    let status = run_program(
        alloc,
        keys,
        rt,
        files,
        words,
        &mut input,
        &mut output,
        &mut errors,
        &Fixture,
    );
    let failures = input
        .failures()
        .saturating_add(output.failures())
        .saturating_add(errors.failures());
    let Giver {
        rest: _,
        given,
        is_asked,
        device: _,
    } = input.into_inner();
    Ended {
        status,
        output: output.into_inner().taken,
        errors: errors.into_inner().taken,
        read: given,
        is_read: is_asked,
        failures,
    }
}
