// The program: joins what it does to the system.
//
// It decides nothing: `program` says what is written where and with which status the program ends, for every end of every command. Here
// stand only where the words and the bytes come from, and where they go to. Nothing is flushed: a write to standard output or error is a
// call of the system, which keeps nothing back.
#![tactic(auto)]

use counted::Counted;
use executor::Fixture;
use plain::Fault;
use program::{NotText, WordsFault, end_without_keys, run_program};
use std::alloc::AllocError;
use std::hash::RandomState;
use std::process::ExitCode;
use std::sync::Wait;
use std::thread::Threads;
use std::{env, io};

fn main(rt: HostRuntime) -> ExitCode {
    let code = match RandomState::new(&rt) {
        Ok(keys) => run_keyed(&rt, keys, &rt),
        Err(_) => end_without_keys(&mut Counted::new(rt.stderr())),
    };
    ExitCode::from(code)
}

/// Runs the program, whose maps find names by a hash with these keys.
fn run_keyed(rt: &HostRuntime, keys: RandomState, threads: &(impl Threads + Wait + Sync)) -> u8 {
    match own_words(rt) {
        Ok(words) => run_words(rt, keys, threads, words.as_slice()),
        Err(fault) => run(rt, keys, threads, Err(fault)),
    }
}

/// The words of the command line, the program's name first, as the system gives them.
fn own_words(rt: &HostRuntime) -> Result<Vec<String>, WordsFault> {
    match args(rt) {
        Ok(words) => Ok(words),
        Err(error) => Err(fault_of(&error)),
    }
}

/// The same, with the system's own error.
fn args(rt: &HostRuntime) -> io::Result<Vec<String>> {
    let words = env::args(rt)?.collect(rt.alloc())?;
    Ok(words)
}

/// Why the system gave no words: a word is no UTF-8, or there was no memory for them.
fn fault_of(error: &io::Error) -> WordsFault {
    if error.kind() == io::ErrorKind::OutOfMemory {
        Fault::Memory
    } else {
        Fault::Because(NotText)
    }
}

/// Runs the program on what follows its name, the first of these words.
fn run_words(
    rt: &HostRuntime,
    keys: RandomState,
    threads: &(impl Threads + Wait + Sync),
    words: &[String],
) -> u8 {
    let after = match words {
        [_, after @ ..] => after,
        [] => words,
    };
    let lent: Result<Vec<&str>, AllocError> = after
        .iter()
        .map(|word| word.as_str())
        .collect(rt.alloc());
    match lent {
        Ok(lent) => run(rt, keys, threads, Ok(lent.as_slice())),
        Err(_) => run(rt, keys, threads, Err(Fault::Memory)),
    }
}

/// Runs the program on the system's streams.
fn run<'a>(
    rt: &HostRuntime,
    keys: RandomState,
    threads: &(impl Threads + Wait + Sync),
    words: Result<&'a [&'a str], WordsFault>,
) -> u8 {
    let mut input = Counted::new(rt.stdin());
    let mut output = Counted::new(rt.stdout());
    let mut errors = Counted::new(rt.stderr());
    run_program(
        rt.alloc(),
        keys,
        threads,
        rt,
        words,
        &mut input,
        &mut output,
        &mut errors,
        &Fixture,
    )
}
