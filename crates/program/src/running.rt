ghost use Rattle.std.specs.Prelude.{◌≡◌, ◌≢◌, ◌<◌, ◌+◌, ◌⊎◌, map, []};
ghost use Rattle.clap.specs.Values.{kind_of};
ghost use Rattle.clap.specs.Kinds.{HasKind};
ghost use Rattle.command.specs.Tasks.{faults_of};
ghost use Rattle.counted.specs.Edges.{LosesBeginning};
ghost use Rattle.plain.specs.Limits.{most_bundle_bytes};
ghost use Rattle.build.specs.Ends.{devices};
ghost use Rattle.program.specs.Runs.{Packs, Runs, streams, texts_in};
ghost use Rattle.program.specs.PrivateRuns.{IsRefused};
ghost use Rattle.program.specs.Saying.{stream};

use crate::bundles::{
    build_bundle, check_bundle, draw_bundle, explain_build, explain_paths, export_bundle,
    tell_config,
};
use crate::ending::finish_pack;
use crate::input::options_of;
use crate::saying::{NO_MEMORY_LINE, say};
use crate::{NotText, WordsFault};
use clap::Error;
use clap::error::ErrorKind;
use command::{PackOptions, Task, read_command};
use counted::{CountedRead, CountedWrite};
use executor::Executor;
use packing::{run_pack_to_file, run_pack_with};
use plain::{Fault, Text};
use std::alloc::Global;
use std::hash::RandomState;
use std::rt::Files;
use std::sync::Wait;
use std::thread::Threads;

/// The status after a bad command line, and after help.
const BAD_COMMAND: u8 = 2;

/// The status after want of memory.
const NO_MEMORY: u8 = 3;

/// Does what the words of a command line ask for, and gives the status to end with.
///
/// The words are those after the program's name. Where the system gave none, it is handed why. The context of a build is filtered in several
/// threads, its graph is solved by as many workers as the words say, and all else is done in the caller's. `files` has the file or the folder that
/// the words name for a bundle, the folder that is to be packed, and where its bundle is written to, if the words name a file for it. If they name a
/// bundle's file or folder, nothing is read from `input`. No more than one byte past the limit of bundles is read.
pub fn run_program<
    'a,
    F: Files + AllocGlobal + Clone + Drop,
    R: CountedRead,
    W: CountedWrite,
    S: CountedWrite,
    E: Executor,
>(
    alloc: Global,
    keys: RandomState,
    rt: &(impl Threads + Wait + Sync),
    files: &F,
    words: Result<&'a [&'a str], WordsFault>,
    input: &mut R,
    output: &mut W,
    errors: &mut S,
    executor: &E,
) -> u8
    requires reads { R.failures input.old < u64.MAX }
    requires writes { W.failures output.old < u64.MAX }
    requires says { S.failures errors.old < u64.MAX }
    ensures runs { Runs (E.out executor.now) (texts_in words.entry)
        (streams (devices (R.remaining input.old) (R.failures input.old) (W.contents output.old) (W.failures output.old)) (stream (S.contents errors.old) (S.failures errors.old)))
        (streams (devices (R.remaining input.new) (R.failures input.new) (W.contents output.new) (W.failures output.new)) (stream (S.contents errors.new) (S.failures errors.new)))
        result }
    ensures taken { LosesBeginning (most_bundle_bytes + 1) (R.remaining input.old) (R.remaining input.new) }
{
    let words = match words {
        Ok(words) => words,
        Err(Fault::Because(NotText)) => {
            say(
                errors,
                "error: invalid UTF-8 was detected in one or more arguments\n",
            );
            return BAD_COMMAND;
        }
        Err(Fault::Memory) => {
            say(errors, NO_MEMORY_LINE);
            return NO_MEMORY;
        }
    };
    match read_command(alloc, words) {
        Ok(Task::Build(options)) => {
            let status = build_bundle(
                alloc, keys, rt, files, &options, input, output, errors, executor,
            );
            drop(options);
            status
        }
        Ok(Task::Graph(options)) => {
            let status = draw_bundle(alloc, keys, rt, files, &options, input, output, errors);
            drop(options);
            status
        }
        Ok(Task::Pack(options)) => {
            let status = pack(alloc, keys, files, &options, output, errors);
            drop(options);
            status
        }
        Ok(Task::Why(options)) => {
            let status = explain_paths(alloc, keys, rt, files, &options, input, output, errors);
            drop(options);
            status
        }
        Ok(Task::Llb(options)) => {
            let status = export_bundle(alloc, keys, rt, files, &options, input, output, errors);
            drop(options);
            status
        }
        Ok(Task::Config(source)) => {
            let status = tell_config(alloc, keys, rt, files, &source, input, output, errors);
            drop(source);
            status
        }
        Ok(Task::Check(options)) => {
            let status = check_bundle(alloc, keys, rt, files, &options, input, output, errors);
            drop(options);
            status
        }
        Ok(Task::Explain(source)) => {
            let status = explain_build(
                alloc, keys, rt, files, &source, input, output, errors, executor,
            );
            drop(source);
            status
        }
        Err(error) => refuse_words(alloc, output, errors, &error),
    }
}

/// Packs a folder as the words ask, and gives the status to end with.
fn pack<F: Files + AllocGlobal + Clone + Drop, W: CountedWrite, S: CountedWrite>(
    alloc: Global,
    keys: RandomState,
    files: &F,
    options: &PackOptions,
    output: &mut W,
    errors: &mut S,
) -> u8
    requires writes { W.failures output.old < u64.MAX }
    requires says { S.failures errors.old < u64.MAX }
    ensures { Packs options.now
        (stream (W.contents output.old) (W.failures output.old)) (stream (W.contents output.new) (W.failures output.new))
        (stream (S.contents errors.old) (S.failures errors.old)) (stream (S.contents errors.new) (S.failures errors.new)) result }
{
    let folder = options.folder.as_str();
    let given = options_of(&options.choice, options.apply_ignore, options.names, false);
    let mut why = Text::from_string(String::new(alloc));
    let ended = match &options.output {
        Some(name) => run_pack_to_file(alloc, keys, files, folder, given, name.as_str(), &mut why),
        None => run_pack_with(alloc, keys, files, folder, given, output, &mut why),
    };
    finish_pack(alloc, errors, ended, why.as_str())
}

/// Says what clap found in the words, or help that was asked for, and gives the status to end with.
fn refuse_words<W: CountedWrite, S: CountedWrite>(
    alloc: Global,
    output: &mut W,
    errors: &mut S,
    error: &Error,
) -> u8
    requires writes { W.failures output.old < u64.MAX }
    requires says { S.failures errors.old < u64.MAX }
    ensures { IsRefused (kind_of error.now)
        (stream (W.contents output.old) (W.failures output.old)) (stream (W.contents output.new) (W.failures output.new))
        (stream (S.contents errors.old) (S.failures errors.old)) (stream (S.contents errors.new) (S.failures errors.new)) result }
{
    if error.kind() == ErrorKind::OutOfMemory {
        say(errors, NO_MEMORY_LINE);
        return NO_MEMORY;
    }
    let Ok(text) = error.to_string(alloc) else {
        say(errors, NO_MEMORY_LINE);
        return NO_MEMORY;
    };
    // clap's words are never empty; no contract of it says so.
    let text = if text.is_empty() {
        "error"
    } else {
        text.as_str()
    };
    if error.use_stderr() {
        say(errors, text);
    } else {
        say(output, text);
    }
    BAD_COMMAND
}
