// What is done with a bundle: it is built, its graph is drawn or written for BuildKit, its target's configuration or its faults are printed, or it is
// said which instruction of it fails, or why paths of its context are kept or left out. The bundle is on the reader, in a file, or made of a folder.
//
// Each of these opens what the bundle is read from, once, and makes one call on it. The calls are generic in the reader, and only of the program's own
// is it known afterwards what it has left; so each opened reader has an arm of its own.
ghost use Rattle.std.specs.Prelude.{◌≡◌, ◌<◌, ◌≤◌, ◌+◌, [], unwrap_or};
ghost use Rattle.counted.specs.Edges.{LosesBeginning};
ghost use Rattle.plain.specs.Limits.{most_bundle_bytes, most_workers};
ghost use Rattle.build.specs.Ends.{Ends, GraphEnds, devices};
ghost use Rattle.program.specs.Faults.{EndsAs};
ghost use Rattle.program.specs.Check.{CheckEnds, file_shown, form_by};
ghost use Rattle.program.specs.Config.{ConfigEnds};
ghost use Rattle.program.specs.Dot.{DrawingEnds};
ghost use Rattle.program.specs.Explain.{ExplainEnds};
ghost use Rattle.program.specs.Llb.{LlbEnds};
ghost use Rattle.program.specs.declared.input.Packing.TheVariants.{AllNames, Kept, KeptNames};
ghost use Rattle.program.specs.Runs.{CallsOn, streams};
ghost use Rattle.program.specs.Saying.{stream};
ghost use Rattle.program.specs.Telling.{TellingEnds};
ghost use Rattle.program.specs.Why.{WhyEnds};

use crate::checking::FaultTeller;
use crate::config::ConfigTeller;
use crate::ending::{finish, finish_file, finish_folder};
use crate::explaining::explain_bundle;
use crate::exporting::DefinitionTeller;
use crate::fault::{TellFault, as_told};
use crate::input::{Input, Packing, TextReader, open_input};
use crate::picturing::PictureTeller;
use crate::telling::{Teller, tell_bundle};
use crate::why::PathTeller;
use build::{Remains, Status, run_build_keeping, run_graph};
use checks::Form;
use command::{BuildOptions, CheckOptions, Choice, GraphOptions, LlbOptions, Source, WhyOptions};
use counted::{CountedRead, CountedWrite};
use executor::Executor;
use memo::Memo;
use solver::OpenGate;
use std::alloc::Global;
use std::hash::RandomState;
use std::mem::ManuallyDrop;
use std::rt::Files;
use std::sync::Wait;
use std::thread::Threads;

/// Builds a bundle as the words ask, and gives the status to end with.
pub(crate) fn build_bundle<
    F: Files + AllocGlobal + Clone + Drop,
    R: CountedRead,
    W: CountedWrite,
    S: CountedWrite,
    E: Executor,
>(
    alloc: Global,
    keys: RandomState,
    rt: &(impl Threads + Wait + Sync),
    files: &F,
    options: &BuildOptions,
    input: &mut R,
    output: &mut W,
    errors: &mut S,
    executor: &E,
) -> u8
    requires workers { (0 < options.now.workers) × (options.now.workers ≤ most_workers) }
    requires reads { R.failures input.old < u64.MAX }
    requires writes { W.failures output.old < u64.MAX }
    requires says { S.failures errors.old < u64.MAX }
    ensures calls { CallsOn options.now.source Kept (EndsAs (Ends (E.out executor.now)))
        (streams (devices (R.remaining input.old) (R.failures input.old) (W.contents output.old) (W.failures output.old)) (stream (S.contents errors.old) (S.failures errors.old)))
        (streams (devices (R.remaining input.new) (R.failures input.new) (W.contents output.new) (W.failures output.new)) (stream (S.contents errors.new) (S.failures errors.new)))
        result }
    ensures taken { LosesBeginning (most_bundle_bytes + 1) (R.remaining input.old) (R.remaining input.new) }
{
    let workers = u32::from(options.workers);
    let source = &options.source;
    match open_input(alloc, keys, files, source, Packing::Kept, errors) {
        Ok(Input::Given) => {
            let ended = build_anew(alloc, keys, rt, input, output, executor, workers);
            finish(errors, ended)
        }
        Ok(Input::File(file)) => {
            let mut reader = file;
            let ended = build_anew(alloc, keys, rt, &mut reader, output, executor, workers);
            finish_file(alloc, errors, ended, place_of(source), reader.why)
        }
        Ok(Input::Folder(folder)) => {
            let mut reader = TextReader::new(folder.text.as_str());
            let ended = build_anew(alloc, keys, rt, &mut reader, output, executor, workers);
            finish_folder(alloc, errors, ended, folder.notes.as_str())
        }
        Err(status) => status,
    }
}

/// Builds a bundle without anything of earlier builds. What it holds in the end is left to the system: the program ends after it.
fn build_anew<R: CountedRead, W: CountedWrite, E: Executor>(
    alloc: Global,
    keys: RandomState,
    rt: &(impl Threads + Wait + Sync),
    input: &mut R,
    output: &mut W,
    executor: &E,
    workers: u32,
) -> Result<Status, TellFault>
    requires workers { (0 < workers) × (workers ≤ most_workers) }
    requires reads { R.failures input.old < u64.MAX }
    requires writes { W.failures output.old < u64.MAX }
    ensures ends { EndsAs (Ends (E.out executor.now))
        (devices (R.remaining input.old) (R.failures input.old) (W.contents output.old) (W.failures output.old))
        (devices (R.remaining input.new) (R.failures input.new) (W.contents output.new) (W.failures output.new))
        result }
    ensures taken { LosesBeginning (most_bundle_bytes + 1) (R.remaining input.old) (R.remaining input.new) }
{
    let mut memo = Memo::for_one_build(alloc, executor);
    let mut remains = Remains::none(alloc);
    let ended = run_build_keeping(
        alloc,
        keys,
        rt,
        input,
        output,
        executor,
        workers,
        &OpenGate,
        &mut memo,
        &mut remains,
    );
    drop(memo);
    leave(remains);
    as_told(ended)
}

/// Leaves what a build held to the system, which takes it back at once where letting it go would take a step for each file.
fn leave(remains: Remains) {
    let _left = ManuallyDrop::new(remains);
}

/// Draws the graph of a bundle, and gives the status to end with.
pub(crate) fn draw_bundle<
    F: Files + AllocGlobal + Clone + Drop,
    R: CountedRead,
    W: CountedWrite,
    S: CountedWrite,
>(
    alloc: Global,
    keys: RandomState,
    rt: &(impl Threads + Wait + Sync),
    files: &F,
    options: &GraphOptions,
    input: &mut R,
    output: &mut W,
    errors: &mut S,
) -> u8
    requires reads { R.failures input.old < u64.MAX }
    requires writes { W.failures output.old < u64.MAX }
    requires says { S.failures errors.old < u64.MAX }
    ensures calls { CallsOn options.now.source KeptNames (DrawingEnds options.now.dot)
        (streams (devices (R.remaining input.old) (R.failures input.old) (W.contents output.old) (W.failures output.old)) (stream (S.contents errors.old) (S.failures errors.old)))
        (streams (devices (R.remaining input.new) (R.failures input.new) (W.contents output.new) (W.failures output.new)) (stream (S.contents errors.new) (S.failures errors.new)))
        result }
    ensures taken { LosesBeginning (most_bundle_bytes + 1) (R.remaining input.old) (R.remaining input.new) }
{
    let source = &options.source;
    if options.dot {
        let teller = &PictureTeller;
        tell_by(
            alloc,
            keys,
            rt,
            files,
            source,
            Packing::KeptNames,
            teller,
            input,
            output,
            errors,
        )
    } else {
        graph_bundle(alloc, keys, rt, files, source, input, output, errors)
    }
}

/// Draws the graph of a bundle by content addresses.
fn graph_bundle<
    F: Files + AllocGlobal + Clone + Drop,
    R: CountedRead,
    W: CountedWrite,
    S: CountedWrite,
>(
    alloc: Global,
    keys: RandomState,
    rt: &(impl Threads + Sync),
    files: &F,
    source: &Source,
    input: &mut R,
    output: &mut W,
    errors: &mut S,
) -> u8
    requires reads { R.failures input.old < u64.MAX }
    requires writes { W.failures output.old < u64.MAX }
    requires says { S.failures errors.old < u64.MAX }
    ensures calls { CallsOn source.now KeptNames (EndsAs GraphEnds)
        (streams (devices (R.remaining input.old) (R.failures input.old) (W.contents output.old) (W.failures output.old)) (stream (S.contents errors.old) (S.failures errors.old)))
        (streams (devices (R.remaining input.new) (R.failures input.new) (W.contents output.new) (W.failures output.new)) (stream (S.contents errors.new) (S.failures errors.new)))
        result }
    ensures taken { LosesBeginning (most_bundle_bytes + 1) (R.remaining input.old) (R.remaining input.new) }
{
    match open_input(alloc, keys, files, source, Packing::KeptNames, errors) {
        Ok(Input::Given) => {
            let ended = draw_anew(alloc, keys, rt, input, output);
            finish(errors, ended)
        }
        Ok(Input::File(file)) => {
            let mut reader = file;
            let ended = draw_anew(alloc, keys, rt, &mut reader, output);
            finish_file(alloc, errors, ended, place_of(source), reader.why)
        }
        Ok(Input::Folder(folder)) => {
            let mut reader = TextReader::new(folder.text.as_str());
            let ended = draw_anew(alloc, keys, rt, &mut reader, output);
            finish_folder(alloc, errors, ended, folder.notes.as_str())
        }
        Err(status) => status,
    }
}

/// Draws the graph of a bundle that is read from here.
fn draw_anew<R: CountedRead, W: CountedWrite>(
    alloc: Global,
    keys: RandomState,
    rt: &(impl Threads + Sync),
    input: &mut R,
    output: &mut W,
) -> Result<Status, TellFault>
    requires reads { R.failures input.old < u64.MAX }
    requires writes { W.failures output.old < u64.MAX }
    ensures ends { EndsAs GraphEnds
        (devices (R.remaining input.old) (R.failures input.old) (W.contents output.old) (W.failures output.old))
        (devices (R.remaining input.new) (R.failures input.new) (W.contents output.new) (W.failures output.new))
        result }
    ensures taken { LosesBeginning (most_bundle_bytes + 1) (R.remaining input.old) (R.remaining input.new) }
{
    as_told(run_graph(alloc, keys, rt, input, output))
}

/// Prints why paths of a bundle's context are kept or left out, and gives the status to end with.
pub(crate) fn explain_paths<
    F: Files + AllocGlobal + Clone + Drop,
    R: CountedRead,
    W: CountedWrite,
    S: CountedWrite,
>(
    alloc: Global,
    keys: RandomState,
    rt: &(impl Threads + Sync),
    files: &F,
    options: &WhyOptions,
    input: &mut R,
    output: &mut W,
    errors: &mut S,
) -> u8
    requires reads { R.failures input.old < u64.MAX }
    requires writes { W.failures output.old < u64.MAX }
    requires says { S.failures errors.old < u64.MAX }
    ensures calls { CallsOn options.now.source KeptNames (WhyEnds options.now.paths)
        (streams (devices (R.remaining input.old) (R.failures input.old) (W.contents output.old) (W.failures output.old)) (stream (S.contents errors.old) (S.failures errors.old)))
        (streams (devices (R.remaining input.new) (R.failures input.new) (W.contents output.new) (W.failures output.new)) (stream (S.contents errors.new) (S.failures errors.new)))
        result }
    ensures taken { LosesBeginning (most_bundle_bytes + 1) (R.remaining input.old) (R.remaining input.new) }
{
    let teller = PathTeller {
        paths: options.paths.as_slice(),
    };
    let source = &options.source;
    tell_by(
        alloc,
        keys,
        rt,
        files,
        source,
        Packing::KeptNames,
        &teller,
        input,
        output,
        errors,
    )
}

/// Writes the graph of a bundle for BuildKit, and gives the status to end with.
pub(crate) fn export_bundle<
    F: Files + AllocGlobal + Clone + Drop,
    R: CountedRead,
    W: CountedWrite,
    S: CountedWrite,
>(
    alloc: Global,
    keys: RandomState,
    rt: &(impl Threads + Wait + Sync),
    files: &F,
    options: &LlbOptions,
    input: &mut R,
    output: &mut W,
    errors: &mut S,
) -> u8
    requires reads { R.failures input.old < u64.MAX }
    requires writes { W.failures output.old < u64.MAX }
    requires says { S.failures errors.old < u64.MAX }
    ensures calls { CallsOn options.now.source AllNames (LlbEnds options.now)
        (streams (devices (R.remaining input.old) (R.failures input.old) (W.contents output.old) (W.failures output.old)) (stream (S.contents errors.old) (S.failures errors.old)))
        (streams (devices (R.remaining input.new) (R.failures input.new) (W.contents output.new) (W.failures output.new)) (stream (S.contents errors.new) (S.failures errors.new)))
        result }
    ensures taken { LosesBeginning (most_bundle_bytes + 1) (R.remaining input.old) (R.remaining input.new) }
{
    let teller = DefinitionTeller { options };
    let source = &options.source;
    tell_by(
        alloc,
        keys,
        rt,
        files,
        source,
        Packing::AllNames,
        &teller,
        input,
        output,
        errors,
    )
}

/// Prints the configuration of a bundle's target, and gives the status to end with.
pub(crate) fn tell_config<
    F: Files + AllocGlobal + Clone + Drop,
    R: CountedRead,
    W: CountedWrite,
    S: CountedWrite,
>(
    alloc: Global,
    keys: RandomState,
    rt: &(impl Threads + Wait + Sync),
    files: &F,
    source: &Source,
    input: &mut R,
    output: &mut W,
    errors: &mut S,
) -> u8
    requires reads { R.failures input.old < u64.MAX }
    requires writes { W.failures output.old < u64.MAX }
    requires says { S.failures errors.old < u64.MAX }
    ensures calls { CallsOn source.now KeptNames ConfigEnds
        (streams (devices (R.remaining input.old) (R.failures input.old) (W.contents output.old) (W.failures output.old)) (stream (S.contents errors.old) (S.failures errors.old)))
        (streams (devices (R.remaining input.new) (R.failures input.new) (W.contents output.new) (W.failures output.new)) (stream (S.contents errors.new) (S.failures errors.new)))
        result }
    ensures taken { LosesBeginning (most_bundle_bytes + 1) (R.remaining input.old) (R.remaining input.new) }
{
    let teller = &ConfigTeller;
    tell_by(
        alloc,
        keys,
        rt,
        files,
        source,
        Packing::KeptNames,
        teller,
        input,
        output,
        errors,
    )
}

/// Prints all faults of a bundle, and gives the status to end with.
pub(crate) fn check_bundle<
    F: Files + AllocGlobal + Clone + Drop,
    R: CountedRead,
    W: CountedWrite,
    S: CountedWrite,
>(
    alloc: Global,
    keys: RandomState,
    rt: &(impl Threads + Wait + Sync),
    files: &F,
    options: &CheckOptions,
    input: &mut R,
    output: &mut W,
    errors: &mut S,
) -> u8
    requires reads { R.failures input.old < u64.MAX }
    requires writes { W.failures output.old < u64.MAX }
    requires says { S.failures errors.old < u64.MAX }
    ensures calls { CallsOn options.now.source KeptNames (CheckEnds (file_shown options.now.source.choice) (form_by options.now.json))
        (streams (devices (R.remaining input.old) (R.failures input.old) (W.contents output.old) (W.failures output.old)) (stream (S.contents errors.old) (S.failures errors.old)))
        (streams (devices (R.remaining input.new) (R.failures input.new) (W.contents output.new) (W.failures output.new)) (stream (S.contents errors.new) (S.failures errors.new)))
        result }
    ensures taken { LosesBeginning (most_bundle_bytes + 1) (R.remaining input.old) (R.remaining input.new) }
{
    let source = &options.source;
    let teller = FaultTeller {
        file: file_shown(&source.choice),
        form: form_by(options.json),
    };
    tell_by(
        alloc,
        keys,
        rt,
        files,
        source,
        Packing::KeptNames,
        &teller,
        input,
        output,
        errors,
    )
}

/// What positions call the Dockerfile.
fn file_shown(choice: &Choice) -> &str
    ensures { result.now ≡ file_shown choice.now }
{
    match &choice.file {
        Some(file) => file.as_str(),
        None => "Dockerfile",
    }
}

/// The form of faults by the flag `--json`.
fn form_by(json: bool) -> Form
    ensures { result ≡ form_by json }
{
    if json { Form::Json } else { Form::Plain }
}

/// Prints which instruction of a bundle fails, and gives the status to end with.
pub(crate) fn explain_build<
    F: Files + AllocGlobal + Clone + Drop,
    R: CountedRead,
    W: CountedWrite,
    S: CountedWrite,
    E: Executor,
>(
    alloc: Global,
    keys: RandomState,
    rt: &(impl Threads + Wait + Sync),
    files: &F,
    source: &Source,
    input: &mut R,
    output: &mut W,
    errors: &mut S,
    executor: &E,
) -> u8
    requires reads { R.failures input.old < u64.MAX }
    requires writes { W.failures output.old < u64.MAX }
    requires says { S.failures errors.old < u64.MAX }
    ensures calls { CallsOn source.now Kept (ExplainEnds (file_shown source.now.choice) (E.out executor.now))
        (streams (devices (R.remaining input.old) (R.failures input.old) (W.contents output.old) (W.failures output.old)) (stream (S.contents errors.old) (S.failures errors.old)))
        (streams (devices (R.remaining input.new) (R.failures input.new) (W.contents output.new) (W.failures output.new)) (stream (S.contents errors.new) (S.failures errors.new)))
        result }
    ensures taken { LosesBeginning (most_bundle_bytes + 1) (R.remaining input.old) (R.remaining input.new) }
{
    let shown = file_shown(&source.choice);
    match open_input(alloc, keys, files, source, Packing::Kept, errors) {
        Ok(Input::Given) => {
            let ended = explain_bundle(alloc, keys, rt, shown, input, output, executor);
            finish(errors, ended)
        }
        Ok(Input::File(file)) => {
            let mut reader = file;
            let ended = explain_bundle(alloc, keys, rt, shown, &mut reader, output, executor);
            finish_file(alloc, errors, ended, place_of(source), reader.why)
        }
        Ok(Input::Folder(folder)) => {
            let mut reader = TextReader::new(folder.text.as_str());
            let ended = explain_bundle(alloc, keys, rt, shown, &mut reader, output, executor);
            finish_folder(alloc, errors, ended, folder.notes.as_str())
        }
        Err(status) => status,
    }
}

/// Prints what a teller tells of a bundle.
fn tell_by<
    T: Teller,
    F: Files + AllocGlobal + Clone + Drop,
    R: CountedRead,
    W: CountedWrite,
    S: CountedWrite,
>(
    alloc: Global,
    keys: RandomState,
    rt: &(impl Threads + Sync),
    files: &F,
    source: &Source,
    packing: Packing,
    teller: &T,
    input: &mut R,
    output: &mut W,
    errors: &mut S,
) -> u8
    requires reads { R.failures input.old < u64.MAX }
    requires writes { W.failures output.old < u64.MAX }
    requires says { S.failures errors.old < u64.MAX }
    ensures calls { CallsOn source.now packing (TellingEnds (T.tells teller.now) (T.stops teller.now))
        (streams (devices (R.remaining input.old) (R.failures input.old) (W.contents output.old) (W.failures output.old)) (stream (S.contents errors.old) (S.failures errors.old)))
        (streams (devices (R.remaining input.new) (R.failures input.new) (W.contents output.new) (W.failures output.new)) (stream (S.contents errors.new) (S.failures errors.new)))
        result }
    ensures taken { LosesBeginning (most_bundle_bytes + 1) (R.remaining input.old) (R.remaining input.new) }
{
    match open_input(alloc, keys, files, source, packing, errors) {
        Ok(Input::Given) => {
            let ended = tell_bundle(alloc, keys, rt, teller, input, output);
            finish(errors, ended)
        }
        Ok(Input::File(file)) => {
            let mut reader = file;
            let ended = tell_bundle(alloc, keys, rt, teller, &mut reader, output);
            finish_file(alloc, errors, ended, place_of(source), reader.why)
        }
        Ok(Input::Folder(folder)) => {
            let mut reader = TextReader::new(folder.text.as_str());
            let ended = tell_bundle(alloc, keys, rt, teller, &mut reader, output);
            finish_folder(alloc, errors, ended, folder.notes.as_str())
        }
        Err(status) => status,
    }
}

/// The name of what a bundle is read from; empty where none is named.
fn place_of(source: &Source) -> &str
    ensures { result.now ≡ unwrap_or source.now.place [] }
{
    match &source.place {
        Some(name) => name.as_str(),
        None => "",
    }
}
