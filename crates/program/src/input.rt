// What a bundle is read from: the reader that the program was handed, a file of the machine, or the text of a folder's bundle, which is made here.
ghost use Rattle.std.specs.Prelude.{◌≡◌, ◌<◌, ◌≤◌, Some, IfOk, IfErr, codes, length, option_map};
ghost use Rattle.packing.specs.Asked.{asked_of};
ghost use Rattle.plain.specs.Limits.{most_bundle_bytes};
ghost use Rattle.program.specs.Runs.{HasNoBundle, IsOpenFault, IsShut, IsUnopened, SaysSome, asked_for, asked_with};
ghost use Rattle.program.specs.PrivateInput.{IsNoFile, IsNotOpened, IsOfFile, IsOpened, IsTextOf, failures_of, left_of};
ghost use Rattle.program.specs.Saying.{stream};

use crate::ending::{finish_file, finish_pack};
use crate::fault::TellFault;
use crate::saying::say_because;
use build::Status;
use command::{Choice, Source};
use counted::{CountedRead, CountedWrite};
use packing::{PackOptions, packed_text};
use plain::Text;
use plain::limits::MOST_BUNDLE_BYTES;
use std::alloc::{AllocError, Global};
use std::fs::File;
use std::hash::RandomState;
use std::io::{ErrorKind, Read};
use std::rt::Files;
use std::{fs, io};

/// The status after words that ask for what can't be.
const BAD_COMMAND: u8 = 2;

/// The status where there is no whole bundle of a folder.
const UNPACKED: u8 = 3;

/// How a folder is packed.
#[derive(Clone, Copy)]
pub(crate) enum Packing {
    /// With the bytes of files, without what the ignore file leaves out.
    Kept,
    /// By names alone, without what the ignore file leaves out. Links and devices are passed over.
    KeptNames,
    /// By names alone, all that there is. Links and devices are passed over. What is given the folder itself has to be told what is left out, and that is
    /// only known of a path that stands in the bundle.
    AllNames,
}

/// What a bundle is read from, opened.
pub(crate) enum Input<T> {
    /// The reader that the program was handed.
    Given,
    File(BundleFile<T>),
    Folder(FolderText),
}

/// A file of the machine that a bundle is read from. It counts its failed reads, and keeps in words why the last one failed.
#[derive(Drop)]
pub(crate) struct BundleFile<T> {
    inner: T,
    failures: u64,
    pub(crate) why: &'static str,
}

impl<T: Read> CountedRead for BundleFile<T> {
    ghost remaining = { λ file. T.remaining file.inner };

    ghost failures = { λ file. file.failures };

    fn read(&mut self, buf: &mut [u8]) -> io::Result<usize> {
        let outcome = self.inner.read(buf);
        if let Err(error) = &outcome {
            self.failures += 1;
            self.why = why_of(error.kind());
        }
        outcome
    }
}

/// The text of a folder's bundle, and what was passed over in the folder, as lines.
#[derive(Drop)]
pub(crate) struct FolderText {
    pub(crate) text: Text,
    pub(crate) notes: Text,
}

/// A text that is lent to be read. No read of it fails.
#[derive(Drop)]
pub(crate) struct TextReader<'a> {
    rest: &'a [u8],
}

impl<'a> TextReader<'a> {
    pub(crate) fn new(text: &'a str) -> TextReader<'a>
        ensures { left_of result ≡ text.now }
    {
        TextReader {
            rest: text.as_bytes(),
        }
    }
}

impl<'a> CountedRead for TextReader<'a> {
    ghost use Rattle.std.specs.Prelude.{Some};

    ghost remaining = { λ reader. Some reader.rest.now };

    ghost failures = { λ _. 0 };

    fn read(&mut self, buf: &mut [u8]) -> io::Result<usize> {
        self.rest.read(buf)
    }
}

/// Opens what a bundle is read from. Of a folder the bundle is made that `pack` makes of it with what is chosen. Where there is no bundle it says why,
/// and gives the status to end with.
pub(crate) fn open_input<F: Files + AllocGlobal + Clone + Drop, S: CountedWrite>(
    alloc: Global,
    keys: RandomState,
    files: &F,
    source: &Source,
    packing: Packing,
    errors: &mut S,
) -> Result<Input<F::File>, u8>
    requires says { S.failures errors.old < u64.MAX }
    ensures opened { IfOk result (λ input. IsOpened source.now.place source.now.choice packing input) }
    ensures quiet { IfOk result (λ _. stream (S.contents errors.new) (S.failures errors.new) ≡ stream (S.contents errors.old) (S.failures errors.old)) }
    ensures count { IfOk result (λ _. S.failures errors.new ≡ S.failures errors.old) }
    ensures shut { IfErr result (λ status. IsNotOpened source.now.place source.now.choice packing
        (stream (S.contents errors.old) (S.failures errors.old)) (stream (S.contents errors.new) (S.failures errors.new)) status) }
{
    match &source.place {
        Some(name) => open_place(
            alloc,
            keys,
            files,
            name.as_str(),
            &source.choice,
            packing,
            errors,
        ),
        None => Ok(Input::Given),
    }
}

/// Opens the file or the folder of this name.
fn open_place<F: Files + AllocGlobal + Clone + Drop, S: CountedWrite>(
    alloc: Global,
    keys: RandomState,
    files: &F,
    name: &str,
    choice: &Choice,
    packing: Packing,
    errors: &mut S,
) -> Result<Input<F::File>, u8>
    requires says { S.failures errors.old < u64.MAX }
    ensures opened { IfOk result (λ input. IsOpened (Some name.now) choice.now packing input) }
    ensures quiet { IfOk result (λ _. stream (S.contents errors.new) (S.failures errors.new) ≡ stream (S.contents errors.old) (S.failures errors.old)) }
    ensures count { IfOk result (λ _. S.failures errors.new ≡ S.failures errors.old) }
    ensures shut { IfErr result (λ status. IsShut name.now choice.now packing
        (stream (S.contents errors.old) (S.failures errors.old)) (stream (S.contents errors.new) (S.failures errors.new)) status) }
{
    match fs::metadata(files, name) {
        Ok(found) if found.is_dir() => {
            match open_folder(alloc, keys, files, name, choice, packing, errors) {
                Ok(folder) => Ok(Input::Folder(folder)),
                Err(status) => Err(status),
            }
        }
        Ok(_) => match open_file(alloc, files, name, choice, errors) {
            Ok(file) => Ok(Input::File(file)),
            Err(status) => Err(status),
        },
        Err(error) => Err(finish_unopened(alloc, errors, name, &error)),
    }
}

/// Opens the file of this name, beside which nothing may be chosen.
fn open_file<F: Files, S: CountedWrite>(
    alloc: Global,
    files: &F,
    name: &str,
    choice: &Choice,
    errors: &mut S,
) -> Result<BundleFile<F::File>, u8>
    requires says { S.failures errors.old < u64.MAX }
    ensures opened { IfOk result (λ file. IsOfFile (Some name.now) choice.now (failures_of file)) }
    ensures quiet { IfOk result (λ _. stream (S.contents errors.new) (S.failures errors.new) ≡ stream (S.contents errors.old) (S.failures errors.old)) }
    ensures count { IfOk result (λ _. S.failures errors.new ≡ S.failures errors.old) }
    ensures shut { IfErr result (λ status. IsNoFile name.now choice.now
        (stream (S.contents errors.old) (S.failures errors.old)) (stream (S.contents errors.new) (S.failures errors.new)) status) }
{
    if let Some(text) = choice.misplaced() {
        say_because(alloc, errors, "error", "error\n", text);
        return Err(BAD_COMMAND);
    }
    match File::open(files, name) {
        Ok(inner) => Ok(BundleFile {
            inner,
            failures: 0,
            why: "",
        }),
        Err(error) => Err(finish_unopened(alloc, errors, name, &error)),
    }
}

/// Says that the file or the folder of this name can't be opened, and gives the status to end with.
fn finish_unopened<S: CountedWrite>(
    alloc: Global,
    errors: &mut S,
    name: &str,
    error: &io::Error,
) -> u8
    requires says { S.failures errors.old < u64.MAX }
    ensures { IsUnopened name.now (stream (S.contents errors.old) (S.failures errors.old)) (stream (S.contents errors.new) (S.failures errors.new)) result }
{
    let ended = Err(open_fault(error));
    finish_file(alloc, errors, ended, name, why_of(error.kind()))
}

/// Why a file or a folder couldn't be opened: the device, or want of memory.
fn open_fault(error: &io::Error) -> TellFault
    ensures { IsOpenFault result }
{
    if error.kind() == ErrorKind::OutOfMemory {
        TellFault::Memory
    } else {
        TellFault::Device
    }
}

/// The text of the bundle of a folder. Where there is none it says why, and gives the status to end with.
#[tactic(auto, unfolding(plain::specs::Limits::most_bundle_bytes))]
fn open_folder<F: Files + AllocGlobal + Clone + Drop, S: CountedWrite>(
    alloc: Global,
    keys: RandomState,
    files: &F,
    name: &str,
    choice: &Choice,
    packing: Packing,
    errors: &mut S,
) -> Result<FolderText, u8>
    requires says { S.failures errors.old < u64.MAX }
    ensures packed { IfOk result (λ folder. IsTextOf choice.now packing folder.text) }
    ensures quiet { IfOk result (λ _. stream (S.contents errors.new) (S.failures errors.new) ≡ stream (S.contents errors.old) (S.failures errors.old)) }
    ensures count { IfOk result (λ _. S.failures errors.new ≡ S.failures errors.old) }
    ensures none { IfErr result (λ status. HasNoBundle (asked_for choice.now packing)
        (stream (S.contents errors.old) (S.failures errors.old)) (stream (S.contents errors.new) (S.failures errors.new)) status) }
{
    let mut notes = Text::from_string(String::new(alloc));
    let options = folder_options(choice, packing);
    match packed_text(alloc, keys, files, name, options, &mut notes) {
        Ok(Some(text)) => {
            let folder = FolderText { text, notes };
            fitting(alloc, errors, name, folder, MOST_BUNDLE_BYTES)
        }
        Ok(None) => Err(finish_pack(alloc, errors, Ok(Status::Refused), notes.as_str())),
        Err(fault) => Err(finish_pack(alloc, errors, Err(fault), notes.as_str())),
    }
}

/// A folder's text, if it is no larger than a bundle may be; the limit is a value and no number that is written out.
fn fitting<S: CountedWrite>(
    alloc: Global,
    errors: &mut S,
    name: &str,
    folder: FolderText,
    most: usize,
) -> Result<FolderText, u8>
    requires limit { most ≡ most_bundle_bytes }
    requires says { S.failures errors.old < u64.MAX }
    ensures short { IfOk result (λ fits. (fits.text ≡ folder.text) × (length fits.text ≤ most_bundle_bytes)) }
    ensures quiet { IfOk result (λ _. stream (S.contents errors.new) (S.failures errors.new) ≡ stream (S.contents errors.old) (S.failures errors.old)) }
    ensures count { IfOk result (λ _. S.failures errors.new ≡ S.failures errors.old) }
    ensures large { IfErr result (λ status. (most_bundle_bytes < length folder.text) × SaysSome (codes "cannot pack")
        (stream (S.contents errors.old) (S.failures errors.old)) (stream (S.contents errors.new) (S.failures errors.new)) × (status ≡ 3)) }
{
    let size = folder.text.len();
    if size <= most {
        return Ok(folder);
    }
    drop(folder);
    say_large(alloc, errors, name, size, most);
    Err(UNPACKED)
}

/// Says that the bundle of a folder is too large, and what helps, if there is memory to say it.
fn say_large<S: CountedWrite>(alloc: Global, errors: &mut S, name: &str, size: usize, most: usize)
    requires says { S.failures errors.old < u64.MAX }
    ensures { SaysSome (codes "cannot pack") (stream (S.contents errors.old) (S.failures errors.old)) (stream (S.contents errors.new) (S.failures errors.new)) }
{
    match too_large(alloc, name, size, most) {
        Ok(why) => say_because(alloc, errors, "cannot pack", "cannot pack\n", why.as_str()),
        Err(AllocError) => say_because(alloc, errors, "cannot pack", "cannot pack\n", ""),
    }
}

/// That the bundle of a folder is too large, and what helps.
fn too_large(alloc: Global, name: &str, size: usize, most: usize) -> Result<String, AllocError> {
    format!(in alloc;
        "{name}: its bundle has {size} bytes, and a bundle has at most {most}: leave files out by a line of .dockerignore"
    )
}

/// How a folder is packed of which this is chosen, so that its bundle is read.
fn folder_options(choice: &Choice, packing: Packing) -> PackOptions<'_>
    ensures { asked_of result ≡ asked_for choice.now packing }
{
    match packing {
        Packing::Kept => options_of(choice, true, false, false),
        Packing::KeptNames => options_of(choice, true, true, true),
        Packing::AllNames => options_of(choice, false, true, true),
    }
}

/// How a folder is packed of which this is chosen.
pub(crate) fn options_of(
    choice: &Choice,
    apply_ignore: bool,
    names: bool,
    pass: bool,
) -> PackOptions<'_>
    ensures { asked_of result ≡ asked_with choice.now apply_ignore names pass }
{
    PackOptions {
        file: text_in(&choice.file),
        images: choice.images.as_slice(),
        target: text_in(&choice.target),
        args: choice.args.as_slice(),
        apply_ignore,
        names,
        pass,
    }
}

/// A text that may be there, lent.
fn text_in(text: &Option<Text>) -> Option<&str>
    ensures { option_map (λ lent. lent.now) result ≡ text.now }
{
    match text {
        Some(text) => Some(text.as_str()),
        None => None,
    }
}

/// Why a file can't be opened or read, in words that follow its name.
fn why_of(kind: ErrorKind) -> &'static str {
    match kind {
        ErrorKind::NotFound => "does not exist",
        ErrorKind::PermissionDenied => "may not be read",
        ErrorKind::IsADirectory => "is a folder",
        ErrorKind::NotADirectory => "lies below what is no folder",
        _ => "cannot be read",
    }
}
