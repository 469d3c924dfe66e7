ghost use Rattle.std.specs.Prelude.{◌≡◌, [], ◌∷◌, ℕ, IfOk, IfSome, IfNone, codes, map, option_map};
ghost use Rattle.std.specs.List.{list_all};
ghost use Rattle.clap.specs.Walk.{all_of};
ghost use Rattle.clap.specs.Words.{FailsBy, HasKind, first_of, found_of, rows_of, subcommand_of, subcommand_rows_of};
ghost use Rattle.clap.specs.declared.error.kind.ErrorKind.TheVariants.{ValueValidation};
ghost use Rattle.command.specs.CommandLine.{whole_command};
ghost use Rattle.command.specs.Flags.{is_set};
ghost use Rattle.command.specs.PrivateTasks.{IsAnswer};
ghost use Rattle.command.specs.Sources.{choice_of, halves_of, has_equals, pairs_of, source_of, source_with};
ghost use Rattle.command.specs.Tasks.{IsTaskOf, IsWorkers, faults_of, pack_of, paths_of};
ghost use Rattle.command.specs.declared.task.Task.{Task};

use crate::commands::{
    APPLY_IGNORE, BUILD_ARGUMENT, BUNDLE, BUNDLE_FILE, DOT, FILE, FOLDER, IMAGE, JSON,
    LEAST_WORKERS, NAMES, OUTPUT, PATH, TARGET, whole_command,
};
use crate::llb::{llb_of, wrong_choice};
use crate::{
    BuildOptions, CheckOptions, Choice, GraphOptions, PackOptions, Source, Task, WhyOptions,
};
use clap::error::ErrorKind;
use clap::{ArgMatches, Error};
use plain::limits::MOST_WORKERS;
use plain::{Items, Text};
use std::alloc::{AllocError, Global};

/// The task that the words ask for: those after the program's name, which `env::args` gives first.
///
/// Every command but `pack` takes a bundle from a file or a folder that a word FILE names, or with `why` `--bundle FILE`, or from standard input where
/// there is none. It has `--file F` and `--target T` once at most, and `--build-arg N=V` and `--image NAME=FILE` any number of times, each of which
/// has a `=`. These choose of a folder, so none of them stands beside standard input.
/// `build` has `--workers N` or `--workers=N` once at most; N is decimal digits, of which a `+` may stand in front, and its value is 1 to 64; the
/// default is 4. `graph` has `--dot` and `check` has `--json`, each once at most. `why` has a word PATH once or more.
/// `llb` has `--unique TEXT` just once, and `--platform P`, `--network N`, `--merge M` and `--follow` once at most; TEXT isn't empty; P is `OS/ARCH` or
/// `OS/ARCH/VARIANT`, and `linux/amd64` by default; N is `default`, `none` or `host`, and M is `native` or `chain`, and the first of these by default.
/// `pack` has a word DIR, the options that choose of a folder, and `--output FILE`, `--apply-ignore` and `--names` once at most.
/// `help` alone or before the name of a command, `--help` and `-h`, before a command or after it, ask for help, and `--version` or `-V`
/// before it for the program's name and version.
///
/// An error is clap's, and its kind tells what it is: help or the version that was asked for, which are no faults; a fault of the words;
/// or want of memory. The text that it prints is clap's, except of a build argument or an image without a `=`, of what is chosen beside standard
/// input, and of the options of `llb`, of which it says what is wrong.
pub fn read_command<'a>(alloc: Global, words: &'a [&'a str]) -> Result<Task, Error>
    ensures task { IfOk result
        (IsTaskOf (subcommand_of whole_command (map (λ word. word.now) words.entry.now))) }
    // An answer comes only where there is no fault in the words, and an error is such a fault or memory.
    ensures faults { FailsBy (faults_of (map (λ word. word.now) words.entry.now)) result }
{
    let command = whole_command(alloc)?;
    match command.try_get_matches_from(words) {
        Ok(matches) => {
            let task = asked_task(alloc, &matches);
            drop(matches);
            task
        }
        Err(error) => Err(error),
    }
}

/// The task that a parse asks for, or a refusal.
fn asked_task(alloc: Global, matches: &ArgMatches) -> Result<Task, Error>
    ensures task { IfOk result (IsTaskOf (subcommand_rows_of matches.now)) }
    // An error is want of memory or, of matches that ask for no task, a fault of the words.
    ensures memory { (task : Task) → IsTaskOf (subcommand_rows_of matches.now) task → FailsBy [] result }
    ensures none { ((task : Task) → ¬ IsTaskOf (subcommand_rows_of matches.now) task) → FailsBy (ValueValidation ∷ []) result }
{
    match task_of(alloc, matches)? {
        Some(task) => Ok(task),
        None => refuse_arguments(alloc, matches),
    }
}

/// Refuses matches that ask for no task.
fn refuse_arguments(alloc: Global, matches: &ArgMatches) -> Result<Task, Error>
    ensures { FailsBy (ValueValidation ∷ []) result }
{
    let text = wrong_argument(alloc, matches)?;
    Err(refusal(alloc, text.as_str())?)
}

/// An error that says this of the words.
fn refusal(alloc: Global, text: &str) -> Result<Error, AllocError>
    ensures { IfOk result (HasKind (ValueValidation ∷ [])) }
{
    let mut command = whole_command(alloc)?;
    let error = command.error(ErrorKind::ValueValidation, text);
    drop(command);
    error
}

/// What is said of matches that ask for no task.
fn wrong_argument(alloc: Global, matches: &ArgMatches) -> Result<String, AllocError> {
    let Some((name, found)) = matches.subcommand() else {
        return String::from_str(alloc, "");
    };
    if let Some(text) = bare_text(found, BUILD_ARGUMENT) {
        return format!(in alloc; "a value of --build-arg is NAME=VALUE, and '{text}' has no '='");
    }
    if let Some(text) = bare_text(found, IMAGE) {
        return format!(in alloc; "a value of --image is NAME=FILE, and '{text}' has no '='");
    }
    match misplaced_choice(alloc, name, found)? {
        Some(text) => String::from_str(alloc, text),
        None => wrong_choice(alloc, found),
    }
}

/// What is wrong with what is chosen beside a bundle on standard input.
fn misplaced_choice(
    alloc: Global,
    name: &str,
    matches: &ArgMatches,
) -> Result<Option<&'static str>, AllocError> {
    let place = if name == "why" { BUNDLE_FILE } else { BUNDLE };
    if matches.get_str(place).is_some() {
        return Ok(None);
    }
    match choice_of(alloc, matches)? {
        Some(choice) => {
            let text = choice.misplaced();
            drop(choice);
            Ok(text)
        }
        None => Ok(None),
    }
}

/// The first text of an option that has no `=`.
fn bare_text<'m, 'a>(matches: &'m ArgMatches<'a>, id: &str) -> Option<&'a str> {
    if let Some(texts) = texts_of(matches, id) {
        for text in texts {
            if text.split_once('=').is_none() {
                return Some(*text);
            }
        }
    }
    None
}

/// The task that a parse found.
fn task_of(alloc: Global, matches: &ArgMatches) -> Result<Option<Task>, AllocError>
    ensures some { IfOk result (λ found. IfSome found (IsTaskOf (subcommand_rows_of matches.now))) }
    ensures none { IfOk result (λ found. IfNone found ((task : Task) → ¬ IsTaskOf (subcommand_rows_of matches.now) task)) }
{
    match matches.subcommand() {
        Some((name, found)) => named_task(alloc, name, found),
        None => Ok(None),
    }
}

/// The task of a subcommand of this name that has these matches.
fn named_task(alloc: Global, name: &str, matches: &ArgMatches) -> Result<Option<Task>, AllocError>
    ensures { IfOk result (IsAnswer (name.now, rows_of (found_of matches.now))) }
{
    match name {
        "build" => build_task(alloc, matches),
        "graph" => graph_task(alloc, matches),
        "pack" => pack_task(alloc, matches),
        "why" => why_task(alloc, matches),
        "llb" => llb_task(alloc, matches),
        "config" => config_task(alloc, matches),
        "check" => check_task(alloc, matches),
        "explain" => explain_task(alloc, matches),
        _ => Ok(None),
    }
}

/// What the matches of `build` ask for; `None` where they hold no number of workers, or nothing that a bundle can be taken from.
fn build_task(alloc: Global, matches: &ArgMatches) -> Result<Option<Task>, AllocError>
    ensures { IfOk result (IsAnswer (codes "build", rows_of (found_of matches.now))) }
{
    let Some(workers) = workers_of(matches) else {
        return Ok(None);
    };
    let Some(source) = source_of(alloc, matches, BUNDLE)? else {
        return Ok(None);
    };
    Ok(Some(Task::Build(BuildOptions { workers, source })))
}

/// What the matches of `graph` ask for; `None` where they hold nothing that a bundle can be taken from.
fn graph_task(alloc: Global, matches: &ArgMatches) -> Result<Option<Task>, AllocError>
    ensures { IfOk result (IsAnswer (codes "graph", rows_of (found_of matches.now))) }
{
    let Some(source) = source_of(alloc, matches, BUNDLE)? else {
        return Ok(None);
    };
    Ok(Some(Task::Graph(GraphOptions {
        source,
        dot: is_set(matches, DOT),
    })))
}

/// What the matches of `pack` ask for; `None` where they hold no folder, or a build argument or an image without a `=`.
fn pack_task(alloc: Global, matches: &ArgMatches) -> Result<Option<Task>, AllocError>
    ensures { IfOk result (IsAnswer (codes "pack", rows_of (found_of matches.now))) }
{
    match pack_of(alloc, matches)? {
        Some(options) => Ok(Some(Task::Pack(options))),
        None => Ok(None),
    }
}

/// What the matches of `why` ask for; `None` where they hold nothing that a bundle can be taken from.
fn why_task(alloc: Global, matches: &ArgMatches) -> Result<Option<Task>, AllocError>
    ensures { IfOk result (IsAnswer (codes "why", rows_of (found_of matches.now))) }
{
    let Some(source) = source_of(alloc, matches, BUNDLE_FILE)? else {
        return Ok(None);
    };
    let paths = paths_of(alloc, matches)?;
    Ok(Some(Task::Why(WhyOptions { source, paths })))
}

/// What the matches of `llb` ask for; `None` where they lack what `llb` needs.
fn llb_task(alloc: Global, matches: &ArgMatches) -> Result<Option<Task>, AllocError>
    ensures { IfOk result (IsAnswer (codes "llb", rows_of (found_of matches.now))) }
{
    match llb_of(alloc, matches)? {
        Some(options) => Ok(Some(Task::Llb(options))),
        None => Ok(None),
    }
}

/// What the matches of `config` ask for; `None` where they hold nothing that a bundle can be taken from.
fn config_task(alloc: Global, matches: &ArgMatches) -> Result<Option<Task>, AllocError>
    ensures { IfOk result (IsAnswer (codes "config", rows_of (found_of matches.now))) }
{
    match source_of(alloc, matches, BUNDLE)? {
        Some(source) => Ok(Some(Task::Config(source))),
        None => Ok(None),
    }
}

/// What the matches of `check` ask for; `None` where they hold nothing that a bundle can be taken from.
fn check_task(alloc: Global, matches: &ArgMatches) -> Result<Option<Task>, AllocError>
    ensures { IfOk result (IsAnswer (codes "check", rows_of (found_of matches.now))) }
{
    let Some(source) = source_of(alloc, matches, BUNDLE)? else {
        return Ok(None);
    };
    Ok(Some(Task::Check(CheckOptions {
        source,
        json: is_set(matches, JSON),
    })))
}

/// What the matches of `explain` ask for; `None` where they hold nothing that a bundle can be taken from.
fn explain_task(alloc: Global, matches: &ArgMatches) -> Result<Option<Task>, AllocError>
    ensures { IfOk result (IsAnswer (codes "explain", rows_of (found_of matches.now))) }
{
    match source_of(alloc, matches, BUNDLE)? {
        Some(source) => Ok(Some(Task::Explain(source))),
        None => Ok(None),
    }
}

/// The options of `pack` by its matches; `None` where they hold no folder, or a build argument or an image without a `=`.
fn pack_of(alloc: Global, matches: &ArgMatches) -> Result<Option<PackOptions>, AllocError>
    ensures { IfOk result (λ options. options ≡ pack_of (rows_of (found_of matches.now))) }
{
    let Some(folder) = text_of(alloc, matches, FOLDER)? else {
        return Ok(None);
    };
    let Some(choice) = choice_of(alloc, matches)? else {
        return Ok(None);
    };
    Ok(Some(PackOptions {
        folder,
        choice,
        output: text_of(alloc, matches, OUTPUT)?,
        apply_ignore: is_set(matches, APPLY_IGNORE),
        names: is_set(matches, NAMES),
    }))
}

/// What a bundle is taken from by the matches, where this argument names its file or a folder; `None` where a build argument or an image has no
/// `=`, and where something is chosen beside standard input.
pub(crate) fn source_of(
    alloc: Global,
    matches: &ArgMatches,
    id: &str,
) -> Result<Option<Source>, AllocError>
    ensures { IfOk result (λ source. source ≡ source_of id.now (rows_of (found_of matches.now))) }
{
    let place = text_of(alloc, matches, id)?;
    match choice_of(alloc, matches)? {
        Some(choice) => Ok(source_with(place, choice)),
        None => Ok(None),
    }
}

/// A bundle of this file or folder, or on standard input, of which nothing may be chosen.
fn source_with(place: Option<Text>, choice: Choice) -> Option<Source>
    ensures { result ≡ source_with place choice }
{
    if place.is_some() || !choice.misplaced().is_some() {
        return Some(Source { place, choice });
    }
    None
}

/// What is chosen of a folder by the matches; `None` where a build argument or an image has no `=`.
fn choice_of(alloc: Global, matches: &ArgMatches) -> Result<Option<Choice>, AllocError>
    ensures { IfOk result (λ choice. choice ≡ choice_of (rows_of (found_of matches.now))) }
{
    let Some(args) = pairs_of(alloc, matches, BUILD_ARGUMENT)? else {
        return Ok(None);
    };
    let Some(images) = pairs_of(alloc, matches, IMAGE)? else {
        return Ok(None);
    };
    Ok(Some(Choice {
        file: text_of(alloc, matches, FILE)?,
        target: text_of(alloc, matches, TARGET)?,
        args,
        images,
    }))
}

/// The text that the matches hold for an id.
pub(crate) fn text_of(
    alloc: Global,
    matches: &ArgMatches,
    id: &str,
) -> Result<Option<Text>, AllocError>
    ensures { IfOk result (λ text. text ≡ first_of id.now (rows_of (found_of matches.now))) }
{
    match matches.get_str(id) {
        Some(text) => Ok(Some(Text::from_string(String::from_str(alloc, text)?))),
        None => Ok(None),
    }
}

/// Whether the matches hold a flag of this id that is given.
pub(crate) fn is_set(matches: &ArgMatches, id: &str) -> bool
    ensures { result ≡ is_set id.now (rows_of (found_of matches.now)) }
{
    match matches.get_str(id) {
        Some(text) => text == "true",
        None => false,
    }
}

/// The texts that the matches hold for an id.
fn texts_of<'m, 'a>(matches: &'m ArgMatches<'a>, id: &str) -> Option<&'m [&'a str]>
    ensures { option_map (λ texts. map (λ text. text.now) texts.now) result ≡ all_of id.now (rows_of (found_of matches.now)) }
{
    matches.get_raw(id)
}

/// The paths that the matches of `why` hold.
fn paths_of(alloc: Global, matches: &ArgMatches) -> Result<Items<Text>, AllocError>
    ensures { IfOk result (λ paths. paths ≡ paths_of (rows_of (found_of matches.now))) }
{
    match texts_of(matches, PATH) {
        Some(texts) => copy_texts(alloc, texts),
        None => Ok(Items::new(alloc)),
    }
}

/// A copy of each text.
fn copy_texts(alloc: Global, texts: &[&str]) -> Result<Items<Text>, AllocError>
    ensures { IfOk result (λ copies. copies ≡ map (λ text. text.now) texts.now) }
{
    let mut copies = Vec::new(alloc);
    for text in texts {
        copies.push(Text::from_string(String::from_str(alloc, text)?))?;
    }
    Ok(Items::from_vec(copies))
}

/// The texts `N=V` that the matches hold for an id, each cut in its halves; `None` where one of them has no `=`.
fn pairs_of(
    alloc: Global,
    matches: &ArgMatches,
    id: &str,
) -> Result<Option<Items<(Text, Text)>>, AllocError>
    ensures { IfOk result (λ pairs. pairs ≡ pairs_of id.now (rows_of (found_of matches.now))) }
{
    let Some(texts) = texts_of(matches, id) else {
        return Ok(Some(Items::new(alloc)));
    };
    if !have_equals(texts) {
        return Ok(None);
    }
    Ok(Some(cut_texts(alloc, texts)?))
}

/// Whether each text has a `=`.
fn have_equals(texts: &[&str]) -> bool
    ensures { result ≡ list_all (λ text. has_equals text.now) texts.now }
{
    for text in texts {
        if text.split_once('=').is_none() {
            return false;
        }
    }
    true
}

/// Texts, each cut at its first `=`.
fn cut_texts(alloc: Global, texts: &[&str]) -> Result<Items<(Text, Text)>, AllocError>
    ensures { IfOk result (λ pairs. pairs ≡ map (λ text. halves_of text.now) texts.now) }
{
    let mut pairs = Vec::new(alloc);
    for text in texts {
        pairs.push(cut_text(alloc, text)?)?;
    }
    Ok(Items::from_vec(pairs))
}

/// A text, cut at its first `=`.
fn cut_text(alloc: Global, text: &str) -> Result<(Text, Text), AllocError>
    ensures { IfOk result (λ pair. pair ≡ halves_of text.now) }
{
    let (first, second) = text.split_once('=').unwrap_or((text, ""));
    let first = String::from_str(alloc, first)?;
    let second = String::from_str(alloc, second)?;
    Ok((Text::from_string(first), Text::from_string(second)))
}

/// The number of workers that the matches of `build` hold.
fn workers_of(matches: &ArgMatches) -> Option<u8>
    ensures some { IfSome result (IsWorkers (rows_of (found_of matches.now))) }
    ensures none { IfNone result ((workers : ℕ)
        → ¬ IsWorkers (rows_of (found_of matches.now)) workers) }
{
    let workers = matches.get_one::<u8>("workers")?;
    if workers < LEAST_WORKERS || MOST_WORKERS < workers {
        return None;
    }
    Some(workers)
}
