ghost use Rattle.std.specs.Prelude.{◌≡◌, IfOk, IsOkAnd, false};
ghost use Rattle.clap.specs.Words.{App, Rule, app_of, new_app, rule_of, with_rule, with_subcommand};
ghost use Rattle.clap.specs.declared.builder.command.Command.TheViews.{out-Command};
ghost use Rattle.command.specs.CommandLine.{argument_option, asking_command, bare_command, build_command, bundle_argument, bundle_command, check_command, config_command, explain_command, flag, folder_argument, graph_command, image_option, llb_choices, llb_command, llb_options, pack_command, pack_to, paths_argument, text_option, whole_command, why_command, with_choice, with_source, workers_option};

use clap::{Arg, ArgAction, Command, value_parser};
use plain::limits::MOST_WORKERS;
use std::alloc::{AllocError, Global};

/// The least number of workers of a build.
pub const LEAST_WORKERS: u8 = 1;

/// The number of workers of a build whose words give none.
const DEFAULT_WORKERS: &str = "4";

/// The argument that names a bundle's file or a folder.
pub const BUNDLE: &str = "FILE";

/// The folder of `pack`, as it is called in help.
pub const FOLDER: &str = "DIR";

/// The options that choose what the bundle of a folder has. Each option has its name as its id.
pub const FILE: &str = "file";

pub const TARGET: &str = "target";

pub const BUILD_ARGUMENT: &str = "build-arg";

pub const IMAGE: &str = "image";

/// The options of `pack`.
pub const OUTPUT: &str = "output";

pub const APPLY_IGNORE: &str = "apply-ignore";

pub const NAMES: &str = "names";

/// The flag of `graph`.
pub const DOT: &str = "dot";

/// The option of `why` that names the bundle's file or a folder.
pub const BUNDLE_FILE: &str = "bundle";

/// A path of `why`, as it is called in help.
pub const PATH: &str = "PATH";

/// The flag of `check` that asks for lines of JSON.
pub const JSON: &str = "json";

/// The options of `llb`.
pub const PLATFORM: &str = "platform";

pub const NETWORK: &str = "network";

pub const UNIQUE: &str = "unique";

pub const MERGE: &str = "merge";

pub const FOLLOW: &str = "follow";

/// The platform of words that name none.
pub const DEFAULT_PLATFORM: &str = "linux/amd64";

/// The network of words that name none.
pub const DEFAULT_NETWORK: &str = "default";

/// What a merge is by words that don't say it.
pub const DEFAULT_MERGE: &str = "native";

/// What stands at the end of each command's help: its statuses and an example.
const BUILD_HELP: &str =
    "Status: 0 if a tree was built, 1 if an instruction failed, 2 if the bundle or the command line is refused, 3 if there was no memory or a device failed.\nExample: dfsolve build .";

const GRAPH_HELP: &str =
    "Status: 0 if the graph was printed, 2 if the bundle or the command line is refused, 3 if there was no memory, a device failed or two addresses are the same.\nExample: dfsolve graph --dot . | dot -Tsvg >graph.svg";

const PACK_HELP: &str =
    "Status: 0 if the folder was packed, 2 if it has no Dockerfile or the command line is refused, 3 if there was no memory, a device failed or the folder can't be packed.\nExample: dfsolve pack . --apply-ignore --output bundle.json";

const WHY_HELP: &str =
    "Status: 0 if the paths were explained, 2 if the bundle or the command line is refused, 3 if there was no memory or a device failed.\nExample: dfsolve why --bundle . src/main.c README.md";

const LLB_HELP: &str =
    "Status: 0 if the definition was written, 2 if the bundle or the command line is refused, 3 if there was no memory, a device failed or two addresses are the same.\nExample: dfsolve llb --unique \"$(date +%s%N)\" . | buildctl build --local context=.";

const CONFIG_HELP: &str =
    "Status: 0 if the configuration was printed, 2 if the bundle or the command line is refused, 3 if there was no memory or a device failed.\nExample: dfsolve config .";

const CHECK_HELP: &str =
    "Status: 0 if there is no fault, 1 if there is one, 2 if the command line is refused, 3 if there was no memory or a device failed.\nExample: dfsolve check .";

const EXPLAIN_HELP: &str =
    "Status: 0 if a tree is built, 1 if an instruction fails, 2 if the bundle or the command line is refused, 3 if there was no memory or a device failed.\nExample: dfsolve explain .";

/// The version of the program, which `--version` prints after its name.
const VERSION: &str = "0.1.0";

/// `dfsolve COMMAND`.
pub fn whole_command<'a>(alloc: Global) -> Result<Command<'a>, AllocError>
    ensures { IfOk result (λ command. app_of command ≡ whole_command) }
{
    let command = with_command(asking_command(alloc), llb_command(alloc));
    let command = with_command(command, config_command(alloc));
    let command = with_command(command, check_command(alloc));
    with_command(command, explain_command(alloc))
}

/// `dfsolve COMMAND` with the commands that have to do with no engine but the program's own.
fn asking_command<'a>(alloc: Global) -> Result<Command<'a>, AllocError>
    ensures { IfOk result (λ command. app_of command ≡ asking_command) }
{
    let command = with_command(bundle_command(alloc), pack_command(alloc));
    with_command(command, why_command(alloc))
}

/// `dfsolve COMMAND` with the commands that read a bundle.
fn bundle_command<'a>(alloc: Global) -> Result<Command<'a>, AllocError>
    ensures { IfOk result (λ command. app_of command ≡ bundle_command) }
{
    let command = with_command(bare_command(alloc), build_command(alloc));
    with_command(command, graph_command(alloc))
}

/// `dfsolve COMMAND` with no command yet.
fn bare_command<'a>(alloc: Global) -> Result<Command<'a>, AllocError>
    ensures { IfOk result (λ command. app_of command ≡ bare_command) }
{
    Command::new(alloc, "dfsolve")
        .version(VERSION)
        .about("Compiles a Dockerfile and solves it")
        .subcommand_required(true)
        .no_binary_name(true)
        .bin_name("dfsolve")
}

/// The command with a subcommand, where both were made.
fn with_command<'a>(
    command: Result<Command<'a>, AllocError>,
    made: Result<Command<'a>, AllocError>,
) -> Result<Command<'a>, AllocError>
    requires local { IfOk made (λ made. (out-Command made).has_globals ≡ false) }
    ensures { (app sub : App) → IfOk command.entry (λ command. app_of command ≡ app) → IfOk made.entry (λ made. app_of made ≡ sub)
        → IfOk result (λ whole. app_of whole ≡ with_subcommand app sub.top) }
{
    match command {
        Ok(command) => with_made(command, made),
        Err(memory) => {
            // It goes by a call, so that no proof goes by its parts.
            drop(made);
            Err(memory)
        }
    }
}

/// The command with a subcommand, where that was made.
fn with_made<'a>(
    command: Command<'a>,
    made: Result<Command<'a>, AllocError>,
) -> Result<Command<'a>, AllocError>
    requires local { IfOk made (λ made. (out-Command made).has_globals ≡ false) }
    ensures { IfOk result (λ whole. IsOkAnd made.entry (λ made. app_of whole ≡ with_subcommand (app_of command.entry) (app_of made).top)) }
{
    match made {
        Ok(made) => command.subcommand(made),
        Err(memory) => {
            // It goes by a call, so that no proof goes by its parts.
            drop(command);
            Err(memory)
        }
    }
}

/// A command of this name with what its help says before and after its arguments, of which it has none yet.
fn described<'a>(alloc: Global, name: &'a str, about: &'a str, after: &'a str) -> Command<'a>
    ensures app { app_of result ≡ new_app name.now }
    ensures local { (out-Command result).has_globals ≡ false }
{
    Command::new(alloc, name).about(about).after_help(after)
}

/// The command with an argument, where it was made.
fn with_argument<'a>(
    command: Result<Command<'a>, AllocError>,
    argument: Arg<'a>,
) -> Result<Command<'a>, AllocError>
    requires local { argument.global ≡ false }
    ensures app { (app : App) (rule : Rule) → IfOk command.entry (λ command. app_of command ≡ app) → rule_of argument.entry ≡ rule
        → IfOk result (λ whole. app_of whole ≡ with_rule app rule) }
    ensures local { IfOk command.entry (λ command. (out-Command command).has_globals ≡ false)
        → IfOk result (λ whole. (out-Command whole).has_globals ≡ false) }
{
    match command {
        Ok(command) => command.arg(argument),
        Err(memory) => {
            // It goes by a call, so that no proof goes by its parts.
            drop(argument);
            Err(memory)
        }
    }
}

/// The command with the options that choose what the bundle of a folder has.
fn with_choice<'a>(
    alloc: Global,
    command: Result<Command<'a>, AllocError>,
) -> Result<Command<'a>, AllocError>
    ensures app { (app : App) → IfOk command.entry (λ command. app_of command ≡ app) → IfOk result (λ whole. app_of whole ≡ with_choice app) }
    ensures local { IfOk command.entry (λ command. (out-Command command).has_globals ≡ false)
        → IfOk result (λ whole. (out-Command whole).has_globals ≡ false) }
{
    let file = text_option(
        alloc,
        FILE,
        "FILE",
        "The Dockerfile of a folder, in place of DIR/Dockerfile",
    );
    let target = text_option(alloc, TARGET, "STAGE", "The stage to build, of a folder");
    let command = with_argument(command, file);
    let command = with_argument(command, target);
    let command = with_argument(command, argument_option(alloc));
    with_argument(command, image_option(alloc))
}

/// The command with what a bundle is taken from: the options of a folder, and `[FILE|DIR]`.
fn with_source<'a>(
    alloc: Global,
    command: Result<Command<'a>, AllocError>,
) -> Result<Command<'a>, AllocError>
    ensures app { (app : App) → IfOk command.entry (λ command. app_of command ≡ app) → IfOk result (λ whole. app_of whole ≡ with_source app) }
    ensures local { IfOk command.entry (λ command. (out-Command command).has_globals ≡ false)
        → IfOk result (λ whole. (out-Command whole).has_globals ≡ false) }
{
    let command = with_choice(alloc, command);
    with_argument(command, bundle_argument(alloc))
}

/// `build [--workers N] [FILE|DIR]` with the options of a folder.
fn build_command<'a>(alloc: Global) -> Result<Command<'a>, AllocError>
    ensures app { IfOk result (λ command. app_of command ≡ build_command) }
    ensures local { IfOk result (λ command. (out-Command command).has_globals ≡ false) }
{
    let about = "Solves a bundle or a folder, and prints the answer";
    let command = described(alloc, "build", about, BUILD_HELP);
    let command = with_argument(Ok(command), workers_option(alloc));
    with_source(alloc, command)
}

/// `graph [--dot] [FILE|DIR]` with the options of a folder.
fn graph_command<'a>(alloc: Global) -> Result<Command<'a>, AllocError>
    ensures app { IfOk result (λ command. app_of command ≡ graph_command) }
    ensures local { IfOk result (λ command. (out-Command command).has_globals ≡ false) }
{
    let about = "Prints the graph of a bundle or a folder, by content addresses";
    let command = described(alloc, "graph", about, GRAPH_HELP);
    let dot = "Print it in the DOT language of Graphviz, with the instructions and their lines";
    let command = with_argument(Ok(command), flag(alloc, DOT, dot));
    with_source(alloc, command)
}

/// `pack DIR [--output FILE] [--apply-ignore] [--names]` with the options of a folder.
fn pack_command<'a>(alloc: Global) -> Result<Command<'a>, AllocError>
    ensures app { IfOk result (λ command. app_of command ≡ pack_command) }
    ensures local { IfOk result (λ command. (out-Command command).has_globals ≡ false) }
{
    let ignore = flag(
        alloc,
        APPLY_IGNORE,
        "Leave out what the ignore file leaves out",
    );
    let names = flag(
        alloc,
        NAMES,
        "Leave out the bytes of files: llb, graph, config, check and why don't need them",
    );
    let command = with_argument(pack_to(alloc), ignore);
    with_argument(command, names)
}

/// `pack DIR [--output FILE]` with the options of a folder.
fn pack_to<'a>(alloc: Global) -> Result<Command<'a>, AllocError>
    ensures app { IfOk result (λ command. app_of command ≡ pack_to) }
    ensures local { IfOk result (λ command. (out-Command command).has_globals ≡ false) }
{
    let command = described(alloc, "pack", "Prints the bundle of a folder", PACK_HELP);
    let command = with_argument(Ok(command), folder_argument(alloc));
    let command = with_choice(alloc, command);
    let output = text_option(alloc, OUTPUT, "FILE", "Write the bundle to this file");
    with_argument(command, output)
}

/// `why [--bundle FILE|DIR] PATH..` with the options of a folder.
fn why_command<'a>(alloc: Global) -> Result<Command<'a>, AllocError>
    ensures app { IfOk result (λ command. app_of command ≡ why_command) }
    ensures local { IfOk result (λ command. (out-Command command).has_globals ≡ false) }
{
    let about = "Tells which paths of the context the ignore file keeps, and by which of its lines";
    let command = described(alloc, "why", about, WHY_HELP);
    let bundle = text_option(
        alloc,
        BUNDLE_FILE,
        "FILE|DIR",
        "The bundle's file, or a folder, in place of standard input",
    );
    let command = with_argument(Ok(command), bundle);
    let command = with_choice(alloc, command);
    with_argument(command, paths_argument(alloc))
}

/// `llb [--platform P] [--network N] --unique TEXT [--merge M] [--follow] [FILE|DIR]` with the options of a folder.
fn llb_command<'a>(alloc: Global) -> Result<Command<'a>, AllocError>
    ensures app { IfOk result (λ command. app_of command ≡ llb_command) }
    ensures local { IfOk result (λ command. (out-Command command).has_globals ≡ false) }
{
    with_source(alloc, llb_choices(alloc))
}

/// `llb [--platform P] [--network N] --unique TEXT [--merge M] [--follow]`.
fn llb_choices<'a>(alloc: Global) -> Result<Command<'a>, AllocError>
    ensures app { IfOk result (λ command. app_of command ≡ llb_choices) }
    ensures local { IfOk result (λ command. (out-Command command).has_globals ≡ false) }
{
    let merge = text_option(
        alloc,
        MERGE,
        "HOW",
        "What a merge of trees is: native, or chain, copies that any BuildKit can make [default: native]",
    );
    let follow = flag(
        alloc,
        FOLLOW,
        "Ask for only the paths of the context that the graph names",
    );
    let command = with_argument(llb_options(alloc), merge);
    with_argument(command, follow)
}

/// `llb [--platform P] [--network N] --unique TEXT`.
fn llb_options<'a>(alloc: Global) -> Result<Command<'a>, AllocError>
    ensures app { IfOk result (λ command. app_of command ≡ llb_options) }
    ensures local { IfOk result (λ command. (out-Command command).has_globals ≡ false) }
{
    let about = "Writes the graph of a bundle or a folder as a definition of BuildKit's LLB";
    let command = described(alloc, "llb", about, LLB_HELP);
    let platform = text_option(
        alloc,
        PLATFORM,
        "OS/ARCH",
        "What images are taken of and commands run on [default: linux/amd64]",
    );
    let network = text_option(
        alloc,
        NETWORK,
        "NAME",
        "The network of all commands: default, none or host [default: default]",
    );
    let unique = text_option(
        alloc,
        UNIQUE,
        "TEXT",
        "A text that no other build with other files has which runs at the same time",
    );
    let command = with_argument(Ok(command), platform);
    let command = with_argument(command, network);
    with_argument(command, unique)
}

/// `config [FILE|DIR]` with the options of a folder.
fn config_command<'a>(alloc: Global) -> Result<Command<'a>, AllocError>
    ensures app { IfOk result (λ command. app_of command ≡ config_command) }
    ensures local { IfOk result (λ command. (out-Command command).has_globals ≡ false) }
{
    let about = "Prints the configuration of the target of a bundle or a folder, without a build";
    let command = described(alloc, "config", about, CONFIG_HELP);
    with_source(alloc, Ok(command))
}

/// `check [--json] [FILE|DIR]` with the options of a folder.
fn check_command<'a>(alloc: Global) -> Result<Command<'a>, AllocError>
    ensures app { IfOk result (λ command. app_of command ≡ check_command) }
    ensures local { IfOk result (λ command. (out-Command command).has_globals ≡ false) }
{
    let about = "Prints all faults of a bundle or a folder, with what helps, and builds nothing";
    let command = described(alloc, "check", about, CHECK_HELP);
    let json = flag(alloc, JSON, "Print each fault as a line of JSON");
    let command = with_argument(Ok(command), json);
    with_source(alloc, command)
}

/// `explain [FILE|DIR]` with the options of a folder.
fn explain_command<'a>(alloc: Global) -> Result<Command<'a>, AllocError>
    ensures app { IfOk result (λ command. app_of command ≡ explain_command) }
    ensures local { IfOk result (λ command. (out-Command command).has_globals ≡ false) }
{
    let about =
        "Builds a bundle or a folder, and prints which instruction fails and why, or all its faults";
    let command = described(alloc, "explain", about, EXPLAIN_HELP);
    with_source(alloc, Ok(command))
}

/// `FILE|DIR`.
fn bundle_argument<'a>(alloc: Global) -> Arg<'a>
    ensures rule { rule_of result ≡ bundle_argument }
    ensures local { result.global ≡ false }
{
    Arg::new(alloc, BUNDLE).value_name("FILE|DIR").help(
        "The bundle's file, or a folder, in place of standard input",
    )
}

/// `DIR`.
fn folder_argument<'a>(alloc: Global) -> Arg<'a>
    ensures rule { rule_of result ≡ folder_argument }
    ensures local { result.global ≡ false }
{
    Arg::new(alloc, FOLDER)
        .help("The folder, with a file Dockerfile in it unless --file names one")
        .required(true)
}

/// `PATH`, once or more.
fn paths_argument<'a>(alloc: Global) -> Arg<'a>
    ensures rule { rule_of result ≡ paths_argument }
    ensures local { result.global ≡ false }
{
    Arg::new(alloc, PATH)
        .help("A path of the context; more may follow")
        .required(true)
        .action(ArgAction::Append)
}

/// An option that takes a text.
fn text_option<'a>(alloc: Global, name: &'a str, value: &'a str, help: &'a str) -> Arg<'a>
    ensures rule { rule_of result ≡ text_option name.now }
    ensures local { result.global ≡ false }
{
    Arg::new(alloc, name)
        .long(name)
        .value_name(value)
        .help(help)
}

/// `--build-arg N=V`, any number of times.
fn argument_option<'a>(alloc: Global) -> Arg<'a>
    ensures rule { rule_of result ≡ argument_option }
    ensures local { result.global ≡ false }
{
    text_option(
        alloc,
        BUILD_ARGUMENT,
        "NAME=VALUE",
        "A build argument; may be given again",
    )
    .action(ArgAction::Append)
}

/// `--image NAME=FILE`, any number of times.
fn image_option<'a>(alloc: Global) -> Arg<'a>
    ensures rule { rule_of result ≡ image_option }
    ensures local { result.global ≡ false }
{
    text_option(
        alloc,
        IMAGE,
        "NAME=FILE",
        "An image and the file that holds it; may be given again",
    )
    .action(ArgAction::Append)
}

/// `--NAME`, a flag.
fn flag<'a>(alloc: Global, name: &'a str, help: &'a str) -> Arg<'a>
    ensures rule { rule_of result ≡ flag name.now }
    ensures local { result.global ≡ false }
{
    Arg::new(alloc, name)
        .long(name)
        .help(help)
        .action(ArgAction::SetTrue)
}

/// `--workers N`.
fn workers_option<'a>(alloc: Global) -> Arg<'a>
    ensures rule { rule_of result ≡ workers_option }
    ensures local { result.global ≡ false }
{
    Arg::new(alloc, "workers")
        .long("workers")
        .value_name("N")
        .help("How many workers solve it")
        .value_parser(value_parser!(u8).range(i64::from(LEAST_WORKERS)..=i64::from(MOST_WORKERS)))
        .default_value(DEFAULT_WORKERS)
}
