// `commands`: command lines, whose words are cut at each space, and after `=>` what those after the program's name ask for, or the kind of fault.
// After ` | ` stands a part of what is told of the fault.

use crate::reading::after_name;
use clap::Error;
use command::{
    BuildOptions, CheckOptions, Choice, GraphOptions, LlbOptions, MergeName, NetworkName,
    PackOptions, Source, Task, WhyOptions, read_command,
};
use plain::{Memory, Text};
use std::alloc::Global;

pub fn answer(alloc: Global, case: &str) -> Result<String, Memory> {
    let answer = answer_to_case(alloc, case)?;
    Ok(format!(in alloc; "{case} => {answer}")?)
}

fn answer_to_case(alloc: Global, case: &str) -> Result<String, Memory> {
    let (line, part) = case.split_once(" | ").unwrap_or((case, ""));
    let words: Vec<&str> = line.split(' ').collect(alloc)?;
    match read_command(alloc, after_name(words.as_slice())) {
        Ok(task) => task_text(alloc, task),
        Err(error) => error_text(alloc, error, part),
    }
}

fn task_text(alloc: Global, task: Task) -> Result<String, Memory> {
    match task {
        Task::Build(options) => {
            let told = build_text(alloc, &options);
            drop(options);
            told
        }
        Task::Graph(options) => {
            let told = graph_text(alloc, &options);
            drop(options);
            told
        }
        Task::Pack(options) => {
            let told = pack_text(alloc, &options);
            drop(options);
            told
        }
        Task::Why(options) => {
            let told = why_text(alloc, &options);
            drop(options);
            told
        }
        Task::Llb(options) => {
            let told = llb_text(alloc, &options);
            drop(options);
            told
        }
        Task::Config(source) => {
            let told = config_text(alloc, &source);
            drop(source);
            told
        }
        Task::Check(options) => {
            let told = check_text(alloc, &options);
            drop(options);
            told
        }
        Task::Explain(source) => {
            let told = explain_text(alloc, &source);
            drop(source);
            told
        }
    }
}

/// What `build` is asked for: its workers, and after them what the bundle is taken from.
fn build_text(alloc: Global, options: &BuildOptions) -> Result<String, Memory> {
    let mut told = format!(in alloc; "build with {}", options.workers)?;
    add_source(alloc, &mut told, "of", &options.source)?;
    Ok(told)
}

/// What `graph` is asked for: whether it is for Graphviz, and after that what the bundle is taken from.
fn graph_text(alloc: Global, options: &GraphOptions) -> Result<String, Memory> {
    let mut told = String::from_str(
        alloc,
        if options.dot {
            "graph for dot"
        } else {
            "graph"
        },
    )?;
    add_source(alloc, &mut told, "of", &options.source)?;
    Ok(told)
}

/// What `pack` is asked for: its folder, and after it each option that is given.
fn pack_text(alloc: Global, options: &PackOptions) -> Result<String, Memory> {
    let mut told = format!(in alloc; "pack of [{}]", options.folder.as_str())?;
    add_choice(alloc, &mut told, &options.choice)?;
    add_text(alloc, &mut told, "output", &options.output)?;
    if options.apply_ignore {
        told.push_str(" without what is ignored")?;
    }
    if options.names {
        told.push_str(" by names alone")?;
    }
    Ok(told)
}

/// What `why` is asked for: its paths, and after them what the bundle is taken from.
fn why_text(alloc: Global, options: &WhyOptions) -> Result<String, Memory> {
    let mut told = String::from_str(alloc, "why")?;
    for path in options.paths.as_slice() {
        told.push_str(format!(in alloc; " [{}]", path.as_str())?.as_str())?;
    }
    add_source(alloc, &mut told, "bundle", &options.source)?;
    Ok(told)
}

/// What `llb` is asked for: the three names of its platform, its network, the text that no other build has, and after them whether a merge is
/// copies, whether only what is named is asked for, and what the bundle is taken from.
fn llb_text(alloc: Global, options: &LlbOptions) -> Result<String, Memory> {
    let os = options.platform.os.as_str();
    let architecture = options.platform.architecture.as_str();
    let variant = options.platform.variant.as_str();
    let network = network_text(options.network);
    let unique = options.unique.as_str();
    let mut told = format!(in alloc;
        "llb for [{os}] [{architecture}] [{variant}] with {network} unique [{unique}]"
    )?;
    match options.merging {
        MergeName::Native => {}
        MergeName::Chain => told.push_str(" in chains")?,
    }
    if options.follow {
        told.push_str(" following")?;
    }
    add_source(alloc, &mut told, "of", &options.source)?;
    Ok(told)
}

fn network_text(network: NetworkName) -> &'static str {
    match network {
        NetworkName::Usual => "Usual",
        NetworkName::Absent => "Absent",
        NetworkName::Host => "Host",
    }
}

/// What `config` is asked for.
fn config_text(alloc: Global, source: &Source) -> Result<String, Memory> {
    let mut told = String::from_str(alloc, "config")?;
    add_source(alloc, &mut told, "of", source)?;
    Ok(told)
}

/// What `explain` is asked for.
fn explain_text(alloc: Global, source: &Source) -> Result<String, Memory> {
    let mut told = String::from_str(alloc, "explain")?;
    add_source(alloc, &mut told, "of", source)?;
    Ok(told)
}

/// What `check` is asked for: what the bundle is taken from, and whether lines of JSON are.
fn check_text(alloc: Global, options: &CheckOptions) -> Result<String, Memory> {
    let mut told = String::from_str(alloc, "check")?;
    add_source(alloc, &mut told, "of", &options.source)?;
    if options.json {
        told.push_str(" as JSON")?;
    }
    Ok(told)
}

/// What a bundle is taken from: its file or a folder, if one is named, and what is chosen of a folder.
fn add_source(alloc: Global, told: &mut String, name: &str, source: &Source) -> Result<(), Memory> {
    add_text(alloc, told, name, &source.place)?;
    add_choice(alloc, told, &source.choice)
}

/// What is chosen of a folder: a build argument as its name and its value, and an image as its name and its file.
fn add_choice(alloc: Global, told: &mut String, choice: &Choice) -> Result<(), Memory> {
    add_text(alloc, told, "file", &choice.file)?;
    add_text(alloc, told, "target", &choice.target)?;
    for (name, value) in choice.args.as_slice() {
        let (name, value) = (name.as_str(), value.as_str());
        told.push_str(format!(in alloc; " arg [{name}] [{value}]")?.as_str())?;
    }
    for (name, file) in choice.images.as_slice() {
        let (name, file) = (name.as_str(), file.as_str());
        told.push_str(format!(in alloc; " image [{name}] [{file}]")?.as_str())?;
    }
    Ok(())
}

fn add_text(
    alloc: Global,
    told: &mut String,
    name: &str,
    text: &Option<Text>,
) -> Result<(), Memory> {
    if let Some(text) = text {
        told.push_str(format!(in alloc; " {name} [{}]", text.as_str())?.as_str())?;
    }
    Ok(())
}

/// The kind of a fault, and whether this part isn't told of it.
fn error_text(alloc: Global, error: Error, part: &str) -> Result<String, Memory> {
    let kind = error.kind();
    let told = error.to_string(alloc);
    drop(error);
    if told?.as_str().contains(part) {
        Ok(format!(in alloc; "{kind:?}")?)
    } else {
        Ok(format!(in alloc; "{kind:?}, of which it isn't told")?)
    }
}
