// What is said of a flag that an instruction doesn't take.
ghost use Rattle.std.specs.Prelude.{◌≡◌, IfOk};
ghost use Rattle.std.specs.Option.{option_copied};
ghost use Rattle.meant.specs.Flags.{copy_help, run_help, is_valued, left_out, unvalued, repeated, valued_flag, takes_link, link_flag, unknown_copy_flag, copy_flag, run_flag};

use crate::mounts::{key_of, value_of_item};
use crate::said::{said, said_near};
use plain::Memory;
use sentences::Message;
use std::alloc::Global;

/// What helps against a flag of COPY that Docker has, and that is left out here.
#[tactic(auto, unfolding(crate::specs::Flags::copy_help))]
fn copy_help(name: &str) -> Option<&'static str>
    ensures { option_copied result ≡ copy_help name.now }
{
    if name == "--parents" {
        return Some("write a COPY for each folder, and the folder in its destination");
    }
    if name == "--exclude" {
        return Some("leave files out by .dockerignore, or copy by name what is needed");
    }
    None
}

/// What helps against a flag of RUN that Docker has, and that is left out here.
#[tactic(auto, unfolding(crate::specs::Flags::run_help))]
fn run_help(name: &str) -> Option<&'static str>
    ensures { option_copied result ≡ run_help name.now }
{
    if name == "--network" {
        return Some("drop it, and give dfsolve llb the network of all commands by --network");
    }
    if name == "--security" || name == "--device" {
        return Some("drop it");
    }
    None
}

/// What is said of a flag that is left out here.
fn left_out(alloc: Global, name: &str, helps: &str) -> Result<Message, Memory>
    ensures { IfOk result (λ message. message ≡ left_out name.now helps.now) }
{
    let wrong = format!(in alloc; "the flag {name} is left out here on purpose")?;
    said(alloc, wrong, helps)
}

/// What is said of a flag that needs a value.
fn unvalued(alloc: Global, name: &str, helps: &str) -> Result<Message, Memory>
    ensures { IfOk result (λ message. message ≡ unvalued name.now helps.now) }
{
    let wrong = format!(in alloc; "the flag {name} has no value")?;
    said(alloc, wrong, helps)
}

/// What is said of a flag that stands on the line before.
fn repeated(alloc: Global, name: &str) -> Result<Message, Memory>
    ensures { IfOk result (λ message. message ≡ repeated name.now) }
{
    let wrong = format!(in alloc; "the flag {name} stands twice")?;
    said(alloc, wrong, "write it once")
}

/// Whether a flag of COPY needs a value.
#[tactic(auto, unfolding(crate::specs::Flags::is_valued))]
fn is_valued(name: &str) -> bool
    ensures { result ≡ is_valued name.now }
{
    name == "--from" || name == "--chown" || name == "--chmod"
}

/// What is said of a flag of COPY that needs a value: it has none, or stands there for the second time.
fn valued_flag(alloc: Global, name: &str, value: &str) -> Result<Message, Memory>
    ensures { IfOk result (λ message. message ≡ valued_flag name.now value.now) }
{
    if value.is_empty() {
        return unvalued(
            alloc,
            name,
            "write --from=name, --chown=1000:1000 or --chmod=644",
        );
    }
    repeated(alloc, name)
}

/// Whether `--link` takes a value; the empty one stands for none.
#[tactic(auto, unfolding(crate::specs::Flags::takes_link))]
fn takes_link(value: &str) -> bool
    ensures { result ≡ takes_link value.now }
{
    value.is_empty() || value == "true" || value == "false"
}

/// What is said of `--link`: it doesn't take this value, or stands there for the second time.
fn link_flag(alloc: Global, value: &str) -> Result<Message, Memory>
    ensures { IfOk result (λ message. message ≡ link_flag value.now) }
{
    if takes_link(value) {
        return repeated(alloc, "--link");
    }
    let wrong = String::from_str(alloc, "the flag --link takes true or false")?;
    said(alloc, wrong, "write --link, or drop it")
}

/// What is said of a flag that COPY doesn't have.
fn unknown_copy_flag(alloc: Global, name: &str) -> Result<Message, Memory>
    ensures { IfOk result (λ message. message ≡ unknown_copy_flag name.now) }
{
    let wrong = format!(in alloc; "COPY has no flag {name}")?;
    said_near(
        alloc,
        wrong,
        name,
        &["--from", "--chown", "--chmod", "--link"],
        "write --from=name, --chown=1000:1000, --chmod=644 or --link, each once at most",
    )
}

/// What is said of a flag that a COPY doesn't take.
#[tactic(auto, unfolding(crate::specs::Flags::copy_flag))]
pub(crate) fn copy_flag(alloc: Global, flag: &str) -> Result<Message, Memory>
    ensures { IfOk result (λ message. message ≡ copy_flag flag.now) }
{
    let name = key_of(flag);
    if is_valued(name) {
        return valued_flag(alloc, name, value_of_item(flag));
    }
    if name == "--link" {
        return link_flag(alloc, value_of_item(flag));
    }
    match copy_help(name) {
        Some(helps) => left_out(alloc, name, helps),
        None => unknown_copy_flag(alloc, name),
    }
}

/// What is said of a flag that a RUN doesn't take.
#[tactic(auto, unfolding(crate::specs::Flags::run_flag))]
pub(crate) fn run_flag(alloc: Global, flag: &str) -> Result<Message, Memory>
    ensures { IfOk result (λ message. message ≡ run_flag flag.now) }
{
    let name = key_of(flag);
    if name == "--mount" {
        return unvalued(alloc, name, "write --mount=type=cache,target=/path");
    }
    match run_help(name) {
        Some(helps) => left_out(alloc, name, helps),
        None => {
            let wrong = format!(in alloc; "RUN has no flag {name}")?;
            said_near(
                alloc,
                wrong,
                name,
                &["--mount"],
                "drop the flag, or write --mount=type=cache,target=/path",
            )
        }
    }
}
