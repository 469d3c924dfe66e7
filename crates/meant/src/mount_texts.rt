// What is said of a mount with which something is wrong.
ghost use Rattle.std.specs.Prelude.{◌≡◌, IfOk};
ghost use Rattle.std.specs.Option.{option_copied};
ghost use Rattle.std.specs.String.{string_bytes};
ghost use Rattle.meant.specs.MountTexts.{key_help, unknown_key, no_value, other_type, type_help, unknown_type, wrong_value, untaken, twice, item_message, target_told, clash, flag_message, mount_message};

use crate::mounts::{ItemFault, faulty_item, key_of, target_of, value_of_item, wrong_mount};
use crate::said::{said, said_near, said_texts};
use plain::Memory;
use sentences::Message;
use std::alloc::Global;

/// What helps against a key that Docker has, and that is left out here.
#[tactic(auto, unfolding(crate::specs::MountTexts::key_help))]
fn key_help(key: &str) -> Option<&'static str>
    ensures { option_copied result ≡ key_help key.now }
{
    if key == "src" {
        return Some("write source in place of src");
    }
    if key == "ro" || key == "readonly" {
        return Some("drop it: without rw nothing can be written there");
    }
    if key == "uid" || key == "gid" || key == "mode" {
        return Some("drop it: a cache is root's here, with the mode 755");
    }
    None
}

/// What is said of a key that no mount has.
fn unknown_key(alloc: Global, key: &str) -> Result<Message, Memory>
    ensures { IfOk result (λ message. message ≡ unknown_key key.now) }
{
    let wrong = format!(in alloc; "a mount has no key {key} here")?;
    match key_help(key) {
        Some(helps) => said(alloc, wrong, helps),
        None => said_near(
            alloc,
            wrong,
            key,
            &[
                "type",
                "target",
                "source",
                "from",
                "rw",
                "id",
                "sharing",
                "destination",
            ],
            "a bind takes type, target, source, from and rw, a cache type, target, id and sharing",
        ),
    }
}

/// What is said of a key that needs a value.
fn no_value(alloc: Global, key: &str) -> Result<Message, Memory>
    ensures { IfOk result (λ message. message ≡ no_value key.now) }
{
    let wrong = format!(in alloc; "the key {key} of a mount has no value")?;
    let helps = format!(in alloc; "write {key}= and a value")?;
    Ok(said_texts(wrong, helps))
}

/// What is said of a key that a mount of the other type has.
fn other_type(alloc: Global, cache: bool, key: &str) -> Result<Message, Memory>
    ensures { IfOk result (λ message. message ≡ other_type cache key.now) }
{
    if cache {
        let wrong = format!(in alloc; "a cache has no key {key} here")?;
        said(alloc, wrong, "drop it, or write type=bind")
    } else {
        let wrong = format!(in alloc; "a bind has no key {key}")?;
        said(alloc, wrong, "drop it, or write type=cache")
    }
}

/// What helps against a type that Docker has, and that is left out here.
#[tactic(auto, unfolding(crate::specs::MountTexts::type_help))]
fn type_help(value: &str) -> Option<&'static str>
    ensures { option_copied result ≡ type_help value.now }
{
    if value == "tmpfs" {
        return Some("let the command make a folder, and remove it");
    }
    if value == "secret" {
        return Some("do before the build what needs the secret, and COPY what came of it");
    }
    if value == "ssh" {
        return Some("do before the build what needs the key, and COPY what came of it");
    }
    None
}

/// What is said of a type that no mount has here.
fn unknown_type(alloc: Global, value: &str) -> Result<Message, Memory>
    ensures { IfOk result (λ message. message ≡ unknown_type value.now) }
{
    match type_help(value) {
        Some(helps) => {
            let wrong = format!(in alloc; "mounts of type {value} are left out here on purpose")?;
            said(alloc, wrong, helps)
        }
        None => {
            let wrong = format!(in alloc; "there are no mounts of type {value}")?;
            said_near(
                alloc,
                wrong,
                value,
                &["bind", "cache"],
                "write type=bind or type=cache",
            )
        }
    }
}

/// What is said of a value that its key doesn't take.
fn wrong_value(alloc: Global, key: &str, value: &str) -> Result<Message, Memory>
    ensures { IfOk result (λ message. message ≡ wrong_value key.now value.now) }
{
    if value.is_empty() {
        return no_value(alloc, key);
    }
    let wrong = format!(in alloc; "the key {key} of a mount doesn't take {value}")?;
    untaken(alloc, wrong, key, value)
}

/// What is said of a value that its key doesn't take, after what is wrong.
fn untaken(alloc: Global, wrong: String, key: &str, value: &str) -> Result<Message, Memory>
    ensures { IfOk result (λ message. message ≡ untaken (string_bytes wrong) key.now value.now) }
{
    if key == "sharing" {
        return said_near(
            alloc,
            wrong,
            value,
            &["shared", "private", "locked"],
            "write sharing=shared, sharing=private or sharing=locked",
        );
    }
    said_near(
        alloc,
        wrong,
        value,
        &["true", "false"],
        "write rw=true, or drop it",
    )
}

/// What is said of a key that stands in an item before.
fn twice(alloc: Global, key: &str) -> Result<Message, Memory>
    ensures { IfOk result (λ message. message ≡ twice key.now) }
{
    let wrong = format!(in alloc; "the key {key} stands twice in this mount")?;
    said(
        alloc,
        wrong,
        "write it once: target, dst and destination are one key, and so are rw and readwrite",
    )
}

/// What is said of an item of a cache, else of a bind, with which this is wrong.
fn item_message(alloc: Global, cache: bool, item: &str, fault: ItemFault) -> Result<Message, Memory>
    ensures { IfOk result (λ message. message ≡ item_message cache item.now fault) }
{
    let key = key_of(item);
    match fault {
        ItemFault::UnknownKey => unknown_key(alloc, key),
        ItemFault::NoValue => no_value(alloc, key),
        ItemFault::OtherType => other_type(alloc, cache, key),
        ItemFault::UnknownType => unknown_type(alloc, value_of_item(item)),
        ItemFault::WrongValue => wrong_value(alloc, key, value_of_item(item)),
        ItemFault::Twice => twice(alloc, key),
    }
}

/// What is said of a mount each of whose items is fine, by its target.
fn target_told(alloc: Global, target: Option<&str>) -> Result<Message, Memory>
    ensures { IfOk result (λ message. message ≡ target_told (option_copied target.entry)) }
{
    match target {
        None => {
            let wrong = String::from_str(alloc, "a mount has no target")?;
            said(alloc, wrong, "write target=/path")
        }
        Some(_) => {
            let wrong = String::from_str(alloc, "the target of a mount is /")?;
            said(alloc, wrong, "give it a folder of its own, as target=/path")
        }
    }
}

/// What is said of mounts each of which is one.
fn clash(alloc: Global) -> Result<Message, Memory>
    ensures { IfOk result (λ message. message ≡ clash) }
{
    let wrong = String::from_str(alloc, "a target is /, or two mounts clash")?;
    said(
        alloc,
        wrong,
        "give each mount a target that is neither / nor within another one's, and each cache an id of its own",
    )
}

/// What is said of a flag that is no mount.
#[tactic(auto, unfolding(crate::specs::MountTexts::flag_message))]
fn flag_message(alloc: Global, flag: &str) -> Result<Message, Memory>
    ensures { IfOk result (λ message. message ≡ flag_message flag.now) }
{
    match faulty_item(alloc, flag)? {
        Some(found) => {
            let message = item_message(alloc, found.is_cache, found.item.as_str(), found.fault);
            drop(found);
            message
        }
        None => {
            let target = target_of(alloc, flag)?;
            target_told(alloc, target)
        }
    }
}

/// What is said of the mounts of a RUN of this text.
pub(crate) fn mount_message(alloc: Global, text: &str) -> Result<Message, Memory>
    ensures { IfOk result (λ message. message ≡ mount_message text.now) }
{
    match wrong_mount(alloc, text)? {
        Some(flag) => flag_message(alloc, flag),
        None => clash(alloc),
    }
}
