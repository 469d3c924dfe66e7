// What is said of a stage or an image that there isn't: which name was asked for, which one may have been meant, and which names there are.
ghost use Rattle.std.specs.Prelude.{◌≡◌, ◌++◌, filter, map, option_map, IfOk};
ghost use Rattle.std.specs.Option.{option_copied};
ghost use Rattle.std.specs.String.{string_bytes};
ghost use Rattle.meant.specs.Escapes.{is_whole};
ghost use Rattle.meant.specs.Named.{listed, listed_help, missing_target, target_among, target_message, are_few, packing_help, missing_among, missing_source, astray, source_among, source_message};

use crate::begun::{ended_stages, has_unfinished, lines_until, stages_in};
use crate::escapes::is_whole;
use crate::said::said_near_texts;
use crate::sources::{first_astray, sources_in};
use plain::{Memory, Text};
use sentences::Message;
use std::alloc::Global;

/// The most names that are listed.
const MOST_LISTED: u32 = 16;

/// The most images with which a name on a line is compared.
const MOST_COMPARED_IMAGES: usize = 64;

/// The most lines of a file on which names of stages and images are compared with others.
const MOST_COMPARED_LINES: usize = 512;

/// Those of some names that stand on their lines whole.
fn whole_names<'a>(alloc: Global, names: &[&'a str]) -> Result<Vec<&'a str>, Memory>
    ensures { IfOk result (λ whole. map (λ name. name.now) whole.items ≡ filter is_whole (map (λ name. name.now) names.now)) }
{
    let mut whole = Vec::new(alloc);
    for name in names {
        if is_whole(*name) {
            whole.push(*name)?;
        }
    }
    Ok(whole)
}

/// Names, each with a comma after it.
fn listed(alloc: Global, names: &[&str]) -> Result<String, Memory>
    ensures { IfOk result (λ text. string_bytes text ≡ listed (map (λ name. name.now) names.now)) }
{
    let mut text = String::new(alloc);
    for name in names {
        text.push_str(*name)?;
        text.push_str(", ")?;
    }
    Ok(text)
}

/// What helps against a name that there isn't: the first ones that there are, if there is any, and another way.
fn listed_help(alloc: Global, names: &[&str], other: &str) -> Result<String, Memory>
    ensures { IfOk result (λ text. string_bytes text ≡ listed_help (map (λ name. name.now) names.now) other.now) }
{
    if names.is_empty() {
        return Ok(String::from_str(alloc, other)?);
    }
    let listed = listed(alloc, lines_until(names, MOST_LISTED))?;
    Ok(format!(in alloc; "write {listed}or {other}")?)
}

/// What is said of a target that is none of these stages.
fn missing_target(alloc: Global, names: &[&str], target: &str) -> Result<Message, Memory>
    ensures { IfOk result (λ message. message ≡ missing_target (map (λ name. name.now) names.now) target.now) }
{
    let wrong = format!(in alloc; "there is no stage {target}")?;
    let helps = listed_help(alloc, names, "count the stages from 0")?;
    said_near_texts(alloc, wrong, target, names, helps)
}

/// The same of a file, by the stages of its lines.
fn target_among(alloc: Global, target: &str, lines: &[&str]) -> Result<Message, Memory>
    ensures { IfOk result (λ message. message ≡ target_among target.now (map (λ line. line.now) lines.now)) }
{
    let stages = stages_in(alloc, lines)?;
    let names = whole_names(alloc, stages.as_slice())?;
    missing_target(alloc, names.as_slice(), target)
}

/// What is said of a target that is no stage, by the stages of its file; none if there is no target.
pub(crate) fn target_message(
    alloc: Global,
    target: Option<&Text>,
    lines: &[&str],
) -> Result<Option<Message>, Memory>
    ensures { IfOk result (λ message. message ≡ target_message (option_copied target.entry) (map (λ line. line.now) lines.now)) }
{
    match target {
        Some(target) => Ok(Some(target_among(alloc, target.as_str(), lines)?)),
        None => Ok(None),
    }
}

/// The names of stages and after them those of images.
fn with_images<'a>(stages: Vec<&'a str>, images: &'a [Text]) -> Result<Vec<&'a str>, Memory>
    ensures { IfOk result (λ names. map (λ name. name.now) names.items ≡ map (λ stage. stage.now) stages.entry.items ++ images.now) }
{
    let mut names = stages;
    for image in images {
        names.push(image.as_str())?;
    }
    Ok(names)
}

/// Whether there are so few images and lines that a name on each line may be compared with all others.
fn are_few(images: usize, lines: usize) -> bool
    ensures { result ≡ are_few images lines }
{
    images <= MOST_COMPARED_IMAGES && lines <= MOST_COMPARED_LINES
}

/// What helps against a name that leads to none of these stages and images.
fn packing_help(alloc: Global, names: &[&str], name: &str) -> Result<String, Memory>
    ensures { IfOk result (λ text. string_bytes text ≡ packing_help (map (λ it. it.now) names.now) name.now) }
{
    let other = format!(in alloc; "pack the image by --image {name}=FILE")?;
    listed_help(alloc, names, other.as_str())
}

/// What is said of a name that leads to none of these stages and images, each of which stands on its line whole.
fn missing_among(alloc: Global, name: &str, names: &[&str]) -> Result<Message, Memory>
    ensures { IfOk result (λ message. message ≡ missing_among name.now (map (λ it. it.now) names.now)) }
{
    let wrong = format!(in alloc; "there is no image {name}, and no stage of this name above")?;
    let helps = packing_help(alloc, names, name)?;
    said_near_texts(alloc, wrong, name, names, helps)
}

/// The same of any of these names.
fn missing_source(alloc: Global, name: &str, names: &[&str]) -> Result<Message, Memory>
    ensures { IfOk result (λ message. message ≡ missing_source name.now (map (λ it. it.now) names.now)) }
{
    let names = whole_names(alloc, names)?;
    missing_among(alloc, name, names.as_slice())
}

/// The name that a line asks for and that leads to none of these stages and images: `base`, which it asks for once its variables have their values, if that is
/// known, or the first one that is written so.
fn astray<'a>(
    alloc: Global,
    base: Option<&'a str>,
    stages: &[&str],
    images: &[Text],
    line: &'a str,
) -> Result<Option<&'a str>, Memory>
    ensures { IfOk result (λ name. option_map (λ it. it.now) name ≡ astray (option_copied base.entry) (map (λ stage. stage.now) stages.now) images.now line.now) }
{
    if let Some(name) = base {
        return Ok(Some(name));
    }
    let sources = sources_in(alloc, line)?;
    Ok(first_astray(stages, images, sources.as_slice()))
}

/// The same beside these stages.
fn source_among(
    alloc: Global,
    images: &[Text],
    base: Option<&str>,
    stages: Vec<&str>,
    line: &str,
) -> Result<Option<Message>, Memory>
    ensures { IfOk result (λ message. message ≡ source_among images.now (option_copied base.entry) (map (λ stage. stage.now) stages.entry.items) line.now) }
{
    let Some(name) = astray(alloc, base, stages.as_slice(), images, line)? else {
        return Ok(None);
    };
    let names = with_images(stages, images)?;
    Ok(Some(missing_source(alloc, name, names.as_slice())?))
}

/// What is said of a name on the line of this number of a file that leads to no stage above and to none of these images, if it is known.
#[tactic(auto, unfolding(crate::specs::Named::source_message))]
pub(crate) fn source_message(
    alloc: Global,
    images: &[Text],
    base: Option<&str>,
    lines: &[&str],
    number: u32,
    line: &str,
) -> Result<Option<Message>, Memory>
    ensures { IfOk result (λ message. message ≡ source_message images.now (option_copied base.entry) (map (λ line. line.now) lines.now) number line.now) }
{
    if are_few(images.len(), lines.len())
        && !has_unfinished(lines_until(lines, number.saturating_sub(1)))
    {
        let stages = ended_stages(alloc, lines_until(lines, number))?;
        return source_among(alloc, images, base, stages, line);
    }
    match base {
        Some(name) => Ok(Some(missing_source(alloc, name, &[])?)),
        None => Ok(None),
    }
}
