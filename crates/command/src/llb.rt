// What the matches of `llb` ask for.
ghost use Rattle.std.specs.Prelude.{◌≡◌, IfOk, codes, unwrap_or};
ghost use Rattle.clap.specs.Words.{first_of, found_of, rows_of};
ghost use Rattle.command.specs.Llb.{after_slash, are_names, before_slash, ends_platform, llb_of, merge_named, merge_of, network_named, network_of, platform_named, platform_of, unique_named, unique_of};

use crate::commands::{
    BUNDLE, DEFAULT_MERGE, DEFAULT_NETWORK, DEFAULT_PLATFORM, FOLLOW, MERGE, NETWORK, PLATFORM,
    UNIQUE,
};
use crate::reading::{is_set, source_of, text_of};
use crate::{LlbOptions, MergeName, NetworkName, PlatformName};
use clap::ArgMatches;
use plain::Text;
use std::alloc::{AllocError, Global};

/// What the matches of `llb` ask for; `None` where they hold no text of `--unique` or the empty one, no platform, no network, no kind of
/// merge, or nothing that a bundle can be taken from.
pub(crate) fn llb_of(alloc: Global, matches: &ArgMatches) -> Result<Option<LlbOptions>, AllocError>
    ensures { IfOk result (λ options. options ≡ llb_of (rows_of (found_of matches.now))) }
{
    let Some(network) = network_of(matches) else {
        return Ok(None);
    };
    let Some(merging) = merge_of(matches) else {
        return Ok(None);
    };
    let Some(unique) = unique_of(alloc, matches)? else {
        return Ok(None);
    };
    let Some(platform) = platform_of(alloc, matches)? else {
        return Ok(None);
    };
    let Some(source) = source_of(alloc, matches, BUNDLE)? else {
        return Ok(None);
    };
    Ok(Some(LlbOptions {
        source,
        platform,
        network,
        merging,
        follow: is_set(matches, FOLLOW),
        unique,
    }))
}

/// What is wrong with the matches of `llb`, where a bundle can be taken from something and they ask for nothing.
pub(crate) fn wrong_choice(alloc: Global, matches: &ArgMatches) -> Result<String, AllocError> {
    if chosen_text(matches, UNIQUE, "").is_empty() {
        return String::from_str(
            alloc,
            "--unique TEXT has to be given, a text that no other build with other files has which runs at the same time",
        );
    }
    let network = chosen_text(matches, NETWORK, DEFAULT_NETWORK);
    if network_named(network).is_none() {
        return format!(in alloc;
            "a value of --network is default, none or host, and not '{network}'"
        );
    }
    let merge = chosen_text(matches, MERGE, DEFAULT_MERGE);
    if merge_named(merge).is_none() {
        return format!(in alloc; "a value of --merge is native or chain, and not '{merge}'");
    }
    let platform = chosen_text(matches, PLATFORM, DEFAULT_PLATFORM);
    format!(in alloc; "a value of --platform is OS/ARCH or OS/ARCH/VARIANT, and not '{platform}'")
}

/// The text that the matches hold of a build; `None` where they hold none, or the empty one.
fn unique_of(alloc: Global, matches: &ArgMatches) -> Result<Option<Text>, AllocError>
    ensures { IfOk result (λ unique. unique ≡ unique_of (rows_of (found_of matches.now))) }
{
    match text_of(alloc, matches, UNIQUE)? {
        Some(text) => Ok(unique_named(text)),
        None => Ok(None),
    }
}

/// A text that no other build has; `None` of the empty one.
fn unique_named(text: Text) -> Option<Text>
    ensures { result ≡ unique_named text }
{
    if text.len() == 0 {
        return None;
    }
    Some(text)
}

/// The platform that the matches hold, or the usual one; `None` where it is none.
fn platform_of(alloc: Global, matches: &ArgMatches) -> Result<Option<PlatformName>, AllocError>
    ensures { IfOk result (λ platform. platform ≡ platform_of (rows_of (found_of matches.now))) }
{
    platform_named(alloc, chosen_text(matches, PLATFORM, DEFAULT_PLATFORM))
}

/// The network that the matches hold, or the usual one; `None` where it is none.
fn network_of(matches: &ArgMatches) -> Option<NetworkName>
    ensures { result ≡ network_of (rows_of (found_of matches.now)) }
{
    network_named(chosen_text(matches, NETWORK, DEFAULT_NETWORK))
}

/// What a merge is by the matches, or the usual one; `None` where it is no kind of merge.
fn merge_of(matches: &ArgMatches) -> Option<MergeName>
    ensures { result ≡ merge_of (rows_of (found_of matches.now)) }
{
    merge_named(chosen_text(matches, MERGE, DEFAULT_MERGE))
}

/// The text that the matches hold for an id, or another one.
fn chosen_text<'a>(matches: &ArgMatches<'a>, id: &str, otherwise: &'a str) -> &'a str
    ensures { result.now ≡ unwrap_or (first_of id.now (rows_of (found_of matches.now))) otherwise.now }
{
    match matches.get_str(id) {
        Some(text) => text,
        None => otherwise,
    }
}

/// The platform of a text `OS/ARCH` or `OS/ARCH/VARIANT`.
fn platform_named(alloc: Global, text: &str) -> Result<Option<PlatformName>, AllocError>
    ensures { IfOk result (λ platform. platform ≡ platform_named text.now) }
{
    let (os, rest) = cut_at_slash(text);
    let (architecture, variant) = cut_at_slash(rest);
    if !are_names(os, rest, architecture, variant) {
        return Ok(None);
    }
    let os = String::from_str(alloc, os)?;
    let architecture = String::from_str(alloc, architecture)?;
    let variant = String::from_str(alloc, variant)?;
    Ok(Some(PlatformName {
        os: Text::from_string(os),
        architecture: Text::from_string(architecture),
        variant: Text::from_string(variant),
    }))
}

/// Whether these are the names of a platform, where `rest` is what stands after its OS.
fn are_names(os: &str, rest: &str, architecture: &str, variant: &str) -> bool
    ensures { result ≡ are_names os.now rest.now architecture.now variant.now }
{
    !os.is_empty() && !architecture.is_empty() && ends_platform(rest, variant)
}

/// Whether a platform's text ends after its architecture, without a `/`, or after its variant.
fn ends_platform(rest: &str, variant: &str) -> bool
    ensures { result ≡ ends_platform rest.now variant.now }
{
    let last = if variant.is_empty() { rest } else { variant };
    last.split_once('/').is_none()
}

/// A text, cut at its first `/`.
fn cut_at_slash(text: &str) -> (&str, &str)
    ensures before { result.0.now ≡ before_slash text.now }
    ensures after { result.1.now ≡ after_slash text.now }
{
    text.split_once('/').unwrap_or((text, ""))
}

/// The network of a name.
fn network_named(name: &str) -> Option<NetworkName>
    ensures { result ≡ network_named name.now }
{
    if name == "default" {
        return Some(NetworkName::Usual);
    }
    if name == "none" {
        return Some(NetworkName::Absent);
    }
    if name == "host" {
        return Some(NetworkName::Host);
    }
    None
}

/// What a merge is by a name.
fn merge_named(name: &str) -> Option<MergeName>
    ensures { result ≡ merge_named name.now }
{
    if name == "native" {
        return Some(MergeName::Native);
    }
    if name == "chain" {
        return Some(MergeName::Chain);
    }
    None
}
