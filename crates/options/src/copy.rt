ghost use Rattle.std.specs.Prelude.{◌≡◌, option_map, codes, IfOk};
ghost use Rattle.std.specs.List.{list_all, list_any};
ghost use Rattle.options.specs.Copy.{takes_link, has_text, is_copy_flag, are_copy_flags, has_from, value_of, links_by, is_linked, read_if, copy_flags};
ghost use Rattle.options.specs.Lists.{has_twice};
ghost use Rattle.options.specs.Numbers.{owner_of, mode_of};
ghost use Rattle.options.specs.Value.{is_named};

use crate::numbers::{mode_of, owner_of};
use crate::value::{is_filled, is_truth};
use plain::{Exact, Memory, Mode, Owner, Text};
use std::alloc::Global;
use words::Flag;

/// What a COPY's flags say (Dockerfile reference, COPY).
#[derive(Debug, Drop)]
pub struct CopyFlags {
    /// The stage or the image that `--from` names, which isn't empty in flags of a COPY; the context where there is none.
    pub from: Option<Text>,
    /// The owner that `--chown` gives.
    pub owner: Option<Owner>,
    /// The mode that `--chmod` gives.
    pub mode: Option<Mode>,
    /// Whether `--link` or `--link=true` is there.
    pub is_linked: bool,
}

impl Exact for CopyFlags {
    fn same(&self, other: &CopyFlags) -> bool {
        self.from.same(&other.from)
            && self.owner.same(&other.owner)
            && self.mode.same(&other.mode)
            && self.is_linked == other.is_linked
    }

    fn copy(&self, alloc: Global) -> Result<CopyFlags, Memory> {
        let from = self.from.copy(alloc)?;
        let owner = self.owner.copy(alloc)?;
        let mode = self.mode.copy(alloc)?;
        Ok(CopyFlags {
            from,
            owner,
            mode,
            is_linked: self.is_linked,
        })
    }
}

/// Whether a flag has a name.
fn is_named(name: &str, flag: &Flag) -> bool
    ensures { result ≡ is_named name.now flag.now }
{
    flag.name.as_str() == name
}

/// Whether one of the flags has a name.
fn have_name(name: &str, flags: &[Flag]) -> bool
    ensures { result ≡ list_any (is_named name.now) flags.now }
{
    for flag in flags {
        if is_named(name, flag) {
            return true;
        }
    }
    false
}

/// Whether two flags have the same name.
fn has_twice(flags: &[Flag]) -> bool
    ensures { result ≡ has_twice (λ f. is_named f.name) flags.now }
{
    let mut rest = flags;
    while let [first, others @ ..] = rest {
        if have_name(first.name.as_str(), others) {
            return true;
        }
        rest = others;
    }
    false
}

/// Whether `--link` takes this value.
fn takes_link(value: &Option<Text>) -> bool
    ensures { result ≡ takes_link value.now }
{
    match value {
        Some(value) => is_truth(value.as_str()),
        None => true,
    }
}

/// Whether a flag is one whose value is a text.
fn has_text(flag: &Flag) -> bool
    ensures { result ≡ has_text flag.now }
{
    is_named("from", flag) || is_named("chown", flag) || is_named("chmod", flag)
}

/// Whether COPY knows a flag, and the flag takes its value.
fn is_copy_flag(flag: &Flag) -> bool
    ensures { result ≡ is_copy_flag flag.now }
{
    if is_named("link", flag) {
        return takes_link(&flag.value);
    }
    has_text(flag) && is_filled(&flag.value)
}

/// Whether each flag is one that COPY knows, and takes its value.
fn are_known(flags: &[Flag]) -> bool
    ensures { result ≡ list_all is_copy_flag flags.now }
{
    for flag in flags {
        if !is_copy_flag(flag) {
            return false;
        }
    }
    true
}

/// Whether these are flags of a COPY: `--from=..`, `--chown=..` and `--chmod=..` with a value that isn't empty, and `--link`,
/// `--link=true` or `--link=false`, each at most once (Dockerfile reference, COPY; that other flags and a repeated one aren't
/// allowed: own).
///
/// A COPY whose flags aren't is refused with R07. Whether a value is an owner or a mode isn't looked at here.
#[tactic(auto, unfolding(crate::specs::Copy::are_copy_flags))]
pub fn are_copy_flags(flags: &[Flag]) -> bool
    ensures { result ≡ are_copy_flags flags.now }
{
    // Known flags have four names, so no more than four of them are looked for among the others.
    are_known(flags) && !has_twice(flags)
}

/// Whether `--from` is there, with which all sources are taken from a stage or an image (Dockerfile reference, COPY).
///
/// A COPY that has it and heredocs too is refused with R08 (own).
#[tactic(auto, unfolding(crate::specs::Copy::has_from))]
pub fn has_from(flags: &[Flag]) -> bool
    ensures { result ≡ has_from flags.now }
{
    have_name("from", flags)
}

/// The value of the first flag that has a name.
fn value_of<'a>(name: &str, flags: &'a [Flag]) -> Option<&'a Text>
    ensures { option_map (λ value. value.now) result ≡ value_of name.now flags.entry.now }
{
    for flag in flags {
        if is_named(name, flag) {
            return match &flag.value {
                Some(value) => Some(value),
                None => None,
            };
        }
    }
    None
}

/// The owner that flags give, if they give one; nothing where the value of `--chown` is no owner.
fn read_owner(flags: &[Flag]) -> Option<Option<Owner>>
    ensures { result ≡ read_if owner_of (value_of (codes "chown") flags.now) }
{
    match value_of("chown", flags) {
        Some(value) => match owner_of(value.as_str()) {
            Some(owner) => Some(Some(owner)),
            None => None,
        },
        None => Some(None),
    }
}

/// The mode that flags give, if they give one; nothing where the value of `--chmod` is no mode.
fn read_mode(flags: &[Flag]) -> Option<Option<Mode>>
    ensures { result ≡ read_if mode_of (value_of (codes "chmod") flags.now) }
{
    match value_of("chmod", flags) {
        Some(value) => match mode_of(value.as_str()) {
            Some(mode) => Some(Some(mode)),
            None => None,
        },
        None => Some(None),
    }
}

/// The stage or image that flags name.
fn copy_from(alloc: Global, flags: &[Flag]) -> Result<Option<Text>, Memory>
    ensures { IfOk result (λ from. from ≡ value_of (codes "from") flags.now) }
{
    match value_of("from", flags) {
        Some(value) => Ok(Some(value.copy(alloc)?)),
        None => Ok(None),
    }
}

/// Whether a flag `--link` with this value links.
fn links_by(value: &Option<Text>) -> bool
    ensures { result ≡ links_by value.now }
{
    match value {
        Some(value) => value.as_str() == "true",
        None => true,
    }
}

/// Whether flags say that the copy is linked.
fn is_linked(flags: &[Flag]) -> bool
    ensures { result ≡ is_linked flags.now }
{
    for flag in flags {
        if is_named("link", flag) && links_by(&flag.value) {
            return true;
        }
    }
    false
}

/// What a COPY's flags say; none where the value of `--chown` is no owner or that of `--chmod` no mode, and such a COPY is
/// refused with R16.
///
/// An owner is `user:group`, or `user` alone for the group of that number too, in decimal digits, each at most 4,294,967,295;
/// a mode is three or four octal digits (Dockerfile reference, `COPY --chown` and `--chmod`; that names and symbolic modes
/// aren't allowed: own). That these are flags of a COPY isn't looked at here: `are_copy_flags` tells it, and other flags say
/// nothing.
#[tactic(auto, unfolding(crate::specs::Copy::copy_flags))]
pub fn copy_flags(alloc: Global, flags: &[Flag]) -> Result<Option<CopyFlags>, Memory>
    ensures { IfOk result (λ said. said ≡ copy_flags flags.now) }
{
    let (Some(owner), Some(mode)) = (read_owner(flags), read_mode(flags)) else {
        return Ok(None);
    };
    let from = copy_from(alloc, flags)?;
    Ok(Some(CopyFlags {
        from,
        owner,
        mode,
        is_linked: is_linked(flags),
    }))
}
