ghost use Rattle.std.specs.Prelude.{◌≡◌, ◌||◌, ◌&&◌, Some, nat_lt, IfOk};
ghost use Rattle.std.specs.List.{list_any};
ghost use Rattle.expand.specs.Value.{value};
ghost use Rattle.expand.specs.Expanding.{is_valued, is_empty, worse};
ghost use Rattle.scopes.specs.Scope.{value_in};
ghost use Rattle.instructions.specs.Copy.{last_of};
ghost use Rattle.instructions.specs.Reason.{Evaluates};
ghost use Rattle.paths.specs.Reading.{pieces};
ghost use Rattle.actions.specs.Copy.{ends_in_slash, goes_into, file_sources, lacks_slash, copied, copy_by, copy_action, copy_due, copy_fault};
ghost use Rattle.actions.specs.PrivateTexts.{is_pattern_that, text_code, destination_of, far_fault};

use crate::Surroundings;
use crate::sources::{NearSources, has_bad_source, has_empty_source, has_pattern, near_sources};
use crate::texts::path_within;
use expand::{Reason, ReasonFault, Unexpanded, Word, expand_next};
use instructions::Source;
use llb::{CopyFiles, FileSource};
use options::CopyFlags;
use paths::Path;
use plain::{Code, Fault, Items, Memory, Text};
use rows::{Action, Origin};
use std::alloc::Global;
use trees::CopyOptions;

/// Whether a text ends in `/`.
fn ends_in_slash(text: &str) -> bool
    ensures { result ≡ ends_in_slash text.now }
{
    match text.as_bytes() {
        [] => false,
        [.., last] => *last == b'/',
    }
}

/// What stands after a text's last `/`.
fn last_component(text: &str) -> &str
    ensures { result.now ≡ last_of (pieces text.entry.now) }
{
    text.split('/').last().unwrap_or("")
}

/// Whether a text says of itself that files go into what it names.
fn goes_into(text: &str) -> bool
    ensures { result ≡ goes_into text.now }
{
    let last = last_component(text);
    ends_in_slash(text) || last == "." || last == ".."
}

/// Whether a source or the destination is empty, as far as they are given.
fn has_empty(sources: &[FileSource], text: &Option<Text>) -> bool
    ensures { result ≡ (list_any (is_pattern_that is_empty) sources.now || is_valued is_empty text.now) }
{
    let is_empty = match text {
        Some(text) => text.len() == 0,
        None => false,
    };
    has_empty_source(sources) || is_empty
}

/// Whether there are several sources, and a destination is given that doesn't end in `/`.
fn lacks_folder(sources: usize, text: &Option<Text>) -> bool
    ensures { result ≡ (nat_lt 1 sources && is_valued lacks_slash text.now) }
{
    let lacks_slash = match text {
        Some(text) => !ends_in_slash(text.as_str()),
        None => false,
    };
    sources > 1 && lacks_slash
}

/// The least code that is due for these sources, so many in all, and a destination, apart from limits.
fn text_code(
    alloc: Global,
    files: &[FileSource],
    sources: usize,
    text: &Option<Text>,
) -> Result<Option<Code>, Memory>
    ensures { IfOk result (λ code. code ≡ text_code files.now sources text.now) }
{
    if has_empty(files, text) {
        return Ok(Some(Code::R06));
    }
    if lacks_folder(sources, text) {
        return Ok(Some(Code::R14));
    }
    if has_bad_source(alloc, files)? {
        return Ok(Some(Code::R15));
    }
    Ok(None)
}

/// Where the text of a destination leads to, and whether files go into it because the text says so; none if there is no text, or the path
/// is past the limits. With it what is against the line so far.
fn near_destination(
    alloc: Global,
    text: Option<Text>,
    dir: &Path,
    fault: Option<Unexpanded>,
) -> Result<(Option<(Path, bool)>, Option<Unexpanded>), Memory>
    ensures reached { IfOk result (λ found. found.0 ≡ destination_of dir.now text) }
    ensures fault { IfOk result (λ found. found.1 ≡ worse fault (far_fault dir.now text)) }
{
    let Some(text) = text else {
        return Ok((None, fault));
    };
    match path_within(alloc, text.as_str(), dir)? {
        Some(path) => Ok((Some((path, goes_into(text.as_str()))), fault)),
        None => Ok((None, Some(Unexpanded::TooLong.after(fault)))),
    }
}

/// What is against the texts of a line, if this is against some of them and that against those after them.
fn joined(earlier: Option<Unexpanded>, later: Option<Unexpanded>) -> Option<Unexpanded>
    ensures { result ≡ worse earlier later }
{
    match later {
        Some(why) => Some(why.after(earlier)),
        None => earlier,
    }
}

/// The copy of the sources to the destination, or why the line is refused.
fn copied_files(
    alloc: Global,
    sources: Items<Source>,
    destination: &Word,
    flags: &CopyFlags,
    at: &Surroundings,
) -> Result<CopyFiles, ReasonFault>
    ensures { Evaluates (Some (copied at.now.dir.now (file_sources (value_in at.now.scope.now) sources) (value (value_in at.now.scope.now) destination.now) flags.now)) (copy_due at.now.scope.now at.now.dir.now sources destination.now) (copy_fault at.now.scope.now sources destination.now) result }
{
    let count = sources.len();
    let NearSources {
        files,
        patterns,
        documents,
    } = near_sources(alloc, sources, at.scope)?;
    let (text, fault) = expand_next(alloc, destination, at.scope, patterns)?;
    if let Some(code) = text_code(alloc, files.as_slice(), count, &text)? {
        return Err(Fault::Because(Reason::Coded(code)));
    }
    let (reached, fault) = near_destination(alloc, text, at.dir, joined(fault, documents))?;
    if let Some(why) = fault {
        return Err(Fault::Because(Reason::of(why)));
    }
    let (dest, into) = reached.unwrap();
    let options = CopyOptions {
        into,
        owner: flags.owner,
        mode: flags.mode,
    };
    Ok(CopyFiles {
        sources: files,
        dest,
        options,
    })
}

/// The COPY of files, whose patterns are looked for in the tree of the origin, where there is one.
fn copy_by(files: CopyFiles, flags: CopyFlags, origin: Origin) -> Action
    ensures { result ≡ copy_by files flags origin }
{
    let from = if has_pattern(files.sources.as_slice()) {
        Some(origin)
    } else {
        None
    };
    Action::Copy {
        files,
        from,
        linked: flags.is_linked,
    }
}

/// What a COPY does. Its patterns are looked for in the tree of `origin`, which is dropped where no source is a pattern.
///
/// The sources, the destination and the bodies of bare marks are expanded, and the destination is read against the working directory
/// (Dockerfile reference, COPY). Files go into the destination where its text ends in `/`, or its last component is `.` or `..` (own).
///
/// The least of these codes is reported. R06: a pattern or the destination is empty. R14: there are several sources, patterns and heredocs
/// counted, and the destination's text doesn't end in `/` (Dockerfile reference). R15: a pattern is malformed. R18: a text is too long, the
/// name of a heredoc is no component of a path, or the destination is past the limits of a path (own). R21 if none of these is due, and a
/// variable that is required doesn't pass its test; of several such texts the first gives the text, patterns and destination before bodies
/// (own). A text that has no value gets no other test (own). What was lent is unchanged.
pub fn copy_action(
    alloc: Global,
    sources: Items<Source>,
    destination: Word,
    flags: CopyFlags,
    origin: Origin,
    at: &Surroundings,
) -> Result<Action, ReasonFault>
    ensures { Evaluates (Some (copy_action at.now.scope.now at.now.dir.now sources destination flags origin)) (copy_due at.now.scope.now at.now.dir.now sources destination) (copy_fault at.now.scope.now sources destination) result }
{
    let files = copied_files(alloc, sources, &destination, &flags, at)?;
    Ok(copy_by(files, flags, origin))
}
