// The sources of a COPY: each is expanded, and those that can be given are tested even if another can't.
ghost use Rattle.std.specs.Prelude.{◌≡◌, map, IfOk};
ghost use Rattle.std.specs.List.{list_any, filter_map};
ghost use Rattle.globs.specs.Glob.{is_malformed};
ghost use Rattle.llb.specs.WellFormed.{is_pattern};
ghost use Rattle.expand.specs.Expanding.{is_empty, worse, worst};
ghost use Rattle.scopes.specs.Scope.{value_in};
ghost use Rattle.instructions.specs.declared.instruction.Source.TheVariants.{Files, Document};
ghost use Rattle.actions.specs.Copy.{literal_fault, body_fault, pattern_fault};
ghost use Rattle.actions.specs.PrivateTexts.{body_valued, named, name_fault, heredoc_fault, file_of, near, is_pattern_that, IsNearer};

use expand::{Unexpanded, Word, expand_next};
use globs::Glob;
use instructions::{Body, Source};
use llb::FileSource;
use paths::Name;
use plain::limits::MOST_TEXT_BYTES;
use plain::{Bytes, Fault, Items, Memory, Text};
use scopes::Scope;
use std::alloc::Global;
use trees::Content;

/// The sources of a COPY that can be given, and what is against the others.
#[derive(Drop)]
pub(crate) struct NearSources {
    pub(crate) files: Items<FileSource>,
    /// What is against the patterns.
    pub(crate) patterns: Option<Unexpanded>,
    /// What is against the heredocs, whose bodies stand below the line: a body, or a name that is no component of a path.
    pub(crate) documents: Option<Unexpanded>,
}

/// What is against the text of a quoted mark's body.
#[tactic(auto, using(crate::proofs::LimitFacts::short_here, crate::proofs::LimitFacts::long_here))]
fn literal_fault(text: &Text) -> Option<Unexpanded>
    ensures { result ≡ literal_fault text.now }
{
    if text.len() > MOST_TEXT_BYTES {
        return Some(Unexpanded::TooLong);
    }
    None
}

/// The text of a body, if nothing is against it. With it what is against the bodies so far.
fn next_body(
    alloc: Global,
    body: Body,
    scope: &Scope,
    fault: Option<Unexpanded>,
) -> Result<(Option<Text>, Option<Unexpanded>), Memory>
    ensures text { IfOk result (λ found. found.0 ≡ body_valued (value_in scope.now) body) }
    ensures fault { IfOk result (λ found. found.1 ≡ worse fault (body_fault (value_in scope.now) body)) }
{
    match body {
        Body::Expanded(word) => expand_next(alloc, &word, scope, fault),
        Body::Literal(text) => match literal_fault(&text) {
            Some(why) => Ok((None, Some(why.after(fault)))),
            None => Ok((Some(text), fault)),
        },
    }
}

/// The bytes of a text.
fn content_of(alloc: Global, text: Text) -> Result<Content, Memory>
    ensures { IfOk result (λ content. content ≡ text) }
{
    Content::new(
        alloc,
        Bytes::from_vec(text.into_string(alloc)?.into_bytes()),
    )
}

/// The name of a heredoc's file, if the mark's is a component of a path.
fn named(name: Text) -> Option<Name>
    ensures { result ≡ named name }
{
    Name::new(name)
}

/// What is against heredocs, of what is against those so far and the name of one more.
fn next_name(name: &Option<Name>, fault: Option<Unexpanded>) -> Option<Unexpanded>
    ensures { result ≡ worse fault (name_fault name.now) }
{
    match name {
        Some(_) => fault,
        None => Some(Unexpanded::TooLong.after(fault)),
    }
}

/// The file of a heredoc, if it has a name and a text.
fn file_of(
    alloc: Global,
    name: Option<Name>,
    text: Option<Text>,
) -> Result<Option<FileSource>, Memory>
    ensures { IfOk result (λ file. file ≡ file_of name text) }
{
    match (name, text) {
        (Some(name), Some(text)) => Ok(Some(FileSource::Data(name, content_of(alloc, text)?))),
        _ => Ok(None),
    }
}

/// Sources with a pattern of files more.
fn with_files(
    alloc: Global,
    sources: NearSources,
    word: &Word,
    scope: &Scope,
) -> Result<NearSources, Memory>
    ensures { IfOk result (λ more. IsNearer (value_in scope.now) sources (Files word.now) more) }
{
    let NearSources {
        mut files,
        patterns,
        documents,
    } = sources;
    let (text, patterns) = expand_next(alloc, word, scope, patterns)?;
    if let Some(text) = text {
        files.push(FileSource::Pattern(text))?;
    }
    Ok(NearSources {
        files,
        patterns,
        documents,
    })
}

/// Sources with the file that a heredoc gives.
fn with_document(
    alloc: Global,
    sources: NearSources,
    name: Text,
    body: Body,
    scope: &Scope,
) -> Result<NearSources, Memory>
    ensures { IfOk result (λ more. IsNearer (value_in scope.now) sources (Document name body) more) }
{
    let NearSources {
        mut files,
        patterns,
        documents,
    } = sources;
    let name = named(name);
    let documents = next_name(&name, documents);
    let (text, documents) = next_body(alloc, body, scope, documents)?;
    if let Some(file) = file_of(alloc, name, text)? {
        files.push(file)?;
    }
    Ok(NearSources {
        files,
        patterns,
        documents,
    })
}

/// Sources with one more.
fn with_source(
    alloc: Global,
    sources: NearSources,
    source: Source,
    scope: &Scope,
) -> Result<NearSources, Memory>
    ensures { IfOk result (λ more. IsNearer (value_in scope.now) sources source more) }
{
    match source {
        Source::Files(word) => with_files(alloc, sources, &word, scope),
        Source::Document { name, body } => with_document(alloc, sources, name, body, scope),
    }
}

/// The sources with their texts expanded.
pub(crate) fn near_sources(
    alloc: Global,
    sources: Items<Source>,
    scope: &Scope,
) -> Result<NearSources, Memory>
    ensures files { IfOk result (λ found. found.files ≡ filter_map (near (value_in scope.now)) sources) }
    ensures patterns { IfOk result (λ found. found.patterns ≡ worst (map (pattern_fault (value_in scope.now)) sources)) }
    ensures documents { IfOk result (λ found. found.documents ≡ worst (map (heredoc_fault (value_in scope.now)) sources)) }
{
    let mut found = NearSources {
        files: Items::from_vec(Vec::with_capacity(alloc, sources.len())?),
        patterns: None,
        documents: None,
    };
    for source in sources.into_vec() {
        found = with_source(alloc, found, source, scope)?;
    }
    Ok(found)
}

/// Whether a source is an empty pattern.
fn is_empty_source(source: &FileSource) -> bool
    ensures { result ≡ is_pattern_that is_empty source.now }
{
    match source {
        FileSource::Pattern(text) => text.len() == 0,
        FileSource::Data(_, _) => false,
    }
}

/// Whether one of the sources is an empty pattern.
pub(crate) fn has_empty_source(sources: &[FileSource]) -> bool
    ensures { result ≡ list_any (is_pattern_that is_empty) sources.now }
{
    for source in sources {
        if is_empty_source(source) {
            return true;
        }
    }
    false
}

/// Whether a text is a malformed pattern.
fn is_malformed(alloc: Global, text: &str) -> Result<bool, Memory>
    ensures { IfOk result (λ answer. answer ≡ is_malformed text.now) }
{
    match Glob::read(alloc, text) {
        Ok(_) => Ok(false),
        Err(Fault::Because(_)) => Ok(true),
        Err(Fault::Memory) => Err(Memory),
    }
}

/// Whether a source is a malformed pattern.
fn is_bad_source(alloc: Global, source: &FileSource) -> Result<bool, Memory>
    ensures { IfOk result (λ answer. answer ≡ is_pattern_that is_malformed source.now) }
{
    match source {
        FileSource::Pattern(text) => is_malformed(alloc, text.as_str()),
        FileSource::Data(_, _) => Ok(false),
    }
}

/// Whether one of the sources is a malformed pattern.
pub(crate) fn has_bad_source(alloc: Global, sources: &[FileSource]) -> Result<bool, Memory>
    ensures { IfOk result (λ answer. answer ≡ list_any (is_pattern_that is_malformed) sources.now) }
{
    for source in sources {
        if is_bad_source(alloc, source)? {
            return Ok(true);
        }
    }
    Ok(false)
}

/// Whether one of the sources is a pattern.
pub(crate) fn has_pattern(sources: &[FileSource]) -> bool
    ensures { result ≡ list_any is_pattern sources.now }
{
    for source in sources {
        if let FileSource::Pattern(_) = source {
            return true;
        }
    }
    false
}
