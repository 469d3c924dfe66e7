// What a JSON value spells: an operation, with the addresses of its inputs.

ghost use Rattle.std.specs.Prelude.{◌≡◌, codes};
ghost use Rattle.std.specs.List.{list_all};
ghost use Rattle.std.specs.Option.{option_and_then};
ghost use Rattle.serde_json.specs.View.{view};
ghost use Rattle.serde_json.specs.Find.{get};
ghost use Rattle.strict.specs.Gives.{Gives};
ghost use Rattle.strict.specs.Strict.{short_number_in, list_in};
ghost use Rattle.operations.specs.Spelled.{is_digit, is_address, inputs_in, variable_of, variable_in, sharing_of, source_of, source_in, exec_in, or_null, mode_of, mode_in, owner_of, owner_in, options_in, name_of, content_in, pattern_in, own_file_in, copy_in, mkdir_in, file_op_of, file_op_in, merge_in, op_of, spelled_in};

use crate::lists::{Readable, part_at, parts_at};
use hex::FromHexError;
use llb::{Bind, CopyFiles, Exec, FileSource, Op, Source};
use paths::{Name, Path};
use plain::{Bytes, Fault, Items, Mode, Owner, Sharing, Text, Variable, VariableName, Variables};
use runs::CacheUse;
use serde_json::Value;
use std::alloc::Global;
use strict::{FromJson, NotRead, ReadFault, is_strict, list_at, one_at};
use trees::{Content, CopyOptions};

/// An operation, with the addresses of its inputs.
#[derive(Drop)]
pub struct Spelled {
    pub op: Op,
    pub inputs: Items<Text>,
}

impl Readable for Variable {
    ghost use Rattle.operations.specs.Spelled.{variable_in};

    ghost reading = { variable_in };

    #[tactic(auto, unfolding(crate::specs::Spelled::variable_in))]
    fn read(alloc: Global, value: &Value) -> Result<Variable, ReadFault> {
        let Some(text) = value.as_str() else {
            return Err(Fault::Because(NotRead));
        };
        read_variable(alloc, text)
    }
}

/// A variable, cut at its first `=`.
fn read_variable(alloc: Global, text: &str) -> Result<Variable, ReadFault>
    ensures { Gives result (variable_of text.now) }
{
    match text.split_once('=') {
        Some((name, value)) => {
            let Some(name) = VariableName::new(Text::from_str(alloc, name)?) else {
                return Err(Fault::Because(NotRead));
            };
            let value = Text::from_str(alloc, value)?;
            Ok(Variable { name, value })
        }
        None => Err(Fault::Because(NotRead)),
    }
}

impl Readable for Bind {
    ghost use Rattle.operations.specs.Spelled.{bind_in};

    ghost reading = { bind_in };

    #[tactic(auto, unfolding(crate::specs::Spelled::bind_in))]
    fn read(alloc: Global, value: &Value) -> Result<Bind, ReadFault> {
        if !is_strict(value, &["rw", "source", "target"]) {
            return Err(Fault::Because(NotRead));
        }
        let rw = one_at::<bool>(alloc, value, "rw")?;
        let source = one_at::<Path>(alloc, value, "source")?;
        let target = one_at::<Path>(alloc, value, "target")?;
        Ok(Bind { rw, source, target })
    }
}

impl Readable for Sharing {
    ghost use Rattle.std.specs.Option.{option_and_then};
    ghost use Rattle.serde_json.specs.Find.{as_str};
    ghost use Rattle.operations.specs.Spelled.{sharing_of};

    ghost reading = { λ d. option_and_then sharing_of (as_str d) };

    fn read(_alloc: Global, value: &Value) -> Result<Sharing, ReadFault> {
        let Some(text) = value.as_str() else {
            return Err(Fault::Because(NotRead));
        };
        match sharing_of(text) {
            Some(sharing) => Ok(sharing),
            None => Err(Fault::Because(NotRead)),
        }
    }
}

fn sharing_of(text: &str) -> Option<Sharing>
    ensures { result ≡ sharing_of text.now }
{
    if text == "shared" {
        Some(Sharing::Shared)
    } else if text == "private" {
        Some(Sharing::Private)
    } else if text == "locked" {
        Some(Sharing::Locked)
    } else {
        None
    }
}

impl Readable for CacheUse {
    ghost use Rattle.operations.specs.Spelled.{cache_in};

    ghost reading = { cache_in };

    #[tactic(auto, unfolding(crate::specs::Spelled::cache_in))]
    fn read(alloc: Global, value: &Value) -> Result<CacheUse, ReadFault> {
        if !is_strict(value, &["id", "sharing", "target"]) {
            return Err(Fault::Because(NotRead));
        }
        let id = one_at::<Text>(alloc, value, "id")?;
        let sharing = part_at::<Sharing>(alloc, value, "sharing")?;
        let target = one_at::<Path>(alloc, value, "target")?;
        Ok(CacheUse {
            id,
            sharing,
            target,
        })
    }
}

impl Readable for Source {
    ghost use Rattle.std.specs.Option.{option_and_then};
    ghost use Rattle.serde_json.specs.Find.{as_str};
    ghost use Rattle.operations.specs.Spelled.{source_of};

    ghost reading = { λ d. option_and_then source_of (as_str d) };

    fn read(alloc: Global, value: &Value) -> Result<Source, ReadFault> {
        let Some(text) = value.as_str() else {
            return Err(Fault::Because(NotRead));
        };
        read_source(alloc, text)
    }
}

/// A source by its text.
fn read_source(alloc: Global, text: &str) -> Result<Source, ReadFault>
    ensures { Gives result (source_of text.now) }
{
    if text == "scratch" {
        return Ok(Source::Scratch);
    }
    if text == "context" {
        return Ok(Source::Context);
    }
    match text.strip_prefix("image:") {
        Some(name) => Ok(Source::Image(Text::from_str(alloc, name)?)),
        None => Err(Fault::Because(NotRead)),
    }
}

/// A source operation.
#[tactic(auto, unfolding(crate::specs::Spelled::source_in))]
fn source_in(alloc: Global, value: &Value) -> Result<Source, ReadFault>
    ensures { Gives result (source_in (view value.now)) }
{
    if !is_strict(value, &["inputs", "op", "source"]) {
        return Err(Fault::Because(NotRead));
    }
    part_at::<Source>(alloc, value, "source")
}

/// The variables that stand at a key.
fn variables_at(alloc: Global, value: &Value, key: &str) -> Result<Variables, ReadFault>
    ensures { Gives result (option_and_then (list_in variable_in) (get key.now (view value.now))) }
{
    let rows = parts_at::<Variable>(alloc, value, key)?;
    Ok(Variables::of(alloc, rows.into_vec())?)
}

/// A command.
#[tactic(auto, unfolding(crate::specs::Spelled::exec_in))]
fn exec_in(alloc: Global, value: &Value) -> Result<Exec, ReadFault>
    ensures { Gives result (exec_in (view value.now)) }
{
    let keys = [
        "binds", "caches", "dir", "env", "inputs", "op", "user", "words",
    ];
    if !is_strict(value, &keys) {
        return Err(Fault::Because(NotRead));
    }
    let binds = parts_at::<Bind>(alloc, value, "binds")?;
    let caches = parts_at::<CacheUse>(alloc, value, "caches")?;
    let dir = one_at::<Path>(alloc, value, "dir")?;
    let env = variables_at(alloc, value, "env")?;
    let user = one_at::<Text>(alloc, value, "user")?;
    let words = list_at::<Text>(alloc, value, "words")?;
    Ok(Exec {
        binds,
        caches,
        dir,
        env,
        user,
        words,
    })
}

/// A number that may be `null`, at a key.
fn number_at(alloc: Global, value: &Value, key: &str) -> Result<Option<u32>, ReadFault>
    ensures { Gives result (option_and_then (or_null short_number_in) (get key.now (view value.now))) }
{
    match value.get(key) {
        Some(value) => read_number(alloc, value),
        None => Err(Fault::Because(NotRead)),
    }
}

/// A number that may be `null`.
fn read_number(alloc: Global, value: &Value) -> Result<Option<u32>, ReadFault>
    ensures { Gives result (or_null short_number_in (view value.now)) }
{
    if value.is_null() {
        return Ok(None);
    }
    let number = u32::from_json(alloc, value)?;
    Ok(Some(number))
}

/// The owner of a copy: a user and a group, of which both are there or none is.
#[tactic(auto, unfolding(crate::specs::Spelled::owner_in))]
fn owner_in(alloc: Global, value: &Value) -> Result<Option<Owner>, ReadFault>
    ensures { Gives result (owner_in (view value.now)) }
{
    let user = number_at(alloc, value, "uid")?;
    let group = number_at(alloc, value, "gid")?;
    owner_of(user, group)
}

/// The owner of a user and a group.
fn owner_of(user: Option<u32>, group: Option<u32>) -> Result<Option<Owner>, ReadFault>
    ensures { Gives result (owner_of user group) }
{
    match (user, group) {
        (None, None) => Ok(None),
        (Some(user), Some(group)) => Ok(Some(Owner { user, group })),
        (None, Some(_)) => Err(Fault::Because(NotRead)),
        (Some(_), None) => Err(Fault::Because(NotRead)),
    }
}

/// The mode of a number.
fn mode_of(number: u64) -> Option<Mode>
    ensures { result ≡ mode_of number }
{
    if number < 4096 {
        Mode::new(number as u16)
    } else {
        None
    }
}

/// A mode.
#[tactic(auto, unfolding(crate::specs::Spelled::mode_in))]
fn mode_in(value: &Value) -> Result<Mode, ReadFault>
    ensures { Gives result (mode_in (view value.now)) }
{
    let Some(number) = value.as_u64() else {
        return Err(Fault::Because(NotRead));
    };
    match mode_of(number) {
        Some(mode) => Ok(mode),
        None => Err(Fault::Because(NotRead)),
    }
}

/// A mode that may be `null`, at the key `mode`.
fn mode_at(value: &Value) -> Result<Option<Mode>, ReadFault>
    ensures { Gives result (option_and_then (or_null mode_in) (get (codes "mode") (view value.now))) }
{
    match value.get("mode") {
        Some(value) => read_mode(value),
        None => Err(Fault::Because(NotRead)),
    }
}

/// A mode that may be `null`.
fn read_mode(value: &Value) -> Result<Option<Mode>, ReadFault>
    ensures { Gives result (or_null mode_in (view value.now)) }
{
    if value.is_null() {
        return Ok(None);
    }
    let mode = mode_in(value)?;
    Ok(Some(mode))
}

/// What the flags of a copy and the text of its destination say.
#[tactic(auto, unfolding(crate::specs::Spelled::options_in))]
fn options_in(alloc: Global, value: &Value) -> Result<CopyOptions, ReadFault>
    ensures { Gives result (options_in (view value.now)) }
{
    let into = one_at::<bool>(alloc, value, "dir")?;
    let owner = owner_in(alloc, value)?;
    let mode = mode_at(value)?;
    Ok(CopyOptions { into, owner, mode })
}

impl Readable for Name {
    ghost use Rattle.operations.specs.Spelled.{name_in};

    ghost reading = { name_in };

    #[tactic(auto, unfolding(crate::specs::Spelled::name_in))]
    fn read(alloc: Global, value: &Value) -> Result<Name, ReadFault> {
        let Some(text) = value.as_str() else {
            return Err(Fault::Because(NotRead));
        };
        let text = Text::from_str(alloc, text)?;
        name_of(text)
    }
}

/// The name that a text is.
fn name_of(text: Text) -> Result<Name, ReadFault>
    ensures { Gives result (name_of text) }
{
    match Name::new(text) {
        Some(name) => Ok(name),
        None => Err(Fault::Because(NotRead)),
    }
}

impl Readable for Content {
    ghost use Rattle.operations.specs.Spelled.{content_in};

    ghost reading = { content_in };

    #[tactic(auto, unfolding(crate::specs::Spelled::content_in))]
    fn read(alloc: Global, value: &Value) -> Result<Content, ReadFault> {
        let Some(text) = value.as_str() else {
            return Err(Fault::Because(NotRead));
        };
        match hex::decode(alloc, text) {
            Ok(bytes) => Ok(Content::new(alloc, Bytes::from_vec(bytes))?),
            Err(FromHexError::OutOfMemory) => Err(Fault::Memory),
            Err(_) => Err(Fault::Because(NotRead)),
        }
    }
}

impl Readable for FileSource {
    ghost use Rattle.operations.specs.Spelled.{file_source_in};

    ghost reading = { file_source_in };

    #[tactic(auto, unfolding(crate::specs::Spelled::file_source_in))]
    fn read(alloc: Global, value: &Value) -> Result<FileSource, ReadFault> {
        match value.get("pattern") {
            Some(_) => pattern_in(alloc, value),
            None => own_file_in(alloc, value),
        }
    }
}

/// A pattern.
#[tactic(auto, unfolding(crate::specs::Spelled::pattern_in))]
fn pattern_in(alloc: Global, value: &Value) -> Result<FileSource, ReadFault>
    ensures { Gives result (pattern_in (view value.now)) }
{
    if !is_strict(value, &["pattern"]) {
        return Err(Fault::Because(NotRead));
    }
    let text = one_at::<Text>(alloc, value, "pattern")?;
    Ok(FileSource::Pattern(text))
}

/// A file of a copy's own.
#[tactic(auto, unfolding(crate::specs::Spelled::own_file_in))]
fn own_file_in(alloc: Global, value: &Value) -> Result<FileSource, ReadFault>
    ensures { Gives result (own_file_in (view value.now)) }
{
    if !is_strict(value, &["data", "name"]) {
        return Err(Fault::Because(NotRead));
    }
    let content = part_at::<Content>(alloc, value, "data")?;
    let name = part_at::<Name>(alloc, value, "name")?;
    Ok(FileSource::Data(name, content))
}

/// A copy of files.
#[tactic(auto, unfolding(crate::specs::Spelled::copy_in))]
fn copy_in(alloc: Global, value: &Value) -> Result<CopyFiles, ReadFault>
    ensures { Gives result (copy_in (view value.now)) }
{
    let keys = [
        "action", "dest", "dir", "gid", "inputs", "mode", "op", "sources", "uid",
    ];
    if !is_strict(value, &keys) {
        return Err(Fault::Because(NotRead));
    }
    let sources = parts_at::<FileSource>(alloc, value, "sources")?;
    let dest = one_at::<Path>(alloc, value, "dest")?;
    let options = options_in(alloc, value)?;
    Ok(CopyFiles {
        sources,
        dest,
        options,
    })
}

/// The making of a directory.
#[tactic(auto, unfolding(crate::specs::Spelled::mkdir_in))]
fn mkdir_in(alloc: Global, value: &Value) -> Result<Path, ReadFault>
    ensures { Gives result (mkdir_in (view value.now)) }
{
    if !is_strict(value, &["action", "inputs", "op", "path"]) {
        return Err(Fault::Because(NotRead));
    }
    one_at::<Path>(alloc, value, "path")
}

/// The operation on files of an action that a value is.
fn file_op_of(alloc: Global, action: &str, value: &Value) -> Result<Op, ReadFault>
    ensures { Gives result (file_op_of action.now (view value.now)) }
{
    if action == "copy" {
        return Ok(Op::Copy(copy_in(alloc, value)?));
    }
    if action == "mkdir" {
        return Ok(Op::MakeDirs(mkdir_in(alloc, value)?));
    }
    Err(Fault::Because(NotRead))
}

/// The operation on files that a value is.
#[tactic(auto, unfolding(crate::specs::Spelled::file_op_in))]
fn file_op_in(alloc: Global, value: &Value) -> Result<Op, ReadFault>
    ensures { Gives result (file_op_in (view value.now)) }
{
    let Some(action) = value.get("action").and_then(Value::as_str) else {
        return Err(Fault::Because(NotRead));
    };
    file_op_of(alloc, action, value)
}

/// A merge.
#[tactic(auto, unfolding(crate::specs::Spelled::merge_in))]
fn merge_in(value: &Value) -> Result<Op, ReadFault>
    ensures { Gives result (merge_in (view value.now)) }
{
    if is_strict(value, &["inputs", "op"]) {
        Ok(Op::Merge)
    } else {
        Err(Fault::Because(NotRead))
    }
}

/// The operation of a kind that a value is.
fn op_of(alloc: Global, kind: &str, value: &Value) -> Result<Op, ReadFault>
    ensures { Gives result (op_of kind.now (view value.now)) }
{
    if kind == "source" {
        return Ok(Op::Source(source_in(alloc, value)?));
    }
    if kind == "exec" {
        return Ok(Op::Exec(exec_in(alloc, value)?));
    }
    if kind == "file" {
        return file_op_in(alloc, value);
    }
    if kind == "merge" {
        return merge_in(value);
    }
    Err(Fault::Because(NotRead))
}

/// The addresses of an operation's inputs.
#[tactic(auto, unfolding(crate::specs::Spelled::inputs_in))]
pub fn inputs_in(alloc: Global, value: &Value) -> Result<Items<Text>, ReadFault>
    ensures { Gives result (inputs_in (view value.now)) }
{
    let inputs = list_at::<Text>(alloc, value, "inputs")?;
    if are_addresses(inputs.as_slice()) {
        Ok(inputs)
    } else {
        Err(Fault::Because(NotRead))
    }
}

fn are_addresses(texts: &[Text]) -> bool
    ensures { result ≡ list_all is_address texts.now }
{
    texts.iter().all(|text| is_address(text.as_str()))
}

/// Whether a text is `sha256:` and 64 digits.
#[tactic(auto, unfolding(crate::specs::Spelled::is_address))]
fn is_address(text: &str) -> bool
    ensures { result ≡ is_address text.now }
{
    let bytes = text.as_bytes();
    bytes.len() == 71 && bytes.starts_with(b"sha256:") && are_digits(&bytes[7..])
}

fn are_digits(bytes: &[u8]) -> bool
    ensures { result ≡ list_all is_digit bytes.now }
{
    bytes.iter().all(|b| is_digit(*b))
}

fn is_digit(b: u8) -> bool
    ensures { result ≡ is_digit b }
{
    (48 <= b && b <= 57) || (97 <= b && b <= 102)
}

/// What a value spells.
#[tactic(auto, unfolding(crate::specs::Spelled::spelled_in))]
pub fn read_spelled(alloc: Global, value: &Value) -> Result<Spelled, ReadFault>
    ensures { Gives result (spelled_in (view value.now)) }
{
    let Some(kind) = value.get("op").and_then(Value::as_str) else {
        return Err(Fault::Because(NotRead));
    };
    let op = op_of(alloc, kind, value)?;
    // An operation that isn't handed on is let go by name: the proof would walk all its parts at each end of the function.
    let inputs = match inputs_in(alloc, value) {
        Ok(inputs) => inputs,
        Err(fault) => {
            drop(op);
            return Err(fault);
        }
    };
    let is_well_formed = match op.is_well_formed(alloc, inputs.len()) {
        Ok(is_well_formed) => is_well_formed,
        Err(_) => {
            drop(op);
            return Err(Fault::Memory);
        }
    };
    if is_well_formed {
        Ok(Spelled { op, inputs })
    } else {
        drop(op);
        Err(Fault::Because(NotRead))
    }
}
