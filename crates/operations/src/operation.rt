// An operation as JSON.

ghost use Rattle.std.specs.Prelude.{◌≡◌, IfOk};
ghost use Rattle.std.specs.String.{string_bytes};
ghost use Rattle.serde_json.specs.Data.{string};
ghost use Rattle.serde_json.specs.View.{view};
ghost use Rattle.llb.specs.declared.op.FileSource.TheVariants.{Pattern, Data as OwnFile};
ghost use Rattle.hex.specs.Hex.{IsBytes, encode_lower};
ghost use Rattle.paths.specs.Path.{IsClean};
ghost use Rattle.operations.specs.Proper.{IsProperVariable, IsProperBind, IsProperCache, IsProperExec, IsProperFileSource, IsProperOwner, IsProperMode, IsProperCopy, IsProper};
ghost use Rattle.operations.specs.Texts.{variable_data, sharing_text, bind_data, cache_data, number_data, uid_data, gid_data, file_source_data, source_text, source_data, exec_data, copy_data, mkdir_data, merge_data, op_data};

use crate::lists::Writable;
use crate::members::{with, with_parts, with_path, with_text, with_texts};
use llb::{Bind, CopyFiles, Exec, FileSource, Op, Source};
use paths::{Name, Path};
use plain::{Memory, Mode, Owner, Sharing, Text, Variable};
use runs::CacheUse;
use serde_json::{Map, Value};
use std::alloc::Global;
use trees::Content;

impl Writable for Variable {
    ghost written = { variable_data };

    ghost proper = { IsProperVariable };

    fn write(&self, alloc: Global) -> Result<Value, Memory> {
        let mut text = String::from_str(alloc, self.name.as_str())?;
        text.push('=')?;
        text.push_str(self.value.as_str())?;
        Ok(Value::String(text))
    }
}

impl Writable for Bind {
    ghost written = { bind_data };

    ghost proper = { IsProperBind };

    fn write(&self, alloc: Global) -> Result<Value, Memory> {
        let members = with(alloc, Map::new(alloc), "rw", Value::Bool(self.rw))?;
        let members = with_path(alloc, members, "source", &self.source)?;
        let members = with_path(alloc, members, "target", &self.target)?;
        Ok(Value::Object(members))
    }
}

impl Writable for CacheUse {
    ghost written = { cache_data };

    ghost proper = { IsProperCache };

    fn write(&self, alloc: Global) -> Result<Value, Memory> {
        let members = with_text(alloc, Map::new(alloc), "id", self.id.as_str())?;
        let members = with_text(alloc, members, "sharing", sharing_text(self.sharing))?;
        let members = with_path(alloc, members, "target", &self.target)?;
        Ok(Value::Object(members))
    }
}

/// How a cache is shared, as a text.
fn sharing_text(sharing: Sharing) -> &'static str
    ensures { result.now ≡ sharing_text sharing }
{
    match sharing {
        Sharing::Shared => "shared",
        Sharing::Private => "private",
        Sharing::Locked => "locked",
    }
}

impl Writable for FileSource {
    ghost written = { file_source_data };

    ghost proper = { IsProperFileSource };

    fn write(&self, alloc: Global) -> Result<Value, Memory> {
        match self {
            FileSource::Pattern(text) => pattern_value(alloc, text),
            FileSource::Data(name, content) => own_file_value(alloc, name, content),
        }
    }
}

/// A pattern.
fn pattern_value(alloc: Global, text: &Text) -> Result<Value, Memory>
    ensures { IfOk result (λ v. view v ≡ file_source_data (Pattern text.now)) }
{
    let members = with_text(alloc, Map::new(alloc), "pattern", text.as_str())?;
    Ok(Value::Object(members))
}

/// Bytes in hexadecimal.
fn bytes_to_json(alloc: Global, bytes: &[u8]) -> Result<Value, Memory>
    ensures data { IfOk result (λ v. view v ≡ string (encode_lower bytes.now)) }
    ensures bytes { IsBytes bytes.now }
{
    Ok(Value::String(hex::encode(alloc, bytes)?))
}

/// A file of a copy's own, with its bytes in hexadecimal.
fn own_file_value(alloc: Global, name: &Name, content: &Content) -> Result<Value, Memory>
    ensures data { IfOk result (λ v. view v ≡ file_source_data (OwnFile name.now content.now)) }
    ensures proper { IfOk result (λ _. IsProperFileSource (OwnFile name.now content.now)) }
{
    let bytes = bytes_to_json(alloc, content.as_slice())?;
    let members = with(alloc, Map::new(alloc), "data", bytes)?;
    let members = with_text(alloc, members, "name", name.as_text().as_str())?;
    Ok(Value::Object(members))
}

/// A source as a text.
fn source_text(alloc: Global, source: &Source) -> Result<String, Memory>
    ensures { IfOk result (λ text. string_bytes text ≡ source_text source.now) }
{
    match source {
        Source::Scratch => Ok(String::from_str(alloc, "scratch")?),
        Source::Context => Ok(String::from_str(alloc, "context")?),
        Source::Image(name) => {
            let mut text = String::from_str(alloc, "image:")?;
            text.push_str(name.as_str())?;
            Ok(text)
        }
    }
}

/// A source operation.
#[tactic(auto, unfolding(crate::specs::Texts::source_data))]
fn source_value(alloc: Global, source: &Source, inputs: &[Text]) -> Result<Value, Memory>
    ensures { IfOk result (λ v. view v ≡ source_data inputs.now source.now) }
{
    let source = source_text(alloc, source)?;
    let members = with_texts(alloc, Map::new(alloc), "inputs", inputs)?;
    let members = with_text(alloc, members, "op", "source")?;
    let members = with(alloc, members, "source", Value::String(source))?;
    Ok(Value::Object(members))
}

/// A command.
#[tactic(auto, unfolding(crate::specs::Texts::exec_data))]
fn exec_value(alloc: Global, exec: &Exec, inputs: &[Text]) -> Result<Value, Memory>
    ensures data { IfOk result (λ v. view v ≡ exec_data inputs.now exec.now) }
    ensures proper { IfOk result (λ _. IsProperExec exec.now) }
{
    let members = with_parts(alloc, Map::new(alloc), "binds", exec.binds.as_slice())?;
    let members = with_parts(alloc, members, "caches", exec.caches.as_slice())?;
    let members = with_path(alloc, members, "dir", &exec.dir)?;
    let members = with_parts(alloc, members, "env", exec.env.as_slice())?;
    let members = with_texts(alloc, members, "inputs", inputs)?;
    let members = with_text(alloc, members, "op", "exec")?;
    let members = with_text(alloc, members, "user", exec.user.as_str())?;
    let members = with_texts(alloc, members, "words", exec.words.as_slice())?;
    Ok(Value::Object(members))
}

/// The mode of a copy, if it has one.
fn mode_value(mode: Option<Mode>) -> Value
    ensures data { view result ≡ number_data mode }
    ensures proper { IsProperMode mode }
{
    match mode {
        Some(mode) => Value::from(u64::from(mode.bits())),
        None => Value::Null,
    }
}

/// The user of a copy, if it has one.
fn uid_value(owner: Option<Owner>) -> Value
    ensures data { view result ≡ uid_data owner }
    ensures proper { IsProperOwner owner }
{
    match owner {
        Some(owner) => Value::from(u64::from(owner.user)),
        None => Value::Null,
    }
}

/// The group of a copy, if it has one.
fn gid_value(owner: Option<Owner>) -> Value
    ensures { view result ≡ gid_data owner }
{
    match owner {
        Some(owner) => Value::from(u64::from(owner.group)),
        None => Value::Null,
    }
}

/// A copy of files.
#[tactic(auto, unfolding(crate::specs::Texts::copy_data))]
fn copy_value(alloc: Global, files: &CopyFiles, inputs: &[Text]) -> Result<Value, Memory>
    ensures data { IfOk result (λ v. view v ≡ copy_data inputs.now files.now) }
    ensures proper { IfOk result (λ _. IsProperCopy files.now) }
{
    let members = with_text(alloc, Map::new(alloc), "action", "copy")?;
    let members = with_path(alloc, members, "dest", &files.dest)?;
    let members = with(alloc, members, "dir", Value::Bool(files.options.into))?;
    let members = with(alloc, members, "gid", gid_value(files.options.owner))?;
    let members = with_texts(alloc, members, "inputs", inputs)?;
    let members = with(alloc, members, "mode", mode_value(files.options.mode))?;
    let members = with_text(alloc, members, "op", "file")?;
    let members = with_parts(alloc, members, "sources", files.sources.as_slice())?;
    let members = with(alloc, members, "uid", uid_value(files.options.owner))?;
    Ok(Value::Object(members))
}

/// The making of a directory.
#[tactic(auto, unfolding(crate::specs::Texts::mkdir_data))]
fn mkdir_value(alloc: Global, path: &Path, inputs: &[Text]) -> Result<Value, Memory>
    ensures data { IfOk result (λ v. view v ≡ mkdir_data inputs.now path.now) }
    ensures clean { IfOk result (λ _. IsClean path.now) }
{
    let members = with_text(alloc, Map::new(alloc), "action", "mkdir")?;
    let members = with_texts(alloc, members, "inputs", inputs)?;
    let members = with_text(alloc, members, "op", "file")?;
    let members = with_path(alloc, members, "path", path)?;
    Ok(Value::Object(members))
}

/// A merge.
#[tactic(auto, unfolding(crate::specs::Texts::merge_data))]
fn merge_value(alloc: Global, inputs: &[Text]) -> Result<Value, Memory>
    ensures { IfOk result (λ v. view v ≡ merge_data inputs.now) }
{
    let members = with_texts(alloc, Map::new(alloc), "inputs", inputs)?;
    let members = with_text(alloc, members, "op", "merge")?;
    Ok(Value::Object(members))
}

/// An operation as JSON, its inputs being named by these addresses.
pub fn op_value(alloc: Global, op: &Op, inputs: &[Text]) -> Result<Value, Memory>
    ensures data { IfOk result (λ v. view v ≡ op_data inputs.now op.now) }
    ensures proper { IfOk result (λ _. IsProper op.now) }
{
    match op {
        Op::Source(source) => source_value(alloc, source, inputs),
        Op::Exec(exec) => exec_value(alloc, exec, inputs),
        Op::Copy(files) => copy_value(alloc, files, inputs),
        Op::MakeDirs(path) => mkdir_value(alloc, path, inputs),
        Op::Merge => merge_value(alloc, inputs),
    }
}
