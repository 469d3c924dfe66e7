// `llb`: a name of what BuildKit is told: an operation of its LLB, a definition, what a vertex of a graph is, the definition of a plan, a merge as an
// operation of files, or the context of which a graph names parts. The answer is the name and the bytes as hexadecimal digits.
//
// The answers were made by another program: `protoc --deterministic_output --encode=pb.Op ops.proto` of Debian's protobuf-compiler 3.21.12 in the
// folder `protoc` of this crate, from the texts there, in their order (`definition` is a `pb.Definition`); `xxd -p` made the digits. `plans.sh` there
// made the definitions of plans, with digests by `sha256sum` and what is said of each operation as the `.ops` files have it. So a field's number or
// type that isn't that of `ops.proto`, a default that is written, an empty message that isn't, or a map out of order, shows here. Whether `ops.proto`
// is BuildKit's own schema doesn't.

mod commands;
mod files;
mod vertices;
mod whole;

use llbmessages::{
    Constraints, Definition, Input, MergeInput, MergeOp, Op, OpKind, OpMetadata, Platform, SourceOp,
};
use plain::{Bytes, Fault, Items, Memory, Text};
use std::alloc::Global;
use std::hash::RandomState;
use wire::{Map, Unordered};

/// A row: an operation on its inputs, or a definition.
#[derive(Clone, Copy)]
enum Row {
    Image,
    Context,
    MakeDir,
    Copy,
    CopyTwice,
    Heredoc,
    Command,
    SharedCache,
    Merge,
    End,
    Definition,
    VertexImage,
    VertexMakeDir,
    VertexCopy,
    Plan,
    EmptyPlan,
    VertexContext,
    ChainOfTwo,
    ChainOfThree,
    FollowedContext,
}

impl Row {
    /// The digests of the inputs.
    fn inputs(self) -> &'static [&'static str] {
        match self {
            Row::MakeDir | Row::SharedCache => &[A],
            Row::Copy | Row::CopyTwice | Row::Command | Row::Merge => &[A, B],
            Row::End => &[B],
            _ => &[],
        }
    }

    /// Whether the operation is for a platform.
    fn has_platform(self) -> bool {
        !matches!(self, Row::Context | Row::Merge | Row::End)
    }
}

pub(crate) const A: &str =
    "sha256:aaaaaaaaaaaaaaaaaaaaaaaaaaaaaaaaaaaaaaaaaaaaaaaaaaaaaaaaaaaaaaaa";

const B: &str = "sha256:bbbbbbbbbbbbbbbbbbbbbbbbbbbbbbbbbbbbbbbbbbbbbbbbbbbbbbbbbbbbbbbb";

const C: &str = "sha256:cccccccccccccccccccccccccccccccccccccccccccccccccccccccccccccccc";

pub fn answer(alloc: Global, keys: RandomState, case: &str) -> Result<String, Memory> {
    match row_of(case) {
        Some(row) => {
            let bytes = row_bytes(alloc, keys, row)?;
            let digits = hex::encode(alloc, bytes.as_slice())?;
            Ok(format!(in alloc; "{case} {digits}")?)
        }
        None => Err(Memory),
    }
}

/// The row of this name.
fn row_of(name: &str) -> Option<Row> {
    match name {
        "image" => Some(Row::Image),
        "context" => Some(Row::Context),
        "mkdir" => Some(Row::MakeDir),
        "copy" => Some(Row::Copy),
        "copy-twice" => Some(Row::CopyTwice),
        "heredoc" => Some(Row::Heredoc),
        "command" => Some(Row::Command),
        "shared-cache" => Some(Row::SharedCache),
        "merge" => Some(Row::Merge),
        "end" => Some(Row::End),
        "definition" => Some(Row::Definition),
        "vertex-image" => Some(Row::VertexImage),
        "vertex-mkdir" => Some(Row::VertexMakeDir),
        "vertex-copy" => Some(Row::VertexCopy),
        "plan" => Some(Row::Plan),
        "empty-plan" => Some(Row::EmptyPlan),
        "vertex-context" => Some(Row::VertexContext),
        "chain-of-two" => Some(Row::ChainOfTwo),
        "chain-of-three" => Some(Row::ChainOfThree),
        "followed-context" => Some(Row::FollowedContext),
        _ => None,
    }
}

fn row_bytes(alloc: Global, keys: RandomState, row: Row) -> Result<Bytes, Memory> {
    match row {
        Row::Definition => definition(alloc),
        Row::VertexImage => bytes(alloc, vertices::image(alloc, keys)),
        Row::VertexMakeDir => bytes(alloc, vertices::make_dir(alloc)),
        Row::VertexCopy => bytes(alloc, vertices::copy(alloc)),
        Row::Plan => whole::plan(alloc, keys),
        Row::EmptyPlan => whole::empty_plan(alloc, keys),
        Row::VertexContext => bytes(alloc, vertices::context(alloc)),
        Row::ChainOfTwo => bytes(alloc, vertices::chain(alloc, &[A, B])),
        Row::ChainOfThree => bytes(alloc, vertices::chain(alloc, &[B, C, A])),
        Row::FollowedContext => bytes(alloc, whole::followed_context(alloc)),
        row => operation(alloc, row),
    }
}

/// A text.
pub(crate) fn text(alloc: Global, text: &str) -> Result<Text, Memory> {
    Text::from_str(alloc, text)
}

/// A list of texts.
pub(crate) fn texts(alloc: Global, texts: &[&str]) -> Result<Items<Text>, Memory> {
    let mut items = Items::new(alloc);
    for text in texts {
        items.push(Text::from_str(alloc, text)?)?;
    }
    Ok(items)
}

fn operation(alloc: Global, row: Row) -> Result<Bytes, Memory> {
    let kind = kind(alloc, row)?;
    bytes(alloc, of_kind(alloc, row, kind))
}

/// The bytes of an operation, if it was made.
fn bytes(alloc: Global, op: Result<Op, Memory>) -> Result<Bytes, Memory> {
    match op {
        Ok(op) => op.to_bytes(alloc),
        Err(memory) => Err(memory),
    }
}

/// The operation of a kind, with the row's inputs and platform.
fn of_kind(alloc: Global, row: Row, kind: OpKind) -> Result<Op, Memory> {
    let op = without_kind(alloc, row);
    match op {
        Ok(op) => Ok(Op { kind, ..op }),
        Err(memory) => {
            drop(kind);
            Err(memory)
        }
    }
}

fn without_kind(alloc: Global, row: Row) -> Result<Op, Memory> {
    let inputs = inputs(alloc, row.inputs())?;
    let platform = match row.has_platform() {
        true => Some(platform(alloc)?),
        false => None,
    };
    let constraints = match row {
        Row::End => None,
        _ => Some(Constraints {
            filters: Items::new(alloc),
        }),
    };
    Ok(Op {
        inputs,
        kind: OpKind::End,
        platform,
        constraints,
    })
}

fn inputs(alloc: Global, digests: &[&str]) -> Result<Items<Input>, Memory> {
    let mut inputs = Items::new(alloc);
    for digest in digests {
        let digest = text(alloc, digest)?;
        inputs.push(Input { digest, index: 0 })?;
    }
    Ok(inputs)
}

pub(crate) fn platform(alloc: Global) -> Result<Platform, Memory> {
    Ok(Platform {
        architecture: text(alloc, "amd64")?,
        os: text(alloc, "linux")?,
        variant: text(alloc, "")?,
    })
}

fn kind(alloc: Global, row: Row) -> Result<OpKind, Memory> {
    match row {
        Row::Image => image(alloc),
        Row::Context => context(alloc),
        Row::MakeDir => files::make_dir(alloc),
        Row::Copy => files::copy(alloc),
        Row::CopyTwice => files::copy_twice(alloc),
        Row::Heredoc => files::heredoc(alloc),
        Row::Command => commands::command(alloc),
        Row::SharedCache => commands::shared_cache(alloc),
        Row::Merge => merge(alloc),
        _ => Ok(OpKind::End),
    }
}

fn image(alloc: Global) -> Result<OpKind, Memory> {
    let identifier = text(alloc, "docker-image://base:1")?;
    let attrs = Map::new(alloc);
    Ok(OpKind::Source(SourceOp { identifier, attrs }))
}

fn context(alloc: Global) -> Result<OpKind, Memory> {
    let identifier = text(alloc, "local://context")?;
    let attrs = with(
        alloc,
        Map::new(alloc),
        "local.excludepatterns",
        r#"["*.md"]"#,
    )?;
    let attrs = with(alloc, attrs, "local.sharedkeyhint", "context")?;
    let attrs = with(alloc, attrs, "local.unique", "u1")?;
    Ok(OpKind::Source(SourceOp { identifier, attrs }))
}

/// A map with one text more.
fn with(alloc: Global, map: Map<Text>, key: &str, value: &str) -> Result<Map<Text>, Memory> {
    let value = text(alloc, value)?;
    pushed(alloc, map, key, value)
}

/// A map with one entry more; where the key is out of order, nothing is shown.
fn pushed<V: Drop>(alloc: Global, map: Map<V>, key: &str, value: V) -> Result<Map<V>, Memory> {
    let mut map = map;
    let key = text(alloc, key)?;
    match map.push(key, value) {
        Ok(()) => Ok(map),
        Err(Fault::Because(Unordered)) | Err(Fault::Memory) => Err(Memory),
    }
}

fn merge(alloc: Global) -> Result<OpKind, Memory> {
    let mut inputs = Items::new(alloc);
    inputs.push(MergeInput { input: 0 })?;
    inputs.push(MergeInput { input: 1 })?;
    Ok(OpKind::Merge(MergeOp { inputs }))
}

fn definition(alloc: Global) -> Result<Bytes, Memory> {
    let ops = ops(alloc)?;
    let metadata = metadata(alloc)?;
    Definition { ops, metadata }.to_bytes(alloc)
}

fn ops(alloc: Global) -> Result<Items<Bytes>, Memory> {
    let mut ops = Items::new(alloc);
    ops.push(Bytes::from_slice(alloc, b"\n\0")?)?;
    ops.push(Bytes::from_slice(alloc, b"end")?)?;
    Ok(ops)
}

fn metadata(alloc: Global) -> Result<Map<OpMetadata>, Memory> {
    let named = with(alloc, Map::new(alloc), "llb.customname", "[2/3] RUN true")?;
    let metadata = described(
        alloc,
        Map::new(alloc),
        "sha256:a",
        true,
        named,
        Map::new(alloc),
    )?;
    let caps = caps(alloc)?;
    let metadata = described(alloc, metadata, "sha256:b", false, Map::new(alloc), caps)?;
    described(
        alloc,
        metadata,
        "sha256:c",
        false,
        Map::new(alloc),
        Map::new(alloc),
    )
}

fn caps(alloc: Global) -> Result<Map<bool>, Memory> {
    let caps = pushed(alloc, Map::new(alloc), "constraints", false)?;
    pushed(alloc, caps, "platform", true)
}

/// The metadata with that of one operation more.
fn described(
    alloc: Global,
    metadata: Map<OpMetadata>,
    digest: &str,
    ignore_cache: bool,
    description: Map<Text>,
    caps: Map<bool>,
) -> Result<Map<OpMetadata>, Memory> {
    let said = OpMetadata {
        ignore_cache,
        description,
        caps,
    };
    pushed(alloc, metadata, digest, said)
}
