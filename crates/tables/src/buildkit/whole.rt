// The definitions of plans.

use crate::buildkit::{platform, text};
use exported::{Merging, Options, context_op, export, follow_list};
use llbmessages::{Network, Op, Platform};
use named::NamedRows;
use plain::{Bytes, Fault, Items, Memory, Text};
use plans::Plan;
use samples::{Row, plan_of_rows};
use std::alloc::Global;
use std::hash::RandomState;

/// A plan with two copies of which BuildKit is told alike, and a command on each: one copy and one command there, which are called as the first
/// ones are. The merge stands for no line, so it has no name.
pub(crate) fn plan(alloc: Global, keys: RandomState) -> Result<Bytes, Memory> {
    let rows: [Row; 8] = [
        ("scratch", &[], 1),
        ("context", &[], 3),
        ("dirs /srv", &[0], 2),
        ("copy ./a.txt /srv/", &[2, 1], 3),
        ("copy a.txt /srv/", &[2, 1], 5),
        ("locked put /b x", &[3], 4),
        ("locked put /b x", &[4], 6),
        ("merge", &[6, 2], 0),
    ];
    let names = [
        "",
        "[a] FROM scratch",
        "[a 1/3] WORKDIR /srv",
        "[a 2/3] COPY ./a.txt .",
        "[a 3/3] RUN put /b x",
        "[b 2/3] COPY a.txt .",
        "[b 3/3] RUN put /b x",
    ];
    exported(alloc, keys, &rows, 7, &names)
}

/// A plan whose result is the empty tree.
pub(crate) fn empty_plan(alloc: Global, keys: RandomState) -> Result<Bytes, Memory> {
    let rows: [Row; 2] = [("scratch", &[], 0), ("dirs /", &[0], 0)];
    exported(alloc, keys, &rows, 1, &[])
}

/// The files of a build of which a graph names a folder by a pattern, a file by another one that has no sign, whose name isn't all ASCII below a folder
/// whose name has signs, and a file.
pub(crate) fn followed_context(alloc: Global) -> Result<Op, Memory> {
    let rows: [Row; 4] = [
        ("scratch", &[], 1),
        ("context", &[], 2),
        (r"copy ./src/*.c x/../lib\[1\]/é.c /srv/", &[0, 1], 2),
        ("copy a.md /n", &[2, 1], 3),
    ];
    let plan = plan_of_rows(alloc, &rows, 3, &[])?;
    let follows = follow_list(alloc, &plan);
    drop(plan);
    context_op(alloc, "u1", &None, &follows?)
}

/// The definition of the plan of these rows, whose lines have these names.
fn exported(
    alloc: Global,
    keys: RandomState,
    rows: &[Row],
    target: u32,
    names: &[&str],
) -> Result<Bytes, Memory> {
    let names = names_of(alloc, names)?;
    let plan = plan_of_rows(alloc, rows, target, &[])?;
    let bytes = bytes_of(alloc, keys, &plan, names.as_slice());
    drop(plan);
    bytes
}

/// Names of lines; the empty one is none.
fn names_of(alloc: Global, texts: &[&str]) -> Result<Items<Option<Text>>, Memory> {
    let mut names = Items::new(alloc);
    for name in texts {
        let name = match name.is_empty() {
            true => None,
            false => Some(text(alloc, name)?),
        };
        names.push(name)?;
    }
    Ok(names)
}

/// The definition of a plan; where there is none, nothing is shown.
fn bytes_of(
    alloc: Global,
    keys: RandomState,
    plan: &Plan<u8>,
    names: &[Option<Text>],
) -> Result<Bytes, Memory> {
    let options = options(alloc, keys)?;
    match export(alloc, plan, &options, names) {
        Ok(bytes) => Ok(bytes),
        Err(Fault::Because(_)) | Err(Fault::Memory) => Err(Memory),
    }
}

fn options(alloc: Global, keys: RandomState) -> Result<Options, Memory> {
    let unique = text(alloc, "u1")?;
    match with_patterns(alloc) {
        Ok((platform, excludes)) => Ok(Options {
            platform,
            network: Network::None,
            unique,
            merging: Merging::Native,
            digests: NamedRows::new(alloc, keys),
            excludes: Some(excludes),
            follows: None,
        }),
        Err(memory) => {
            drop(unique);
            Err(memory)
        }
    }
}

/// A platform, and patterns of files that aren't given.
fn with_patterns(alloc: Global) -> Result<(Platform, Text), Memory> {
    let platform = platform(alloc)?;
    match text(alloc, r#"["*.md"]"#) {
        Ok(excludes) => Ok((platform, excludes)),
        Err(memory) => {
            drop(platform);
            Err(memory)
        }
    }
}
