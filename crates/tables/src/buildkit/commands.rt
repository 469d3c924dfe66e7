// Commands with their mounts.

use crate::buildkit::{text, texts};
use llbmessages::{CacheOpt, ExecOp, Meta, Mount, MountKind, Network, OpKind};
use plain::{Items, Memory, Sharing};
use std::alloc::Global;

/// The mounts with one more.
fn with(
    alloc: Global,
    mounts: Items<Mount>,
    input: i64,
    selector: &str,
    dest: &str,
    output: i64,
    kind: MountKind,
) -> Result<Items<Mount>, Memory> {
    let mut mounts = mounts;
    let selector = text(alloc, selector)?;
    let dest = text(alloc, dest)?;
    mounts.push(Mount {
        input,
        selector,
        dest,
        output,
        readonly: input > 0,
        kind,
    })?;
    Ok(mounts)
}

fn cache(alloc: Global, id: &str, sharing: Sharing) -> Result<MountKind, Memory> {
    let id = text(alloc, id)?;
    Ok(MountKind::Cache(CacheOpt { id, sharing }))
}

fn meta(alloc: Global, args: &[&str], env: &[&str], cwd: &str, user: &str) -> Result<Meta, Memory> {
    let cwd = text(alloc, cwd)?;
    let user = text(alloc, user)?;
    let args = texts(alloc, args)?;
    let env = texts(alloc, env)?;
    Ok(Meta {
        args,
        env,
        cwd,
        user,
    })
}

/// A command with its mounts, if there was memory for what it runs.
fn run(
    meta: Result<Meta, Memory>,
    mounts: Items<Mount>,
    network: Network,
) -> Result<OpKind, Memory> {
    match meta {
        Ok(meta) => Ok(OpKind::Exec(ExecOp {
            meta,
            mounts,
            network,
        })),
        Err(memory) => Err(memory),
    }
}

pub(crate) fn command(alloc: Global) -> Result<OpKind, Memory> {
    let mounts = with(alloc, Items::new(alloc), 0, "", "/", 0, MountKind::Bind)?;
    let cache = cache(alloc, "apt", Sharing::Locked)?;
    let mounts = with(alloc, mounts, -1, "", "/cache", -1, cache)?;
    let mounts = with(alloc, mounts, 1, "/src", "/mnt", -1, MountKind::Bind)?;
    let meta = meta(
        alloc,
        &["/bin/sh", "-c", ""],
        &["A=1", "PATH=/bin"],
        "/app",
        "nobody",
    );
    run(meta, mounts, Network::None)
}

pub(crate) fn shared_cache(alloc: Global) -> Result<OpKind, Memory> {
    let mounts = with(alloc, Items::new(alloc), 0, "", "/", 0, MountKind::Bind)?;
    let cache = cache(alloc, "c", Sharing::Shared)?;
    let mounts = with(alloc, mounts, -1, "", "/c", -1, cache)?;
    run(
        meta(alloc, &["true"], &[], "/", ""),
        mounts,
        Network::Sandbox,
    )
}
