// Commands with their mounts.

ghost use Rattle.std.specs.Prelude.{◌≡◌, ◌∷◌, [], ◌++◌, IfOk, OnOk, Some, map};
ghost use Rattle.paths.specs.Path.{text_of};
ghost use Rattle.llbmessages.specs.declared.op.OpKind.TheVariants.{Exec as ExecKind};
ghost use Rattle.exported.specs.Places.{inputs_of, index_at};
ghost use Rattle.exported.specs.Operations.{op_on};
ghost use Rattle.exported.specs.Commands.{variable_text, meta_of, selector_of, root_mount, bind_mount, cache_mount, bind_mounts, mounts_of, exec_of};

use crate::operations::op_for;
use crate::places::{index_at, inputs_of};
use llb::{Bind, Exec};
use llbmessages::{CacheOpt, ExecOp, Meta, Mount, MountKind, Network, Op, OpKind, Platform};
use paths::Path;
use plain::{Exact, Items, Memory, Text, Variable, with_copy};
use runs::CacheUse;
use std::alloc::Global;

/// A variable as a command is given it.
fn variable_text(alloc: Global, variable: &Variable) -> Result<Text, Memory>
    ensures { IfOk result (λ text. text ≡ variable_text variable.now) }
{
    let mut text = String::from_str(alloc, variable.name.as_str())?;
    text.push('=')?;
    text.push_str(variable.value.as_str())?;
    Ok(Text::from_string(text))
}

/// The environment as a command is given it.
fn env_texts(alloc: Global, env: &[Variable]) -> Result<Items<Text>, Memory>
    ensures { IfOk result (λ texts. texts ≡ map variable_text env.now) }
{
    let mut texts = Items::new(alloc);
    for variable in env {
        texts.push(variable_text(alloc, variable)?)?;
    }
    Ok(texts)
}

/// A command, and what it runs with.
#[tactic(auto, unfolding(crate::specs::Commands::meta_of))]
fn meta_of(alloc: Global, exec: &Exec) -> Result<Meta, Memory>
    ensures { IfOk result (λ meta. meta ≡ meta_of exec.now) }
{
    let env = env_texts(alloc, exec.env.as_slice())?;
    let (env, args) = with_copy(alloc, env, &exec.words)?;
    let ((env, args), user) = with_copy(alloc, (env, args), &exec.user)?;
    match exec.dir.text(alloc) {
        Ok(cwd) => Ok(Meta {
            args,
            env,
            cwd,
            user,
        }),
        Err(memory) => {
            drop(((env, args), user));
            Err(memory)
        }
    }
}

/// The part of a tree that is mounted.
fn selector_of(alloc: Global, path: &Path) -> Result<Text, Memory>
    ensures { IfOk result (λ selector. selector ≡ selector_of path.now) }
{
    if path.is_root() {
        return Text::from_str(alloc, "");
    }
    path.text(alloc)
}

/// The mount of the tree that a command runs in.
#[tactic(auto, unfolding(crate::specs::Commands::root_mount))]
fn root_mount(alloc: Global, input: i64) -> Result<Mount, Memory>
    ensures { IfOk result (λ mount. mount ≡ root_mount input) }
{
    let selector = Text::from_str(alloc, "")?;
    match Text::from_str(alloc, "/") {
        Ok(dest) => Ok(Mount {
            input,
            selector,
            dest,
            output: 0,
            readonly: false,
            kind: MountKind::Bind,
        }),
        Err(memory) => {
            drop(selector);
            Err(memory)
        }
    }
}

/// A bind mount.
#[tactic(auto, unfolding(crate::specs::Commands::bind_mount))]
fn bind_mount(alloc: Global, input: i64, bind: &Bind) -> Result<Mount, Memory>
    ensures { IfOk result (λ mount. mount ≡ bind_mount input bind.now) }
{
    let selector = selector_of(alloc, &bind.source)?;
    match bind.target.text(alloc) {
        Ok(dest) => Ok(Mount {
            input,
            selector,
            dest,
            output: -1,
            readonly: !bind.rw,
            kind: MountKind::Bind,
        }),
        Err(memory) => {
            drop(selector);
            Err(memory)
        }
    }
}

/// A cache mount's empty selector, where it stands, and which cache it is.
fn cache_texts(alloc: Global, cache: &CacheUse) -> Result<((Text, Text), Text), Memory>
    ensures { IfOk result (λ texts. texts ≡ (([], text_of cache.now.target), cache.now.id)) }
{
    let dest = cache.target.text(alloc)?;
    match Text::from_str(alloc, "") {
        Ok(selector) => with_copy(alloc, (selector, dest), &cache.id),
        Err(memory) => {
            drop(dest);
            Err(memory)
        }
    }
}

/// A cache mount.
#[tactic(auto, unfolding(crate::specs::Commands::cache_mount))]
fn cache_mount(alloc: Global, cache: &CacheUse) -> Result<Mount, Memory>
    ensures { IfOk result (λ mount. mount ≡ cache_mount cache.now) }
{
    let ((selector, dest), id) = cache_texts(alloc, cache)?;
    Ok(Mount {
        input: -1,
        selector,
        dest,
        output: -1,
        readonly: false,
        kind: MountKind::Cache(CacheOpt {
            id,
            sharing: cache.sharing,
        }),
    })
}

/// Adds bind mounts, each of the tree of its place.
fn push_binds(
    alloc: Global,
    mounts: &mut Items<Mount>,
    digests: &[Text],
    places: &[Option<Text>],
    binds: &[Bind],
) -> Result<(), Memory>
    ensures { OnOk result (mounts.new ≡ mounts.old ++ bind_mounts digests.now places.now 1 binds.now) }
{
    for (number, bind) in binds.iter().enumerate() {
        let index = index_at(digests, places, number + 1)?;
        mounts.push(bind_mount(alloc, index, bind)?)?;
    }
    Ok(())
}

/// Adds cache mounts.
fn push_caches(alloc: Global, mounts: &mut Items<Mount>, caches: &[CacheUse]) -> Result<(), Memory>
    ensures { OnOk result (mounts.new ≡ mounts.old ++ map cache_mount caches.now) }
{
    for cache in caches {
        mounts.push(cache_mount(alloc, cache)?)?;
    }
    Ok(())
}

/// A command's mounts.
#[tactic(auto, unfolding(crate::specs::Commands::mounts_of))]
fn mounts_of(
    alloc: Global,
    digests: &[Text],
    places: &[Option<Text>],
    exec: &Exec,
) -> Result<Items<Mount>, Memory>
    requires { digests.now ≡ inputs_of places.now }
    ensures { IfOk result (λ mounts. mounts ≡ mounts_of places.now exec.now) }
{
    let root = index_at(digests, places, 0)?;
    let mut mounts = Items::new(alloc);
    mounts.push(root_mount(alloc, root)?)?;
    push_binds(alloc, &mut mounts, digests, places, exec.binds.as_slice())?;
    push_caches(alloc, &mut mounts, exec.caches.as_slice())?;
    Ok(mounts)
}

/// A command on the trees of these places, whose inputs have these digests.
#[tactic(auto, unfolding(crate::specs::Commands::exec_of))]
fn exec_of(
    alloc: Global,
    network: Network,
    digests: &[Text],
    places: &[Option<Text>],
    exec: &Exec,
) -> Result<ExecOp, Memory>
    requires { digests.now ≡ inputs_of places.now }
    ensures { IfOk result (λ op. op ≡ exec_of network places.now exec.now) }
{
    let mounts = mounts_of(alloc, digests, places, exec)?;
    match meta_of(alloc, exec) {
        Ok(meta) => Ok(ExecOp {
            meta,
            mounts,
            network,
        }),
        Err(memory) => {
            drop(mounts);
            Err(memory)
        }
    }
}

/// The operation that runs a command in the tree of the first place, with a bind mount of the tree of each other place.
pub fn exec_op(
    alloc: Global,
    platform: &Platform,
    network: Network,
    places: &[Option<Text>],
    exec: &Exec,
) -> Result<Op, Memory>
    ensures { IfOk result (λ op. op ≡ op_on (Some platform.now) (inputs_of places.now) (ExecKind (exec_of network places.now exec.now))) }
{
    let digests = inputs_of(alloc, places)?;
    match exec_of(alloc, network, digests.as_slice(), places, exec) {
        Ok(exec) => op_for(alloc, platform, digests.as_slice(), OpKind::Exec(exec)),
        Err(memory) => Err(memory),
    }
}
