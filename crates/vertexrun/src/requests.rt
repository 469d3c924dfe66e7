ghost use Rattle.std.specs.Prelude.{◌≡◌, IfOk, map, length};
ghost use Rattle.std.specs.List.{zip};
ghost use Rattle.trees.specs.Subtree.{subtree};
ghost use Rattle.plans.specs.Request.{binds_of, request_with, request_of};

use crate::files::tree_or_cause;
use executor::Request;
use llb::{Bind, Exec};
use plain::{Exact, Items, Memory};
use runs::RunBind;
use std::alloc::Global;
use trees::{Cause, Tree, TreeOrCause};

/// The request of a command on the tree that it runs in and those of its binds: each bind has what is under its source in its own
/// tree, in their order (Dockerfile reference, `RUN --mount=type=bind`).
///
/// There is no request where a bind's source isn't a directory, and the first such bind decides: `F1` where nothing is at its
/// source, `F2` where a file is.
pub fn request_of(
    alloc: Global,
    exec: &Exec,
    root: &Tree,
    trees: &[&Tree],
) -> Result<Result<Request, Cause>, Memory>
    requires { length trees.now ≡ length exec.now.binds }
    ensures { IfOk result (λ request. request ≡ request_of exec.now root.now (map (λ tree. tree.now) trees.now)) }
{
    match run_binds(alloc, exec.binds.as_slice(), trees)? {
        Ok(binds) => Ok(Ok(request_with(alloc, exec, root, binds)?)),
        Err(cause) => Ok(Err(cause)),
    }
}

/// The request of a command that runs in this root with these binds.
fn request_with(
    alloc: Global,
    exec: &Exec,
    root: &Tree,
    binds: Items<RunBind>,
) -> Result<Request, Memory>
    ensures { IfOk result (λ request. Ok request ≡ request_with exec.now root.now (Ok binds)) }
{
    let root = root.copy(alloc)?;
    let caches = exec.caches.copy(alloc)?;
    let env = exec.env.copy(alloc)?;
    let dir = exec.dir.copy(alloc)?;
    let user = exec.user.copy(alloc)?;
    let words = exec.words.copy(alloc)?;
    Ok(Request {
        root,
        binds,
        caches,
        env,
        dir,
        user,
        words,
    })
}

/// The binds as the run has them, each with its own tree's part; or the cause of the first that has none.
fn run_binds(
    alloc: Global,
    binds: &[Bind],
    trees: &[&Tree],
) -> Result<Result<Items<RunBind>, Cause>, Memory>
    requires { length trees.now ≡ length binds.now }
    ensures { IfOk result (λ bound. bound ≡ binds_of (zip binds.now (map (λ tree. tree.now) trees.now))) }
{
    let mut bound = Items::new(alloc);
    for (index, bind) in binds.iter().enumerate() {
        let tree = match subtree(alloc, trees[index], bind)? {
            Ok(tree) => tree,
            Err(cause) => return Ok(Err(cause)),
        };
        let target = bind.target.copy(alloc)?;
        bound.push(RunBind {
            target,
            tree,
            rw: bind.rw,
        })?;
    }
    Ok(Ok(bound))
}

/// What is under a bind's source in its tree, or the cause why there is nothing to mount.
fn subtree(alloc: Global, tree: &Tree, bind: &Bind) -> Result<TreeOrCause, Memory>
    ensures { IfOk result (λ value. value ≡ subtree tree.now bind.now.source) }
{
    tree_or_cause(tree.subtree(alloc, &bind.source))
}
