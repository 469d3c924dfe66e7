use paths::Path;
use plain::{Exact, Items, Memory, Sharing, Text, Variables, with_copy};
use std::alloc::Global;
use trees::Tree;

/// A cache mount of a command: the cache of this id stands at the target while the command runs.
#[derive(Drop)]
pub struct CacheUse {
    pub id: Text,
    pub sharing: Sharing,
    pub target: Path,
}

impl Exact for CacheUse {
    fn same(&self, other: &CacheUse) -> bool {
        self.id.same(&other.id)
            && self.sharing.same(&other.sharing)
            && self.target.same(&other.target)
    }

    fn copy(&self, alloc: Global) -> Result<CacheUse, Memory> {
        let id = self.id.copy(alloc)?;
        let target = self.target.copy(alloc)?;
        Ok(CacheUse {
            id,
            sharing: self.sharing,
            target,
        })
    }
}

/// A bind mount of a command: the tree stands at the target while the command runs. What the command writes there is seen
/// by it alone, and it may write there only where `rw` says so.
#[derive(Drop)]
pub struct RunBind {
    pub target: Path,
    pub tree: Tree,
    pub rw: bool,
}

impl Exact for RunBind {
    fn same(&self, other: &RunBind) -> bool {
        self.target.same(&other.target) && self.tree.same(&other.tree) && self.rw == other.rw
    }

    fn copy(&self, alloc: Global) -> Result<RunBind, Memory> {
        let target = self.target.copy(alloc)?;
        let tree = self.tree.copy(alloc)?;
        Ok(RunBind {
            target,
            tree,
            rw: self.rw,
        })
    }
}

/// What a RUN hands to the executor of its command. The trees of its caches are lent beside it: no answer rests on them.
#[derive(Drop)]
pub struct RunRequest {
    /// What the command sees at `/`, and where it writes.
    pub root: Tree,
    /// The bind mounts, in the order of the line.
    pub binds: Items<RunBind>,
    /// The cache mounts, in the order of the line.
    pub caches: Items<CacheUse>,
    /// The environment, each name once. Requests between whose commands nothing is declared share it.
    pub env: Variables,
    /// The directory that the command runs in.
    pub dir: Path,
    /// The user that it runs as, as USER wrote it.
    pub user: Text,
    /// The command and its arguments.
    pub words: Items<Text>,
}

impl Exact for RunRequest {
    fn same(&self, other: &RunRequest) -> bool {
        self.root.same(&other.root)
            && self.binds.same(&other.binds)
            && self.caches.same(&other.caches)
            && self.env.same(&other.env)
            && self.dir.same(&other.dir)
            && self.user.same(&other.user)
            && self.words.same(&other.words)
    }

    fn copy(&self, alloc: Global) -> Result<RunRequest, Memory> {
        let copied = self.root.copy(alloc)?;
        let copied = with_copy(alloc, copied, &self.binds)?;
        let copied = with_copy(alloc, copied, &self.caches)?;
        let copied = with_copy(alloc, copied, &self.env)?;
        let copied = with_copy(alloc, copied, &self.dir)?;
        let copied = with_copy(alloc, copied, &self.user)?;
        let copied = with_copy(alloc, copied, &self.words)?;
        let ((((((root, binds), caches), env), dir), user), words) = copied;
        Ok(RunRequest {
            root,
            binds,
            caches,
            env,
            dir,
            user,
            words,
        })
    }
}

/// What a command's run ends with.
#[derive(Drop)]
pub enum RunOutcome {
    /// It ended with the status 0, and left this tree.
    Done(Tree),
    /// It ended with this status, from 1 to 255.
    Exit(u8),
}

impl Exact for RunOutcome {
    fn same(&self, other: &RunOutcome) -> bool {
        match (self, other) {
            (RunOutcome::Done(tree), RunOutcome::Done(other_tree)) => tree.same(other_tree),
            (RunOutcome::Exit(status), RunOutcome::Exit(other_status)) => status == other_status,
            _ => false,
        }
    }

    fn copy(&self, alloc: Global) -> Result<RunOutcome, Memory> {
        match self {
            RunOutcome::Done(tree) => Ok(RunOutcome::Done(tree.copy(alloc)?)),
            RunOutcome::Exit(status) => Ok(RunOutcome::Exit(*status)),
        }
    }
}
