use llb::{CopyFiles, Exec, Source};
use paths::Path;
use plain::{Exact, Items, Memory};
use std::alloc::Global;

/// Where a tree comes from that an instruction names.
#[derive(Drop)]
pub enum Origin {
    /// It is there before the build: the empty tree, the context or an image.
    Source(Source),
    /// It is the tree of an earlier stage, which has this number; stages count from 0, those that aren't needed too.
    Stage(u32),
}

impl Exact for Origin {
    fn same(&self, other: &Origin) -> bool {
        match (self, other) {
            (Origin::Source(source), Origin::Source(other_source)) => source.same(other_source),
            (Origin::Stage(number), Origin::Stage(other_number)) => number == other_number,
            _ => false,
        }
    }

    fn copy(&self, alloc: Global) -> Result<Origin, Memory> {
        match self {
            Origin::Source(source) => Ok(Origin::Source(source.copy(alloc)?)),
            Origin::Stage(number) => Ok(Origin::Stage(*number)),
        }
    }
}

/// What an instruction does to its stage's tree.
#[derive(Drop)]
pub enum Action {
    /// RUN: the command, and where the trees of its binds come from, one for each bind in their order.
    Run {
        exec: Exec,
        from: Items<Origin>,
    },
    /// COPY: the files, and the tree that its patterns are looked for in; `None` where no source is a pattern. With `--link` the files are
    /// copied into the empty tree, and what that gives is laid over the stage's tree.
    Copy {
        files: CopyFiles,
        from: Option<Origin>,
        linked: bool,
    },
    /// WORKDIR: the directory is made, with its parents.
    MakeDirs {
        path: Path,
    },
}

/// An instruction that gives a tree, and its line.
#[derive(Drop)]
pub struct Step {
    pub line: u32,
    pub action: Action,
}

/// A stage: the line of its FROM, what it begins with, and its instructions that give a tree, in their order.
#[derive(Drop)]
pub struct Stage {
    pub line: u32,
    pub base: Origin,
    pub steps: Items<Step>,
}
