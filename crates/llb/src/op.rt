use paths::{Name, Path};
use plain::{Exact, Items, Memory, Text, Variables, with_copy};
use runs::CacheUse;
use std::alloc::Global;
use trees::{Content, CopyOptions};

/// A tree that no operation makes (the source operation of BuildKit's LLB).
#[derive(Drop)]
pub enum Source {
    /// The empty tree: the root directory and nothing else.
    Scratch,
    /// The files that the build was given.
    Context,
    /// The tree of the image of exactly this name.
    Image(Text),
}

impl Exact for Source {
    fn same(&self, other: &Source) -> bool {
        match (self, other) {
            (Source::Scratch, Source::Scratch) => true,
            (Source::Context, Source::Context) => true,
            (Source::Image(name), Source::Image(other_name)) => name.same(other_name),
            _ => false,
        }
    }

    fn copy(&self, alloc: Global) -> Result<Source, Memory> {
        match self {
            Source::Scratch => Ok(Source::Scratch),
            Source::Context => Ok(Source::Context),
            Source::Image(name) => Ok(Source::Image(name.copy(alloc)?)),
        }
    }
}

/// A bind mount of a command: what lies under `source` in the tree of the bind's input stands at `target`
/// (Dockerfile reference, `RUN --mount=type=bind`).
#[derive(Drop)]
pub struct Bind {
    /// Whether the command may write there. What it writes is seen by it alone.
    pub rw: bool,
    pub source: Path,
    pub target: Path,
}

impl Exact for Bind {
    fn same(&self, other: &Bind) -> bool {
        self.rw == other.rw && self.source.same(&other.source) && self.target.same(&other.target)
    }

    fn copy(&self, alloc: Global) -> Result<Bind, Memory> {
        let source = self.source.copy(alloc)?;
        let (source, target) = with_copy(alloc, source, &self.target)?;
        Ok(Bind {
            rw: self.rw,
            source,
            target,
        })
    }
}

/// A command to run (the exec operation of BuildKit's LLB). Its first input is the tree that it runs in, and each
/// bind has one input more, in their order.
#[derive(Drop)]
pub struct Exec {
    /// The bind mounts, in the order of the line.
    pub binds: Items<Bind>,
    /// The cache mounts, in the order of the line.
    pub caches: Items<CacheUse>,
    /// The directory that the command runs in.
    pub dir: Path,
    /// The environment, each name once. Commands between which nothing is declared share it.
    pub env: Variables,
    /// The user that it runs as, as USER wrote it.
    pub user: Text,
    /// The command and its arguments.
    pub words: Items<Text>,
}

impl Exact for Exec {
    fn same(&self, other: &Exec) -> bool {
        self.binds.same(&other.binds)
            && self.caches.same(&other.caches)
            && self.dir.same(&other.dir)
            && self.env.same(&other.env)
            && self.user.same(&other.user)
            && self.words.same(&other.words)
    }

    fn copy(&self, alloc: Global) -> Result<Exec, Memory> {
        let copied = self.binds.copy(alloc)?;
        let copied = with_copy(alloc, copied, &self.caches)?;
        let copied = with_copy(alloc, copied, &self.dir)?;
        let copied = with_copy(alloc, copied, &self.env)?;
        let copied = with_copy(alloc, copied, &self.user)?;
        let copied = with_copy(alloc, copied, &self.words)?;
        let (((((binds, caches), dir), env), user), words) = copied;
        Ok(Exec {
            binds,
            caches,
            dir,
            env,
            user,
            words,
        })
    }
}

/// What a COPY takes: the files that a pattern matches, or a file that the instruction brings along.
#[derive(Drop)]
pub enum FileSource {
    /// What a pattern matches in the tree that is copied from. It is the pattern's text as it was written, with its variables
    /// replaced: two spellings of one pattern are two sources.
    Pattern(Text),
    /// A file of this name with these bytes (a heredoc of COPY).
    Data(Name, Content),
}

impl Exact for FileSource {
    fn same(&self, other: &FileSource) -> bool {
        match (self, other) {
            (FileSource::Pattern(text), FileSource::Pattern(other_text)) => text.same(other_text),
            (FileSource::Data(name, content), FileSource::Data(other_name, other_content)) => {
                name.same(other_name) && content.same(other_content)
            }
            _ => false,
        }
    }

    fn copy(&self, alloc: Global) -> Result<FileSource, Memory> {
        match self {
            FileSource::Pattern(text) => Ok(FileSource::Pattern(text.copy(alloc)?)),
            FileSource::Data(name, content) => {
                let name = name.copy(alloc)?;
                let (name, content) = with_copy(alloc, name, content)?;
                Ok(FileSource::Data(name, content))
            }
        }
    }
}

/// A copy of files (the file operation of BuildKit's LLB, with the action copy). Its first input is the tree that they are
/// copied into. Where a source is a pattern it has a second one, the tree that they are copied from.
#[derive(Drop)]
pub struct CopyFiles {
    /// What is copied, in the order of the line: at least one source.
    pub sources: Items<FileSource>,
    /// Where to.
    pub dest: Path,
    /// What the destination's text and the flags of the COPY say.
    pub options: CopyOptions,
}

impl Exact for CopyFiles {
    fn same(&self, other: &CopyFiles) -> bool {
        self.sources.same(&other.sources)
            && self.dest.same(&other.dest)
            && self.options.same(&other.options)
    }

    fn copy(&self, alloc: Global) -> Result<CopyFiles, Memory> {
        let sources = self.sources.copy(alloc)?;
        let (sources, dest) = with_copy(alloc, sources, &self.dest)?;
        Ok(CopyFiles {
            sources,
            dest,
            options: self.options,
        })
    }
}

/// What a vertex of a graph does.
#[derive(Drop)]
pub enum Op {
    /// It is a tree that is there before the build. It has no input.
    Source(Source),
    /// It runs a command.
    Exec(Exec),
    /// It copies files.
    Copy(CopyFiles),
    /// It makes the directory of this path, with its parents, in its one input (the file operation of BuildKit's LLB, with the
    /// action mkdir).
    MakeDirs(Path),
    /// It lays its inputs over each other, the first at the bottom: two at least (the merge operation of BuildKit's LLB).
    Merge,
}

impl Exact for Op {
    fn same(&self, other: &Op) -> bool {
        match (self, other) {
            (Op::Source(source), Op::Source(other_source)) => source.same(other_source),
            (Op::Exec(exec), Op::Exec(other_exec)) => exec.same(other_exec),
            (Op::Copy(files), Op::Copy(other_files)) => files.same(other_files),
            (Op::MakeDirs(path), Op::MakeDirs(other_path)) => path.same(other_path),
            (Op::Merge, Op::Merge) => true,
            _ => false,
        }
    }

    fn copy(&self, alloc: Global) -> Result<Op, Memory> {
        match self {
            Op::Source(source) => Ok(Op::Source(source.copy(alloc)?)),
            Op::Exec(exec) => Ok(Op::Exec(exec.copy(alloc)?)),
            Op::Copy(files) => Ok(Op::Copy(files.copy(alloc)?)),
            Op::MakeDirs(path) => Ok(Op::MakeDirs(path.copy(alloc)?)),
            Op::Merge => Ok(Op::Merge),
        }
    }
}
