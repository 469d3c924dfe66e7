ghost use Rattle.std.specs.Prelude.{◌≡◌, ℕ, List, fold};
ghost use Rattle.std.specs.Hash.{bool as bool_writes, u16 as u16_writes, u32 as u32_writes, slice, str as str_writes};
ghost use Rattle.std.specs.Hash.DefaultHasher as sip;
ghost use Rattle.llb.specs.Hash.{path_writes, sharing_writes, cache_writes, bind_writes, exec_writes, content_writes, option_writes, owner_writes, copy_options_writes, file_source_writes, copy_writes, source_writes, op_writes, vertex_writes, hash_of};

use crate::{Bind, CopyFiles, Exec, FileSource, Op, Source, Vertex, VertexId};
use paths::{Name, Path};
use plain::{Items, Mode, Owner, Sharing, Text};
use runs::CacheUse;
use std::hash::{DefaultHasher, Hash, Hasher};
use trees::{Content, CopyOptions};

/// The hash of a vertex: SipHash of what the vertex is made of.
///
/// Its keys are fixed, so that a build does the same work each time. Whoever writes a Dockerfile can therefore search for
/// vertices that share a hash. Each of those is compared with those before it, at worst all that a graph may have: that
/// costs time, and changes no answer.
pub(crate) fn hash_of(vertex: &Vertex) -> u64
    ensures { result ≡ hash_of vertex.now }
{
    let mut state = DefaultHasher::new();
    vertex.write_to(&mut state);
    state.finish()
}

/// Values that are written to a hasher, equal ones by equal writes.
///
/// It is std's `Hash` without `Eq`, in whose place these values have `Exact`.
trait Written {
    // what `write_to` writes, in order
    ghost writes: { Self → List (List ℕ) };

    /// Writes the value to a hasher.
    fn write_to(&self, state: &mut DefaultHasher)
        ensures { state.new ≡ fold sip.write state.old (writes self.now) };
}

impl Written for Text {
    ghost writes = { str_writes };

    fn write_to(&self, state: &mut DefaultHasher) {
        self.as_str().hash(state);
    }
}

impl Written for VertexId {
    ghost writes = { u32_writes };

    fn write_to(&self, state: &mut DefaultHasher) {
        self.number().hash(state);
    }
}

impl<T: Written> Written for Items<T> {
    ghost writes = { slice T.writes };

    fn write_to(&self, state: &mut DefaultHasher) {
        write_items(self.as_slice(), state);
    }
}

/// Writes how many items there are, and then each.
fn write_items<T: Written>(items: &[T], state: &mut DefaultHasher)
    ensures { state.new ≡ fold sip.write state.old (slice T.writes items.now) }
{
    items.len().hash(state);
    for item in items {
        item.write_to(state);
    }
}

impl Written for Path {
    ghost writes = { path_writes };

    fn write_to(&self, state: &mut DefaultHasher) {
        write_items(self.components(), state);
    }
}

impl Written for Sharing {
    ghost writes = { sharing_writes };

    fn write_to(&self, state: &mut DefaultHasher) {
        state.write_u8(match self {
            Sharing::Shared => 0,
            Sharing::Private => 1,
            Sharing::Locked => 2,
        });
    }
}

impl Written for CacheUse {
    ghost writes = { cache_writes };

    fn write_to(&self, state: &mut DefaultHasher) {
        self.id.write_to(state);
        self.sharing.write_to(state);
        self.target.write_to(state);
    }
}

impl Written for Bind {
    ghost writes = { bind_writes };

    fn write_to(&self, state: &mut DefaultHasher) {
        self.rw.hash(state);
        self.source.write_to(state);
        self.target.write_to(state);
    }
}

impl Written for Exec {
    ghost writes = { exec_writes };

    fn write_to(&self, state: &mut DefaultHasher) {
        self.binds.write_to(state);
        self.caches.write_to(state);
        self.dir.write_to(state);
        // its own hash is known, and a command may have thousands of variables
        self.env.hash().hash(state);
        self.user.write_to(state);
        self.words.write_to(state);
    }
}

impl Written for Name {
    ghost writes = { str_writes };

    fn write_to(&self, state: &mut DefaultHasher) {
        self.as_text().write_to(state);
    }
}

impl Written for Content {
    ghost writes = { content_writes };

    fn write_to(&self, state: &mut DefaultHasher) {
        self.as_slice().len().hash(state);
        state.write(self.as_slice());
    }
}

impl<T: Written> Written for Option<T> {
    ghost writes = { option_writes T.writes };

    fn write_to(&self, state: &mut DefaultHasher) {
        match self {
            None => state.write_u8(0),
            Some(value) => {
                state.write_u8(1);
                value.write_to(state);
            }
        }
    }
}

impl Written for Mode {
    ghost writes = { u16_writes };

    fn write_to(&self, state: &mut DefaultHasher) {
        self.bits().hash(state);
    }
}

impl Written for Owner {
    ghost writes = { owner_writes };

    fn write_to(&self, state: &mut DefaultHasher) {
        self.user.hash(state);
        self.group.hash(state);
    }
}

impl Written for CopyOptions {
    ghost writes = { copy_options_writes };

    fn write_to(&self, state: &mut DefaultHasher) {
        self.into.hash(state);
        self.owner.write_to(state);
        self.mode.write_to(state);
    }
}

impl Written for FileSource {
    ghost writes = { file_source_writes };

    fn write_to(&self, state: &mut DefaultHasher) {
        match self {
            FileSource::Pattern(text) => {
                state.write_u8(0);
                text.write_to(state);
            }
            FileSource::Data(name, content) => {
                state.write_u8(1);
                name.write_to(state);
                content.write_to(state);
            }
        }
    }
}

impl Written for CopyFiles {
    ghost writes = { copy_writes };

    fn write_to(&self, state: &mut DefaultHasher) {
        self.sources.write_to(state);
        self.dest.write_to(state);
        self.options.write_to(state);
    }
}

impl Written for Source {
    ghost writes = { source_writes };

    fn write_to(&self, state: &mut DefaultHasher) {
        match self {
            Source::Scratch => state.write_u8(0),
            Source::Context => state.write_u8(1),
            Source::Image(name) => {
                state.write_u8(2);
                name.write_to(state);
            }
        }
    }
}

impl Written for Op {
    ghost writes = { op_writes };

    fn write_to(&self, state: &mut DefaultHasher) {
        match self {
            Op::Source(source) => {
                state.write_u8(0);
                source.write_to(state);
            }
            Op::Exec(exec) => {
                state.write_u8(1);
                exec.write_to(state);
            }
            Op::Copy(files) => {
                state.write_u8(2);
                files.write_to(state);
            }
            Op::MakeDirs(path) => {
                state.write_u8(3);
                path.write_to(state);
            }
            Op::Merge => state.write_u8(4),
        }
    }
}

impl Written for Vertex {
    ghost writes = { vertex_writes };

    fn write_to(&self, state: &mut DefaultHasher) {
        self.inputs.write_to(state);
        self.op.write_to(state);
    }
}
