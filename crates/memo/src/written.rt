#![tactic(auto, using(crate::proofs::WrittenLemmas::takes_none, crate::proofs::WrittenLemmas::takes_then))]

ghost use Rattle.std.specs.Prelude.{◌≡◌, ◌∷◌, [], ℕ, List};
ghost use Rattle.std.specs.Hash.{bool as bool_writes, u8 as u8_writes, u16 as u16_writes, u32 as u32_writes, usize as usize_writes, slice, str as str_writes};
ghost use Rattle.plain.specs.Hash.{variable_writes};
ghost use Rattle.llb.specs.Hash.{path_writes, sharing_writes, cache_writes, bind_writes, content_writes, option_writes, owner_writes, copy_options_writes, file_source_writes, copy_writes, source_writes};
ghost use Rattle.memo.specs.Key.{Takes, command_writes, operation_writes};

use llb::{Bind, CopyFiles, Exec, FileSource, Op, Source};
use paths::{Name, Path};
use plain::{Items, Mode, Owner, Sharing, Text, Variable, Variables};
use runs::CacheUse;
use sha2::{Digest, Sha256};
use trees::{Content, CopyOptions};

/// Values that are written to a hasher, equal ones by equal pieces. What is written of an operation is what `llb` writes of it to a hasher of its own, but for its
/// environment: its variables are written, and not their hash, of which others that share it could be searched for.
pub(crate) trait Written {
    // the pieces, in order
    ghost writes: { Self → List (List ℕ) };

    /// Writes the value to a hasher.
    fn write_to(&self, hasher: &mut Sha256)
        ensures { Takes hasher.old hasher.new (writes self.now) };
}

impl Written for bool {
    ghost writes = { bool_writes };

    fn write_to(&self, hasher: &mut Sha256) {
        u8::from(*self).write_to(hasher);
    }
}

impl Written for u8 {
    ghost writes = { u8_writes };

    fn write_to(&self, hasher: &mut Sha256) {
        write(hasher, &[*self]);
    }
}

impl Written for u16 {
    ghost writes = { u16_writes };

    fn write_to(&self, hasher: &mut Sha256) {
        write(hasher, &self.to_le_bytes());
    }
}

impl Written for u32 {
    ghost writes = { u32_writes };

    fn write_to(&self, hasher: &mut Sha256) {
        write(hasher, &self.to_le_bytes());
    }
}

impl Written for usize {
    ghost writes = { usize_writes };

    fn write_to(&self, hasher: &mut Sha256) {
        write(hasher, &self.to_le_bytes());
    }
}

/// Writes bytes, all of them at once.
fn write(hasher: &mut Sha256, bytes: &[u8])
    ensures { Takes hasher.old hasher.new (bytes.now ∷ []) }
{
    hasher.update(bytes);
}

impl Written for Text {
    ghost writes = { str_writes };

    fn write_to(&self, hasher: &mut Sha256) {
        write(hasher, self.as_str().as_bytes());
        // no UTF-8 has this byte, so it ends the text
        255_u8.write_to(hasher);
    }
}

impl<T: Written> Written for Items<T> {
    ghost writes = { slice T.writes };

    fn write_to(&self, hasher: &mut Sha256) {
        write_items(self.as_slice(), hasher);
    }
}

/// Writes how many items there are, and then each.
fn write_items<T: Written>(items: &[T], hasher: &mut Sha256)
    ensures { Takes hasher.old hasher.new (slice T.writes items.now) }
{
    items.len().write_to(hasher);
    for item in items {
        item.write_to(hasher);
    }
}

impl Written for Path {
    ghost writes = { path_writes };

    fn write_to(&self, hasher: &mut Sha256) {
        write_items(self.components(), hasher);
    }
}

impl Written for Variable {
    ghost writes = { variable_writes };

    fn write_to(&self, hasher: &mut Sha256) {
        self.name.as_text().write_to(hasher);
        self.value.write_to(hasher);
    }
}

impl Written for Variables {
    ghost writes = { slice variable_writes };

    fn write_to(&self, hasher: &mut Sha256) {
        write_items(self.as_slice(), hasher);
    }
}

impl Written for Sharing {
    ghost writes = { sharing_writes };

    fn write_to(&self, hasher: &mut Sha256) {
        let place: u8 = match self {
            Sharing::Shared => 0,
            Sharing::Private => 1,
            Sharing::Locked => 2,
        };
        place.write_to(hasher);
    }
}

impl Written for CacheUse {
    ghost writes = { cache_writes };

    fn write_to(&self, hasher: &mut Sha256) {
        self.id.write_to(hasher);
        self.sharing.write_to(hasher);
        self.target.write_to(hasher);
    }
}

impl Written for Bind {
    ghost writes = { bind_writes };

    fn write_to(&self, hasher: &mut Sha256) {
        self.rw.write_to(hasher);
        self.source.write_to(hasher);
        self.target.write_to(hasher);
    }
}

impl Written for Exec {
    ghost writes = { command_writes };

    fn write_to(&self, hasher: &mut Sha256) {
        self.binds.write_to(hasher);
        self.caches.write_to(hasher);
        self.dir.write_to(hasher);
        self.env.write_to(hasher);
        self.user.write_to(hasher);
        self.words.write_to(hasher);
    }
}

impl Written for Name {
    ghost writes = { str_writes };

    fn write_to(&self, hasher: &mut Sha256) {
        self.as_text().write_to(hasher);
    }
}

impl Written for Content {
    ghost writes = { content_writes };

    fn write_to(&self, hasher: &mut Sha256) {
        let bytes = self.as_slice();
        bytes.len().write_to(hasher);
        write(hasher, bytes);
    }
}

impl<T: Written> Written for Option<T> {
    ghost writes = { option_writes T.writes };

    fn write_to(&self, hasher: &mut Sha256) {
        match self {
            None => 0_u8.write_to(hasher),
            Some(value) => {
                1_u8.write_to(hasher);
                value.write_to(hasher);
            }
        }
    }
}

impl Written for Mode {
    ghost writes = { u16_writes };

    fn write_to(&self, hasher: &mut Sha256) {
        self.bits().write_to(hasher);
    }
}

impl Written for Owner {
    ghost writes = { owner_writes };

    fn write_to(&self, hasher: &mut Sha256) {
        self.user.write_to(hasher);
        self.group.write_to(hasher);
    }
}

impl Written for CopyOptions {
    ghost writes = { copy_options_writes };

    fn write_to(&self, hasher: &mut Sha256) {
        self.into.write_to(hasher);
        self.owner.write_to(hasher);
        self.mode.write_to(hasher);
    }
}

impl Written for FileSource {
    ghost writes = { file_source_writes };

    fn write_to(&self, hasher: &mut Sha256) {
        match self {
            FileSource::Pattern(text) => {
                0_u8.write_to(hasher);
                text.write_to(hasher);
            }
            FileSource::Data(name, content) => {
                1_u8.write_to(hasher);
                name.write_to(hasher);
                content.write_to(hasher);
            }
        }
    }
}

impl Written for CopyFiles {
    ghost writes = { copy_writes };

    fn write_to(&self, hasher: &mut Sha256) {
        self.sources.write_to(hasher);
        self.dest.write_to(hasher);
        self.options.write_to(hasher);
    }
}

impl Written for Source {
    ghost writes = { source_writes };

    fn write_to(&self, hasher: &mut Sha256) {
        match self {
            Source::Scratch => 0_u8.write_to(hasher),
            Source::Context => 1_u8.write_to(hasher),
            Source::Image(name) => {
                2_u8.write_to(hasher);
                name.write_to(hasher);
            }
        }
    }
}

impl Written for Op {
    ghost writes = { operation_writes };

    fn write_to(&self, hasher: &mut Sha256) {
        match self {
            Op::Source(source) => {
                0_u8.write_to(hasher);
                source.write_to(hasher);
            }
            Op::Exec(exec) => {
                1_u8.write_to(hasher);
                exec.write_to(hasher);
            }
            Op::Copy(files) => {
                2_u8.write_to(hasher);
                files.write_to(hasher);
            }
            Op::MakeDirs(path) => {
                3_u8.write_to(hasher);
                path.write_to(hasher);
            }
            Op::Merge => 4_u8.write_to(hasher),
        }
    }
}
