// The operations of a definition, each once.

ghost use Rattle.std.specs.Prelude.{◌≡◌, ◌++◌, ◌∷◌, [], None, Some, IfOk, OnOk, OnErr, bytes_eq, option_copied};
ghost use Rattle.std.specs.Option.{option_map};
ghost use Rattle.exported.specs.Places.{digest_of};
ghost use Rattle.exported.specs.Exporting.{op_at};
ghost use Rattle.exported.specs.PrivateExporting.{number_at};

use plain::{Bytes, Exact, Items, Memory, Text};
use std::alloc::Global;
use std::collections::BTreeMap;
use std::marker::Model;

/// The bytes of operations, of which no two have one digest, found by their digests without comparing with all.
#[derive(Drop)]
pub(crate) struct Ops {
    bytes: Vec<Bytes>,
    numbers: BTreeMap<Text, usize>,
}

impl Model for Ops {
    ghost use Rattle.std.specs.Prelude.{List, ℕ};
    ghost use Rattle.std.specs.Coded.{coded_list, coded_ℕ};
    ghost use Rattle.exported.specs.PrivateExporting.{AreNumbered};

    ghost Value = { List (List ℕ) };

    ghost coded = { coded_list (coded_list coded_ℕ) };

    ghost view = { λ o. o.bytes.items };

    ghost invariant = { λ o. AreNumbered o.bytes.items o.numbers.entries };
}

impl Ops {
    /// No operation yet. It takes no memory.
    pub(crate) fn new(alloc: Global) -> Ops
        ensures { result ≡ [] }
    {
        Ops {
            bytes: Vec::new(alloc),
            numbers: BTreeMap::new(alloc),
        }
    }

    /// The number of the operation that has this digest.
    fn number(&self, digest: &Text) -> Option<usize>
        ensures { result ≡ number_at self.now digest.now }
    {
        self.numbers.get(digest).copied()
    }

    /// Whether the operation that has this digest has these bytes; none where no operation has it.
    #[tactic(auto, using(crate::proofs::OpsFacts::op_numbered))]
    pub(crate) fn is_same(&self, digest: &Text, bytes: &Bytes) -> Option<bool>
        ensures { result ≡ option_map (λ other. bytes_eq other bytes.now) (op_at self.now digest.now) }
    {
        match self.number(digest) {
            None => None,
            Some(number) => match self.bytes.get(number) {
                None => None,
                Some(other) => Some(other.as_slice() == bytes.as_slice()),
            },
        }
    }

    /// Adds an operation whose digest none has. After `Memory` the operations are as they were.
    pub(crate) fn push(&mut self, alloc: Global, digest: &Text, bytes: Bytes) -> Result<(), Memory>
        requires digest { digest.now ≡ digest_of bytes }
        requires fresh { op_at self.old digest.now ≡ None }
        ensures ok { OnOk result (self.new ≡ self.old ++ bytes ∷ []) }
        ensures err { OnErr result (self.new ≡ self.old) }
    {
        let number = self.bytes.len();
        self.bytes.reserve(1)?;
        self.numbers.insert(digest.copy(alloc)?, number)?;
        self.bytes.push(bytes).unwrap();
        Ok(())
    }

    /// The bytes of the operations.
    pub(crate) fn into_items(self) -> Items<Bytes>
        ensures { result ≡ self }
    {
        let Ops { bytes, numbers: _ } = self;
        Items::from_vec(bytes)
    }
}
