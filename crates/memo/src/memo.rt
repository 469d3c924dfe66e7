ghost use Rattle.std.specs.Prelude.{◌≡◌, ◌+◌, true, false, Some, length, map, slice_get, IfOk, IfSome, IfNone, OnOk, OnErr, IsTrue};
ghost use Rattle.std.specs.Option.{option_map};
ghost use Rattle.trees.specs.TreeMap.{TreeMap};
ghost use Rattle.memo.specs.Content.{capped, trees_bytes};
ghost use Rattle.memo.specs.Kept.{Keeps, KeepsAll, kept_tree, kept_trees};
ghost use Rattle.memo.specs.Key.{key_of};
ghost use Rattle.memo.specs.Memo.{entry_of, new_memo, no_generation, with_kept, Has, IsLawful, AreLawful, Holds, Adds};
ghost use Rattle.memo.specs.Numbers.{generation_of, numbered, tree_numbered, AreKnown, HaveNumbers};
ghost use Rattle.memo.specs.PrivateSought.{inputs_of};

use crate::Hit;
use crate::content::count_trees;
use crate::generation::Generation;
use crate::key::key_of;
use crate::number::{Age, TreeNumber};
use crate::sought::Sought;
use executor::Executor;
use llb::Op;
use plain::{Items, Memory};
use std::alloc::Global;
use std::marker::Model;
use std::mem;
use trees::Tree;

/// What operations gave under one executor, which it borrows for as long as it is kept. The type keeps that each entry is what its operation gives
/// under this executor, whatever the sources of a build are: so what is found serves every plan.
///
/// It has no limit of its own. Whoever keeps one asks what it holds (`recent_len`, `earlier_len`, `content_bytes`) and calls `forget`.
#[derive(Drop)]
pub struct Memo<'a, E: Executor> {
    executor: &'a E,
    /// What was added since the last call of `forget`.
    recent: Generation,
    /// What was added between that call and the one before.
    earlier: Generation,
    // so nothing needs be added
    is_for_one_build: bool,
}

impl<'a, E: Executor> Model for Memo<'a, E> {
    ghost use Rattle.memo.specs.Memo.{MemoValue, memo_code, AreLawful};

    ghost Value = { MemoValue E };

    ghost coded = { memo_code E.code };

    ghost view = { λ m. record { executor = m.executor.now; recent = m.recent; earlier = m.earlier; is_for_one_build = m.is_for_one_build } };

    ghost invariant = { λ m. AreLawful (E.out m.executor.now) m.recent.entries × AreLawful (E.out m.executor.now) m.earlier.entries };
}

impl<'a, E: Executor> Memo<'a, E> {
    /// A memo of an executor, without an entry. It takes no memory.
    pub fn new(alloc: Global, executor: &'a E) -> Memo<'a, E>
        ensures { result ≡ new_memo executor.now false }
    {
        Memo {
            executor,
            recent: Generation::new(alloc),
            earlier: Generation::new(alloc),
            is_for_one_build: false,
        }
    }

    /// The same for who builds once and drops it: a solve adds nothing to it, since nobody would ask.
    pub fn for_one_build(alloc: Global, executor: &'a E) -> Memo<'a, E>
        ensures { result ≡ new_memo executor.now true }
    {
        Memo {
            executor,
            recent: Generation::new(alloc),
            earlier: Generation::new(alloc),
            is_for_one_build: true,
        }
    }

    /// Whether it was made by `for_one_build`.
    pub fn is_for_one_build(&self) -> bool
        ensures { result ≡ self.now.is_for_one_build }
    {
        self.is_for_one_build
    }

    /// The executor that it is of.
    pub fn executor(&self) -> &'a E
        ensures value { result.now ≡ self.now.executor }
        ensures recent { AreLawful (E.out self.now.executor) self.now.recent.entries }
        ensures earlier { AreLawful (E.out self.now.executor) self.now.earlier.entries }
    {
        self.executor
    }

    /// How many entries were added since the last call of `forget`.
    pub fn recent_len(&self) -> usize
        ensures { result ≡ length self.now.recent.entries }
    {
        self.recent.len()
    }

    /// How many entries were added between the last call of `forget` and the one before.
    pub fn earlier_len(&self) -> usize
        ensures { result ≡ length self.now.earlier.entries }
    {
        self.earlier.len()
    }

    /// The bytes of the files of all trees that it keeps, of each tree all its files; `usize::MAX` if they are more.
    ///
    /// A tree is kept for each entry, and for each tree that one was given and that wasn't kept before. Trees share files, and each counts them: so what is
    /// held in memory is at most this, and mostly much less. It walks all these trees, path by path: one that shares folders may have more paths than
    /// anybody can wait for.
    pub fn content_bytes(&self, alloc: Global) -> Result<usize, Memory>
        ensures { IfOk result (λ bytes. bytes ≡ capped (trees_bytes self.now.recent.trees + trees_bytes self.now.earlier.trees)) }
    {
        let bytes = count_trees(alloc, self.recent.trees(), 0)?;
        count_trees(alloc, self.earlier.trees(), bytes)
    }

    /// The tree that was added for an equal operation on equal trees; `None` exactly if there is none. It is what the operation gives on them, whatever
    /// the sources are. It takes no memory.
    pub fn find(&self, op: &Op, inputs: &[Tree]) -> Option<&Tree>
        ensures found { IfSome result (λ tree. Holds self.now op.now inputs.now tree.now) }
        ensures none { IfNone result ((tree : TreeMap) → ¬ Holds self.now op.now inputs.now tree) }
        ensures lawful { IfSome result (λ tree. IsLawful (E.out self.now.executor) (entry_of op.now inputs.now tree.now)) }
    {
        let _known = self.executor();
        let sought = Sought {
            op,
            listed: inputs,
            each: &[],
            known: &[],
        };
        match self.found(&sought) {
            Some(hit) => Some(hit.tree),
            None => None,
        }
    }

    /// The same of trees that are lent one by one, and it gives the numbers of all these trees. Of some of the inputs, by their places, the number may be
    /// known: such a one is compared by its number, and only another one by all that it has, unless the numbers alone tell. Equal inputs are found whether
    /// their numbers are known or not.
    ///
    /// So who keeps the numbers of what it found walks only trees that are new to it.
    pub fn find_known(
        &self,
        op: &Op,
        inputs: &[&Tree],
        known: &[Option<TreeNumber>],
    ) -> Option<Hit<'_>>
        requires { AreKnown self.now known.now (map (λ lent. lent.now) inputs.now) }
        ensures found { IfSome result (λ hit. Holds self.now op.now (map (λ lent. lent.now) inputs.now) hit.tree.now) }
        ensures number { IfSome result (λ hit. tree_numbered self.now (numbered hit.age hit.number) ≡ Some hit.tree.now) }
        ensures inputs { IfSome result (λ hit. HaveNumbers self.now hit.age hit.inputs.now (map (λ lent. lent.now) inputs.now)) }
        ensures none { IfNone result ((tree : TreeMap) → ¬ Holds self.now op.now (map (λ lent. lent.now) inputs.now) tree) }
        ensures lawful { IfSome result (λ hit. IsLawful (E.out self.now.executor) (entry_of op.now (map (λ lent. lent.now) inputs.now) hit.tree.now)) }
    {
        let _known = self.executor();
        let sought = Sought {
            op,
            listed: &[],
            each: inputs,
            known,
        };
        match self.found(&sought) {
            Some(hit) => Some(hit),
            None => None,
        }
    }

    /// What it has of what is asked for: first by numbers alone, and then by a walk.
    fn found(&self, sought: &Sought) -> Option<Hit<'_>>
        requires { AreKnown self.now sought.now.known.now (inputs_of sought.now) }
        ensures found { IfSome result (λ hit. Holds self.now sought.now.op.now (inputs_of sought.now) hit.tree.now) }
        ensures number { IfSome result (λ hit. tree_numbered self.now (numbered hit.age hit.number) ≡ Some hit.tree.now) }
        ensures inputs { IfSome result (λ hit. HaveNumbers self.now hit.age hit.inputs.now (inputs_of sought.now)) }
        ensures none { IfNone result ((tree : TreeMap) → ¬ Holds self.now sought.now.op.now (inputs_of sought.now) tree) }
    {
        let key = key_of(sought.op);
        match self.hit(key, sought, false) {
            Some(hit) => Some(hit),
            None => self.hit(key, sought, true),
        }
    }

    /// What it has for an operation, whose key this is, as `find_hit` finds it.
    fn hit(&self, key: u64, sought: &Sought, walks: bool) -> Option<Hit<'_>>
        requires key { key ≡ key_of sought.now.op.now }
        requires known { AreKnown self.now sought.now.known.now (inputs_of sought.now) }
        ensures found { IfSome result (λ hit. Holds self.now sought.now.op.now (inputs_of sought.now) hit.tree.now) }
        ensures number { IfSome result (λ hit. tree_numbered self.now (numbered hit.age hit.number) ≡ Some hit.tree.now) }
        ensures inputs { IfSome result (λ hit. HaveNumbers self.now hit.age hit.inputs.now (inputs_of sought.now)) }
        ensures none { IsTrue walks → IfNone result ((tree : TreeMap) → ¬ Holds self.now sought.now.op.now (inputs_of sought.now) tree) }
    {
        let recent = self.recent.find(key, sought, Age::Recent, walks);
        match recent {
            Some(hit) => Some(hit),
            None => self.earlier.find(key, sought, Age::Earlier, walks),
        }
    }
}

impl<'a, E: Executor> Memo<'a, E> {
    /// Adds what an operation gave on these trees, and keeps copies of them all. After `Memory` nothing has changed.
    pub fn add(
        &mut self,
        alloc: Global,
        op: &Op,
        inputs: &[&Tree],
        tree: &Tree,
    ) -> Result<(), Memory>
        requires { IsLawful (E.out self.old.executor) (entry_of op.now (map (λ lent. lent.now) inputs.now) tree.now) }
        ensures ok { OnOk result (Adds self.old self.new (entry_of op.now (map (λ lent. lent.now) inputs.now) tree.now)) }
        ensures err { OnErr result (self.new ≡ self.old) }
    {
        self.recent.add(alloc, key_of(op), op, inputs, tree)
    }

    /// Keeps a copy of a tree, and gives its number among those that were kept since the last call of `forget`. After `Memory` nothing has changed.
    pub fn keep(&mut self, alloc: Global, tree: &Tree) -> Result<usize, Memory>
        ensures number { IfOk result (λ number. number ≡ length self.old.recent.trees) }
        ensures ok { OnOk result (self.new ≡ with_kept self.old tree.now) }
        ensures err { OnErr result (self.new ≡ self.old) }
    {
        self.recent.keep(alloc, tree)
    }

    /// Adds what an operation gave, over trees that were kept since the last call of `forget`, by their numbers: so nothing of them is copied. After
    /// `Memory` nothing has changed.
    pub fn add_kept(
        &mut self,
        alloc: Global,
        op: &Op,
        inputs: Items<usize>,
        tree: usize,
    ) -> Result<(), Memory>
        requires inputs { KeepsAll self.old.recent inputs }
        requires tree { Keeps self.old.recent tree }
        requires lawful { IsLawful (E.out self.old.executor) (entry_of op.now (kept_trees self.old.recent inputs) (kept_tree self.old.recent tree)) }
        ensures ok { OnOk result (Adds self.old self.new (entry_of op.now (kept_trees self.old.recent inputs) (kept_tree self.old.recent tree))) }
        ensures err { OnErr result (self.new ≡ self.old) }
    {
        self.recent.enter(alloc, key_of(op), op, inputs, tree)
    }

    /// Forgets what was added before the last such call; of it stays what was added again since. It takes no memory.
    pub fn forget(&mut self, alloc: Global)
        ensures { self.new ≡ record self.old { recent = no_generation; earlier = self.old.recent } }
    {
        self.earlier = mem::replace(&mut self.recent, Generation::new(alloc));
    }
}

/// What is found by numbers. A number is that of a tree in one of the two generations, until `forget` is called.
impl<'a, E: Executor> Memo<'a, E> {
    /// The number of the tree that an operation gave on the trees of these numbers, all of them in this generation. Nothing is walked, and it takes no
    /// memory. `None` doesn't say that there is no such entry: equal trees may have several numbers.
    pub fn find_kept(&self, age: Age, op: &Op, inputs: &[usize]) -> Option<usize>
        ensures keeps { IfSome result (Keeps (generation_of self.now age)) }
        ensures found { IfSome result (λ number. Has (generation_of self.now age).entries op.now (kept_trees (generation_of self.now age) inputs.now) (kept_tree (generation_of self.now age) number)) }
        ensures lawful { IfSome result (λ number. IsLawful (E.out self.now.executor) (entry_of op.now (kept_trees (generation_of self.now age) inputs.now) (kept_tree (generation_of self.now age) number))) }
    {
        let _known = self.executor();
        self.generation(age).find_kept(key_of(op), op, inputs)
    }

    /// The tree of a number, if there is one.
    pub fn tree(&self, age: Age, number: usize) -> Option<&Tree>
        ensures { option_map (λ tree. tree.now) result ≡ slice_get (generation_of self.now age).trees number }
    {
        self.generation(age).trees().get(number)
    }

    /// The number of a tree, if it is among the last ones that were kept as this source's (`keep_source`). A few of those are walked at most. Of a tree
    /// that has more than 16,777,216 entries, since it shares folders, and if there is no memory for a walk, no number is found.
    pub fn source_number(&self, alloc: Global, age: Age, source: &Op, tree: &Tree) -> Option<usize>
        ensures { IfSome result (λ number. slice_get (generation_of self.now age).trees number ≡ Some tree.now) }
    {
        self.generation(age)
            .source_number(alloc, key_of(source), tree)
    }

    /// The number of a tree, if it is among the last ones that an operation was given at this place among its inputs. A few of those are walked at most,
    /// and none if the tree is too large for `source_number`.
    pub fn input_number(
        &self,
        alloc: Global,
        age: Age,
        op: &Op,
        place: usize,
        tree: &Tree,
    ) -> Option<usize>
        ensures { IfSome result (λ number. slice_get (generation_of self.now age).trees number ≡ Some tree.now) }
    {
        self.generation(age)
            .input_number(alloc, key_of(op), op, place, tree)
    }

    /// One of the two generations.
    fn generation(&self, age: Age) -> &Generation
        ensures { result.now ≡ generation_of self.now age }
    {
        match age {
            Age::Recent => &self.recent,
            Age::Earlier => &self.earlier,
        }
    }

    /// The same as `keep`, of a tree that a build was given as a source, by which operation it is known there. No entry is made of it, and nobody is given
    /// the tree: who has an equal one finds its number (`source_number`).
    pub fn keep_source(&mut self, alloc: Global, source: &Op, tree: &Tree) -> Result<usize, Memory>
        ensures number { IfOk result (λ number. number ≡ length self.old.recent.trees) }
        ensures ok { OnOk result (self.new ≡ with_kept self.old tree.now) }
        ensures err { OnErr result (self.new ≡ self.old) }
    {
        self.recent.keep_source(alloc, key_of(source), tree)
    }
}
