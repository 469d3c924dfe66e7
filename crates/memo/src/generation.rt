ghost use Rattle.std.specs.Prelude.{◌≡◌, ◌<◌, ◌++◌, ◌∷◌, [], length, map, slice_get, Some, IsTrue, IfOk, IfSome, IfNone, OnOk, OnErr};
ghost use Rattle.memo.specs.Key.{key_of};
ghost use Rattle.memo.specs.Memo.{entry_of, Has, Lacks};
ghost use Rattle.memo.specs.PrivateGeneration.{tree_at, trees_at, entry_at, entries_at, AreBelow, IsPlaced, ArePlaced, IsIndexed, IsMore, AddsTo, AreAt, Tells};
ghost use Rattle.memo.specs.PrivateSought.{inputs_of};

use crate::Hit;
use crate::index::Index;
use crate::number::Age;
use crate::sought::Sought;
use crate::step::{Step, find_hit, input_number, number_among, result_number};
use llb::Op;
use plain::{Exact, Items, Memory};
use std::alloc::Global;
use std::marker::Model;
use trees::Tree;

/// The entries of one generation of a memo, and the trees that it keeps, by their numbers. An entry is kept as a step over these.
#[derive(Drop)]
pub(crate) struct Generation {
    trees: Vec<Tree>,
    steps: Vec<Step>,
    // finds a step without comparing with all; contracts don't see it
    index: Index,
    // the numbers of trees that sources had, by the sources' keys; contracts don't see it
    sources: Index,
}

impl Model for Generation {
    ghost use Rattle.std.specs.Prelude.{length};
    ghost use Rattle.memo.specs.Memo.{GenerationValue, generation_code};
    ghost use Rattle.memo.specs.PrivateGeneration.{entries_at, ArePlaced, IsIndexed};

    ghost Value = { GenerationValue };

    ghost coded = { generation_code };

    ghost view = { λ g. record { entries = entries_at g.trees.items g.steps.items; trees = g.trees.items } };

    ghost invariant = { λ g. ArePlaced (length g.trees.items) g.steps.items × IsIndexed g.steps.items g.index };
}

impl Generation {
    /// No entry and no tree. It takes no memory.
    pub(crate) fn new(alloc: Global) -> Generation
        ensures { result ≡ record { entries = []; trees = [] } }
    {
        Generation {
            trees: Vec::new(alloc),
            steps: Vec::new(alloc),
            index: Index::new(alloc),
            sources: Index::new(alloc),
        }
    }

    /// How many entries there are.
    pub(crate) fn len(&self) -> usize
        ensures { result ≡ length self.now.entries }
    {
        self.steps.len()
    }

    /// The trees that it keeps, by their numbers.
    pub(crate) fn trees(&self) -> &[Tree]
        ensures { result.now ≡ self.now.trees }
    {
        self.trees.as_slice()
    }

    /// What is there of an operation on these trees, as `find_hit` finds it. The key is the operation's. It takes no memory.
    pub(crate) fn find(&self, key: u64, sought: &Sought, age: Age, walks: bool) -> Option<Hit<'_>>
        requires key { key ≡ key_of sought.now.op.now }
        requires known { Tells age self.now.trees sought.now.known.now (inputs_of sought.now) }
        ensures found { IfSome result (λ hit. Has self.now.entries sought.now.op.now (inputs_of sought.now) hit.tree.now) }
        ensures age { IfSome result (λ hit. hit.age ≡ age) }
        ensures number { IfSome result (λ hit. slice_get self.now.trees hit.number ≡ Some hit.tree.now) }
        ensures inputs { IfSome result (λ hit. AreAt self.now.trees hit.inputs.now (inputs_of sought.now)) }
        ensures none { IsTrue walks → IfNone result (Lacks self.now.entries sought.now.op.now (inputs_of sought.now)) }
    {
        find_hit(
            self.trees.as_slice(),
            self.steps.as_slice(),
            self.index.under(key),
            sought,
            age,
            walks,
        )
    }

    /// The number of the tree that an operation, whose key this is, gave on the trees of these numbers. Nothing is walked, and it takes no memory.
    pub(crate) fn find_kept(&self, key: u64, op: &Op, inputs: &[usize]) -> Option<usize>
        ensures below { IfSome result (λ number. number < length self.now.trees) }
        ensures found { IfSome result (λ number. Has self.now.entries op.now (trees_at self.now.trees inputs.now) (tree_at self.now.trees number)) }
    {
        result_number(self.steps.as_slice(), self.index.under(key), op, inputs)
    }

    /// The number of a tree among those that an operation, whose key this is, was given at a place, as `input_number` finds it.
    pub(crate) fn input_number(
        &self,
        alloc: Global,
        key: u64,
        op: &Op,
        place: usize,
        tree: &Tree,
    ) -> Option<usize>
        ensures { IfSome result (λ number. slice_get self.now.trees number ≡ Some tree.now) }
    {
        input_number(
            alloc,
            self.trees.as_slice(),
            self.steps.as_slice(),
            self.index.under(key),
            op,
            place,
            tree,
        )
    }

    /// The number of a tree among those that are kept as a source's, whose operation has this key, as `number_among` finds it.
    pub(crate) fn source_number(&self, alloc: Global, key: u64, tree: &Tree) -> Option<usize>
        ensures { IfSome result (λ number. slice_get self.now.trees number ≡ Some tree.now) }
    {
        number_among(alloc, self.trees.as_slice(), self.sources.under(key), tree)
    }

    /// Keeps a copy of a tree as a source's, whose operation has this key, and gives its number. After `Memory` nothing has changed.
    pub(crate) fn keep_source(
        &mut self,
        alloc: Global,
        key: u64,
        tree: &Tree,
    ) -> Result<usize, Memory>
        ensures number { IfOk result (λ number. number ≡ length self.old.trees) }
        ensures ok { OnOk result (self.new ≡ record { entries = self.old.entries; trees = self.old.trees ++ tree.now ∷ [] }) }
        ensures err { OnErr result (self.new ≡ self.old) }
    {
        let number = keep(alloc, &mut self.trees, tree)?;
        // If there is no memory for it, the tree isn't found as the source's.
        let _entered = self.sources.enter(alloc, key, number);
        Ok(number)
    }

    /// Keeps a copy of a tree, and gives its number. After `Memory` nothing has changed.
    pub(crate) fn keep(&mut self, alloc: Global, tree: &Tree) -> Result<usize, Memory>
        ensures number { IfOk result (λ number. number ≡ length self.old.trees) }
        ensures ok { OnOk result (self.new ≡ record { entries = self.old.entries; trees = self.old.trees ++ tree.now ∷ [] }) }
        ensures err { OnErr result (self.new ≡ self.old) }
    {
        keep(alloc, &mut self.trees, tree)
    }

    /// Adds the entry of an operation, whose key this is, on these trees, and keeps copies of them all. After `Memory` nothing has changed.
    pub(crate) fn add(
        &mut self,
        alloc: Global,
        key: u64,
        op: &Op,
        inputs: &[&Tree],
        tree: &Tree,
    ) -> Result<(), Memory>
        requires { key ≡ key_of op.now }
        ensures ok { OnOk result (AddsTo self.old self.new (entry_of op.now (map (λ lent. lent.now) inputs.now) tree.now)) }
        ensures err { OnErr result (self.new ≡ self.old) }
    {
        let count = self.trees.len();
        let added = add(
            alloc,
            &mut self.trees,
            &mut self.steps,
            &mut self.index,
            key,
            op,
            inputs,
            tree,
        );
        match added {
            Ok(()) => Ok(()),
            Err(memory) => {
                self.trees.truncate(count);
                Err(memory)
            }
        }
    }

    /// Adds the entry of an operation, whose key this is, over trees that are kept. After `Memory` nothing has changed.
    pub(crate) fn enter(
        &mut self,
        alloc: Global,
        key: u64,
        op: &Op,
        inputs: Items<usize>,
        tree: usize,
    ) -> Result<(), Memory>
        requires key { key ≡ key_of op.now }
        requires inputs { AreBelow (length self.old.trees) inputs }
        requires tree { tree < length self.old.trees }
        ensures ok { OnOk result (self.new ≡ record { entries = self.old.entries ++ entry_of op.now (trees_at self.old.trees inputs) (tree_at self.old.trees tree) ∷ []; trees = self.old.trees }) }
        ensures err { OnErr result (self.new ≡ self.old) }
    {
        let step = Step::of(alloc, op, inputs, tree)?;
        push(alloc, &mut self.steps, &mut self.index, key, step)
    }
}

/// Adds a copy of a tree, and gives its number. After `Memory` nothing has changed.
fn keep(alloc: Global, trees: &mut Vec<Tree>, tree: &Tree) -> Result<usize, Memory>
    ensures number { IfOk result (λ number. number ≡ length trees.old.items) }
    ensures ok { OnOk result (trees.new.items ≡ trees.old.items ++ tree.now ∷ []) }
    ensures err { OnErr result (trees.new.items ≡ trees.old.items) }
{
    let number = trees.len();
    trees.push(tree.copy(alloc)?)?;
    Ok(number)
}

/// Adds the step of an operation, whose key this is, on these trees, and keeps copies of them all. After `Memory` the same steps are there, and some of the
/// trees may be kept.
fn add(
    alloc: Global,
    trees: &mut Vec<Tree>,
    steps: &mut Vec<Step>,
    index: &mut Index,
    key: u64,
    op: &Op,
    inputs: &[&Tree],
    tree: &Tree,
) -> Result<(), Memory>
    requires key { key ≡ key_of op.now }
    requires placed { ArePlaced (length trees.old.items) steps.old.items }
    requires indexed { IsIndexed steps.old.items index.old }
    ensures more { IsMore trees.old.items trees.new.items }
    ensures ok { OnOk result (entries_at trees.new.items steps.new.items ≡ entries_at trees.old.items steps.old.items ++ entry_of op.now (map (λ lent. lent.now) inputs.now) tree.now ∷ []) }
    ensures placed { OnOk result (ArePlaced (length trees.new.items) steps.new.items) }
    ensures err { OnErr result (steps.new.items ≡ steps.old.items) }
    ensures indexed { IsIndexed steps.new.items index.new }
{
    let step = kept_step(alloc, trees, op, inputs, tree)?;
    push(alloc, steps, index, key, step)
}

/// Keeps copies of trees, and gives the step of an operation that gave the last of them on the others. After `Memory` some may be kept.
fn kept_step(
    alloc: Global,
    trees: &mut Vec<Tree>,
    op: &Op,
    inputs: &[&Tree],
    tree: &Tree,
) -> Result<Step, Memory>
    ensures more { IsMore trees.old.items trees.new.items }
    ensures step { IfOk result (λ step. entry_at trees.new.items step ≡ entry_of op.now (map (λ lent. lent.now) inputs.now) tree.now) }
    ensures placed { IfOk result (IsPlaced (length trees.new.items)) }
    ensures op { IfOk result (λ step. step.op ≡ op.now) }
{
    let inputs = keep_all(alloc, trees, inputs)?;
    match keep(alloc, trees, tree) {
        Ok(tree) => Step::of(alloc, op, inputs, tree),
        Err(memory) => {
            drop(inputs);
            Err(memory)
        }
    }
}

/// Adds copies of trees, and gives their numbers. After `Memory` some may be there.
fn keep_all(alloc: Global, trees: &mut Vec<Tree>, added: &[&Tree]) -> Result<Items<usize>, Memory>
    ensures more { IsMore trees.old.items trees.new.items }
    ensures numbers { IfOk result (λ numbers. trees_at trees.new.items numbers ≡ map (λ lent. lent.now) added.now) }
    ensures below { IfOk result (AreBelow (length trees.new.items)) }
{
    let mut numbers = Vec::with_capacity(alloc, added.len())?;
    for tree in added {
        numbers.push(keep(alloc, trees, tree)?)?;
    }
    Ok(Items::from_vec(numbers))
}

/// Adds a step, whose operation has this key. After `Memory` the same steps are there.
fn push(
    alloc: Global,
    steps: &mut Vec<Step>,
    index: &mut Index,
    key: u64,
    step: Step,
) -> Result<(), Memory>
    requires key { key ≡ key_of step.op }
    requires indexed { IsIndexed steps.old.items index.old }
    ensures ok { OnOk result (steps.new.items ≡ steps.old.items ++ step ∷ []) }
    ensures err { OnErr result (steps.new.items ≡ steps.old.items) }
    ensures indexed { IsIndexed steps.new.items index.new }
{
    let number = steps.len();
    let Ok(()) = steps.reserve(1) else {
        drop(step);
        return Err(Memory);
    };
    let Ok(()) = index.enter(alloc, key, number) else {
        drop(step);
        return Err(Memory);
    };
    steps.push(step).unwrap();
    Ok(())
}
