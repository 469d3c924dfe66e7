ghost use Rattle.std.specs.Prelude.{◌≡◌, ◌↔◌, ◌<◌, ℕ, Some, length, get_or, slice_get, IsTrue, IfOk, IfSome, IfNone};
ghost use Rattle.memo.specs.declared.step.Step.{Step as StepValue};
ghost use Rattle.memo.specs.Memo.{Has};
ghost use Rattle.memo.specs.PrivateGeneration.{tree_at, trees_at, entries_at, AreAt, AreBelow, IsPlaced, ArePlaced, IsFor, Stands, Tells, step_of};
ghost use Rattle.memo.specs.PrivateSought.{inputs_of};

use crate::Hit;
use crate::number::{Age, known_at};
use crate::sought::Sought;
use llb::Op;
use plain::{Exact, Items, Memory};
use std::alloc::Global;
use trees::Tree;

/// How many trees are walked, at most, to find the number of one.
const MOST_WALKS: u32 = 4;

/// So many entries a tree has at most that is compared with others. Trees share folders, so a small one may have more than anybody can wait for.
const MOST_ENTRIES: usize = 16_777_216;

/// An entry, with the numbers of its trees in place of these.
#[derive(Drop)]
pub(crate) struct Step {
    pub op: Op,
    pub inputs: Items<usize>,
    pub tree: usize,
}

impl Step {
    /// The step of a copy of the operation.
    pub(crate) fn of(
        alloc: Global,
        op: &Op,
        inputs: Items<usize>,
        tree: usize,
    ) -> Result<Step, Memory>
        ensures { IfOk result (λ step. step ≡ record { op = op.now; inputs = inputs; tree = tree }) }
    {
        match op.copy(alloc) {
            Ok(op) => Ok(Step { op, inputs, tree }),
            Err(memory) => {
                drop(inputs);
                Err(memory)
            }
        }
    }
}

/// What is kept for an operation on these trees, among the steps of these numbers.
///
/// A tree whose number is known is compared by its number. Another one is compared by all that it has if `walks`, and else it counts as another tree: so
/// who finds nothing without a walk may look for it once more.
pub(crate) fn find_hit<'a>(
    kept: &'a [Tree],
    steps: &'a [Step],
    numbers: &[usize],
    sought: &Sought,
    age: Age,
    walks: bool,
) -> Option<Hit<'a>>
    requires placed { ArePlaced (length kept.now) steps.now }
    requires known { Tells age kept.now sought.now.known.now (inputs_of sought.now) }
    ensures found { IfSome result (λ hit. Has (entries_at kept.now steps.now) sought.now.op.now (inputs_of sought.now) hit.tree.now) }
    ensures age { IfSome result (λ hit. hit.age ≡ age) }
    ensures number { IfSome result (λ hit. slice_get kept.now hit.number ≡ Some hit.tree.now) }
    ensures inputs { IfSome result (λ hit. AreAt kept.now hit.inputs.now (inputs_of sought.now)) }
    ensures none { IsTrue walks → IfNone result ((k : ℕ) (step : StepValue) → k < length numbers.now → slice_get steps.now (get_or numbers.now k 0) ≡ Some step
        → ¬ IsFor kept.now sought.now.op.now (inputs_of sought.now) step) }
{
    match find_step(kept, steps, numbers, sought, age, walks) {
        None => None,
        Some(step) => Some(hit_of(kept, step, age)),
    }
}

/// What a step is kept for, with its tree.
fn hit_of<'a>(kept: &'a [Tree], step: &'a Step, age: Age) -> Hit<'a>
    requires { IsPlaced (length kept.now) step.now }
    ensures tree { slice_get kept.now result.number ≡ Some result.tree.now }
    ensures number { result.number ≡ step.now.tree }
    ensures inputs { result.inputs.now ≡ step.now.inputs }
    ensures age { result.age ≡ age }
{
    Hit {
        tree: &kept[step.tree],
        age,
        number: step.tree,
        inputs: step.inputs.as_slice(),
    }
}

/// The step that is kept for an operation on these trees, among those of these numbers. If it doesn't walk, it may miss one.
fn find_step<'a>(
    kept: &[Tree],
    steps: &'a [Step],
    numbers: &[usize],
    sought: &Sought,
    age: Age,
    walks: bool,
) -> Option<&'a Step>
    requires placed { ArePlaced (length kept.now) steps.now }
    requires known { Tells age kept.now sought.now.known.now (inputs_of sought.now) }
    ensures stands { IfSome result (λ step. Stands steps.now step.now) }
    ensures found { IfSome result (λ step. IsFor kept.now sought.now.op.now (inputs_of sought.now) step.now) }
    ensures none { IsTrue walks → IfNone result ((k : ℕ) (step : StepValue) → k < length numbers.now → slice_get steps.now (get_or numbers.now k 0) ≡ Some step
        → ¬ IsFor kept.now sought.now.op.now (inputs_of sought.now) step) }
{
    for number in numbers {
        if let Some(step) = steps.get(*number) {
            if is_for(kept, step, sought, age, walks) {
                return Some(step);
            }
        }
    }
    None
}

/// Whether a step is kept for an operation on these trees.
fn is_for(kept: &[Tree], step: &Step, sought: &Sought, age: Age, walks: bool) -> bool
    requires placed { IsPlaced (length kept.now) step.now }
    requires known { Tells age kept.now sought.now.known.now (inputs_of sought.now) }
    ensures is { IsTrue result → IsFor kept.now sought.now.op.now (inputs_of sought.now) step.now }
    ensures is_not { IsTrue walks → IsFor kept.now sought.now.op.now (inputs_of sought.now) step.now → IsTrue result }
{
    let inputs = step.inputs.as_slice();
    // Numbers are compared sooner than operations, and under one key the operations are mostly equal.
    are_at(kept, inputs, sought, age, walks) && step.op.same(sought.op)
}

/// Whether the trees of these numbers are those that are asked for.
fn are_at(kept: &[Tree], numbers: &[usize], sought: &Sought, age: Age, walks: bool) -> bool
    requires below { AreBelow (length kept.now) numbers.now }
    requires known { Tells age kept.now sought.now.known.now (inputs_of sought.now) }
    ensures are { IsTrue result → trees_at kept.now numbers.now ≡ inputs_of sought.now }
    ensures are_not { IsTrue walks → trees_at kept.now numbers.now ≡ inputs_of sought.now → IsTrue result }
{
    if numbers.len() != sought.len() {
        return false;
    }
    for (place, number) in numbers.iter().enumerate() {
        if !is_at(
            kept,
            *number,
            sought.at(place),
            known_at(sought.known, place, age),
            walks,
        ) {
            return false;
        }
    }
    true
}

/// Whether the tree of a number is this one, whose number may be known.
fn is_at(kept: &[Tree], number: usize, tree: &Tree, known: Option<usize>, walks: bool) -> bool
    requires below { number < length kept.now }
    requires known { known ≡ Some number → slice_get kept.now number ≡ Some tree.now }
    ensures is { IsTrue result → tree_at kept.now number ≡ tree.now }
    ensures is_not { IsTrue walks → tree_at kept.now number ≡ tree.now → IsTrue result }
{
    if let Some(known) = known {
        if known == number {
            return true;
        }
    }
    walks && kept[number].same(tree)
}

/// The number of the tree that an operation gave on the trees of these numbers, by the steps of these numbers. Nothing is walked.
pub(crate) fn result_number(
    steps: &[Step],
    numbers: &[usize],
    op: &Op,
    inputs: &[usize],
) -> Option<usize>
    ensures { IfSome result (λ number. Stands steps.now (step_of op.now inputs.now number)) }
{
    match find_kept(steps, numbers, op, inputs) {
        Some(step) => Some(step.tree),
        None => None,
    }
}

/// The step of an operation on the trees of these numbers, among those of these numbers.
fn find_kept<'a>(
    steps: &'a [Step],
    numbers: &[usize],
    op: &Op,
    inputs: &[usize],
) -> Option<&'a Step>
    ensures stands { IfSome result (λ step. Stands steps.now step.now) }
    ensures op { IfSome result (λ step. step.now.op ≡ op.now) }
    ensures inputs { IfSome result (λ step. step.now.inputs ≡ inputs.now) }
{
    for number in numbers {
        if let Some(step) = steps.get(*number) {
            if step.inputs.as_slice() == inputs && step.op.same(op) {
                return Some(step);
            }
        }
    }
    None
}

/// The number of a tree among those that an operation was given at a place, by the steps of these numbers. Of those it walks a few at most, the latest
/// first, and none if the tree is too large for that.
pub(crate) fn input_number(
    alloc: Global,
    kept: &[Tree],
    steps: &[Step],
    numbers: &[usize],
    op: &Op,
    place: usize,
    tree: &Tree,
) -> Option<usize>
    ensures { IfSome result (λ number. slice_get kept.now number ≡ Some tree.now) }
{
    let mut walked: Option<usize> = None;
    let mut left = MOST_WALKS;
    for number in numbers.iter().rev() {
        if left == 0 {
            break;
        }
        let Some(given) = given_at(steps, *number, op, place) else {
            continue;
        };
        if walked == Some(given) {
            continue;
        }
        if walked.is_none() && !is_small(alloc, tree) {
            break;
        }
        if is_kept_at(kept, given, tree) {
            return Some(given);
        }
        walked = Some(given);
        left -= 1;
    }
    None
}

/// The number of the tree that a step's operation was given at a place, if the step is one of this operation.
fn given_at(steps: &[Step], number: usize, op: &Op, place: usize) -> Option<usize> {
    let Some(step) = steps.get(number) else {
        return None;
    };
    match step.inputs.as_slice().get(place) {
        Some(given) => { if step.op.same(op) { Some(*given) } else { None } }
        None => None,
    }
}

/// The number of a tree among those of these numbers. Of those it walks a few at most, the latest first, and none if the tree is too large for that.
pub(crate) fn number_among(
    alloc: Global,
    kept: &[Tree],
    numbers: &[usize],
    tree: &Tree,
) -> Option<usize>
    ensures { IfSome result (λ number. slice_get kept.now number ≡ Some tree.now) }
{
    if numbers.is_empty() || !is_small(alloc, tree) {
        return None;
    }
    let mut left = MOST_WALKS;
    for number in numbers.iter().rev() {
        if left == 0 {
            break;
        }
        if is_kept_at(kept, *number, tree) {
            return Some(*number);
        }
        left -= 1;
    }
    None
}

/// Whether a tree has no more entries than can be gone through, which it takes a little memory to know.
fn is_small(alloc: Global, tree: &Tree) -> bool {
    let Ok(mut walk) = tree.walk(alloc) else {
        return false;
    };
    let mut left = MOST_ENTRIES;
    while left > 0 {
        let passed = walk.pass_up_to(left);
        if passed == 0 {
            return true;
        }
        left -= passed;
    }
    false
}

/// Whether the tree of a number is this one.
fn is_kept_at(kept: &[Tree], number: usize, tree: &Tree) -> bool
    ensures { IsTrue result → slice_get kept.now number ≡ Some tree.now }
{
    match kept.get(number) {
        Some(other) => other.same(tree),
        None => false,
    }
}
