// Laws of a run's mounts, each the contract of a function that does nothing.

ghost use Rattle.std.specs.Prelude.{◌≡◌, ◌↔◌, ℕ, true, List};
ghost use Rattle.runs.specs.Run.{mounts_fit, ids_differ, MountsFit, IdsDiffer};

/// The tests on a run's mounts say of each two targets, and of each two ids, what has to hold of them.
pub fn mounts_are_tested_in_pairs()
    ensures targets { (targets : List (List (List ℕ))) → (mounts_fit targets ≡ true) ↔ MountsFit targets }
    ensures ids { (ids : List (List ℕ)) → (ids_differ ids ≡ true) ↔ IdsDiffer ids }
{}
