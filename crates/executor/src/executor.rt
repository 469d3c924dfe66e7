ghost use Rattle.std.specs.Prelude.{◌≡◌, ◌<◌, ℕ, length, vec_len, IsTrue, IfOk, OnOk};
ghost use Rattle.runs.specs.Run.{fits_request};

use crate::{Outcome, Request};
use plain::Memory;
use std::alloc::Global;
use std::marker::Sync;
use trees::Tree;

/// What runs a command on a tree. Several threads may ask one executor at a time.
///
/// An answer is fixed by the executor and the request: two runs of a request can't differ, whatever the caches hold. That is
/// what lets a build share one run between equal steps, and keep results from one build to the next.
pub trait Executor: Sync {
    ghost use Rattle.std.specs.Prelude.{List};
    ghost use Rattle.trees.specs.TreeMap.{TreeMap};
    ghost use Rattle.runs.specs.declared.run.RunRequest.{RunRequest};
    ghost use Rattle.runs.specs.declared.run.RunOutcome.{RunOutcome};
    ghost use Rattle.runs.specs.declared.run.RunOutcome.TheVariants.{Exit};

    // What a run of a request gives: a function of the executor and the request alone, so never of what a cache holds.
    ghost out: { Self → RunRequest → RunOutcome };

    // What a run of a request may leave in its caches, by what they held before. Unless an executor says more, anything.
    ghost leaves: { Self → RunRequest → List TreeMap → List TreeMap → Type 0 } = { λ _ _ _ _. Unit {0} };

    /// Runs the command of a request. The tree of each cache that the request uses is lent beside it, in the same order. On
    /// `Ok` as many trees come back as were lent; what they hold is what the executor may leave (`leaves`), and nothing else is
    /// said of it. `Memory` says only that a growth was refused; the lent trees may then be any, and any number of them.
    ///
    /// The mounts of the request have to fit (`fits_request`), as those of each RUN that isn't refused do: no target is the root or lies
    /// at or under another one, and no cache is used twice.
    fn run(
        &self,
        alloc: Global,
        request: &Request,
        caches: &mut Vec<Tree>,
    ) -> Result<Outcome, Memory>
        requires lent { vec_len caches.old ≡ length request.now.caches }
        requires mounts { IsTrue (fits_request request.now) }
        ensures ok { IfOk result (λ outcome. outcome ≡ out self.now request.now) }
        ensures lent { OnOk result (vec_len caches.new ≡ vec_len caches.old) }
        ensures left { OnOk result (leaves self.now request.now caches.old.items caches.new.items) };

    // A status is one that a process can end with, and not that of success.
    ghost exits: { (executor : Self) (request : RunRequest) (status : ℕ) → out executor request ≡ Exit status → (0 < status) × (status < 256) };
}
