use cachemounts::CacheStore;
use imageconfig::Config;
use plans::Plan;
use solver::Solution;
use std::alloc::Global;
use workers::Leftover;

/// What a build still holds once its answer is written: its plan, with the context and the images, what its caches hold, the tree that it gave,
/// and those that it made on its way.
///
/// To let it go takes a step for each file. A program that ends right after its last build may leave that to the system, by
/// `std::mem::ManuallyDrop`; any other one lets it go.
pub struct Remains {
    plan: Option<Plan<Config>>,
    caches: Option<CacheStore>,
    solution: Option<Solution>,
    leftover: Leftover,
}

/// It ends by a call, so that no proof above goes by what is there at each place where it is let go.
impl Drop for Remains {
    fn drop(self) {
        let Remains {
            plan,
            caches,
            solution,
            leftover,
        } = self;
        drop(plan);
        drop(caches);
        drop(solution);
        drop(leftover);
    }
}

impl Remains {
    /// Nothing. It takes no memory.
    pub fn none(alloc: Global) -> Remains {
        Remains {
            plan: None,
            caches: None,
            solution: None,
            leftover: Leftover::none(alloc),
        }
    }

    /// Keeps what a bundle asked for, in place of what was kept of an earlier one.
    pub(crate) fn keep_asked(&mut self, plan: Plan<Config>, caches: CacheStore) {
        drop(self.plan.replace(plan));
        drop(self.caches.replace(caches));
    }

    /// What solves left over.
    pub(crate) fn leftover(&mut self) -> &mut Leftover {
        &mut self.leftover
    }

    /// Keeps what a solve gave, in place of what an earlier one gave.
    pub(crate) fn keep_solution(&mut self, solution: Solution) {
        drop(self.solution.replace(solution));
    }
}
