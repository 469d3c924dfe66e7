use std::marker::Brand;

/// Names what is known of a site's board, since of what lies under a lock no more is known than its type says: the problem that it solves, what its caches
/// held at the start, and what had happened on it when the site was made. Beside these it names what may be left in the caches, and whether each settle gives
/// back such trees. Whoever makes a site picks them, as those of its board.
pub trait Case {
    ghost use Rattle.std.specs.Prelude.{Bool, List};
    ghost use Rattle.cachemounts.specs.declared.content.Content.{Content};
    ghost use Rattle.board.specs.declared.event.Happened.{Happened};
    ghost use Rattle.plans.specs.Plan.{Problem};
    ghost use Rattle.trees.specs.TreeMap.{TreeMap};
    ghost use Rattle.runs.specs.declared.run.RunRequest.{RunRequest};

    ghost problem: { Problem };

    ghost first: { List Content };

    ghost before: { List Happened };

    ghost leaves: { RunRequest → List TreeMap → List TreeMap → Type 0 };

    // Whether each settle gives back what the run of its vertex left. If not, a settle at the site may give back any trees, and nothing is known of them.
    ghost promises: { Bool };
}

impl Case for Brand {
    ghost use Rattle.std.specs.Prelude.{[], false};
    ghost use Rattle.sites.specs.Cases.{no_problem};

    ghost problem = { no_problem };

    ghost first = { [] };

    ghost before = { [] };

    ghost leaves = { λ _ _ _. Unit {0} };

    ghost promises = { false };
}
