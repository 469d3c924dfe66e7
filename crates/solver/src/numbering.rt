use std::marker::Brand;

/// Names what the findings of a `Recall` speak of, since of what stands in a cell no more is known than its type says: the answers of the executor, the values
/// of a problem's vertices, and the trees that the generations of a memo keep. Beside these it names the requests that the memo knew. Whoever makes a `Recall`
/// picks them.
pub trait Numbering {
    ghost use Rattle.std.specs.Prelude.{List};
    ghost use Rattle.trees.specs.TreeMap.{TreeMap};
    ghost use Rattle.runs.specs.declared.run.RunRequest.{RunRequest};
    ghost use Rattle.plans.specs.Value.{Out, Value};

    ghost out: { Out };

    ghost values: { List Value };

    ghost recent: { List TreeMap };

    ghost earlier: { List TreeMap };

    ghost knows: { RunRequest → Type 0 };
}

impl Numbering for Brand {
    ghost use Rattle.std.specs.Prelude.{[]};
    ghost use Rattle.runs.specs.declared.run.RunOutcome.TheVariants.{Exit};

    ghost out = { λ request. Exit 1 };

    ghost values = { [] };

    ghost recent = { [] };

    ghost earlier = { [] };

    ghost knows = { λ request. ⊥ };
}
