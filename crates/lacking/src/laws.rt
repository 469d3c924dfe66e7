// Laws of the definitions. The functions do nothing: what is proved of them, their contracts, are the laws.

ghost use Rattle.std.specs.Prelude.{◌≡◌, ℕ, Some};
ghost use Rattle.trees.specs.declared.cause.Cause.{Cause};
ghost use Rattle.trees.specs.declared.cause.Cause.TheVariants.{F1};
ghost use Rattle.plans.specs.Sources.{SourcesValue};
ghost use Rattle.rows.specs.Rows.{Rows};
ghost use Rattle.lacking.specs.Missed.{IsMissedOn};
ghost use Rattle.lacking.specs.Missing.{missed_source};
ghost use Rattle.lacking.specs.declared.missing.Missed.{Missed};

/// A source is named only of an instruction that failed by F1, and it is a source of a COPY on that line. From a tree that is there before the
/// build a COPY of it alone fails by F1, and none of a pattern before it does. From a stage it is the only source.
pub fn what_is_named_is_missed()
    ensures { (trees : SourcesValue) (rows : Rows) (line : ℕ) (cause : Cause) (missed : Missed) → missed_source trees rows line cause ≡ Some missed
        → (cause ≡ F1) × IsMissedOn trees rows line missed }
{}
