ghost use Rattle.std.specs.Prelude.{List, ◌++◌, [], ◌∷◌, MatchBool};
ghost use Rattle.plain.specs.declared.refusal.Refusal.{Refusal};
ghost use Rattle.lines.specs.Faults.{IsNotBehind, IsLeast, IsLeastIfAny};

use plain::Refusal;

/// Whether a refusal comes before another: by line, then by number.
fn is_before(one: Refusal, other: Refusal) -> bool
    ensures { MatchBool result (IsNotBehind one other) (IsNotBehind other one) }
{
    one.line < other.line || (one.line == other.line && one.code.number() < other.code.number())
}

/// The least of some refusals and of one more, where `found` is the least of them.
fn keep_lesser(found: Option<Refusal>, other: Refusal) -> Refusal
    ensures { (before : List Refusal) → IsLeastIfAny before found → IsLeast (before ++ other ∷ []) result }
{
    match found {
        Some(found) => {
            if is_before(other, found) {
                other
            } else {
                found
            }
        }
        None => other,
    }
}

/// The least of the faults, by line, then by number.
pub fn least(faults: &[Refusal]) -> Option<Refusal>
    ensures { IsLeastIfAny faults.now result }
{
    let mut found = None;
    for fault in faults {
        found = Some(keep_lesser(found, *fault));
    }
    found
}
