// What is proved of the definitions alone. The functions do nothing: their contracts are laws.

ghost use Rattle.std.specs.Prelude.{◌≡◌, ◌<◌, ◌∷◌, [], ◌++◌, List, ℕ, Some, None, codes, if◌then◌else◌};
ghost use Rattle.trees.specs.TreeMap.{TreeMap};
ghost use Rattle.runs.specs.declared.run.RunRequest.{RunRequest};
ghost use Rattle.runs.specs.declared.run.RunOutcome.TheVariants.{Exit};
ghost use Rattle.executor.specs.Script.{is_text, script_of, commands, with_script};
ghost use Rattle.executor.specs.Edits.{SightValue};
ghost use Rattle.executor.specs.Fixture.{and_then, and_hold, after_commands, held_by_commands, fixture_out, root_then};

use crate::Executor;

/// Whatever the executor, a status that it answers is from 1 to 255.
pub fn exit_is_a_status<E: Executor>()
    ensures { (executor : E) (request : RunRequest) (status : ℕ)
        → E.out executor request ≡ Exit status → (0 < status) × (status < 256) }
{}

/// The lines of a script are run one after another: what follows a line feed goes on from what the lines before it left, in binds and
/// in caches too, and isn't begun where they ended with a status. Where no bind is mounted, only the root goes on.
pub fn fixture_runs_line_by_line()
    ensures seen { (request : RunRequest) (first second : List ℕ) (sight : SightValue)
        → after_commands request (commands (first ++ 10 ∷ second)) sight
        ≡ and_then (after_commands request (commands first) sight) (after_commands request (commands second)) }
    ensures held { (request : RunRequest) (first second : List ℕ) (sight : SightValue) (caches : List TreeMap)
        → held_by_commands request (commands (first ++ 10 ∷ second)) sight caches
        ≡ and_hold (after_commands request (commands first) sight) (held_by_commands request (commands first) sight caches) (held_by_commands request (commands second)) }
    ensures bare { (request : RunRequest) (front : List (List ℕ)) (first second : List ℕ)
        → request.binds ≡ []
        → fixture_out (with_script request front (first ++ 10 ∷ second))
        ≡ root_then (fixture_out (with_script request front first))
        (λ root. fixture_out (with_script (record request { root = root }) front second)) }
{}

/// What stands on the two sides of a line feed is two scripts, one run after the other.
pub fn line_feed_parts_scripts()
    ensures { (first second : List ℕ)
        → commands (first ++ 10 ∷ second) ≡ commands first ++ commands second }
{}

/// Only the last word but one tells whether the last one is a script, whatever stands before them.
pub fn last_but_one_tells_script()
    ensures { (front : List (List ℕ)) (flag script : List ℕ)
        → script_of (front ++ flag ∷ script ∷ [])
        ≡ (if is_text flag (codes "-c") then Some script else None) }
{}
