// What holds of every board, for all lists of events: laws about the definitions alone, each the contract of one function with an empty body. A board is
// a problem and what has happened on it, and `IsReplay` is what `Board`'s type keeps of the two.
ghost use Rattle.std.specs.Prelude.{◌≡◌, ◌≢◌, ◌⊎◌, ◌<◌, ◌≤◌, ℕ, true, List, [], length, Option, Some, None, map};
ghost use Rattle.cachemounts.specs.Holds.{is_lawful};
ghost use Rattle.cachemounts.specs.Content.{tree_in};
ghost use Rattle.cachemounts.specs.declared.content.Content.{Content};
ghost use Rattle.plans.specs.Plan.{Problem, IsValue, NeedsAll, line_at, HasLinesInOrder};
ghost use Rattle.board.specs.Problem.{IsProblem};
ghost use Rattle.trees.specs.Cause.{TreeOrCause};
ghost use Rattle.board.specs.Play.{Run, Step, worker_of, go, play, value_at, claimable, IsReplay};
ghost use Rattle.board.specs.Claim.{ClaimValue, IsOut, IsStateOf};
ghost use Rattle.board.specs.declared.event.Event.{Event};
ghost use Rattle.board.specs.declared.event.Happened.{Happened};
ghost use Rattle.board.specs.Board.{AreContents};
ghost use Rattle.board.specs.Leaving.{GivesBackWhatIsLeft, IsLeftIn};
ghost use Rattle.board.specs.Legal.{without_trees, vertex_out, IsSettled, HasTree, HasCause, IsReady, IsNextClaim, IsLegal, Plays, StepsOn, IsSettledOnce};

use executor::Executor;

/// In every board the history is legal: each event was possible after those before it.
pub fn history_is_legal()
    ensures { (problem : Problem) (run : Run) → IsProblem problem → IsReplay problem run
        → IsLegal problem run.history }
{}

/// A board holds what its history says: each worker has the vertex out that the history says, a vertex is settled where the history settles it,
/// and the holds of caches are the history's.
pub fn state_is_the_history()
    ensures { (problem : Problem) (run : Run) → IsProblem problem → IsReplay problem run
        → IsStateOf problem run.history run.state }
{}

/// No two holds of caches clash: a locked use is alone on the common content of its cache, and nobody has another one's slot.
pub fn no_two_caches_clash()
    ensures { (problem : Problem) (run : Run) → IsProblem problem → IsReplay problem run
        → is_lawful run.state.holds ≡ true }
{}

/// Each content that a legal history leaves, whose settles give back what runs left, is as it was at the start, or what the last settle that gave it back
/// brought, which its vertex's run left of what it was lent.
pub fn a_cache_holds_what_a_run_left_in_it<E: Executor>()
    ensures { (executor : E) (problem : Problem) (first contents : List Content) (history : List Happened) → IsProblem problem → IsLegal problem history
        → AreContents problem history first contents → GivesBackWhatIsLeft (E.leaves executor) problem first history → (id : List ℕ) (slot : Option ℕ)
        → (tree_in contents id slot ≡ tree_in first id slot) ⊎ IsLeftIn (E.leaves executor) problem first history id slot (tree_in contents id slot) }
{}

/// A claim that has ended is out no more, whatever happens: also where its worker claims its vertex again.
pub fn an_ended_claim_stays_ended()
    ensures { (problem : Problem) (run : Run) (step : Step) (claim : ClaimValue)
        → claim.at < length run.history → ¬ IsOut run.state claim → ¬ IsOut (go problem run step).state claim }
{}

/// Each settled value is the value of its vertex, whoever settled it and when.
pub fn settled_values_are_the_vertices_values()
    ensures { (problem : Problem) (run : Run) (vertex : ℕ) (value : TreeOrCause)
        → IsProblem problem → IsReplay problem run
        → value_at run.state.settled vertex ≡ Some value → IsValue problem vertex value }
{}

/// No vertex is settled twice.
pub fn no_vertex_is_settled_twice()
    ensures { (problem : Problem) (run : Run) → IsProblem problem → IsReplay problem run
        → IsSettledOnce run.history }
{}

/// A worker's claim gives the least vertex that is ready; it gives none exactly where the worker has a claim out or no vertex is ready.
pub fn claim_gives_the_least_ready_vertex()
    ensures { (problem : Problem) (run : Run) (worker : ℕ) → IsProblem problem → IsReplay problem run
        → IsNextClaim problem run.history worker (claimable problem run.state worker) }
{}

/// An event of another worker leaves a claim out.
pub fn others_leave_a_claim_out()
    ensures { (problem : Problem) (run : Run) (step : Step) (claim : ClaimValue)
        → IsOut run.state claim → worker_of step ≢ claim.worker → IsOut (go problem run step).state claim }
{}

/// A board is never stuck: where no worker has a claim out, the target isn't settled and no vertex is settled with a cause, some
/// vertex is ready.
pub fn some_vertex_is_ready()
    ensures { (problem : Problem) (run : Run) → IsProblem problem → IsReplay problem run
        → ((worker : ℕ) → vertex_out run.history worker ≡ None)
        → ¬ IsSettled run.history problem.target
        → ((vertex : ℕ) → IsSettled run.history vertex → ¬ HasCause problem vertex)
        → (vertex : ℕ) × IsReady problem run.history vertex }
{}

/// So if no worker has a claim out, no vertex is ready and the target isn't settled with a tree, some vertex is settled with a cause. If the target
/// needs every vertex and lines are in order, one of least line among these has the least line of all vertices that fail: an idle board has the
/// first failure.
pub fn an_idle_board_has_the_first_failure()
    ensures some { (problem : Problem) (run : Run) → IsProblem problem → IsReplay problem run
        → ((worker : ℕ) → vertex_out run.history worker ≡ None)
        → ((vertex : ℕ) → ¬ IsReady problem run.history vertex)
        → ¬ (IsSettled run.history problem.target × HasTree problem problem.target)
        → (vertex : ℕ) × IsSettled run.history vertex × HasCause problem vertex }
    ensures first { (problem : Problem) (run : Run) → IsProblem problem → IsReplay problem run → NeedsAll problem → HasLinesInOrder problem
        → ((worker : ℕ) → vertex_out run.history worker ≡ None)
        → ((vertex : ℕ) → ¬ IsReady problem run.history vertex)
        → ¬ (IsSettled run.history problem.target × HasTree problem problem.target)
        → (first : ℕ) → ((other : ℕ) → IsSettled run.history other → HasCause problem other → line_at problem first ≤ line_at problem other)
        → (vertex : ℕ) → HasCause problem vertex → line_at problem first ≤ line_at problem vertex }
{}

/// What a list of steps leaves is what the rules leave of it: those that are possible when their turn comes, and no others.
pub fn play_leaves_what_is_possible()
    ensures { (problem : Problem) (steps : List Step) → IsProblem problem
        → StepsOn problem [] steps (play problem steps).history }
{}

/// A list of events leaves one history, the trees that settles give back left out.
pub fn events_leave_one_history()
    ensures { (problem : Problem) (events : List Event) (history other : List Happened)
        → Plays problem events history → Plays problem events other → map without_trees history ≡ map without_trees other }
{}
