// What is proved of the definitions alone. The functions do nothing: their contracts are laws.

ghost use Rattle.std.specs.Prelude.{◌≡◌, ◌≢◌, ℕ, Bool, true, List, [], ◌∷◌, ◌++◌, map, Option, Some, None};
ghost use Rattle.std.specs.List.{list_all};
ghost use Rattle.ascii.specs.Names.{is_name};
ghost use Rattle.instructions.specs.declared.instruction.Argument.{Argument};
ghost use Rattle.instructions.specs.declared.instruction.Assignment.{Assignment};
ghost use Rattle.scopes.specs.History.{ScopeLine, line_fault, history, scope_after};
ghost use Rattle.scopes.specs.Evaluate.{Values, env_line, arg_line};
ghost use Rattle.plain.specs.Variable.{names_of};
ghost use Rattle.plain.specs.VariableName.{is_variable_name};
ghost use Rattle.scopes.specs.Scope.{last_env, last_arg, value_in, run_env, kept, names_in, names_differ};
ghost use Rattle.scopes.specs.declared.declaration.Declaration.{Declaration};
ghost use Rattle.scopes.specs.declared.declaration.Declaration.TheVariants.{Env, Arg};

/// The declarations that are kept mean what all of them mean, whatever comes after.
pub fn kept_declarations_mean_the_same()
    ensures values { (ds : List Declaration) (n : List ℕ) → value_in (kept ds) n ≡ value_in ds n }
    ensures environment { (ds : List Declaration) → run_env (kept ds) ≡ run_env ds }
    ensures more { (ds es : List Declaration) → kept (kept ds ++ es) ≡ kept (ds ++ es) }
{}

/// The scope that calls on lines leave is what is kept of all that the lines said, each under what was said above it; and a
/// call judges the texts that the line expands under all that was said above it. So a scope means the history of its lines.
pub fn scopes_mean_their_history()
    ensures scopes { (args : Values) (outer above : List Declaration) (lines : List ScopeLine)
        → scope_after args (value_in (kept outer)) (kept above) lines ≡ kept (history args (value_in outer) above lines) }
    ensures faults { (args : Values) (above : List Declaration) (line : ScopeLine)
        → line_fault (value_in (kept above)) args line ≡ line_fault (value_in above) args line }
{}

/// What more declarations do to the value of a name: an ENV of the name sets it, an ARG of it sets it where no ENV did and it
/// gives a value, and nothing else changes it.
pub fn declarations_set_their_name()
    ensures env { (ds : List Declaration) (n text : List ℕ) → value_in (ds ++ Env n text ∷ []) n ≡ Some text }
    ensures arg { (ds : List Declaration) (n text : List ℕ) → last_env n ds ≡ None → value_in (ds ++ Arg n (Some text) ∷ []) n ≡ Some text }
    ensures beaten { (ds : List Declaration) (n text : List ℕ) (value : Option (List ℕ)) → last_env n ds ≡ Some text → value_in (ds ++ Arg n value ∷ []) n ≡ Some text }
    ensures bare { (ds : List Declaration) (n m : List ℕ) → value_in (ds ++ Arg m None ∷ []) n ≡ value_in ds n }
    ensures unnamed { (ds es : List Declaration) (n : List ℕ) → last_env n es ≡ None → last_arg n es ≡ None → value_in (ds ++ es) n ≡ value_in ds n }
    ensures other_env { (ds : List Declaration) (n m text : List ℕ) → n ≢ m → value_in (ds ++ Env m text ∷ []) n ≡ value_in ds n }
    ensures other_arg { (ds : List Declaration) (n m : List ℕ) (value : Option (List ℕ)) → n ≢ m → value_in (ds ++ Arg m value ∷ []) n ≡ value_in ds n }
{}

/// The names of RUN's environment all differ, whatever the declarations.
pub fn environments_name_each_variable_once()
    ensures { (ds : List Declaration) → names_differ (names_of (run_env ds)) ≡ true }
{}

/// What each name of some declarations is, each name of what is kept of them is, and each of RUN's environment.
pub fn environments_have_the_names_of_declarations()
    ensures kept { (fits : List ℕ → Bool) (ds : List Declaration) → list_all fits (names_in ds) ≡ true → list_all fits (names_in (kept ds)) ≡ true }
    ensures environment { (fits : List ℕ → Bool) (ds : List Declaration) → list_all fits (names_in ds) ≡ true → list_all fits (names_of (run_env ds)) ≡ true }
{}

/// A line declares just the names that stand in it.
pub fn lines_declare_their_names()
    ensures variables { (before : Values) (assignments : List Assignment) → names_in (env_line before assignments) ≡ map (λ a. a.name) assignments }
    ensures arguments { (before args outer : Values) (arguments : List Argument) → names_in (arg_line before args outer arguments) ≡ map (λ a. a.name) arguments }
{}

/// The name of a variable, as ENV and ARG have it, is one of an environment: it isn't empty and holds no `=`. So a scope in which
/// all names of inherited variables are such has only such names in RUN's environment.
pub fn names_fit_environments()
    ensures { (n : List ℕ) → is_name n ≡ true → is_variable_name n ≡ true }
{}
