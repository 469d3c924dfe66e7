// What is proved of the definitions alone. The functions do nothing: their contracts are laws.

ghost use Rattle.std.specs.Prelude.{◌≡◌, ℕ, true, false, List, [], ◌∷◌, ◌++◌, Some};
ghost use Rattle.serde_json.specs.Data.{Data};
ghost use Rattle.instructions.specs.declared.instruction.Argument.{Argument};
ghost use Rattle.instructions.specs.declared.instruction.Assignment.{Assignment};
ghost use Rattle.instructions.specs.declared.instruction.Command.{Command};
ghost use Rattle.instructions.specs.declared.instruction.InstructionKind.TheVariants.{Env, Entrypoint};
ghost use Rattle.scopes.specs.Evaluate.{Values, env_line, arg_line};
ghost use Rattle.scopes.specs.Scope.{kept};
ghost use Rattle.scopes.specs.declared.declaration.Declaration.{Declaration};
ghost use Rattle.scopes.specs.declared.declaration.Declaration.TheVariants.{Env as Set};
ghost use Rattle.imageconfig.specs.EnvRows.{env_shown};
ghost use Rattle.imageconfig.specs.Environment.{IsEnvironment};
ghost use Rattle.imageconfig.specs.Reading.{config_in};
ghost use Rattle.imageconfig.specs.Rows.{put_row};
ghost use Rattle.imageconfig.specs.declared.config.Config.{Config};
ghost use Rattle.imageconfig.specs.Steps.{changed};

/// ENTRYPOINT unsets a Cmd that the stage began with, and keeps one that the stage has set itself.
pub fn entrypoint_unsets_the_cmd_of_the_base()
    ensures unset { (before : Values) (config : Config) (command : Command)
        → config.cmd_is_own ≡ false → (changed before config (Entrypoint command)).cmd ≡ [] }
    ensures kept { (before : Values) (config : Config) (command : Command)
        → config.cmd_is_own ≡ true → (changed before config (Entrypoint command)).cmd ≡ config.cmd }
{}

/// The environment of a configuration and the ENVs of a scope stay the same rows: an ENV line, and a variable of an image, do to both the
/// same, and an ARG line leaves those of a scope as they are, as it leaves the configuration.
pub fn scopes_and_configurations_have_the_same_environment()
    ensures env { (before : Values) (config : Config) (ds : List Declaration) (assignments : List Assignment) → env_shown (kept ds) ≡ config.env
        → env_shown (kept (ds ++ env_line before assignments)) ≡ (changed before config (Env assignments)).env }
    ensures inherited { (ds : List Declaration) (name text : List ℕ) → env_shown (kept (ds ++ Set name text ∷ [])) ≡ put_row (env_shown (kept ds)) name text }
    ensures arg { (before args outer : Values) (ds : List Declaration) (arguments : List Argument)
        → env_shown (kept (ds ++ arg_line before args outer arguments)) ≡ env_shown (kept ds) }
{}

/// The variables of a configuration that is read have names, and no two have the same.
pub fn what_is_read_has_an_environment()
    ensures { (d : Data) (config : Config) → config_in d ≡ Some config → IsEnvironment config.env }
{}
