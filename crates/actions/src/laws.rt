// What is proved of the definitions alone. The functions do nothing: their contracts are laws.

ghost use Rattle.std.specs.Prelude.{◌≡◌, ℕ, true, List, None, length};
ghost use Rattle.std.specs.List.{list_all, count_by};
ghost use Rattle.expand.specs.Value.{Parts};
ghost use Rattle.instructions.specs.Instruction.{IsInstruction};
ghost use Rattle.instructions.specs.Least.{least};
ghost use Rattle.instructions.specs.Reason.{reason};
ghost use Rattle.instructions.specs.declared.instruction.Command.{Command};
ghost use Rattle.instructions.specs.declared.instruction.InstructionKind.TheVariants.{Run, Copy};
ghost use Rattle.instructions.specs.declared.instruction.Source.{Source};
ghost use Rattle.options.specs.declared.copy.CopyFlags.{CopyFlags};
ghost use Rattle.options.specs.declared.mount.Mount.{Mount};
ghost use Rattle.plain.specs.VariableName.{is_variable_name};
ghost use Rattle.rows.specs.WellFormed.{IsAction};
ghost use Rattle.rows.specs.declared.row.Origin.{Origin};
ghost use Rattle.scopes.specs.Scope.{names_in};
ghost use Rattle.scopes.specs.declared.declaration.Declaration.{Declaration};
ghost use Rattle.actions.specs.Copy.{copy_action, copy_due, copy_fault};
ghost use Rattle.actions.specs.Run.{is_bind, run_action, run_due};

use scopes::laws::{
    environments_have_the_names_of_declarations, environments_name_each_variable_once,
};

/// A RUN for which no code is due is a well-formed action, where it is an instruction that a line spells, there is an origin for each
/// bind, and the names in its scope are such as an environment has.
pub fn runs_are_well_formed()
    ensures { (scope : List Declaration) (dir : List (List ℕ)) (user : List ℕ) (shell : List (List ℕ)) (mounts : List Mount) (command : Command) (origins : List Origin)
        → IsInstruction (Run mounts command)
        → length origins ≡ count_by (λ mount. is_bind mount.kind) mounts
        → list_all is_variable_name (names_in scope) ≡ true
        → least (run_due dir mounts) ≡ None
        → IsAction (run_action scope dir user shell mounts command origins) }
{
    environments_name_each_variable_once();
    environments_have_the_names_of_declarations();
}

/// A COPY that nothing is against is a well-formed action, if it is an instruction that a line spells.
pub fn copies_are_well_formed()
    ensures { (scope : List Declaration) (dir : List (List ℕ)) (sources : List Source) (destination : Parts) (flags : CopyFlags) (origin : Origin)
        → IsInstruction (Copy sources destination flags)
        → reason (copy_due scope dir sources destination) (copy_fault scope sources destination) ≡ None
        → IsAction (copy_action scope dir sources destination flags origin) }
{}
