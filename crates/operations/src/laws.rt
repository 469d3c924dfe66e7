// What is proved of the definitions alone. The function does nothing: its contract is a law.

ghost use Rattle.std.specs.Prelude.{◌≡◌, ℕ, true, List, Some, length};
ghost use Rattle.std.specs.List.{list_all};
ghost use Rattle.llb.specs.declared.op.Op.{Op};
ghost use Rattle.llb.specs.WellFormed.{is_well_formed_on};
ghost use Rattle.operations.specs.Proper.{IsProper};
ghost use Rattle.operations.specs.Spelled.{is_address, spelled_in};
ghost use Rattle.operations.specs.Texts.{op_data};

/// What an operation is written as spells just it, on the same inputs.
pub fn what_is_written_spells_the_operation()
    ensures { (op : Op) (inputs : List (List ℕ)) → IsProper op → is_well_formed_on op (length inputs) ≡ true → list_all is_address inputs ≡ true
        → spelled_in (op_data inputs op) ≡ Some (record { op = op; inputs = inputs }) }
{}
