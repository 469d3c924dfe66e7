// The laws of exported definitions, claimed: each function's contract is one law, and its body is empty.
ghost use Rattle.std.specs.Prelude.{◌≡◌, ℕ, Option, List, Ok, []};
ghost use Rattle.llb.specs.Graph.{GraphValue};
ghost use Rattle.llbmessages.specs.declared.definition.Definition.{Definition};
ghost use Rattle.exported.specs.declared.making.Options.{Options as Chosen};
ghost use Rattle.exported.specs.Exporting.{exported};
ghost use Rattle.exported.specs.Order.{AreInOrder, AreApartToTheEnd, IsSaid};

/// Each input of an operation is the digest of an operation before it.
pub fn inputs_stand_before()
    ensures { (options : Chosen) (names : List (Option (List ℕ))) (graph : GraphValue) (wanted : ℕ) (definition : Definition)
        → exported options names graph wanted ≡ Ok definition → AreInOrder [] definition.ops }
{}

/// No operation before the end has the digest of another.
pub fn digests_are_apart()
    ensures { (options : Chosen) (names : List (Option (List ℕ))) (graph : GraphValue) (wanted : ℕ) (definition : Definition)
        → exported options names graph wanted ≡ Ok definition → AreApartToTheEnd definition }
{}

/// Something is said of each operation, and of nothing else.
pub fn each_operation_is_spoken_of()
    ensures { (options : Chosen) (names : List (Option (List ℕ))) (graph : GraphValue) (wanted : ℕ) (definition : Definition)
        → exported options names graph wanted ≡ Ok definition → IsSaid definition }
{}
