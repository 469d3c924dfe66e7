// Laws of patterns, each the contract of a function that does nothing.

ghost use Rattle.std.specs.Prelude.{◌≡◌, ◌↔◌, ℕ, true, Some, List};
ghost use Rattle.std.specs.List.{AllZip};
ghost use Rattle.std.specs.Str.{chars, IsUtf8};
ghost use Rattle.globs.specs.declared.part.Part.{Part};
ghost use Rattle.globs.specs.Glob.{components_of, is_malformed, relates, Relates};
ghost use Rattle.globs.specs.Component.{RelatesToName, relates_to_name};
ghost use Rattle.globs.specs.Grammar.{Spell, is_spelled_out};
ghost use Rattle.globs.specs.Reading.{parts_of};

/// The test of a component's pattern holds exactly where the name can be cut so that each part relates to its piece.
pub fn a_name_is_tested_by_its_cuts()
    ensures { (parts : List Part) (name : List ℕ) → (relates_to_name parts name ≡ true) ↔ RelatesToName parts name }
{}

/// Reading a component's characters gives just the parts that they spell, and they spell one list of parts at most.
pub fn a_component_is_read_as_it_is_spelled()
    ensures read { (characters : List ℕ) (parts : List Part) → (parts_of characters ≡ Some parts) ↔ Spell characters parts }
    ensures once { (characters : List ℕ) (parts others : List Part) → Spell characters parts → Spell characters others → parts ≡ others }
{}

/// A text is malformed exactly where its components spell no parts.
pub fn a_malformed_text_spells_nothing()
    ensures { (text : List ℕ)
        → (is_malformed text ≡ true) ↔ ((glob : List (List Part)) → AllZip (λ component parts. Spell (chars component) parts) (components_of text) glob → ⊥) }
{}

/// The test of a pattern's text and a path holds exactly where they relate: each component spells parts, and each name can be cut so
/// that the parts of its component relate to its pieces.
pub fn a_text_relates_by_grammar_and_cuts()
    ensures { (text : List ℕ) (path : List (List ℕ)) → (relates text path ≡ true) ↔ Relates text path }
{}

/// A text that is spelled out relates to the path of its components, and to no other one.
pub fn a_text_that_is_spelled_out_relates_to_one_path()
    ensures { (text : List ℕ) → IsUtf8 text → is_spelled_out (chars text) ≡ true
        → (path : List (List ℕ)) → (relates text path ≡ true) ↔ (path ≡ components_of text) }
{}
