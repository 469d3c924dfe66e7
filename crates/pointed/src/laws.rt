// Laws of the definitions. The functions do nothing: what is proved of them, their contracts, are the laws.

ghost use Rattle.std.specs.Prelude.{◌≡◌, ◌<◌, ◌+◌, ◌++◌, ◌⊎◌, ℕ, true, false, List, [], ◌∷◌, Some, None, is_some, length, take};
ghost use Rattle.std.specs.List.{list_all, list_any};
ghost use Rattle.plain.specs.declared.refusal.Code.{Code};
ghost use Rattle.plain.specs.declared.refusal.Code.TheVariants.{R04, R07, R10, R11, R12, R16, R17};
ghost use Rattle.ascii.specs.Names.{is_name};
ghost use Rattle.ascii.specs.Pieces.{pieces};
ghost use Rattle.words.specs.declared.flag.Flag.{Flag};
ghost use Rattle.options.specs.Copy.{copy_flags, has_from};
ghost use Rattle.options.specs.Mount.{mounts};
ghost use Rattle.instructions.specs.Arg.{argument_cut};
ghost use Rattle.sentences.specs.Subject.{subject_of};
ghost use Rattle.sentences.specs.declared.subject.Subject.{Subject};
ghost use Rattle.sentences.specs.declared.subject.Subject.TheVariants.{From, Arg, Env, Expose, Run, Copy};
ghost use Rattle.pointed.specs.Flag.{are_flags_of, first_flag};
ghost use Rattle.pointed.specs.Pointing.{pointed};
ghost use Rattle.pointed.specs.Spot.{Spot};
ghost use Rattle.pointed.specs.Stands.{flag_at, flags_before, pieces_before, IsAfterAs, IsArgumentOf, IsFlagOf, IsOnlyFlagOf, IsPieceOf, IsWordOf};
ghost use Rattle.pointed.specs.Word.{is_no_port};

/// What is pointed at is a word of the line, between blanks or the line's ends, and its column is the number of its first byte.
pub fn what_is_pointed_at_is_a_word()
    ensures { (code : Code) (line : List ℕ) (spot : Spot) → pointed code line ≡ Some spot → IsWordOf line spot }
{}

/// By R04 the name of the instruction is pointed at: the first piece of the line.
pub fn the_name_of_the_instruction_is_pointed_at()
    ensures { (line : List ℕ) (spot : Spot) → pointed R04 line ≡ Some spot → IsPieceOf line 0 spot }
{}

/// By R07 a flag is pointed at: those before it are flags of the instruction, and with it they aren't.
pub fn a_flag_that_is_not_taken_is_pointed_at()
    ensures { (line : List ℕ) (spot : Spot) → pointed R07 line ≡ Some spot
        → IsFlagOf line spot × (are_flags_of (subject_of line) (flags_before spot) ≡ true) × (are_flags_of (subject_of line) (flags_before spot ++ flag_at spot ∷ []) ≡ false) }
{}

/// By R07 the flag that is pointed at is the first one with which the flags of the line aren't those of its instruction. If there is none, they are.
pub fn the_first_unknown_flag_is_pointed_at()
    ensures some { (subject : Subject) (flags : List Flag) (number : ℕ) → first_flag R07 subject flags ≡ Some number
        → (number < length flags) × (are_flags_of subject (take number flags) ≡ true) × (are_flags_of subject (take (number + 1) flags) ≡ false) }
    ensures none { (subject : Subject) (flags : List Flag) → first_flag R07 subject flags ≡ None → are_flags_of subject flags ≡ true }
{}

/// By R10 of a FROM, and by R11, the word after AS is pointed at.
pub fn the_name_of_a_stage_is_pointed_at()
    ensures bad { (line : List ℕ) (spot : Spot) → subject_of line ≡ From → pointed R10 line ≡ Some spot → IsAfterAs line spot }
    ensures twice { (line : List ℕ) (spot : Spot) → pointed R11 line ≡ Some spot → IsAfterAs line spot }
{}

/// By R10 of an ARG or an ENV the first word whose name is none is pointed at.
pub fn a_bad_name_of_a_variable_is_pointed_at()
    ensures { (line : List ℕ) (spot : Spot) → (subject_of line ≡ Arg) ⊎ (subject_of line ≡ Env) → pointed R10 line ≡ Some spot
        → IsArgumentOf line spot × (is_name (argument_cut spot.word).0 ≡ false) × (list_all (λ word. is_name (argument_cut word).0) (pieces_before spot) ≡ true) }
{}

/// By R12 the image of a FROM is pointed at, which is the word after FROM, of a COPY the first flag `--from`, and of a RUN its only flag.
pub fn what_names_no_image_is_pointed_at()
    ensures image { (line : List ℕ) (spot : Spot) → subject_of line ≡ From → pointed R12 line ≡ Some spot → IsPieceOf line 1 spot }
    ensures source { (line : List ℕ) (spot : Spot) → subject_of line ≡ Copy → pointed R12 line ≡ Some spot
        → IsFlagOf line spot × (has_from (flag_at spot ∷ []) ≡ true) × (has_from (flags_before spot) ≡ false) }
    ensures mount { (line : List ℕ) (spot : Spot) → subject_of line ≡ Run → pointed R12 line ≡ Some spot → IsOnlyFlagOf line spot }
{}

/// By R16 of a COPY the first flag is pointed at whose owner or mode is none. Of an EXPOSE it is the first word that is no port, whatever values variables
/// have, or the only one.
pub fn what_is_no_number_is_pointed_at()
    ensures flag { (line : List ℕ) (spot : Spot) → subject_of line ≡ Copy → pointed R16 line ≡ Some spot
        → IsFlagOf line spot × (is_some (copy_flags (flag_at spot ∷ [])) ≡ false) × (list_all (λ flag. is_some (copy_flags (flag ∷ []))) (flags_before spot) ≡ true) }
    ensures port { (line : List ℕ) (spot : Spot) → subject_of line ≡ Expose → pointed R16 line ≡ Some spot
        → (IsArgumentOf line spot × (is_no_port spot.word ≡ true) × (list_any is_no_port (pieces_before spot) ≡ false))
        ⊎ (IsPieceOf line 1 spot × (length (pieces line) ≡ 2)) }
{}

/// By R17 of a RUN the first flag is pointed at that is no mount.
pub fn a_flag_that_is_no_mount_is_pointed_at()
    ensures { (line : List ℕ) (spot : Spot) → subject_of line ≡ Run → pointed R17 line ≡ Some spot
        → IsFlagOf line spot × (is_some (mounts (flag_at spot ∷ [])) ≡ false) × (list_all (λ flag. is_some (mounts (flag ∷ []))) (flags_before spot) ≡ true) }
{}
