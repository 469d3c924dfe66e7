// What is proved of the definitions alone. The functions do nothing: their contracts are laws.

ghost use Rattle.std.specs.Prelude.{◌≡◌, ◌≢◌, ◌↔◌, ◌++◌, [], ℕ, true, List, Option, Some, None};
ghost use Rattle.std.specs.Option.{unwrap_or};
ghost use Rattle.std.specs.Str.{IsUtf8, chars};
ghost use Rattle.lines.specs.declared.escape.Escape.{Escape};
ghost use Rattle.words.specs.Cutting.{ends_open};
ghost use Rattle.expand.specs.Expanding.{worse, worst};
ghost use Rattle.expand.specs.Value.{Parts, no_part, variable, with_word, with_text, passes, choice_of, value, first_of, refusal};
ghost use Rattle.expand.specs.Syntax.{Syntax, Stands, written};
ghost use Rattle.expand.specs.Word.{IsWord, AreOrdinary, word};
ghost use Rattle.expand.specs.Scan.{IsScanned};
ghost use Rattle.expand.specs.declared.character.Character.{Character};
ghost use Rattle.expand.specs.declared.fault.Unexpanded.{Unexpanded};
ghost use Rattle.expand.specs.declared.kind.Kind.{Kind};
ghost use Rattle.expand.specs.declared.operator.Choice.{Choice};
ghost use Rattle.expand.specs.declared.operator.Operator.{Operator};
ghost use Rattle.expand.specs.declared.operator.Test.{Test};

/// Each text is just one word, the one that reading it from its front gives, or none.
pub fn words_are_unique()
    ensures some { (kind : Kind) (escape : Escape) (text : List ℕ) (found : Parts) → word kind escape text ≡ Some found → IsWord kind escape text found }
    ensures one { (kind : Kind) (escape : Escape) (text : List ℕ) (found : Parts) → IsWord kind escape text found → word kind escape text ≡ Some found }
{}

/// A text has an open quote, for which `words::closed` gives R09, exactly where scanning it with its quotes leaves nothing, for which
/// `Word::read` gives R09. A text is valid UTF-8: of other bytes a quote could be part of what is read as one character.
pub fn open_quotes_are_not_scanned()
    ensures { (escape : Escape) (text : List ℕ) → IsUtf8 text → (ends_open escape text ≡ true) ↔ ((found : List Character) → ¬ (IsScanned Kind.Quoted escape (chars text) found)) }
{}

/// Marked characters are written by one syntax at most, so it is determined which `}` closes which `${`.
pub fn syntaxes_are_unique()
    ensures { (one other : Syntax) → Stands 0 one → Stands 0 other → written one ≡ written other → one ≡ other }
{}

/// A text without `$`, escape character and, where there are quotes, without quotes is the word of its own bytes, and its
/// value under every look-up is the text itself. A `}` is such a character too, and so are the quotes of a string of the
/// JSON form and of a heredoc's body.
pub fn ordinary_texts_are_their_values()
    ensures word { (kind : Kind) (escape : Escape) (text : List ℕ) → IsUtf8 text → AreOrdinary kind escape text → IsWord kind escape text (with_text text no_part) }
    ensures value { (kind : Kind) (escape : Escape) (text : List ℕ) → IsUtf8 text → AreOrdinary kind escape text → (found : Parts) → IsWord kind escape text found → (scope : List ℕ → Option (List ℕ)) → value scope found ≡ text }
{}

/// The value of `$v` and of `${v}` before the rest of a word: the text of `v`, and none where `v` is unset.
pub fn variables_have_values()
    ensures set { (scope : List ℕ → Option (List ℕ)) (name text : List ℕ) (rest : Parts) → scope name ≡ Some text → value scope (variable name rest) ≡ text ++ value scope rest }
    ensures unset { (scope : List ℕ → Option (List ℕ)) (name : List ℕ) (rest : Parts) → scope name ≡ None → value scope (variable name rest) ≡ value scope rest }
{}

/// The value of `${v-word}` and of `${v:-word}` before the rest of a word: the text of `v` where it is set and not empty, and
/// the word's value where `v` is unset. An empty `v` is set, but not filled: `${v-word}` has no text then, and `${v:-word}` has
/// the word's value.
pub fn defaults_have_values()
    ensures filled { (scope : List ℕ → Option (List ℕ)) (test : Test) (name text : List ℕ) (default rest : Parts) → scope name ≡ Some text → text ≢ [] → value scope (with_word Operator.Default test name default rest) ≡ text ++ value scope rest }
    ensures empty_set { (scope : List ℕ → Option (List ℕ)) (name : List ℕ) (default rest : Parts) → scope name ≡ Some [] → value scope (with_word Operator.Default Test.IsSet name default rest) ≡ value scope rest }
    ensures empty_filled { (scope : List ℕ → Option (List ℕ)) (name : List ℕ) (default rest : Parts) → scope name ≡ Some [] → value scope (with_word Operator.Default Test.IsFilled name default rest) ≡ value scope default ++ value scope rest }
    ensures unset { (scope : List ℕ → Option (List ℕ)) (test : Test) (name : List ℕ) (default rest : Parts) → scope name ≡ None → value scope (with_word Operator.Default test name default rest) ≡ value scope default ++ value scope rest }
{}

/// The value of `${v+word}` and of `${v:+word}` before the rest of a word: the word's value where `v` is set and not empty, and
/// none where it is unset. An empty `v` is set, but not filled: `${v+word}` has the word's value then, and `${v:+word}` none.
pub fn alternatives_have_values()
    ensures filled { (scope : List ℕ → Option (List ℕ)) (test : Test) (name text : List ℕ) (alternative rest : Parts) → scope name ≡ Some text → text ≢ [] → value scope (with_word Operator.Alternative test name alternative rest) ≡ value scope alternative ++ value scope rest }
    ensures empty_set { (scope : List ℕ → Option (List ℕ)) (name : List ℕ) (alternative rest : Parts) → scope name ≡ Some [] → value scope (with_word Operator.Alternative Test.IsSet name alternative rest) ≡ value scope alternative ++ value scope rest }
    ensures empty_filled { (scope : List ℕ → Option (List ℕ)) (name : List ℕ) (alternative rest : Parts) → scope name ≡ Some [] → value scope (with_word Operator.Alternative Test.IsFilled name alternative rest) ≡ value scope rest }
    ensures unset { (scope : List ℕ → Option (List ℕ)) (test : Test) (name : List ℕ) (alternative rest : Parts) → scope name ≡ None → value scope (with_word Operator.Alternative test name alternative rest) ≡ value scope rest }
{}

/// `${v?word}` and `${v:?word}` before the rest of a word: they stand for the text of `v` and refuse nothing where it is set and
/// not empty. Where `v` is unset, the text is refused: with the word's value, or, if the word is refused itself, with what that one
/// is refused with. An empty `v` is set, but not filled: `${v?word}` stands for it then, and `${v:?word}` is refused.
pub fn required_variables_refuse()
    ensures filled { (scope : List ℕ → Option (List ℕ)) (test : Test) (name text : List ℕ) (word rest : Parts) → scope name ≡ Some text → text ≢ [] → (value scope (with_word Operator.Required test name word rest) ≡ text ++ value scope rest) × (refusal scope (with_word Operator.Required test name word rest) ≡ refusal scope rest) }
    ensures empty_set { (scope : List ℕ → Option (List ℕ)) (name : List ℕ) (word rest : Parts) → scope name ≡ Some [] → (value scope (with_word Operator.Required Test.IsSet name word rest) ≡ value scope rest) × (refusal scope (with_word Operator.Required Test.IsSet name word rest) ≡ refusal scope rest) }
    ensures empty_filled { (scope : List ℕ → Option (List ℕ)) (name : List ℕ) (word rest : Parts) → scope name ≡ Some [] → refusal scope (with_word Operator.Required Test.IsFilled name word rest) ≡ Some (unwrap_or (refusal scope word) (value scope word)) }
    ensures unset { (scope : List ℕ → Option (List ℕ)) (test : Test) (name : List ℕ) (word rest : Parts) → scope name ≡ None → refusal scope (with_word Operator.Required test name word rest) ≡ Some (unwrap_or (refusal scope word) (value scope word)) }
{}

/// The word of a variable that stands for its own text or for nothing refuses nothing: only the rest may. If the word is chosen,
/// what it is refused with comes first.
pub fn words_that_are_not_chosen_refuse_nothing()
    ensures own { (scope : List ℕ → Option (List ℕ)) (operator : Operator) (test : Test) (name : List ℕ) (word rest : Parts) → choice_of operator (passes test (scope name)) ≡ Choice.Own → refusal scope (with_word operator test name word rest) ≡ refusal scope rest }
    ensures nothing { (scope : List ℕ → Option (List ℕ)) (operator : Operator) (test : Test) (name : List ℕ) (word rest : Parts) → choice_of operator (passes test (scope name)) ≡ Choice.Nothing → refusal scope (with_word operator test name word rest) ≡ refusal scope rest }
    ensures chosen { (scope : List ℕ → Option (List ℕ)) (operator : Operator) (test : Test) (name : List ℕ) (word rest : Parts) → choice_of operator (passes test (scope name)) ≡ Choice.Word → refusal scope (with_word operator test name word rest) ≡ first_of (refusal scope word) (refusal scope rest) }
{}

/// A text without `$`, escape character and, where there are quotes, without quotes is refused under no look-up.
pub fn ordinary_texts_are_not_refused()
    ensures { (kind : Kind) (escape : Escape) (text : List ℕ) → IsUtf8 text → AreOrdinary kind escape text → (found : Parts) → IsWord kind escape text found → (scope : List ℕ → Option (List ℕ)) → refusal scope found ≡ None }
{}

/// What is reported of a line: to what is against its texts so far what is against the next is added, so it doesn't matter how
/// they are grouped, and a text with a value adds nothing.
pub fn what_is_against_a_line_adds_up()
    ensures grouped { (one two three : Option Unexpanded) → worse (worse one two) three ≡ worse one (worse two three) }
    ensures nothing { (fault : Option Unexpanded) → worse fault None ≡ fault }
    ensures lists { (one two : List (Option Unexpanded)) → worst (one ++ two) ≡ worse (worst one) (worst two) }
{}
