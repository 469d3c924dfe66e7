// Laws of the definitions. The functions do nothing: what is proved of them, their contracts, are the laws.

ghost use Rattle.std.specs.Prelude.{◌≡◌, ◌↔◌, ℕ, true, List, Option};
ghost use Rattle.ascii.specs.Pieces.{pieces};
ghost use Rattle.lines.specs.Marks.{after_flags};
ghost use Rattle.lines.specs.declared.escape.Escape.{Escape};
ghost use Rattle.words.specs.Parts.{Part, IsMadeOf};
ghost use Rattle.words.specs.Cutting.{AreWords, IsOpen, AreUnquoted, words, ends_open};
ghost use Rattle.words.specs.ReadParts.{parts};
ghost use Rattle.words.specs.Pairs.{IsLabelCut, label_pair};
ghost use Rattle.words.specs.Flag.{behind_flags};

/// Each text is made of just one list of parts.
pub fn parts_are_unique()
    ensures some { (escape : Escape) (text : List ℕ) → IsMadeOf escape text (parts escape text) }
    ensures one { (escape : Escape) (text : List ℕ) (found : List Part) → IsMadeOf escape text found → found ≡ parts escape text }
{}

/// So a text has just one list of words, an open quote or none, and one cut at an `=`, which are those that its parts give.
pub fn readings_are_unique()
    ensures words { (escape : Escape) (text : List ℕ) (found : List (List ℕ)) → AreWords escape text found ↔ (found ≡ words escape text) }
    ensures quotes { (escape : Escape) (text : List ℕ) → IsOpen escape text ↔ (ends_open escape text ≡ true) }
    ensures cuts { (escape : Escape) (word : List ℕ) (cut : Option (List ℕ × List ℕ)) → IsLabelCut escape word cut ↔ (cut ≡ label_pair escape word) }
{}

/// The words of a text without quotes and escape characters are its pieces.
pub fn unquoted_words_are_pieces()
    ensures { (escape : Escape) (text : List ℕ) → AreUnquoted escape text → words escape text ≡ pieces text }
{}

/// What follows the flags has the pieces from the first one on that is no flag.
pub fn flags_are_the_first_pieces()
    ensures { (text : List ℕ) → pieces (behind_flags text) ≡ after_flags (pieces text) }
{}
