// Laws of the definitions. The functions do nothing: what is proved of them, their contracts, are the laws.

ghost use Rattle.std.specs.Prelude.{◌≡◌, ◌≢◌, ◌⊎◌, ◌<◌, ◌≤◌, ◌+◌, ◌∷◌, ◌++◌, ℕ, List, [], Some, None, length, map, slice_get};
ghost use Rattle.std.specs.List.{concat};
ghost use Rattle.plain.specs.Limits.{most_line_number};
ghost use Rattle.plain.specs.declared.refusal.Refusal.{Refusal};
ghost use Rattle.ascii.specs.Blanks.{trimmed};
ghost use Rattle.lines.specs.Blanks.{continued_part};
ghost use Rattle.lines.specs.Continued.{AreContinued, plain_line};
ghost use Rattle.lines.specs.Escape.{byte_of};
ghost use Rattle.lines.specs.File.{AreDirectives, escape_below, directive_faults, IsKept, IsFile};
ghost use Rattle.lines.specs.Marks.{marks_of};
ghost use Rattle.lines.specs.Ready.{AreReady};
ghost use Rattle.lines.specs.Text.{AreLines, IsRefused};
ghost use Rattle.lines.specs.declared.escape.Escape.{Escape};
ghost use Rattle.lines.specs.declared.escape.Escape.TheVariants.{Backslash};
ghost use Rattle.lines.specs.declared.line.Line.{Line};
ghost use Rattle.lines.specs.declared.directives.Directive.{Directive};

/// Each list of lines has a structure, and all its structures give the same logical lines and the same faults.
pub fn structures_agree()
    ensures some { (lines : List (List ℕ)) → (found : List Line) × (faults : List Refusal) × IsFile lines found faults }
    ensures one { (lines : List (List ℕ)) (found others : List Line) (faults wrong : List Refusal)
        → IsFile lines found faults → IsFile lines others wrong → (found ≡ others) × (faults ≡ wrong) }
{}

/// Each text has its logical lines, or it is refused.
pub fn texts_are_read_or_refused()
    ensures { (text : List ℕ) → ((found : List Line) × AreLines text found) ⊎ ((refusal : Refusal) × IsRefused text refusal) }
{}

/// A text has no two lists of logical lines, no two refusals, and never one of each.
pub fn answers_are_unique()
    ensures lines { (text : List ℕ) (found others : List Line) → AreLines text found → AreLines text others → found ≡ others }
    ensures refusals { (text : List ℕ) (one other : Refusal) → IsRefused text one → IsRefused text other → one ≡ other }
    ensures apart { (text : List ℕ) (found : List Line) (refusal : Refusal) → AreLines text found → IsRefused text refusal → ⊥ }
{}

/// Each text has one list of lines that are ready.
pub fn ready_lines_are_unique()
    ensures some { (text : List ℕ) → (found : List Line) × AreReady text found }
    ensures one { (text : List ℕ) (found others : List Line) → AreReady text found → AreReady text others → found ≡ others }
{}

/// The lines that are ready of a text's front are the first of the text's logical lines, unless the text is refused.
pub fn ready_lines_stay()
    ensures { (front rest : List ℕ) (ready found : List Line) → AreReady front ready → AreLines (front ++ rest) found
        → (more : List Line) × (found ≡ ready ++ more) }
{}

/// Each logical line of a text has a number from 1 to 1,048,576, which is the most bytes of a text, and the numbers ascend.
pub fn numbers_ascend()
    ensures within { (text : List ℕ) (found : List Line) → AreLines text found
        → (k : ℕ) (line : Line) → slice_get found k ≡ Some line → (1 ≤ line.number) × (line.number ≤ most_line_number) }
    ensures ascend { (text : List ℕ) (found : List Line) → AreLines text found
        → (j k : ℕ) (line other : Line) → slice_get found j ≡ Some line → slice_get found k ≡ Some other
        → j < k → line.number < other.number }
{}

/// The text of a logical line isn't empty, and has no blanks at its ends.
pub fn texts_are_trimmed()
    ensures { (text : List ℕ) (found : List Line) → AreLines text found
        → (k : ℕ) (line : Line) → slice_get found k ≡ Some line → (line.text ≢ []) × (trimmed line.text ≡ line.text) }
{}

/// A file of directives and of lines of which each but the last one continues has one logical line: what is before the escape
/// character of each, and then the last line, without the blanks around it all. Its number is that of the first line below the directives.
/// That is so under the escape character that the directives set, where no line is blank or a comment, and where the text isn't
/// empty and has no mark of a heredoc.
pub fn continued_lines_join()
    ensures { (top : List (List ℕ)) (directives : List Directive) (escape : Escape) (fronts parts : List (List ℕ)) (last : List ℕ)
        → AreDirectives top directives → escape ≡ escape_below Backslash directives
        → AreContinued (byte_of escape) fronts parts → IsKept last → continued_part (byte_of escape) last ≡ None
        → trimmed (concat parts ++ last) ≢ [] → marks_of (trimmed (concat parts ++ last)) ≡ []
        → (found : List Line) (faults : List Refusal) → IsFile (top ++ (fronts ++ last ∷ [])) found faults
        → (faults ≡ directive_faults [] directives) × (found ≡ plain_line (length top + 1) escape (trimmed (concat parts ++ last)) ∷ []) }
{}

/// The heredocs of a logical line are those of the marks in its text, in their order.
pub fn heredocs_are_those_of_the_marks()
    ensures { (text : List ℕ) (found : List Line) → AreLines text found
        → (k : ℕ) (line : Line) → slice_get found k ≡ Some line → map (λ heredoc. heredoc.mark) line.heredocs ≡ marks_of line.text }
{}

/// All logical lines of a text have one escape character.
pub fn lines_have_one_escape()
    ensures { (text : List ℕ) (found : List Line) → AreLines text found
        → (j k : ℕ) (line other : Line) → slice_get found j ≡ Some line → slice_get found k ≡ Some other
        → line.escape ≡ other.escape }
{}
